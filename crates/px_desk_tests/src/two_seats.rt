// A desk of two seats over the session of a plan.
use px_compile::compile;
use px_desk::{Desk, EventDesk};
use px_event::{Event, Names, Values};
use px_naive::Naive;
use px_ports::MemDisk;
use px_sem::start;
use px_session::create;
use px_value::{Name, Value};
use std::alloc::Global;
use std::test::Fail;

const PLAN: &[u8] = b"A: { Start Lookup(go); }";

// The event of the line `set x = 1`.
fn report(alloc: Global) -> Result<Event, Fail> {
    Ok(Event::Report {
        name: Name::new(alloc, "x")?,
        args: Values::from(Vec::new(alloc)),
        value: Value::Integer(1),
    })
}

#[test]
fn a_seat_counts_what_another_posts(rt: HostRuntime) -> Result<(), Fail> {
    let alloc = rt.alloc();
    let event = report(alloc)?;
    let disk = MemDisk::new(alloc, Vec::new(alloc), Vec::new(alloc), None)?;
    let Ok(plan) = compile(alloc, PLAN) else {
        panic!(rt; "the plan is fit");
    };
    let Ok(stepper) = start::<Naive>(alloc, &plan) else {
        panic!(rt; "the plan starts");
    };
    let Ok(exec) = create(alloc, disk, "J", PLAN, stepper, 10, Names::new(alloc)) else {
        panic!(rt; "the journal is made");
    };
    let Ok((desk, seats)) = EventDesk::open(alloc, exec, 2) else {
        panic!(rt; "the desk is opened");
    };
    assert!(rt; event.is_fit());

    let mut seats = seats;
    let receipt = desk.post(&rt, alloc, &mut seats[0], 1, 1, &event);
    assert!(rt; matches!(receipt, Ok(receipt) if receipt.position == 1));
    assert!(rt; desk.count(&mut seats[1]) == 1);

    let exec = desk.close(seats);
    assert!(rt; exec.log().len() == 1);
    Ok(())
}
