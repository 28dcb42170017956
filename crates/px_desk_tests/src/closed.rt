// An executive whose disk has failed in a post.
ghost use Rattle.std.specs.Prelude.{◌≡◌, None, IfOk};

use crate::opening::opened;
use px_event::Event;
use px_exec::{Exec, PostFault};
use px_naive::Naive;
use px_ports::{Disk, MemDisk};
use px_sem::Stepper;
use px_value::{Handle, Path};
use std::alloc::Global;
use std::process::Abort;
use std::test::Fail;

const PLAN: &[u8] = b"A: { Drive(3); }";

// The command of the plan's node is done.
fn completion(alloc: Global) -> Result<Event, Fail> {
    Ok(Event::Handle {
        node: Path::new(alloc, "A")?,
        handle: Handle::CommandSuccess,
    })
}

// A disk whose tenth device call fails. The calls are attach, len, write, sync, write, sync, write and sync, with which the
// journal is made, and then those of the post, of which the tenth is the first sync.
fn failing_disk(alloc: Global) -> Result<MemDisk, Fail>
    ensures { IfOk result (λ disk. disk.bound ≡ None) }
{
    let failing = vec![in alloc; 10]?;
    Ok(MemDisk::new(alloc, Vec::new(alloc), failing, None)?)
}

// The first post fails with the disk, and the second is told so.
fn posts_fail<S: Stepper, D: Disk + Drop, R: Abort>(
    rt: &R,
    alloc: Global,
    exec: &mut Exec<S, D>,
) -> Result<(), Fail> {
    let event = completion(alloc)?;
    assert!(rt; event.is_fit());
    let first = exec.post(alloc, 1, 1, &event);
    assert!(rt; matches!(first, Err(PostFault::DiskFault)));
    let second = exec.post(alloc, 1, 1, &event);
    assert!(rt; matches!(second, Err(PostFault::Closed { faults: 1 })));
    Ok(())
}

fn posts_fail_over<S: Stepper, D: Disk + Drop, R: Abort>(
    rt: &R,
    alloc: Global,
    disk: D,
) -> Result<(), Fail>
    requires unbound { D.bound_to disk ≡ None }
{
    let mut exec = opened::<S, D, R>(rt, alloc, PLAN, disk);
    posts_fail(rt, alloc, &mut exec)
}

#[test]
fn a_closed_executive_answers_its_count(rt: HostRuntime) -> Result<(), Fail> {
    let disk = failing_disk(rt.alloc())?;
    posts_fail_over::<Naive, MemDisk, HostRuntime>(&rt, rt.alloc(), disk)
}
