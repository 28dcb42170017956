// Twenty changes of a drive of a rover. The plan is examples/safe-drive.ple; its conditions are, where a path stands
// without `SafeDrive.` and d(A) says that A is FINISHED:
//
// SafeDrive: Start isKnown(Lookup(WheelStuck)), End d(#1) && d(#2)
// #1: End d(#1.#set) && d(#1.#body), Repeat #test
// #1.#body: Start d(#1.#set) && #test, End d(OneMeter) && (d(TakePic) && d(Counter)), Skip d(#1.#set) && !#test,
//     Invariant !(f(OneMeter) || (f(TakePic) || f(Counter))), where f(A) is that A is FINISHED, and that its outcome is FAILURE
// OneMeter: End isKnown(its handle); TakePic: Start d(OneMeter), End isKnown(its handle); Counter: Start d(TakePic)
// #2: Start d(#1), End d(#2.#set) && (d(#2.#then) && d(#2.#else))
// #2.#then, #2.#else: Start and Skip of d(#2.#set) and #2's #test, End isKnown(the node's handle)
//
// A change costs a look at each part that reads the source, and one at each part above as far as something changes. What
// is joined by `&&`, `||` and a negated `||` are parts; all else is looked at whole. A comparison of what cells hold with
// constants, as d(A) and `outcome == FAILURE`, is asked first, and costs no look where its truth stays.
use crate::bench::Bench;
use px_value::{Handle, NodeState, Outcome, Value};
use std::alloc::Global;

const PLAN: &str = "
Boolean Lookup WheelStuck;
Command Drive(Integer);
Command TakePicture();
Command Signal(String);

SafeDrive: UncheckedSequence
{
  Integer pictures = 0;
  Start isKnown(Lookup(WheelStuck));

  while (! Lookup(WheelStuck) && pictures < 2)
  {
    OneMeter: { Drive(1); }
    TakePic: { TakePicture(); }
    Counter: { pictures = pictures + 1; }
  }
  if (Lookup(WheelStuck)) { Signal(\"stuck\"); } else { Signal(\"done\"); } endif
}
";

const ROOT: &str = "SafeDrive";

const WHILE: &str = "SafeDrive.#1";

const SET: &str = "SafeDrive.#1.#set";

const BODY: &str = "SafeDrive.#1.#body";

const ONE_METER: &str = "SafeDrive.#1.#body.OneMeter";

const TAKE_PIC: &str = "SafeDrive.#1.#body.TakePic";

const COUNTER: &str = "SafeDrive.#1.#body.Counter";

// The cells of the variables stand in preorder: `pictures`, the `#test` of the while, and that of the if.
const PICTURES: u32 = 0;

const TEST: u32 = 1;

// What changes: a cell of a node or of a variable, or what is reported of the wheel.
#[derive(Clone, Copy)]
enum Change<'a> {
    State(&'a str, NodeState),
    Outcome(&'a str, Outcome),
    Handle(&'a str, Handle),
    Integer(u32, i32),
    Boolean(u32, bool),
    Stuck(bool),
}

impl Change<'_> {
    fn make(self, alloc: Global, bench: &mut Bench) -> anyhow::Result<()> {
        match self {
            Change::State(path, state) => {
                let cell = bench.state_cell(bench.node(alloc, path)?);
                bench.set(cell, Value::State(state))
            }
            Change::Outcome(path, outcome) => {
                let cell = bench.outcome_cell(bench.node(alloc, path)?);
                bench.set(cell, Value::Outcome(outcome))
            }
            Change::Handle(path, handle) => {
                let cell = bench.handle_cell(bench.node(alloc, path)?);
                bench.set(cell, Value::Handle(handle))
            }
            Change::Integer(cell, number) => bench.set(cell, Value::Integer(number)),
            Change::Boolean(cell, truth) => bench.set(cell, Value::Boolean(truth)),
            Change::Stuck(truth) => bench.report(alloc, truth),
        }
    }
}

// Each change, the nodes with a condition that it changes, and the looks that it costs.
const CHANGES: &[(Change<'static>, &str, u32)] = &[
    // Start of SafeDrive.
    (Change::Stuck(false), "SafeDrive", 1),
    // Nothing reads it.
    (Change::State(ROOT, NodeState::Executing), "", 0),
    // End of SafeDrive and Start of #2 read it, and neither d(#1) changes.
    (Change::State(WHILE, NodeState::Executing), "", 0),
    // Repeat of #1; #test and !#test in Start and Skip of #body, both beside a false d(#set).
    (Change::Boolean(TEST, true), "SafeDrive.#1", 5),
    // d(#set) in End of #1, Start and Skip of #body, each with its `&&`.
    (
        Change::State(SET, NodeState::Finished),
        "SafeDrive.#1.#body",
        6,
    ),
    // d(#body) in End of #1, which doesn't change.
    (Change::State(BODY, NodeState::Executing), "", 0),
    // End of OneMeter.
    (
        Change::Handle(ONE_METER, Handle::CommandSuccess),
        ONE_METER,
        1,
    ),
    // Its outcome in the Invariant of #body, and f(OneMeter), which is false as before.
    (Change::Outcome(ONE_METER, Outcome::Success), "", 2),
    // d(OneMeter) and the `&&` over it in End of #body, d(OneMeter) and f(OneMeter) in its Invariant, Start of TakePic.
    (Change::State(ONE_METER, NodeState::Finished), TAKE_PIC, 5),
    // End of TakePic.
    (
        Change::Handle(TAKE_PIC, Handle::CommandSuccess),
        TAKE_PIC,
        1,
    ),
    // Its outcome in the Invariant of #body, and f(TakePic): TakePic isn't FINISHED yet.
    (Change::Outcome(TAKE_PIC, Outcome::Failure), "", 2),
    // d(TakePic) and the `&&` over it in End of #body; d(TakePic), f(TakePic) and both `||` over it in its Invariant, of which
    // the upper one is negated; Start of Counter.
    (
        Change::State(TAKE_PIC, NodeState::Finished),
        "SafeDrive.#1.#body SafeDrive.#1.#body.Counter",
        7,
    ),
    // Its outcome in the Invariant of #body, f(TakePic) and both `||` over it.
    (Change::Outcome(TAKE_PIC, Outcome::Success), BODY, 4),
    // No condition reads it.
    (Change::Integer(PICTURES, 1), "", 0),
    // d(Counter) and both `&&` over it in End of #body; d(Counter), f(Counter) and both `||` over it in its Invariant, UNKNOWN
    // without an outcome.
    (Change::State(COUNTER, NodeState::Finished), BODY, 7),
    // Its outcome in the Invariant of #body, f(Counter) and both `||` over it.
    (Change::Outcome(COUNTER, Outcome::Success), BODY, 4),
    // d(#body) and the `&&` over it in End of #1.
    (Change::State(BODY, NodeState::Finished), WHILE, 2),
    // Start of SafeDrive: what is reported is known as before.
    (Change::Stuck(true), "", 1),
    // Repeat of #1; #test and !#test in Start and Skip of #body, each with its `&&`.
    (
        Change::Boolean(TEST, false),
        "SafeDrive.#1 SafeDrive.#1.#body",
        5,
    ),
    // d(#1) and the `&&` over it in End of SafeDrive, Start of #2.
    (Change::State(WHILE, NodeState::Finished), "SafeDrive.#2", 3),
];

/// How many of the changes hold: the nodes are told, the looks are so many, and each condition is kept as it is made from
/// scratch. Others are told.
pub(crate) fn held(rt: &impl Print, alloc: Global) -> anyhow::Result<u64> {
    let mut bench = Bench::of(alloc, PLAN)?;
    let held = held_on(rt, alloc, &mut bench);
    drop(bench);
    held
}

fn held_on(rt: &impl Print, alloc: Global, bench: &mut Bench) -> anyhow::Result<u64> {
    begin(alloc, bench)?;
    let mut held = 0_u64;
    for (number, &(change, told, looks)) in CHANGES.iter().enumerate() {
        change.make(alloc, bench)?;
        match fault(alloc, bench, told, looks)? {
            Some(fault) => println!(rt; "change {number}, counted from 0: {fault}")?,
            None => held = held.saturating_add(1),
        }
    }
    Ok(held)
}

// All nodes are INACTIVE, and all conditions were looked at.
fn begin(alloc: Global, bench: &mut Bench) -> anyhow::Result<()> {
    for node in 0..bench.nodes() {
        let cell = bench.state_cell(node);
        bench.set(cell, Value::State(NodeState::Inactive))?;
    }
    bench.refresh(alloc)?;
    Ok(())
}

// What comes of a look where it isn't this; else the first condition that is kept otherwise than it is made.
fn fault(
    alloc: Global,
    bench: &mut Bench,
    told: &str,
    looks: u32,
) -> anyhow::Result<Option<String>> {
    let refreshed = bench.refresh(alloc)?;
    let other = refreshed.other_than(alloc, told, looks);
    drop(refreshed);
    match other? {
        Some(other) => Ok(Some(other)),
        None => bench.unlike(alloc),
    }
}
