// A List over 4,095 children, which with itself are as many nodes as a plan may have, and what a change of one child costs.
//
// The End of the List is that all children are FINISHED, joined by `&&` in halves of which the front one is rounded down.
// A half with the rest has 4095, 2048, 1024 and so on down to 1 children: 12 times `&&`. The first child alone is always in
// the front half, of 4095, 2047, 1023 and so on down to 1: 11 times. A half of 2^k children, and one of 2^k - 1 but for its
// first, lies k times deep, so all other children do as the last. A child's state is read by one part alone, since no
// condition of a child reads anything: where its truth changes it costs a look at this part, and one at each `&&` above it
// as far as something changes, at most 13.
use crate::bench::Bench;
use anyhow::bail;
use px_value::{NodeState, Value};
use std::alloc::Global;

const CHILDREN: u32 = 4095;

// How often `&&` stands over a child; one time less over the first.
const DEPTH: u32 = 12;

// The children that change: the first two, those round the middle, and the last.
const TRIED: [u32; 6] = [1, 2, 2047, 2048, 2049, 4095];

// The text of the plan.
fn text(alloc: Global) -> anyhow::Result<String> {
    let mut text = String::from_str(alloc, "L: { NodeList:")?;
    for child in 1..=CHILDREN {
        text.push_str(format!(in alloc; " c{child}: {{ }}")?.as_str())?;
    }
    text.push_str(" }")?;
    Ok(text)
}

// Puts a child, by its number, into a state.
fn put(bench: &mut Bench, child: u32, state: NodeState) -> anyhow::Result<()> {
    if bench.nodes() <= child {
        bail!("no child: {child}");
    }
    let cell = bench.state_cell(child);
    bench.set(cell, Value::State(state))
}

// Puts all children into a state.
fn put_all(bench: &mut Bench, state: NodeState) -> anyhow::Result<()> {
    for child in 1..bench.nodes() {
        put(bench, child, state)?;
    }
    Ok(())
}

// Looks again. Whether these nodes are told, after so many looks; else what came of it is told.
fn holds(
    rt: &impl Print,
    alloc: Global,
    bench: &mut Bench,
    change: &str,
    told: &str,
    looks: u32,
) -> anyhow::Result<bool> {
    let refreshed = bench.refresh(alloc)?;
    let other = refreshed.other_than(alloc, told, looks);
    drop(refreshed);
    match other? {
        Some(other) => {
            println!(rt; "{change}: {other}")?;
            Ok(false)
        }
        None => Ok(true),
    }
}

// Whether a change of a child costs what it has to, where the End of the List changes with it.
fn child_holds(
    rt: &impl Print,
    alloc: Global,
    bench: &mut Bench,
    child: u32,
    state: NodeState,
) -> anyhow::Result<bool> {
    put(bench, child, state)?;
    let change = format!(in alloc; "child {child} is {}", state.word())?;
    let looks = if child == 1 { DEPTH } else { DEPTH + 1 };
    holds(rt, alloc, bench, change.as_str(), "L", looks)
}

/// Whether a change of one child costs what it has to: at most 13 looks. What doesn't hold is told.
pub(crate) fn holds_all(rt: &impl Print, alloc: Global) -> anyhow::Result<bool> {
    let mut bench = Bench::of(alloc, text(alloc)?.as_str())?;
    let all = hold_on(rt, alloc, &mut bench);
    drop(bench);
    all
}

fn hold_on(rt: &impl Print, alloc: Global, bench: &mut Bench) -> anyhow::Result<bool> {
    let many = many_hold(rt, alloc, bench)?;
    let tried = tried_hold(rt, alloc, bench)?;
    if let Some(unlike) = bench.unlike(alloc)? {
        println!(rt; "{unlike}")?;
        return Ok(false);
    }
    Ok(many && tried)
}

// One child changes, and then all.
fn many_hold(rt: &impl Print, alloc: Global, bench: &mut Bench) -> anyhow::Result<bool> {
    put_all(bench, NodeState::Executing)?;
    bench.refresh(alloc)?;
    // The `&&` over the child is false as before.
    put(bench, 7, NodeState::Finished)?;
    let one = holds(rt, alloc, bench, "one is FINISHED", "", 2)?;
    // All children are touched, and one stays FINISHED. A look at each other one, one at what is over it, and one at what is
    // over each `&&` but the topmost.
    put_all(bench, NodeState::Finished)?;
    let looks = 4094 + 4094 + 4093;
    let all = holds(rt, alloc, bench, "all are FINISHED", "L", looks)?;
    Ok(one && all)
}

// Single children change, each twice.
fn tried_hold(rt: &impl Print, alloc: Global, bench: &mut Bench) -> anyhow::Result<bool> {
    let mut all = true;
    for child in TRIED {
        all &= child_holds(rt, alloc, bench, child, NodeState::Executing)?;
        all &= child_holds(rt, alloc, bench, child, NodeState::Finished)?;
    }
    Ok(all)
}
