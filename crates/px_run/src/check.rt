// The command `check`: reads a plan, and prints how many nodes it has.
ghost use Rattle.std.specs.Prelude.{◌≡◌, ◌++◌, IfOk, IfErr, Some, codes, decimal};
ghost use Rattle.std.specs.String.{string_bytes};
ghost use Rattle.px_core.specs.Plan.{Tree, count_of};
ghost use Rattle.px_sem.specs.Text.{line};
ghost use Rattle.px_run.specs.Course.{Untouched};
ghost use Rattle.px_run.specs.Headline.{CheckCalls};
ghost use Rattle.px_run.specs.Kinds.{plan_file};
ghost use Rattle.px_run.specs.Reading.{Reads};
ghost use Rattle.px_run.specs.Stops.{Performs, StopsReading};
ghost use Rattle.px_output.specs.View.{view, KeepsFiles, OnlyReads};

use crate::reading::fetch_tree;
use crate::stop::Stop;
use px_ending::End;
use px_output::emit_all;
use px_ports::Host;
use px_value::NoMemory;
use std::alloc::Global;
use std::mem::forget;

/// Prints how many nodes the plan in this file has.
pub fn check<H: Host>(alloc: Global, plan: &str, host: &mut H) -> Result<End, Stop>
    ensures performs { Performs (view H.Host host.old) (view H.Host host.new)
        (CheckCalls plan.now (view H.Host host.old) (view H.Host host.new) Untouched) result }
    ensures keeps { KeepsFiles (view H.Host host.old) (view H.Host host.new) }
{
    let nodes = fetch_nodes(alloc, plan, host)?;
    let text = nodes_line(alloc, nodes)?;
    emit_all(host, text.as_bytes())?;
    Ok(End::Done)
}

// How many nodes the plan in this file has.
fn fetch_nodes<H: Host>(alloc: Global, plan: &str, host: &mut H) -> Result<u32, Stop>
    ensures ok { IfOk result (λ nodes. (tree : Tree)
        × Reads plan_file (view H.Host host.old) (view H.Host host.new) plan.now tree × (nodes ≡ count_of tree)) }
    ensures err { IfErr result
        (StopsReading plan_file (view H.Host host.old) (view H.Host host.new) plan.now) }
    ensures only { OnlyReads (view H.Host host.old) (view H.Host host.new) }
{
    let made = fetch_tree(alloc, plan, host)?;
    let nodes = made.nodes;
    // Left to the end of the process, as by `format`.
    forget(made);
    Ok(nodes)
}

fn nodes_line(alloc: Global, nodes: u32) -> Result<String, NoMemory>
    ensures { IfOk result (λ text. string_bytes text ≡ line (codes "ok " ++ (decimal nodes ++ codes " nodes"))) }
{
    format!(in alloc; "ok {nodes} nodes\n")
}
