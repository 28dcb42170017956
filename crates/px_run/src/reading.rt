// Plans, their trees, and scripts, from their files.
ghost use Rattle.std.specs.Prelude.{◌≡◌, ◌≤◌, ℕ, List, length, IfOk, IfErr, IsTrue};
ghost use Rattle.std.specs.List.{list_all};
ghost use Rattle.px_compile.specs.Compiled.{IsSpelled};
ghost use Rattle.px_core.specs.Fit.{IsFit};
ghost use Rattle.px_core.specs.Plan.{Tree, count_of, tree_of, sites};
ghost use Rattle.px_script.specs.Fit.{IsFitScript};
ghost use Rattle.px_syntax.specs.Plan.{tree_of_surface};
ghost use Rattle.px_run.specs.Reading.{Content, Shows, Reads, with_text};
ghost use Rattle.px_run.specs.Kinds.{plan_file, script_file};
ghost use Rattle.px_run.specs.Stops.{StopsFetching, StopsReading};
ghost use Rattle.px_output.specs.View.{view, OnlyReads};

use crate::stop::Stop;
use px_compile::{Compiled, TEXT_LIMIT, compile, compile_tree};
use px_core::Plan;
use px_ending::Refusal;
use px_ports::{Fetched, Host, HostFault};
use px_script::{SCRIPT_LIMIT, Script, ScriptFault, read_script};
use std::alloc::Global;

/// A plan with the text that spells it.
#[derive(Drop)]
pub struct Source {
    /// The bytes of the file.
    pub text: Vec<u8>,
    /// The plan that they spell.
    pub plan: Plan,
}

/// Reads the plan in the file of this name, and keeps its text. It stops where the file can't be read, has over
/// 1,048,576 bytes or spells no plan that can be run, or where memory runs out.
pub fn fetch_source<H: Host>(alloc: Global, name: &str, host: &mut H) -> Result<Source, Stop>
    ensures ok { IfOk result (λ source. Reads (with_text plan_file) (view H.Host host.old) (view H.Host host.new) name.now
        (source.text.items, tree_of source.plan)) }
    ensures short { IfOk result (λ source. length source.text.items ≤ 1048576) }
    ensures fit { IfOk result (λ source. IsFit (tree_of source.plan)) }
    ensures err { IfErr result
        (StopsReading plan_file (view H.Host host.old) (view H.Host host.new) name.now) }
    ensures only { OnlyReads (view H.Host host.old) (view H.Host host.new) }
{
    let text = fetch_bytes(alloc, name, TEXT_LIMIT, Refusal::PlanTooLong, host)?;
    let plan = compile(alloc, &text)?;
    Ok(Source { text, plan })
}

/// Reads the plan in the file of this name. It stops where `fetch_source` does.
pub fn fetch_plan<H: Host>(alloc: Global, name: &str, host: &mut H) -> Result<Plan, Stop>
    ensures ok { IfOk result (λ plan.
        Reads plan_file (view H.Host host.old) (view H.Host host.new) name.now (tree_of plan)) }
    ensures fit { IfOk result (λ plan. IsFit (tree_of plan)) }
    ensures err { IfErr result
        (StopsReading plan_file (view H.Host host.old) (view H.Host host.new) name.now) }
    ensures only { OnlyReads (view H.Host host.old) (view H.Host host.new) }
{
    Ok(fetch_source(alloc, name, host)?.plan)
}

/// Reads the tree of the plan in the file of this name, and how many nodes the plan has. The plan isn't made. It stops
/// where `fetch_source` does.
pub fn fetch_tree<H: Host>(alloc: Global, name: &str, host: &mut H) -> Result<Compiled, Stop>
    ensures ok { IfOk result (λ made. (text : List ℕ) × (plan : Tree)
        × Reads (with_text plan_file) (view H.Host host.old) (view H.Host host.new) name.now (text, plan)
        × IsSpelled text (tree_of_surface made.tree) × (made.nodes ≡ count_of plan)) }
    ensures err { IfErr result
        (StopsReading plan_file (view H.Host host.old) (view H.Host host.new) name.now) }
    ensures only { OnlyReads (view H.Host host.old) (view H.Host host.new) }
{
    let text = fetch_bytes(alloc, name, TEXT_LIMIT, Refusal::PlanTooLong, host)?;
    Ok(compile_tree(alloc, &text)?)
}

/// Reads the script for this plan in the file of this name. It stops where the file can't be read, has over 16,777,216
/// bytes or a faulty line, or where memory runs out.
pub fn fetch_script<H: Host>(
    alloc: Global,
    name: &str,
    plan: &Plan,
    host: &mut H,
) -> Result<Script, Stop>
    requires { IsFit (tree_of plan.now) }
    ensures ok { IfOk result (λ script.
        Reads (script_file (sites (tree_of plan.now))) (view H.Host host.old) (view H.Host host.new) name.now script) }
    ensures fit { IfOk result (λ script. IsFitScript script) }
    ensures err { IfErr result
        (StopsReading (script_file (sites (tree_of plan.now))) (view H.Host host.old) (view H.Host host.new) name.now) }
    ensures only { OnlyReads (view H.Host host.old) (view H.Host host.new) }
{
    let bytes = fetch_bytes(alloc, name, SCRIPT_LIMIT, Refusal::ScriptTooLong, host)?;
    match read_script(alloc, &bytes, plan) {
        Ok(script) => Ok(script),
        Err(ScriptFault::Fault { line, kind }) => {
            Err(Stop::Refused(Refusal::ScriptAtFault { line, kind }))
        }
        Err(ScriptFault::NoMemory) => Err(Stop::NoMemory),
    }
}

// The bytes of a file, which is refused where it has more than the limit.
fn fetch_bytes<H: Host>(
    alloc: Global,
    name: &str,
    limit: usize,
    too_long: Refusal,
    host: &mut H,
) -> Result<Vec<u8>, Stop>
    ensures ok { IfOk result (λ bytes. Shows limit (view H.Host host.old)
        (view H.Host host.new) name.now (Content bytes.items)) }
    ensures err { IfErr result (StopsFetching limit (view H.Host host.old)
        (view H.Host host.new) name.now too_long) }
    ensures only { OnlyReads (view H.Host host.old) (view H.Host host.new) }
{
    match host.fetch(alloc, name, limit) {
        Ok(Fetched::Whole(bytes)) => Ok(bytes),
        Ok(Fetched::Longer) => Err(Stop::Refused(too_long)),
        Err(HostFault::Failed) => Err(Stop::Refused(Refusal::ReadFault)),
        Err(HostFault::NoMemory) => Err(Stop::NoMemory),
    }
}
