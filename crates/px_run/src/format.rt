// The command `format`: reads a plan, and prints it in its layout.
ghost use Rattle.std.specs.Prelude.{◌≡◌, ℕ, List, IfOk, IfErr};
ghost use Rattle.px_compile.specs.Compiled.{IsSpelled};
ghost use Rattle.px_core.specs.Plan.{Tree};
ghost use Rattle.px_output.specs.View.{view, KeepsFiles, OnlyReads};
ghost use Rattle.px_print.specs.Layout.{layout};
ghost use Rattle.px_syntax.specs.Plan.{PlanTree};
ghost use Rattle.px_run.specs.Course.{Untouched};
ghost use Rattle.px_run.specs.Reading.{Reads, with_text};
ghost use Rattle.px_run.specs.Format.{FormatCalls};
ghost use Rattle.px_run.specs.Kinds.{plan_file};
ghost use Rattle.px_run.specs.Stops.{Performs, StopsReading};

use crate::reading::fetch_tree;
use crate::stop::Stop;
use px_ending::End;
use px_output::emit_all;
use px_ports::Host;
use px_print::print;
use std::alloc::Global;
use std::mem::forget;

/// Prints the plan in this file in its layout (docs/LANGUAGE.md, "Layout").
pub fn format<H: Host>(alloc: Global, plan: &str, host: &mut H) -> Result<End, Stop>
    ensures performs { Performs (view H.Host host.old) (view H.Host host.new)
        (FormatCalls plan.now (view H.Host host.old) (view H.Host host.new) Untouched) result }
    ensures keeps { KeepsFiles (view H.Host host.old) (view H.Host host.new) }
{
    let text = fetch_layout(alloc, plan, host)?;
    emit_all(host, &text)?;
    Ok(End::Done)
}

// The layout of the plan in this file.
fn fetch_layout<H: Host>(alloc: Global, plan: &str, host: &mut H) -> Result<Vec<u8>, Stop>
    ensures ok { IfOk result (λ text. (source : List ℕ × Tree) × (tree : PlanTree)
        × Reads (with_text plan_file) (view H.Host host.old) (view H.Host host.new) plan.now source
        × IsSpelled source.0 tree × (text.items ≡ layout tree)) }
    ensures err { IfErr result
        (StopsReading plan_file (view H.Host host.old) (view H.Host host.new) plan.now) }
    ensures only { OnlyReads (view H.Host host.old) (view H.Host host.new) }
{
    let made = fetch_tree(alloc, plan, host)?;
    let text = print(alloc, &made.tree);
    // Left to the end of the process, since to free a large tree piece by piece takes a tenth of the time.
    forget(made);
    Ok(text?)
}
