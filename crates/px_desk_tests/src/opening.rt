// An executive of a plan that has started. It is made for any stepper, one call for each thing that comes to be on the way.
ghost use Rattle.std.specs.Prelude.{◌≡◌, ◌≤◌, None, Some, [], length};
ghost use Rattle.px_core.specs.Fit.{IsFit};
ghost use Rattle.px_core.specs.Plan.{tree_of};
ghost use Rattle.px_sem.specs.Run.{run};
ghost use Rattle.px_sem.specs.Stepper.{Pending};

use px_compile::compile;
use px_core::Plan;
use px_event::Names;
use px_exec::Exec;
use px_ports::Disk;
use px_sem::{Stepper, start};
use px_session::create;
use std::alloc::Global;
use std::process::Abort;

/// The executive of the plan with this text, over its journal on a disk that isn't bound yet.
pub(super) fn opened<S: Stepper, D: Disk + Drop, R: Abort>(
    rt: &R,
    alloc: Global,
    text: &[u8],
    disk: D,
) -> Exec<S, D>
    requires short { length text.now ≤ 1048576 }
    requires unbound { D.bound_to disk ≡ None }
{
    let stepper = started(rt, alloc, text);
    match create(alloc, disk, "J", text, stepper, 10, Names::new(alloc)) {
        Ok(exec) => exec,
        Err(_) => panic!(rt; "the journal is made"),
    }
}

fn started<S: Stepper, R: Abort>(rt: &R, alloc: Global, text: &[u8]) -> S
    requires short { length text.now ≤ 1048576 }
    ensures nothing { (S.state result).pending ≡ Pending.Nothing }
    ensures started { run (S.state result).nodes [] ≡ Some (S.state result).world }
{
    match compile(alloc, text) {
        Ok(plan) => {
            let stepper = of_plan(rt, alloc, &plan);
            drop(plan);
            stepper
        }
        Err(_) => panic!(rt; "the plan is fit"),
    }
}

fn of_plan<S: Stepper, R: Abort>(rt: &R, alloc: Global, plan: &Plan) -> S
    requires fit { IsFit (tree_of plan.now) }
    ensures nothing { (S.state result).pending ≡ Pending.Nothing }
    ensures started { run (S.state result).nodes [] ≡ Some (S.state result).world }
{
    let Ok(stepper) = start(alloc, plan) else {
        panic!(rt; "the plan starts");
    };
    stepper
}
