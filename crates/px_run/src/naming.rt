// The names of a script's threads, which its journal gets.
ghost use Rattle.std.specs.Prelude.{◌≡◌};
ghost use Rattle.px_script.specs.Fit.{IsFitScript};

use px_event::Names;
use px_script::Script;
use std::alloc::Global;

/// A script without its names, and the names.
pub(crate) fn without_names(alloc: Global, script: Script) -> (Script, Names)
    ensures threads { result.0.threads ≡ script.threads }
    ensures names { result.1 ≡ script.names }
    ensures fit { IsFitScript script → IsFitScript result.0 }
{
    let Script { threads, names } = script;
    let unnamed = Script {
        threads,
        names: Names::new(alloc),
    };
    (unnamed, names)
}
