// The names of threads, as they are read.
ghost use Rattle.std.specs.Prelude.{◌≡◌, false, IsTrue, IfErr, OnOk};
ghost use Rattle.px_event.specs.Fit.{is_interface};
ghost use Rattle.px_event.specs.Names.{name_of};
ghost use Rattle.px_script.specs.Fault.{number_of};
ghost use Rattle.px_script.specs.Naming.{is_another, with_name};
ghost use Rattle.px_script.specs.Script.{Fault, IsFaultOf};
ghost use Rattle.px_script.specs.declared.fault.FaultKind.TheVariants.{OtherName};
ghost use Rattle.px_script.specs.declared.fault.ScriptFault.TheVariants.{NoMemory as OutOfMemory};

use crate::fault::{FaultKind, ScriptFault};
use px_event::Names;
use px_value::Name;

/// Gives a thread the name that a line of this number has for it, if it has one. A thread keeps the name that it has: with
/// another the line is at fault.
pub(crate) fn add_name(
    names: &mut Names,
    thread: u8,
    name: Option<Name>,
    line: u32,
) -> Result<(), ScriptFault>
    requires { IsTrue (is_interface name) }
    ensures ok { OnOk result (names.new ≡ with_name names.old thread name) }
    ensures same { OnOk result (is_another name (name_of thread names.old) ≡ false) }
    ensures fault { IfErr result (IsFaultOf (Fault line (number_of OtherName))) }
    ensures memory { is_another name (name_of thread names.old) ≡ false → IfErr result (λ fault. fault ≡ OutOfMemory) }
{
    let Some(name) = name else {
        return Ok(());
    };
    match names.of(thread) {
        Some(kept) if *kept != name => Err(FaultKind::OtherName.at(line)),
        Some(_) => Ok(()),
        None => Ok(names.add(thread, name)?),
    }
}
