// The command `names`: reads a journal, and prints the names of its entries' interfaces.
ghost use Rattle.std.specs.Prelude.{◌≡◌, None};
ghost use Rattle.px_output.specs.View.{view, KeepsFiles};
ghost use Rattle.px_run.specs.Names.{NamesCarries};

use crate::finishing::Carried;
use px_ending::End;
use px_journal::{RecoverFault, Recovered};
use px_output::print_names;
use px_ports::{Disk, Host};
use px_session::read_journal;
use std::alloc::Global;

/// Prints for each event of the journal of this name on the disk the name of the interface that it came through, or that it
/// has none. Nothing is written, no plan compiled, and no event run.
pub fn names<H: Host, D: Disk>(alloc: Global, journal: &str, host: &mut H, disk: D) -> Carried<D>
    requires unbound { D.bound_to disk ≡ None }
    ensures names { NamesCarries D.Disk journal.now (view H.Host host.old) (view H.Host host.new) disk result }
    ensures keeps { KeepsFiles (view H.Host host.old) (view H.Host host.new) }
{
    let Recovered {
        journal,
        plan: _,
        history,
        names: interfaces,
    } = match read_journal(alloc, disk, journal) {
        Ok(recovered) => recovered,
        Err(RecoverFault { disk, why }) => {
            return Carried {
                result: Err(why.into()),
                disk,
            };
        }
    };
    let disk = journal.into_disk();
    match print_names(alloc, &history, &interfaces, host) {
        Ok(()) => Carried {
            result: Ok(End::Done),
            disk,
        },
        Err(fault) => Carried {
            result: Err(fault.into()),
            disk,
        },
    }
}
