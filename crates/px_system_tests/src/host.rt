// The real host, and standard output.
use px_ports::{Fetched, Host, HostFault};
use px_system::StdHost;
use std::alloc::Global;
use std::rt::Files;
use std::{fs, io};

const FILE: &str = "plexil-files/host";

/// Whether a file of 300,000 bytes, more than the longest single read, is read up to the limit, what is no file isn't read, and
/// bytes are written.
pub(crate) fn reads_and_writes<R: Files + Print + Copy>(rt: R, alloc: Global) -> io::Result<bool> {
    fs::write(&rt, FILE, vec![in alloc; b'x'; 300_000]?)?;
    Ok(holds(rt, alloc))
}

fn holds<R: Files + Print + Copy>(rt: R, alloc: Global) -> bool {
    let mut host = StdHost::new(alloc, rt);
    is_read(&mut host, alloc)
        && is_none(&mut host, alloc, crate::FOLDER)
        && is_none(&mut host, alloc, "no such file")
        && is_none(&mut host, alloc, "")
        && host.emit(b"written\n") == Ok(8)
}

// Whether the file is read up to the limit.
fn is_read<R: Files + Print>(host: &mut StdHost<R>, alloc: Global) -> bool {
    length_of(host.fetch(alloc, FILE, 300_001)) == Ok(Some(300_000))
        && length_of(host.fetch(alloc, FILE, 300_000)) == Ok(Some(300_000))
        && length_of(host.fetch(alloc, FILE, 299_999)) == Ok(None)
        && length_of(host.fetch(alloc, FILE, 0)) == Ok(None)
}

fn is_none<R: Files + Print>(host: &mut StdHost<R>, alloc: Global, name: &str) -> bool {
    length_of(host.fetch(alloc, name, 9)) == Err(HostFault::Failed)
}

// The length of a file that came whole, or none where it is longer.
fn length_of(fetched: Result<Fetched, HostFault>) -> Result<Option<usize>, HostFault> {
    match fetched {
        Ok(Fetched::Whole(bytes)) => Ok(Some(bytes.len())),
        Ok(Fetched::Longer) => Ok(None),
        Err(fault) => Err(fault),
    }
}
