// The end of a file that another process may be making longer.
//
// What is read of a journal in rising order, up to its end, is a journal: a gate is opened only where all that it opens
// stands in the file. And of a file that the program has made, nothing changes any more that stands farther from the end
// than one write of the program is long. So the length and the bytes before it, down to there, are taken at once; those
// before them may be read later.
use std::alloc::Global;
use std::fs::File;
use std::io;
use std::io::{ErrorKind, Read, Seek, SeekFrom};

// More than the program writes at a time: at most 1,048,589 bytes, all of a new journal behind its first gate.
const MOST: u64 = 2_097_152;

// A file with fewer bytes has no journal yet.
const HEADING: u64 = 13;

/// The last bytes of a file, from a place on, as they were when they were read.
#[derive(Drop)]
pub struct Tail {
    place: u64,
    bytes: Vec<u8>,
}

impl Tail {
    /// The end of the file now.
    pub fn read(alloc: Global, file: &mut File) -> io::Result<Tail> {
        let length = file.metadata()?.len();
        let place = length.saturating_sub(MOST);
        file.seek(SeekFrom::Start(place))?;
        let mut bytes = Vec::new(alloc);
        file.read_to_end(&mut bytes)?;
        if length < HEADING {
            // A journal that is made meanwhile is read in parts, of which the first may be from before.
            bytes.truncate(length as usize);
        }
        Ok(Tail { place, bytes })
    }

    /// The length that the file had.
    pub fn end(&self) -> u64 {
        self.place.saturating_add(self.bytes.len() as u64)
    }

    /// Puts these bytes, where they reach, in place of what was read from a place on. Where that begins before them and the
    /// file has changed behind, the two are of different moments, and the call fails: so it may be in a longer file that a
    /// `run` has taken over.
    pub fn cover(&self, at: u64, into: &mut [u8]) -> io::Result<()> {
        if at < self.place {
            return self.confirm(self.place - at, into);
        }
        let kept = self.bytes.get((at - self.place) as usize..).unwrap_or(&[]);
        let count = kept.len().min(into.len());
        into[..count].copy_from_slice(&kept[..count]);
        Ok(())
    }

    // Fails where what was read, from so many bytes before these on, has others in their place.
    fn confirm(&self, before: u64, read: &[u8]) -> io::Result<()> {
        let reached = read.get(before as usize..).unwrap_or(&[]);
        if reached.starts_with(&self.bytes) || self.bytes.starts_with(reached) {
            Ok(())
        } else {
            Err(ErrorKind::Other.into())
        }
    }
}
