// A disk: one file, what a read of it gives now, and what a crash may leave of it.
ghost use Rattle.std.specs.Prelude.{◌≡◌, ◌≤◌, ◌+◌, ℕ, Bool, List, Option, Some, length, slice_range, IsTrue, IfOk, OnOk};
ghost use Rattle.std.specs.Option.{ForSome};
ghost use Rattle.px_ports.specs.Moment.{Images};
ghost use Rattle.px_ports.specs.Disk.{Told, IsFreeFor, Attaches, StaysAttached, CountsFaults, OnlyReads, Writes, Syncs};
ghost use Rattle.px_ports.specs.declared.moment.Moment.{Moment};

/// A call of a disk failed. Its count of faults has risen, as it does at no call that succeeds.
#[derive(Clone, Copy, Debug, PartialEq, Eq)]
pub struct DiskFault;

/// One file that a crash may tear.
///
/// Between two syncs each written range and the part past the old end may hold any bytes after a crash, and the length
/// is any from the old to the new one; after a sync a crash leaves just what a read gives. A write or a sync that
/// failed leaves any image that the same call might have left. No call cuts the file: after each, also after one that
/// failed, a read gives at least as many bytes as before. The calls are device calls, apart from `faults`.
pub trait Disk {
    /// The name to which the disk is bound; none before an `attach`.
    ghost bound_to: { Self → Option (List ℕ) };

    /// Whether the disk is attached, as the other device calls need it.
    ghost is_attached: { Self → Bool };

    /// The bytes that a read gives; none where the disk doesn't tell.
    ghost content: { Self → Told };

    /// The record of the moments so far, which only grows. Its length is the clock.
    ghost moments: { Self → List Moment };

    /// The images that a crash at the end of such a record may leave.
    ghost images: { Images };

    /// How many calls have failed, up to 2^64 - 1.
    ghost faults: { Self → ℕ };

    /// How many writes were asked for, as far as the disk counts them: also those of no byte, and those that failed.
    ghost writes: { Self → ℕ };

    /// Binds the disk to a name and attaches it. A name without a file stands for a file of 0 bytes, which the first
    /// write makes. After a fault the disk is bound to the name or as before, and no more attached than before.
    fn attach(&mut self, name: &str) -> Result<(), DiskFault>
        requires { IsFreeFor name.now (bound_to self.old) }
        ensures attaches { Attaches name.now (bound_to self.old) (bound_to self.new)
            (is_attached self.old) (is_attached self.new) result }
        ensures reads { OnlyReads images (content self.old) (content self.new)
            (moments self.old) (moments self.new) }
        ensures unwritten { writes self.new ≡ writes self.old }
        ensures cause { CountsFaults (faults self.old) (faults self.new) result };

    /// The number of bytes.
    fn len(&mut self) -> Result<u64, DiskFault>
        requires { IsTrue (is_attached self.old) }
        ensures length { IfOk result (λ count. ForSome (content self.old) (λ told. count ≡ length told)) }
        ensures stays { StaysAttached (bound_to self.old) (bound_to self.new)
            (is_attached self.old) (is_attached self.new) }
        ensures reads { OnlyReads images (content self.old) (content self.new)
            (moments self.old) (moments self.new) }
        ensures unwritten { writes self.new ≡ writes self.old }
        ensures cause { CountsFaults (faults self.old) (faults self.new) result };

    /// Fills `into` with the bytes from this place on, which have to be there. After a fault `into` may hold anything.
    fn read_at(&mut self, at: u64, into: &mut [u8]) -> Result<(), DiskFault>
        requires attached { IsTrue (is_attached self.old) }
        requires within { ForSome (content self.old) (λ told. at + length into.old ≤ length told) }
        ensures read { OnOk result (ForSome (content self.old)
            (λ told. into.new ≡ slice_range told at (at + length into.old))) }
        ensures stays { StaysAttached (bound_to self.old) (bound_to self.new)
            (is_attached self.old) (is_attached self.new) }
        ensures reads { OnlyReads images (content self.old) (content self.new)
            (moments self.old) (moments self.new) }
        ensures unwritten { writes self.new ≡ writes self.old }
        ensures cause { CountsFaults (faults self.old) (faults self.new) result };

    /// Writes the bytes at this place, counted from 0 and at most the length, over what is there and past the end. After
    /// a fault a read may give something else, and a crash leaves what one in the same write might have left.
    fn write_at(&mut self, at: u64, bytes: &[u8]) -> Result<(), DiskFault>
        requires attached { IsTrue (is_attached self.old) }
        requires within { ForSome (content self.old) (λ told. at ≤ length told) }
        ensures writes { Writes images at bytes.now (content self.old) (content self.new)
            (moments self.old) (moments self.new) result }
        ensures stays { StaysAttached (bound_to self.old) (bound_to self.new)
            (is_attached self.old) (is_attached self.new) }
        ensures counted { writes self.old ≤ writes self.new }
        ensures cause { CountsFaults (faults self.old) (faults self.new) result };

    /// Syncs what a read gives: after `Ok` a crash leaves just that. After a fault a read may give something else, and
    /// a crash leaves an image from before.
    fn sync(&mut self) -> Result<(), DiskFault>
        requires { IsTrue (is_attached self.old) }
        ensures syncs { Syncs images (content self.old) (content self.new)
            (moments self.old) (moments self.new) result }
        ensures stays { StaysAttached (bound_to self.old) (bound_to self.new)
            (is_attached self.old) (is_attached self.new) }
        ensures unwritten { writes self.new ≡ writes self.old }
        ensures cause { CountsFaults (faults self.old) (faults self.new) result };

    /// The count of calls that have failed, which stays at 2^64 - 1 once it is there.
    fn faults(&self) -> u64
        ensures { result ≡ faults self.now };

    /// What a read gives is one of the images.
    ghost reads_are_left: { (disk : Self) → ForSome (content disk) (λ told. images (moments disk) told) };

    /// No image is longer than what a read gives.
    ghost none_is_longer: { (disk : Self) → ForSome (content disk)
        (λ told. (image : List ℕ) → images (moments disk) image → length image ≤ length told) };
}
