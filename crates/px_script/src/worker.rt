// Who works the lines of one thread off.
ghost use Rattle.std.specs.Prelude.{◌≡◌};
ghost use Rattle.px_script.specs.declared.worker.WorkEnd.TheVariants.{Going};

/// Whether a worker goes on.
#[derive(Clone, Copy, Debug, PartialEq, Eq)]
pub enum WorkEnd {
    /// It does, as soon as its next line can be passed; it may have none left.
    Going,
    /// An append has failed, its own or another worker's, so no event is accepted any more.
    Disk,
    /// Memory ran out before its next post.
    NoMemory,
}

/// Works the lines of one thread off, through a seat of a desk.
#[derive(Drop)]
pub struct Worker<S> {
    /// Its thread's own.
    pub seat: S,
    /// How many of its thread's lines are passed.
    pub at: u32,
    /// Whether it goes on, after its last walk.
    pub end: WorkEnd,
}

impl<S> Worker<S> {
    /// A worker that goes on from a place of its thread's lines.
    pub fn new(seat: S, at: u32) -> Worker<S>
        ensures { result ≡ record { seat = seat; at = at; end = Going } }
    {
        Worker {
            seat,
            at,
            end: WorkEnd::Going,
        }
    }

    /// Its seat.
    pub fn into_seat(self) -> S
        ensures { result ≡ self.seat }
    {
        let Worker {
            seat,
            at: _,
            end: _,
        } = self;
        seat
    }
}
