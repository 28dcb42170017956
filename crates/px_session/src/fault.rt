// Why no session goes on over a journal.
ghost use Rattle.std.specs.Prelude.{◌≡◌};
ghost use Rattle.px_session.specs.Fault.{of_recover, of_plan, of_start, of_open};

use px_exec::OpenWhy;
use px_journal::RecoverWhy;
use px_sem::StepFault;
use px_syntax::PlanFault;

/// Why a journal was not taken up.
#[derive(Clone, Copy)]
pub enum ReopenWhy {
    /// The file has fewer than 13 bytes, or its first byte is 0.
    NoJournal,
    /// The layout is broken first at this place, counted in bytes from 0.
    Damaged { at: u64 },
    /// The text of the journal is no plan that can be run.
    PlanRefused,
    /// The start of the journal's plan does not settle.
    RunawayAtStart,
    /// The event at this place of the history, from 1, is the first that does not settle.
    Runaway { at: u32 },
    /// A call of the disk failed.
    DiskFault,
    /// Memory ran out.
    NoMemory,
}

/// A journal was not taken up.
#[derive(Drop)]
pub struct ReopenFault<D> {
    /// The disk, handed back. Nothing was written to it; but for `DiskFault` a crash leaves just what a read gives.
    pub disk: D,
    /// The reason.
    pub why: ReopenWhy,
}

impl From<RecoverWhy> for ReopenWhy {
    ghost from_gives = { λ fault why. why ≡ of_recover fault };

    fn from(fault: RecoverWhy) -> Self {
        match fault {
            RecoverWhy::NoJournal => ReopenWhy::NoJournal,
            RecoverWhy::Damaged { at } => ReopenWhy::Damaged { at },
            RecoverWhy::DiskFault => ReopenWhy::DiskFault,
            RecoverWhy::NoMemory => ReopenWhy::NoMemory,
        }
    }
}

impl From<PlanFault> for ReopenWhy {
    ghost from_gives = { λ fault why. why ≡ of_plan fault };

    fn from(fault: PlanFault) -> Self {
        match fault {
            PlanFault::NoMemory => ReopenWhy::NoMemory,
            _ => ReopenWhy::PlanRefused,
        }
    }
}

impl From<StepFault> for ReopenWhy {
    ghost from_gives = { λ fault why. why ≡ of_start fault };

    fn from(fault: StepFault) -> Self {
        match fault {
            StepFault::Runaway => ReopenWhy::RunawayAtStart,
            StepFault::NoMemory => ReopenWhy::NoMemory,
        }
    }
}

impl From<OpenWhy> for ReopenWhy {
    ghost from_gives = { λ fault why. why ≡ of_open fault };

    fn from(fault: OpenWhy) -> Self {
        match fault {
            OpenWhy::Runaway { at } => ReopenWhy::Runaway { at },
            OpenWhy::NoMemory => ReopenWhy::NoMemory,
        }
    }
}
