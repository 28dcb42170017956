// What stops a command.
ghost use Rattle.std.specs.Prelude.{◌≡◌};
ghost use Rattle.px_run.specs.declared.stop.Stop.TheVariants.{NoMemory as OutOfMemory};

use px_ending::Refusal;
use px_journal::{CreateWhy, RecoverWhy};
use px_output::PrintFault;
use px_sem::StepFault;
use px_session::ReopenWhy;
use px_syntax::PlanFault;
use px_value::NoMemory;

/// Why a command came to no end of its own.
#[derive(Drop)]
pub enum Stop {
    /// It is refused, and has emitted nothing.
    Refused(Refusal),
    /// The sink failed, or took nothing.
    SinkFailed,
    /// Memory ran out.
    NoMemory,
}

impl From<PrintFault> for Stop {
    ghost use Rattle.px_run.specs.Stops.{stop_of};

    ghost from_gives = { λ fault stop. stop ≡ stop_of fault };

    fn from(fault: PrintFault) -> Self {
        match fault {
            PrintFault::SinkFailed => Stop::SinkFailed,
            PrintFault::NoMemory => Stop::NoMemory,
        }
    }
}

impl From<PlanFault> for Stop {
    ghost use Rattle.px_run.specs.Stops.{stop_of_plan};

    ghost from_gives = { λ fault stop. stop ≡ stop_of_plan fault };

    fn from(fault: PlanFault) -> Self {
        match fault {
            PlanFault::NoMemory => Stop::NoMemory,
            fault => Stop::Refused(Refusal::PlanAtFault(fault)),
        }
    }
}

impl From<StepFault> for Stop {
    ghost use Rattle.px_run.specs.Stops.{stop_of_start};

    ghost from_gives = { λ fault stop. stop ≡ stop_of_start fault };

    fn from(fault: StepFault) -> Self {
        match fault {
            StepFault::Runaway => Stop::Refused(Refusal::RunawayAtStart),
            StepFault::NoMemory => Stop::NoMemory,
        }
    }
}

impl From<NoMemory> for Stop {
    ghost from_gives = { λ _ stop. stop ≡ OutOfMemory };

    fn from(_: NoMemory) -> Self {
        Stop::NoMemory
    }
}

impl From<CreateWhy> for Stop {
    ghost use Rattle.px_run.specs.Stops.{stop_of_create};

    ghost from_gives = { λ fault stop. stop ≡ stop_of_create fault };

    fn from(fault: CreateWhy) -> Self {
        match fault {
            CreateWhy::Exists => Stop::Refused(Refusal::JournalExists),
            CreateWhy::DiskFault => Stop::Refused(Refusal::DiskFault),
            CreateWhy::NoMemory => Stop::NoMemory,
        }
    }
}

impl From<RecoverWhy> for Stop {
    ghost use Rattle.px_run.specs.Stops.{stop_of_recover};

    ghost from_gives = { λ fault stop. stop ≡ stop_of_recover fault };

    fn from(fault: RecoverWhy) -> Self {
        match fault {
            RecoverWhy::NoJournal => Stop::Refused(Refusal::NoJournal),
            RecoverWhy::Damaged { at } => Stop::Refused(Refusal::JournalDamaged { at }),
            RecoverWhy::DiskFault => Stop::Refused(Refusal::DiskFault),
            RecoverWhy::NoMemory => Stop::NoMemory,
        }
    }
}

impl From<ReopenWhy> for Stop {
    ghost use Rattle.px_run.specs.Stops.{stop_of_reopen};

    ghost from_gives = { λ fault stop. stop ≡ stop_of_reopen fault };

    fn from(fault: ReopenWhy) -> Self {
        match fault {
            ReopenWhy::NoJournal => Stop::Refused(Refusal::NoJournal),
            ReopenWhy::Damaged { at } => Stop::Refused(Refusal::JournalDamaged { at }),
            ReopenWhy::PlanRefused => Stop::Refused(Refusal::JournalPlan),
            ReopenWhy::RunawayAtStart => Stop::Refused(Refusal::RunawayAtStart),
            ReopenWhy::Runaway { at } => Stop::Refused(Refusal::JournalRunaway { at }),
            ReopenWhy::DiskFault => Stop::Refused(Refusal::DiskFault),
            ReopenWhy::NoMemory => Stop::NoMemory,
        }
    }
}
