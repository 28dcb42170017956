// The refusals of a command, with their statuses and texts.
ghost use Rattle.std.specs.Prelude.{◌≡◌, IfOk};
ghost use Rattle.std.specs.String.{string_bytes};
ghost use Rattle.px_ending.specs.Ending.{script_at_fault, journal_damaged, journal_runaway};

use crate::plan_refusal::plan_refusal;
use crate::status::Status;
use px_syntax::PlanFault;
use px_value::NoMemory;
use std::alloc::Global;

/// Why a command is not carried out.
#[derive(Drop)]
pub enum Refusal {
    /// The words are no command.
    Usage,
    /// The plan has more bytes than the limit.
    PlanTooLong,
    /// The bytes are no plan that can be run.
    PlanAtFault(PlanFault),
    /// The script has more bytes than the limit.
    ScriptTooLong,
    /// A line of the script, counted from 1, has a fault of this kind.
    ScriptAtFault { line: u32, kind: u8 },
    /// The start does not settle.
    RunawayAtStart,
    /// A file could not be read.
    ReadFault,
    /// A journal stands where a new one was to be made.
    JournalExists,
    /// No journal stands where one was to be read.
    NoJournal,
    /// The journal's bytes are broken first at this place, counted from 0.
    JournalDamaged { at: u64 },
    /// The journal's text is no plan that can be run.
    JournalPlan,
    /// The event at this place of the journal's history, from 1, is the first that does not settle.
    JournalRunaway { at: u32 },
    /// A call of the disk failed.
    DiskFault,
}

impl Refusal {
    ghost use Rattle.px_ending.specs.Statuses.{number_of, ending_of};

    /// The status of the refusal.
    pub fn status(&self) -> Status
        ensures { number_of result ≡ (ending_of self.now).status }
    {
        match self {
            Refusal::Usage => Status::NoCommand,
            Refusal::PlanTooLong | Refusal::PlanAtFault(_) => Status::PlanRefused,
            Refusal::ScriptTooLong | Refusal::ScriptAtFault { .. } => Status::ScriptRefused,
            Refusal::JournalExists
            | Refusal::NoJournal
            | Refusal::JournalDamaged { .. }
            | Refusal::JournalPlan
            | Refusal::JournalRunaway { .. } => Status::JournalRefused,
            Refusal::RunawayAtStart => Status::Runaway,
            Refusal::ReadFault => Status::ReadFault,
            Refusal::DiskFault => Status::DiskFault,
        }
    }

    /// The line that gives the reason.
    pub fn text(&self, alloc: Global) -> Result<String, NoMemory>
        ensures { IfOk result (λ text. string_bytes text ≡ (ending_of self.now).text) }
    {
        let text = match self {
            Refusal::Usage => {
                "usage: plexil trace-start PLAN | dry-run PLAN SCRIPT | run PLAN SCRIPT JOURNAL [--events N] | resume SCRIPT JOURNAL [--events N] | trace JOURNAL | check PLAN | format PLAN | soak COUNT SEED JOURNAL | names JOURNAL\n"
            }
            Refusal::PlanTooLong => "plan refused: longer than 1048576 bytes\n",
            Refusal::PlanAtFault(fault) => return plan_refusal(alloc, fault),
            Refusal::ScriptTooLong => "script refused: longer than 16777216 bytes\n",
            Refusal::ScriptAtFault { line, kind } => {
                return script_at_fault(alloc, *line, *kind);
            }
            Refusal::JournalExists => "journal refused: exists\n",
            Refusal::NoJournal => "journal refused: none\n",
            Refusal::JournalDamaged { at } => return journal_damaged(alloc, *at),
            Refusal::JournalPlan => "journal refused: plan\n",
            Refusal::JournalRunaway { at } => return journal_runaway(alloc, *at),
            Refusal::RunawayAtStart => "runaway at start\n",
            Refusal::ReadFault => "read fault\n",
            Refusal::DiskFault => "disk fault\n",
        };
        String::from_str(alloc, text)
    }
}

fn journal_damaged(alloc: Global, at: u64) -> Result<String, NoMemory>
    ensures { IfOk result (λ text. string_bytes text ≡ (journal_damaged at).text) }
{
    format!(in alloc; "journal refused: damaged at byte {at}\n")
}

fn journal_runaway(alloc: Global, at: u32) -> Result<String, NoMemory>
    ensures { IfOk result (λ text. string_bytes text ≡ (journal_runaway at).text) }
{
    format!(in alloc; "journal refused: runaway at event {at}\n")
}

fn script_at_fault(alloc: Global, line: u32, kind: u8) -> Result<String, NoMemory>
    ensures { IfOk result (λ text. string_bytes text ≡ (script_at_fault line kind).text) }
{
    format!(in alloc; "script refused: line {line} kind {kind}\n")
}
