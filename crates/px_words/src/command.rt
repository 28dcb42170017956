// What the command words ask for.
ghost use Rattle.std.specs.Prelude.{◌≡◌, IfOk, map};
ghost use Rattle.std.specs.Option.{option_map, option_and_then, ForSome};
ghost use Rattle.std.specs.String.{string_bytes};
ghost use Rattle.px_words.specs.Limited.{count_of, limited};
ghost use Rattle.px_words.specs.Operands.{operands, of_one, of_two};
ghost use Rattle.px_words.specs.Seed.{seed_of};
ghost use Rattle.px_words.specs.Words.{TraceStart, DryRun, Check, Format, Trace, Names, HasFitLimit, run_of, resume_of, soak_of, command};

use crate::count::{count_of, seed_of};
use crate::line::Line;
use px_value::NoMemory;
use std::alloc::Global;

/// What the program can do.
#[derive(Clone, Copy)]
pub enum Command<'a> {
    /// Prints the trace of the plan's start.
    TraceStart {
        plan: &'a str,
    },
    /// Posts the script's lines in their order, and prints the text of the log.
    DryRun {
        plan: &'a str,
        script: &'a str,
    },
    /// Prints how many nodes the plan has.
    Check {
        plan: &'a str,
    },
    /// Prints the plan in its layout.
    Format {
        plan: &'a str,
    },
    /// Makes a journal, and runs the script, up to so many events.
    Run {
        plan: &'a str,
        script: &'a str,
        journal: &'a str,
        limit: u32,
    },
    /// Opens a journal, and runs the rest of the script, up to so many events in the whole history.
    Resume {
        script: &'a str,
        journal: &'a str,
        limit: u32,
    },
    /// Prints the trace of the journal's history.
    Trace {
        journal: &'a str,
    },
    /// Makes a journal, runs the plan and so many lines of the script that are made from the seed, and prints a summary.
    Soak {
        count: u32,
        seed: u32,
        journal: &'a str,
    },
    /// Prints the names of the interfaces that the journal's events came through.
    Names {
        journal: &'a str,
    },
}

impl<'a> Command<'a> {
    ghost use Rattle.px_words.specs.Asked.{asked};

    /// The command that the words ask for, which are those after the program's own name; `None`
    /// where they ask for none.
    ///
    /// After a word `--` each word is an operand. Before it none may look like an option, but
    /// `run` and `resume` have one that may stand once: `--events N` or `--events=N`, where N is 1
    /// to 6 digits for a number from 1 to [`EVENT_LIMIT`](crate::EVENT_LIMIT). Without it the limit
    /// is that greatest one. The first operand of `soak` is such a number too, and its second 1 to 10
    /// digits for a number below 2^32.
    pub fn of(alloc: Global, words: &'a [String]) -> Result<Option<Command<'a>>, NoMemory>
        ensures asked { IfOk result (λ found. option_map asked found ≡ command (map string_bytes words.now)) }
        ensures within { IfOk result (λ found. ForSome found (λ asks. HasFitLimit (asked asks))) }
    {
        let Some((name, words)) = words.split_first() else {
            return Ok(None);
        };
        match name.as_str() {
            "trace-start" => Command::trace_start(alloc, words),
            "dry-run" => Command::dry_run(alloc, words),
            "check" => Command::check(alloc, words),
            "format" => Command::format(alloc, words),
            "run" => Command::run(alloc, words),
            "resume" => Command::resume(alloc, words),
            "trace" => Command::trace(alloc, words),
            "soak" => Command::soak(alloc, words),
            "names" => Command::names(alloc, words),
            _ => Ok(None),
        }
    }

    #[tactic(auto, using(crate::proofs::Made::made_later))]
    fn trace_start(alloc: Global, words: &'a [String]) -> Result<Option<Command<'a>>, NoMemory>
        ensures { IfOk result (λ found. option_map asked found
            ≡ option_and_then (of_one TraceStart) (operands (map string_bytes words.now))) }
    {
        let Some(plan) = operand(alloc, words)? else {
            return Ok(None);
        };
        Ok(Some(Command::TraceStart { plan }))
    }

    fn dry_run(alloc: Global, words: &'a [String]) -> Result<Option<Command<'a>>, NoMemory>
        ensures { IfOk result (λ found. option_map asked found
            ≡ option_and_then (of_two DryRun) (operands (map string_bytes words.now))) }
    {
        let Some(line) = Line::plain(alloc, words)? else {
            return Ok(None);
        };
        let &[plan, script] = line.operands() else {
            return Ok(None);
        };
        Ok(Some(Command::DryRun { plan, script }))
    }

    #[tactic(auto, using(crate::proofs::Made::made_later))]
    fn check(alloc: Global, words: &'a [String]) -> Result<Option<Command<'a>>, NoMemory>
        ensures { IfOk result (λ found. option_map asked found
            ≡ option_and_then (of_one Check) (operands (map string_bytes words.now))) }
    {
        let Some(plan) = operand(alloc, words)? else {
            return Ok(None);
        };
        Ok(Some(Command::Check { plan }))
    }

    #[tactic(auto, using(crate::proofs::Made::made_later))]
    fn format(alloc: Global, words: &'a [String]) -> Result<Option<Command<'a>>, NoMemory>
        ensures { IfOk result (λ found. option_map asked found
            ≡ option_and_then (of_one Format) (operands (map string_bytes words.now))) }
    {
        let Some(plan) = operand(alloc, words)? else {
            return Ok(None);
        };
        Ok(Some(Command::Format { plan }))
    }

    fn run(alloc: Global, words: &'a [String]) -> Result<Option<Command<'a>>, NoMemory>
        ensures { IfOk result (λ found. option_map asked found
            ≡ option_and_then run_of (limited (map string_bytes words.now))) }
    {
        let Some(line) = Line::limited(alloc, words)? else {
            return Ok(None);
        };
        let &[plan, script, journal] = line.operands() else {
            return Ok(None);
        };
        Ok(Some(Command::Run {
            plan,
            script,
            journal,
            limit: line.limit,
        }))
    }

    fn resume(alloc: Global, words: &'a [String]) -> Result<Option<Command<'a>>, NoMemory>
        ensures { IfOk result (λ found. option_map asked found
            ≡ option_and_then resume_of (limited (map string_bytes words.now))) }
    {
        let Some(line) = Line::limited(alloc, words)? else {
            return Ok(None);
        };
        let &[script, journal] = line.operands() else {
            return Ok(None);
        };
        Ok(Some(Command::Resume {
            script,
            journal,
            limit: line.limit,
        }))
    }

    #[tactic(auto, using(crate::proofs::Made::made_later))]
    fn trace(alloc: Global, words: &'a [String]) -> Result<Option<Command<'a>>, NoMemory>
        ensures { IfOk result (λ found. option_map asked found
            ≡ option_and_then (of_one Trace) (operands (map string_bytes words.now))) }
    {
        let Some(journal) = operand(alloc, words)? else {
            return Ok(None);
        };
        Ok(Some(Command::Trace { journal }))
    }

    fn soak(alloc: Global, words: &'a [String]) -> Result<Option<Command<'a>>, NoMemory>
        ensures { IfOk result (λ found. option_map asked found
            ≡ option_and_then soak_of (operands (map string_bytes words.now))) }
    {
        let Some(line) = Line::plain(alloc, words)? else {
            return Ok(None);
        };
        Ok(Command::soak_of(line.operands()))
    }

    fn soak_of(operands: &[&'a str]) -> Option<Command<'a>>
        ensures { option_map asked result ≡ soak_of (map (λ word. word.now) operands.now) }
    {
        let &[count, seed, journal] = operands else {
            return None;
        };
        Some(Command::Soak {
            count: count_of(count)?,
            seed: seed_of(seed)?,
            journal,
        })
    }

    #[tactic(auto, using(crate::proofs::Made::made_later))]
    fn names(alloc: Global, words: &'a [String]) -> Result<Option<Command<'a>>, NoMemory>
        ensures { IfOk result (λ found. option_map asked found
            ≡ option_and_then (of_one Names) (operands (map string_bytes words.now))) }
    {
        let Some(journal) = operand(alloc, words)? else {
            return Ok(None);
        };
        Ok(Some(Command::Names { journal }))
    }
}

/// The operand of a command that has one.
fn operand<'a>(alloc: Global, words: &'a [String]) -> Result<Option<&'a str>, NoMemory>
    ensures { IfOk result (λ found. option_map (λ word. word.now) found
        ≡ option_and_then (of_one (λ word. word)) (operands (map string_bytes words.now))) }
{
    let Some(line) = Line::plain(alloc, words)? else {
        return Ok(None);
    };
    let &[operand] = line.operands() else {
        return Ok(None);
    };
    Ok(Some(operand))
}
