// The words behind a command's name: operands, and the option `--events`.
ghost use Rattle.std.specs.Prelude.{◌≡◌, true, IfOk, map};
ghost use Rattle.std.specs.Option.{option_map, option_and_then};
ghost use Rattle.std.specs.String.{string_bytes};
ghost use Rattle.clap.specs.Words.{app_of, found_of, rows_of, is_simple_and_free};
ghost use Rattle.px_words.specs.Limited.{event_limit, with_limit, limited};
ghost use Rattle.px_words.specs.Operands.{operands};
ghost use Rattle.px_words.specs.Line.{plain_app, line_in, rows_read};

use crate::count::{EVENT_LIMIT, count_of};
use clap::error::ErrorKind;
use clap::{Arg, ArgAction, ArgMatches, Command};
use px_value::NoMemory;
use std::alloc::{AllocError, Global};

/// Operands, and the limit of a history's events.
#[derive(Drop)]
pub(crate) struct Line<'a> {
    found: ArgMatches<'a>,
    pub(crate) limit: u32,
}

impl<'a> Line<'a> {
    ghost use Rattle.px_words.specs.Listed.{listed};

    /// The line of a command that has no option.
    pub(crate) fn plain(alloc: Global, words: &'a [String]) -> Result<Option<Line<'a>>, NoMemory>
        ensures { IfOk result (λ line. option_map listed line
            ≡ option_map (with_limit event_limit) (operands (map string_bytes words.now))) }
    {
        Line::read(with_operands(alloc)?, words)
    }

    /// The line of a command that has the option.
    pub(crate) fn limited(alloc: Global, words: &'a [String]) -> Result<Option<Line<'a>>, NoMemory>
        ensures { IfOk result (λ line. option_map listed line ≡ limited (map string_bytes words.now)) }
    {
        let syntax = with_operands(alloc)?;
        let events = Arg::new(alloc, "events").long("events");
        Line::read(syntax.arg(events)?, words)
    }

    fn read(syntax: Command<'a>, words: &'a [String]) -> Result<Option<Line<'a>>, NoMemory>
        requires { is_simple_and_free (app_of syntax) ≡ true }
        ensures { IfOk result (λ line. option_map listed line
            ≡ option_and_then line_in (rows_read (app_of syntax.entry) (map string_bytes words.now))) }
    {
        match syntax.try_get_matches_from(words) {
            Ok(found) => Ok(Line::of(found)),
            Err(fault) => match fault.kind() {
                ErrorKind::OutOfMemory => Err(AllocError),
                _ => Ok(None),
            },
        }
    }

    fn of(found: ArgMatches<'a>) -> Option<Line<'a>>
        ensures { option_map listed result ≡ line_in (rows_of (found_of found.entry)) }
    {
        let limit = match found.get_str("events") {
            Some(number) => count_of(number)?,
            None => EVENT_LIMIT,
        };
        Some(Line { found, limit })
    }

    /// The operands, in their order.
    pub(crate) fn operands(&self) -> &[&'a str]
        ensures { map (λ word. word.now) result.now ≡ (listed self.now).operands }
    {
        self.found.get_raw("operands").unwrap_or_default()
    }
}

// A command that takes any operands and has no option, not even one for help.
fn with_operands<'a>(alloc: Global) -> Result<Command<'a>, AllocError>
    ensures { IfOk result (λ syntax. app_of syntax ≡ plain_app) }
{
    let operands = Arg::new(alloc, "operands").action(ArgAction::Append);
    Command::new(alloc, "line")
        .no_binary_name(true)
        .disable_help_flag(true)
        .arg(operands)
}
