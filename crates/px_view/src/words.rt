// The command words.
use crate::answer::{DONE, Stop, USAGE};
use clap::error::{Error, ErrorKind};
use clap::{Arg, ArgMatches, Command};
use px_pen::Pen;
use px_value::NoMemory;
use std::alloc::Global;

/// What the program can do.
#[derive(Clone, Copy)]
pub enum What {
    /// Says in words what a plan, or a script for it, is refused for.
    Why,
    /// Lists the nodes of a plan.
    Nodes,
    /// Says what a journal holds.
    Journal,
    /// Draws the run of a plan to which a script is posted.
    Chart,
    /// Draws the run that a journal holds.
    ChartJournal,
}

/// What the words ask for.
#[derive(Clone, Copy)]
pub struct Task<'a> {
    pub what: What,
    /// The plan or the journal.
    pub file: &'a str,
    /// The script for the plan.
    pub script: Option<&'a str>,
    /// Nodes are listed whose paths have this in them.
    pub like: &'a str,
    /// The file where the picture goes.
    pub to: Option<&'a str>,
}

/// An argument, as help shows it.
struct ArgForm {
    id: &'static str,
    /// What stands for its value.
    value: &'static str,
    help: &'static str,
    kind: ArgKind,
}

#[derive(Clone, Copy)]
enum ArgKind {
    Required,
    Optional,
    /// An option, whose name is the id.
    Named,
    /// An option that has a letter too.
    Lettered(char),
}

/// A command with its arguments.
struct CommandForm {
    name: &'static str,
    about: &'static str,
    args: &'static [ArgForm],
}

const COMMANDS: [CommandForm; 4] = [
    CommandForm {
        name: "why",
        about: "Says what a plan or a script is refused for, and where",
        args: &[
            ArgForm {
                id: "FILE",
                value: "FILE",
                help: "A plan, or with --plan a script",
                kind: ArgKind::Required,
            },
            ArgForm {
                id: "plan",
                value: "PLAN",
                help: "The file is a script for this plan",
                kind: ArgKind::Named,
            },
        ],
    },
    CommandForm {
        name: "nodes",
        about: "Lists the nodes of a plan, what each waits for, and which lines a script may have for it",
        args: &[
            ArgForm {
                id: "FILE",
                value: "PLAN",
                help: "A plan",
                kind: ArgKind::Required,
            },
            ArgForm {
                id: "like",
                value: "WORD",
                help: "Only nodes whose paths have this in them",
                kind: ArgKind::Named,
            },
        ],
    },
    CommandForm {
        name: "journal",
        about: "Says what a journal holds, entry by entry, and where it is damaged",
        args: &[ArgForm {
            id: "FILE",
            value: "JOURNAL",
            help: "A journal",
            kind: ArgKind::Required,
        }],
    },
    CommandForm {
        name: "chart",
        about: "Draws a run as SVG: that of a plan and a script, or that of a journal",
        args: &[
            ArgForm {
                id: "FILE",
                value: "FILE",
                help: "A plan, or without a script a journal",
                kind: ArgKind::Required,
            },
            ArgForm {
                id: "SCRIPT",
                value: "SCRIPT",
                help: "A script for the plan",
                kind: ArgKind::Optional,
            },
            ArgForm {
                id: "output",
                value: "FILE",
                help: "Where the picture goes, in place of standard output",
                kind: ArgKind::Lettered('o'),
            },
        ],
    },
];

/// The task that the words ask for, which are those behind the program's own name; else who wrote them is told why.
pub fn task_in<'a>(alloc: Global, words: &'a [String], out: &mut Pen) -> Result<Task<'a>, Stop> {
    match syntax(alloc)?.try_get_matches_from(words) {
        Ok(found) => task_of(&found).ok_or(Stop::NoMemory),
        Err(error) => Err(no_task(alloc, &error, out)),
    }
}

// Writes help, or what is wrong with the words.
fn no_task(alloc: Global, error: &Error, out: &mut Pen) -> Stop {
    let status = match error.kind() {
        ErrorKind::OutOfMemory => return Stop::NoMemory,
        ErrorKind::DisplayHelp | ErrorKind::DisplayVersion => DONE,
        _ => USAGE,
    };
    match error.to_string(alloc) {
        Ok(text) => {
            out.push(text.as_str());
            Stop::Refused(status)
        }
        Err(_) => Stop::NoMemory,
    }
}

fn task_of<'a>(found: &ArgMatches<'a>) -> Option<Task<'a>> {
    let (name, rest) = found.subcommand()?;
    let first = rest.get_str("FILE")?;
    let (file, script) = match rest.get_str("plan") {
        Some(plan) => (plan, Some(first)),
        None => (first, rest.get_str("SCRIPT")),
    };
    let what = match name {
        "why" => What::Why,
        "nodes" => What::Nodes,
        "journal" => What::Journal,
        _ if script.is_some() => What::Chart,
        _ => What::ChartJournal,
    };
    Some(Task {
        what,
        file,
        script,
        like: rest.get_str("like").unwrap_or(""),
        to: rest.get_str("output"),
    })
}

fn syntax<'a>(alloc: Global) -> Result<Command<'a>, NoMemory> {
    let mut commands = Vec::new(alloc);
    for form in &COMMANDS {
        commands.push(command(alloc, form)?)?;
    }
    Command::new(alloc, "plexil-view")
        .no_binary_name(true)
        .about("Explains plans, scripts and journals of plexil, and draws their runs")
        .version("1.0")
        .subcommand_required(true)
        .arg_required_else_help(true)
        .subcommands(commands)
}

fn command<'a>(alloc: Global, form: &CommandForm) -> Result<Command<'a>, NoMemory> {
    let mut args = Vec::new(alloc);
    for arg in form.args {
        args.push(arg_of(alloc, arg))?;
    }
    Command::new(alloc, form.name).about(form.about).args(args)
}

fn arg_of<'a>(alloc: Global, form: &ArgForm) -> Arg<'a> {
    let arg = Arg::new(alloc, form.id)
        .value_name(form.value)
        .help(form.help);
    match form.kind {
        ArgKind::Required => arg.required(true),
        ArgKind::Optional => arg,
        ArgKind::Named => arg.long(form.id),
        ArgKind::Lettered(letter) => arg.short(letter).long(form.id),
    }
}
