//! The command words: what they ask the program for.
//!
//! `command` has what the program can do, `line` the words behind a command's name, and `count` the numbers in them.
//!
//! `specs/Words.antt` says which words ask for which command, `specs/Operands.antt` what the operands are,
//! `specs/Limited.antt` what the option `--events` is, and `specs/Seed.antt` what a seed is.
#![tactic(auto)]

mod command;
mod count;
mod line;

pub use command::Command;
pub use count::EVENT_LIMIT;
