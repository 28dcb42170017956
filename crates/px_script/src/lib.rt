//! Scripts: what each thread posts to a running plan, and what it waits for, line by line.
//!
//! `script`, `todo` and `line` are the parts of a script. `read` reads a script from bytes, with `threads` for the lines of
//! each thread so far and `naming` for their names, and `parsed_line` one line: `set_line`, `node_line` with `kinds`, `wait_line` and `thread_line` have
//! the kinds of lines, `place` finds the VALUEs, `value` reads them, and `text` cuts lines and words. `order` turns a script
//! into its posts, in file order, `remainder` is what a history leaves of a script, `worker` is who works a thread's lines
//! off, `stall` says what stops a thread, and `soak` makes a large script from two numbers.
//!
//! `specs/Script.antt` says which script the bytes spell over a plan, `specs/ParsedLine.antt` what a line says,
//! `specs/Order.antt` what file order is, `specs/Remainder.antt` what is left, and `specs/Follows.antt` how a log goes through
//! it; `laws` has what a script means.
#![tactic(auto)]

mod crew_end;
mod fault;
mod kinds;
pub mod laws;
mod line;
mod naming;
mod node_line;
mod order;
mod pace;
mod parsed_line;
mod place;
mod read;
mod remainder;
mod script;
mod set_line;
mod soak;
mod stall;
mod text;
mod thread_line;
mod threads;
mod todo;
mod value;
mod wait_line;
mod worker;

pub use crew_end::CrewEnd;
pub use fault::ScriptFault;
pub use line::{Line, What};
pub use pace::{NoPace, Pace};
pub use read::{LINE_LIMIT, SCRIPT_LIMIT, read_script};
pub use remainder::rest;
pub use script::Script;
pub use soak::soak_script;
pub use stall::Stall;
pub use todo::Todo;
pub use worker::{WorkEnd, Worker};
