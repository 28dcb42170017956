//! What the second program does: it explains what is refused, lists nodes and entries, and draws runs.
//!
//! `words` has what the command words ask for, and `answer` what is answered to them; `reading` reads files over a host,
//! and the plans and the scripts in them, of which `lines` explains the faulty line; `runaway` says which nodes go on
//! where a start doesn't settle, and `counts` writes counts.
//! `why`, `nodes`, with `terms`, `journal`, with `gates`, and `chart` are the commands, and `top` calls the one that was
//! asked for. Nothing is written but the answer, and nothing is judged here that the crates below don't judge.
#![tactic(auto)]

mod answer;
mod chart;
mod counts;
mod gates;
mod journal;
mod lines;
mod nodes;
mod reading;
mod runaway;
mod terms;
mod top;
mod why;
mod words;

pub use answer::Answer;
pub use top::view;
