//! Why a plan is refused, in words.
//!
//! `place` finds the line and the column of a byte, and shows them; `declared` lists the names that a tree declares, and
//! `nearest` finds the one that is meant, `spellings` the word of the language. `lexical`, `syntax`, with `cut`, `wanted`,
//! `hints` and `candidates`, and `fault`, with `missing`, `misfit` and `naming`, say what a stage refuses, and `plan` tells
//! each fault of a plan in turn; `report` is the form of what is told. Which faults there are, and where, is what the
//! stages themselves answer: this crate only puts it into words.
#![tactic(auto)]

mod candidates;
mod cut;
mod declared;
mod fault;
mod hints;
mod lexical;
mod misfit;
mod missing;
mod naming;
mod nearest;
mod place;
mod plan;
mod report;
mod seen;
mod spellings;
mod syntax;
mod wanted;

pub use nearest::{Nearest, push_meant};
pub use place::Place;
pub use plan::why_plan;
pub use report::{Words, end_whole, push_fault};
