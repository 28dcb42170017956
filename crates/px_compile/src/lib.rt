//! The plan that the bytes of a text spell, and its tree.
//!
//! `plan` puts the stages together: text, tokens, tree, faults, core plan. `specs/Compiled.antt` says what they are to
//! answer, and `laws` that this is one answer.
#![tactic(auto)]

pub mod laws;
mod plan;

pub use plan::{Compiled, TEXT_LIMIT, compile, compile_tree};
