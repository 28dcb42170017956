//! Reads the expression that the tokens of a plan spell from a place on.
//!
//! `operation` reads operands and the operators between them, `primary` what is no operation, by what `opening` says
//! that a token begins, `argument` what stands in parentheses, and `lookup` what closes a lookup; `node` and `token` read
//! single tokens, and `build` makes trees of trees. `specs/Verdict.antt` says what is promised.
#![tactic(auto)]

mod argument;
mod build;
mod lookup;
mod node;
mod opening;
mod operation;
mod primary;
pub mod token;

pub use argument::{parse_arguments, parse_closed};
pub use operation::parse_expr;
pub use primary::literal_of;
