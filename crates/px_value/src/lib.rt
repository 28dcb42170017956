//! The values that plans compute with, and the names of what they speak of.
//!
//! `enums`, `name`, `path`, `text` and `value` are the types, and `series` lists of items; `truth`, `comparison`,
//! `arithmetic` and `cells` are the operations, each a table of `specs/`; `laws` has what the tables mean.
#![tactic(auto)]

mod arithmetic;
mod cells;
mod comparison;
mod enums;
pub mod laws;
mod name;
mod path;
mod series;
mod text;
mod truth;
mod value;

pub use arithmetic::{ArithOp, add, arith};
pub use cells::index;
pub use comparison::{CompareOp, compare};
pub use enums::{Failure, Handle, NodeState, Outcome};
pub use name::{
    NAME_LIMIT, Name, NameFault, begins_identifier, continues_identifier, is_digit, is_identifier,
    is_name,
};
pub use path::{PATH_LIMIT, Path, PathFault, is_path};
pub use series::Series;
pub use text::{TEXT_LIMIT, Text, TextFault};
pub use truth::{and, not, or, xor};
pub use value::Value;

/// Memory has run out. It is the one answer that no contract ties to a cause.
pub type NoMemory = std::alloc::AllocError;
