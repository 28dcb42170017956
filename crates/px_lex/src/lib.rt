//! Splits a plan's text into tokens, or names the first place where none begins.
//!
//! `lexer` goes over the pieces of a text; `gap`, `word`, `number` and `string` read one piece each, and
//! `keyword` and `sign` are the tables of spellings. `specs/Lexer.antt` says what it is to split.
#![tactic(auto)]

mod fault;
mod gap;
mod keyword;
pub mod laws;
mod lexer;
mod number;
mod sign;
mod string;
mod table;
mod token;
mod word;

pub use fault::LexFault;
pub use keyword::Keyword;
pub use lexer::lex;
pub use sign::Sign;
pub use token::{Token, TokenKind};
