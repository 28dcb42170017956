// Words: identifiers and keywords.
ghost use Rattle.std.specs.Prelude.{◌≡◌, ◌++◌, false, IsTrue, IfOk, IfErr};
ghost use Rattle.std.specs.List.{list_all, prefix_len};
ghost use Rattle.px_value.specs.Name.{begins_identifier, continues_identifier};
ghost use Rattle.px_lex.specs.Gap.{begins};
ghost use Rattle.px_lex.specs.Lexer.{Begins, IsFault};
ghost use Rattle.px_lex.specs.Keyword.{keyword_of};
ghost use Rattle.px_lex.specs.Word.{is_real_type};

use crate::fault::LexFault;
use crate::keyword::{Keyword, keyword_of};
use crate::token::TokenKind;
use px_value::{NAME_LIMIT, Name, NameFault, continues_identifier};
use std::alloc::Global;

/// How many letters, digits and `_` a text begins with.
fn run_length(text: &[u8]) -> usize
    ensures { result ≡ prefix_len continues_identifier text.now }
{
    text.iter()
        .take_while(|c| continues_identifier(**c))
        .count()
}

/// The letters, digits and `_` that a text begins with, and what is behind them.
pub(crate) fn split_run(text: &str) -> (&str, &str)
    ensures whole { text.now ≡ result.0.now ++ result.1.now }
    ensures run { IsTrue (list_all continues_identifier result.0.now) }
    ensures longest { begins continues_identifier result.1.now ≡ false }
{
    text.split_at(run_length(text.as_bytes()))
}

/// Whether a word is the name of a type that is left out: Real, Date or Duration.
fn is_real_type(word: &[u8]) -> bool
    ensures { result ≡ is_real_type word.now }
{
    word == b"Real".as_slice() || word == b"Date".as_slice() || word == b"Duration".as_slice()
}

fn keyword(word: &str) -> Option<Keyword>
    ensures { result ≡ keyword_of word.now }
{
    keyword_of(word.as_bytes())
}

fn is_left_out(word: &str) -> bool
    ensures { result ≡ is_real_type word.now }
{
    is_real_type(word.as_bytes())
}

/// The word at the front of a text, and what is behind it.
pub(crate) fn word<'a>(
    alloc: Global,
    at: usize,
    text: &'a str,
) -> Result<(TokenKind, &'a str), LexFault>
    requires { IsTrue (begins begins_identifier text.now) }
    ensures ok { IfOk result (λ read. Begins (Some read.0) text.now read.1.now) }
    ensures fault { IfErr result (λ fault. IsFault fault at text.now) }
{
    let (word, rest) = split_run(text);
    if word.len() > NAME_LIMIT {
        return Err(LexFault::TooLong { at });
    }
    if is_left_out(word) {
        return Err(LexFault::Real { at });
    }
    if let Some(keyword) = keyword(word) {
        return Ok((TokenKind::Keyword(keyword), rest));
    }
    match Name::new(alloc, word) {
        Ok(name) => Ok((TokenKind::Identifier(name), rest)),
        Err(NameFault::NotAName) => unreachable!(),
        Err(NameFault::NoMemory) => Err(LexFault::NoMemory),
    }
}
