// The lexer: a loop over the pieces of a text, each told by its first bytes.
ghost use Rattle.std.specs.Prelude.{◌≡◌, ◌<◌, false, length, take, IsTrue, IfOk, IfErr, IfSome, IfNone, OnSome};
ghost use Rattle.px_lex.specs.Gap.{begins};
ghost use Rattle.px_lex.specs.Sign.{sign_of, ends_pair, opens_comment};
ghost use Rattle.px_lex.specs.Lexer.{Begins, IsFault, Splits, FirstFault};
ghost use Rattle.px_lex.specs.Fault.{is_other};

use crate::fault::LexFault;
use crate::gap::{behind_blank, behind_comment, behind_line};
use crate::number::number;
use crate::sign::{Sign, sign_of};
use crate::string::string;
use crate::token::{Token, TokenKind};
use crate::word::word;
use px_value::{begins_identifier, is_digit};
use std::alloc::Global;

/// Whether the second byte is that of some sign of two bytes: mostly it isn't, and then the table isn't gone through.
fn ends_pair(bytes: &[u8]) -> bool
    ensures value { result ≡ ends_pair bytes.now }
    ensures long { IsTrue result → 1 < length bytes.now }
{
    match bytes {
        [_, b, ..] => *b == b'(' || *b == b'|' || *b == b'&' || *b == b'=',
        _ => false,
    }
}

/// The sign that the first two bytes are.
fn sign_of_two(bytes: &[u8]) -> Option<Sign>
    ensures long { OnSome result (1 < length bytes.now) }
    ensures some { IfSome result (λ sign. sign_of (take 2 bytes.now) ≡ Some sign) }
    ensures none { IfNone result (1 < length bytes.now → sign_of (take 2 bytes.now) ≡ None) }
{
    if ends_pair(bytes) {
        return sign_of(&bytes[..2]);
    }
    None
}

/// The sign at the front of a text, as long as it can be, and what is behind it.
fn sign(at: usize, text: &str) -> Result<(TokenKind, &str), LexFault>
    requires other { IsTrue (begins is_other text.now) }
    requires no_comment { opens_comment (take 2 text.now) ≡ false }
    ensures ok { IfOk result (λ read. Begins (Some read.0) text.now read.1.now) }
    ensures fault { IfErr result (λ fault. IsFault fault at text.now) }
{
    let bytes = text.as_bytes();
    if let Some(sign) = sign_of_two(bytes) {
        return Ok((TokenKind::Sign(sign), &text[2..]));
    }
    match sign_of(&bytes[..1]) {
        Some(sign) => Ok((TokenKind::Sign(sign), &text[1..])),
        None => Err(LexFault::Bad { at }),
    }
}

/// The gap or token at the front of a text, and what is behind it.
fn piece<'a>(
    alloc: Global,
    at: usize,
    text: &'a str,
) -> Result<(Option<TokenKind>, &'a str), LexFault>
    requires { 0 < length text.now }
    ensures ok { IfOk result (λ read. Begins read.0 text.now read.1.now) }
    ensures fault { IfErr result (λ fault. IsFault fault at text.now) }
{
    let (kind, rest) = match text.as_bytes() {
        [b' ' | b'\t' | b'\n' | b'\r', ..] => return Ok((None, behind_blank(text))),
        [b'/', b'/', ..] => return Ok((None, behind_line(text))),
        [b'/', b'*', ..] => return Ok((None, behind_comment(at, text)?)),
        [b'"', ..] => string(alloc, at, text)?,
        [first, ..] if is_digit(*first) => number(at, text)?,
        [first, ..] if begins_identifier(*first) => word(alloc, at, text)?,
        _ => sign(at, text)?,
    };
    Ok((Some(kind), rest))
}

/// Splits a text into its tokens.
///
/// The first place where neither a gap nor a token begins decides the error.
pub fn lex(alloc: Global, text: &str) -> Result<Vec<Token>, LexFault>
    ensures ok { IfOk result (λ tokens. Splits text.now tokens.items) }
    ensures fault { IfErr result (FirstFault text.now) }
{
    let mut tokens = Vec::new(alloc);
    let mut rest = text;
    while !rest.is_empty() {
        let at = text.len() - rest.len();
        let (kind, behind) = piece(alloc, at, rest)?;
        if let Some(kind) = kind {
            tokens
                .push(Token { kind, at })
                .map_err(|_| LexFault::NoMemory)?;
        }
        rest = behind;
    }
    Ok(tokens)
}
