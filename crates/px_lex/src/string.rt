// Strings and their escapes.
ghost use Rattle.std.specs.Prelude.{◌≡◌, false, string_bytes, IsTrue, IfOk, IfErr};
ghost use Rattle.std.specs.Option.{option_map};
ghost use Rattle.px_value.specs.Text.{unescaped};
ghost use Rattle.px_lex.specs.Gap.{begins};
ghost use Rattle.px_lex.specs.Lexer.{Begins, IsFault};
ghost use Rattle.px_lex.specs.String.{is_quote, string_from};

use crate::fault::LexFault;
use crate::token::TokenKind;
use px_value::{Text, TextFault};
use std::alloc::{AllocError, Global};

/// What a character behind a backslash stands for.
fn unescaped(c: char) -> Option<char>
    ensures { result ≡ unescaped c }
{
    match c {
        '"' | '\\' => Some(c),
        'n' => Some('\n'),
        't' => Some('\t'),
        _ => None,
    }
}

/// The content of a string from behind its opening quote, and the text behind its closing one.
///
/// None where the string isn't closed, or holds what it may not.
fn string_from<'a>(alloc: Global, text: &'a str) -> Result<Option<(String, &'a str)>, AllocError>
    ensures { IfOk result (λ read.
        option_map (λ r. (string_bytes r.0, r.1.now)) read ≡ string_from text.entry.now) }
{
    let mut content = String::new(alloc);
    let mut escape = false;
    let mut chars = text.chars();
    while let Some(c) = chars.next() {
        if escape {
            let Some(c) = unescaped(c) else {
                return Ok(None);
            };
            content.push(c)?;
            escape = false;
            continue;
        }
        match c {
            '"' => return Ok(Some((content, chars.as_str()))),
            '\\' => escape = true,
            '\n' | '\r' => return Ok(None),
            _ => content.push(c)?,
        }
    }
    Ok(None)
}

/// The string at the front of a text, and what is behind it.
pub(crate) fn string<'a>(
    alloc: Global,
    at: usize,
    text: &'a str,
) -> Result<(TokenKind, &'a str), LexFault>
    requires { IsTrue (begins is_quote text.now) }
    ensures ok { IfOk result (λ read. Begins (Some read.0) text.now read.1.now) }
    ensures fault { IfErr result (λ fault. IsFault fault at text.now) }
{
    let Some((content, rest)) = string_from(alloc, &text[1..])? else {
        return Err(LexFault::Bad { at });
    };
    match Text::new(alloc, content.as_str()) {
        Ok(content) => Ok((TokenKind::Text(content), rest)),
        Err(TextFault::TooLong) => Err(LexFault::TooLong { at }),
        Err(TextFault::NoMemory) => Err(LexFault::NoMemory),
    }
}
