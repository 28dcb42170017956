// The values that VALUEs spell.
ghost use Rattle.std.specs.Prelude.{◌≡◌, ◌↔◌, ℕ, [], ◌∷◌, List, true, Some, IsTrue, IfOk, IfSome};
ghost use Rattle.std.specs.List.{list_all};
ghost use Rattle.px_value.specs.Name.{is_digit, is_digits};
ghost use Rattle.px_lex.specs.Table.{row_of};
ghost use Rattle.px_lex.specs.Gap.{begins};
ghost use Rattle.px_lex.specs.String.{is_quote, read_string};
ghost use Rattle.px_lex.specs.declared.token.Token.{Token as AnyToken};
ghost use Rattle.px_lex.specs.declared.token.TokenKind.TheVariants as kinds;
ghost use Rattle.px_event.specs.Values.{is_plain};
ghost use Rattle.px_script.specs.Value.{truths, is_number, integer_of, text_of, argument_of, value_of};

use crate::place::Quoting;
use crate::text::is_word;
use px_lex::{LexFault, Token, TokenKind, lex};
use px_value::{NoMemory, TEXT_LIMIT, Text, Value, is_digit};
use std::alloc::{AllocError, Global};

/// The most digits that a number is written with.
const DIGIT_LIMIT: usize = 10;

/// The value of what is reported or returned; None exactly where the VALUE spells none.
pub(crate) fn value_of(alloc: Global, spelling: &str) -> Result<Option<Value>, NoMemory>
    ensures { IfOk result (λ value. value ≡ value_of spelling.now) }
{
    if is_word(spelling, "UNKNOWN") {
        return Ok(Some(Value::Unknown));
    }
    argument_of(alloc, spelling)
}

/// The value of an argument; None exactly where the VALUE spells none or is UNKNOWN.
pub(crate) fn argument_of(alloc: Global, spelling: &str) -> Result<Option<Value>, NoMemory>
    ensures { IfOk result (λ value. value ≡ argument_of spelling.now) }
{
    if let Some(value) = truth_of(spelling) {
        return Ok(Some(value));
    }
    match integer_of(spelling) {
        Some(value) => Ok(Some(value)),
        None => text_of(alloc, spelling),
    }
}

fn truth_of(spelling: &str) -> Option<Value>
    ensures { result ≡ row_of truths spelling.now }
{
    if is_word(spelling, "true") {
        Some(Value::Boolean(true))
    } else if is_word(spelling, "false") {
        Some(Value::Boolean(false))
    } else {
        None
    }
}

fn integer_of(spelling: &str) -> Option<Value>
    ensures { result ≡ integer_of spelling.now }
{
    if !is_number(spelling.as_bytes()) {
        return None;
    }
    match spelling.parse::<i32>() {
        Ok(number) => Some(Value::Integer(number)),
        Err(_) => None,
    }
}

fn is_number(spelling: &[u8]) -> bool
    ensures { result ≡ is_number spelling.now }
{
    match spelling {
        [b'-', digits @ ..] => is_digits(digits),
        _ => is_digits(spelling),
    }
}

fn is_digits(digits: &[u8]) -> bool
    ensures { result ≡ is_digits 10 digits.now }
{
    !digits.is_empty() && digits.len() <= DIGIT_LIMIT && are_all_digits(digits)
}

pub(crate) fn are_all_digits(bytes: &[u8]) -> bool
    ensures { result ≡ list_all is_digit bytes.now }
{
    bytes.iter().all(|c| is_digit(*c))
}

/// The text of a string as it is spelled in plans, with nothing behind it.
fn text_of(alloc: Global, spelling: &str) -> Result<Option<Value>, NoMemory>
    ensures { IfOk result (λ value. value ≡ text_of spelling.now) }
{
    // Behind a string the lexer would pass over a comment.
    if !ends_with_its_quote(spelling.as_bytes()) {
        return Ok(None);
    }
    match lex(alloc, spelling) {
        Ok(tokens) => Ok(first_text(tokens)),
        Err(LexFault::NoMemory) => Err(AllocError),
        Err(_) => Ok(None),
    }
}

/// The text that the first token is.
fn first_text(tokens: Vec<Token>) -> Option<Value>
    ensures first { (content : List ℕ) (place : ℕ) (more : List AnyToken)
        → tokens.items ≡ record { kind = kinds.Text content; at = place } ∷ more → result ≡ Some (Value.Text content) }
    ensures plain { IfSome result (λ value. IsTrue (is_plain value)) }
{
    match tokens.into_iter().next() {
        Some(
            Token {
                kind: TokenKind::Text(text),
                ..
            },
        ) => Some(text_value(text)),
        _ => None,
    }
}

fn text_value(text: Text) -> Value
    ensures value { result ≡ Value.Text text }
    ensures plain { IsTrue (is_plain result) }
{
    let length = text.as_str().len();
    prove!(length <= TEXT_LIMIT);
    Value::Text(text)
}

/// Whether quotes open at the front of the bytes and close at their end, and not before.
fn ends_with_its_quote(bytes: &[u8]) -> bool
    ensures opens { result ≡ true → begins is_quote bytes.now ≡ true }
    ensures closes { (content rest : List ℕ) → read_string bytes.now ≡ Some (content, rest) → (result ≡ true) ↔ (rest ≡ []) }
{
    let [b'"', rest @ ..] = bytes else {
        return false;
    };
    let mut rest = rest;
    let mut quoting = Quoting::Inside;
    while let [c, behind @ ..] = rest {
        quoting = quoting.behind(*c);
        rest = behind;
        if let Quoting::Outside = quoting {
            return rest.is_empty();
        }
    }
    false
}
