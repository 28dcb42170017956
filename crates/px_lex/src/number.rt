// Numbers.
ghost use Rattle.std.specs.Prelude.{◌≡◌, ◌≤◌, ◌<◌, ◌^◌, pos, nat_lt, IsTrue, IfOk, IfErr, MatchOption};
ghost use Rattle.std.specs.List.{list_all};
ghost use Rattle.std.specs.Char.{digit_value};
ghost use Rattle.std.specs.Str.Parse.{digits_value};
ghost use Rattle.px_value.specs.Name.{is_digit};
ghost use Rattle.px_lex.specs.Gap.{begins};
ghost use Rattle.px_lex.specs.Number.{is_numeral, numeral, number_of, is_fraction};
ghost use Rattle.px_lex.specs.Lexer.{Begins, IsFault};

use crate::fault::LexFault;
use crate::token::TokenKind;
use crate::word::split_run;
use px_value::is_digit;

fn all_digits(bytes: &[u8]) -> bool
    ensures { result ≡ list_all is_digit bytes.now }
{
    bytes.iter().all(|c| is_digit(*c))
}

/// Whether digits and what is behind them begin a real number.
fn is_fraction(spelling: &[u8], rest: &[u8]) -> bool
    ensures { result ≡ is_fraction spelling.now rest.now }
{
    match rest {
        [b'.', digit, ..] if is_digit(*digit) => all_digits(spelling),
        _ => false,
    }
}

fn is_of_base(byte: u8, base: u32) -> bool
    requires low { 2 ≤ base }
    requires high { base ≤ 36 }
    ensures { result ≡ nat_lt (digit_value byte) base }
{
    char::from(byte).is_digit(base)
}

fn all_of_base(digits: &[u8], base: u32) -> bool
    requires low { 2 ≤ base }
    requires high { base ≤ 36 }
    ensures { result ≡ list_all (λ c. nat_lt (digit_value c) base) digits.now }
{
    digits.iter().all(|c| is_of_base(*c, base))
}

/// Whether there are digits, all of the base.
fn is_numeral(digits: &[u8], base: u32) -> bool
    requires low { 2 ≤ base }
    requires high { base ≤ 36 }
    ensures { result ≡ is_numeral base digits.now }
{
    !digits.is_empty() && all_of_base(digits, base)
}

/// The digits of a number, and their base.
fn digits_of(spelling: &str) -> (&str, u32)
    ensures digits { number_of spelling.now ≡ numeral result.1 result.0.now }
    ensures low { 2 ≤ result.1 }
    ensures high { result.1 ≤ 36 }
{
    match spelling.as_bytes() {
        [b'0', b'x', ..] => (&spelling[2..], 16),
        _ => (spelling, 10),
    }
}

/// The number that digits write, where it has at most 31 bits.
fn value(digits: &str, base: u32) -> Option<i32>
    requires digits { IsTrue (is_numeral base digits.now) }
    requires low { 2 ≤ base }
    requires high { base ≤ 36 }
    ensures { MatchOption result (2 ^ 31 ≤ digits_value base digits.now) (λ z.
        (z ≡ pos (digits_value base digits.now)) × (digits_value base digits.now < 2 ^ 31)) }
{
    i32::from_str_radix(digits, base).ok()
}

/// The number at the front of a text, and what is behind it.
pub(crate) fn number(at: usize, text: &str) -> Result<(TokenKind, &str), LexFault>
    requires { IsTrue (begins is_digit text.now) }
    ensures ok { IfOk result (λ read. Begins (Some read.0) text.now read.1.now) }
    ensures fault { IfErr result (λ fault. IsFault fault at text.now) }
{
    let (spelling, rest) = split_run(text);
    if is_fraction(spelling.as_bytes(), rest.as_bytes()) {
        return Err(LexFault::Real { at });
    }
    let (digits, base) = digits_of(spelling);
    if !is_numeral(digits.as_bytes(), base) {
        return Err(LexFault::Bad { at });
    }
    match value(digits, base) {
        Some(value) => Ok((TokenKind::Integer(value), rest)),
        None => Err(LexFault::TooLong { at }),
    }
}
