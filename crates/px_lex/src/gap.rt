// The gaps between tokens.
ghost use Rattle.std.specs.Prelude.{◌≡◌, ◌++◌, List, ℕ, codes, IsTrue, IfOk, IfErr};
ghost use Rattle.std.specs.List.{prefix_len};
ghost use Rattle.std.specs.Option.{option_copied};
ghost use Rattle.px_lex.specs.Gap.{begins, is_white_space, is_in_line, after_close};
ghost use Rattle.px_lex.specs.Lexer.{Begins, IsFault};

use crate::fault::LexFault;

/// How many bytes there are up to a line feed or the end.
fn line_length(text: &[u8]) -> usize
    ensures { result ≡ prefix_len is_in_line text.now }
{
    text.iter().take_while(|c| **c != b'\n').count()
}

/// The text behind the next `*/`, where there is one.
fn after_close(mut text: &[u8]) -> Option<&[u8]>
    ensures { option_copied result ≡ after_close text.entry.now }
{
    while let [first, rest @ ..] = text {
        if *first == b'*'
            && let [b'/', behind @ ..] = rest
        {
            return Some(behind);
        }
        text = rest;
    }
    None
}

/// The text behind a blank.
pub(crate) fn behind_blank(text: &str) -> &str
    requires { IsTrue (begins is_white_space text.now) }
    ensures { Begins None text.now result.now }
{
    &text[1..]
}

/// The text behind a comment that goes on to the end of its line.
pub(crate) fn behind_line(text: &str) -> &str
    requires { (tail : List ℕ) × (text.now ≡ codes "//" ++ tail) }
    ensures { Begins None text.now result.now }
{
    &text[line_length(text.as_bytes())..]
}

/// The text behind a comment that goes on to its `*/`.
pub(crate) fn behind_comment(at: usize, text: &str) -> Result<&str, LexFault>
    requires { (tail : List ℕ) × (text.now ≡ codes "/*" ++ tail) }
    ensures ok { IfOk result (λ rest. Begins None text.now rest.now) }
    ensures fault { IfErr result (λ fault. IsFault fault at text.now) }
{
    match after_close(&text.as_bytes()[2..]) {
        Some(rest) => Ok(&text[text.len() - rest.len()..]),
        None => Err(LexFault::Bad { at }),
    }
}
