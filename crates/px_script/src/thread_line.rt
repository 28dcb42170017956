// The line that names a thread, and may give it a name.
ghost use Rattle.std.specs.Prelude.{◌≡◌, Some, None, IsTrue, IfOk, if◌then◌else◌};
ghost use Rattle.std.specs.Str.Parse.{digits_value};
ghost use Rattle.px_event.specs.Fit.{is_report_name};
ghost use Rattle.px_script.specs.ThreadLine.{are_digits, is_thread, thread_named, thread_line};

use crate::fault::FaultKind;
use crate::parsed_line::ParsedLine;
use crate::set_line::report_name;
use crate::text::split_bytes;
use crate::threads::THREADS;
use crate::value::are_all_digits;
use px_value::{Name, NoMemory};
use std::alloc::Global;
use std::str;

/// What a line `thread N` or `thread N NAME` says by the bytes behind its word; None exactly where they haven't the shape.
pub(crate) fn thread_line(alloc: Global, bytes: &[u8]) -> Result<Option<ParsedLine>, NoMemory>
    ensures { IfOk result (λ says. says ≡ thread_line bytes.now) }
{
    let (digits, behind) = split_bytes(bytes);
    let (word, more) = split_bytes(behind);
    if !are_digits(digits) || !more.is_empty() {
        return Ok(None);
    }
    match thread_of(digits) {
        Some(number) => thread_named(alloc, number, word),
        None => Ok(Some(ParsedLine::Faulty(FaultKind::BadThread))),
    }
}

/// What is said of a thread by the word behind its number, which may be none; None exactly where the word is no name.
fn thread_named(alloc: Global, number: u8, word: &[u8]) -> Result<Option<ParsedLine>, NoMemory>
    requires { IsTrue (is_thread number) }
    ensures { IfOk result (λ says. says ≡ thread_named number word.now) }
{
    if word.is_empty() {
        return Ok(Some(ParsedLine::Thread { number, name: None }));
    }
    Ok(match name_of(alloc, word)? {
        Some(name) => Some(ParsedLine::Thread {
            number,
            name: Some(name),
        }),
        None => None,
    })
}

/// The name that a word spells; None exactly where it is no identifier, or one of over 64 bytes.
fn name_of(alloc: Global, word: &[u8]) -> Result<Option<Name>, NoMemory>
    ensures { IfOk result (λ name. name ≡ (if is_report_name word.now then Some word.now else None)) }
{
    match str::from_utf8(word) {
        Ok(text) => report_name(alloc, None, text),
        Err(_) => Ok(None),
    }
}

/// The thread of the number in these digits; None exactly where there is none.
fn thread_of(digits: &[u8]) -> Option<u8>
    requires { IsTrue (are_digits digits.now) }
    ensures { result ≡ (if is_thread (digits_value 10 digits.now) then Some (digits_value 10 digits.now) else None) }
{
    let Ok(text) = str::from_utf8(digits) else {
        return None;
    };
    match text.parse::<u8>() {
        Ok(number) if is_thread(number) => Some(number),
        _ => None,
    }
}

/// Whether the bytes are digits, one or more.
pub(crate) fn are_digits(bytes: &[u8]) -> bool
    ensures { result ≡ are_digits bytes.now }
{
    !bytes.is_empty() && are_all_digits(bytes)
}

/// Whether there is a thread of this number.
fn is_thread(number: u8) -> bool
    ensures { result ≡ is_thread number }
{
    (1..=THREADS).contains(&usize::from(number))
}
