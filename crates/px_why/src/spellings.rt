// The words of the language that are meant where another one is written.
use crate::nearest::Nearest;
use px_pen::Pen;
use std::alloc::Global;

/// The values that have names.
const VALUES: [&str; 25] = [
    "true",
    "false",
    "INACTIVE",
    "WAITING",
    "EXECUTING",
    "FINISHING",
    "ITERATION_ENDED",
    "FAILING",
    "FINISHED",
    "SUCCESS",
    "FAILURE",
    "SKIPPED",
    "INTERRUPTED",
    "PRE_CONDITION_FAILED",
    "POST_CONDITION_FAILED",
    "INVARIANT_CONDITION_FAILED",
    "PARENT_FAILED",
    "EXITED",
    "PARENT_EXITED",
    "COMMAND_SENT_TO_SYSTEM",
    "COMMAND_ACCEPTED",
    "COMMAND_RCVD_BY_SYSTEM",
    "COMMAND_FAILED",
    "COMMAND_DENIED",
    "COMMAND_SUCCESS",
];

/// Keywords of conditions, of forms of nodes, of types and of operators.
const KEYWORDS: [&str; 36] = [
    "Integer",
    "Boolean",
    "String",
    "Command",
    "Lookup",
    "LookupNow",
    "LookupOnChange",
    "Update",
    "Sequence",
    "UncheckedSequence",
    "Concurrence",
    "Try",
    "if",
    "elseif",
    "else",
    "endif",
    "while",
    "for",
    "AND",
    "OR",
    "XOR",
    "NOT",
    "isKnown",
    "abs",
    "min",
    "max",
    "strlen",
    "Priority",
    "Start",
    "End",
    "Exit",
    "Skip",
    "Repeat",
    "Pre",
    "Post",
    "Invariant",
];

/// The least length of a word for which a near one is looked for.
const LEAST: usize = 3;

/// The value that is meant by a word, if one is near.
pub fn value_meant<'a>(alloc: Global, word: &'a str, out: &mut Pen) -> Option<&'a str> {
    nearest_of(alloc, &VALUES, word, out)
}

/// The keyword that is meant by a word, if one is near, or the one for a word of another language.
pub fn keyword_meant<'a>(alloc: Global, word: &'a str, out: &mut Pen) -> Option<&'a str> {
    match word {
        "int" => Some("Integer"),
        "bool" => Some("Boolean"),
        _ => match value_meant(alloc, word, out) {
            Some(value) => Some(value),
            None => nearest_of(alloc, &KEYWORDS, word, out),
        },
    }
}

fn nearest_of<'a>(
    alloc: Global,
    spellings: &[&'a str],
    word: &'a str,
    out: &mut Pen,
) -> Option<&'a str> {
    let mut nearest = Nearest::to(word);
    for spelling in spellings {
        if spelling.eq_ignore_ascii_case(word) {
            return Some(*spelling);
        }
        if word.len() >= LEAST {
            nearest.look_at(alloc, *spelling);
        }
    }
    nearest.found(out)
}
