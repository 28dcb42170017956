// What helps where a plan can't go on, as far as the words there tell.
use crate::candidates::Front;
use crate::cut::Cut;
use crate::nearest::push_meant;
use crate::spellings::keyword_meant;
use crate::wanted::Wanted;
use px_pen::Pen;
use std::alloc::Global;

/// Writes what helps at a cut behind a front more than what may stand there, and answers whether there is such a thing.
pub fn push_hint(
    alloc: Global,
    cut: &Cut<'_>,
    wanted: &Wanted,
    front: &mut Front,
    out: &mut Pen,
) -> bool {
    let before = cut.before.spelled();
    let found = cut.place.spelled();
    if let Some(rule) = rule_broken(before, found, wanted) {
        out.push(rule);
        return true;
    }
    match keyword_taken(alloc, front, found, out) {
        Some(keyword) => {
            push_meant(keyword, out);
            true
        }
        None => push_keyword_before(alloc, before, front, out),
    }
}

// Writes the keyword that is meant by the word before.
fn push_keyword_before(alloc: Global, word: &str, front: &mut Front, out: &mut Pen) -> bool {
    front.leave_last();
    match keyword_taken(alloc, front, word, out) {
        Some(keyword) if keyword != word => {
            out.fill_each("is `{}` meant in place of `{}`?", &[keyword, word]);
            true
        }
        _ => false,
    }
}

// The keyword that is meant by a word, if a plan goes on with it.
fn keyword_taken<'a>(
    alloc: Global,
    front: &mut Front,
    word: &'a str,
    out: &mut Pen,
) -> Option<&'a str> {
    let keyword = keyword_meant(alloc, word, out)?;
    if front.takes(keyword) {
        Some(keyword)
    } else {
        None
    }
}

/// A word, one that can't stand behind it, and the rule for that; behind an empty word stands any.
const PAIRS: [(&str, &str, &str); 4] = [
    ("else", "if", "`else if` is written `elseif`"),
    ("}", ";", "no `;` stands behind a `}`"),
    ("+", "+", "there is no `++`: write `x + 1`"),
    (
        "",
        "#(",
        "a list of values stands in a declaration alone: write the elements one by one, as `x[0] = 1`",
    ),
];

// The rule that is broken where the second stands behind the first.
fn rule_broken(before: &str, found: &str, wanted: &Wanted) -> Option<&'static str> {
    for pair in &PAIRS {
        let (first, second, rule) = *pair;
        if found == second && (first.is_empty() || before == first) {
            return Some(rule);
        }
    }
    rule_of_order(found, wanted)
}

const TYPES: [&str; 3] = ["Integer", "Boolean", "String"];

/// What begins a condition or a Priority.
const ATTRIBUTES: [&str; 9] = [
    "Start",
    "End",
    "Exit",
    "Skip",
    "Repeat",
    "Pre",
    "Post",
    "Invariant",
    "Priority",
];

// The rule that is broken where this word stands too late.
fn rule_of_order(found: &str, wanted: &Wanted) -> Option<&'static str> {
    let is_type = is_among(found, &TYPES);
    if wanted.is_complete && (is_type || found == "Command") {
        Some("declarations stand before the plan")
    } else if wanted.action && is_type {
        Some("variables are declared before the first action of their block")
    } else if wanted.action && is_among(found, &ATTRIBUTES) {
        Some("conditions and a Priority stand before the first action of their block")
    } else {
        None
    }
}

fn is_among(word: &str, others: &[&str]) -> bool {
    for other in others {
        if *other == word {
            return true;
        }
    }
    false
}
