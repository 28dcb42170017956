// All faults of a plan, told one after another.
use crate::candidates::Front;
use crate::cut::{Cut, is_opening};
use crate::declared::names_in;
use crate::lexical::{BAD, REAL, Row, TOO_LONG, not_a_token};
use crate::place::{place_at, place_of};
use crate::report::{Words, end_whole, push_fault};
use crate::seen::Seen;
use crate::syntax::cut_short;
use px_check::{Spot, first_behind};
use px_lex::{LexFault, Token, lex};
use px_pen::Pen;
use px_plan_parse::parse;
use px_syntax::{ParseFault, Surface};
use px_value::NoMemory;
use std::alloc::{AllocError, Global};
use std::str::from_utf8;

/// The most faults that are told of one plan.
const FAULT_LIMIT: u32 = 1_000;

/// Writes why the bytes of a file are no plan, in words, and answers how many reasons there are: all faults of its tree, by
/// their tokens, or the one reason for which it has no tree. None where there is no reason.
pub fn why_plan(alloc: Global, name: &str, bytes: &[u8], out: &mut Pen) -> Result<u32, NoMemory> {
    match from_utf8(bytes) {
        Ok(text) => why_text(alloc, name, text, out),
        Err(error) => {
            not_text(name, bytes, error.valid_up_to(), out);
            Ok(1)
        }
    }
}

fn not_text(name: &str, bytes: &[u8], at: usize, out: &mut Pen) {
    let mut line: usize = 1;
    for byte in bytes.iter().take(at) {
        if *byte == b'\n' {
            line = line.saturating_add(1);
        }
    }
    out.fill_each(
        "error: the byte {} of the file, in line {}, is no text (UTF-8)",
        &[at, line],
    );
    end_whole(out, name, "save the plan as UTF-8");
}

fn why_text(alloc: Global, name: &str, text: &str, out: &mut Pen) -> Result<u32, NoMemory> {
    match lex(alloc, text) {
        Ok(tokens) => {
            let mut front = Front::of(alloc, tokens);
            let told = why_tokens(alloc, name, text, &mut front, out);
            drop(front);
            return told;
        }
        Err(LexFault::Bad { at }) => no_token(alloc, name, text, at, &BAD, out),
        Err(LexFault::Real { at }) => no_token(alloc, name, text, at, &REAL, out),
        Err(LexFault::TooLong { at }) => no_token(alloc, name, text, at, &TOO_LONG, out),
        Err(LexFault::NoMemory) => return Err(AllocError),
    }
    Ok(1)
}

fn no_token(alloc: Global, name: &str, text: &str, at: usize, rows: &[Row], out: &mut Pen) {
    let place = place_of(text, at);
    let mut words = Words::new(alloc);
    not_a_token(rows, &place, &mut words);
    push_fault(out, name, &place, &words);
}

fn why_tokens(
    alloc: Global,
    name: &str,
    text: &str,
    front: &mut Front,
    out: &mut Pen,
) -> Result<u32, NoMemory> {
    match parse(alloc, front.tokens()) {
        Ok(tree) => {
            let found = why_tree(alloc, name, text, front.tokens(), &tree, out);
            drop(tree);
            found
        }
        Err(ParseFault::SyntaxFault { token }) => {
            no_syntax(alloc, name, text, front, token, out);
            Ok(1)
        }
        Err(ParseFault::Deep { token }) => {
            deep(alloc, name, text, front.tokens(), token, out);
            Ok(1)
        }
        Err(ParseFault::NoMemory) => Err(AllocError),
    }
}

fn no_syntax(
    alloc: Global,
    name: &str,
    text: &str,
    front: &mut Front,
    token: usize,
    out: &mut Pen,
) {
    let cut = Cut::at(text, front.tokens(), token);
    front.end_before(token);
    let mut words = Words::new(alloc);
    cut_short(alloc, &cut, front, &mut words);
    push_fault(out, name, &cut.place, &words);
}

// Of a bracket or an operator.
fn deep(alloc: Global, name: &str, text: &str, tokens: &[Token], token: usize, out: &mut Pen) {
    let mut words = Words::new(alloc);
    match tokens.get(token) {
        Some(token) if is_opening(token) => words.say(
            "64 brackets are open before this one",
            "close some, or put what stands inside into a plan of fewer levels",
        ),
        _ => words.say(
            "the statement has 64 operators before this one",
            "put a part of it into a variable first",
        ),
    }
    push_fault(out, name, &place_at(text, tokens, token), &words);
}

fn why_tree(
    alloc: Global,
    name: &str,
    text: &str,
    tokens: &[Token],
    tree: &Surface,
    out: &mut Pen,
) -> Result<u32, NoMemory> {
    let names = names_in(alloc, tree)?;
    let seen = Seen {
        text,
        tokens,
        names: &names,
    };
    each_fault(alloc, name, &seen, tree, out)
}

fn each_fault(
    alloc: Global,
    name: &str,
    seen: &Seen<'_>,
    tree: &Surface,
    out: &mut Pen,
) -> Result<u32, NoMemory> {
    let mut floor: Option<Spot> = None;
    for told in 0..FAULT_LIMIT {
        let Some(spot) = first_behind(alloc, tree, floor)? else {
            return Ok(told);
        };
        one_fault(alloc, name, seen, spot, out);
        floor = Some(spot);
    }
    out.push("these are the first 1,000 faults\n\n");
    Ok(FAULT_LIMIT)
}

fn one_fault(alloc: Global, name: &str, seen: &Seen<'_>, spot: Spot, out: &mut Pen) {
    let mut words = Words::new(alloc);
    seen.explain(alloc, spot, &mut words);
    push_fault(out, name, &seen.place(spot.token), &words);
}
