// The journal of a session of eight threads, cut at every byte, and with each byte changed to three others: `resume` and
// `trace` answer what docs/FORMATS.md says of such bytes. That is written out here, apart from the program: the layout,
// which history the bytes stand for, and the first place of damage. It is a loop and no rows, as it has thousands.
use crate::bytes::digits_of;
use crate::faults::Faults;
use crate::pacing::Pacing;
use crate::running::{Answer, Call, answer_of};
use std::alloc::{AllocError, Global};
use std::sync::Wait;
use std::thread::Threads;

const RUN: &str = "run P S J";

const RESUME: &str = "resume S J";

const TRACE: &str = "trace J";

const PLAN: &str = "A: { Start Lookup(go); }";

// The plans that one byte makes of it: each waits for something that nobody reports. All others are none.
const PLANS: [&str; 4] = [
    PLAN,
    "A: { Start Lookup(fo); }",
    "A: { Start Lookup(gn); }",
    "A: { Start!Lookup(go); }",
];

const MAGIC: [u8; 8] = *b"PLXJRNL1";

// Each thread posts twice, in the order of what is reported.
const SCRIPT: &str = "thread 1
# It begins.
set x = 1
wait events 8
set x = 9
thread 2
wait events 1
set x = 2
wait events 9
set x = 10
thread 3
wait events 2
set x = 3
wait events 10
set x = 11
thread 4
wait events 3
set x = 4
wait events 11
set x = 12
thread 5
wait events 4
set x = 5
wait events 12
set x = 13
thread 6
wait events 5
set x = 6
wait events 13
set x = 14
thread 7
wait events 6
set x = 7
wait events 14
set x = 15
thread 8
wait events 7
set x = 8
wait events 15
set x = 16
";

// An entry `set NAME = VALUE`, whose name is one letter.
#[derive(Clone, Copy)]
struct Report {
    thread: u8,
    line: u32,
    name: u8,
    value: i32,
}

// `set x = VALUE`.
fn posted(thread: u8, line: u32, value: i32) -> Report {
    Report {
        thread,
        line,
        name: b'x',
        value,
    }
}

// The history of the whole script: its posts in the order in which the waits let them come, of which each reports how many
// there are.
fn session() -> [Report; 16] {
    [
        posted(1, 3, 1),
        posted(2, 8, 2),
        posted(3, 13, 3),
        posted(4, 18, 4),
        posted(5, 23, 5),
        posted(6, 28, 6),
        posted(7, 33, 7),
        posted(8, 38, 8),
        posted(1, 5, 9),
        posted(2, 10, 10),
        posted(3, 15, 11),
        posted(4, 20, 12),
        posted(5, 25, 13),
        posted(6, 30, 14),
        posted(7, 35, 15),
        posted(8, 40, 16),
    ]
}

// A journal in front of its first record: the master gate, the magic, the length of the plan, and the plan.
const FRONT: [u8; 37] = *b"\x01PLXJRNL1\x00\x00\x00\x18A: { Start Lookup(go); }";

// The bytes of a journal of the plan with this history.
fn journal_of(alloc: Global, history: &[Report]) -> Result<Vec<u8>, AllocError> {
    let mut bytes = FRONT.to_vec(alloc)?;
    push_records(history, &mut bytes)?;
    Ok(bytes)
}

// The records and the closed gate.
fn push_records(history: &[Report], bytes: &mut Vec<u8>) -> Result<(), AllocError> {
    for report in history {
        bytes.extend_from_slice(&record_of(report))?;
    }
    bytes.extend_from_slice(&[0])
}

// A record with its gate: the length, the thread, the line, the kind, the name, no argument, and an Integer.
fn record_of(report: &Report) -> [u8; 18] {
    let [a, b, c, d] = report.line.to_be_bytes();
    let [e, f, g, h] = report.value.to_be_bytes();
    let Report { thread, name, .. } = *report;
    [
        1, 0, 15, thread, a, b, c, d, 1, 0, 1, name, 0, 3, e, f, g, h,
    ]
}

// What bytes are as a journal, as far as its plan: none, damaged at a byte, or a plan and the bytes of records.
#[derive(Clone, Copy)]
enum Opening<'a> {
    Nothing,
    Damaged { at: usize },
    Stands { plan: &'a [u8], records: &'a [u8] },
}

fn opening_of(bytes: &[u8]) -> Opening<'_> {
    if bytes.len() < 13 || bytes[0] == 0 {
        return Opening::Nothing;
    }
    for i in 0..MAGIC.len() {
        if bytes[i + 1] != MAGIC[i] {
            return Opening::Damaged { at: i + 1 };
        }
    }
    let length = u32::from_be_bytes([bytes[9], bytes[10], bytes[11], bytes[12]]) as usize;
    let behind = &bytes[13..];
    if length > 1_048_576 || behind.len() <= length {
        return Opening::Damaged { at: 9 };
    }
    let (plan, records) = behind.split_at(length);
    Opening::Stands { plan, records }
}

// What stands from a gate on: no record behind a closed one, one that is cut, or the body of one and the next gate.
#[derive(Clone, Copy)]
enum Record<'a> {
    None,
    Cut,
    Whole { body: &'a [u8], next: &'a [u8] },
}

fn next_record(bytes: &[u8]) -> Record<'_> {
    if bytes.first() == Some(&0) {
        return Record::None;
    }
    if bytes.len() < 3 {
        return Record::Cut;
    }
    let length = usize::from(u16::from_be_bytes([bytes[1], bytes[2]]));
    let behind = &bytes[3..];
    if behind.len() <= length {
        return Record::Cut;
    }
    let (body, next) = behind.split_at(length);
    Record::Whole { body, next }
}

// The report that is spelled so. A change of one byte makes no entry of another form.
fn report_of(body: &[u8]) -> Option<Report> {
    if body.len() != 15 {
        return None;
    }
    let report = Report {
        thread: body[0],
        line: u32::from_be_bytes([body[1], body[2], body[3], body[4]]),
        name: body[8],
        value: i32::from_be_bytes([body[11], body[12], body[13], body[14]]),
    };
    let record = record_of(&report);
    let is_spelled = &record[3..] == body;
    let is_named = report.name.is_ascii_alphabetic() || report.name == b'_';
    let is_posted = (1..=8).contains(&report.thread) && report.line > 0;
    (is_spelled && is_named && is_posted).then_some(report)
}

// Reads the records behind a plan, of which the first has its gate at this place, up to the first damage. Answers where
// that is; none where there is none.
fn read_records(
    records: &[u8],
    place: usize,
    history: &mut Vec<Report>,
) -> Result<Option<usize>, AllocError> {
    let mut rest = records;
    for _ in 0..records.len() {
        let gate = place.saturating_add(records.len().saturating_sub(rest.len()));
        match next_record(rest) {
            Record::None => break,
            Record::Cut => return Ok(Some(gate.saturating_add(1))),
            Record::Whole { body, next } => {
                let Some(report) = report_of(body) else {
                    return Ok(Some(gate.saturating_add(3)));
                };
                history.push(report)?;
                rest = next;
            }
        }
    }
    Ok(None)
}

// Adds what the script has that a history leaves: the posts behind its thread's greatest line.
fn push_rest(history: &[Report], whole: &mut Vec<Report>) -> Result<(), AllocError> {
    for post in &session() {
        let is_behind = |entry: &Report| entry.thread != post.thread || entry.line < post.line;
        if history.iter().all(is_behind) {
            whole.push(*post)?;
        }
    }
    Ok(())
}

// The text of a history, and the replies to the posts from a position on.
fn text_of(alloc: Global, history: &[Report], posted_from: usize) -> Result<String, AllocError> {
    let mut text = String::from_str(
        alloc,
        "event 0: start\nstep 1\n  A: INACTIVE -> WAITING\nquiet 1\n",
    )?;
    push_events(alloc, history, &mut text)?;
    push_replies(alloc, history, posted_from, &mut text)?;
    Ok(text)
}

fn push_events(alloc: Global, history: &[Report], text: &mut String) -> Result<(), AllocError> {
    for (i, report) in history.iter().enumerate() {
        let position = i.saturating_add(1);
        let Report {
            thread,
            line,
            name,
            value,
        } = *report;
        let name = char::from(name);
        let event = format!(in alloc;
            "event {position}: thread {thread} line {line} set {name} = {value}\nquiet 0\n"
        )?;
        text.push_str(event.as_str())?;
    }
    Ok(())
}

fn push_replies(
    alloc: Global,
    history: &[Report],
    posted_from: usize,
    text: &mut String,
) -> Result<(), AllocError> {
    for (i, report) in history.iter().enumerate().skip(posted_from) {
        let position = i.saturating_add(1);
        let Report { thread, line, .. } = *report;
        let reply = format!(in alloc; "thread {thread} line {line}: accepted {position}\n")?;
        text.push_str(reply.as_str())?;
    }
    text.push_str("plan running\n")
}

// What a command has to answer over these bytes: `run` posts the whole script, `resume` the rest of it, and `trace`
// nothing.
fn wanted(alloc: Global, words: &str, bytes: &[u8]) -> Result<Answer, AllocError> {
    if words == RUN {
        return gone_on(alloc, true, &[], bytes);
    }
    match opening_of(bytes) {
        Opening::Nothing => refused(alloc, "none", bytes),
        Opening::Damaged { at } => damaged(alloc, at, bytes),
        Opening::Stands { plan, records } => over_plan(alloc, words, plan, records, bytes),
    }
}

// The same over a journal with this plan and the bytes of these records.
fn over_plan(
    alloc: Global,
    words: &str,
    plan: &[u8],
    records: &[u8],
    bytes: &[u8],
) -> Result<Answer, AllocError> {
    let mut history = Vec::new(alloc);
    if let Some(at) = read_records(records, plan.len().saturating_add(13), &mut history)? {
        return damaged(alloc, at, bytes);
    }
    if PLANS.iter().all(|other| other.as_bytes() != plan) {
        return refused(alloc, "plan", bytes);
    }
    gone_on(alloc, words == RESUME, &history, bytes)
}

fn damaged(alloc: Global, at: usize, bytes: &[u8]) -> Result<Answer, AllocError> {
    let reason = format!(in alloc; "damaged at byte {at}")?;
    refused(alloc, reason.as_str(), bytes)
}

fn refused(alloc: Global, reason: &str, bytes: &[u8]) -> Result<Answer, AllocError> {
    let text = format!(in alloc; "journal refused: {reason}\n")?;
    let left = bytes.to_vec(alloc)?;
    Ok(Answer {
        status: 5,
        text,
        left,
    })
}

// The answer over a journal with this history. What is posted goes behind it.
fn gone_on(
    alloc: Global,
    posts: bool,
    history: &[Report],
    bytes: &[u8],
) -> Result<Answer, AllocError> {
    let mut whole = history.to_vec(alloc)?;
    if posts {
        push_rest(history, &mut whole)?;
    }
    answer_with(alloc, history.len(), &whole, bytes)
}

// The same with the whole history, of which so many were there before.
fn answer_with(
    alloc: Global,
    before: usize,
    whole: &[Report],
    bytes: &[u8],
) -> Result<Answer, AllocError> {
    let text = text_of(alloc, whole, before)?;
    let left = if whole.len() == before {
        bytes.to_vec(alloc)?
    } else {
        journal_of(alloc, whole)?
    };
    Ok(Answer {
        status: 0,
        text,
        left,
    })
}

// Whether a command answers as it has to over these bytes; else it is told.
fn answers<R: Print + Threads + Wait + Sync>(
    rt: &R,
    alloc: Global,
    words: &str,
    bytes: &[u8],
) -> anyhow::Result<bool> {
    let call = Call {
        words,
        plan: PLAN.as_bytes(),
        script: SCRIPT.as_bytes(),
        journal: bytes,
        faults: Faults::NONE,
    };
    let answer = answer_of(rt, alloc, call, &Pacing::Nothing)?;
    if is_wanted(&answer, &wanted(alloc, words, bytes)?) {
        return Ok(true);
    }
    println!(rt; "{words} over{}", digits_of(alloc, bytes)?.as_str())?;
    Ok(false)
}

fn is_wanted(answer: &Answer, wanted: &Answer) -> bool {
    answer.status == wanted.status
        && answer.text.as_str() == wanted.text.as_str()
        && answer.left == wanted.left
}

// How many of the two commands that take up a journal answer as they have to over these bytes.
fn both<R: Print + Threads + Wait + Sync>(
    rt: &R,
    alloc: Global,
    bytes: &[u8],
) -> anyhow::Result<u64> {
    let resumed = answers(rt, alloc, RESUME, bytes)?;
    let traced = answers(rt, alloc, TRACE, bytes)?;
    Ok(u64::from(resumed) + u64::from(traced))
}

// The same over each front of the bytes.
fn over_fronts<R: Print + Threads + Wait + Sync>(
    rt: &R,
    alloc: Global,
    bytes: &[u8],
) -> anyhow::Result<u64> {
    let mut held = 0_u64;
    for count in 0..=bytes.len() {
        held = held.saturating_add(both(rt, alloc, &bytes[..count])?);
    }
    Ok(held)
}

// The same where one of the bytes, whichever it is, is changed in these bits.
fn where_changed<R: Print + Threads + Wait + Sync>(
    rt: &R,
    alloc: Global,
    bytes: &[u8],
    bits: u8,
) -> anyhow::Result<u64> {
    let mut held = 0_u64;
    for place in 0..bytes.len() {
        let mut changed = bytes.to_vec(alloc)?;
        changed[place] ^= bits;
        held = held.saturating_add(both(rt, alloc, &changed)?);
    }
    Ok(held)
}

/// How many calls answer as they have to: the session, and both commands over its journal, which is cut or has one byte with
/// another lowest bit, another highest bit or all bits changed. The others are told.
pub(crate) fn count_of_held<R: Print + Threads + Wait + Sync>(
    rt: &R,
    alloc: Global,
) -> anyhow::Result<u64> {
    let begun = answers(rt, alloc, RUN, &[])?;
    let bytes = journal_of(alloc, &session())?;
    let held = over_journal(rt, alloc, &bytes)?;
    Ok(held.saturating_add(u64::from(begun)))
}

fn over_journal<R: Print + Threads + Wait + Sync>(
    rt: &R,
    alloc: Global,
    bytes: &[u8],
) -> anyhow::Result<u64> {
    let mut held = over_fronts(rt, alloc, bytes)?;
    for bits in [1, 128, 255] {
        held = held.saturating_add(where_changed(rt, alloc, bytes, bits)?);
    }
    Ok(held)
}
