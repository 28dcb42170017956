// The faulty line of a script, in words.
use px_chart::{NodePath, last_name, paths_of};
use px_core::Plan;
use px_pen::Pen;
use px_why::{Nearest, Place, Words, end_whole, push_fault, push_meant};
use std::alloc::Global;
use std::str::from_utf8;

/// How many paths are told behind the first.
const TOLD: usize = 5;

/// The first words of lines, and the shapes that they have.
const SHAPES: [(&str, &str); 7] = [
    (
        "set",
        "`set NAME = VALUE`, or `set NAME(VALUE, ..) = VALUE` with up to 8 arguments",
    ),
    (
        "handle",
        "`handle PATH HANDLE`, where HANDLE is COMMAND_SENT_TO_SYSTEM, COMMAND_ACCEPTED, COMMAND_RCVD_BY_SYSTEM, COMMAND_FAILED, COMMAND_DENIED or COMMAND_SUCCESS",
    ),
    ("return", "`return PATH VALUE`"),
    ("abort", "`abort PATH`"),
    ("ack", "`ack PATH`"),
    (
        "wait",
        "`wait events N`, or `wait state PATH STATE`, where STATE is INACTIVE, WAITING, EXECUTING, ITERATION_ENDED, FAILING, FINISHING or FINISHED",
    ),
    (
        "thread",
        "`thread N` or `thread N NAME`, where N is a number from 1 to 8, and NAME begins with a letter or `_`, goes on with letters, digits and `_`, and has at most 64 characters",
    ),
];

// The bytes of a line, by its number from 1.
fn line_of(bytes: &[u8], line: u32) -> &[u8] {
    bytes
        .split(|byte| *byte == b'\n')
        .nth((line as usize).saturating_sub(1))
        .unwrap_or(&[])
}

/// Explains what is wrong with a line of a script: a fault of this kind.
pub fn push_line(
    alloc: Global,
    name: &str,
    bytes: &[u8],
    line: u32,
    kind: u8,
    plan: &Plan,
    out: &mut Pen,
) {
    match from_utf8(line_of(bytes, line)) {
        Ok(content) => {
            let content = content.strip_suffix('\r').unwrap_or(content);
            let mut words = Words::new(alloc);
            explain(alloc, content, kind, plan, &mut words);
            push_fault(out, name, &place_of(content, line, kind), &words);
        }
        Err(_) => {
            out.fill_each("error: line {} is no text (UTF-8)", &[line]);
            end_whole(out, name, "");
        }
    }
}

// The place of what is wrong in a line.
fn place_of(content: &str, line: u32, kind: u8) -> Place<'_> {
    let number = word_meant(content, kind);
    Place {
        line: line as usize,
        before: before_word(content, number),
        width: word(content, number).chars().count().max(1),
        content,
    }
}

// The number of the word, from 0, that is wrong.
fn word_meant(content: &str, kind: u8) -> usize {
    match (kind, word(content, 0)) {
        (2, "wait") | (3, "return") | (6, _) => 2,
        (2, _) | (4, _) => 1,
        (1, "handle") if !word(content, 2).is_empty() => 2,
        _ => 0,
    }
}

// The word of a line with this number, from 0; empty where there is none.
fn word(content: &str, number: usize) -> &str {
    content.split_whitespace().nth(number).unwrap_or("")
}

// How many characters stand before the word with this number.
fn before_word(content: &str, number: usize) -> usize {
    let mut is_blank = true;
    let mut begun: usize = 0;
    for (place, c) in content.chars().enumerate() {
        if is_blank && !c.is_whitespace() {
            if begun == number {
                return place;
            }
            begun = begun.saturating_add(1);
        }
        is_blank = c.is_whitespace();
    }
    0
}

fn explain(alloc: Global, content: &str, kind: u8, plan: &Plan, words: &mut Words) {
    match kind {
        1 => no_shape(alloc, word(content, 0), words),
        2 => match paths_of(alloc, plan) {
            Ok(nodes) => no_node(alloc, content, &nodes, words),
            Err(_) => words.help.fail(),
        },
        3 => words.say(
            "a VALUE of this line is none",
            "a VALUE is `true`, `false`, an Integer from -2147483648 to 2147483647, a String in double quotes, or `UNKNOWN`, which is no argument",
        ),
        4 => words.say("threads are numbered from 1 to 8", ""),
        6 => words.say(
            "an earlier line names this thread otherwise",
            "a thread has one name; a later line of it may have that name again, or none",
        ),
        _ => words.say(
            "a thread has at most 100,000 lines that post or wait, and this is one more",
            "",
        ),
    }
}

// Of a line that begins with this word.
fn no_shape(alloc: Global, first: &str, words: &mut Words) {
    let mut nearest = Nearest::to(first);
    for line in &SHAPES {
        let (known, shape) = *line;
        if first == known {
            words.message.fill("this is no `{}` line", first);
            return words.help.fill("it is {}", shape);
        }
        nearest.look_at(alloc, known);
    }
    words
        .message
        .fill("no line of a script begins with `{}`", first);
    match nearest.found(&mut words.help) {
        Some(near) => push_meant(near, &mut words.help),
        None => words.help.push(
            "a line begins with `set`, `handle`, `return`, `abort`, `ack`, `wait` or `thread`, a comment with `#`",
        ),
    }
}

fn no_node(alloc: Global, content: &str, nodes: &[NodePath<'_>], words: &mut Words) {
    let path = word(content, word_meant(content, 2));
    for node in nodes {
        if node.path.as_str() == path {
            return of_other_kind(nodes, node, word(content, 0), words);
        }
    }
    no_path(alloc, nodes, path, words);
}

// Of a line that isn't for nodes of this one's kind.
fn of_other_kind(nodes: &[NodePath<'_>], node: &NodePath<'_>, first: &str, words: &mut Words) {
    let path = node.path.as_str();
    let kind = match first {
        "ack" => "an Update",
        _ => "a Command",
    };
    words.message.fill("`{}` is ", path);
    words.message.push(node.a_kind());
    words.message.fill("; `{}` is for ", first);
    words.message.push(kind);
    push_meant_nodes(nodes, &Meant::Below { path, kind }, &mut words.help);
}

// Of a path that no node has: the path that is nearest is meant, or the nodes with the last name that is.
fn no_path(alloc: Global, nodes: &[NodePath<'_>], path: &str, words: &mut Words) {
    words.message.fill("the plan has no node `{}`", path);
    let mut nearest = Nearest::to(path);
    let mut alike = Nearest::to(last_name(path));
    for node in nodes {
        let path = node.path.as_str();
        nearest.look_at(alloc, path);
        alike.look_at(alloc, last_name(path));
    }
    let help = &mut words.help;
    match (nearest.found(help), alike.found(help)) {
        (Some(near), _) => push_meant(near, help),
        (None, Some(last)) => push_meant_nodes(nodes, &Meant::Named(last), help),
        (None, None) => help.push("`plexil-view nodes PLAN` prints the paths of a plan"),
    }
}

// The nodes that may be meant.
#[derive(Clone, Copy)]
enum Meant<'a> {
    /// Those with this last name.
    Named(&'a str),
    /// Those of a kind below a path.
    Below { path: &'a str, kind: &'a str },
}

impl Meant<'_> {
    fn has(&self, node: &NodePath<'_>) -> bool {
        match self {
            Meant::Named(last) => last_name(node.path.as_str()) == *last,
            Meant::Below { path, kind } => node.a_kind() == *kind
                && is_below(node.path.as_str(), *path),
        }
    }
}

fn is_below(path: &str, above: &str) -> bool {
    match path.strip_prefix(above) {
        Some(rest) => rest.starts_with('.'),
        None => false,
    }
}

// Asks whether one of these nodes is meant, where there is one.
fn push_meant_nodes(nodes: &[NodePath<'_>], meant: &Meant<'_>, help: &mut Pen) {
    let mut count: usize = 0;
    for node in nodes {
        if meant.has(node) {
            push_one(count, node.path.as_str(), help);
            count = count.saturating_add(1);
        }
    }
    if count > TOLD.saturating_add(1) {
        help.push(", or another one of that name?");
    } else if count > 0 {
        help.push("?");
    }
}

// Writes a path that may be meant, behind so many others.
fn push_one(others: usize, path: &str, help: &mut Pen) {
    if others == 0 {
        help.fill("is `{}` meant", path);
    } else if others <= TOLD {
        help.fill(", or `{}`", path);
    }
}
