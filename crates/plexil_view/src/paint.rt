// Colours, where the answer goes to a terminal.
use px_pen::Pen;
use std::alloc::{AllocError, Global};

const PLAIN: &str = "\u{1b}[0m";

const RED: &str = "\u{1b}[1;31m";

const BLUE: &str = "\u{1b}[34m";

const CYAN: &str = "\u{1b}[36m";

/// The text, with the lines of each fault in their colours.
pub fn painted(alloc: Global, text: &str) -> Result<String, AllocError> {
    let mut out = Pen::new(alloc);
    for line in text.lines() {
        push_line(line, &mut out);
    }
    out.written()
}

fn push_line(line: &str, out: &mut Pen) {
    match colour_of(line) {
        Some(colour) => {
            out.push(colour);
            out.push(line);
            out.push(PLAIN);
        }
        None => out.push(line),
    }
    out.push("\n");
}

fn colour_of(line: &str) -> Option<&'static str> {
    if line.starts_with("error: ") || is_mark(line) {
        Some(RED)
    } else if line.starts_with("   = help: ") {
        Some(CYAN)
    } else if line.starts_with("  --> ") {
        Some(BLUE)
    } else {
        None
    }
}

// Whether the line has the marks under what is meant.
fn is_mark(line: &str) -> bool {
    line.starts_with("     | ") && line.ends_with('^')
}
