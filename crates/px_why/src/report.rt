// What is told of a fault: in words, with its line, and with what helps.
use crate::place::Place;
use px_pen::Pen;
use std::alloc::Global;

/// What is wrong, and what helps; each `{}` stands for a name.
pub type Told = (&'static str, &'static str);

/// What is wrong, and what to do about it.
#[derive(Drop)]
pub struct Words {
    pub message: Pen,
    /// Empty where there is nothing to say.
    pub help: Pen,
}

impl Words {
    /// No words yet.
    pub fn new(alloc: Global) -> Words {
        Words {
            message: Pen::new(alloc),
            help: Pen::new(alloc),
        }
    }

    /// Writes both.
    pub fn say(&mut self, message: &str, help: &str) {
        self.message.push(message);
        self.help.push(help);
    }

    /// Writes both, with a name in place of each `{}`.
    pub fn say_of(&mut self, name: &str, message: &str, help: &str) {
        self.message.fill(message, name);
        self.help.fill(help, name);
    }

    /// Writes what is wrong and what helps, with a name in place of each `{}`.
    pub(crate) fn tell(&mut self, name: &str, told: Told) {
        let (message, help) = told;
        self.say_of(name, message, help);
    }
}

/// Writes a fault at a place of a file.
pub fn push_fault(out: &mut Pen, name: &str, place: &Place<'_>, words: &Words) {
    out.push("error: ");
    out.append(&words.message);
    out.fill("\n  --> {}:", name);
    out.fill_each("{}:{}\n", &[place.line, place.before.saturating_add(1)]);
    push_excerpt(out, place);
    if !words.help.is_empty() {
        out.push("   = help: ");
        out.append(&words.help);
        out.push("\n");
    }
    out.push("\n");
}

/// Ends a fault that has no place in a file, behind what is wrong; the help is empty where there is nothing to say.
pub fn end_whole(out: &mut Pen, name: &str, help: &str) {
    out.fill("\n  --> {}\n", name);
    if !help.is_empty() {
        out.fill("   = help: {}\n", help);
    }
    out.push("\n");
}

// The line, and marks under what is meant.
fn push_excerpt(out: &mut Pen, place: &Place<'_>) {
    out.push(match place.line {
        0..=9 => "     |\n   ",
        10..=99 => "     |\n  ",
        100..=999 => "     |\n ",
        _ => "     |\n",
    });
    out.fill_each("{} | ", &[place.line]);
    push_blanked(out, place.shown(), true);
    out.push("\n     | ");
    push_blanked(out, place.shown_before(), false);
    push_marks(out, place.marked());
    out.push("\n");
}

// Writes blanks in place of all characters, or of those that can't be shown; tabs stay.
fn push_blanked(out: &mut Pen, text: &str, is_shown: bool) {
    for c in text.chars() {
        let stays = c == '\t' || (is_shown && !c.is_control());
        out.push_char(if stays { c } else { ' ' });
    }
}

// A mark for each character, and one where there is none.
fn push_marks(out: &mut Pen, marked: &str) {
    if marked.is_empty() {
        out.push("^");
    }
    for _ in marked.chars() {
        out.push("^");
    }
}
