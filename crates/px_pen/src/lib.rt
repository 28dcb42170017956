//! Texts that are written piece by piece.
//!
//! A `Pen` takes each piece without a `Result`: where memory runs out it notes that, and the text's end is the one place
//! that asks. A function that writes is so a plain list of what is written, in its code and in its proof.
#![tactic(auto)]

use std::alloc::{AllocError, Global};
use std::fmt::Display;

/// A text that is being written. Once memory has run out, nothing is written any more.
#[derive(Drop)]
pub struct Pen {
    text: String,
    has_failed: bool,
}

impl Pen {
    /// A pen that hasn't written anything.
    pub fn new(alloc: Global) -> Pen {
        Pen {
            text: String::new(alloc),
            has_failed: false,
        }
    }

    /// Writes a text.
    pub fn push(&mut self, text: &str) {
        if !self.has_failed {
            self.has_failed = self.text.push_str(text).is_err();
        }
    }

    /// Writes a text with this word in place of each `{}`.
    pub fn fill(&mut self, text: &str, word: &str) {
        let mut pieces = text.split("{}");
        if let Some(front) = pieces.next() {
            self.push(front);
        }
        for piece in pieces {
            self.push(word);
            self.push(piece);
        }
    }

    /// Writes a text with these things, in turn, in place of its `{}`.
    pub fn fill_each<D: Display>(&mut self, text: &str, things: &[D]) {
        let mut things = things.iter();
        for piece in text.split("{}") {
            self.push(piece);
            if let Some(thing) = things.next() {
                self.show(thing);
            }
        }
    }

    /// Writes a character.
    pub fn push_char(&mut self, c: char) {
        if !self.has_failed {
            self.has_failed = self.text.push(c).is_err();
        }
    }

    /// Writes a number, or whatever `{}` shows.
    pub fn show<D: Display>(&mut self, thing: &D) {
        if !self.has_failed {
            self.has_failed = write!(self.text, "{thing}").is_err();
        }
    }

    /// Writes what `write!` is given.
    pub fn write_fmt<D: Display + Drop>(&mut self, text: D) {
        if !self.has_failed {
            self.has_failed = self.text.write_fmt(text).is_err();
        }
    }

    /// Writes what another pen has written; where memory ran out there, it counts here too.
    pub fn append(&mut self, other: &Pen) {
        self.push(other.text.as_str());
        self.has_failed = self.has_failed || other.has_failed;
    }

    /// As `append`; of a text that has more characters than `most` the front, and dots behind it.
    pub fn append_front(&mut self, other: &Pen, most: usize, dots: &str) {
        self.has_failed = self.has_failed || other.has_failed;
        let text = other.text.as_str();
        match text.char_indices().nth(most) {
            Some((end, _)) => {
                self.push(text.get(..end).unwrap_or(text));
                self.push(dots);
            }
            None => self.push(text),
        }
    }

    /// Notes that memory has run out for what was to be written.
    pub fn fail(&mut self) {
        self.has_failed = true;
    }

    /// Whether nothing was to be written yet.
    pub fn is_empty(&self) -> bool {
        !self.has_failed && self.text.is_empty()
    }

    /// What was written; `AllocError` where memory ran out meanwhile.
    pub fn written(self) -> Result<String, AllocError> {
        let Pen { text, has_failed } = self;
        if has_failed {
            Err(AllocError)
        } else {
            Ok(text)
        }
    }
}
