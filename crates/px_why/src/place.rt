// Places in a text: the line, the column and what stands there.
use px_lex::Token;
use std::str::Chars;

/// The most characters of a line that are shown.
const SHOWN: usize = 160;

/// How many characters are shown before a place in a longer line.
const SHOWN_BEFORE: usize = 80;

/// The most characters of what stands at a place that are named.
const SPELLED: usize = 40;

/// A line of a text, and a place in it.
#[derive(Clone, Copy)]
pub struct Place<'a> {
    /// The number of the line, from 1.
    pub line: usize,
    /// How many characters of the line stand before the place.
    pub before: usize,
    /// How many characters what stands at the place has.
    pub width: usize,
    /// The whole line.
    pub content: &'a str,
}

/// The place of what a plan has at a byte of its text, and behind its end that of its last line's end.
pub fn place_of(text: &str, at: usize) -> Place<'_> {
    let at = at.min(text.len());
    let mut line: usize = 0;
    let mut begin: usize = 0;
    for content in text.split('\n') {
        line = line.saturating_add(1);
        let end = begin.saturating_add(content.len());
        if at <= end {
            let before = characters_before(content, at.saturating_sub(begin));
            return place_in(content, line, before);
        }
        begin = end.saturating_add(1);
    }
    place_in("", line, 0)
}

/// The place of a token; behind the last, the end of the last.
pub fn place_at<'a>(text: &'a str, tokens: &[Token], token: usize) -> Place<'a> {
    match tokens.get(token) {
        Some(token) => place_of(text, token.at),
        None => match tokens.last() {
            Some(last) => place_of(text, last.at).behind(),
            None => place_of(text, 0),
        },
    }
}

fn place_in(content: &str, line: usize, before: usize) -> Place<'_> {
    Place {
        line,
        before,
        width: width_behind(content, before),
        content,
    }
}

// How many characters begin before this byte.
fn characters_before(content: &str, at: usize) -> usize {
    let mut characters: usize = 0;
    for (place, _) in content.char_indices() {
        if place >= at {
            return characters;
        }
        characters = characters.saturating_add(1);
    }
    characters
}

/// Whether a character may stand within a name or a number.
fn is_of_word(c: char) -> bool {
    c.is_ascii_alphanumeric() || c == '_'
}

impl<'a> Place<'a> {
    /// The place behind what stands here.
    pub fn behind(self) -> Place<'a> {
        let before = self.before.saturating_add(self.width);
        place_in(self.content, self.line, before)
    }

    /// What stands here, of a long string the front; empty at the end of the line.
    pub fn spelled(&self) -> &'a str {
        front(skipped(self.content, self.before), self.width.min(SPELLED))
    }

    /// The character at the place; None at the end of the line.
    pub fn first(&self) -> Option<char> {
        skipped(self.content, self.before).chars().next()
    }

    /// The first character of the line that is shown.
    pub fn shown_from(&self) -> usize {
        if self.content.len() <= SHOWN {
            0
        } else {
            self.before.saturating_sub(SHOWN_BEFORE)
        }
    }

    /// What is shown of the line.
    pub fn shown(&self) -> &'a str {
        front(skipped(self.content, self.shown_from()), SHOWN)
    }

    /// What is shown of what stands here.
    pub(crate) fn marked(&self) -> &'a str {
        let before = self.before.saturating_sub(self.shown_from());
        front(skipped(self.shown(), before), self.width)
    }

    /// What is shown of the line before the place.
    pub fn shown_before(&self) -> &'a str {
        front(self.shown(), self.before.saturating_sub(self.shown_from()))
    }
}

// So many characters of a text, or all where there are fewer.
fn front(text: &str, characters: usize) -> &str {
    match text.char_indices().nth(characters) {
        Some((end, _)) => text.get(..end).unwrap_or(text),
        None => text,
    }
}

// The text without so many characters at its front.
fn skipped(text: &str, characters: usize) -> &str {
    match text.char_indices().nth(characters) {
        Some((begin, _)) => text.get(begin..).unwrap_or(""),
        None => "",
    }
}

// How many characters what a plan has at a place of a line has: a word, a number, a string, or a sign.
fn width_behind(content: &str, before: usize) -> usize {
    let mut behind = skipped(content, before).chars();
    let Some(first) = behind.next() else {
        return 1;
    };
    let others = match first {
        '"' => string_behind(behind),
        '0'..='9' => word_behind(behind, '.'),
        _ if is_of_word(first) => word_behind(behind, '_'),
        _ => sign_behind(first, behind.next()),
    };
    others.saturating_add(1)
}

// How many characters a string has behind its first quote.
fn string_behind(behind: Chars<'_>) -> usize {
    let mut width: usize = 0;
    let mut is_escaped = false;
    for c in behind {
        width = width.saturating_add(1);
        if c == '"' && !is_escaped {
            return width;
        }
        is_escaped = c == '\\' && !is_escaped;
    }
    width
}

// How many characters a word has behind its first, where this one may stand in it too.
fn word_behind(behind: Chars<'_>, other: char) -> usize {
    let mut width: usize = 0;
    for c in behind {
        if !is_of_word(c) && c != other {
            return width;
        }
        width = width.saturating_add(1);
    }
    width
}

// How many characters a sign has behind its first.
fn sign_behind(first: char, second: Option<char>) -> usize {
    match (first, second) {
        ('|', Some('|'))
        | ('&', Some('&'))
        | ('=' | '!' | '<' | '>', Some('='))
        | ('#', Some('('))
        | ('/', Some('*')) => 1,
        _ => 0,
    }
}
