// Lines, and parts of lines.
ghost use Rattle.std.specs.Prelude.{◌≡◌, ◌+◌, ◌≤◌, ◌∷◌, ◌==◌, length, take, drop};
ghost use Rattle.std.specs.List.{prefix_len, suffix_len, position_or_len, before_first, after_first};
ghost use Rattle.std.specs.Option.{option_copied};
ghost use Rattle.std.specs.Str.Lines.{strip_carriage_return};
ghost use Rattle.px_core.specs.Plan.{is_same};
ghost use Rattle.px_script.specs.Text.{is_blank, lines_of, lines_left, trim_start, trim_end, trim, content, first_word, behind_word};

/// The first line of a text, without its line feed, and what is behind the line feed where there is one.
pub(crate) fn split_line(text: &[u8]) -> (&[u8], Option<&[u8]>)
    ensures { lines_of text.now ≡ result.0.now ∷ lines_left (option_copied result.1) }
{
    let end = line_length(text);
    if end < text.len() {
        (&text[..end], Some(&text[end + 1..]))
    } else {
        (text, None)
    }
}

/// Whether a text is the word.
pub(crate) fn is_word(text: &str, word: &str) -> bool
    ensures { result ≡ is_same word.now text.now }
{
    are_word(text.as_bytes(), word)
}

/// Whether bytes are the word.
pub(crate) fn are_word(bytes: &[u8], word: &str) -> bool
    ensures { result ≡ is_same word.now bytes.now }
{
    word.as_bytes() == bytes
}

/// The first word of bytes, and what is behind it, from the next word on.
pub(crate) fn split_bytes(bytes: &[u8]) -> (&[u8], &[u8])
    ensures word { result.0.now ≡ first_word bytes.now }
    ensures behind { result.1.now ≡ behind_word bytes.now }
{
    let (word, behind) = bytes.split_at(word_length(bytes));
    (word, &behind[blanks_at_start(behind)..])
}

/// The first word of a text, and what is behind it, from the next word on.
pub(crate) fn split_word(text: &str) -> (&str, &str)
    ensures word { result.0.now ≡ first_word text.now }
    ensures behind { result.1.now ≡ behind_word text.now }
{
    let (word, behind) = text.split_at(word_length(text.as_bytes()));
    (word, trim_start(behind))
}

/// How many bytes stand before the first line feed, or how many there are.
fn line_length(text: &[u8]) -> usize
    ensures place { result ≡ position_or_len (λ c. c == 10) text.now }
    ensures within { result ≤ length text.now }
{
    text.iter().take_while(|c| **c != b'\n').count()
}

/// How many bytes stand before the first blank, or how many there are.
fn word_length(text: &[u8]) -> usize
    ensures place { result ≡ position_or_len is_blank text.now }
    ensures within { result ≤ length text.now }
{
    text.iter().take_while(|c| !is_blank(**c)).count()
}

/// What a line says: without the one carriage return at its end, and then without the blanks at both ends.
pub(crate) fn content(line: &[u8]) -> &[u8]
    ensures { result.now ≡ content line.now }
{
    let text = strip_carriage_return(line);
    let text = &text[blanks_at_start(text)..];
    &text[..text.len() - blanks_at_end(text)]
}

/// The text without the blanks at both ends.
pub(crate) fn trim(text: &str) -> &str
    ensures { result.now ≡ trim text.now }
{
    let text = trim_start(text);
    &text[..text.len() - blanks_at_end(text.as_bytes())]
}

fn trim_start(text: &str) -> &str
    ensures { result.now ≡ trim_start text.now }
{
    &text[blanks_at_start(text.as_bytes())..]
}

/// How many blanks the text begins with.
fn blanks_at_start(text: &[u8]) -> usize
    ensures blanks { result ≡ prefix_len is_blank text.now }
    ensures within { result ≤ length text.now }
{
    text.iter().take_while(|c| is_blank(**c)).count()
}

/// How many blanks the text ends with.
fn blanks_at_end(text: &[u8]) -> usize
    ensures blanks { result ≡ suffix_len is_blank text.now }
    ensures within { result ≤ length text.now }
{
    text.iter().rev().take_while(|c| is_blank(**c)).count()
}

fn strip_carriage_return(line: &[u8]) -> &[u8]
    ensures { result.now ≡ strip_carriage_return line.now }
{
    match line {
        [front @ .., b'\r'] => front,
        _ => line,
    }
}

/// Whether the byte is a blank or a tab.
fn is_blank(c: u8) -> bool
    ensures { result ≡ is_blank c }
{
    c == b' ' || c == b'\t'
}
