// Bytes at which no token begins, in words.
use crate::place::Place;
use crate::report::Words;

/// The characters with one of which a piece of text begins, what is wrong then, and what helps. The last row of a table is
/// for any character.
pub type Row = (&'static str, &'static str, &'static str);

const NOTHING: &str = "nothing in a plan begins with `{}`";

/// Where no token begins, or one that isn't closed or isn't well formed.
pub const BAD: [Row; 8] = [
    (
        "\"",
        "a String begins here that isn't closed in its line, or has a `\\` that stands for nothing",
        "end it by `\"`; `\\\"`, `\\\\`, `\\n` and `\\t` stand for a quote, a `\\`, a line end and a tab",
    ),
    (
        "/",
        "a comment begins here that isn't closed",
        "end it by `*/`",
    ),
    (
        "0123456789",
        "a number begins here that goes on with a letter",
        "a name begins with a letter or `_`; numbers are decimal, or hexadecimal as `0x1f`",
    ),
    ("&", NOTHING, "`and` is written `&&` or `AND`"),
    ("|", NOTHING, "`or` is written `||` or `OR`"),
    (
        "#",
        NOTHING,
        "a list of values is `#(1 2 3)`; comments begin with `//`",
    ),
    (
        "'",
        NOTHING,
        "a String stands between double quotes, as `\"a\"`",
    ),
    (
        "",
        NOTHING,
        "leave it away, or put it into a String or a comment",
    ),
];

/// Where a real number or its type stands.
pub const REAL: [Row; 2] = [
    (
        "0123456789",
        "a number with a point stands here, and the language has none",
        "use an Integer, as thousandths in place of units",
    ),
    (
        "",
        "the language has no such type",
        "variables are Integer, Boolean or String",
    ),
];

/// Where a token is too long or too large.
pub const TOO_LONG: [Row; 3] = [
    (
        "\"",
        "a String of over 1,024 bytes begins here",
        "join two shorter ones by `+`",
    ),
    (
        "0123456789",
        "this number is too large",
        "the greatest is 2147483647; -2147483648 is written `-2147483647 - 1`",
    ),
    ("", "this name has over 64 bytes", "choose a shorter one"),
];

/// Says of a piece of text that it is no token, by the row for its first character.
pub fn not_a_token(rows: &[Row], place: &Place<'_>, words: &mut Words) {
    let first = place.first().unwrap_or(' ');
    for row in rows {
        let (begins, message, help) = *row;
        if begins.is_empty() || begins.contains(first) {
            return words.say_of(place.spelled(), message, help);
        }
    }
}
