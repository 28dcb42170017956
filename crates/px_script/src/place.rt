// The places of VALUEs in a line.
ghost use Rattle.std.specs.Prelude.{◌≡◌, ◌<◌, ◌≤◌, length};
ghost use Rattle.std.specs.Option.{option_copied};
ghost use Rattle.px_script.specs.Place.{is_sign, ends_place, behind_byte, place_length, in_place, behind_place, behind_sign};

use crate::text::trim;

/// How a byte stands to the quotes before it.
#[derive(Clone, Copy)]
pub(crate) enum Quoting {
    /// Outside quotes.
    Outside,
    /// Within quotes.
    Inside,
    /// Within quotes, behind a backslash.
    Escaped,
}

impl Quoting {
    /// How the byte behind this one stands.
    pub(crate) fn behind(self, c: u8) -> Quoting
        ensures { result ≡ behind_byte self c }
    {
        match self {
            Quoting::Outside if c == b'"' => Quoting::Inside,
            Quoting::Outside => Quoting::Outside,
            Quoting::Inside if c == b'"' => Quoting::Outside,
            Quoting::Inside if c == b'\\' => Quoting::Escaped,
            Quoting::Inside | Quoting::Escaped => Quoting::Inside,
        }
    }

    fn ends_place(self, c: u8) -> bool
        ensures { result ≡ ends_place self c }
    {
        match self {
            Quoting::Outside => is_sign(c),
            Quoting::Inside | Quoting::Escaped => false,
        }
    }
}

fn is_sign(c: u8) -> bool
    ensures { result ≡ is_sign c }
{
    matches!(c, b'=' | b'(' | b',' | b')')
}

/// How many bytes stand before the sign that ends the place at the front of a text, or how many there are.
fn place_length(text: &[u8]) -> usize
    ensures place { result ≡ place_length Quoting.Outside text.now }
    ensures within { result ≤ length text.now }
{
    let mut quoting = Quoting::Outside;
    let mut rest = text;
    while let [c, behind @ ..] = rest {
        if quoting.ends_place(*c) {
            break;
        }
        quoting = quoting.behind(*c);
        rest = behind;
    }
    text.len() - rest.len()
}

/// What stands in the place at the front of a text, and the text from the sign on that ends it.
pub(crate) fn split_place(text: &str) -> (&str, &str)
    ensures place { result.0.now ≡ in_place text.now }
    ensures behind { result.1.now ≡ behind_place text.now }
{
    let (place, behind) = text.split_at(place_length(text.as_bytes()));
    (trim(place), behind)
}

/// What is behind a sign, where the text begins with it.
pub(crate) fn behind_sign(text: &str, sign: char) -> Option<&str>
    requires { sign < 128 }
    ensures { option_copied result ≡ behind_sign sign text.now }
{
    text.strip_prefix(sign)
}
