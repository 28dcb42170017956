// Names of nodes, variables, commands and looked-up states.
ghost use Rattle.std.specs.Prelude.{◌≡◌, false, IsTrue, IfOk, IsErrOf, nat_eq};
ghost use Rattle.std.specs.Cmp.{partial_equiv_from_equiv};
ghost use Rattle.std.specs.Cmp.Lexicographic.{pointwise, nat_list_eq_equiv};
ghost use Rattle.std.specs.Cmp.Rules.{hashing};
ghost use Rattle.std.specs.Hash as fed;
ghost use Rattle.std.proofs.Common.{rules};
ghost use Rattle.std.specs.List.{list_all};
ghost use Rattle.px_value.specs.Name.{is_digit, is_letter, is_letter_or_digit, begins_identifier, continues_identifier, is_identifier, is_generated, generated_name, is_name};
ghost use Rattle.px_value.specs.declared.name.NameFault.TheVariants.{NoMemory as OutOfMemory};

use itoa::Buffer;
use std::alloc::{AllocError, Global};
use std::hash::{Hash, Hasher};
use std::marker::Model;
use std::sync::ArcStr;
use thiserror::Error;

/// The most bytes that a name has.
pub const NAME_LIMIT: usize = 64;

/// Why a text was not made a name.
#[derive(Debug, Drop, Error)]
pub enum NameFault {
    /// The text is neither an identifier nor a generated name, or it is too long.
    #[error("not a name")]
    NotAName,
    #[error("out of memory")]
    NoMemory,
}

impl From<AllocError> for NameFault {
    ghost from_gives = { λ _ fault. fault ≡ OutOfMemory };

    fn from(_: AllocError) -> Self {
        NameFault::NoMemory
    }
}

/// An identifier, or the name `#..` that a node without a label is given: 1 to 64 bytes of ASCII. Its text is shared with
/// its copies.
#[derive(Debug, Drop)]
pub struct Name {
    text: ArcStr,
}

impl Model for Name {
    ghost use Rattle.std.specs.Prelude.{ℕ, List, IsTrue};
    ghost use Rattle.std.specs.Arc.{arc_str_bytes};
    ghost use Rattle.px_value.specs.Name.{is_name};

    ghost Value = { List ℕ };

    ghost view = { λ n. arc_str_bytes n.text };

    ghost invariant = { λ n. IsTrue (is_name (arc_str_bytes n.text)) };
}

impl Name {
    /// The name that the text spells.
    ///
    /// `NotAName` comes exactly where the text is no name.
    pub fn new(alloc: Global, text: &str) -> Result<Name, NameFault>
        ensures ok { IfOk result (λ name. (name ≡ text.now) × IsTrue (is_name text.now)) }
        ensures not_a_name { IsErrOf result NameFault.NotAName → is_name text.now ≡ false }
    {
        if is_name(text.as_bytes()) {
            Ok(Name {
                text: ArcStr::from_str(alloc, text)?,
            })
        } else {
            Err(NameFault::NotAName)
        }
    }

    /// The name of the `k`-th action of a block, where the plan gives it none: `#` and `k`.
    pub fn generated(alloc: Global, k: u32) -> Result<Name, AllocError>
        ensures { IfOk result (λ name. name ≡ generated_name k) }
    {
        let mut buffer = Buffer::new();
        let digits = buffer.format(k);
        let mut text = String::with_capacity(alloc, 1 + digits.len())?;
        text.push_str("#")?;
        text.push_str(digits)?;
        Ok(Name {
            text: ArcStr::from_string(text)?,
        })
    }

    /// The name's text.
    pub fn as_str(&self) -> &str
        ensures value { result.now ≡ self.now }
        ensures name { IsTrue (is_name self.now) }
    {
        self.text.as_str()
    }

    /// An equal name.
    pub fn copy(&self, _alloc: Global) -> Result<Name, AllocError>
        ensures copy { IfOk result (λ name. name ≡ self.now) }
        ensures name { IsTrue (is_name self.now) }
    {
        Ok(Name {
            text: self.text.clone()?,
        })
    }
}

impl PartialEq for Name {
    ghost eq = { pointwise nat_eq };

    ghost laws = { partial_equiv_from_equiv nat_list_eq_equiv };

    fn eq(&self, other: &Self) -> bool {
        self.as_str() == other.as_str()
    }
}

impl Eq for Name {
    ghost laws = { nat_list_eq_equiv };
}

impl Hash for Name {
    ghost hash_input = { fed.str };

    ghost respects_eq = { Prim.search (hashing, rules) };

    fn hash<H: Hasher>(&self, state: &mut H) {
        self.as_str().hash(state);
    }
}

/// Whether the byte is an ASCII digit.
pub fn is_digit(c: u8) -> bool
    ensures { result ≡ is_digit c }
{
    b'0' <= c && c <= b'9'
}

fn is_letter(c: u8) -> bool
    ensures { result ≡ is_letter c }
{
    (b'A' <= c && c <= b'Z') || (b'a' <= c && c <= b'z')
}

/// Whether an identifier may begin with the byte: a letter or `_`.
pub fn begins_identifier(c: u8) -> bool
    ensures { result ≡ begins_identifier c }
{
    is_letter(c) || c == b'_'
}

/// Whether an identifier may go on with the byte: a letter, a digit or `_`.
pub fn continues_identifier(c: u8) -> bool
    ensures { result ≡ continues_identifier c }
{
    begins_identifier(c) || is_digit(c)
}

fn is_letter_or_digit(c: u8) -> bool
    ensures { result ≡ is_letter_or_digit c }
{
    is_letter(c) || is_digit(c)
}

fn all_continue(bytes: &[u8]) -> bool
    ensures { result ≡ list_all continues_identifier bytes.now }
{
    bytes.iter().all(|c| continues_identifier(*c))
}

fn all_letters_or_digits(bytes: &[u8]) -> bool
    ensures { result ≡ list_all is_letter_or_digit bytes.now }
{
    bytes.iter().all(|c| is_letter_or_digit(*c))
}

/// Whether the bytes are an identifier: a letter or `_`, and then letters, digits and `_`.
pub fn is_identifier(bytes: &[u8]) -> bool
    ensures { result ≡ is_identifier bytes.now }
{
    match bytes {
        [first, rest @ ..] => begins_identifier(*first) && all_continue(rest),
        [] => false,
    }
}

fn is_generated(bytes: &[u8]) -> bool
    ensures { result ≡ is_generated bytes.now }
{
    match bytes {
        [hash, first, rest @ ..] => {
            *hash == b'#' && is_letter_or_digit(*first) && all_letters_or_digits(rest)
        }
        _ => false,
    }
}

/// Whether the bytes are a name.
pub fn is_name(bytes: &[u8]) -> bool
    ensures { result ≡ is_name bytes.now }
{
    (is_identifier(bytes) || is_generated(bytes)) && bytes.len() <= NAME_LIMIT
}
