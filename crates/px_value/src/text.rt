// The texts that a plan computes with.
ghost use Rattle.std.specs.Prelude.{◌≡◌, ◌++◌, false, length, take, flat_map, IsTrue, IfOk, OnOk, OnErr, IsErrOf, nat_eq};
ghost use Rattle.std.specs.Cmp.{partial_equiv_from_equiv};
ghost use Rattle.std.specs.Cmp.Lexicographic.{pointwise, nat_list_eq_equiv};
ghost use Rattle.std.specs.Cmp.Rules.{hashing};
ghost use Rattle.std.specs.Hash as fed;
ghost use Rattle.std.proofs.Common.{rules};
ghost use Rattle.px_value.specs.Text.{escape_letter, escaped, is_short_text, quoted};
ghost use Rattle.px_value.specs.declared.text.TextFault.TheVariants.{NoMemory as OutOfMemory};

use std::alloc::{AllocError, Global};
use std::hash::{Hash, Hasher};
use std::marker::Model;
use std::sync::ArcStr;
use thiserror::Error;

/// The most bytes that a text has.
pub const TEXT_LIMIT: usize = 1024;

/// Why a text was not made a value.
#[derive(Debug, Drop, Error)]
pub enum TextFault {
    /// The text has over 1,024 bytes.
    #[error("the text is too long")]
    TooLong,
    #[error("out of memory")]
    NoMemory,
}

impl From<AllocError> for TextFault {
    ghost from_gives = { λ _ fault. fault ≡ OutOfMemory };

    fn from(_: AllocError) -> Self {
        TextFault::NoMemory
    }
}

/// A UTF-8 text of at most 1,024 bytes (PLEXIL reference manual, "Expressions"). It is shared with its copies.
#[derive(Debug, Drop)]
pub struct Text {
    text: ArcStr,
}

impl Model for Text {
    ghost use Rattle.std.specs.Prelude.{ℕ, List, IsTrue};
    ghost use Rattle.std.specs.Arc.{arc_str_bytes};
    ghost use Rattle.px_value.specs.Text.{is_short_text};

    ghost Value = { List ℕ };

    ghost view = { λ t. arc_str_bytes t.text };

    ghost invariant = { λ t. IsTrue (is_short_text (arc_str_bytes t.text)) };
}

impl Text {
    /// The text as a value.
    ///
    /// `TooLong` comes exactly where it has over 1,024 bytes.
    pub fn new(alloc: Global, text: &str) -> Result<Text, TextFault>
        ensures ok { IfOk result (λ made. (made ≡ text.now) × IsTrue (is_short_text text.now)) }
        ensures too_long { IsErrOf result TextFault.TooLong → is_short_text text.now ≡ false }
    {
        if text.len() <= TEXT_LIMIT {
            Ok(Text {
                text: ArcStr::from_str(alloc, text)?,
            })
        } else {
            Err(TextFault::TooLong)
        }
    }

    /// The text itself.
    pub fn as_str(&self) -> &str
        ensures value { result.now ≡ self.now }
        ensures short { IsTrue (is_short_text self.now) }
    {
        self.text.as_str()
    }

    /// An equal text.
    pub fn copy(&self, _alloc: Global) -> Result<Text, AllocError>
        ensures { IfOk result (λ text. text ≡ self.now) }
    {
        Ok(Text {
            text: self.text.clone()?,
        })
    }

    /// Appends the text between quotes, with its escapes. Where memory runs out a part of it may be there, behind all that
    /// was there before.
    pub fn push_quoted(&self, out: &mut Vec<u8>) -> Result<(), AllocError>
        ensures ok { OnOk result (out.new.items ≡ out.old.items ++ quoted self.now) }
        ensures err { OnErr result (take (length out.old.items) out.new.items ≡ out.old.items) }
    {
        out.push(b'"')?;
        push_escaped(self.as_str().as_bytes(), out)?;
        out.push(b'"')?;
        Ok(())
    }

    /// This text followed by the other one.
    pub(crate) fn followed_by(&self, alloc: Global, other: &Text) -> Result<Text, AllocError>
        requires { IsTrue (is_short_text (self.now ++ other.now)) }
        ensures { IfOk result (λ text. text ≡ self.now ++ other.now) }
    {
        let mut text = String::from_str(alloc, self.text.as_str())?;
        text.push_str(other.as_str())?;
        Ok(Text {
            text: ArcStr::from_string(text)?,
        })
    }
}

fn push_escaped(bytes: &[u8], out: &mut Vec<u8>) -> Result<(), AllocError>
    ensures ok { OnOk result (out.new.items ≡ out.old.items ++ flat_map escaped bytes.now) }
    ensures err { OnErr result (take (length out.old.items) out.new.items ≡ out.old.items) }
{
    for byte in bytes {
        match escape_letter(*byte) {
            Some(letter) => out.extend_from_slice(&[b'\\', letter])?,
            None => out.extend_from_slice(&[*byte])?,
        }
    }
    Ok(())
}

/// The letter that stands for a byte behind a backslash, where it has one.
fn escape_letter(byte: u8) -> Option<u8>
    ensures { result ≡ escape_letter byte }
{
    match byte {
        b'"' | b'\\' => Some(byte),
        b'\n' => Some(b'n'),
        b'\t' => Some(b't'),
        _ => None,
    }
}

impl PartialEq for Text {
    ghost eq = { pointwise nat_eq };

    ghost laws = { partial_equiv_from_equiv nat_list_eq_equiv };

    fn eq(&self, other: &Self) -> bool {
        self.as_str() == other.as_str()
    }
}

impl Eq for Text {
    ghost laws = { nat_list_eq_equiv };
}

impl Hash for Text {
    ghost hash_input = { fed.str };

    ghost respects_eq = { Prim.search (hashing, rules) };

    fn hash<H: Hasher>(&self, state: &mut H) {
        self.as_str().hash(state);
    }
}
