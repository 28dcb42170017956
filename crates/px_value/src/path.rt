// Paths of nodes: the names from the root to the node, joined by dots.
ghost use Rattle.std.specs.Prelude.{◌≡◌, ◌+◌, ◌<◌, length, IsTrue, IfOk, IsErrOf, false, nat_eq};
ghost use Rattle.std.specs.Cmp.{partial_equiv_from_equiv};
ghost use Rattle.std.specs.Cmp.Lexicographic.{pointwise, nat_list_eq_equiv};
ghost use Rattle.std.specs.Cmp.Rules.{hashing};
ghost use Rattle.std.specs.List.{list_all};
ghost use Rattle.std.specs.Hash as fed;
ghost use Rattle.std.proofs.Common.{rules};
ghost use Rattle.px_value.specs.Name.{is_name};
ghost use Rattle.px_value.specs.Path.{pieces, is_path, below};
ghost use Rattle.px_value.specs.declared.path.PathFault.TheVariants.{NoMemory as OutOfMemory};

use crate::name::{Name, is_name};
use std::alloc::{AllocError, Global};
use std::hash::{Hash, Hasher};
use std::marker::Model;
use std::sync::ArcStr;
use thiserror::Error;

/// The most bytes that a path has.
pub const PATH_LIMIT: usize = 5000;

/// Why a text was not made a path.
#[derive(Debug, Drop, Error)]
pub enum PathFault {
    /// The text isn't names joined by dots, or it is too long.
    #[error("not a path")]
    NotAPath,
    #[error("out of memory")]
    NoMemory,
}

impl From<AllocError> for PathFault {
    ghost from_gives = { λ _ fault. fault ≡ OutOfMemory };

    fn from(_: AllocError) -> Self {
        PathFault::NoMemory
    }
}

/// The path of a node: the names from the root to it, joined by dots, of at most 5,000 bytes. Its text is
/// shared with its copies.
#[derive(Debug, Drop)]
pub struct Path {
    text: ArcStr,
}

impl Model for Path {
    ghost use Rattle.std.specs.Prelude.{ℕ, List, IsTrue};
    ghost use Rattle.std.specs.Arc.{arc_str_bytes};
    ghost use Rattle.px_value.specs.Path.{is_path};

    ghost Value = { List ℕ };

    ghost view = { λ p. arc_str_bytes p.text };

    ghost invariant = { λ p. IsTrue (is_path (arc_str_bytes p.text)) };
}

impl Path {
    /// The path that the text spells.
    ///
    /// `NotAPath` comes exactly where the text is no path.
    pub fn new(alloc: Global, text: &str) -> Result<Path, PathFault>
        ensures ok { IfOk result (λ path. (path ≡ text.now) × IsTrue (is_path text.now)) }
        ensures not_a_path { IsErrOf result PathFault.NotAPath → is_path text.now ≡ false }
    {
        if is_path(text.as_bytes()) {
            Ok(Path {
                text: ArcStr::from_str(alloc, text)?,
            })
        } else {
            Err(PathFault::NotAPath)
        }
    }

    /// The path of a root.
    pub fn root(alloc: Global, name: &Name) -> Result<Path, AllocError>
        ensures { IfOk result (λ path. path ≡ name.now) }
    {
        Ok(Path {
            text: ArcStr::from_str(alloc, name.as_str())?,
        })
    }

    /// The path of the child with this name.
    pub fn child(&self, alloc: Global, name: &Name) -> Result<Path, AllocError>
        requires { length self.now + length name.now < PATH_LIMIT }
        ensures { IfOk result (λ path. path ≡ below self.now name.now) }
    {
        let mut text = String::with_capacity(
            alloc,
            self.text.as_str().len() + 1 + name.as_str().len(),
        )?;
        text.push_str(self.text.as_str())?;
        text.push_str(".")?;
        text.push_str(name.as_str())?;
        Ok(Path {
            text: ArcStr::from_string(text)?,
        })
    }

    /// The path's text.
    pub fn as_str(&self) -> &str
        ensures value { result.now ≡ self.now }
        ensures path { IsTrue (is_path self.now) }
    {
        self.text.as_str()
    }

    /// An equal path.
    pub fn copy(&self, _alloc: Global) -> Result<Path, AllocError>
        ensures { IfOk result (λ path. path ≡ self.now) }
    {
        Ok(Path {
            text: self.text.clone()?,
        })
    }
}

impl PartialEq for Path {
    ghost eq = { pointwise nat_eq };

    ghost laws = { partial_equiv_from_equiv nat_list_eq_equiv };

    fn eq(&self, other: &Self) -> bool {
        self.as_str() == other.as_str()
    }
}

impl Eq for Path {
    ghost laws = { nat_list_eq_equiv };
}

impl Hash for Path {
    ghost hash_input = { fed.str };

    ghost respects_eq = { Prim.search (hashing, rules) };

    fn hash<H: Hasher>(&self, state: &mut H) {
        self.as_str().hash(state);
    }
}

/// Whether the bytes are a path: names joined by dots, of at most 5,000 bytes.
pub fn is_path(bytes: &[u8]) -> bool
    ensures { result ≡ is_path bytes.now }
{
    pieces_are_names(bytes) && bytes.len() <= PATH_LIMIT
}

fn pieces_are_names(bytes: &[u8]) -> bool
    ensures { result ≡ list_all is_name (pieces bytes.now) }
{
    bytes.split(|c| *c == b'.').all(|piece| is_name(piece))
}
