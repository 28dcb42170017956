// The names that the text doesn't have.
ghost use Rattle.std.specs.Prelude.{◌≡◌, length, IfOk, IsTrue};
ghost use Rattle.px_value.specs.Name.{is_name};
ghost use Rattle.px_forms.specs.Names.{generated};

use itoa::Buffer;
use px_value::{Name, NameFault, NoMemory};
use std::alloc::{AllocError, Global};

/// A name that the text doesn't have.
#[derive(Clone, Copy)]
pub enum Generated {
    /// Of the action with this place in its block, counted from 1; a root is the first.
    Action(u32),
    /// Of a branch of an `if`, of a loop, and after `else`.
    Then,
    Body,
    Else,
    /// Of the variable that a test is kept in.
    Test,
    /// Of the nodes of tests and loops.
    Set,
    Step,
    Loop,
}

impl Generated {
    /// The name itself.
    pub fn name(self, alloc: Global) -> Result<Name, NoMemory>
        ensures { IfOk result (λ name. name ≡ generated self) }
    {
        match self {
            Generated::Action(place) => Name::generated(alloc, place),
            Generated::Then => fixed(alloc, "#then"),
            Generated::Body => fixed(alloc, "#body"),
            Generated::Else => fixed(alloc, "#else"),
            Generated::Test => fixed(alloc, "#test"),
            Generated::Set => fixed(alloc, "#set"),
            Generated::Step => fixed(alloc, "#step"),
            Generated::Loop => fixed(alloc, "#loop"),
        }
    }

    /// How many bytes the name has, without making it.
    pub fn length(self) -> usize
        ensures { result ≡ length (generated self) }
    {
        match self {
            Generated::Action(place) => 1 + Buffer::new().format(place).len(),
            Generated::Set => 4,
            Generated::Then
            | Generated::Body
            | Generated::Else
            | Generated::Test
            | Generated::Step
            | Generated::Loop => 5,
        }
    }
}

/// The name that a text spells.
fn fixed(alloc: Global, text: &str) -> Result<Name, NoMemory>
    requires { IsTrue (is_name text.now) }
    ensures { IfOk result (λ name. name ≡ text.now) }
{
    match Name::new(alloc, text) {
        Ok(name) => Ok(name),
        Err(NameFault::NoMemory) => Err(AllocError),
        Err(NameFault::NotAName) => unreachable!(),
    }
}
