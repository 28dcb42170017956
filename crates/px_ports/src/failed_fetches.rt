// The list of failed fetches that a host keeps, so that a fault can be answered only where one is added.
ghost use Rattle.std.specs.Prelude.{◌≡◌, [], ◌∷◌, ◌++◌, OnOk, OnErr};

use px_value::NoMemory;
use std::alloc::Global;
use std::marker::Model;

/// The names of the fetches that failed, in order. How often a name is there is the host's count of
/// failed fetches of that name.
#[derive(Drop)]
pub struct FailedFetches {
    names: Vec<String>,
}

impl Model for FailedFetches {
    ghost use Rattle.std.specs.Prelude.{ℕ, List, map};
    ghost use Rattle.std.specs.String.{string_bytes};

    ghost Value = { List (List ℕ) };

    ghost view = { λ failed. map string_bytes failed.names.items };
}

impl FailedFetches {
    /// A list without a name.
    pub fn new(alloc: Global) -> Self
        ensures { result ≡ [] }
    {
        FailedFetches {
            names: Vec::new(alloc),
        }
    }

    /// Adds the name of one more failed fetch, if there is memory for it.
    pub fn add(&mut self, alloc: Global, name: &str) -> Result<(), NoMemory>
        ensures ok { OnOk result (self.new ≡ self.old ++ name.now ∷ []) }
        ensures err { OnErr result (self.new ≡ self.old) }
    {
        self.names.push(String::from_str(alloc, name)?)?;
        Ok(())
    }
}
