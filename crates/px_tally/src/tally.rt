// Members of groups, some of which count.
ghost use Rattle.std.specs.Prelude.{◌≡◌, ◌<◌, ◌↔◌, ◌^◌, nat_eq, length, slice_index_or, None, All, IfOk, IfSome, IsTrue};
ghost use Rattle.px_tally.specs.Tally.{nobody, marked, is_counted, total, CountsOthersAsBefore, CountsNobody};

use px_value::NoMemory;
use std::alloc::Global;
use std::marker::Model;

/// Members by number, each of one group or of none, and which of them count now. How many of a group do is told
/// without a walk, and no call but `new` takes memory.
#[derive(Drop)]
pub struct Tally {
    totals: Vec<u32>,
    group_of: Vec<Option<u32>>,
    counting: Vec<bool>,
}

impl Model for Tally {
    ghost use Rattle.px_tally.specs.Tally.{TallyData};

    ghost Value = { TallyData };

    ghost use Rattle.px_tally.specs.Keeping.{tally_data, IsKept};

    ghost view = { tally_data };

    ghost invariant = { IsKept };
}

impl Tally {
    /// So many groups, and the group of each member; nobody counts. An error is want of memory.
    pub fn new(alloc: Global, groups: u32, group_of: Vec<Option<u32>>) -> Result<Tally, NoMemory>
        requires groups { All (λ group. IfSome group (λ group. group < groups)) group_of.items }
        requires few { length group_of.items < 2 ^ 32 }
        ensures { IfOk result (λ made. made ≡ nobody groups group_of.items) }
    {
        Ok(Tally {
            totals: vec![in alloc; 0; groups as usize]?,
            counting: vec![in alloc; false; group_of.len()]?,
            group_of,
        })
    }

    /// From now on the member counts, or it doesn't.
    pub fn set(&mut self, member: u32, counts: bool)
        requires { member < length self.old.group_of }
        ensures tally { self.new ≡ marked self.old member counts }
        ensures members { CountsOthersAsBefore self.old self.new member counts }
    {
        let at = member as usize;
        if self.counting[at] == counts {
            return;
        }
        self.counting[at] = counts;
        if let Some(group) = self.group_of[at] {
            if counts {
                self.totals[group as usize] += 1;
            } else {
                self.totals[group as usize] -= 1;
            }
        }
    }

    /// The group of a member; None where it is of none.
    pub fn group(&self, member: u32) -> Option<u32>
        requires { member < length self.now.group_of }
        ensures { result ≡ slice_index_or self.now.group_of member None }
    {
        self.group_of[member as usize]
    }

    /// Whether the member counts.
    pub fn counts(&self, member: u32) -> bool
        requires { member < length self.now.group_of }
        ensures { result ≡ is_counted self.now member }
    {
        self.counting[member as usize]
    }

    /// How many members of a group count.
    pub fn total(&self, group: u32) -> u32
        requires { group < self.now.groups }
        ensures { result ≡ total self.now group }
    {
        self.totals[group as usize]
    }

    /// Whether no member of a group counts.
    pub fn is_nobody(&self, group: u32) -> bool
        requires { group < self.now.groups }
        ensures total { result ≡ nat_eq (total self.now group) 0 }
        ensures members { IsTrue result ↔ CountsNobody self.now group }
    {
        self.totals[group as usize] == 0
    }
}
