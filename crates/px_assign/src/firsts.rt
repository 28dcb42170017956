// Of each variable the first of its writers that would start.
ghost use Rattle.std.specs.Prelude.{◌≡◌, ◌<◌, ◌≤◌, length, replicate, set, slice_index_or, All, IfOk};
ghost use Rattle.px_tally.specs.Tally.{is_counted};
ghost use Rattle.px_assign.specs.declared.order.Writer.{Writer};
ghost use Rattle.px_assign.specs.Keeping.{AreRanks, IsRanked};
ghost use Rattle.px_assign.specs.Ordering.{but_for, first_at, place_wanting};

use crate::order::Writer;
use px_tally::Tally;
use px_value::NoMemory;
use std::alloc::Global;

/// The writers of all variables, and where those stand that go first. A writer that comes moves the place of its variable
/// to the front, and one that leaves moves it on to the next that would start: so who goes is told without a look at those
/// that are done.
#[derive(Drop)]
pub(crate) struct Firsts {
    /// In the order in which they go.
    writers: Vec<Writer>,
    /// By node, its place among the writers; where it is none of them, their count.
    ranks: Vec<usize>,
    /// By variable, the place of the first of its writers that would start; where none would, the count of writers.
    places: Vec<usize>,
}

fn ranks(alloc: Global, writers: &[Writer], nodes: u32) -> Result<Vec<usize>, NoMemory>
    requires { All (λ (writer : Writer). writer.node < nodes) writers.now }
    ensures sized { IfOk result (λ ranks. length ranks.items ≡ nodes) }
    ensures ranks { IfOk result (λ ranks. AreRanks writers.now ranks.items) }
{
    let mut ranks = vec![in alloc; writers.len(); nodes as usize]?;
    for place in (0..writers.len()).rev() {
        ranks[writers[place].node as usize] = place;
    }
    Ok(ranks)
}

impl Firsts {
    /// The writers in their order, of which none would start. An error is want of memory.
    pub(crate) fn new(
        alloc: Global,
        writers: Vec<Writer>,
        nodes: u32,
        variables: u32,
    ) -> Result<Firsts, NoMemory>
        requires { All (λ (writer : Writer). writer.node < nodes) writers.items }
        ensures writers { IfOk result (λ made. made.writers.items ≡ writers.items) }
        ensures sized { IfOk result (λ made. length made.ranks.items ≡ nodes) }
        ensures ranks { IfOk result (λ made. AreRanks writers.items made.ranks.items) }
        ensures places { IfOk result (λ made. made.places.items ≡ replicate variables (length writers.items)) }
    {
        Ok(Firsts {
            ranks: ranks(alloc, &writers, nodes)?,
            places: vec![in alloc; writers.len(); variables as usize]?,
            writers,
        })
    }

    /// A node that writes the variable would start from now on, or it wouldn't, as the tally has it.
    pub(crate) fn turn(&mut self, wanting: &Tally, node: u32, variable: u32)
        requires node { node < length wanting.now.group_of }
        requires variable { variable < wanting.now.groups }
        requires variables { length self.old.places.items ≡ wanting.now.groups }
        requires ranked { IsRanked wanting.now.group_of self.old.writers.items self.old.ranks.items }
        requires before { slice_index_or self.old.places.items variable 0
            ≤ place_wanting (but_for node (is_counted wanting.now)) self.old.writers.items variable }
        ensures places { self.new.places.items
            ≡ set self.old.places.items variable (place_wanting (is_counted wanting.now) self.old.writers.items variable) }
        ensures rest { (self.new.writers ≡ self.old.writers) × (self.new.ranks ≡ self.old.ranks) }
    {
        let mut from = self.places[variable as usize];
        if wanting.counts(node) {
            from = from.min(self.ranks[node as usize]);
        }
        self.places[variable as usize] = self.first_from(wanting, variable, from);
    }

    // The place of the first of a variable's writers that would start, where none before this place would.
    fn first_from(&self, wanting: &Tally, variable: u32, from: usize) -> usize
        requires variable { variable < wanting.now.groups }
        requires ranked { IsRanked wanting.now.group_of self.now.writers.items self.now.ranks.items }
        requires before { from ≤ place_wanting (is_counted wanting.now) self.now.writers.items variable }
        ensures { result ≡ place_wanting (is_counted wanting.now) self.now.writers.items variable }
    {
        if wanting.is_nobody(variable) {
            return self.writers.len();
        }
        for place in from..self.writers.len() {
            let writer = self.writers[place];
            if writer.variable == variable && wanting.counts(writer.node) {
                return place;
            }
        }
        self.writers.len()
    }

    /// The first of a variable's writers that would start; None where none would.
    pub(crate) fn first(&self, variable: u32) -> Option<u32>
        requires { variable < length self.now.places.items }
        ensures { result ≡ first_at self.now.places.items self.now.writers.items variable }
    {
        let writer = self.writers.get(self.places[variable as usize])?;
        Some(writer.node)
    }
}
