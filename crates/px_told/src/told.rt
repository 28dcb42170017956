// What each node asks, and what it is told.
ghost use Rattle.std.specs.Prelude.{◌≡◌, ◌<◌, ◌≤◌, length, IfOk};
ghost use Rattle.px_told.specs.Hearing.{HasHeard};
ghost use Rattle.px_told.specs.Preorder.{IsPreorder, parent_of};
ghost use Rattle.px_told.specs.Told.{silent, own_at, told_at, asked_under, AreTold, AsksOthersAsBefore, HaveAncestors, AreToldByAncestors};

use crate::asks::Asks;
use crate::place::Place;
use crate::walk::hand_on;
use px_links::Links;
use px_value::NoMemory;
use std::alloc::Global;
use std::marker::Model;

/// What each node of a tree asks of those below it, and what it is told: what its parent asks or is told itself. Calls
/// take the numbers of nodes, and no call but `new` takes memory.
#[derive(Drop)]
pub struct Told {
    tree: Vec<Place>,
    own: Vec<Asks>,
    told: Vec<Asks>,
}

impl Model for Told {
    ghost use Rattle.px_told.specs.Told.{ToldData};

    ghost Value = { ToldData };

    ghost use Rattle.px_told.specs.Keeping.{told_data, IsKept};

    ghost view = { told_data };

    ghost invariant = { IsKept };
}

impl Told {
    /// The nodes of a tree in preorder, none of whom asks anything. An error is want of memory.
    pub fn new(alloc: Global, tree: Vec<Place>) -> Result<Told, NoMemory>
        requires { IsPreorder tree.items }
        ensures { IfOk result (λ made. made ≡ silent tree.items) }
    {
        Ok(Told {
            own: vec![in alloc; Asks::NOTHING; tree.len()]?,
            told: vec![in alloc; Asks::NOTHING; tree.len()]?,
            tree,
        })
    }

    /// What the node asks of those below it.
    pub fn own(&self, node: u32) -> Asks
        requires { node < length self.now.tree }
        ensures { result ≡ own_at self.now node }
    {
        self.own[node as usize]
    }

    /// What the node is told: of the root nothing, of another node what its parent asks or is told.
    pub fn told(&self, node: u32) -> Asks
        requires { node < length self.now.tree }
        ensures told { result ≡ told_at self.now node }
        ensures right { result
            ≡ asked_under self.now.own self.now.told (parent_of self.now.tree node) }
    {
        self.told[node as usize]
    }

    /// From now on the node asks this of those below it, and nothing else. Each node that is told something else than
    /// before is put behind the others of that list of `heard`, in rising order, where it is in no list yet. It costs a look
    /// at the node's children and at those of each node that is told something else.
    pub fn set(&mut self, node: u32, asks: Asks, heard: &mut Links, list: u32)
        requires node { node < length self.old.tree }
        requires list { list < length heard.old.lists }
        requires cells { length self.old.tree ≤ heard.old.cells }
        ensures tree { self.new.tree ≡ self.old.tree }
        ensures own { AsksOthersAsBefore self.old self.new node asks }
        ensures told { AreTold self.new }
        ensures heard { HasHeard self.old.told self.new.told heard.old heard.new list }
    {
        let at = node as usize;
        let before = self.own[at].or(self.told[at]);
        self.own[at] = asks;
        if asks.or(self.told[at]) != before {
            hand_on(&self.tree, &self.own, &mut self.told, node, heard, list);
        }
    }

    /// A law: each node has its ancestors, up to one without a parent, and is told exactly what some of them asks.
    pub fn by_ancestors(&self)
        ensures ancestors { HaveAncestors self.now.tree }
        ensures told { AreToldByAncestors self.now }
    {
        // What every table keeps is known of its fields.
        let _ = &self.told;
    }
}
