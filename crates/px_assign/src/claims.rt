// Which writers would start, and which are at work.
ghost use Rattle.std.specs.Prelude.{◌≡◌, ◌<◌, List, length, IfOk};
ghost use Rattle.px_core.specs.Plan.{Site};
ghost use Rattle.px_flat.specs.declared.flat.Flat.{Flat};
ghost use Rattle.px_flat.specs.Flat.{plan_of};
ghost use Rattle.px_assign.specs.Claims.{with_wanting, with_holding, AreAllStarting, AreNobodys, AreOf, AreWinners};

use crate::contest::{judge, winners};
use crate::firsts::Firsts;
use crate::order::{variables, writers};
use px_flat::Flat;
use px_links::Links;
use px_tally::Tally;
use px_value::NoMemory;
use std::alloc::Global;
use std::marker::Model;

/// The nodes of a plan, of which some would start and some are at work. Who of the writers goes is told without a look at
/// those whose variable is held or not wanted. No call but `new` and `winners` takes memory.
#[derive(Drop)]
pub struct Claims {
    /// The writers of each variable in their order, and the first of them that would start.
    firsts: Firsts,
    /// The nodes that would start, by the variable that they write.
    wanting: Tally,
    /// The nodes at work, by the variable that they write.
    holding: Tally,
    /// One list of variables: of each some writer would start, and none is at work.
    contested: Links,
}

impl Model for Claims {
    ghost use Rattle.px_assign.specs.Claims.{ClaimsData};

    ghost Value = { ClaimsData };

    ghost use Rattle.px_assign.specs.Keeping.{claims_data, IsKept};

    ghost view = { claims_data };

    ghost invariant = { IsKept };
}

impl Claims {
    /// The nodes of a plan: none would start, and none is at work. An error is want of memory.
    pub fn new(alloc: Global, flat: &Flat) -> Result<Claims, NoMemory>
        ensures plan { IfOk result (AreOf (plan_of flat.now)) }
        ensures nobody { IfOk result (AreNobodys (length (plan_of flat.now))) }
    {
        let cells = flat.variable_cells();
        Ok(Claims {
            firsts: Firsts::new(alloc, writers(alloc, flat)?, flat.nodes(), cells)?,
            wanting: Tally::new(alloc, cells, variables(alloc, flat)?)?,
            holding: Tally::new(alloc, cells, variables(alloc, flat)?)?,
            contested: Links::new(alloc, cells, 1)?,
        })
    }

    /// From now on the node would start, or it wouldn't. Where it went first, and others of its variable would start, it
    /// costs a walk to the next of them.
    pub fn want(&mut self, node: u32, wants: bool)
        requires { node < length self.old.variables }
        ensures { self.new ≡ with_wanting self.old node wants }
    {
        self.wanting.set(node, wants);
        if let Some(variable) = self.wanting.group(node) {
            self.firsts.turn(&self.wanting, node, variable);
            judge(&self.wanting, &self.holding, &mut self.contested, variable);
        }
    }

    /// From now on the node is at work, and holds the variable that it writes, or it isn't.
    pub fn hold(&mut self, node: u32, holds: bool)
        requires { node < length self.old.variables }
        ensures { self.new ≡ with_holding self.old node holds }
    {
        self.holding.set(node, holds);
        if let Some(variable) = self.holding.group(node) {
            judge(&self.wanting, &self.holding, &mut self.contested, variable);
        }
    }

    /// The writers that go, each once: of each variable that nobody holds the one of those that would start whose priority
    /// number is the lowest, and of these the earliest (PLEXIL reference manual, "Assignment Nodes"). It costs a look at each
    /// variable for which one goes.
    pub fn winners(&self, alloc: Global) -> Result<Vec<u32>, NoMemory>
        ensures winners { (plan : List Site) → AreOf plan self.now
            → IfOk result (λ winners. AreWinners plan self.now winners.items) }
        ensures starting { (flat : Flat) → AreOf (plan_of flat) self.now
            → IfOk result (λ winners. AreAllStarting (plan_of flat) self.now winners.items) }
    {
        self.contested.each_once();
        winners(alloc, &self.firsts, &self.contested)
    }
}
