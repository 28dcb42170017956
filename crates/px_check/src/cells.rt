// The cells that a plan declares, and the declaration with which there are too many.
ghost use Rattle.std.specs.Prelude.{◌≡◌, None, map};
ghost use Rattle.std.specs.List.{flat_map};
ghost use Rattle.px_syntax.specs.Block.{block_of, body_of, action_of, guarded_of, item_data, variable_data, actions_in_turn, else_ifs_in_turn};
ghost use Rattle.px_syntax.specs.PlanFaults.{item_cells, block_cells, actions_cells, else_if_cells, body_cells, variable_cells};
ghost use Rattle.px_check.specs.Cells.{count_one, counted};
ghost use Rattle.px_check.specs.Found.{noted, passed_fault};

use crate::found::Found;
use px_syntax::{Action, Block, Body, FaultKind, Guarded, Item, Variable};
use std::marker::Model;

/// The most cells of a plan.
pub const CELL_LIMIT: usize = 65_536;

/// The cells so far.
#[derive(Drop)]
pub struct CellCount {
    /// At most the limit.
    before: usize,
    /// The token of the declaration with which they have passed it.
    passed: Option<usize>,
}

impl Model for CellCount {
    ghost use Rattle.std.specs.Prelude.{◌≤◌};
    ghost use Rattle.px_check.specs.Cells.{Count};

    ghost Value = { Count };

    ghost view = { λ count. record { before = count.before; passed = count.passed } };

    ghost invariant = { λ count. count.before ≤ 65536 };
}

impl CellCount {
    /// No cells.
    pub fn new() -> CellCount
        ensures { result ≡ record { before = 0; passed = None } }
    {
        CellCount {
            before: 0,
            passed: None,
        }
    }

    /// Notes the declaration with which there were too many.
    #[tactic(auto, using(crate::proofs::Noting::noting))]
    pub fn note(&self, found: &mut Found)
        ensures { found.new ≡ noted found.old (passed_fault self.now.passed) }
    {
        if let Some(token) = self.passed {
            found.note_where(true, FaultKind::TooLarge, token);
        }
    }

    fn count(&mut self, token: usize, count: u32)
        ensures { self.new ≡ count_one self.old (record { token = token; count = count }) }
    {
        if self.passed.is_some() {
            return;
        }
        let after = self.before + count as usize;
        if CELL_LIMIT < after {
            self.passed = Some(token);
        } else {
            self.before = after;
        }
    }

    fn variables(&mut self, variables: &[Variable])
        ensures { self.new ≡ counted self.old (map variable_cells (map variable_data variables.now)) }
    {
        for variable in variables {
            self.count(variable.name.token, variable.size.unwrap_or(1));
        }
    }

    fn item(&mut self, item: &Item)
        ensures { self.new ≡ counted self.old (item_cells (item_data item.now)) }
    {
        if let Item::Variables { variables, .. } = item {
            self.variables(variables);
        }
    }

    fn items(&mut self, items: &[Item])
        ensures { self.new ≡ counted self.old (flat_map item_cells (map item_data items.now)) }
    {
        for item in items {
            self.item(item);
        }
    }

    /// Counts the variables that a block declares, in the order of the text.
    #[cycle(cells)]
    pub fn block(&mut self, block: &Block)
        ensures { self.new ≡ counted self.old (block_cells (block_of block.now)) }
    {
        self.items(&block.items);
        self.actions(&block.actions);
    }

    #[cycle(cells)]
    fn actions(&mut self, actions: &[Action])
        ensures { self.new ≡ counted self.old (actions_cells (actions_in_turn (map action_of actions.now))) }
    {
        for action in actions {
            self.body(&action.body);
        }
    }

    #[cycle(cells)]
    fn else_ifs(&mut self, others: &[Guarded])
        ensures { self.new ≡ counted self.old (else_if_cells (else_ifs_in_turn (map guarded_of others.now))) }
    {
        for guarded in others {
            self.block(&guarded.branch.block);
        }
    }

    #[cycle(cells)]
    fn body(&mut self, body: &Body)
        ensures { self.new ≡ counted self.old (body_cells (body_of body.now)) }
    {
        match body {
            Body::Block(block) => self.block(block),
            Body::If {
                first,
                others,
                otherwise,
            } => {
                self.block(&first.branch.block);
                self.else_ifs(others);
                if let Some(branch) = otherwise {
                    self.block(&branch.block);
                }
            }
            Body::While(guarded) => self.block(&guarded.branch.block),
            Body::For {
                variable,
                branch,
                ..
            } => {
                self.count(variable.token, 1);
                self.block(&branch.block);
            }
            Body::Assign { .. } | Body::CallInto { .. } | Body::Call(_) | Body::Update { .. } => {}
        }
    }
}
