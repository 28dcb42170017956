// The tolerances that a plan has, and the one with which there are too many distinct ones.
ghost use Rattle.std.specs.Prelude.{◌≡◌, [], None, map, option_map};
ghost use Rattle.std.specs.List.{flat_map};
ghost use Rattle.px_syntax.specs.Block.{block_of, body_of, action_of, guarded_of, branch_of, item_data, target_data, call_data, pair_data, actions_in_turn, else_ifs_in_turn, else_of};
ghost use Rattle.px_syntax.specs.Expr.{term_of, in_turn};
ghost use Rattle.px_syntax.specs.Tolerances.{term_tolerances, terms_tolerances, item_tolerances, target_tolerances, call_tolerances, pair_tolerances, block_tolerances, actions_tolerances, guarded_tolerances, else_if_tolerances, else_tolerances, body_tolerances};
ghost use Rattle.px_check.specs.Found.{noted, passed_fault};
ghost use Rattle.px_check.specs.Tolerances.{meet_one, met_all};

use crate::found::Found;
use arrayvec::ArrayVec;
use px_syntax::{
    Action, Block, Body, Branch, Call, FaultKind, Guarded, Item, Pair, SurfaceExpr, Target,
    Tolerance,
};
use std::marker::Model;

/// The most distinct tolerances of a plan.
pub const TOLERANCE_LIMIT: usize = 16;

/// The distinct tolerances so far.
#[derive(Drop)]
pub struct Tolerances {
    distinct: ArrayVec<u32, TOLERANCE_LIMIT>,
    /// The token of the tolerance with which they have passed the limit.
    passed: Option<usize>,
}

impl Model for Tolerances {
    ghost use Rattle.px_check.specs.Tolerances.{Met};

    ghost Value = { Met };

    ghost view = { λ tolerances. record { before = tolerances.distinct.items; passed = tolerances.passed } };
}

impl Tolerances {
    /// No tolerance.
    pub fn new() -> Tolerances
        ensures { result ≡ record { before = []; passed = None } }
    {
        Tolerances {
            distinct: ArrayVec::new(),
            passed: None,
        }
    }

    /// Notes the tolerance with which there were too many.
    #[tactic(auto, using(crate::proofs::Noting::noting))]
    pub fn note(&self, found: &mut Found)
        ensures { found.new ≡ noted found.old (passed_fault self.now.passed) }
    {
        if let Some(token) = self.passed {
            found.note_where(true, FaultKind::TooLarge, token);
        }
    }

    fn meet(&mut self, tolerance: Tolerance)
        ensures { self.new ≡ meet_one self.old tolerance }
    {
        if self.passed.is_some() || self.distinct.contains(&tolerance.distance) {
            return;
        }
        if self.distinct.is_full() {
            self.passed = Some(tolerance.token);
        } else {
            self.distinct.push(tolerance.distance);
        }
    }

    #[cycle(terms)]
    fn term(&mut self, term: &SurfaceExpr)
        ensures { self.new ≡ met_all self.old (term_tolerances (term_of term.now)) }
    {
        match term {
            SurfaceExpr::Element { index, .. } => self.term(index),
            SurfaceExpr::Look {
                args,
                tolerance,
                ..
            } => {
                self.terms(args);
                if let Some(tolerance) = tolerance {
                    self.meet(*tolerance);
                }
            }
            SurfaceExpr::UnaryCall { argument, .. } => self.term(argument),
            SurfaceExpr::BinaryCall { first, second, .. } => {
                self.term(first);
                self.term(second);
            }
            SurfaceExpr::Unary { operand, .. } => self.term(operand),
            SurfaceExpr::Binary { left, right, .. } => {
                self.term(left);
                self.term(right);
            }
            SurfaceExpr::Literal { .. }
            | SurfaceExpr::Enumerated { .. }
            | SurfaceExpr::Variable(_)
            | SurfaceExpr::Attribute { .. } => {}
        }
    }

    #[cycle(terms)]
    fn terms(&mut self, terms: &[SurfaceExpr])
        ensures { self.new ≡ met_all self.old (terms_tolerances (in_turn (map term_of terms.now))) }
    {
        for term in terms {
            self.term(term);
        }
    }

    fn item(&mut self, item: &Item)
        ensures { self.new ≡ met_all self.old (item_tolerances (item_data item.now)) }
    {
        if let Item::Condition { test, .. } = item {
            self.term(test);
        }
    }

    fn items(&mut self, items: &[Item])
        ensures { self.new ≡ met_all self.old (flat_map item_tolerances (map item_data items.now)) }
    {
        for item in items {
            self.item(item);
        }
    }

    fn target(&mut self, target: &Target)
        ensures { self.new ≡ met_all self.old (target_tolerances (target_data target.now)) }
    {
        if let Some(index) = &target.index {
            self.term(index);
        }
    }

    fn call(&mut self, call: &Call)
        ensures { self.new ≡ met_all self.old (call_tolerances (call_data call.now)) }
    {
        self.terms(&call.args);
    }

    fn pairs(&mut self, pairs: &[Pair])
        ensures { self.new ≡ met_all self.old (flat_map pair_tolerances (map pair_data pairs.now)) }
    {
        for pair in pairs {
            self.term(&pair.value);
        }
    }

    /// Meets the tolerances that a block has, in the order of the text.
    #[cycle(blocks)]
    pub fn block(&mut self, block: &Block)
        ensures { self.new ≡ met_all self.old (block_tolerances (block_of block.now)) }
    {
        self.items(&block.items);
        self.actions(&block.actions);
    }

    #[cycle(blocks)]
    fn actions(&mut self, actions: &[Action])
        ensures { self.new ≡ met_all self.old (actions_tolerances (actions_in_turn (map action_of actions.now))) }
    {
        for action in actions {
            self.body(&action.body);
        }
    }

    #[cycle(blocks)]
    fn guarded(&mut self, guarded: &Guarded)
        ensures { self.new ≡ met_all self.old (guarded_tolerances (guarded_of guarded.now)) }
    {
        self.term(&guarded.test);
        self.block(&guarded.branch.block);
    }

    #[cycle(blocks)]
    fn else_ifs(&mut self, others: &[Guarded])
        ensures { self.new ≡ met_all self.old (else_if_tolerances (else_ifs_in_turn (map guarded_of others.now))) }
    {
        for guarded in others {
            self.guarded(guarded);
        }
    }

    #[cycle(blocks)]
    fn else_branch(&mut self, otherwise: &Option<Branch>)
        ensures { self.new ≡ met_all self.old (else_tolerances (else_of (option_map branch_of otherwise.now))) }
    {
        if let Some(branch) = otherwise {
            self.block(&branch.block);
        }
    }

    #[cycle(blocks)]
    fn body(&mut self, body: &Body)
        ensures { self.new ≡ met_all self.old (body_tolerances (body_of body.now)) }
    {
        match body {
            Body::Block(block) => self.block(block),
            Body::Assign { target, value } => {
                self.target(target);
                self.term(value);
            }
            Body::CallInto { target, call } => {
                self.target(target);
                self.call(call);
            }
            Body::Call(call) => self.call(call),
            Body::Update { pairs, .. } => self.pairs(pairs),
            Body::If {
                first,
                others,
                otherwise,
            } => {
                self.guarded(first);
                self.else_ifs(others);
                self.else_branch(otherwise);
            }
            Body::While(guarded) => self.guarded(guarded),
            Body::For {
                test,
                step,
                branch,
                ..
            } => {
                self.term(test);
                self.term(step);
                self.block(&branch.block);
            }
        }
    }
}
