// What blocks and their actions are at fault for.
ghost use Rattle.std.specs.Prelude.{◌≡◌, [], ◌∷◌, ◌++◌, IsTrue, map, option_map, OnOk};
ghost use Rattle.px_syntax.specs.Block.{block_of, body_of, action_of, branch_of, guarded_of, actions_in_turn, else_ifs_in_turn, else_of};
ghost use Rattle.px_syntax.specs.BlockFaults.{redeclared, action_labels, inside_last, else_child, block_faults, actions_faults, body_faults, guarded_faults, else_if_faults, else_faults, branch_faults};
ghost use Rattle.px_syntax.specs.Expr.{term_of};
ghost use Rattle.px_syntax.specs.ExprFaults.{faults_as};
ghost use Rattle.px_syntax.specs.Scope.{is_simple};
ghost use Rattle.px_syntax.specs.declared.value_type.ValueType.TheVariants.{Boolean, Integer};
ghost use Rattle.px_check.specs.Found.{noted};

use crate::branches::note_if_labels;
use crate::found::Found;
use crate::heads::{action_labels, own_action};
use crate::repeats::note_redeclared;
use crate::scope::Scope;
use crate::types::Allowed;
use px_syntax::{Action, Block, Body, Branch, Guarded, Identifier, SurfaceExpr, ValueType};
use px_value::NoMemory;
use std::alloc::Global;

// Notes each label of these actions that one before it has.
fn note_action_labels(alloc: Global, actions: &[Action], found: &mut Found) -> Result<(), NoMemory>
    ensures { OnOk result (found.new
        ≡ noted found.old (redeclared (action_labels (actions_in_turn (map action_of actions.now))))) }
{
    note_redeclared(alloc, &action_labels(alloc, actions)?, found)
}

impl<'a> Scope<'a> {
    // What an assignment, a command or an update is at fault for.
    fn simple(
        &mut self,
        alloc: Global,
        is_one_node: bool,
        label: &Option<Identifier>,
        body: &Body,
        found: &mut Found,
    ) -> Result<(), NoMemory>
        requires { IsTrue (is_simple (body_of body.now)) }
        ensures scope { OnOk result (self.new ≡ self.old) }
        ensures found { OnOk result (found.new
            ≡ noted found.old (body_faults self.old is_one_node label.now (body_of body.now))) }
    {
        let outer = self.mark();
        let is_command = matches!(body, Body::CallInto { .. } | Body::Call(_));
        self.enter_action(alloc, is_one_node, label, is_command)?;
        match body {
            Body::Assign { target, value } => self.assign(target, value, found),
            Body::CallInto { target, call } => self.call_into(target, call, found),
            Body::Call(call) => self.call(call, found),
            Body::Update { token, pairs } => self.update(*token, pairs, found),
            Body::Block(_) | Body::If { .. } | Body::While(_) | Body::For { .. } => {}
        }
        self.back_to(outer);
        Ok(())
    }

    // What the test and the step of a `for` are at fault for, inside of it.
    #[tactic(auto, using(crate::proofs::Noting::noting))]
    fn test_and_step(&self, test: &SurfaceExpr, step: &SurfaceExpr, found: &mut Found)
        ensures { found.new ≡ noted found.old (faults_as (Boolean ∷ []) self.now (term_of test.now)
            ++ faults_as (Integer ∷ []) self.now (term_of step.now)) }
    {
        self.expression(Allowed::Only(ValueType::Boolean), test, found);
        self.expression(Allowed::Only(ValueType::Integer), step, found);
    }

    /// Notes what a block is at fault for, whose node has this label. Comes back to the scope round it.
    #[cycle(block)]
    pub fn block(
        &mut self,
        alloc: Global,
        label: &Option<Identifier>,
        block: &Block,
        found: &mut Found,
    ) -> Result<(), NoMemory>
        ensures scope { OnOk result (self.new ≡ self.old) }
        ensures found { OnOk result (found.new
            ≡ noted found.old (block_faults self.old label.now (block_of block.now))) }
    {
        let outer = self.mark();
        self.enter_block(alloc, label, block)?;
        self.items(alloc, &block.items, found)?;
        note_action_labels(alloc, &block.actions, found)?;
        let is_one_node = own_action(block).is_some();
        self.actions(alloc, is_one_node, &block.actions, found)?;
        self.back_to(outer);
        Ok(())
    }

    #[cycle(block)]
    fn actions(
        &mut self,
        alloc: Global,
        is_one_node: bool,
        actions: &[Action],
        found: &mut Found,
    ) -> Result<(), NoMemory>
        ensures scope { OnOk result (self.new ≡ self.old) }
        ensures found { OnOk result (found.new ≡ noted found.old
            (actions_faults self.old is_one_node (actions_in_turn (map action_of actions.now)))) }
    {
        for action in actions {
            self.body(alloc, is_one_node, &action.label, &action.body, found)?;
        }
        Ok(())
    }

    #[cycle(block)]
    fn body(
        &mut self,
        alloc: Global,
        is_one_node: bool,
        label: &Option<Identifier>,
        body: &Body,
        found: &mut Found,
    ) -> Result<(), NoMemory>
        ensures scope { OnOk result (self.new ≡ self.old) }
        ensures found { OnOk result (found.new
            ≡ noted found.old (body_faults self.old is_one_node label.now (body_of body.now))) }
    {
        let outer = self.mark();
        match body {
            Body::Block(block) => self.block(alloc, label, block, found),
            Body::If {
                first,
                others,
                otherwise,
            } => {
                note_if_labels(alloc, first, others, otherwise, found)?;
                self.enter_if(alloc, label, first, others, otherwise)?;
                self.guarded(alloc, first, found)?;
                self.else_ifs(alloc, others, otherwise, found)?;
                self.else_branch(alloc, otherwise, found)?;
                self.back_to(outer);
                Ok(())
            }
            Body::While(guarded) => {
                self.enter_while(alloc, label, guarded)?;
                self.guarded(alloc, guarded, found)?;
                self.back_to(outer);
                Ok(())
            }
            Body::For {
                variable,
                test,
                step,
                branch,
                ..
            } => {
                self.enter_for(alloc, label, variable, branch)?;
                self.test_and_step(test, step, found);
                self.branch(alloc, branch, found)?;
                self.back_to(outer);
                Ok(())
            }
            Body::Assign { .. } | Body::CallInto { .. } | Body::Call(_) | Body::Update { .. } => {
                self.simple(alloc, is_one_node, label, body, found)
            }
        }
    }

    // The `elseif`s of a chain, from inside the `if` before them. Stays inside the last one.
    #[cycle(block)]
    fn else_ifs(
        &mut self,
        alloc: Global,
        others: &[Guarded],
        otherwise: &Option<Branch>,
        found: &mut Found,
    ) -> Result<(), NoMemory>
        ensures scope { OnOk result (self.new ≡ inside_last self.old
            (else_ifs_in_turn (map guarded_of others.now))
            (else_child (else_of (option_map branch_of otherwise.now)))) }
        ensures found { OnOk result (found.new ≡ noted found.old (else_if_faults self.old
            (else_ifs_in_turn (map guarded_of others.now))
            (else_child (else_of (option_map branch_of otherwise.now))))) }
    {
        for (place, next) in others.iter().enumerate() {
            let later = &others[place + 1..];
            self.enter_if(alloc, &None, next, later, otherwise)?;
            self.guarded(alloc, next, found)?;
        }
        Ok(())
    }

    // What stands after `else`, inside its `if`.
    #[cycle(block)]
    fn else_branch(
        &mut self,
        alloc: Global,
        otherwise: &Option<Branch>,
        found: &mut Found,
    ) -> Result<(), NoMemory>
        ensures scope { OnOk result (self.new ≡ self.old) }
        ensures found { OnOk result (found.new
            ≡ noted found.old (else_faults self.old (else_of (option_map branch_of otherwise.now)))) }
    {
        match otherwise {
            Some(branch) => self.branch(alloc, branch, found),
            None => Ok(()),
        }
    }

    // A test and its branch, inside their `if` or `while`.
    #[cycle(block)]
    fn guarded(
        &mut self,
        alloc: Global,
        guarded: &Guarded,
        found: &mut Found,
    ) -> Result<(), NoMemory>
        ensures scope { OnOk result (self.new ≡ self.old) }
        ensures found { OnOk result (found.new ≡ noted found.old (guarded_faults self.old (guarded_of guarded.now))) }
    {
        self.expression(Allowed::Only(ValueType::Boolean), &guarded.test, found);
        self.branch(alloc, &guarded.branch, found)
    }

    #[cycle(block)]
    fn branch(&mut self, alloc: Global, branch: &Branch, found: &mut Found) -> Result<(), NoMemory>
        ensures scope { OnOk result (self.new ≡ self.old) }
        ensures found { OnOk result (found.new ≡ noted found.old (branch_faults self.old (branch_of branch.now))) }
    {
        self.block(alloc, &branch.label, &branch.block, found)
    }
}
