// The parts of all conditions, laid one after another.
ghost use Rattle.std.specs.Prelude.{◌≡◌, ◌+◌, ◌*◌, ◌<◌, ◌≤◌, ◌^◌, ◌∷◌, ◌++◌, [], length, set, IfOk, IfSome, OnOk};
ghost use Rattle.px_flat.specs.Flat.{plan_of};
ghost use Rattle.px_flat.specs.NumberedData.{expr_data};
ghost use Rattle.px_flat.specs.Within.{IsWithin};
ghost use Rattle.px_cached.specs.Laying.{HasLaid, IsLaid};
ghost use Rattle.px_flat.specs.Numbered.{Numbered, Literal, Unary, Binary};
ghost use Rattle.px_value.specs.declared.value.Value.TheVariants.{Boolean};
ghost use Rattle.px_cached.specs.Network.{IsNetwork, joined};

use crate::copies::copy;
use crate::kinds::condition;
use crate::part::{Above, Joint, Part, Root};
use px_core::{BinaryOp, UnaryOp};
use px_flat::{Flat, NumberedExpr};
use px_value::{NoMemory, Value};
use std::alloc::{AllocError, Global};

/// The parts of the conditions of a plan's nodes.
#[derive(Drop)]
pub(crate) struct Network {
    /// Those in a part stand before it.
    pub(crate) parts: Vec<Part>,
    /// What each part is of.
    pub(crate) above: Vec<Above>,
    /// What keeps the truth of the condition of each number.
    pub(crate) roots: Vec<Root>,
}

// How an operation joins parts, if it does.
fn joint_of(op: BinaryOp) -> Option<Joint>
    ensures { IfSome result (λ joint. (a b : Numbered) → Binary op a b ≡ joined joint a b) }
{
    match op {
        BinaryOp::And => Some(Joint::And),
        BinaryOp::Or => Some(Joint::Or),
        _ => None,
    }
}

// The same of an operation over another one.
fn joint_of_both(op: UnaryOp, inner: BinaryOp) -> Option<Joint>
    ensures { IfSome result (λ joint. (a b : Numbered) → Unary op (Binary inner a b) ≡ joined joint a b) }
{
    match (op, inner) {
        (UnaryOp::Not, BinaryOp::Or) => Some(Joint::Nor),
        _ => None,
    }
}

// The truth that an expression is, where it is a constant.
fn constant_of(expr: &NumberedExpr) -> Option<bool>
    ensures { IfSome result (λ truth. expr_data expr.now ≡ Literal (Boolean truth)) }
{
    match expr {
        NumberedExpr::Literal(Value::Boolean(truth)) => Some(*truth),
        _ => None,
    }
}

impl Network {
    /// The parts of all conditions of a plan's nodes.
    pub(crate) fn of(alloc: Global, flat: &Flat) -> Result<Network, NoMemory>
        ensures { IfOk result (λ made. HasLaid (plan_of flat.now)
            made.parts.items made.above.items made.roots.items (8 * length (plan_of flat.now))) }
    {
        let mut network = Network {
            parts: Vec::new(alloc),
            above: Vec::new(alloc),
            roots: Vec::new(alloc),
        };
        for number in 0..8 * flat.nodes() {
            network.lay_condition(alloc, flat, number)?;
        }
        Ok(network)
    }

    fn lay_condition(&mut self, alloc: Global, flat: &Flat, number: u32) -> Result<(), NoMemory>
        requires number { number < 8 * length (plan_of flat.now) }
        requires laid { HasLaid (plan_of flat.now)
            self.old.parts.items self.old.above.items self.old.roots.items number }
        ensures { OnOk result (HasLaid (plan_of flat.now)
            self.new.parts.items self.new.above.items self.new.roots.items (number + 1)) }
    {
        let expr = condition(flat, number);
        let root = match constant_of(expr) {
            Some(truth) => Root::Constant(truth),
            None => Root::Part(self.lay(alloc, flat, number / 8, expr)?),
        };
        self.roots.push(root)?;
        Ok(())
    }

    // Lays the parts of an expression of a node's condition; the answer is the last of them, which spells it.
    fn lay(
        &mut self,
        alloc: Global,
        flat: &Flat,
        node: u32,
        expr: &NumberedExpr,
    ) -> Result<u32, NoMemory>
        requires network { IsNetwork self.old.parts.items self.old.above.items }
        requires within { IsWithin (plan_of flat.now) (expr_data expr.now) }
        ensures laid { IfOk result (IsLaid (plan_of flat.now) node (expr_data expr.now)
            self.old.parts.items self.new.parts.items self.old.above.items self.new.above.items) }
        ensures roots { self.new.roots ≡ self.old.roots }
    {
        if let NumberedExpr::Binary { op, left, right } = expr {
            if let Some(joint) = joint_of(*op) {
                let left = self.lay(alloc, flat, node, left)?;
                let right = self.lay(alloc, flat, node, right)?;
                return self.join(node, joint, left, right);
            }
        }
        if let NumberedExpr::Unary { op, arg } = expr {
            if let NumberedExpr::Binary {
                op: inner,
                left,
                right,
            } = &**arg
            {
                if let Some(joint) = joint_of_both(*op, *inner) {
                    let left = self.lay(alloc, flat, node, left)?;
                    let right = self.lay(alloc, flat, node, right)?;
                    return self.join(node, joint, left, right);
                }
            }
        }
        let whole = copy(alloc, expr)?;
        self.push(Part::Whole(whole), node)
    }

    // A part of two that were laid before, and that nothing is above yet.
    fn join(&mut self, node: u32, joint: Joint, left: u32, right: u32) -> Result<u32, NoMemory>
        requires sized { length self.old.above.items ≡ length self.old.parts.items }
        requires few { length self.old.parts.items < 2 ^ 32 }
        requires left { left < length self.old.parts.items }
        requires right { right < length self.old.parts.items }
        ensures at { IfOk result (λ at. at ≡ length self.old.parts.items) }
        ensures parts { OnOk result (self.new.parts.items
            ≡ self.old.parts.items ++ Part.Joined joint left right ∷ []) }
        ensures above { IfOk result (λ at. self.new.above.items
            ≡ set (set (self.old.above.items ++ Above.Condition node ∷ []) left (Above.Part at)) right (Above.Part at)) }
        ensures few { OnOk result (length self.new.parts.items < 2 ^ 32) }
        ensures roots { self.new.roots ≡ self.old.roots }
    {
        let part = self.push(Part::Joined { joint, left, right }, node)?;
        self.above[left as usize] = Above::Part(part);
        self.above[right as usize] = Above::Part(part);
        Ok(part)
    }

    // One part more, a condition of this node until something else is above it. There are fewer than 2^32, and else there
    // is no memory for their numbers.
    fn push(&mut self, part: Part, node: u32) -> Result<u32, NoMemory>
        requires { length self.old.parts.items < 2 ^ 32 }
        ensures at { IfOk result (λ at. at ≡ length self.old.parts.items) }
        ensures parts { OnOk result (self.new.parts.items ≡ self.old.parts.items ++ part ∷ []) }
        ensures above { OnOk result (self.new.above.items ≡ self.old.above.items ++ Above.Condition node ∷ []) }
        ensures few { OnOk result (length self.new.parts.items < 2 ^ 32) }
        ensures roots { self.new.roots ≡ self.old.roots }
    {
        let at = self.parts.len() as u32;
        if at == u32::MAX {
            return Err(AllocError);
        }
        self.parts.push(part)?;
        self.above.push(Above::Condition(node))?;
        Ok(at)
    }
}
