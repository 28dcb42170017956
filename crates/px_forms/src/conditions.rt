// The conditions of a node: what is given, what is added, and the defaults.
ghost use Rattle.std.specs.Prelude.{◌≡◌, IfOk, OnOk, Some, option_map, unwrap_or};
ghost use Rattle.px_core.specs.Expr.{term_of, term_in};
ghost use Rattle.px_core.specs.Plan.{condition_terms};
ghost use Rattle.px_forms.specs.Adding.{adds, may_add, nothing, with_added};
ghost use Rattle.px_forms.specs.Conditions.{conditions, filled, none_given};
ghost use Rattle.px_forms.specs.Shown.{added_terms, given_terms};

use px_core::{BinaryOp, Conditions, Expr, Kind};
use px_value::{NoMemory, Path};
use std::alloc::Global;

/// Of each condition what is given, if anything is. It is large, and is handed on in a box.
#[derive(Drop)]
pub struct Given {
    pub start: Option<Box<Expr>>,
    pub end: Option<Box<Expr>>,
    pub exit: Option<Box<Expr>>,
    pub skip: Option<Box<Expr>>,
    pub repeat: Option<Box<Expr>>,
    pub pre: Option<Box<Expr>>,
    pub post: Option<Box<Expr>>,
    pub invariant: Option<Box<Expr>>,
}

/// What the form round a node adds to its Start and its Skip. It is handed on in a box, too.
#[derive(Drop)]
pub struct Added {
    pub start: Option<Box<Expr>>,
    pub skip: Option<Box<Expr>>,
}

impl Added {
    /// Nothing is added.
    pub fn nothing(alloc: Global) -> Result<Box<Added>, NoMemory>
        ensures { IfOk result (λ made. added_terms made.value ≡ nothing) }
    {
        let added = Added {
            start: None,
            skip: None,
        };
        Ok(Box::new(alloc, added)?)
    }
}

impl Given {
    /// Nothing is given.
    pub fn none(alloc: Global) -> Result<Box<Given>, NoMemory>
        ensures { IfOk result (λ made. given_terms made.value ≡ none_given) }
    {
        let given = Given {
            start: None,
            end: None,
            exit: None,
            skip: None,
            repeat: None,
            pre: None,
            post: None,
            invariant: None,
        };
        Ok(Box::new(alloc, given)?)
    }

    /// Adds what the form round the node adds. After an error what is given is of no use.
    fn add(&mut self, alloc: Global, added: Box<Added>) -> Result<(), NoMemory>
        ensures { OnOk result
            (given_terms self.new ≡ with_added (added_terms added.value) (given_terms self.old)) }
    {
        let Added { start, skip } = Box::into_inner(added);
        may_add(alloc, BinaryOp::And, &mut self.start, start)?;
        may_add(alloc, BinaryOp::Or, &mut self.skip, skip)
    }

    /// The conditions of a node of this kind at a path, with children at these: what is given, with what the form round
    /// the node adds.
    pub(crate) fn conditions(
        mut given: Box<Given>,
        alloc: Global,
        added: Box<Added>,
        kind: Kind,
        path: &Path,
        children: &[Path],
    ) -> Result<Conditions, NoMemory>
        ensures { IfOk result (λ made. condition_terms made
            ≡ conditions kind path.now children.now (with_added (added_terms added.value) (given_terms given.value))) }
    {
        given.add(alloc, added)?;
        let mut conditions = Conditions::defaults(alloc, kind, path, children)?;
        Box::into_inner(given).fill(&mut conditions);
        Ok(conditions)
    }

    /// What is given in place of the defaults.
    fn fill(self, defaults: &mut Conditions)
        ensures { condition_terms defaults.new ≡ filled (given_terms self) (condition_terms defaults.old) }
    {
        replace(&mut defaults.start, self.start);
        replace(&mut defaults.end, self.end);
        replace(&mut defaults.exit, self.exit);
        replace(&mut defaults.skip, self.skip);
        replace(&mut defaults.repeat, self.repeat);
        replace(&mut defaults.pre, self.pre);
        replace(&mut defaults.post, self.post);
        replace(&mut defaults.invariant, self.invariant);
    }
}

/// What is given in place of a default. The default stays where it is, so that the many that stay aren't moved.
fn replace(default: &mut Expr, given: Option<Box<Expr>>)
    ensures { term_of default.new ≡ unwrap_or (option_map term_in given) (term_of default.old) }
{
    if let Some(given) = given {
        *default = Box::into_inner(given);
    }
}

/// To a condition, which may be given, the operator and what is added.
pub(crate) fn add(
    alloc: Global,
    op: BinaryOp,
    condition: &mut Option<Box<Expr>>,
    added: Box<Expr>,
) -> Result<(), NoMemory>
    ensures { OnOk result (option_map term_in condition.new
        ≡ Some (adds op (option_map term_in condition.old) (term_in added))) }
{
    let whole = adds(alloc, op, condition.take(), added)?;
    *condition = Some(whole);
    Ok(())
}

/// The given condition, the operator and what is added, or what is added alone where none is given.
fn adds(
    alloc: Global,
    op: BinaryOp,
    given: Option<Box<Expr>>,
    added: Box<Expr>,
) -> Result<Box<Expr>, NoMemory>
    ensures { IfOk result (λ made. term_in made ≡ adds op (option_map term_in given) (term_in added)) }
{
    match given {
        Some(given) => Expr::binary(alloc, op, given, added),
        None => Ok(added),
    }
}

/// The same where something is added.
fn may_add(
    alloc: Global,
    op: BinaryOp,
    condition: &mut Option<Box<Expr>>,
    added: Option<Box<Expr>>,
) -> Result<(), NoMemory>
    ensures { OnOk result (option_map term_in condition.new
        ≡ may_add op (option_map term_in condition.old) (option_map term_in added)) }
{
    match added {
        Some(added) => add(alloc, op, condition, added),
        None => Ok(()),
    }
}
