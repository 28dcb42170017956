// Trees of trees, as contracts see them.
ghost use Rattle.std.specs.Prelude.{◌≡◌, map, None, Some, option_map};
ghost use Rattle.px_syntax.specs.Expr.{in_turn, term_of};
ghost use Rattle.px_syntax.specs.Block.{Assign, Braces, Branch as BranchOf, CallInto, Conditions, For, Guarded as GuardedOf, If, Inner, Labelled, Listed, Update, Value, Variables, While, action_of, actions_in_turn, block_of, body_of, branch_of, call_data, else_ifs_in_turn, else_of, guarded_of, initial_data, item_data, pair_data, target_data, variable_data};
ghost use Rattle.px_syntax.specs.Plan.{declaration_data, tree_of_surface, Command, Lookup};
ghost use Rattle.px_plan_parse.specs.Named.{named_body, written_data, Answer, Calls, Writes};

use crate::named::Assigned;
use px_syntax::{
    Action, Block, BlockForm, Body, Branch, Call, Condition, Declaration, Guarded, Identifier,
    Initial, Item, ListedLiteral, Literal, Pair, Parameter, Surface, SurfaceExpr, Target, TypeName,
    Variable,
};

pub(crate) fn first_literal(value: Literal, token: usize) -> Initial
    ensures { initial_data result ≡ Value value token }
{
    Initial::Value { value, token }
}

pub(crate) fn first_list(values: Vec<ListedLiteral>, token: usize) -> Initial
    ensures { initial_data result ≡ Listed values.items token }
{
    Initial::List { values, token }
}

pub(crate) fn declared(name: Identifier, size: Option<u32>, initial: Option<Initial>) -> Variable
    ensures { variable_data result
        ≡ record { name = name; size = size; initial = option_map initial_data initial } }
{
    Variable {
        name,
        size,
        initial,
    }
}

pub(crate) fn declarations(of_type: TypeName, variables: Vec<Variable>) -> Item
    ensures { item_data result ≡ Variables of_type (map variable_data variables.items) }
{
    Item::Variables { of_type, variables }
}

pub(crate) fn condition(condition: Condition, token: usize, test: SurfaceExpr) -> Item
    ensures { item_data result ≡ Conditions condition token (term_of test) }
{
    Item::Condition {
        condition,
        token,
        test,
    }
}

pub(crate) fn block(form: BlockForm, items: Vec<Item>, actions: Vec<Action>) -> Block
    ensures { block_of result
        ≡ Braces form (map item_data items.items) (actions_in_turn (map action_of actions.items)) }
{
    Block {
        form,
        items,
        actions,
    }
}

pub(crate) fn action(label: Option<Identifier>, body: Body) -> Action
    ensures { action_of result ≡ Labelled label (body_of body) }
{
    Action { label, body }
}

pub(crate) fn branch(label: Option<Identifier>, block: Block) -> Branch
    ensures { branch_of result ≡ BranchOf label (block_of block) }
{
    Branch { label, block }
}

pub(crate) fn guarded(test: SurfaceExpr, branch: Branch) -> Guarded
    ensures { guarded_of result ≡ GuardedOf (term_of test) (branch_of branch) }
{
    Guarded { test, branch }
}

pub(crate) fn inner(block: Block) -> Body
    ensures { body_of result ≡ Inner (block_of block) }
{
    Body::Block(block)
}

pub(crate) fn assign(target: Target, value: SurfaceExpr) -> Body
    ensures { body_of result ≡ Assign (target_data target) (term_of value) }
{
    Body::Assign { target, value }
}

pub(crate) fn call_into(target: Target, call: Call) -> Body
    ensures { body_of result ≡ CallInto (target_data target) (call_data call) }
{
    Body::CallInto { target, call }
}

pub(crate) fn call(name: Identifier, args: Vec<SurfaceExpr>) -> Body
    ensures { body_of result ≡ named_body name (Calls (in_turn (map term_of args.items))) }
{
    Body::Call(Call { name, args })
}

pub(crate) fn answer(name: Identifier, args: Vec<SurfaceExpr>) -> Assigned
    ensures { written_data result
        ≡ Answer (record { name = name; args = in_turn (map term_of args.items) }) }
{
    Assigned::Answer(Call { name, args })
}

pub(crate) fn written(name: Identifier, index: Option<SurfaceExpr>, value: Assigned) -> Body
    ensures { body_of result
        ≡ named_body name (Writes (option_map term_of index) (written_data value)) }
{
    let target = Target { name, index };
    match value {
        Assigned::Value(value) => assign(target, value),
        Assigned::Answer(call) => call_into(target, call),
    }
}

pub(crate) fn pair(name: Identifier, value: SurfaceExpr) -> Pair
    ensures { pair_data result ≡ record { name = name; value = term_of value } }
{
    Pair { name, value }
}

pub(crate) fn parameter(of_type: TypeName, name: Option<Identifier>) -> Parameter
    ensures { result ≡ record { of_type = of_type; name = name } }
{
    Parameter { of_type, name }
}

pub(crate) fn command(
    answer: Option<TypeName>,
    name: Identifier,
    parameters: Vec<Parameter>,
) -> Declaration
    ensures { declaration_data result ≡ Command answer name parameters.items }
{
    Declaration::Command {
        answer,
        name,
        parameters,
    }
}

pub(crate) fn lookup(answer: TypeName, name: Identifier, parameters: Vec<Parameter>) -> Declaration
    ensures { declaration_data result ≡ Lookup answer name parameters.items }
{
    Declaration::Lookup {
        answer,
        name,
        parameters,
    }
}

pub(crate) fn update(token: usize, pairs: Vec<Pair>) -> Body
    ensures { body_of result ≡ Update token (map pair_data pairs.items) }
{
    Body::Update { token, pairs }
}

pub(crate) fn conditional(first: Guarded, others: Vec<Guarded>, otherwise: Option<Branch>) -> Body
    ensures { body_of result
        ≡ If (guarded_of first) (else_ifs_in_turn (map guarded_of others.items))
        (else_of (option_map branch_of otherwise)) }
{
    Body::If {
        first,
        others,
        otherwise,
    }
}

pub(crate) fn repeated(guarded: Guarded) -> Body
    ensures { body_of result ≡ While (guarded_of guarded) }
{
    Body::While(guarded)
}

pub(crate) fn counted(
    variable: Identifier,
    first: i32,
    test: SurfaceExpr,
    step: SurfaceExpr,
    branch: Branch,
) -> Body
    ensures { body_of result
        ≡ For variable first (term_of test) (term_of step) (branch_of branch) }
{
    Body::For {
        variable,
        first,
        test,
        step,
        branch,
    }
}

pub(crate) fn surface(
    declarations: Vec<Declaration>,
    label: Option<Identifier>,
    root: Block,
) -> Surface
    ensures { tree_of_surface result
        ≡ record {
          declarations = map declaration_data declarations.items;
          label = label;
          root = block_of root;
        } }
{
    Surface {
        declarations,
        label,
        root,
    }
}
