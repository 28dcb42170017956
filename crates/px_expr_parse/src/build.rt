// Trees, as contracts see them.
ghost use Rattle.std.specs.Prelude.{◌≡◌, map, IfOk};
ghost use Rattle.px_syntax.specs.Expr.{Attribute as AttributeOf, Binary, BinaryCall, Element, Enumerated as EnumeratedTerm, Literal as LiteralTerm, Look, Unary, UnaryCall, Variable, in_turn, term_of};

use px_syntax::{
    Attribute, BinaryFunction, BinaryOperator, Enumerated, Identifier, Literal, LookWord,
    NodeReference, SurfaceExpr, Tolerance, UnaryFunction, UnaryOperator,
};
use px_value::NoMemory;
use std::alloc::Global;

pub(crate) fn literal(value: Literal, token: usize) -> SurfaceExpr
    ensures { term_of result ≡ LiteralTerm value token }
{
    SurfaceExpr::Literal { value, token }
}

pub(crate) fn enumerated(value: Enumerated, token: usize) -> SurfaceExpr
    ensures { term_of result ≡ EnumeratedTerm value token }
{
    SurfaceExpr::Enumerated { value, token }
}

pub(crate) fn variable(name: Identifier) -> SurfaceExpr
    ensures { term_of result ≡ Variable name }
{
    SurfaceExpr::Variable(name)
}

pub(crate) fn attribute(node: NodeReference, attribute: Attribute) -> SurfaceExpr
    ensures { term_of result ≡ AttributeOf node attribute }
{
    SurfaceExpr::Attribute { node, attribute }
}

pub(crate) fn binary(
    alloc: Global,
    operator: BinaryOperator,
    left: SurfaceExpr,
    right: SurfaceExpr,
) -> Result<SurfaceExpr, NoMemory>
    ensures { IfOk result
        (λ tree. term_of tree ≡ Binary operator (term_of left) (term_of right)) }
{
    Ok(SurfaceExpr::Binary {
        operator,
        left: Box::new(alloc, left)?,
        right: Box::new(alloc, right)?,
    })
}

pub(crate) fn unary(
    alloc: Global,
    operator: UnaryOperator,
    token: usize,
    operand: SurfaceExpr,
) -> Result<SurfaceExpr, NoMemory>
    ensures { IfOk result (λ tree. term_of tree ≡ Unary operator token (term_of operand)) }
{
    Ok(SurfaceExpr::Unary {
        operator,
        token,
        operand: Box::new(alloc, operand)?,
    })
}

pub(crate) fn element(
    alloc: Global,
    array: Identifier,
    index: SurfaceExpr,
) -> Result<SurfaceExpr, NoMemory>
    ensures { IfOk result (λ tree. term_of tree ≡ Element array (term_of index)) }
{
    Ok(SurfaceExpr::Element {
        array,
        index: Box::new(alloc, index)?,
    })
}

pub(crate) fn look(
    word: LookWord,
    token: usize,
    name: Identifier,
    args: Vec<SurfaceExpr>,
    tolerance: Option<Tolerance>,
) -> SurfaceExpr
    ensures { term_of result ≡ Look word token name (in_turn (map term_of args.items)) tolerance }
{
    SurfaceExpr::Look {
        word,
        token,
        name,
        args,
        tolerance,
    }
}

pub(crate) fn unary_call(
    alloc: Global,
    function: UnaryFunction,
    token: usize,
    argument: SurfaceExpr,
) -> Result<SurfaceExpr, NoMemory>
    ensures { IfOk result (λ tree. term_of tree ≡ UnaryCall function token (term_of argument)) }
{
    Ok(SurfaceExpr::UnaryCall {
        function,
        token,
        argument: Box::new(alloc, argument)?,
    })
}

pub(crate) fn binary_call(
    alloc: Global,
    function: BinaryFunction,
    token: usize,
    first: SurfaceExpr,
    second: SurfaceExpr,
) -> Result<SurfaceExpr, NoMemory>
    ensures { IfOk result
        (λ tree. term_of tree ≡ BinaryCall function token (term_of first) (term_of second)) }
{
    Ok(SurfaceExpr::BinaryCall {
        function,
        token,
        first: Box::new(alloc, first)?,
        second: Box::new(alloc, second)?,
    })
}
