// The tokens at which expressions are at fault.
ghost use Rattle.std.specs.Prelude.{◌≡◌};
ghost use Rattle.px_syntax.specs.Expr.{term_of};
ghost use Rattle.px_syntax.specs.ExprFaults.{first_token};
ghost use Rattle.px_syntax.specs.Scope.{reference_token};

use px_syntax::{NodeReference, SurfaceExpr};

/// The token of a node that is named.
pub fn reference_token(node: &NodeReference) -> usize
    ensures { result ≡ reference_token node.now }
{
    match node {
        NodeReference::Named(name) => name.token,
        NodeReference::SelfNode(token)
        | NodeReference::Parent(token)
        | NodeReference::Sibling(token, _)
        | NodeReference::Child(token, _) => *token,
    }
}

/// The first token of an expression, parentheses round it apart.
pub fn first_token(term: &SurfaceExpr) -> usize
    ensures { result ≡ first_token (term_of term.now) }
{
    let mut first = term;
    loop {
        match first {
            SurfaceExpr::Literal { token, .. }
            | SurfaceExpr::Enumerated { token, .. }
            | SurfaceExpr::Look { token, .. }
            | SurfaceExpr::UnaryCall { token, .. }
            | SurfaceExpr::BinaryCall { token, .. }
            | SurfaceExpr::Unary { token, .. } => return *token,
            SurfaceExpr::Variable(name) | SurfaceExpr::Element { array: name, .. } => {
                return name.token;
            }
            SurfaceExpr::Attribute { node, .. } => return reference_token(node),
            SurfaceExpr::Binary { left, .. } => first = left,
        }
    }
}
