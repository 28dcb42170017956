// Expressions: their types, and what they are at fault for.
ghost use Rattle.std.specs.Prelude.{◌≡◌, ◌&&◌, not, map};
ghost use Rattle.px_syntax.specs.Expr.{term_of, in_turn};
ghost use Rattle.px_syntax.specs.ExprFaults.{name_faults, attribute_faults, any_where_faulty, type_named, type_of, first_token, expr_faults, argument_faults, faults_as, any_unless_allowed};
ghost use Rattle.px_syntax.specs.Fault.{fault_where};
ghost use Rattle.px_syntax.specs.Scope.{parameter_types};
ghost use Rattle.px_syntax.specs.ValueType.{attribute_type, fits, differ};
ghost use Rattle.px_syntax.specs.declared.fault.FaultKind.TheVariants.{TypeDiffers};
ghost use Rattle.px_check.specs.Found.{noted};
ghost use Rattle.px_check.specs.Types.{types_of};

use crate::calls::{allowed_at, answer_type, note_look, parameters_of};
use crate::found::{Found, Misfit};
use crate::scope::Scope;
use crate::token::{first_token, reference_token};
use crate::types::{
    Allowed, Signature, attribute_type, binary_function_signature, binary_signature,
    enumerated_type, literal_type, unary_function_signature, unary_signature,
};
use px_syntax::{
    Attribute, FaultKind, Identifier, NodeReference, Parameter, SurfaceExpr, ValueType,
};

/// Notes where an expression of a type stands at a place that doesn't allow it.
pub fn judge(allowed: Allowed, given: ValueType, term: &SurfaceExpr, found: &mut Found)
    ensures { found.new ≡ noted found.old
        (fault_where (not (fits (types_of allowed) given)) TypeDiffers (first_token (term_of term.now))) }
{
    let misfit = Misfit {
        wanted: allowed,
        given,
    };
    found.note_misfit_where(!allowed.fits(given), misfit, first_token(term));
}

// Notes where two operands differ that have to be of one type.
fn judge_alike(
    signature: Signature,
    left: ValueType,
    right: ValueType,
    right_term: &SurfaceExpr,
    found: &mut Found,
)
    ensures { found.new ≡ noted found.old (fault_where
        (signature.alike && differ (any_unless_allowed (types_of signature.takes) left)
        (any_unless_allowed (types_of signature.takes) right))
        TypeDiffers (first_token (term_of right_term.now))) }
{
    let misfit = Misfit {
        wanted: Allowed::Only(left),
        given: right,
    };
    found.note_misfit_where(
        signature.differ(left, right),
        misfit,
        first_token(right_term),
    );
}

impl<'a> Scope<'a> {
    /// The type of a variable that stands with an index or without one, for whatever judges it. Notes where it isn't
    /// visible and, as this kind, where it has an index or none where it must not.
    pub fn named(
        &self,
        misuse: FaultKind,
        name: &Identifier,
        has_index: bool,
        found: &mut Found,
    ) -> ValueType
        ensures of_type { result ≡ type_named misuse self.now name.now has_index }
        ensures found { found.new ≡ noted found.old (name_faults misuse self.now name.now has_index) }
    {
        match self.variable(&name.name) {
            None => {
                found.note_where(true, FaultKind::Undeclared, name.token);
                ValueType::Any
            }
            Some(variable) => {
                let is_misused = variable.is_array != has_index;
                found.note_where(is_misused, misuse, name.token);
                if is_misused {
                    ValueType::Any
                } else {
                    variable.of_type
                }
            }
        }
    }

    fn attribute(&self, node: &NodeReference, attribute: Attribute, found: &mut Found) -> ValueType
        ensures of_type { result
            ≡ any_where_faulty (attribute_faults self.now node.now attribute) (attribute_type attribute) }
        ensures found { found.new ≡ noted found.old (attribute_faults self.now node.now attribute) }
    {
        let is_there = match self.meant(node) {
            None => false,
            Some(is_command) => is_command || attribute != Attribute::CommandHandle,
        };
        found.note_where(!is_there, FaultKind::NoSuchNode, reference_token(node));
        if is_there {
            attribute_type(attribute)
        } else {
            ValueType::Any
        }
    }

    /// The type of an expression, for whatever judges it. Notes what it is at fault for.
    #[cycle(expression)]
    #[tactic(auto, using(crate::proofs::Noting::noting))]
    fn type_of(&self, term: &SurfaceExpr, found: &mut Found) -> ValueType
        ensures of_type { result ≡ type_of self.now (term_of term.now) }
        ensures found { found.new ≡ noted found.old (expr_faults self.now (term_of term.now)) }
    {
        match term {
            SurfaceExpr::Literal { value, .. } => literal_type(value),
            SurfaceExpr::Enumerated { value, .. } => enumerated_type(*value),
            SurfaceExpr::Variable(name) => self.named(FaultKind::TypeDiffers, name, false, found),
            SurfaceExpr::Element { array, index } => {
                let of_type = self.named(FaultKind::TypeDiffers, array, true, found);
                let _ = self.operand(Allowed::Only(ValueType::Integer), index, found);
                of_type
            }
            SurfaceExpr::Attribute { node, attribute } => self.attribute(node, *attribute, found),
            SurfaceExpr::Look {
                name,
                args,
                tolerance,
                ..
            } => {
                let callable = self.lookup(&name.name);
                let is_right = note_look(callable, name, args.len(), *tolerance, found);
                self.arguments(args, parameters_of(callable), found);
                if is_right {
                    answer_type(callable)
                } else {
                    ValueType::Any
                }
            }
            SurfaceExpr::UnaryCall {
                function,
                argument,
                ..
            } => {
                let signature = unary_function_signature(*function);
                let _ = self.operand(signature.takes, argument, found);
                signature.gives
            }
            SurfaceExpr::BinaryCall {
                function,
                first,
                second,
                ..
            } => {
                let signature = binary_function_signature(*function);
                let first_given = self.operand(signature.takes, first, found);
                let second_given = self.operand(signature.takes, second, found);
                signature.result(first_given, second_given)
            }
            SurfaceExpr::Unary {
                operator,
                operand,
                ..
            } => {
                let signature = unary_signature(*operator);
                let _ = self.operand(signature.takes, operand, found);
                signature.gives
            }
            SurfaceExpr::Binary {
                operator,
                left,
                right,
            } => {
                let signature = binary_signature(*operator);
                let left_given = self.operand(signature.takes, left, found);
                let right_given = self.operand(signature.takes, right, found);
                judge_alike(signature, left_given, right_given, right, found);
                signature.result(left_given, right_given)
            }
        }
    }

    // The type of an expression. Notes what it is at fault for at a place that allows these types.
    #[cycle(expression)]
    #[tactic(auto, using(crate::proofs::Noting::noting))]
    fn operand(&self, allowed: Allowed, term: &SurfaceExpr, found: &mut Found) -> ValueType
        ensures of_type { result ≡ type_of self.now (term_of term.now) }
        ensures found { found.new ≡ noted found.old (faults_as (types_of allowed) self.now (term_of term.now)) }
    {
        let given = self.type_of(term, found);
        judge(allowed, given, term, found);
        given
    }

    /// Notes what arguments are at fault for, each by its parameter.
    #[cycle(expression)]
    #[tactic(auto, using(crate::proofs::Noting::noting))]
    pub fn arguments(&self, args: &[SurfaceExpr], parameters: &[Parameter], found: &mut Found)
        ensures { found.new ≡ noted found.old
            (argument_faults self.now (parameter_types parameters.now) (in_turn (map term_of args.now))) }
    {
        for (place, arg) in args.iter().enumerate() {
            let _ = self.operand(allowed_at(parameters, place), arg, found);
        }
    }

    /// Notes what an expression is at fault for at a place that allows these types.
    #[tactic(auto, using(crate::proofs::Noting::noting))]
    pub fn expression(&self, allowed: Allowed, term: &SurfaceExpr, found: &mut Found)
        ensures { found.new ≡ noted found.old (faults_as (types_of allowed) self.now (term_of term.now)) }
    {
        let _ = self.operand(allowed, term, found);
    }
}
