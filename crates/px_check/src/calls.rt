// What calls of declared commands and lookups are at fault for, their arguments apart.
ghost use Rattle.std.specs.Prelude.{◌≡◌, ◌==◌, true, false, drop, length, option_map, if◌then◌else◌};
ghost use Rattle.std.specs.Option.{option_map_or};
ghost use Rattle.px_syntax.specs.BlockFaults.{is_without};
ghost use Rattle.px_syntax.specs.ExprFaults.{count_faults, tolerance_faults, look_faults, any_where_faulty, answer_type, parameters_of};
ghost use Rattle.px_syntax.specs.Scope.{parameter_types};
ghost use Rattle.px_syntax.specs.declared.value_type.ValueType.{ValueType as TypeOfValue};
ghost use Rattle.px_syntax.specs.declared.value_type.ValueType.TheVariants.{Any};
ghost use Rattle.px_check.specs.Arguments.{allowed_next};
ghost use Rattle.px_check.specs.Found.{noted};
ghost use Rattle.px_check.specs.Globals.{callable_data};
ghost use Rattle.px_check.specs.Types.{types_of};

use crate::found::Found;
use crate::globals::Callable;
use crate::types::{Allowed, named_type};
use px_syntax::{FaultKind, Identifier, Parameter, Tolerance, ValueType};

/// The most arguments, parameters and pairs.
pub const ARGUMENT_LIMIT: usize = 8;

fn has_count(callable: Option<Callable>, count: usize) -> bool
    ensures { result ≡ option_map_or (λ global. length global.parameters == count)
        (option_map callable_data callable.entry) true }
{
    match callable {
        Some(callable) => callable.parameters.len() == count,
        None => true,
    }
}

/// Notes where a call has not as many arguments as are declared, or too many. Answers whether it has as many as it may.
#[tactic(auto, using(crate::proofs::Noting::noting))]
pub fn note_count(
    callable: Option<Callable>,
    name: &Identifier,
    count: usize,
    found: &mut Found,
) -> bool
    ensures found { found.new
        ≡ noted found.old (count_faults (option_map callable_data callable.entry) name.now count) }
    ensures right { (own : TypeOfValue)
        → any_where_faulty (count_faults (option_map callable_data callable.entry) name.now count) own
        ≡ (if result then own else Any) }
{
    let is_right = has_count(callable, count);
    found.note_where(!is_right, FaultKind::ArgCount, name.token);
    found.note_where(ARGUMENT_LIMIT < count, FaultKind::TooLarge, name.token);
    is_right && count <= ARGUMENT_LIMIT
}

// Notes a tolerance of a lookup that gives a Boolean or a String. Answers whether it is none such.
#[tactic(auto, using(crate::proofs::Noting::noting))]
fn note_tolerance(
    callable: Option<Callable>,
    tolerance: Option<Tolerance>,
    found: &mut Found,
) -> bool
    ensures found { found.new
        ≡ noted found.old (tolerance_faults (option_map callable_data callable.entry) tolerance) }
    ensures right { (own : TypeOfValue)
        → any_where_faulty (tolerance_faults (option_map callable_data callable.entry) tolerance) own
        ≡ (if result then own else Any) }
{
    let Some(tolerance) = tolerance else {
        return true;
    };
    let is_right = Allowed::Only(ValueType::Integer).fits(answer_type(callable));
    found.note_where(!is_right, FaultKind::TypeDiffers, tolerance.token);
    is_right
}

/// Notes where a lookup has not as many arguments as are declared, or too many, and where it has a tolerance that it may
/// not have. Answers whether it is at fault for none of these.
#[tactic(auto, using(crate::proofs::Noting::noting))]
pub fn note_look(
    callable: Option<Callable>,
    name: &Identifier,
    count: usize,
    tolerance: Option<Tolerance>,
    found: &mut Found,
) -> bool
    ensures found { found.new
        ≡ noted found.old (look_faults (option_map callable_data callable.entry) name.now count tolerance) }
    ensures right { (own : TypeOfValue)
        → any_where_faulty (look_faults (option_map callable_data callable.entry) name.now count tolerance) own
        ≡ (if result then own else Any) }
{
    let is_counted = note_count(callable, name, count, found);
    let is_tolerated = note_tolerance(callable, tolerance, found);
    is_counted && is_tolerated
}

/// What a call gives, if that is known.
pub fn answer_type(callable: Option<Callable>) -> ValueType
    ensures { result ≡ answer_type (option_map callable_data callable.entry) }
{
    match callable {
        Some(callable) => match callable.answer {
            Some(answer) => named_type(answer),
            None => ValueType::Any,
        },
        None => ValueType::Any,
    }
}

/// Whether a command is declared and gives nothing, or nothing that is allowed.
pub fn gives_none_of(callable: Option<Callable>, allowed: Allowed) -> bool
    ensures { result ≡ option_map_or (is_without (types_of allowed)) (option_map callable_data callable.entry) false }
{
    match callable {
        Some(callable) => match callable.answer {
            Some(answer) => !allowed.fits(named_type(answer)),
            None => true,
        },
        None => false,
    }
}

/// The parameters of what is called; none where it isn't declared.
pub fn parameters_of(callable: Option<Callable<'_>>) -> &'_ [Parameter]
    ensures { parameter_types result.now ≡ parameters_of (option_map callable_data callable.entry) }
{
    match callable {
        Some(callable) => callable.parameters,
        None => &[],
    }
}

/// What the argument at a place may be.
pub fn allowed_at(parameters: &[Parameter], place: usize) -> Allowed
    ensures { types_of result ≡ allowed_next (drop place (parameter_types parameters.now)) }
{
    match parameters.get(place) {
        Some(parameter) => Allowed::Only(named_type(parameter.of_type)),
        None => Allowed::Told,
    }
}
