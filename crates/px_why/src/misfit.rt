// Faults of types: what stands at a place, and what is wanted there.
use crate::declared::{Declared, Sort, first_of};
use crate::naming::{a_declared, a_value, an_allowed};
use crate::report::{Told, Words};
use crate::seen::{kind_at, name_at};
use px_check::{Allowed, Misfit};
use px_lex::{Keyword, Sign, Token, TokenKind};
use px_syntax::ValueType;

/// Says of a place that something of another type is wanted there.
pub fn push_misfit(tokens: &[Token], token: usize, misfit: Misfit, words: &mut Words) {
    let name = name_at(tokens, token);
    let is_named = !name.is_empty() && is_alone(tokens, token, misfit.given);
    if is_named {
        words.message.fill("`{}`", name);
    } else {
        words.message.push("what begins here");
    }
    words.message.fill_each(
        " is {}; {} is wanted here",
        &[a_value(misfit.given), an_allowed(misfit.wanted)],
    );
    if let Allowed::Only(wanted) = misfit.wanted {
        words.help.push(help_for(wanted, misfit.given, is_named));
    }
}

// Whether the identifier at a token is the whole expression that has this type, as far as the next token tells.
fn is_alone(tokens: &[Token], token: usize, given: ValueType) -> bool {
    match kind_at(tokens, token.saturating_add(1)) {
        Some(
            TokenKind::Keyword(Keyword::And | Keyword::Or | Keyword::Xor)
            | TokenKind::Sign(
                Sign::OrOr
                | Sign::AndAnd
                | Sign::EqualEqual
                | Sign::NotEqual
                | Sign::Less
                | Sign::LessEqual
                | Sign::Greater
                | Sign::GreaterEqual,
            ),
        ) => given != ValueType::Boolean,
        Some(
            TokenKind::Sign(Sign::Semicolon | Sign::Comma | Sign::CloseParen | Sign::CloseBracket),
        ) => true,
        _ => false,
    }
}

/// An array without an index, a scalar with one, a single value in place of a list, a list in place of a value, or a
/// tolerance where there can be none, by the sign behind it.
pub fn misused(tokens: &[Token], token: usize, next: Option<Sign>) -> Told {
    match kind_at(tokens, token) {
        Some(TokenKind::Identifier(_)) if next == Some(Sign::OpenBracket) => (
            "`{}` is no array, and has no elements",
            "leave the index away: `{}`",
        ),
        Some(TokenKind::Identifier(_)) => (
            "`{}` is an array; one value is wanted here",
            "name one of its elements, as `{}[0]`",
        ),
        Some(TokenKind::Integer(_)) if next == Some(Sign::CloseParen) => (
            "a tolerance stands here, and the lookup is not declared as Integer",
            "leave it away with the comma before it, or declare the lookup as Integer",
        ),
        Some(TokenKind::Sign(Sign::OpenList)) => (
            "a list of values stands here, and the variable is no array",
            "give the variable one value, or a size, as in `Integer x[2] = #(1 2);`",
        ),
        _ => (
            "one value stands here, and the variable is an array",
            "give a list of values, as in `Integer x[2] = #(1 2);`",
        ),
    }
}

/// Says of a command that its result, if it has one, doesn't fit the variable.
pub fn push_no_result(names: &[Declared<'_>], name: &str, words: &mut Words) {
    words.message.fill("`{}` ", name);
    match first_of(names, Sort::Command, name) {
        Some(declared) => match declared.answer {
            Some(answer) => words.message.fill(
                "returns {}, and the variable is of another type",
                a_declared(answer),
            ),
            None => words.message.push(
                "is declared without a result, and one is put into a variable",
            ),
        },
        None => words.message.push("has no result that fits the variable"),
    }
    words.help.fill(
        "declare what it returns before the plan, as in `Integer Command {};`",
        name,
    );
}

// What helps where a value of one type is wanted and one of another given; empty where nothing is known to.
fn help_for(wanted: ValueType, given: ValueType, is_named: bool) -> &'static str {
    match wanted {
        ValueType::Boolean => comparison_of(given),
        ValueType::String if is_named => {
            "nothing makes a String of another value: write the String itself"
        }
        ValueType::String => "a String stands between double quotes, as `\"x\"`",
        _ => match given {
            ValueType::State => "it is compared with `.state`, as in `A.state == FINISHED`",
            ValueType::Outcome => "it is compared with `.outcome`, as in `A.outcome == SUCCESS`",
            ValueType::Failure => {
                "it is compared with `.failure`, as in `A.failure == PARENT_FAILED`"
            }
            ValueType::Handle => {
                "it is compared with `.command_handle`, as in `A.command_handle == COMMAND_SUCCESS`"
            }
            ValueType::String if wanted == ValueType::Integer => {
                "Strings stand between quotes and Integers don't; `strlen(x)` is the length of a String"
            }
            _ => spelling_of(wanted),
        },
    }
}

// How a value becomes a condition.
fn comparison_of(given: ValueType) -> &'static str {
    match given {
        ValueType::Integer => "make a comparison of it, as `x > 0`",
        ValueType::String => "make a comparison of it, as `x == \"a\"`",
        ValueType::State => "compare it with a state, as `A.state == FINISHED`",
        ValueType::Outcome => "compare it with an outcome, as `A.outcome == SUCCESS`",
        _ => "",
    }
}

// How a value that has a name is written.
fn spelling_of(wanted: ValueType) -> &'static str {
    match wanted {
        ValueType::State => "write it without quotes, as in `A.state == FINISHED`",
        ValueType::Outcome => "write it without quotes, as in `A.outcome == SUCCESS`",
        ValueType::Failure => "write it without quotes, as in `A.failure == PARENT_FAILED`",
        ValueType::Handle => "write it without quotes, as in `A.command_handle == COMMAND_SUCCESS`",
        _ => "",
    }
}
