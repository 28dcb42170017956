// What begins with a token.
ghost use Rattle.std.specs.Prelude.{◌≡◌};
ghost use Rattle.px_expr_parse.specs.Opening.{enumerated_of, keyword_opening, opening_of};

use px_lex::{Keyword, Sign, TokenKind};
use px_syntax::{BinaryFunction, Enumerated, LookWord, UnaryFunction};
use px_value::{Failure, Handle, NodeState, Outcome};

/// What begins with a token that is no operator before an operand.
#[derive(Clone, Copy, PartialEq, Eq)]
pub(crate) enum Opening {
    Paren,
    Literal,
    Enumerated(Enumerated),
    Name,
    SelfNode,
    Parent,
    Sibling,
    Child,
    Look(LookWord),
    UnaryCall(UnaryFunction),
    BinaryCall(BinaryFunction),
    /// No expression.
    Nothing,
}

impl Opening {
    #[tactic(auto, unfolding(crate::specs::Opening::opening_of))]
    pub(crate) fn of(kind: &TokenKind) -> Opening
        ensures { result ≡ opening_of kind.now }
    {
        match kind {
            TokenKind::Identifier(_) => Opening::Name,
            TokenKind::Integer(_) | TokenKind::Text(_) => Opening::Literal,
            TokenKind::Keyword(keyword) => Opening::of_keyword(*keyword),
            TokenKind::Sign(Sign::OpenParen) => Opening::Paren,
            TokenKind::Sign(_) => Opening::Nothing,
        }
    }

    #[tactic(auto, unfolding(crate::specs::Opening::keyword_opening))]
    fn of_keyword(keyword: Keyword) -> Opening
        ensures { result ≡ keyword_opening keyword }
    {
        match keyword {
            Keyword::True | Keyword::False => Opening::Literal,
            Keyword::SelfNode => Opening::SelfNode,
            Keyword::Parent => Opening::Parent,
            Keyword::Sibling => Opening::Sibling,
            Keyword::Child => Opening::Child,
            Keyword::Lookup => Opening::Look(LookWord::Lookup),
            Keyword::LookupNow => Opening::Look(LookWord::LookupNow),
            Keyword::LookupOnChange => Opening::Look(LookWord::LookupOnChange),
            Keyword::IsKnown => Opening::UnaryCall(UnaryFunction::IsKnown),
            Keyword::Abs => Opening::UnaryCall(UnaryFunction::Abs),
            Keyword::StrLen => Opening::UnaryCall(UnaryFunction::StrLen),
            Keyword::Min => Opening::BinaryCall(BinaryFunction::Min),
            Keyword::Max => Opening::BinaryCall(BinaryFunction::Max),
            _ => match enumerated(keyword) {
                Some(value) => Opening::Enumerated(value),
                None => Opening::Nothing,
            },
        }
    }
}

/// The state, outcome, failure or handle whose name a keyword is.
#[tactic(auto, unfolding(crate::specs::Opening::enumerated_of))]
fn enumerated(keyword: Keyword) -> Option<Enumerated>
    ensures { result ≡ enumerated_of keyword }
{
    Some(match keyword {
        Keyword::Inactive => Enumerated::State(NodeState::Inactive),
        Keyword::Waiting => Enumerated::State(NodeState::Waiting),
        Keyword::Executing => Enumerated::State(NodeState::Executing),
        Keyword::Finishing => Enumerated::State(NodeState::Finishing),
        Keyword::IterationEnded => Enumerated::State(NodeState::IterationEnded),
        Keyword::Failing => Enumerated::State(NodeState::Failing),
        Keyword::Finished => Enumerated::State(NodeState::Finished),
        Keyword::Success => Enumerated::Outcome(Outcome::Success),
        Keyword::Failure => Enumerated::Outcome(Outcome::Failure),
        Keyword::Skipped => Enumerated::Outcome(Outcome::Skipped),
        Keyword::Interrupted => Enumerated::Outcome(Outcome::Interrupted),
        Keyword::PreConditionFailed => Enumerated::Failure(Failure::PreConditionFailed),
        Keyword::PostConditionFailed => Enumerated::Failure(Failure::PostConditionFailed),
        Keyword::InvariantConditionFailed => Enumerated::Failure(Failure::InvariantConditionFailed),
        Keyword::ParentFailed => Enumerated::Failure(Failure::ParentFailed),
        Keyword::Exited => Enumerated::Failure(Failure::Exited),
        Keyword::ParentExited => Enumerated::Failure(Failure::ParentExited),
        Keyword::CommandSentToSystem => Enumerated::Handle(Handle::CommandSentToSystem),
        Keyword::CommandAccepted => Enumerated::Handle(Handle::CommandAccepted),
        Keyword::CommandRcvdBySystem => Enumerated::Handle(Handle::CommandRcvdBySystem),
        Keyword::CommandFailed => Enumerated::Handle(Handle::CommandFailed),
        Keyword::CommandDenied => Enumerated::Handle(Handle::CommandDenied),
        Keyword::CommandSuccess => Enumerated::Handle(Handle::CommandSuccess),
        _ => return None,
    })
}
