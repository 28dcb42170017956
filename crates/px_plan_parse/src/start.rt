// What begins with a token.
ghost use Rattle.std.specs.Prelude.{◌≡◌, ◌<◌, ◌↔◌, IsTrue, length};
ghost use Rattle.px_plan_parse.specs.declared.start.Start.TheVariants as starts;
ghost use Rattle.px_plan_parse.specs.Start.{is_action, is_declaration, is_item, keyword_start, start_at, start_of};

use px_expr_parse::token::kind_at;
use px_lex::{Keyword, Sign, Token, TokenKind};
use px_syntax::{BlockForm, Condition, TypeName};

/// What begins with a token of a plan outside of expressions.
#[derive(Clone, Copy, PartialEq, Eq)]
pub(crate) enum Start {
    Type(TypeName),
    Command,
    Lookup,
    Condition(Condition),
    Priority,
    NodeList,
    Name,
    Form(BlockForm),
    Brace,
    Update,
    If,
    ElseIf,
    Else,
    EndIf,
    While,
    For,
    Nothing,
}

/// What begins at a place.
pub(crate) fn start_at(tokens: &[Token], at: usize) -> Start
    ensures value { result ≡ start_at tokens.now at }
    ensures inside { (result ≡ starts.Nothing → ⊥) → at < length tokens.now }
{
    match kind_at(tokens, at) {
        Some(kind) => Start::of(kind),
        None => Start::Nothing,
    }
}

/// Whether this begins at a place.
pub(crate) fn begins(tokens: &[Token], at: usize, start: Start) -> bool
    ensures answer { IsTrue result ↔ (start_at tokens.now at ≡ start) }
    ensures inside { IsTrue result → (start ≡ starts.Nothing → ⊥) → at < length tokens.now }
{
    start_at(tokens, at) == start
}

impl Start {
    #[tactic(auto, unfolding(crate::specs::Start::start_of))]
    fn of(kind: &TokenKind) -> Start
        ensures { result ≡ start_of kind.now }
    {
        match kind {
            TokenKind::Identifier(_) => Start::Name,
            TokenKind::Keyword(keyword) => Start::of_keyword(*keyword),
            TokenKind::Sign(Sign::OpenBrace) => Start::Brace,
            _ => Start::Nothing,
        }
    }

    #[tactic(auto, unfolding(crate::specs::Start::keyword_start))]
    fn of_keyword(keyword: Keyword) -> Start
        ensures { result ≡ keyword_start keyword }
    {
        match keyword {
            Keyword::Integer => Start::Type(TypeName::Integer),
            Keyword::Boolean => Start::Type(TypeName::Boolean),
            Keyword::String => Start::Type(TypeName::String),
            Keyword::Command => Start::Command,
            Keyword::Lookup => Start::Lookup,
            Keyword::Start | Keyword::StartCondition => Start::Condition(Condition::Start),
            Keyword::End | Keyword::EndCondition => Start::Condition(Condition::End),
            Keyword::Exit | Keyword::ExitCondition => Start::Condition(Condition::Exit),
            Keyword::Skip | Keyword::SkipCondition => Start::Condition(Condition::Skip),
            Keyword::Repeat | Keyword::RepeatCondition => Start::Condition(Condition::Repeat),
            Keyword::Pre | Keyword::PreCondition => Start::Condition(Condition::Pre),
            Keyword::Post | Keyword::PostCondition => Start::Condition(Condition::Post),
            Keyword::Invariant | Keyword::InvariantCondition => {
                Start::Condition(Condition::Invariant)
            }
            Keyword::Priority => Start::Priority,
            Keyword::NodeList => Start::NodeList,
            Keyword::Sequence => Start::Form(BlockForm::Sequence),
            Keyword::UncheckedSequence => Start::Form(BlockForm::UncheckedSequence),
            Keyword::Concurrence => Start::Form(BlockForm::Concurrence),
            Keyword::Try => Start::Form(BlockForm::Try),
            Keyword::Update => Start::Update,
            Keyword::If => Start::If,
            Keyword::ElseIf => Start::ElseIf,
            Keyword::Else => Start::Else,
            Keyword::EndIf => Start::EndIf,
            Keyword::While => Start::While,
            Keyword::For => Start::For,
            _ => Start::Nothing,
        }
    }

    pub(crate) fn is_declaration(self) -> bool
        ensures { result ≡ is_declaration self }
    {
        matches!(self, Start::Type(_) | Start::Command)
    }

    pub(crate) fn is_item(self) -> bool
        ensures { result ≡ is_item self }
    {
        matches!(self, Start::Type(_) | Start::Condition(_) | Start::Priority)
    }

    pub(crate) fn is_action(self) -> bool
        ensures { result ≡ is_action self }
    {
        match self {
            Start::Name | Start::Form(_) | Start::Brace | Start::Update => true,
            Start::If | Start::While | Start::For => true,
            _ => false,
        }
    }
}
