// The keywords, each with its spelling in one row of the table for its length.
ghost use Rattle.std.specs.Prelude.{◌≡◌, [], length, map, get_or};
ghost use Rattle.px_lex.specs.Keyword.{keyword_of};
ghost use Rattle.px_lex.specs.Table.{row_of};

use crate::table::row_of;

/// A word that isn't an identifier. Each variant stands for the spelling in its row of `KEYWORDS`.
#[derive(Clone, Copy, PartialEq, Eq)]
pub enum Keyword {
    Integer,
    Boolean,
    String,
    Command,
    Lookup,
    LookupNow,
    LookupOnChange,
    Update,
    Sequence,
    UncheckedSequence,
    Concurrence,
    Try,
    NodeList,
    If,
    ElseIf,
    Else,
    EndIf,
    While,
    For,
    True,
    False,
    And,
    Or,
    Xor,
    Not,
    IsKnown,
    Abs,
    Min,
    Max,
    StrLen,
    SelfNode,
    Parent,
    Sibling,
    Child,
    Priority,
    Start,
    End,
    Exit,
    Skip,
    Repeat,
    Pre,
    Post,
    Invariant,
    StartCondition,
    EndCondition,
    ExitCondition,
    SkipCondition,
    RepeatCondition,
    PreCondition,
    PostCondition,
    InvariantCondition,
    Inactive,
    Waiting,
    Executing,
    Finishing,
    IterationEnded,
    Failing,
    Finished,
    Success,
    Failure,
    Skipped,
    Interrupted,
    PreConditionFailed,
    PostConditionFailed,
    InvariantConditionFailed,
    ParentFailed,
    Exited,
    ParentExited,
    CommandSentToSystem,
    CommandAccepted,
    CommandRcvdBySystem,
    CommandFailed,
    CommandDenied,
    CommandSuccess,
}

/// The spelling of each keyword (PLEXIL reference manual), by its length: a word is compared with those of its length alone.
pub const KEYWORDS: [&[(&[u8], Keyword)]; 27] = [
    &[],
    &[],
    &[(b"if", Keyword::If), (b"OR", Keyword::Or)],
    &[
        (b"Try", Keyword::Try),
        (b"for", Keyword::For),
        (b"AND", Keyword::And),
        (b"XOR", Keyword::Xor),
        (b"NOT", Keyword::Not),
        (b"abs", Keyword::Abs),
        (b"min", Keyword::Min),
        (b"max", Keyword::Max),
        (b"End", Keyword::End),
        (b"Pre", Keyword::Pre),
    ],
    &[
        (b"else", Keyword::Else),
        (b"true", Keyword::True),
        (b"Self", Keyword::SelfNode),
        (b"Exit", Keyword::Exit),
        (b"Skip", Keyword::Skip),
        (b"Post", Keyword::Post),
    ],
    &[
        (b"endif", Keyword::EndIf),
        (b"while", Keyword::While),
        (b"false", Keyword::False),
        (b"Child", Keyword::Child),
        (b"Start", Keyword::Start),
    ],
    &[
        (b"String", Keyword::String),
        (b"Lookup", Keyword::Lookup),
        (b"Update", Keyword::Update),
        (b"elseif", Keyword::ElseIf),
        (b"strlen", Keyword::StrLen),
        (b"Parent", Keyword::Parent),
        (b"Repeat", Keyword::Repeat),
        (b"EXITED", Keyword::Exited),
    ],
    &[
        (b"Integer", Keyword::Integer),
        (b"Boolean", Keyword::Boolean),
        (b"Command", Keyword::Command),
        (b"isKnown", Keyword::IsKnown),
        (b"Sibling", Keyword::Sibling),
        (b"WAITING", Keyword::Waiting),
        (b"FAILING", Keyword::Failing),
        (b"SUCCESS", Keyword::Success),
        (b"FAILURE", Keyword::Failure),
        (b"SKIPPED", Keyword::Skipped),
    ],
    &[
        (b"Sequence", Keyword::Sequence),
        (b"NodeList", Keyword::NodeList),
        (b"Priority", Keyword::Priority),
        (b"INACTIVE", Keyword::Inactive),
        (b"FINISHED", Keyword::Finished),
    ],
    &[
        (b"LookupNow", Keyword::LookupNow),
        (b"Invariant", Keyword::Invariant),
        (b"EXECUTING", Keyword::Executing),
        (b"FINISHING", Keyword::Finishing),
    ],
    &[],
    &[
        (b"Concurrence", Keyword::Concurrence),
        (b"INTERRUPTED", Keyword::Interrupted),
    ],
    &[
        (b"EndCondition", Keyword::EndCondition),
        (b"PreCondition", Keyword::PreCondition),
    ],
    &[
        (b"ExitCondition", Keyword::ExitCondition),
        (b"SkipCondition", Keyword::SkipCondition),
        (b"PostCondition", Keyword::PostCondition),
        (b"PARENT_FAILED", Keyword::ParentFailed),
        (b"PARENT_EXITED", Keyword::ParentExited),
    ],
    &[
        (b"LookupOnChange", Keyword::LookupOnChange),
        (b"StartCondition", Keyword::StartCondition),
        (b"COMMAND_FAILED", Keyword::CommandFailed),
        (b"COMMAND_DENIED", Keyword::CommandDenied),
    ],
    &[
        (b"RepeatCondition", Keyword::RepeatCondition),
        (b"ITERATION_ENDED", Keyword::IterationEnded),
        (b"COMMAND_SUCCESS", Keyword::CommandSuccess),
    ],
    &[(b"COMMAND_ACCEPTED", Keyword::CommandAccepted)],
    &[(b"UncheckedSequence", Keyword::UncheckedSequence)],
    &[(b"InvariantCondition", Keyword::InvariantCondition)],
    &[],
    &[(b"PRE_CONDITION_FAILED", Keyword::PreConditionFailed)],
    &[(b"POST_CONDITION_FAILED", Keyword::PostConditionFailed)],
    &[
        (b"COMMAND_SENT_TO_SYSTEM", Keyword::CommandSentToSystem),
        (b"COMMAND_RCVD_BY_SYSTEM", Keyword::CommandRcvdBySystem),
    ],
    &[],
    &[],
    &[],
    &[(
        b"INVARIANT_CONDITION_FAILED",
        Keyword::InvariantConditionFailed,
    )],
];

/// The keyword that a word is, if it is one.
pub(crate) fn keyword_of(word: &[u8]) -> Option<Keyword>
    ensures { result ≡ keyword_of word.now }
{
    keyword_in(&KEYWORDS, word)
}

/// What a word is by a table that has the rows of each length in turn.
fn keyword_in(table: &[&[(&[u8], Keyword)]], word: &[u8]) -> Option<Keyword>
    ensures { result ≡ row_of (get_or (map (λ rows. map (λ row. (row.0.now, row.1)) rows.now) table.now) (length word.now) [])
        word.now }
{
    match table.get(word.len()) {
        Some(rows) => row_of(rows, word),
        None => None,
    }
}
