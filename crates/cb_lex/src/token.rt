//! Tokens of a text, with their places.

use crate::bytes::Bytes;

/// A place in a text.
#[derive(Clone, Copy, Debug, PartialEq, Eq)]
pub struct Place {
    /// The line, counted from 1. A line ends after a line feed.
    pub line: u32,
    /// The byte in its line, counted from 1.
    pub col: u32,
}

/// A token and the place of its first byte.
#[derive(Drop)]
pub struct Token {
    pub sort: Sort,
    pub place: Place,
}

/// What a token is.
#[derive(Drop)]
pub enum Sort {
    /// A written name: a letter, then letters, digits and `_`.
    Word(Bytes),
    /// An opened name `text#number`, the number from 1 to 4294967295. (`text#0` is the written name `text`.)
    Opened { text: Bytes, number: u32 },
    /// A number, 0 to 9223372036854775807.
    Number(i64),
    Keyword(Keyword),
    Sign(Sign),
    /// The end of the text, at the place past its last byte.
    Finish,
}

/// The keywords, in the order of the language's description.
#[derive(Clone, Copy, Debug, PartialEq, Eq)]
pub enum Keyword {
    Machine,
    Sees,
    Sets,
    Constants,
    Properties,
    Variables,
    Invariant,
    Initialisation,
    Operations,
    End,
    Pre,
    Then,
    If,
    Elsif,
    Else,
    Choice,
    /// `OR`, between the sides of a CHOICE.
    ChoiceOr,
    /// `ANY`.
    AnyOf,
    Where,
    Begin,
    Channels,
    Controller,
    Machines,
    Start,
    Processes,
    Inv,
    System,
    Proof,
    Stop,
    /// `SKIP`, the process.
    SkipProcess,
    True,
    False,
    /// `BOOL`, the set.
    Truths,
    Nat,
    Nat1,
    Int,
    MaxInt,
    MinInt,
    /// `skip`, the substitution.
    Skip,
    /// `any`, the reserved name.
    Any,
    /// `or`, of formulas.
    Or,
    Not,
    Mod,
    Card,
    /// `bool`, the truth value of a formula.
    Bool,
    /// `btrue`.
    AlwaysTrue,
    /// `bfalse`.
    AlwaysFalse,
}

/// The signs, in the order of the language's description.
#[derive(Clone, Copy, Debug, PartialEq, Eq)]
pub enum Sign {
    /// `:=`
    Assign,
    /// `::`
    Among,
    /// `||`
    Parallel,
    /// `<--`
    Returns,
    /// `:`
    Member,
    /// `/:`
    NotMember,
    /// `<:`
    Subset,
    /// `\/`
    Union,
    /// `/\`
    Intersection,
    /// `..`
    UpTo,
    /// `.`
    Dot,
    /// `,`
    Comma,
    /// `;`
    Semicolon,
    /// `&`
    And,
    /// `=>`
    Implies,
    /// `<=>`
    Equivalent,
    /// `=`
    Equal,
    /// `/=`
    Unequal,
    /// `<`
    Less,
    /// `<=`
    AtMost,
    /// `>`
    Greater,
    /// `>=`
    AtLeast,
    /// `!`
    Bang,
    /// `?`
    Query,
    /// `#`
    Hash,
    /// `(`
    OpenParenthesis,
    /// `)`
    CloseParenthesis,
    /// `{`
    OpenBrace,
    /// `}`
    CloseBrace,
    /// `[`
    OpenBracket,
    /// `]`
    CloseBracket,
    /// `[]`
    ExternalChoice,
    /// `|~|`
    InternalChoice,
    /// `->`
    Arrow,
    /// `+`
    Plus,
    /// `-`
    Minus,
    /// `*`
    Times,
    /// `/`
    Divide,
}
