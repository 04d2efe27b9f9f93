//! How keywords and signs are spelled.

ghost use Rattle.std.specs.Prelude.{◌≡◌, ◌≤◌, length, IsTrue, IfSome};
ghost use Rattle.std.specs.Option.{option_map};
ghost use Rattle.cb_lex.specs.Spelling.{letters, keywords_of_length, spelled, keyword_of, begins, measured, sign_at};
ghost use Rattle.cb_lex.specs.SignRows.{mark, row_in};

use crate::token::{Keyword, Sign};

impl Keyword {
    /// The keyword as it is written.
    pub fn letters(self) -> &'static [u8]
        ensures { result.now ≡ letters self }
    {
        match self {
            Keyword::Machine => b"MACHINE",
            Keyword::Sees => b"SEES",
            Keyword::Sets => b"SETS",
            Keyword::Constants => b"CONSTANTS",
            Keyword::Properties => b"PROPERTIES",
            Keyword::Variables => b"VARIABLES",
            Keyword::Invariant => b"INVARIANT",
            Keyword::Initialisation => b"INITIALISATION",
            Keyword::Operations => b"OPERATIONS",
            Keyword::End => b"END",
            Keyword::Pre => b"PRE",
            Keyword::Then => b"THEN",
            Keyword::If => b"IF",
            Keyword::Elsif => b"ELSIF",
            Keyword::Else => b"ELSE",
            Keyword::Choice => b"CHOICE",
            Keyword::ChoiceOr => b"OR",
            Keyword::AnyOf => b"ANY",
            Keyword::Where => b"WHERE",
            Keyword::Begin => b"BEGIN",
            Keyword::Channels => b"CHANNELS",
            Keyword::Controller => b"CONTROLLER",
            Keyword::Machines => b"MACHINES",
            Keyword::Start => b"START",
            Keyword::Processes => b"PROCESSES",
            Keyword::Inv => b"INV",
            Keyword::System => b"SYSTEM",
            Keyword::Proof => b"PROOF",
            Keyword::Stop => b"STOP",
            Keyword::SkipProcess => b"SKIP",
            Keyword::True => b"TRUE",
            Keyword::False => b"FALSE",
            Keyword::Truths => b"BOOL",
            Keyword::Nat => b"NAT",
            Keyword::Nat1 => b"NAT1",
            Keyword::Int => b"INT",
            Keyword::MaxInt => b"MAXINT",
            Keyword::MinInt => b"MININT",
            Keyword::Skip => b"skip",
            Keyword::Any => b"any",
            Keyword::Or => b"or",
            Keyword::Not => b"not",
            Keyword::Mod => b"mod",
            Keyword::Card => b"card",
            Keyword::Bool => b"bool",
            Keyword::AlwaysTrue => b"btrue",
            Keyword::AlwaysFalse => b"bfalse",
        }
    }
}

static TWO: [Keyword; 3] = [Keyword::If, Keyword::ChoiceOr, Keyword::Or];

static THREE: [Keyword; 9] = [
    Keyword::End,
    Keyword::Pre,
    Keyword::AnyOf,
    Keyword::Inv,
    Keyword::Nat,
    Keyword::Int,
    Keyword::Any,
    Keyword::Not,
    Keyword::Mod,
];

static FOUR: [Keyword; 12] = [
    Keyword::Sees,
    Keyword::Sets,
    Keyword::Then,
    Keyword::Else,
    Keyword::Stop,
    Keyword::SkipProcess,
    Keyword::True,
    Keyword::Truths,
    Keyword::Nat1,
    Keyword::Skip,
    Keyword::Card,
    Keyword::Bool,
];

static FIVE: [Keyword; 7] = [
    Keyword::Elsif,
    Keyword::Where,
    Keyword::Begin,
    Keyword::Start,
    Keyword::Proof,
    Keyword::False,
    Keyword::AlwaysTrue,
];

static SIX: [Keyword; 5] = [
    Keyword::Choice,
    Keyword::System,
    Keyword::MaxInt,
    Keyword::MinInt,
    Keyword::AlwaysFalse,
];

static SEVEN: [Keyword; 1] = [Keyword::Machine];

static EIGHT: [Keyword; 2] = [Keyword::Channels, Keyword::Machines];

static NINE: [Keyword; 4] = [
    Keyword::Constants,
    Keyword::Variables,
    Keyword::Invariant,
    Keyword::Processes,
];

static TEN: [Keyword; 3] = [
    Keyword::Properties,
    Keyword::Operations,
    Keyword::Controller,
];

static FOURTEEN: [Keyword; 1] = [Keyword::Initialisation];

// The keywords of so many letters.
fn keywords_of_length(length: usize) -> &'static [Keyword]
    ensures { result.now ≡ keywords_of_length length }
{
    match length {
        2 => &TWO,
        3 => &THREE,
        4 => &FOUR,
        5 => &FIVE,
        6 => &SIX,
        7 => &SEVEN,
        8 => &EIGHT,
        9 => &NINE,
        10 => &TEN,
        14 => &FOURTEEN,
        _ => &[],
    }
}

// The first of the keywords that is spelled so.
fn spelled(keywords: &[Keyword], word: &[u8]) -> Option<Keyword>
    ensures { result ≡ spelled keywords.now word.now }
{
    for keyword in keywords {
        if keyword.letters() == word {
            return Some(*keyword);
        }
    }
    None
}

/// The keyword that a word is, if it is one.
pub fn keyword_of(word: &[u8]) -> Option<Keyword>
    ensures { result ≡ keyword_of word.now }
{
    spelled(keywords_of_length(word.len()), word)
}

// The one to three bytes of a sign, with 0 in place of those that it lacks, and the sign.
#[derive(Clone, Copy)]
struct SignRow(u8, u8, u8, Sign);

// The signs, the longer ones first.
static SIGNS: [SignRow; 38] = [
    SignRow(b'<', b'-', b'-', Sign::Returns),
    SignRow(b'<', b'=', b'>', Sign::Equivalent),
    SignRow(b'|', b'~', b'|', Sign::InternalChoice),
    SignRow(b':', b'=', 0, Sign::Assign),
    SignRow(b':', b':', 0, Sign::Among),
    SignRow(b'|', b'|', 0, Sign::Parallel),
    SignRow(b'/', b':', 0, Sign::NotMember),
    SignRow(b'<', b':', 0, Sign::Subset),
    SignRow(b'\\', b'/', 0, Sign::Union),
    SignRow(b'/', b'\\', 0, Sign::Intersection),
    SignRow(b'.', b'.', 0, Sign::UpTo),
    SignRow(b'=', b'>', 0, Sign::Implies),
    SignRow(b'/', b'=', 0, Sign::Unequal),
    SignRow(b'<', b'=', 0, Sign::AtMost),
    SignRow(b'>', b'=', 0, Sign::AtLeast),
    SignRow(b'[', b']', 0, Sign::ExternalChoice),
    SignRow(b'-', b'>', 0, Sign::Arrow),
    SignRow(b'(', 0, 0, Sign::OpenParenthesis),
    SignRow(b')', 0, 0, Sign::CloseParenthesis),
    SignRow(b',', 0, 0, Sign::Comma),
    SignRow(b';', 0, 0, Sign::Semicolon),
    SignRow(b'=', 0, 0, Sign::Equal),
    SignRow(b':', 0, 0, Sign::Member),
    SignRow(b'.', 0, 0, Sign::Dot),
    SignRow(b'&', 0, 0, Sign::And),
    SignRow(b'<', 0, 0, Sign::Less),
    SignRow(b'>', 0, 0, Sign::Greater),
    SignRow(b'!', 0, 0, Sign::Bang),
    SignRow(b'?', 0, 0, Sign::Query),
    SignRow(b'#', 0, 0, Sign::Hash),
    SignRow(b'{', 0, 0, Sign::OpenBrace),
    SignRow(b'}', 0, 0, Sign::CloseBrace),
    SignRow(b'[', 0, 0, Sign::OpenBracket),
    SignRow(b']', 0, 0, Sign::CloseBracket),
    SignRow(b'+', 0, 0, Sign::Plus),
    SignRow(b'-', 0, 0, Sign::Minus),
    SignRow(b'*', 0, 0, Sign::Times),
    SignRow(b'/', 0, 0, Sign::Divide),
];

// How many bytes a row's sign has.
fn mark_length(row: SignRow) -> usize
    ensures { result ≡ length (mark row) }
{
    if row.1 == 0 {
        1
    } else if row.2 == 0 {
        2
    } else {
        3
    }
}

// Whether a row's sign is at the front.
fn begins(row: SignRow, bytes: &[u8]) -> bool
    ensures begins { result ≡ begins (mark row) bytes.now }
    ensures within { IsTrue result → length (mark row) ≤ length bytes.now }
{
    match bytes {
        [] => false,
        [a] => *a == row.0 && row.1 == 0,
        [a, b] => *a == row.0 && (row.1 == 0 || *b == row.1 && row.2 == 0),
        [a, b, c, ..] => *a == row.0 && (row.1 == 0 || *b == row.1 && (row.2 == 0 || *c == row.2)),
    }
}

// The first of the rows whose sign is at the front.
fn row_in(rows: &[SignRow], bytes: &[u8]) -> Option<SignRow>
    ensures row { result ≡ row_in rows.now bytes.now }
    ensures within { IfSome result (λ row. length (mark row) ≤ length bytes.now) }
{
    for row in rows {
        if begins(*row, bytes) {
            return Some(*row);
        }
    }
    None
}

/// The longest sign at the front, and how many bytes it has.
#[tactic(auto, using(std::proofs::lemmas::Grind::common_steps, crate::proofs::Signs::row_found))]
pub fn sign_at(bytes: &[u8]) -> Option<(Sign, usize)>
    ensures sign { result ≡ option_map measured (sign_at bytes.now) }
    ensures within { IfSome result (λ s. s.1 ≤ length bytes.now) }
{
    let row = row_in(&SIGNS, bytes)?;
    Some((row.3, mark_length(row)))
}
