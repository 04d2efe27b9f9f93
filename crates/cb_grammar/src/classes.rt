//! The classes of tokens. Written by tools/table.py from tools/cspb.grammar.

ghost use Rattle.std.specs.Prelude.{◌≡◌, ◌<◌, slice_get, Some};
ghost use Rattle.cb_grammar.specs.Classes.{keyword_class, sign_class, words};

use cb_lex::token::{Keyword, Sign};

// the class of a keyword
pub(crate) fn class_of_keyword(keyword: Keyword) -> u8
    ensures { result ≡ keyword_class keyword }
{
    match keyword {
        Keyword::Machine => 4,
        Keyword::Sees => 5,
        Keyword::Sets => 6,
        Keyword::Constants => 7,
        Keyword::Properties => 8,
        Keyword::Variables => 9,
        Keyword::Invariant => 10,
        Keyword::Initialisation => 11,
        Keyword::Operations => 12,
        Keyword::End => 13,
        Keyword::Pre => 14,
        Keyword::Then => 15,
        Keyword::If => 16,
        Keyword::Elsif => 17,
        Keyword::Else => 18,
        Keyword::Choice => 19,
        Keyword::ChoiceOr => 20,
        Keyword::AnyOf => 21,
        Keyword::Where => 22,
        Keyword::Begin => 23,
        Keyword::Channels => 24,
        Keyword::Controller => 25,
        Keyword::Machines => 26,
        Keyword::Start => 27,
        Keyword::Processes => 28,
        Keyword::Inv => 29,
        Keyword::System => 30,
        Keyword::Proof => 31,
        Keyword::Stop => 32,
        Keyword::SkipProcess => 33,
        Keyword::True => 34,
        Keyword::False => 35,
        Keyword::Truths => 36,
        Keyword::Nat => 37,
        Keyword::Nat1 => 38,
        Keyword::Int => 39,
        Keyword::MaxInt => 40,
        Keyword::MinInt => 41,
        Keyword::Skip => 42,
        Keyword::Any => 43,
        Keyword::Or => 44,
        Keyword::Not => 45,
        Keyword::Mod => 46,
        Keyword::Card => 47,
        Keyword::Bool => 48,
        Keyword::AlwaysTrue => 49,
        Keyword::AlwaysFalse => 50,
    }
}

// the class of a sign
pub(crate) fn class_of_sign(sign: Sign) -> u8
    ensures { result ≡ sign_class sign }
{
    match sign {
        Sign::Assign => 51,
        Sign::Among => 52,
        Sign::Parallel => 53,
        Sign::Returns => 54,
        Sign::Member => 55,
        Sign::NotMember => 56,
        Sign::Subset => 57,
        Sign::Union => 58,
        Sign::Intersection => 59,
        Sign::UpTo => 60,
        Sign::Dot => 61,
        Sign::Comma => 62,
        Sign::Semicolon => 63,
        Sign::And => 64,
        Sign::Implies => 65,
        Sign::Equivalent => 66,
        Sign::Equal => 67,
        Sign::Unequal => 68,
        Sign::Less => 69,
        Sign::AtMost => 70,
        Sign::Greater => 71,
        Sign::AtLeast => 72,
        Sign::Bang => 73,
        Sign::Query => 74,
        Sign::Hash => 75,
        Sign::OpenParenthesis => 76,
        Sign::CloseParenthesis => 77,
        Sign::OpenBrace => 78,
        Sign::CloseBrace => 79,
        Sign::OpenBracket => 80,
        Sign::CloseBracket => 81,
        Sign::ExternalChoice => 82,
        Sign::InternalChoice => 83,
        Sign::Arrow => 84,
        Sign::Plus => 85,
        Sign::Minus => 86,
        Sign::Times => 87,
        Sign::Divide => 88,
    }
}

/// How many words have a class of their own.
pub const WORD_COUNT: usize = 49;

// the word with this number
#[tactic(auto, unfolding(crate::specs::Classes::words))]
pub(crate) fn word_at(number: usize) -> &'static [u8]
    requires { number < WORD_COUNT }
    ensures { slice_get words number ≡ Some result.now }
{
    match number {
        0 => b"INIT",
        1 => b"OP",
        2 => b"LOOP",
        3 => b"MATCH",
        4 => b"LIVE",
        5 => b"HYP",
        6 => b"CONTRA",
        7 => b"EVAL",
        8 => b"EVALNOT",
        9 => b"REFL",
        10 => b"LIN",
        11 => b"CUT",
        12 => b"CASES",
        13 => b"ANDR",
        14 => b"OR1",
        15 => b"OR2",
        16 => b"IMPR",
        17 => b"NOTR",
        18 => b"IFFR",
        19 => b"ALLR",
        20 => b"EXR",
        21 => b"ANDL",
        22 => b"ORL",
        23 => b"IMPL",
        24 => b"IFFL",
        25 => b"NOTL",
        26 => b"ALLL",
        27 => b"EXL",
        28 => b"EQ",
        29 => b"EQIN",
        30 => b"BOOLCASES",
        31 => b"BOOLR",
        32 => b"BOOLL",
        33 => b"ELEMS",
        34 => b"SPLIT",
        35 => b"EQLE",
        36 => b"RNG",
        37 => b"RNGL",
        38 => b"DIVMOD",
        39 => b"MULSIGN",
        40 => b"MEMBER",
        41 => b"MEMBERL",
        42 => b"SUBSET",
        43 => b"SUBSETL",
        44 => b"EXT",
        45 => b"CARDPOS",
        46 => b"CARDADD",
        47 => b"CARDDEL",
        _ => b"CARDSUB",
    }
}
