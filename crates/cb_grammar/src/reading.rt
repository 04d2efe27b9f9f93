//! Reading a part of the language from the lexer's tokens.

ghost use Rattle.std.specs.Prelude.{◌≡◌, ◌≤◌, IfOk, IfErr, Some, []};
ghost use Rattle.cb_engine.specs.Kinds.{kinds, Leaves};
ghost use Rattle.cb_engine.specs.Readings.{IsReading};
ghost use Rattle.cb_grammar.specs.Parts.{kinds_left};
ghost use Rattle.cb_grammar.specs.Signatures.{signatures};
ghost use Rattle.cb_grammar.specs.Misreadings.{language, IsRead, Misread, symbols_of, end, place_at, joins, refused};

use crate::Memory;
use crate::depth::deep;
use crate::parts::{Part, number_of_part};
use crate::table::{GRAMMAR, WEIGHTS};
use crate::terminals::classes;
use cb_engine::{Item, Reading, Terminal, index, read};
use cb_lex::token::{Keyword, Place, Sign, Sort, Token};
use std::alloc::{AllocError, Global};
use thiserror::Error;

/// Why a part can't be read.
#[derive(Clone, Copy, Debug, PartialEq, Eq, Error)]
pub enum SyntaxFault {
    /// The token at this place doesn't go on with what the tokens before it begin.
    #[error("line {}, column {}: the text does not go on like this", .0.line, .0.col)]
    Syntax(Place),
    /// So it is, and the token is one of `&`, `or`, `=>`, `<=>`, `\/`, `/\`, `[]` and `|~|`, which don't mix with each other.
    #[error("line {}, column {}: this sign cannot stand here without parentheses", .0.line, .0.col)]
    Mixed(Place),
    /// The token at this place is nested too deep, and the tokens up to it begin the part.
    #[error("line {}, column {}: the text is nested too deep", .0.line, .0.col)]
    Deep(Place),
    /// Want of memory.
    #[error("out of memory")]
    Memory,
}

impl From<AllocError> for SyntaxFault {
    ghost use Rattle.std.specs.Prelude.{◌≡◌};
    ghost use Rattle.cb_grammar.specs.declared.reading.SyntaxFault.{SyntaxFault};

    ghost from_gives = { λ _ e. e ≡ SyntaxFault.Memory };

    fn from(_error: AllocError) -> SyntaxFault {
        SyntaxFault::Memory
    }
}

/// What was read.
#[derive(Drop)]
pub struct Written {
    /// What the grammar writes out for the part, in postfix order. A word in it has the number of its token.
    pub items: Vec<Item>,
    /// How many tokens the part has.
    pub taken: usize,
}

// the terminals read as the part
fn read_terminals(alloc: Global, terminals: &[Terminal], part: Part) -> Result<Reading, Memory>
    ensures reading { IfOk result (λ reading. IsReading language (symbols_of part) terminals.now reading) }
    ensures fits { IfOk result (λ reading. Leaves signatures (kinds_left part) reading) }
{
    let places = index(alloc, &GRAMMAR)?;
    read(
        alloc,
        &GRAMMAR,
        &places,
        &WEIGHTS,
        terminals,
        number_of_part(part),
    )
}

// before which token the reading ends
fn end_of(reading: &Reading) -> usize
    ensures { result ≡ end reading.now }
{
    match reading {
        Reading::Whole(to, _) => *to,
        Reading::Fault(to) => *to,
    }
}

// the place of a token, or of the last one where there is none
fn place_of(tokens: &[Token], at: usize) -> Place
    ensures { result ≡ place_at tokens.now at }
{
    if tokens.is_empty() {
        return Place { line: 1, col: 1 };
    }
    let at = if at < tokens.len() {
        at
    } else {
        tokens.len() - 1
    };
    tokens[at].place
}

// whether a token joins operands
fn is_joining(sort: &Sort) -> bool
    ensures { result ≡ joins sort.now }
{
    matches!(
        sort,
        Sort::Keyword(Keyword::Or)
            | Sort::Sign(
                Sign::And
                    | Sign::Implies
                    | Sign::Equivalent
                    | Sign::Union
                    | Sign::Intersection
                    | Sign::ExternalChoice
                    | Sign::InternalChoice
            )
    )
}

// the fault at a token that doesn't go on
fn refusal(tokens: &[Token], at: usize) -> SyntaxFault
    ensures { result ≡ refused tokens.now at }
{
    let place = place_of(tokens, at);
    if at < tokens.len() && is_joining(&tokens[at].sort) {
        SyntaxFault::Mixed(place)
    } else {
        SyntaxFault::Syntax(place)
    }
}

/// Reads the part from the first token on: takes the next token as long as the tokens taken and that token together
/// begin such a part. Where the tokens taken are such a part, the answer is what it writes; else the fault stands at
/// the next token. Where a token that was taken is too deep, the first such is the fault. `depth` is the depth before
/// the first token, and `opened` says whether opened names may stand before the first PROOF.
pub fn read_part(
    alloc: Global,
    tokens: &[Token],
    part: Part,
    depth: u32,
    opened: bool,
) -> Result<Written, SyntaxFault>
    requires { depth ≤ 200 }
    ensures reads { IfOk result (λ w. IsRead part depth opened tokens.now w.taken w.items.items) }
    ensures fits { IfOk result (λ w. kinds signatures w.items.items [] ≡ Some (kinds_left part)) }
    ensures fault { IfErr result (Misread part depth opened tokens.now) }
{
    let terminals = classes(alloc, tokens, opened)?;
    let reading = read_terminals(alloc, &terminals, part)?;
    if let Some(at) = deep(alloc, &tokens[..end_of(&reading)], depth)? {
        return Err(SyntaxFault::Deep(place_of(tokens, at)));
    }
    match reading {
        Reading::Whole(taken, items) => Ok(Written { items, taken }),
        Reading::Fault(at) => Err(refusal(tokens, at)),
    }
}
