//! Cuts a text into tokens.

ghost use Rattle.std.specs.Prelude.{◌≡◌, ◌≤◌, ◌<◌, ◌+◌, ◌^◌, [], ◌∷◌, ◌++◌, length, drop, take, IfOk, IfErr, OnOk};
ghost use Rattle.cb_lex.specs.Lexis.{front, front_length, GoesForward};
ghost use Rattle.cb_lex.specs.Lexes.{Lexes, IsFirstFault, moved, start};

use crate::Memory;
use crate::front::{Front, at_front};
use crate::token::{Place, Sort, Token};
use std::alloc::Global;
use thiserror::Error;

/// The longest text, in bytes: 4 MiB.
pub const LONGEST_TEXT: usize = 4_194_304;

/// Why a text is not cut into tokens. The first of the three faults in the text is told.
#[derive(Debug, Drop, Error)]
pub enum LexFault {
    /// A byte outside a comment with which no token begins.
    #[error("no token begins with the byte at line {}, column {}", .0.line, .0.col)]
    BadByte(Place),
    /// A number above 9223372036854775807, or a name's number above 4294967295, at its first digit.
    #[error("the number at line {}, column {} is too great", .0.line, .0.col)]
    LongNumber(Place),
    /// A `/*` with no `*/` after it, at its first byte.
    #[error("the comment at line {}, column {} does not end", .0.line, .0.col)]
    OpenComment(Place),
    /// There was not enough memory.
    #[error(transparent)]
    Memory(Memory),
}

impl From<Memory> for LexFault {
    ghost use Rattle.cb_lex.specs.declared.lexer.LexFault.TheVariants as lex_fault;

    ghost from_gives = { λ m f. f ≡ lex_fault.Memory m };

    fn from(memory: Memory) -> LexFault {
        LexFault::Memory(memory)
    }
}

// The place after some bytes.
fn moved(place: Place, bytes: &[u8]) -> Place
    requires { place.line + place.col + length bytes.now + 1 < 2 ^ 32 }
    ensures place { result ≡ moved place bytes.now }
    ensures line { result.line ≤ place.line + length bytes.now }
    ensures col { result.col ≤ place.col + length bytes.now }
{
    let mut place = place;
    for byte in bytes {
        place = if *byte == b'\n' {
            Place {
                line: place.line + 1,
                col: 1,
            }
        } else {
            Place {
                line: place.line,
                col: place.col + 1,
            }
        };
    }
    place
}

// What stands at an index.
fn front_at(alloc: Global, bytes: &[u8], at: usize) -> Result<Front, Memory>
    requires { at ≤ length bytes.now }
    ensures forward { IfOk result (λ f. GoesForward f) }
    ensures front { IfOk result (λ f. f ≡ front (drop at bytes.now)) }
    ensures within { IfOk result (λ f. front_length f ≤ length (drop at bytes.now)) }
{
    at_front(alloc, &bytes[at..])
}

// The place after so many bytes from an index on.
fn moved_over(place: Place, bytes: &[u8], at: usize, len: usize) -> Place
    requires within { at + len ≤ length bytes.now }
    requires near { place.line + place.col + len + 1 < 2 ^ 32 }
    ensures place { result ≡ moved place (take len (drop at bytes.now)) }
    ensures line { result.line ≤ place.line + len }
    ensures col { result.col ≤ place.col + len }
{
    moved(place, &bytes[at..at + len])
}

// Adds a token.
fn add(out: &mut Vec<Token>, sort: Sort, place: Place) -> Result<(), Memory>
    ensures { OnOk result (out.new.items ≡ out.old.items ++ (record { sort = sort; place = place }) ∷ []) }
{
    out.push(Token { sort, place })?;
    Ok(())
}

/// The tokens of a text, and `Finish` after them; or the text's first fault.
pub fn tokens(alloc: Global, bytes: &[u8]) -> Result<Vec<Token>, LexFault>
    requires { length bytes.now ≤ LONGEST_TEXT }
    ensures tokens { IfOk result (λ ts. Lexes bytes.now start (Ok ts.items)) }
    ensures fault { IfErr result (IsFirstFault bytes.now) }
{
    let mut out = Vec::new(alloc);
    let mut at = 0;
    let mut place = Place { line: 1, col: 1 };
    loop {
        match front_at(alloc, bytes, at)? {
            Front::Nothing => {
                add(&mut out, Sort::Finish, place)?;
                return Ok(out);
            }
            Front::Gap(len) => {
                place = moved_over(place, bytes, at, len);
                at += len;
            }
            Front::Makes(sort, len) => {
                add(&mut out, sort, place)?;
                place = moved_over(place, bytes, at, len);
                at += len;
            }
            Front::Bad => return Err(LexFault::BadByte(place)),
            Front::Long(len) => return Err(LexFault::LongNumber(moved_over(place, bytes, at, len))),
            Front::Open => return Err(LexFault::OpenComment(place)),
        }
    }
}
