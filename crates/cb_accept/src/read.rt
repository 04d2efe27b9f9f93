//! Texts with their proofs, read from bytes.

ghost use Rattle.std.specs.Prelude.{◌≤◌, ◌<◌, length, Ok, IfOk, IfErr};
ghost use Rattle.cb_lex.specs.Lexes.{Lexes, start, IsFirstFault};
ghost use Rattle.cb_spec.specs.Typed.{Typed};
ghost use Rattle.cb_accept.specs.Accepting.{SpellsText, IsRead, IsWell, IsMisread, IsTextFault};

use cb_cert::reading::proofs;
use cb_csp_parse::reading::text;
use cb_grammar::SyntaxFault;
use cb_judged::judge::JudgeFault;
use cb_lex::lexer::{LONGEST_TEXT, LexFault, tokens};
use cb_lex::raw::proof::RawProofs;
use cb_lex::raw::text::RawText;
use cb_lex::token::{Place, Token};
use cb_spec::system::System;
use cb_spelled::laws::tokens_are_bytes;
use cb_spelled_texts::laws::spelled_is_spelled_text;
use cb_systems::whole::{IllFormed, well_formed};
use cb_text_laws::laws::{ends_are_more, text_is_typed};
use std::alloc::Global;

/// Why a text is not judged, by the first of these that fits. Want of memory is `Memory` alone, in no other variant.
#[derive(Drop)]
pub enum TextFault {
    /// The bytes are not cut into tokens.
    Lex(LexFault),
    /// The tokens are no text, or what follows the text are no proofs.
    Syntax(SyntaxFault),
    /// The least code that occurs in the text, at its first place. Codes are described in docs/LANGUAGE.md.
    Ill { code: u8, place: Place },
    /// A limit that the list of obligations passes, or a wrong proof.
    Judge(JudgeFault),
    /// Memory was wanting.
    Memory,
}

/// A text with its proofs.
#[derive(Drop)]
pub struct Read {
    pub text: RawText,
    pub proofs: RawProofs,
}

/// The text and the proofs that the bytes spell.
///
/// # Errors
/// `Lex` with the first fault of the bytes; else `Syntax` with the first fault of the text, or of its proofs; `Memory`.
pub fn read_bytes(alloc: Global, bytes: &[u8]) -> Result<Read, TextFault>
    requires { length bytes.now ≤ LONGEST_TEXT }
    ensures read { IfOk result (λ r. IsRead bytes.now r.text r.proofs) }
    ensures fault { IfErr result (IsTextFault bytes.now) }
{
    match tokens(alloc, bytes) {
        Ok(tokens) => read_tokens(alloc, bytes, &tokens),
        Err(fault) => Err(lexical(bytes, fault)),
    }
}

// A fault of the bytes.
fn lexical(_bytes: &[u8], fault: LexFault) -> TextFault
    requires { IsFirstFault _bytes.now fault }
    ensures { IsTextFault _bytes.now result }
{
    match fault {
        LexFault::BadByte(place) => TextFault::Lex(LexFault::BadByte(place)),
        LexFault::LongNumber(place) => TextFault::Lex(LexFault::LongNumber(place)),
        LexFault::OpenComment(place) => TextFault::Lex(LexFault::OpenComment(place)),
        LexFault::Memory(_) => TextFault::Memory,
    }
}

// The text and the proofs that the tokens spell, which are cut from the bytes.
fn read_tokens(alloc: Global, bytes: &[u8], tokens: &[Token]) -> Result<Read, TextFault>
    requires { Lexes bytes.now start (Ok tokens.now) }
    ensures read { IfOk result (λ r. IsRead bytes.now r.text r.proofs) }
    ensures fault { IfErr result (IsTextFault bytes.now) }
{
    match text(alloc, tokens) {
        Ok((text, at)) => read_proofs(alloc, bytes, tokens, text, at),
        Err(fault) => Err(misread(bytes, fault)),
    }
}

// The text with the proofs that the tokens from this place on spell.
fn read_proofs(
    alloc: Global,
    bytes: &[u8],
    tokens: &[Token],
    text: RawText,
    at: usize,
) -> Result<Read, TextFault>
    requires cut { Lexes bytes.now start (Ok tokens.now) }
    requires spelled { SpellsText tokens.now at text }
    requires within { at < length tokens.now }
    ensures read { IfOk result (λ r. IsRead bytes.now r.text r.proofs) }
    ensures fault { IfErr result (IsTextFault bytes.now) }
{
    match proofs(alloc, tokens, at) {
        Ok((proofs, _)) => Ok(Read { text, proofs }),
        Err(fault) => Err(misread(bytes, fault)),
    }
}

// A fault of the tokens.
fn misread(_bytes: &[u8], fault: SyntaxFault) -> TextFault
    requires { IsMisread _bytes.now fault }
    ensures { IsTextFault _bytes.now result }
{
    match fault {
        SyntaxFault::Syntax(place) => TextFault::Syntax(SyntaxFault::Syntax(place)),
        SyntaxFault::Mixed(place) => TextFault::Syntax(SyntaxFault::Mixed(place)),
        SyntaxFault::Deep(place) => TextFault::Syntax(SyntaxFault::Deep(place)),
        SyntaxFault::Memory => TextFault::Memory,
    }
}

/// The system that is made of a text.
///
/// # Errors
/// `Ill` with the least code that occurs in the text, at its first place; `Memory`.
pub fn system_of(alloc: Global, bytes: &[u8], read: &Read) -> Result<System, TextFault>
    requires fits { length bytes.now ≤ LONGEST_TEXT }
    requires read { IsRead bytes.now read.now.text read.now.proofs }
    ensures well { IfOk result (λ y. IsWell read.now.text y) }
    ensures typed { IfOk result (λ y. Typed y) }
    ensures fault { IfErr result (IsTextFault bytes.now) }
{
    match well_formed(alloc, &read.text) {
        Ok(system) => {
            tokens_are_bytes();
            spelled_is_spelled_text();
            ends_are_more();
            text_is_typed();
            Ok(system)
        }
        Err(IllFormed::Fault { code, place }) => Err(TextFault::Ill { code, place }),
        Err(IllFormed::Memory) => Err(TextFault::Memory),
    }
}
