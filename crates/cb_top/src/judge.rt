//! What a request answers on the bytes of its files.
ghost use Rattle.std.specs.Prelude.{◌≡◌, ℕ, ◌≤◌, ◌<◌, List, [], length, map, string_bytes, IfOk, IfErr, slice_index_or};
ghost use Rattle.cb_edge.specs.Edge.{StaysSure};
ghost use Rattle.cb_trace.specs.Texts.{obligation_text, listing_text as text_of};
ghost use Rattle.cb_accept.specs.declared.read.TextFault.TheVariants as text_fault;
ghost use Rattle.cb_top.specs.Change.{sources};
ghost use Rattle.cb_top.specs.Stop.{HasFileCause};
ghost use Rattle.cb_words.specs.declared.request.Request.TheVariants as request;
ghost use Rattle.cb_top.specs.Outcome.{answer_of, ill_formed, ill_answer, limit_answer, verdict_answer, place_text, IsLexicalAnswer, IsSyntaxAnswer, IsRefusal, IsOutcome, IsOutcomeOf, read_line};

use crate::MAX_BYTES;
use crate::code::{code_name, which_word};
use crate::outcome::{Ending, Outcome, Refusal, Stop};
use crate::run::run_bytes;
use crate::sources::{Unread, read_files};
use cb_accept::accept::{accept_text, list_text};
use cb_accept::read::TextFault;
use cb_edge::Files;
use cb_grammar::SyntaxFault;
use cb_judged::judge::JudgeFault;
use cb_lex::lexer::LexFault;
use cb_lex::token::Place;
use cb_seq::sequent::{ObName, Obligation};
use cb_spec::system::System;
use cb_trace::listing::listing_text;
use cb_trace::verdict::{Verdict, open_count, verdict_text};
use cb_verdicts::names::key;
use cb_words::Request;
use std::alloc::{AllocError, Global};

/// The outcome of a request on its files, whose names are these.
pub(crate) fn answer<F: Files>(
    alloc: Global,
    request: &Request,
    names: &[String],
    files: &mut F,
) -> Result<Outcome, Stop>
    ensures outcome { IfOk result (λ o. IsOutcomeOf request.now (map string_bytes names.now) (F.held files.old) (answer_of o)) }
    ensures sure { StaysSure (F.sure files.old) (F.sure files.new) (F.faults files.old) (F.faults files.new) }
    ensures unread { IfErr result (λ stop. HasFileCause (sources F.held F.faults files.old files.new) (map string_bytes names.now) stop) }
{
    match read_files(alloc, files, names) {
        Ok(bytes) => Ok(judge_bytes(alloc, request, &bytes)?),
        Err(Unread::Failed(i)) => Err(Stop::Unread(unread_line(alloc, names, i)?)),
        Err(Unread::TooLong) => Ok(too_long(alloc, request)?),
        Err(Unread::Memory) => Err(Stop::Memory),
    }
}

// The line for a file that can't be read.
fn unread_line(alloc: Global, names: &[String], place: usize) -> Result<Vec<u8>, AllocError>
    requires { place < length names.now }
    ensures { IfOk result (λ v. v.items ≡ read_line (slice_index_or (map string_bytes names.now) place [])) }
{
    let mut line = b"fault read ".to_vec(alloc)?;
    line.extend_from_slice(names[place].as_bytes())?;
    line.push(b'\n')?;
    Ok(line)
}

// The outcome of too many bytes.
fn too_long(alloc: Global, request: &Request) -> Result<Outcome, AllocError>
    ensures { IfOk result (λ o. (bytes : List ℕ) → MAX_BYTES < length bytes → IsOutcome request.now bytes (answer_of o)) }
{
    limit_fault(alloc, b"bytes")
}

// The outcome of bytes that are not too many.
fn judge_bytes(alloc: Global, request: &Request, bytes: &[u8]) -> Result<Outcome, AllocError>
    requires { length bytes.now ≤ MAX_BYTES }
    ensures { IfOk result (λ o. IsOutcome request.now bytes.now (answer_of o)) }
{
    match request {
        Request::List { .. } => list_bytes(alloc, bytes),
        Request::Check { .. } => check_bytes(alloc, bytes),
        Request::Sim { limit, seed, .. } => run_bytes(alloc, bytes, *limit, *seed),
    }
}

// The outcome of `list`.
fn list_bytes(alloc: Global, bytes: &[u8]) -> Result<Outcome, AllocError>
    requires { length bytes.now ≤ MAX_BYTES }
    ensures { IfOk result (λ o. (files : List (List ℕ)) → IsOutcome (request.List files) bytes.now (answer_of o)) }
{
    match list_text(alloc, bytes) {
        Ok(listed) => listing(alloc, &listed.system, &listed.obligations),
        Err(fault) => refusal(alloc, fault),
    }
}

// The outcome of `check`.
fn check_bytes(alloc: Global, bytes: &[u8]) -> Result<Outcome, AllocError>
    requires { length bytes.now ≤ MAX_BYTES }
    ensures { IfOk result (λ o. (files : List (List ℕ)) → IsOutcome (request.Check files) bytes.now (answer_of o)) }
{
    match accept_text(alloc, bytes) {
        Ok(judged) => verdict_outcome(alloc, judged.lines()),
        Err(fault) => refusal(alloc, fault),
    }
}

// The outcome of a text that isn't judged.
pub(crate) fn refusal(alloc: Global, fault: TextFault) -> Result<Outcome, AllocError>
    ensures { IfOk result (λ o. IsRefusal fault (answer_of o)) }
{
    match fault {
        TextFault::Lex(fault) => miscut(alloc, fault),
        TextFault::Syntax(fault) => misread(alloc, fault),
        TextFault::Ill { code, place } => coded_fault(alloc, code, place),
        TextFault::Judge(fault) => unjudged(alloc, fault),
        TextFault::Memory => Err(AllocError),
    }
}

// The outcome of a fault of the bytes.
fn miscut(alloc: Global, fault: LexFault) -> Result<Outcome, AllocError>
    ensures { IfOk result (λ o. IsLexicalAnswer fault (answer_of o)) }
{
    match fault {
        LexFault::BadByte(place) => placed_fault(alloc, b"BadByte ", place),
        LexFault::LongNumber(place) => placed_fault(alloc, b"LongNumber ", place),
        LexFault::OpenComment(place) => placed_fault(alloc, b"OpenComment ", place),
        LexFault::Memory(fault) => Err(fault),
    }
}

// The outcome of a fault of the syntax.
fn misread(alloc: Global, fault: SyntaxFault) -> Result<Outcome, AllocError>
    ensures { IfOk result (λ o. IsSyntaxAnswer fault (answer_of o)) }
{
    match fault {
        SyntaxFault::Syntax(place) => placed_fault(alloc, b"Syntax ", place),
        SyntaxFault::Mixed(place) => placed_fault(alloc, b"Mixed ", place),
        SyntaxFault::Deep(place) => placed_fault(alloc, b"Deep ", place),
        SyntaxFault::Memory => Err(AllocError),
    }
}

// The outcome of a system without verdicts.
fn unjudged(alloc: Global, fault: JudgeFault) -> Result<Outcome, AllocError>
    ensures { IfOk result (λ o. IsRefusal (text_fault.Judge fault) (answer_of o)) }
{
    match fault {
        JudgeFault::Limit(which) => limit_fault(alloc, which_word(which)),
        JudgeFault::UnknownProof(name) => proof_fault(alloc, b"UnknownProof ", &name),
        JudgeFault::DoubleProof(name) => proof_fault(alloc, b"DoubleProof ", &name),
        JudgeFault::Memory => Err(AllocError),
    }
}

// The obligations, printed.
fn listing(alloc: Global, system: &System, list: &[Obligation]) -> Result<Outcome, AllocError>
    ensures { IfOk result (λ o. answer_of o ≡ record { status = 0; out = text_of system.now.sets.sets.items list.now; err = [] }) }
{
    Ok(Outcome::Text {
        ending: Ending::Done,
        text: listing_text(alloc, &system.sets, list)?,
    })
}

// The outcome of these verdicts.
pub(crate) fn verdict_outcome(
    alloc: Global,
    lines: &[(ObName, Verdict)],
) -> Result<Outcome, AllocError>
    ensures { IfOk result (λ o. answer_of o ≡ verdict_answer lines.now) }
{
    let text = verdict_text(alloc, lines)?;
    let ending = if open_count(lines) == 0 {
        Ending::Done
    } else {
        Ending::Open
    };
    Ok(Outcome::Text { ending, text })
}

// The outcome of a wrong proof of this name.
fn proof_fault(alloc: Global, code: &[u8], name: &ObName) -> Result<Outcome, AllocError>
    ensures { IfOk result (λ o. answer_of o ≡ ill_formed code.now (obligation_text name.now)) }
{
    fault(alloc, code, &key(alloc, name)?)
}

// The outcome of a text with a fault of this code.
fn coded_fault(alloc: Global, code: u8, place: Place) -> Result<Outcome, AllocError>
    ensures { IfOk result (λ o. answer_of o ≡ ill_answer (record { code = code; place = place })) }
{
    let mut text = b"W".to_vec(alloc)?;
    let digits = format!(in alloc; "{}", code)?;
    text.extend_from_slice(digits.as_bytes())?;
    text.push(b' ')?;
    text.extend_from_slice(code_name(code))?;
    text.push(b' ')?;
    placed_fault(alloc, &text, place)
}

// The outcome of what passes a limit.
fn limit_fault(alloc: Global, word: &[u8]) -> Result<Outcome, AllocError>
    ensures { IfOk result (λ o. answer_of o ≡ limit_answer word.now) }
{
    let mut line = b"fault limit ".to_vec(alloc)?;
    line.extend_from_slice(word)?;
    line.push(b'\n')?;
    Ok(Outcome::Fault {
        refusal: Refusal::Limit,
        line,
    })
}

// The outcome of a text that is ill formed at a place.
fn placed_fault(alloc: Global, code: &[u8], place: Place) -> Result<Outcome, AllocError>
    ensures { IfOk result (λ o. answer_of o ≡ ill_formed code.now (place_text place)) }
{
    let text = format!(in alloc; "{}:{}", place.line, place.col)?;
    fault(alloc, code, text.as_bytes())
}

// The outcome of a text that is ill formed.
fn fault(alloc: Global, code: &[u8], subject: &[u8]) -> Result<Outcome, AllocError>
    ensures { IfOk result (λ o. answer_of o ≡ ill_formed code.now subject.now) }
{
    let mut line = b"fault ".to_vec(alloc)?;
    line.extend_from_slice(code)?;
    line.extend_from_slice(subject)?;
    line.push(b'\n')?;
    Ok(Outcome::Fault {
        refusal: Refusal::IllFormed,
        line,
    })
}
