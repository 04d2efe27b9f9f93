//! Texts judged, and what their systems owe.

ghost use Rattle.std.specs.Prelude.{◌≡◌, ◌≤◌, [], length, None, IfOk, IfErr, OnOk};
ghost use Rattle.cb_spec.specs.Typed.{Typed};
ghost use Rattle.cb_owed.specs.Lists.{AreOwed};
ghost use Rattle.cb_owed.specs.Limits.{first_limit};
ghost use Rattle.cb_wp.specs.Limits.{Tells};
ghost use Rattle.cb_verdicts.specs.Proofs.{keys_of, first_wrong};
ghost use Rattle.cb_accept.specs.Accepting.{IsRead, IsWell, IsJudgedText, IsListedText, IsTextFault};

use crate::read::{Read, TextFault, read_bytes, system_of};
use cb_judged::judge::{JudgeFault, judge};
use cb_judged::judged::Judged;
use cb_lex::lexer::LONGEST_TEXT;
use cb_owed::list::all_obligations;
use cb_seq::sequent::Obligation;
use cb_spec::system::System;
use cb_verdicts::places::{ProofFault, places};
use cb_wp::limits::MakeFault;
use std::alloc::Global;

/// Reads and judges a text, that is at most 4,194,304 bytes.
///
/// # Errors
/// The first that fits: `Lex` with the first fault of the bytes; `Syntax` with the first of the text, or of its proofs; `Ill` with the
/// least code in the text at its first place; `Judge` with the first limit that the list of obligations passes, or with the first proof
/// that is of no obligation or of one that an earlier proof is of; `Memory`.
pub fn accept_text(alloc: Global, bytes: &[u8]) -> Result<Judged, TextFault>
    requires { length bytes.now ≤ LONGEST_TEXT }
    ensures judged { IfOk result (λ j. IsJudgedText bytes.now j) }
    ensures fault { IfErr result (IsTextFault bytes.now) }
{
    let read = read_bytes(alloc, bytes)?;
    let system = system_of(alloc, bytes, &read)?;
    judge_read(alloc, bytes, &read, system)
}

// The system of the text, judged by the text's proofs.
fn judge_read(
    alloc: Global,
    _bytes: &[u8],
    read: &Read,
    system: System,
) -> Result<Judged, TextFault>
    requires read { IsRead _bytes.now read.now.text read.now.proofs }
    requires well { IsWell read.now.text system }
    requires typed { Typed system }
    ensures judged { IfOk result (λ j. IsJudgedText _bytes.now j) }
    ensures fault { IfErr result (IsTextFault _bytes.now) }
{
    match judge(alloc, system, read.proofs.as_slice()) {
        Ok(judged) => Ok(judged),
        Err(JudgeFault::Memory) => Err(TextFault::Memory),
        Err(JudgeFault::Limit(which)) => Err(TextFault::Judge(JudgeFault::Limit(which))),
        Err(JudgeFault::UnknownProof(name)) => {
            Err(TextFault::Judge(JudgeFault::UnknownProof(name)))
        }
        Err(JudgeFault::DoubleProof(name)) => Err(TextFault::Judge(JudgeFault::DoubleProof(name))),
    }
}

/// A system with all that it owes.
#[derive(Drop)]
pub struct Listed {
    pub system: System,
    pub obligations: Vec<Obligation>,
}

/// The system of a text, that is at most 4,194,304 bytes, and what it owes.
///
/// # Errors
/// As those of `accept_text`.
pub fn list_text(alloc: Global, bytes: &[u8]) -> Result<Listed, TextFault>
    requires { length bytes.now ≤ LONGEST_TEXT }
    ensures listed { IfOk result (λ l. IsListedText bytes.now l.system l.obligations.items) }
    ensures fault { IfErr result (IsTextFault bytes.now) }
{
    let read = read_bytes(alloc, bytes)?;
    let system = system_of(alloc, bytes, &read)?;
    let obligations = list_read(alloc, bytes, &read, &system)?;
    Ok(Listed {
        system,
        obligations,
    })
}

// What the system of the text owes, where no proof of the text is wrong.
fn list_read(
    alloc: Global,
    bytes: &[u8],
    read: &Read,
    system: &System,
) -> Result<Vec<Obligation>, TextFault>
    requires read { IsRead bytes.now read.now.text read.now.proofs }
    requires well { IsWell read.now.text system.now }
    requires typed { Typed system.now }
    ensures listed { IfOk result (λ v. IsListedText bytes.now system.now v.items) }
    ensures fault { IfErr result (IsTextFault bytes.now) }
{
    match all_obligations(alloc, system) {
        Ok(list) => {
            names_are_owed(alloc, bytes, read, system, &list)?;
            Ok(list)
        }
        Err(fault) => Err(unlisted(bytes, read, system, fault)),
    }
}

// A fault of the list of obligations.
fn unlisted(_bytes: &[u8], _read: &Read, _system: &System, fault: MakeFault) -> TextFault
    requires read { IsRead _bytes.now _read.now.text _read.now.proofs }
    requires well { IsWell _read.now.text _system.now }
    requires told { Tells fault (first_limit _system.now) }
    ensures { IsTextFault _bytes.now result }
{
    match fault {
        MakeFault::Limit(which) => TextFault::Judge(JudgeFault::Limit(which)),
        MakeFault::Memory => TextFault::Memory,
    }
}

// Each proof of the text is of an obligation of its own.
fn names_are_owed(
    alloc: Global,
    _bytes: &[u8],
    read: &Read,
    _system: &System,
    list: &[Obligation],
) -> Result<(), TextFault>
    requires read { IsRead _bytes.now read.now.text read.now.proofs }
    requires well { IsWell read.now.text _system.now }
    requires within { first_limit _system.now ≡ None }
    requires owed { AreOwed _system.now list.now }
    ensures right { OnOk result (first_wrong (keys_of list.now) [] read.now.proofs ≡ None) }
    ensures fault { IfErr result (IsTextFault _bytes.now) }
{
    match places(alloc, list, read.proofs.as_slice()) {
        Ok(_) => Ok(()),
        Err(ProofFault::Unknown(name)) => Err(TextFault::Judge(JudgeFault::UnknownProof(name))),
        Err(ProofFault::Double(name)) => Err(TextFault::Judge(JudgeFault::DoubleProof(name))),
        Err(ProofFault::Memory) => Err(TextFault::Memory),
    }
}
