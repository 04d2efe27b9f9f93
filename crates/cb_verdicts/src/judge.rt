//! The verdict on each obligation.

ghost use Rattle.std.specs.Prelude.{◌≡◌, None, [], IfOk, OnOk, IfErr};
ghost use Rattle.std.specs.Option.{option_copied};
ghost use Rattle.cb_term.specs.Table.{sizes_of};
ghost use Rattle.cb_seq.specs.Validity.{claim_of};
ghost use Rattle.cb_verdicts.specs.Proofs.{keys_of, first_wrong};
ghost use Rattle.cb_arguments.specs.Scopes.{symbols_of};
ghost use Rattle.cb_verdicts.specs.Verdicts as spec;
ghost use Rattle.cb_verdicts.specs.Given.{Finds, Refuses, cert_at};

use crate::certificates::cert_of;
use crate::names::key;
use crate::places::{ProofFault, places};
use cb_arguments::scope::{Symbols, symbols};
use cb_check::laws::derives_without_bad;
use cb_check::walk::{CheckFault, check};
use cb_forms::table::Table;
use cb_lex::raw::proof::{RawCert, RawProof};
use cb_seq::sequent::{ObName, Obligation};
use cb_spec::system::System;
use cb_term::Memory;
use cb_term::table::SetTable;
use cb_trace::verdict::Verdict;
use std::alloc::{AllocError, Global};

// The certificate of the proof at the place.
fn proof_at(proofs: &[RawProof], place: Option<usize>) -> Option<&RawCert>
    ensures { option_copied result ≡ cert_at proofs.now place }
{
    let proof = proofs.get(place?)?;
    Some(&proof.cert)
}

// The verdict on an obligation whose proof is this.
fn verdict_on(
    alloc: Global,
    sets: &SetTable,
    symbols: &Symbols,
    obligation: &Obligation,
    proof: Option<&RawCert>,
) -> Result<Verdict, Memory>
    ensures { IfOk result (λ v. v ≡ spec.verdict_on (sizes_of sets.now) symbols.now (claim_of obligation.now.sequent) (option_copied proof.entry)) }
{
    let Some(raw) = proof else {
        return Ok(Verdict::Missing);
    };
    let cert = cert_of(alloc, symbols, raw)?;
    derives_without_bad();
    match check(alloc, sets, &obligation.sequent, &cert) {
        Ok(()) => Ok(Verdict::Proved),
        Err(CheckFault::Bad { node }) => Ok(Verdict::Bad { node }),
        Err(CheckFault::Memory) => Err(AllocError),
    }
}

fn copy_obligation_name(alloc: Global, name: &ObName) -> Result<ObName, Memory>
    ensures { IfOk result (λ n. n ≡ name.now) }
{
    let part = match &name.part {
        Some(part) => Some(part.copy(alloc)?),
        None => None,
    };
    Ok(ObName {
        group: name.group,
        owner: name.owner.copy(alloc)?,
        part,
        number: name.number,
    })
}

// The verdict on each obligation, in order. The table tells the places of the proofs.
fn all_verdicts(
    alloc: Global,
    sets: &SetTable,
    symbols: &Symbols,
    list: &[Obligation],
    proofs: &[RawProof],
    places: &Table<usize>,
) -> Result<Vec<(ObName, Verdict)>, Memory>
    requires { Finds places.now proofs.now }
    ensures { IfOk result (λ lines. lines.items ≡ spec.verdicts (sizes_of sets.now) symbols.now proofs.now list.now) }
{
    let mut lines = Vec::new(alloc);
    for obligation in list {
        let text = key(alloc, &obligation.name)?;
        let proof = proof_at(proofs, places.find(&text));
        let verdict = verdict_on(alloc, sets, symbols, obligation, proof)?;
        lines.push((copy_obligation_name(alloc, &obligation.name)?, verdict))?;
    }
    Ok(lines)
}

/// The verdict on each obligation, in order, by the proofs of a text. `symbols` and `sets` are those of the text's system.
///
/// # Errors
/// `Unknown` or `Double` with the name of the first proof that is of no obligation, or of one that an earlier proof is of;
/// `Memory`.
pub fn verdicts(
    alloc: Global,
    sets: &SetTable,
    symbols: &Symbols,
    list: &[Obligation],
    proofs: &[RawProof],
) -> Result<Vec<(ObName, Verdict)>, ProofFault>
    ensures fine { OnOk result (first_wrong (keys_of list.now) [] proofs.now ≡ None) }
    ensures lines { IfOk result (λ lines. lines.items ≡ spec.verdicts (sizes_of sets.now) symbols.now proofs.now list.now) }
    ensures fault { IfErr result (Refuses (keys_of list.now) proofs.now) }
{
    let places = places(alloc, list, proofs)?;
    Ok(all_verdicts(alloc, sets, symbols, list, proofs, &places)?)
}

/// The verdict on each obligation of the system, in order, by the proofs of a text. Errors as those of `verdicts`.
pub fn verdicts_in(
    alloc: Global,
    system: &System,
    list: &[Obligation],
    proofs: &[RawProof],
) -> Result<Vec<(ObName, Verdict)>, ProofFault>
    ensures fine { OnOk result (first_wrong (keys_of list.now) [] proofs.now ≡ None) }
    ensures lines { IfOk result (λ lines. lines.items ≡ spec.verdicts (sizes_of system.now.sets) (symbols_of system.now) proofs.now list.now) }
    ensures fault { IfErr result (Refuses (keys_of list.now) proofs.now) }
{
    let symbols = symbols(alloc, system)?;
    verdicts(alloc, &system.sets, &symbols, list, proofs)
}
