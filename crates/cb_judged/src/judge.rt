//! A whole system judged.

ghost use Rattle.std.specs.Prelude.{◌≡◌, None, IfOk, IfErr};
ghost use Rattle.cb_spec.specs.Typed.{Typed};
ghost use Rattle.cb_owed.specs.Lists.{AreOwed};
ghost use Rattle.cb_owed.specs.Limits.{first_limit};
ghost use Rattle.cb_judged.specs.Judging.{AreJudged, IsUnjudged};

use crate::judged::Judged;
use cb_check::laws::{derived_is_valid, derives_without_bad};
use cb_controlled_laws::laws::typed_systems_owe_kinded;
use cb_lex::raw::proof::RawProof;
use cb_owed::list::all_obligations;
use cb_seq::sequent::{ObName, Obligation};
use cb_spec::system::System;
use cb_trace::verdict::Verdict;
use cb_typed::laws::typed_machines_owe_kinded;
use cb_verdicts::judge::verdicts_in;
use cb_verdicts::places::ProofFault;
use cb_wp::limits::{MakeFault, Which};
use std::alloc::Global;

/// Why a system isn't judged.
#[derive(Drop)]
pub enum JudgeFault {
    /// The first limit that the list of obligations passes.
    Limit(Which),
    /// The first wrong proof has this name, which is that of no obligation.
    UnknownProof(ObName),
    /// The first wrong proof has this name, which an earlier one has.
    DoubleProof(ObName),
    /// Want of memory.
    Memory,
}

// The lines of a system whose obligations these are.
fn judged_list(
    alloc: Global,
    system: &System,
    list: &[Obligation],
    proofs: &[RawProof],
) -> Result<Vec<(ObName, Verdict)>, JudgeFault>
    requires owed { AreOwed system.now list.now }
    requires within { first_limit system.now ≡ None }
    ensures lines { IfOk result (λ lines. AreJudged system.now proofs.now lines.items) }
    ensures fault { IfErr result (IsUnjudged system.now proofs.now) }
{
    match verdicts_in(alloc, system, list, proofs) {
        Ok(lines) => Ok(lines),
        Err(ProofFault::Unknown(name)) => Err(JudgeFault::UnknownProof(name)),
        Err(ProofFault::Double(name)) => Err(JudgeFault::DoubleProof(name)),
        Err(ProofFault::Memory) => Err(JudgeFault::Memory),
    }
}

fn judged_lines(
    alloc: Global,
    system: &System,
    proofs: &[RawProof],
) -> Result<Vec<(ObName, Verdict)>, JudgeFault>
    requires { Typed system.now }
    ensures lines { IfOk result (λ lines. AreJudged system.now proofs.now lines.items) }
    ensures fault { IfErr result (IsUnjudged system.now proofs.now) }
{
    match all_obligations(alloc, system) {
        Ok(list) => judged_list(alloc, system, &list, proofs),
        Err(MakeFault::Limit(which)) => Err(JudgeFault::Limit(which)),
        Err(MakeFault::Memory) => Err(JudgeFault::Memory),
    }
}

/// Judges a typed system by the proofs of its text.
///
/// # Errors
/// `Limit` with the first limit that the list of obligations passes; else `UnknownProof` or `DoubleProof` with the name of the
/// first proof that is of no obligation, or of one that an earlier proof is of; `Memory`.
pub fn judge(alloc: Global, system: System, proofs: &[RawProof]) -> Result<Judged, JudgeFault>
    requires { Typed system }
    ensures system { IfOk result (λ j. j.system ≡ system) }
    ensures lines { IfOk result (λ j. AreJudged system proofs.now j.lines) }
    ensures fault { IfErr result (IsUnjudged system proofs.now) }
{
    let lines = judged_lines(alloc, &system, proofs)?;
    derived_is_valid();
    derives_without_bad();
    typed_machines_owe_kinded();
    typed_systems_owe_kinded();
    Ok(Judged::new(system, lines))
}
