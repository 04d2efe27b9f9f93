//! The places of proofs by the names of their obligations.

ghost use Rattle.std.specs.Prelude.{◌≡◌, None, [], IfOk, OnOk, IfErr};
ghost use Rattle.cb_forms.specs.Find.{inside};
ghost use Rattle.cb_verdicts.specs.Proofs as spec;
ghost use Rattle.cb_verdicts.specs.Given.{HasNames, Finds, IsRight, IsWrong, Refuses};

use crate::names::{key, obligation_of};
use cb_forms::table::Table;
use cb_lex::raw::proof::RawProof;
use cb_seq::sequent::{ObName, Obligation};
use cb_term::Memory;
use std::alloc::Global;

/// Why the proofs of a text are not those of its obligations.
#[derive(Drop)]
pub enum ProofFault {
    /// The first wrong proof has this name, which is that of no obligation.
    Unknown(ObName),
    /// The first wrong proof has this name, which an earlier one has.
    Double(ObName),
    /// Want of memory.
    Memory,
}

impl From<Memory> for ProofFault {
    ghost use Rattle.cb_verdicts.specs.declared.places.ProofFault.TheVariants as fault;

    ghost from_gives = { λ _ e. e ≡ fault.Memory };

    fn from(_: Memory) -> ProofFault {
        ProofFault::Memory
    }
}

// The names of the obligations.
fn known_names(alloc: Global, list: &[Obligation]) -> Result<Table<()>, Memory>
    ensures { IfOk result (λ known. HasNames known (spec.keys_of list.now)) }
{
    let mut known = Table::new(alloc);
    for obligation in list {
        let name = key(alloc, &obligation.name)?;
        known.enter(alloc, &name, ())?;
    }
    Ok(known)
}

// Enters the place of a proof, unless the proof is wrong.
fn enter_place(
    alloc: Global,
    known: &Table<()>,
    places: &mut Table<usize>,
    at: usize,
    proof: &RawProof,
) -> Result<(), ProofFault>
    ensures right { OnOk result (IsRight known.now places.old proof.now) }
    ensures entered { OnOk result (places.new ≡ inside (spec.key proof.now) at places.old) }
    ensures fault { IfErr result (IsWrong known.now places.old proof.now) }
{
    let name = obligation_of(alloc, &proof.name)?;
    let text = key(alloc, &name)?;
    if known.find(&text).is_none() {
        return Err(ProofFault::Unknown(name));
    }
    if places.find(&text).is_some() {
        return Err(ProofFault::Double(name));
    }
    Ok(places.enter(alloc, &text, at)?)
}

/// The places of the proofs by the names of their obligations.
///
/// # Errors
/// `Unknown` or `Double` with the name of the first proof that is of no obligation, or of one that an earlier proof is of;
/// `Memory`.
pub fn places(
    alloc: Global,
    list: &[Obligation],
    proofs: &[RawProof],
) -> Result<Table<usize>, ProofFault>
    ensures fine { OnOk result (spec.first_wrong (spec.keys_of list.now) [] proofs.now ≡ None) }
    ensures finds { IfOk result (λ t. Finds t proofs.now) }
    ensures fault { IfErr result (Refuses (spec.keys_of list.now) proofs.now) }
{
    let known = known_names(alloc, list)?;
    let mut places = Table::new(alloc);
    for i in 0..proofs.len() {
        enter_place(alloc, &known, &mut places, i, &proofs[i])?;
    }
    Ok(places)
}
