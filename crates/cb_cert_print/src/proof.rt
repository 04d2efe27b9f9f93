//! Printing proofs.

ghost use Rattle.std.specs.Prelude.{◌≡◌, ◌++◌, IfOk, OnOk};
ghost use Rattle.cb_cert_print.specs.Proofs as text;

use crate::Memory;
use crate::cert::put_cert;
use cb_amn_print::{put, put_name, put_number};
use cb_lex::raw::name::RawName;
use cb_lex::raw::proof::{RawObligation, RawProof};
use std::alloc::Global;

/// The text of a proof, which is read again as this proof, places aside.
pub fn print_proof(alloc: Global, raw: &RawProof) -> Result<Vec<u8>, Memory>
    ensures { IfOk result (λ out. out.items ≡ text.proof_text raw.now) }
{
    let mut out = Vec::new(alloc);
    put(&mut out, b"PROOF ")?;
    put_obligation(alloc, &mut out, &raw.name)?;
    put_cert(alloc, &mut out, &raw.cert)?;
    put(&mut out, b"END ")?;
    Ok(out)
}

// a name with `:` behind it
fn put_part(alloc: Global, out: &mut Vec<u8>, name: &RawName) -> Result<(), Memory>
    ensures { OnOk result (out.new.items ≡ out.old.items ++ text.part_text name.now) }
{
    put_name(alloc, out, name)?;
    put(out, b": ")
}

fn put_obligation(alloc: Global, out: &mut Vec<u8>, name: &RawObligation) -> Result<(), Memory>
    ensures { OnOk result (out.new.items ≡ out.old.items ++ text.obligation_text name.now) }
{
    match name {
        RawObligation::OfOwner {
            group,
            owner,
            number,
        } => {
            put_part(alloc, out, group)?;
            put_part(alloc, out, owner)?;
            put_number(alloc, out, number.value)
        }
        RawObligation::OfStart { owner, number, .. } => {
            put(out, b"START : ")?;
            put_part(alloc, out, owner)?;
            put_number(alloc, out, number.value)
        }
        RawObligation::OfPart {
            group,
            owner,
            part,
            number,
        } => {
            put_part(alloc, out, group)?;
            put_part(alloc, out, owner)?;
            put_part(alloc, out, part)?;
            put_number(alloc, out, number.value)
        }
        RawObligation::OfInitialisation {
            group,
            owner,
            number,
            ..
        } => {
            put_part(alloc, out, group)?;
            put_part(alloc, out, owner)?;
            put(out, b"INITIALISATION : ")?;
            put_number(alloc, out, number.value)
        }
    }
}
