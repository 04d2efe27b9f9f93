//! Names of obligations as proofs write them.

ghost use Rattle.std.specs.Prelude.{◌≡◌, IfOk};
ghost use Rattle.cb_trace.specs.Texts.{obligation_text};
ghost use Rattle.cb_verdicts.specs.Proofs as spec;

use cb_arguments::scope::copy_name;
use cb_lex::raw::proof::{RawNumber, RawObligation};
use cb_seq::sequent::{Group, ObName};
use cb_term::Memory;
use cb_trace::listing::put_obligation;
use std::alloc::Global;

/// The number; a negative one, which the lexer never gives, counts as 0.
pub(crate) fn number(number: RawNumber) -> u64
    ensures { result ≡ spec.count number }
{
    match u64::try_from(number.value) {
        Ok(n) => n,
        Err(_) => 0,
    }
}

fn group_of(word: &[u8]) -> Group
    ensures { result ≡ spec.group_of word.now }
{
    if word == b"INIT".as_slice() {
        Group::Init
    } else if word == b"OP".as_slice() {
        Group::Op
    } else if word == b"LIVE".as_slice() {
        Group::Live
    } else if word == b"LOOP".as_slice() {
        Group::Loop
    } else {
        Group::Match
    }
}

/// The obligation that a proof names.
pub fn obligation_of(alloc: Global, name: &RawObligation) -> Result<ObName, Memory>
    ensures { IfOk result (λ n. n ≡ spec.obligation_of name.now) }
{
    match name {
        RawObligation::OfOwner {
            group,
            owner,
            number: n,
        } => Ok(ObName {
            group: group_of(group.text.as_slice()),
            owner: copy_name(alloc, owner)?,
            part: None,
            number: number(*n),
        }),
        RawObligation::OfStart {
            place: _,
            owner,
            number: n,
        } => Ok(ObName {
            group: Group::Start,
            owner: copy_name(alloc, owner)?,
            part: None,
            number: number(*n),
        }),
        RawObligation::OfPart {
            group,
            owner,
            part,
            number: n,
        } => Ok(ObName {
            group: group_of(group.text.as_slice()),
            owner: copy_name(alloc, owner)?,
            part: Some(copy_name(alloc, part)?),
            number: number(*n),
        }),
        RawObligation::OfInitialisation {
            group,
            owner,
            place: _,
            number: n,
        } => Ok(ObName {
            group: group_of(group.text.as_slice()),
            owner: copy_name(alloc, owner)?,
            part: None,
            number: number(*n),
        }),
    }
}

/// The name as it is printed, by which it is told.
pub fn key(alloc: Global, name: &ObName) -> Result<Vec<u8>, Memory>
    ensures { IfOk result (λ v. v.items ≡ obligation_text name.now) }
{
    let mut text = Vec::new(alloc);
    put_obligation(alloc, &mut text, name)?;
    Ok(text)
}
