//! What substitutions write: beside each other, and always.

ghost use Rattle.std.specs.Prelude.{◌≡◌, IfOk, OnOk};
ghost use Rattle.cb_forms.specs.Faults.{first};
ghost use Rattle.cb_judge.specs.Writes.{with_target, after, beside, shared, missing};
ghost use Rattle.cb_judge.specs.Sure.{both_sure, with_all, sure};

use crate::names::Entry;
use crate::subst::names_result;
use cb_forms::fault::{Fault, earlier, when};
use cb_forms::table::Table;
use cb_lex::Memory;
use cb_lex::raw::name::RawName;
use cb_lex::raw::subst::{RawSubst, RawSubstNode};
use cb_lex::token::Place;
use std::alloc::Global;

// Where a name stands does not matter once only names are asked for.
const NOWHERE: Place = Place { line: 0, col: 0 };

fn add(alloc: Global, written: &mut Table<Place>, name: &RawName) -> Result<(), Memory>
    ensures { OnOk result (written.new ≡ with_target name.now written.old) }
{
    written.enter(alloc, name.text.as_slice(), name.place)
}

/// Adds what the substitution may write.
pub fn add_targets(
    alloc: Global,
    written: &mut Table<Place>,
    subst: &RawSubst,
) -> Result<(), Memory>
    ensures { OnOk result (written.new ≡ after written.old subst.now) }
{
    match &subst.node {
        RawSubstNode::Skip => Ok(()),
        RawSubstNode::Assign { target, term: _ } => Ok(add(alloc, written, target)?),
        RawSubstNode::Among { target, domain: _ } => Ok(add(alloc, written, target)?),
        RawSubstNode::If { condition: _, then } => Ok(add_targets(alloc, written, then)?),
        RawSubstNode::IfElse {
            condition: _,
            then,
            otherwise,
        } => {
            add_targets(alloc, written, otherwise)?;
            Ok(add_targets(alloc, written, then)?)
        }
        RawSubstNode::Choice(sides) => {
            for side in sides.as_slice() {
                add_targets(alloc, written, side)?;
            }
            Ok(())
        }
        RawSubstNode::Any {
            name: _,
            condition: _,
            body,
        } => Ok(add_targets(alloc, written, body)?),
        RawSubstNode::Parallel(left, right) => {
            add_targets(alloc, written, left)?;
            Ok(add_targets(alloc, written, right)?)
        }
    }
}

// The fault of a target that is written beside, which then is written.
fn write(
    alloc: Global,
    names: &Table<Entry>,
    written: &mut Table<Place>,
    name: &RawName,
) -> Result<Option<Fault>, Memory>
    ensures written { OnOk result (written.new ≡ with_target name.now written.old) }
    ensures fault { IfOk result (λ f. f ≡ first (beside names.now written.old name.now)) }
{
    let text = name.text.as_slice();
    let code = if names_result(&names.find(text)) {
        10
    } else {
        8
    };
    let fault = when(written.find(text).is_some(), code, name.place);
    add(alloc, written, name)?;
    Ok(fault)
}

/// The first fault of a target that is written on two sides of a `||`, `written` being what stands beside the substitution. Adds
/// what the substitution may write.
pub fn add_shared(
    alloc: Global,
    names: &Table<Entry>,
    written: &mut Table<Place>,
    subst: &RawSubst,
) -> Result<Option<Fault>, Memory>
    ensures written { OnOk result (written.new ≡ after written.old subst.now) }
    ensures fault { IfOk result (λ f. f ≡ first (shared names.now written.old subst.now)) }
{
    match &subst.node {
        RawSubstNode::Skip => Ok(None),
        RawSubstNode::Assign { target, term: _ } => Ok(write(alloc, names, written, target)?),
        RawSubstNode::Among { target, domain: _ } => Ok(write(alloc, names, written, target)?),
        RawSubstNode::If { condition: _, then } => Ok(add_shared(alloc, names, written, then)?),
        RawSubstNode::IfElse {
            condition: _,
            then,
            otherwise,
        } => {
            let before = written.len();
            let f = add_shared(alloc, names, written, then)?;
            written.leave(before);
            let g = add_shared(alloc, names, written, otherwise)?;
            add_targets(alloc, written, then)?;
            Ok(earlier(f, g))
        }
        RawSubstNode::Choice(sides) => {
            let before = written.len();
            let mut fault = None;
            for side in sides.as_slice() {
                let f = add_shared(alloc, names, written, side)?;
                written.leave(before);
                fault = earlier(fault, f);
            }
            add_targets(alloc, written, subst)?;
            Ok(fault)
        }
        RawSubstNode::Any {
            name: _,
            condition: _,
            body,
        } => Ok(add_shared(alloc, names, written, body)?),
        RawSubstNode::Parallel(left, right) => {
            let f = add_shared(alloc, names, written, left)?;
            let g = add_shared(alloc, names, written, right)?;
            Ok(earlier(f, g))
        }
    }
}

// The names of both, where there are two.
fn in_both(
    alloc: Global,
    common: Option<Table<Place>>,
    own: Table<Place>,
) -> Result<Table<Place>, Memory>
    ensures { IfOk result (λ w. w ≡ both_sure common own) }
{
    match common {
        None => Ok(own),
        Some(others) => {
            let mut both = Table::new(alloc);
            both.add_common(alloc, &others, &own, NOWHERE)?;
            Ok(both)
        }
    }
}

fn add_all(
    alloc: Global,
    written: &mut Table<Place>,
    common: &Option<Table<Place>>,
) -> Result<(), Memory>
    ensures { OnOk result (written.new ≡ with_all written.old common.now) }
{
    match common {
        None => Ok(()),
        Some(others) => Ok(written.add_common(alloc, others, others, NOWHERE)?),
    }
}

// Adds what each branch of the substitution writes.
fn add_sure(alloc: Global, written: &mut Table<Place>, subst: &RawSubst) -> Result<(), Memory>
    ensures { OnOk result (written.new ≡ sure written.old subst.now) }
{
    match &subst.node {
        RawSubstNode::Skip => Ok(()),
        RawSubstNode::Assign { target, term: _ } => Ok(add(alloc, written, target)?),
        RawSubstNode::Among { target, domain: _ } => Ok(add(alloc, written, target)?),
        RawSubstNode::If {
            condition: _,
            then: _,
        } => Ok(()),
        RawSubstNode::IfElse {
            condition: _,
            then,
            otherwise,
        } => {
            let mut first = Table::new(alloc);
            add_sure(alloc, &mut first, then)?;
            let mut second = Table::new(alloc);
            add_sure(alloc, &mut second, otherwise)?;
            Ok(written.add_common(alloc, &first, &second, NOWHERE)?)
        }
        RawSubstNode::Choice(sides) => {
            let mut common = None;
            for side in sides.as_slice() {
                let mut own = Table::new(alloc);
                add_sure(alloc, &mut own, side)?;
                common = Some(in_both(alloc, common, own)?);
            }
            Ok(add_all(alloc, written, &common)?)
        }
        RawSubstNode::Any {
            name: _,
            condition: _,
            body,
        } => Ok(add_sure(alloc, written, body)?),
        RawSubstNode::Parallel(left, right) => {
            add_sure(alloc, written, left)?;
            Ok(add_sure(alloc, written, right)?)
        }
    }
}

/// The first fault of a name of the list that a branch of the substitution does not write: at that place, if one is given, else at
/// the name's own.
pub fn not_written(
    alloc: Global,
    subst: &RawSubst,
    list: &[RawName],
    at: Option<Place>,
) -> Result<Option<Fault>, Memory>
    ensures { IfOk result (λ f. f ≡ first (missing subst.now at list.now)) }
{
    let mut written = Table::new(alloc);
    add_sure(alloc, &mut written, subst)?;
    let mut fault = None;
    for name in list {
        let place = at.unwrap_or(name.place);
        let absent = when(written.find(name.text.as_slice()).is_none(), 9, place);
        fault = earlier(fault, absent);
    }
    Ok(fault)
}
