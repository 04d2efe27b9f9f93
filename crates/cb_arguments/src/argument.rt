//! Arguments of proofs.

ghost use Rattle.std.specs.Prelude.{◌≡◌, IfOk};
ghost use Rattle.cb_term.specs.Table.{sizes_of};
ghost use Rattle.cb_arguments.specs.Scopes.{symbols_of};
ghost use Rattle.cb_arguments.specs.Arguments.{formula_argument, term_argument};

use crate::clear::{is_clear, term_is_clear};
use crate::normal::{normal_formula, normal_term};
use crate::scope::{Symbols, symbols};
use cb_lex::Memory;
use cb_lex::raw::term::{RawFormula, RawTerm};
use cb_seq::kinds::{fits, kind_of};
use cb_spec::system::System;
use cb_term::kind::Kind;
use cb_term::name::Name;
use cb_term::table::SetTable;
use cb_term::tree::{Formula, Term};
use sqlite_items::Items;
use std::alloc::Global;

/// The normal form of a formula in a proof, where the names have these kinds. None exactly where it does not fit: where it has a
/// name that is no set, no element, no constant, not bound and not among the names, parts whose kinds do not agree, a quantifier
/// without a typing conjunct, or a divisor that is no positive literal. `symbols` and `sets` are those of the system.
pub fn read_formula(
    alloc: Global,
    symbols: &Symbols,
    sets: &SetTable,
    raw: &RawFormula,
    names: &[(Name, Kind)],
) -> Result<Option<Formula>, Memory>
    ensures { IfOk result (λ o. o ≡ formula_argument symbols.now (sizes_of sets.now) names.now raw.now) }
{
    if !is_clear(alloc, symbols, &mut Items::new(alloc), raw)? {
        return Ok(None);
    }
    let formula = normal_formula(alloc, symbols, &mut Items::new(alloc), raw)?;
    if fits(alloc, sets, names, &[], &formula)? {
        Ok(Some(formula))
    } else {
        Ok(None)
    }
}

/// The normal form of a term in a proof, with its kind, where the names have these kinds. None exactly where it does not fit, as
/// `read_formula` tells.
pub fn read_term(
    alloc: Global,
    symbols: &Symbols,
    sets: &SetTable,
    raw: &RawTerm,
    names: &[(Name, Kind)],
) -> Result<Option<(Term, Kind)>, Memory>
    ensures { IfOk result (λ o. o ≡ term_argument symbols.now (sizes_of sets.now) names.now raw.now) }
{
    if !term_is_clear(alloc, symbols, &mut Items::new(alloc), raw)? {
        return Ok(None);
    }
    let term = normal_term(alloc, symbols, &mut Items::new(alloc), raw)?;
    match kind_of(alloc, sets, names, &[], &term)? {
        Some(kind) => Ok(Some((term, kind))),
        None => Ok(None),
    }
}

/// `read_formula` with the system's own sets, elements and constants, for a single argument.
pub fn formula_of(
    alloc: Global,
    system: &System,
    raw: &RawFormula,
    names: &[(Name, Kind)],
) -> Result<Option<Formula>, Memory>
    ensures { IfOk result (λ o. o ≡ formula_argument (symbols_of system.now) (sizes_of system.now.sets) names.now raw.now) }
{
    let symbols = symbols(alloc, system)?;
    read_formula(alloc, &symbols, &system.sets, raw, names)
}

/// `read_term` with the system's own sets, elements and constants, for a single argument.
pub fn term_of(
    alloc: Global,
    system: &System,
    raw: &RawTerm,
    names: &[(Name, Kind)],
) -> Result<Option<(Term, Kind)>, Memory>
    ensures { IfOk result (λ o. o ≡ term_argument (symbols_of system.now) (sizes_of system.now.sets) names.now raw.now) }
{
    let symbols = symbols(alloc, system)?;
    read_term(alloc, &symbols, &system.sets, raw, names)
}
