//! Lists of terms, names, annotations and numbers in normal form.

ghost use Rattle.std.specs.Prelude.{◌≡◌, IfOk, OnOk, map};
ghost use Rattle.cb_text_laws.specs.NormalProcesses.{arguments_in, note_in};
ghost use Rattle.cb_text_laws.specs.TextNames.{number_or_none};
ghost use Rattle.cb_types.specs.NormalMachines.{maybe_formula, written_name};

use cb_forms::table::Table;
use cb_judge::names::{Entry, View};
use cb_lex::Memory;
use cb_lex::raw::name::RawName;
use cb_lex::raw::term::{RawFormula, RawTerm};
use cb_normal::formula::{copy_name, normal_formula, normal_term};
use cb_term::name::Names;
use cb_term::tree::{Formula, Terms};
use sqlite_items::Items;
use std::alloc::Global;

/// The number, or 0 where there is none.
pub fn number_or_zero(number: Option<u32>) -> u32
    ensures { result ≡ number_or_none number }
{
    match number {
        None => 0,
        Some(number) => number,
    }
}

/// Terms in normal form. The table ends as it began.
pub fn normal_terms(
    alloc: Global,
    view: &View,
    names: &mut Table<Entry>,
    terms: &[RawTerm],
) -> Result<Terms, Memory>
    ensures terms { IfOk result (λ ts. ts ≡ arguments_in view.now names.old terms.now) }
    ensures kept { OnOk result (names.new ≡ names.old) }
{
    let mut all = Items::new(alloc);
    for term in terms {
        all.push(normal_term(alloc, view, names, term)?)?;
    }
    Ok(all)
}

/// Names as they are written.
pub fn written_names(alloc: Global, list: &[RawName]) -> Result<Names, Memory>
    ensures { IfOk result (λ xs. xs ≡ map written_name list.now) }
{
    let mut all = Items::new(alloc);
    for name in list {
        all.push(copy_name(alloc, name)?)?;
    }
    Ok(all)
}

/// An annotation in normal form, where there is one. The table ends as it began.
pub fn normal_note(
    alloc: Global,
    view: &View,
    names: &mut Table<Entry>,
    said: &Option<RawFormula>,
) -> Result<Option<Formula>, Memory>
    ensures note { IfOk result (λ f. f ≡ note_in view.now names.old said.now) }
    ensures kept { OnOk result (names.new ≡ names.old) }
{
    match said {
        None => Ok(None),
        Some(said) => Ok(Some(normal_formula(alloc, view, names, said)?)),
    }
}

/// A formula in normal form; one that is left out is true. The table ends as it began.
pub fn normal_maybe(
    alloc: Global,
    view: &View,
    names: &mut Table<Entry>,
    formula: &Option<RawFormula>,
) -> Result<Formula, Memory>
    ensures formula { IfOk result (λ f. f ≡ maybe_formula view.now names.old formula.now) }
    ensures kept { OnOk result (names.new ≡ names.old) }
{
    match formula {
        None => Ok(Formula::btrue()),
        Some(f) => Ok(normal_formula(alloc, view, names, f)?),
    }
}
