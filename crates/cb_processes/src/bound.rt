//! Names that events bind to values.

ghost use Rattle.std.specs.Prelude.{◌≡◌, IfOk, OnOk};
ghost use Rattle.cb_forms.specs.Faults.{first};
ghost use Rattle.cb_judge.specs.Meanings.{double_fault};
ghost use Rattle.cb_processes.specs.Known.{meaning_at};
ghost use Rattle.cb_text_laws.specs.ProcessFaults as spec;
ghost use Rattle.cb_types.specs.MachineFaults.{maybe_fault};

use cb_controls::channel::judge_maybe;
use cb_forms::fault::{Fault, earlier};
use cb_forms::form::Form;
use cb_forms::table::Table;
use cb_judge::names::{Entry, Meaning, View, double};
use cb_lex::Memory;
use cb_lex::raw::name::RawName;
use cb_lex::raw::term::RawFormula;
use std::alloc::Global;

// Where more names are bound than there are values, the form of the rest is not known.
fn meaning(form: Option<Form>) -> Meaning
    ensures { result ≡ meaning_at form }
{
    match form {
        None => Meaning::Unformed,
        Some(form) => Meaning::Local(form),
    }
}

// Binds a name to a value of the form.
fn bind(
    alloc: Global,
    names: &mut Table<Entry>,
    name: &RawName,
    form: Option<Form>,
) -> Result<(), Memory>
    ensures { OnOk result (names.new ≡ spec.with_local name.now (meaning_at form) names.old) }
{
    let entry = Entry {
        meaning: meaning(form),
        place: name.place,
    };
    names.enter_beside(alloc, name.text.as_slice(), entry)
}

// Binds names to values of these forms.
fn bind_all(
    alloc: Global,
    names: &mut Table<Entry>,
    bound: &[RawName],
    forms: &[Form],
) -> Result<(), Memory>
    ensures { OnOk result (names.new ≡ spec.with_locals names.old bound.now forms.now) }
{
    for i in 0..bound.len() {
        bind(alloc, names, &bound[i], forms.get(i).copied())?;
    }
    Ok(())
}

/// Binds names to values of these forms, with the first fault of their declarations.
pub fn declare_bound(
    alloc: Global,
    names: &mut Table<Entry>,
    bound: &[RawName],
    forms: &[Form],
) -> Result<Option<Fault>, Memory>
    ensures names { OnOk result (names.new ≡ spec.with_locals names.old bound.now forms.now) }
    ensures fault { IfOk result (λ f. f ≡ first (spec.bound_fault names.old bound.now forms.now)) }
{
    let mut fault = None;
    for i in 0..bound.len() {
        let own = double(alloc, names, &bound[i])?;
        fault = earlier(fault, own);
        bind(alloc, names, &bound[i], forms.get(i).copied())?;
    }
    Ok(fault)
}

/// The first fault of an input's annotation, which knows the names that the input binds.
pub fn judge_inside(
    alloc: Global,
    view: &View,
    globals: &mut Table<Entry>,
    bound: &[RawName],
    forms: &[Form],
    said: &Option<RawFormula>,
) -> Result<Option<Fault>, Memory>
    ensures fault { IfOk result (λ f. f ≡ first (maybe_fault view.now (spec.with_locals globals.old bound.now forms.now) said.now)) }
    ensures kept { OnOk result (globals.new ≡ globals.old) }
{
    if said.is_none() {
        return Ok(None);
    }
    let outside = globals.len();
    bind_all(alloc, globals, bound, forms)?;
    let fault = judge_maybe(alloc, view, globals, said)?;
    globals.leave(outside);
    Ok(fault)
}
