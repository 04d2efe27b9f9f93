//! Arguments that are given to what has forms.

ghost use Rattle.std.specs.Prelude.{◌≡◌, IfOk, OnOk, option_copied};
ghost use Rattle.cb_forms.specs.Faults.{first};
ghost use Rattle.cb_text_laws.specs.ProcessFaults as spec;
ghost use Rattle.cb_controls.specs.Given.{given_fault};

use cb_forms::fault::{Fault, earlier, when};
use cb_forms::form::{Form, meet};
use cb_forms::table::Table;
use cb_judge::judge::{judge_term, place};
use cb_judge::names::{Entry, View};
use cb_lex::Memory;
use cb_lex::raw::term::RawTerm;
use std::alloc::Global;

// The first fault of an argument, which is to be of the form where there is one.
fn judge_given(
    alloc: Global,
    view: &View,
    names: &mut Table<Entry>,
    form: Option<Form>,
    term: &RawTerm,
) -> Result<Option<Fault>, Memory>
    ensures fault { IfOk result (λ f. f ≡ first (given_fault view.now names.old form term.now)) }
    ensures kept { OnOk result (names.new ≡ names.old) }
{
    let seen = judge_term(alloc, view, names, false, term)?;
    match form {
        None => Ok(seen.fault),
        Some(_) => Ok(earlier(seen.fault, when(!meet(&form, &seen.form), 5, place(term)))),
    }
}

/// The first fault of arguments that are given to what has these forms.
pub fn arguments_fault(
    alloc: Global,
    view: &View,
    names: &mut Table<Entry>,
    forms: &[Form],
    arguments: &[RawTerm],
) -> Result<Option<Fault>, Memory>
    ensures fault { IfOk result (λ f. f ≡ first (spec.arguments_fault view.now names.old forms.now arguments.now)) }
    ensures kept { OnOk result (names.new ≡ names.old) }
{
    let mut fault = None;
    for i in 0..arguments.len() {
        let form = forms.get(i).copied();
        let own = judge_given(alloc, view, names, form, &arguments[i])?;
        fault = earlier(fault, own);
    }
    Ok(fault)
}
