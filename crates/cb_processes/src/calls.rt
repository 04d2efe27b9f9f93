//! Calls of definitions.

ghost use Rattle.std.specs.Prelude.{◌≡◌, IfOk, OnOk, length};
ghost use Rattle.cb_controls.specs.SameDefinitions.{number_of};
ghost use Rattle.cb_forms.specs.Faults.{Both, first};
ghost use Rattle.cb_forms.specs.Find.{found};
ghost use Rattle.cb_processes.specs.Known.{call_fault};
ghost use Rattle.cb_text_laws.specs.ProcessFaults as spec;
ghost use Rattle.cb_text_laws.specs.Signatures.{parameters_of};

use crate::process::Around;
use cb_controls::arguments::arguments_fault;
use cb_forms::fault::{Fault, earlier, when};
use cb_forms::form::Form;
use cb_forms::table::Table;
use cb_judge::names::Entry;
use cb_lex::Memory;
use cb_lex::raw::event::RawCall;
use std::alloc::Global;

// The fault of a call of no definition, of one that is not later where no event stands before the call, or of another number of
// arguments than the definition has parameters.
fn judge_head(
    number: u32,
    guarded: bool,
    call: &RawCall,
    called: Option<u32>,
    parameters: &[Form],
) -> Option<Fault>
    ensures { result ≡ first (call_fault number guarded call.now.name (length call.now.arguments) called parameters.now) }
{
    let place = call.name.place;
    match called {
        None => when(true, 2, place),
        Some(k) => {
            let given = call.arguments.as_slice().len();
            earlier(
                when(!guarded && !(number < k), 13, place),
                when(given != parameters.len(), 22, place),
            )
        }
    }
}

/// The first fault of a call in the definition with the number.
pub fn judge_call(
    alloc: Global,
    around: &Around,
    number: u32,
    names: &mut Table<Entry>,
    guarded: bool,
    call: &RawCall,
) -> Result<Option<Fault>, Memory>
    ensures fault { IfOk result (λ f. f ≡ first (Both (call_fault number guarded call.now.name (length call.now.arguments) (number_of (found call.now.name.text around.now.definitions.now)) (parameters_of (found call.now.name.text around.now.definitions.now))) (spec.arguments_fault around.now.view.now names.old (parameters_of (found call.now.name.text around.now.definitions.now)) call.now.arguments))) }
    ensures kept { OnOk result (names.new ≡ names.old) }
{
    let name = call.name.text.as_slice();
    let parameters = around.definitions.parameters(name);
    let head = judge_head(
        number,
        guarded,
        call,
        around.definitions.number(name),
        parameters,
    );
    let arguments = call.arguments.as_slice();
    let given = arguments_fault(alloc, around.view, names, parameters, arguments)?;
    Ok(earlier(head, given))
}
