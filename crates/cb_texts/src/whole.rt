//! Whole texts.

ghost use Rattle.std.specs.Prelude.{◌≡◌, IfOk, OnOk};
ghost use Rattle.cb_forms.specs.Faults.{Both, first};
ghost use Rattle.cb_text_laws.specs.TextNames as spec;
ghost use Rattle.cb_text_laws.specs.UseFaults.{missing_ends_fault};
ghost use Rattle.cb_text_laws.specs.WholeText.{faults_of, part_faults, use_faults};
ghost use Rattle.cb_types.specs.Declares.{reserved};
ghost use Rattle.cb_types.specs.NormalMachines.{known_in};

use crate::controllers::{Outside, controllers_fault};
use crate::names::enter_text;
use crate::views::outer_view;
use cb_controls::channel::channels_fault;
use cb_flow::uses::use_fault;
use cb_forms::fault::{Fault, earlier};
use cb_forms::table::Table;
use cb_judge::names::Entry;
use cb_lex::Memory;
use cb_lex::raw::text::RawText;
use cb_signatures::channels::channel_forms;
use cb_signatures::operations::all_operations;
use cb_types::machine::judge_machines;
use std::alloc::Global;

// The first fault inside of a channel or a controller. The names of the whole text come twice.
fn part_fault(
    alloc: Global,
    known: &Table<Entry>,
    globals: &mut Table<Entry>,
    names: &mut Table<Entry>,
    text: &RawText,
) -> Result<Option<Fault>, Memory>
    requires known { known.now ≡ known_in text.now.machines }
    requires globals { globals.old ≡ spec.text_names text.now }
    requires names { names.old ≡ spec.text_names text.now }
    ensures fault { IfOk result (λ f. f ≡ first (part_faults text.now)) }
    ensures globals { OnOk result (globals.new ≡ globals.old) }
    ensures names { OnOk result (names.new ≡ names.old) }
{
    let machines = text.machines.as_slice();
    let channels = text.channels.as_slice();
    let view = outer_view(alloc, machines)?;
    let declared = channels_fault(alloc, &view, names, channels)?;
    let forms = channel_forms(alloc, &view, names, channels)?;
    let operations = all_operations(alloc, known, names, machines)?;
    let outside = Outside {
        machines,
        channels,
        known,
        view: &view,
        forms: &forms,
        operations: &operations,
    };
    let controllers = text.controllers.as_slice();
    let controlled = controllers_fault(alloc, &outside, globals, names, controllers)?;
    Ok(earlier(declared, controlled))
}

// The first fault inside of channels and controllers and between the parts of a text, and beside it the first of ends of channels that
// are missing. The names of the whole text come twice.
fn inner_faults(
    alloc: Global,
    known: &Table<Entry>,
    globals: &mut Table<Entry>,
    names: &mut Table<Entry>,
    text: &RawText,
) -> Result<(Option<Fault>, Option<Fault>), Memory>
    requires known { known.now ≡ known_in text.now.machines }
    requires globals { globals.old ≡ spec.text_names text.now }
    requires names { names.old ≡ spec.text_names text.now }
    ensures firm { IfOk result (λ r. r.0 ≡ first (Both (part_faults text.now) (use_faults text.now))) }
    ensures missing { IfOk result (λ r. r.1 ≡ first (missing_ends_fault (spec.text_names text.now) text.now.controllers 0 text.now.channels)) }
    ensures globals { OnOk result (globals.new ≡ globals.old) }
    ensures names { OnOk result (names.new ≡ names.old) }
{
    let parts = part_fault(alloc, known, globals, names, text)?;
    let (uses, missing) = use_fault(alloc, names, text)?;
    Ok((earlier(parts, uses), missing))
}

/// The first fault of a whole text: the least code that occurs, at its first place. `known` are the names that stand before variables are
/// known. The names of the whole text come into both tables: while those at a place come and go in `names`, `globals` keeps those of the
/// whole text alone.
pub fn first_fault(
    alloc: Global,
    known: &Table<Entry>,
    globals: &mut Table<Entry>,
    names: &mut Table<Entry>,
    text: &RawText,
) -> Result<Option<Fault>, Memory>
    requires known { known.now ≡ known_in text.now.machines }
    requires globals { globals.old ≡ reserved }
    requires names { names.old ≡ reserved }
    ensures fault { IfOk result (λ f. f ≡ first (faults_of text.now)) }
    ensures globals { OnOk result (globals.new ≡ spec.text_names text.now) }
    ensures names { OnOk result (names.new ≡ spec.text_names text.now) }
{
    let declared = enter_text(alloc, known, names, text)?;
    enter_text(alloc, known, globals, text)?;
    let judged = judge_machines(alloc, known, names, text.machines.as_slice())?;
    let (inner, missing) = inner_faults(alloc, known, globals, names, text)?;
    Ok(earlier(earlier(earlier(declared, judged), inner), missing))
}
