//! Faults between machines, channels and controllers.

ghost use Rattle.std.specs.Prelude.{◌≡◌, IfOk};
ghost use Rattle.cb_forms.specs.Faults.{first};
ghost use Rattle.cb_text_laws.specs.TextNames.{text_names};
ghost use Rattle.cb_text_laws.specs.UseFaults.{missing_ends_fault};
ghost use Rattle.cb_text_laws.specs.WholeText.{use_faults};

use crate::ends::ends_fault;
use crate::lists::lists_fault;
use cb_forms::fault::{Fault, earlier};
use cb_forms::table::Table;
use cb_judge::names::Entry;
use cb_lex::Memory;
use cb_lex::raw::text::RawText;
use std::alloc::Global;

/// The first fault between machines, channels and controllers, but for ends of channels that no controller uses; beside it the first of
/// these.
pub fn use_fault(
    alloc: Global,
    names: &Table<Entry>,
    text: &RawText,
) -> Result<(Option<Fault>, Option<Fault>), Memory>
    requires { names.now ≡ text_names text.now }
    ensures firm { IfOk result (λ r. r.0 ≡ first (use_faults text.now)) }
    ensures missing { IfOk result (λ r. r.1 ≡ first (missing_ends_fault (text_names text.now) text.now.controllers 0 text.now.channels)) }
{
    let lists = lists_fault(alloc, names, text)?;
    let controllers = text.controllers.as_slice();
    let (shared, missing) = ends_fault(alloc, names, controllers, text.channels.as_slice())?;
    Ok((earlier(lists, shared), missing))
}
