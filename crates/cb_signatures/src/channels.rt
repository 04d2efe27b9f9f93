//! The forms of channels' values.

ghost use Rattle.std.specs.Prelude.{◌≡◌, IfOk, map};
ghost use Rattle.cb_text_laws.specs.Signatures.{value_forms};

use crate::parameters::parameter_forms;
use cb_forms::form::Form;
use cb_forms::table::Table;
use cb_judge::names::{Entry, View};
use cb_lex::Memory;
use cb_lex::raw::text::RawChannel;
use cb_types::declare::domains;
use sqlite_items::Items;
use std::alloc::Global;

fn one_channel_forms(
    alloc: Global,
    view: &View,
    names: &Table<Entry>,
    channel: &RawChannel,
) -> Result<Items<Form>, Memory>
    ensures { IfOk result (λ fs. fs ≡ value_forms view.now names.now channel.now) }
{
    let domains = domains(alloc, view, names, channel.condition.as_ref())?;
    parameter_forms(alloc, &domains, channel.values.as_slice())
}

/// For each channel the forms of its values; 0 stands for a value without a domain.
pub fn channel_forms(
    alloc: Global,
    view: &View,
    names: &Table<Entry>,
    channels: &[RawChannel],
) -> Result<Items<Items<Form>>, Memory>
    ensures { IfOk result (λ fs. fs ≡ map (value_forms view.now names.now) channels.now) }
{
    let mut forms = Items::new(alloc);
    for channel in channels {
        forms.push(one_channel_forms(alloc, view, names, channel)?)?;
    }
    Ok(forms)
}
