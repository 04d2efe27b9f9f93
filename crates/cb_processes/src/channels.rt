//! Channels of events.

ghost use Rattle.std.specs.Prelude.{◌≡◌, IfOk, OnOk, option_copied};
ghost use Rattle.cb_forms.specs.Faults.{first};
ghost use Rattle.cb_processes.specs.Known.{forms_among, channel_fault, noted};
ghost use Rattle.cb_text_laws.specs.Signatures.{inside_channel};
ghost use Rattle.cb_text_laws.specs.TextNames.{numbered};
ghost use Rattle.cb_types.specs.MachineFaults.{maybe_fault};

use cb_controls::channel::{declare_values, judge_maybe};
use cb_forms::fault::{Fault, when};
use cb_forms::form::Form;
use cb_forms::table::Table;
use cb_judge::names::{Entry, View};
use cb_lex::Memory;
use cb_lex::raw::name::RawName;
use cb_lex::raw::term::RawFormula;
use cb_lex::raw::text::RawChannel;
use sqlite_items::Items;
use std::alloc::Global;

/// The channel with the number.
pub fn channel_at(channels: &[RawChannel], number: Option<u32>) -> Option<&RawChannel>
    ensures { option_copied result ≡ numbered channels.now number }
{
    match number {
        None => None,
        Some(k) => channels.get(k as usize),
    }
}

/// The forms of the values of the channel with the number; none where there is no such channel.
pub fn forms_at(forms: &Items<Items<Form>>, number: Option<u32>) -> &[Form]
    ensures { result.now ≡ forms_among forms.now number }
{
    match number {
        None => &[],
        Some(k) => match forms.as_slice().get(k as usize) {
            None => &[],
            Some(own) => own.as_slice(),
        },
    }
}

/// The fault of a name that is no channel, or of another number of values than the channel has.
pub fn judge_channel(name: &RawName, given: usize, channel: Option<&RawChannel>) -> Option<Fault>
    ensures { result ≡ first (channel_fault name.now given (option_copied channel.entry)) }
{
    match channel {
        None => when(true, 2, name.place),
        Some(channel) => when(given != channel.values.as_slice().len(), 22, name.place),
    }
}

// The first fault of a formula in which the channel's values are known.
fn judge_with_values(
    alloc: Global,
    view: &View,
    globals: &mut Table<Entry>,
    channel: &RawChannel,
    said: &Option<RawFormula>,
) -> Result<Option<Fault>, Memory>
    ensures fault { IfOk result (λ f. f ≡ first (maybe_fault view.now (inside_channel view.now globals.old channel.now) said.now)) }
    ensures kept { OnOk result (globals.new ≡ globals.old) }
{
    let outside = globals.len();
    declare_values(alloc, view, globals, channel)?;
    let fault = judge_maybe(alloc, view, globals, said)?;
    globals.leave(outside);
    Ok(fault)
}

/// The first fault of an output's annotation, which knows the values of the channel.
pub fn judge_note(
    alloc: Global,
    view: &View,
    globals: &mut Table<Entry>,
    channel: Option<&RawChannel>,
    said: &Option<RawFormula>,
) -> Result<Option<Fault>, Memory>
    ensures fault { IfOk result (λ f. f ≡ first (maybe_fault view.now (noted view.now globals.old (option_copied channel.entry)) said.now)) }
    ensures kept { OnOk result (globals.new ≡ globals.old) }
{
    if said.is_none() {
        return Ok(None);
    }
    match channel {
        None => judge_maybe(alloc, view, globals, said),
        Some(channel) => judge_with_values(alloc, view, globals, channel, said),
    }
}
