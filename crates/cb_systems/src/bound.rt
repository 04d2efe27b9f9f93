//! What stands at the place of an event: the values of its channel, and the names that it binds.

ghost use Rattle.std.specs.Prelude.{◌≡◌, IfOk, OnOk, option_copied};
ghost use Rattle.cb_processes.specs.Known.{forms_among, meaning_at, noted};
ghost use Rattle.cb_text_laws.specs.NormalProcesses.{note_in};
ghost use Rattle.cb_text_laws.specs.ProcessFaults as spec;
ghost use Rattle.cb_text_laws.specs.Signatures.{inside_channel};
ghost use Rattle.cb_text_laws.specs.TextNames.{numbered};

use crate::parts::normal_note;
use cb_controls::channel::declare_values;
use cb_forms::form::Form;
use cb_forms::table::Table;
use cb_judge::names::{Entry, Meaning, View};
use cb_lex::Memory;
use cb_lex::raw::name::RawName;
use cb_lex::raw::term::RawFormula;
use cb_lex::raw::text::RawChannel;
use cb_term::tree::Formula;
use sqlite_items::Items;
use std::alloc::Global;

/// The channel with the number.
pub fn channel_at(channels: &[RawChannel], number: Option<u32>) -> Option<&RawChannel>
    ensures { option_copied result ≡ numbered channels.now number }
{
    match number {
        None => None,
        Some(k) => channels.get(k as usize),
    }
}

/// The forms of the values of the channel with the number; none where there is no such channel.
pub fn forms_at(forms: &Items<Items<Form>>, number: Option<u32>) -> &[Form]
    ensures { result.now ≡ forms_among forms.now number }
{
    match number {
        None => &[],
        Some(k) => match forms.as_slice().get(k as usize) {
            None => &[],
            Some(own) => own.as_slice(),
        },
    }
}

// Where more names are bound than there are values, the form of the rest is not known.
fn meaning(form: Option<Form>) -> Meaning
    ensures { result ≡ meaning_at form }
{
    match form {
        None => Meaning::Unformed,
        Some(form) => Meaning::Local(form),
    }
}

// Binds a name to a value of the form.
fn bind(
    alloc: Global,
    names: &mut Table<Entry>,
    name: &RawName,
    form: Option<Form>,
) -> Result<(), Memory>
    ensures { OnOk result (names.new ≡ spec.with_local name.now (meaning_at form) names.old) }
{
    let entry = Entry {
        meaning: meaning(form),
        place: name.place,
    };
    names.enter_beside(alloc, name.text.as_slice(), entry)
}

/// Binds names to values of these forms.
pub fn bind_all(
    alloc: Global,
    names: &mut Table<Entry>,
    bound: &[RawName],
    forms: &[Form],
) -> Result<(), Memory>
    ensures { OnOk result (names.new ≡ spec.with_locals names.old bound.now forms.now) }
{
    for i in 0..bound.len() {
        bind(alloc, names, &bound[i], forms.get(i).copied())?;
    }
    Ok(())
}

/// An input's annotation, which knows the names that the input binds.
pub fn note_of_names(
    alloc: Global,
    view: &View,
    globals: &mut Table<Entry>,
    bound: &[RawName],
    forms: &[Form],
    said: &Option<RawFormula>,
) -> Result<Option<Formula>, Memory>
    ensures note { IfOk result (λ f. f ≡ note_in view.now (spec.with_locals globals.old bound.now forms.now) said.now) }
    ensures kept { OnOk result (globals.new ≡ globals.old) }
{
    let outside = globals.len();
    bind_all(alloc, globals, bound, forms)?;
    let note = normal_note(alloc, view, globals, said)?;
    globals.leave(outside);
    Ok(note)
}

// An annotation that knows the values of the channel.
fn note_with_values(
    alloc: Global,
    view: &View,
    globals: &mut Table<Entry>,
    channel: &RawChannel,
    said: &Option<RawFormula>,
) -> Result<Option<Formula>, Memory>
    ensures note { IfOk result (λ f. f ≡ note_in view.now (inside_channel view.now globals.old channel.now) said.now) }
    ensures kept { OnOk result (globals.new ≡ globals.old) }
{
    let outside = globals.len();
    declare_values(alloc, view, globals, channel)?;
    let note = normal_note(alloc, view, globals, said)?;
    globals.leave(outside);
    Ok(note)
}

/// An output's annotation, which knows the values of the channel.
pub fn note_of_values(
    alloc: Global,
    view: &View,
    globals: &mut Table<Entry>,
    channel: Option<&RawChannel>,
    said: &Option<RawFormula>,
) -> Result<Option<Formula>, Memory>
    ensures note { IfOk result (λ f. f ≡ note_in view.now (noted view.now globals.old (option_copied channel.entry)) said.now) }
    ensures kept { OnOk result (globals.new ≡ globals.old) }
{
    match channel {
        None => normal_note(alloc, view, globals, said),
        Some(channel) => note_with_values(alloc, view, globals, channel, said),
    }
}
