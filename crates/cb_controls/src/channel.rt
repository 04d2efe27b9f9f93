//! Channels.

ghost use Rattle.std.specs.Prelude.{◌≡◌, [], IfOk, OnOk};
ghost use Rattle.cb_forms.specs.Faults.{first};
ghost use Rattle.cb_text_laws.specs.ControllerFaults as spec;
ghost use Rattle.cb_text_laws.specs.Signatures.{inside_channel, value_domains};
ghost use Rattle.cb_types.specs.Declares.{declare_fault};
ghost use Rattle.cb_types.specs.MachineFaults.{maybe_fault};
ghost use Rattle.cb_types.specs.declared.declare.Sort.TheVariants.{Parameter as parameter};

use cb_forms::fault::{Fault, earlier, when};
use cb_forms::table::Table;
use cb_judge::judge::judge_formula;
use cb_judge::names::{Entry, View};
use cb_lex::Memory;
use cb_lex::raw::term::RawFormula;
use cb_lex::raw::text::RawChannel;
use cb_types::declare::{Sort, declare_typed, domains};
use std::alloc::Global;

/// The first fault of a formula that may be left out.
pub fn judge_maybe(
    alloc: Global,
    view: &View,
    names: &mut Table<Entry>,
    formula: &Option<RawFormula>,
) -> Result<Option<Fault>, Memory>
    ensures fault { IfOk result (λ f. f ≡ first (maybe_fault view.now names.old formula.now)) }
    ensures kept { OnOk result (names.new ≡ names.old) }
{
    match formula {
        None => Ok(None),
        Some(f) => Ok(judge_formula(alloc, view, names, f)?),
    }
}

/// Declares the values of a channel, where the names outside are known.
pub fn declare_values(
    alloc: Global,
    view: &View,
    names: &mut Table<Entry>,
    channel: &RawChannel,
) -> Result<Option<Fault>, Memory>
    ensures names { OnOk result (names.new ≡ inside_channel view.now names.old channel.now) }
    ensures fault { IfOk result (λ f. f ≡ first (declare_fault parameter [] (value_domains view.now names.old channel.now) 0 names.old channel.now.values)) }
{
    let domains = domains(alloc, view, names, channel.condition.as_ref())?;
    let list = channel.values.as_slice();
    declare_typed(alloc, names, Sort::Parameter, &domains, list)
}

/// The first fault of a channel: a value without a domain, too many values, or one of its condition.
#[tactic(auto, unfolding(cb_text_laws::specs::ControllerFaults::one_channel_fault))]
pub fn one_channel_fault(
    alloc: Global,
    view: &View,
    names: &mut Table<Entry>,
    channel: &RawChannel,
) -> Result<Option<Fault>, Memory>
    ensures fault { IfOk result (λ f. f ≡ first (spec.one_channel_fault view.now names.old channel.now)) }
    ensures kept { OnOk result (names.new ≡ names.old) }
{
    let outside = names.len();
    let values = declare_values(alloc, view, names, channel)?;
    let many = when(channel.values.as_slice().len() > 8, 22, channel.name.place);
    let condition = judge_maybe(alloc, view, names, &channel.condition)?;
    names.leave(outside);
    Ok(earlier(values, earlier(many, condition)))
}

/// The first fault of channels.
pub fn channels_fault(
    alloc: Global,
    view: &View,
    names: &mut Table<Entry>,
    channels: &[RawChannel],
) -> Result<Option<Fault>, Memory>
    ensures fault { IfOk result (λ f. f ≡ first (spec.channels_fault view.now names.old channels.now)) }
    ensures kept { OnOk result (names.new ≡ names.old) }
{
    let mut fault = None;
    for channel in channels {
        let own = one_channel_fault(alloc, view, names, channel)?;
        fault = earlier(fault, own);
    }
    Ok(fault)
}
