//! The normal form of channels.

ghost use Rattle.std.specs.Prelude.{◌≡◌, IfOk, OnOk, map};
ghost use Rattle.cb_flow.specs.Uses.{all_users};
ghost use Rattle.cb_text_laws.specs.NormalTexts.{channel_with, channels_in};
ghost use Rattle.cb_text_laws.specs.Signatures.{inside_channel, value_domains};
ghost use Rattle.cb_text_laws.specs.UseFaults.{receiving, sending};
ghost use Rattle.cb_types.specs.NormalMachines.{declared_name, maybe_formula};

use crate::order::Order;
use crate::parameters::declared_names;
use crate::parts::normal_maybe;
use cb_controls::channel::declare_values;
use cb_flow::ends::Users;
use cb_forms::table::Table;
use cb_judge::names::{Entry, View};
use cb_lex::Memory;
use cb_lex::raw::text::{RawChannel, RawController};
use cb_normal::formula::copy_name;
use cb_spec::system::{Channel, Declared};
use cb_term::tree::Formula;
use cb_types::declare::{domains, next_number};
use sqlite_items::Items;
use std::alloc::Global;

// The values of a channel with their domains.
fn channel_values(
    alloc: Global,
    view: &View,
    names: &Table<Entry>,
    channel: &RawChannel,
) -> Result<Items<Declared>, Memory>
    ensures { IfOk result (λ ds. ds ≡ map (declared_name (value_domains view.now names.now channel.now)) channel.now.values) }
{
    let domains = domains(alloc, view, names, channel.condition.as_ref())?;
    declared_names(alloc, &domains, channel.values.as_slice())
}

// The condition of a channel, over its values.
fn channel_condition(
    alloc: Global,
    view: &View,
    names: &mut Table<Entry>,
    channel: &RawChannel,
) -> Result<Formula, Memory>
    ensures condition { IfOk result (λ f. f ≡ maybe_formula view.now (inside_channel view.now names.old channel.now) channel.now.condition) }
    ensures kept { OnOk result (names.new ≡ names.old) }
{
    let outside = names.len();
    declare_values(alloc, view, names, channel)?;
    let condition = normal_maybe(alloc, view, names, &channel.condition)?;
    names.leave(outside);
    Ok(condition)
}

// A channel between these controllers.
#[tactic(auto, unfolding(cb_text_laws::specs::NormalTexts::channel_with))]
fn normal_channel(
    alloc: Global,
    view: &View,
    names: &mut Table<Entry>,
    channel: &RawChannel,
    sender: u32,
    receiver: u32,
) -> Result<Channel, Memory>
    ensures form { IfOk result (λ c. c ≡ channel_with channel.now (map (declared_name (value_domains view.now names.old channel.now)) channel.now.values) (maybe_formula view.now (inside_channel view.now names.old channel.now) channel.now.condition) sender receiver) }
    ensures kept { OnOk result (names.new ≡ names.old) }
{
    let values = channel_values(alloc, view, names, channel)?;
    let assertion = channel_condition(alloc, view, names, channel)?;
    let name = copy_name(alloc, &channel.name)?;
    Ok(Channel {
        name,
        values,
        assertion,
        sender,
        receiver,
    })
}

/// Channels in normal form, in text order. `senders` and `receivers` are the users of their ends.
pub(crate) fn normal_channels(
    alloc: Global,
    view: &View,
    names: &mut Table<Entry>,
    controllers: &[RawController],
    order: &Order,
    senders: &[Users],
    receivers: &[Users],
    channels: &[RawChannel],
) -> Result<Items<Channel>, Memory>
    requires senders { senders.now ≡ all_users names.old sending controllers.now channels.now }
    requires receivers { receivers.now ≡ all_users names.old receiving controllers.now channels.now }
    ensures form { IfOk result (λ cs. cs ≡ channels_in view.now names.old controllers.now order.now 0 channels.now) }
    ensures kept { OnOk result (names.new ≡ names.old) }
{
    let mut all = Items::new(alloc);
    let mut number = 0;
    for channel in channels {
        let sending = &senders[number as usize];
        let receiving = &receivers[number as usize];
        let sender = order.user(controllers.len(), sending)?;
        let receiver = order.user(controllers.len(), receiving)?;
        let normal = normal_channel(alloc, view, names, channel, sender, receiver)?;
        all.push(normal)?;
        number = next_number(number);
    }
    Ok(all)
}
