//! Ends of channels: which controllers use them.

ghost use Rattle.std.specs.Prelude.{◌≡◌, IfOk, map, option_copied};
ghost use Rattle.cb_forms.specs.Faults.{first};
ghost use Rattle.cb_lex.specs.RawProcessTree as raw;
ghost use Rattle.cb_text_laws.specs.TextNames.{channel_number};
ghost use Rattle.cb_text_laws.specs.UseFaults as spec;
ghost use Rattle.cb_flow.specs.Uses as uses;

use cb_forms::fault::{Fault, earlier, when};
use cb_forms::table::Table;
use cb_judge::names::{Entry, Meaning};
use cb_lex::Memory;
use cb_lex::raw::event::RawEvent;
use cb_lex::raw::name::RawName;
use cb_lex::raw::process::{RawProcess, RawProcessNode};
use cb_lex::raw::text::{RawChannel, RawController, RawDefinition};
use cb_lex::token::Place;
use cb_types::declare::next_number;
use std::alloc::Global;
use std::marker::Model;

/// The controllers that use one end of a channel: the first, and where the second begins to.
#[derive(Drop)]
pub struct Users {
    pub user: Option<u32>,
    pub second: Option<Place>,
}

impl Model for Users {
    ghost use Rattle.cb_text_laws.specs.UseFaults as spec;

    ghost Value = { spec.Users };

    ghost view = { λ u. record { user = u.user; second = u.second } };
}

/// The number of the channel that a name is.
pub fn channel_of(entry: Option<Entry>) -> Option<u32>
    ensures { result ≡ channel_number entry }
{
    match entry {
        Some(
            Entry {
                meaning: Meaning::Channel(k),
                place: _,
            },
        ) => Some(k),
        _ => None,
    }
}

fn second_at(place: Place, second: Option<Place>) -> Option<Place>
    ensures { result ≡ spec.second_at place second }
{
    match second {
        None => Some(place),
        Some(earlier) => Some(earlier),
    }
}

fn no_users() -> Users
    ensures { result ≡ spec.no_users }
{
    Users {
        user: None,
        second: None,
    }
}

// The users with this controller, which uses the end here.
fn with_use(users: &Users, controller: u32, place: Place) -> Users
    ensures { result ≡ spec.with_use controller place users.now }
{
    match users.user {
        None => Users {
            user: Some(controller),
            second: users.second,
        },
        Some(user) => Users {
            user: Some(user),
            second: if controller == user {
                users.second
            } else {
                second_at(place, users.second)
            },
        },
    }
}

// The channel of which the event uses this end.
fn used_name(side: bool, event: &RawEvent) -> Option<&RawName>
    ensures { option_copied result ≡ spec.used_name side event.now }
{
    match event {
        RawEvent::Output { channel, .. } => { if side { Some(channel) } else { None } }
        RawEvent::Input { channel, .. } => { if side { None } else { Some(channel) } }
        RawEvent::Operation { .. } => None,
    }
}

// Adds the controller to the users of the channel with the number.
fn add_use(all: &mut Vec<Users>, number: Option<u32>, controller: u32, place: Place)
    ensures { all.new.items ≡ uses.number_uses controller place number all.old.items }
{
    if let Some(k) = number {
        let k = k as usize;
        if k < all.len() {
            all[k] = with_use(&all[k], controller, place);
        }
    }
}

fn add_event(
    names: &Table<Entry>,
    side: bool,
    controller: u32,
    all: &mut Vec<Users>,
    event: &RawEvent,
)
    ensures { all.new.items ≡ uses.event_uses names.now side controller event.now all.old.items }
{
    if let Some(name) = used_name(side, event) {
        let number = channel_of(names.find(name.text.as_slice()));
        add_use(all, number, controller, name.place);
    }
}

// Adds the uses of one process to the users of each channel.
#[cycle(uses)]
fn add_uses(
    names: &Table<Entry>,
    side: bool,
    controller: u32,
    all: &mut Vec<Users>,
    process: &RawProcess,
)
    ensures { all.new.items ≡ uses.process_uses names.now side controller process.now all.old.items }
{
    match &process.node {
        RawProcessNode::Stop(_) | RawProcessNode::Skip(_) | RawProcessNode::Call(_) => {}
        RawProcessNode::If {
            then,
            otherwise,
            ..
        } => {
            add_uses(names, side, controller, all, then);
            add_uses(names, side, controller, all, otherwise);
        }
        RawProcessNode::Prefix { event, process } => {
            add_event(names, side, controller, all, event);
            add_uses(names, side, controller, all, process);
        }
        RawProcessNode::External(operands) | RawProcessNode::Internal(operands) => {
            add_each(names, side, controller, all, operands.as_slice());
        }
    }
}

#[cycle(uses)]
fn add_each(
    names: &Table<Entry>,
    side: bool,
    controller: u32,
    all: &mut Vec<Users>,
    operands: &[RawProcess],
)
    ensures { all.new.items ≡ uses.processes_uses names.now side controller (raw.raw_processes operands.now) all.old.items }
{
    for operand in operands {
        add_uses(names, side, controller, all, operand);
    }
}

fn add_definitions(
    names: &Table<Entry>,
    side: bool,
    controller: u32,
    all: &mut Vec<Users>,
    definitions: &[RawDefinition],
)
    ensures { all.new.items ≡ uses.definitions_uses names.now side controller definitions.now all.old.items }
{
    for definition in definitions {
        add_uses(names, side, controller, all, &definition.process);
    }
}

fn add_controllers(
    names: &Table<Entry>,
    side: bool,
    all: &mut Vec<Users>,
    controllers: &[RawController],
)
    ensures { all.new.items ≡ uses.controllers_uses names.now side 0 controllers.now all.old.items }
{
    let mut number = 0;
    for controller in controllers {
        add_definitions(names, side, number, all, controller.definitions.as_slice());
        number = next_number(number);
    }
}

fn none_yet(alloc: Global, channels: &[RawChannel]) -> Result<Vec<Users>, Memory>
    ensures { IfOk result (λ us. us.items ≡ map (λ _. spec.no_users) channels.now) }
{
    let mut all = Vec::new(alloc);
    for _channel in channels {
        all.push(no_users())?;
    }
    Ok(all)
}

/// The users of one end of each channel, its sender where `side` is true, its receiver where it is false.
pub fn users_of_all(
    alloc: Global,
    names: &Table<Entry>,
    side: bool,
    controllers: &[RawController],
    channels: &[RawChannel],
) -> Result<Vec<Users>, Memory>
    ensures { IfOk result (λ us. us.items ≡ uses.all_users names.now side controllers.now channels.now) }
{
    let mut all = none_yet(alloc, channels)?;
    add_controllers(names, side, &mut all, controllers);
    Ok(all)
}

fn second_fault(code: u8, second: Option<Place>) -> Option<Fault>
    ensures { result ≡ first (spec.second_fault code second) }
{
    match second {
        None => None,
        Some(place) => when(true, code, place),
    }
}

fn is_same(sender: Option<u32>, receiver: Option<u32>) -> bool
    ensures { result ≡ spec.same_user sender receiver }
{
    match (sender, receiver) {
        (Some(i), Some(j)) => i == j,
        _ => false,
    }
}

fn shared_end(senders: &Users, receivers: &Users, place: Place) -> Option<Fault>
    ensures { result ≡ first (spec.ends_fault senders.now receivers.now place) }
{
    let seconds = earlier(
        second_fault(16, senders.second),
        second_fault(18, receivers.second),
    );
    earlier(
        seconds,
        when(is_same(senders.user, receivers.user), 19, place),
    )
}

fn missing_end(senders: &Users, receivers: &Users, place: Place) -> Option<Fault>
    ensures { result ≡ first (spec.missing_end_fault senders.now receivers.now place) }
{
    earlier(
        when(senders.user.is_none(), 15, place),
        when(receivers.user.is_none(), 17, place),
    )
}

/// The first fault of ends of channels that two controllers use, or that one uses on both sides, and beside it the first of ends that
/// no controller uses.
pub fn ends_fault(
    alloc: Global,
    names: &Table<Entry>,
    controllers: &[RawController],
    channels: &[RawChannel],
) -> Result<(Option<Fault>, Option<Fault>), Memory>
    ensures shared { IfOk result (λ r. r.0 ≡ first (spec.channel_ends_fault names.now controllers.now 0 channels.now)) }
    ensures missing { IfOk result (λ r. r.1 ≡ first (spec.missing_ends_fault names.now controllers.now 0 channels.now)) }
{
    let senders = users_of_all(alloc, names, true, controllers, channels)?;
    let receivers = users_of_all(alloc, names, false, controllers, channels)?;
    let mut shared = None;
    let mut missing = None;
    let mut number = 0;
    for channel in channels {
        let k = number as usize;
        let place = channel.name.place;
        let sending = &senders[k];
        let receiving = &receivers[k];
        shared = earlier(shared, shared_end(sending, receiving, place));
        missing = earlier(missing, missing_end(sending, receiving, place));
        number = next_number(number);
    }
    Ok((shared, missing))
}
