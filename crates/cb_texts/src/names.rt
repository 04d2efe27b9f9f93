//! The names that stand for one thing in a whole text.

ghost use Rattle.std.specs.Prelude.{◌≡◌, IfOk, OnOk};
ghost use Rattle.cb_forms.specs.Faults.{first};
ghost use Rattle.cb_text_laws.specs.TextNames as spec;
ghost use Rattle.cb_text_laws.specs.WholeText.{global_faults};
ghost use Rattle.cb_types.specs.Declares.{reserved};
ghost use Rattle.cb_types.specs.NormalMachines.{known_in};

use cb_forms::fault::{Fault, earlier};
use cb_forms::table::Table;
use cb_judge::names::{Entry, Meaning, double};
use cb_lex::Memory;
use cb_lex::raw::name::RawName;
use cb_lex::raw::text::{RawChannel, RawController, RawMachine, RawText};
use cb_types::declare::next_number;
use cb_types::tables::{names, reserved_names, statics};
use std::alloc::Global;

/// What the names stand for that are known before any variable is.
pub fn known_names(alloc: Global, machines: &[RawMachine]) -> Result<Table<Entry>, Memory>
    ensures { IfOk result (λ known. known ≡ known_in machines.now) }
{
    let mut known = reserved_names(alloc)?;
    statics(alloc, &mut known, machines)?;
    Ok(known)
}

fn enter_channel(
    alloc: Global,
    names: &mut Table<Entry>,
    number: u32,
    name: &RawName,
) -> Result<(), Memory>
    ensures { OnOk result (names.new ≡ spec.with_channel_name number name.now names.old) }
{
    let meaning = Meaning::Channel(number);
    let place = name.place;
    names.enter(alloc, name.text.as_slice(), Entry { meaning, place })
}

/// Enters the names of channels, and tells the first that has a meaning already.
pub fn channel_names(
    alloc: Global,
    names: &mut Table<Entry>,
    channels: &[RawChannel],
) -> Result<Option<Fault>, Memory>
    ensures names { OnOk result (names.new ≡ spec.with_channels 0 names.old channels.now) }
    ensures fault { IfOk result (λ f. f ≡ first (spec.channel_names_fault 0 names.old channels.now)) }
{
    let mut fault = None;
    let mut number = 0;
    for channel in channels {
        let twice = double(alloc, names, &channel.name)?;
        fault = earlier(fault, twice);
        enter_channel(alloc, names, number, &channel.name)?;
        number = next_number(number);
    }
    Ok(fault)
}

fn enter_controller(
    alloc: Global,
    names: &mut Table<Entry>,
    number: u32,
    name: &RawName,
) -> Result<(), Memory>
    ensures { OnOk result (names.new ≡ spec.with_controller_name number name.now names.old) }
{
    let meaning = Meaning::Controller(number);
    let place = name.place;
    names.enter(alloc, name.text.as_slice(), Entry { meaning, place })
}

/// Enters the names of controllers, and tells the first that has a meaning already.
pub fn controller_names(
    alloc: Global,
    names: &mut Table<Entry>,
    controllers: &[RawController],
) -> Result<Option<Fault>, Memory>
    ensures names { OnOk result (names.new ≡ spec.with_controllers 0 names.old controllers.now) }
    ensures fault { IfOk result (λ f. f ≡ first (spec.controller_names_fault 0 names.old controllers.now)) }
{
    let mut fault = None;
    let mut number = 0;
    for controller in controllers {
        let twice = double(alloc, names, &controller.name)?;
        fault = earlier(fault, twice);
        enter_controller(alloc, names, number, &controller.name)?;
        number = next_number(number);
    }
    Ok(fault)
}

/// Enters the names of a whole text beside the reserved ones, and tells the first fault of their declarations.
pub fn enter_text(
    alloc: Global,
    known: &Table<Entry>,
    all: &mut Table<Entry>,
    text: &RawText,
) -> Result<Option<Fault>, Memory>
    requires known { known.now ≡ known_in text.now.machines }
    requires all { all.old ≡ reserved }
    ensures names { OnOk result (all.new ≡ spec.text_names text.now) }
    ensures fault { IfOk result (λ f. f ≡ first (global_faults text.now)) }
{
    let machines = names(alloc, known, all, text.machines.as_slice())?;
    let channels = channel_names(alloc, all, text.channels.as_slice())?;
    let controllers = controller_names(alloc, all, text.controllers.as_slice())?;
    Ok(earlier(machines, earlier(channels, controllers)))
}
