//! Well-formed texts.

ghost use Rattle.std.specs.Prelude.{◌≡◌, IfOk, IfErr, OnOk, map};
ghost use Rattle.cb_systems.specs.Whole.{Tells};
ghost use Rattle.cb_text_laws.specs.NormalTexts.{channels_in, controller_in, order_in};
ghost use Rattle.cb_text_laws.specs.TextNames.{outer_view as outer, text_names};
ghost use Rattle.cb_text_laws.specs.WholeText.{WellFormed, IsSystemOf};
ghost use Rattle.cb_types.specs.NormalMachines.{constants_of, known_in, machines_in, sets_of};

use crate::channels::normal_channels;
use crate::controllers::normal_controllers;
use crate::order::order_of;
use cb_flow::ends::users_of_all;
use cb_forms::table::Table;
use cb_judge::names::{Entry, View};
use cb_lex::Memory;
use cb_lex::raw::text::RawText;
use cb_lex::token::Place;
use cb_signatures::channels::channel_forms;
use cb_signatures::operations::all_operations;
use cb_spec::system::{Channel, Controller, Machine, System};
use cb_term::table::SetTable;
use cb_texts::controllers::Outside;
use cb_texts::names::known_names;
use cb_texts::views::outer_view;
use cb_texts::whole::first_fault;
use cb_types::system::{normal_machines, sets_and_constants};
use cb_types::tables::reserved_names;
use sqlite_items::Items;
use std::alloc::Global;

/// Why a text has no system.
#[derive(Debug, Drop)]
pub enum IllFormed {
    /// The least code that occurs, at its first place. Codes are described in docs/LANGUAGE.md.
    Fault { code: u8, place: Place },
    /// Memory was wanting.
    Memory,
}

impl From<Memory> for IllFormed {
    ghost use Rattle.cb_systems.specs.declared.whole.IllFormed.TheVariants as ill;

    ghost from_gives = { λ _ e. e ≡ ill.Memory };

    fn from(_: Memory) -> IllFormed {
        IllFormed::Memory
    }
}

fn controllers_of(
    alloc: Global,
    known: &Table<Entry>,
    view: &View,
    globals: &mut Table<Entry>,
    names: &mut Table<Entry>,
    text: &RawText,
) -> Result<Items<Controller>, Memory>
    requires known { known.now ≡ known_in text.now.machines }
    requires view { view.now ≡ outer text.now.machines }
    requires globals { globals.old ≡ text_names text.now }
    requires names { names.old ≡ text_names text.now }
    ensures form { IfOk result (λ cs. cs ≡ map (controller_in (known_in text.now.machines) (text_names text.now) text.now.machines text.now.channels) text.now.controllers) }
{
    let machines = text.machines.as_slice();
    let channels = text.channels.as_slice();
    let forms = channel_forms(alloc, view, names, channels)?;
    let operations = all_operations(alloc, known, names, machines)?;
    let outside = Outside {
        machines,
        channels,
        known,
        view,
        forms: &forms,
        operations: &operations,
    };
    normal_controllers(alloc, &outside, globals, names, text.controllers.as_slice())
}

// The order of the controllers, and the channels between them.
fn order_and_channels(
    alloc: Global,
    view: &View,
    names: &mut Table<Entry>,
    text: &RawText,
) -> Result<(Items<u32>, Items<Channel>), Memory>
    requires view { view.now ≡ outer text.now.machines }
    requires names { names.old ≡ text_names text.now }
    ensures order { IfOk result (λ r. r.0 ≡ order_in (text_names text.now) text.now.order) }
    ensures channels { IfOk result (λ r. r.1 ≡ channels_in (outer text.now.machines) (text_names text.now) text.now.controllers (order_in (text_names text.now) text.now.order) 0 text.now.channels) }
    ensures kept { OnOk result (names.new ≡ names.old) }
{
    let controllers = text.controllers.as_slice();
    let channels = text.channels.as_slice();
    let order = order_of(alloc, names, &text.order)?;
    let senders = users_of_all(alloc, names, true, controllers, channels)?;
    let receivers = users_of_all(alloc, names, false, controllers, channels)?;
    let normal = normal_channels(
        alloc,
        view,
        names,
        controllers,
        &order,
        &senders,
        &receivers,
        channels,
    )?;
    Ok((order.places(alloc)?, normal))
}

// Channels and controllers. One value of several parts is one to drop where memory is wanting.
#[derive(Drop)]
struct Control {
    order: Items<u32>,
    channels: Items<Channel>,
    controllers: Items<Controller>,
}

fn control_of(
    alloc: Global,
    known: &Table<Entry>,
    globals: &mut Table<Entry>,
    names: &mut Table<Entry>,
    text: &RawText,
) -> Result<Control, Memory>
    requires known { known.now ≡ known_in text.now.machines }
    requires globals { globals.old ≡ text_names text.now }
    requires names { names.old ≡ text_names text.now }
    ensures order { IfOk result (λ r. r.order ≡ order_in (text_names text.now) text.now.order) }
    ensures channels { IfOk result (λ r. r.channels ≡ channels_in (outer text.now.machines) (text_names text.now) text.now.controllers (order_in (text_names text.now) text.now.order) 0 text.now.channels) }
    ensures controllers { IfOk result (λ r. r.controllers ≡ map (controller_in (known_in text.now.machines) (text_names text.now) text.now.machines text.now.channels) text.now.controllers) }
{
    let view = outer_view(alloc, text.machines.as_slice())?;
    let (order, channels) = order_and_channels(alloc, &view, names, text)?;
    let controllers = controllers_of(alloc, known, &view, globals, names, text)?;
    Ok(Control {
        order,
        channels,
        controllers,
    })
}

// The machines, with the sets and constants of all of them.
fn with_machines(
    alloc: Global,
    text: &RawText,
    machines: Items<Machine>,
    control: Control,
) -> Result<System, Memory>
    requires machines { machines ≡ machines_in (known_in text.now.machines) (text_names text.now) 0 text.now.machines }
    requires order { control.order ≡ order_in (text_names text.now) text.now.order }
    requires channels { control.channels ≡ channels_in (outer text.now.machines) (text_names text.now) text.now.controllers (order_in (text_names text.now) text.now.order) 0 text.now.channels }
    requires controllers { control.controllers ≡ map (controller_in (known_in text.now.machines) (text_names text.now) text.now.machines text.now.channels) text.now.controllers }
    ensures { IfOk result (λ y. IsSystemOf text.now y) }
{
    let (sets, constants) = sets_and_constants(alloc, text.machines.as_slice())?;
    let Control {
        order,
        channels,
        controllers,
    } = control;
    Ok(System {
        sets: SetTable { sets },
        constants,
        machines,
        channels,
        controllers,
        order,
    })
}

// The system of a text. The names of the whole text come twice.
fn system(
    alloc: Global,
    known: &Table<Entry>,
    globals: &mut Table<Entry>,
    names: &mut Table<Entry>,
    text: &RawText,
) -> Result<System, Memory>
    requires known { known.now ≡ known_in text.now.machines }
    requires globals { globals.old ≡ text_names text.now }
    requires names { names.old ≡ text_names text.now }
    ensures { IfOk result (λ y. IsSystemOf text.now y) }
{
    let machines = normal_machines(alloc, known, names, text.machines.as_slice())?;
    let control = control_of(alloc, known, globals, names, text)?;
    with_machines(alloc, text, machines, control)
}

/// The system of a text, in which constants stand as their numbers and each sign is one of the few that are kept. The answer is exactly
/// the least code that occurs in the text, at its first place, where one occurs.
pub fn well_formed(alloc: Global, text: &RawText) -> Result<System, IllFormed>
    ensures fine { IfOk result (λ y. WellFormed text.now) }
    ensures system { IfOk result (λ y. IsSystemOf text.now y) }
    ensures fault { IfErr result (λ e. Tells text.now e) }
{
    let known = known_names(alloc, text.machines.as_slice())?;
    let mut names = reserved_names(alloc)?;
    let mut globals = reserved_names(alloc)?;
    let first = first_fault(alloc, &known, &mut globals, &mut names, text)?;
    match first {
        Some(fault) => Err(IllFormed::Fault {
            code: fault.code,
            place: fault.place,
        }),
        None => Ok(system(alloc, &known, &mut globals, &mut names, text)?),
    }
}
