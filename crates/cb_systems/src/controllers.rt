//! The normal form of controllers.

ghost use Rattle.std.specs.Prelude.{◌≡◌, [], IfOk, OnOk, map};
ghost use Rattle.cb_controls.specs.SameDefinitions.{AreSame};
ghost use Rattle.cb_forms.specs.Find.{found};
ghost use Rattle.cb_signatures.specs.Calls.{AreCallees};
ghost use Rattle.cb_text_laws.specs.ControllerFaults.{table_of};
ghost use Rattle.cb_text_laws.specs.NormalProcesses.{arguments_in, definition_number};
ghost use Rattle.cb_text_laws.specs.NormalTexts.{controller_in, definition_in};
ghost use Rattle.cb_text_laws.specs.Signatures.{value_forms};
ghost use Rattle.cb_text_laws.specs.TextNames.{outer_view, own_machines};
ghost use Rattle.cb_types.specs.Declares.{sees_from, with_owner};
ghost use Rattle.cb_types.specs.NormalMachines.{written_name};

use crate::definitions::normal_definitions;
use crate::parts::{normal_terms, number_or_zero};
use cb_controls::definition::{Definitions, definitions_of};
use cb_forms::owners::Owners;
use cb_forms::table::Table;
use cb_judge::names::{Entry, View};
use cb_lex::Memory;
use cb_lex::raw::event::RawCall;
use cb_lex::raw::name::RawName;
use cb_lex::raw::text::RawController;
use cb_normal::formula::copy_name;
use cb_processes::process::Around;
use cb_spec::system::{Controller, Definition};
use cb_term::name::Name;
use cb_term::tree::Terms;
use cb_texts::controllers::Outside;
use cb_texts::views::controller_view;
use cb_types::tables::machine_of;
use sqlite_items::Items;
use std::alloc::Global;

// Adds the number, unless it is one of them; `seen` tells the same numbers.
fn add_number(
    seen: &mut Owners,
    numbers: &mut Items<u32>,
    number: Option<u32>,
) -> Result<(), Memory>
    requires { seen.old ≡ numbers.old }
    ensures numbers { OnOk result (numbers.new ≡ with_owner number numbers.old) }
    ensures seen { OnOk result (seen.new ≡ with_owner number numbers.old) }
{
    match number {
        None => Ok(()),
        Some(k) => {
            if seen.has(k) {
                return Ok(());
            }
            seen.add(k)?;
            numbers.push(k)
        }
    }
}

// The numbers of the machines with these names, each once.
fn machine_numbers(
    alloc: Global,
    names: &Table<Entry>,
    list: &[RawName],
) -> Result<Items<u32>, Memory>
    ensures { IfOk result (λ ks. ks ≡ sees_from names.now [] list.now) }
{
    let mut seen = Owners::new(alloc);
    let mut numbers = Items::new(alloc);
    for name in list {
        let number = machine_of(names.find(name.text.as_slice()));
        add_number(&mut seen, &mut numbers, number)?;
    }
    Ok(numbers)
}

fn name_and_machines(
    alloc: Global,
    names: &Table<Entry>,
    controller: &RawController,
) -> Result<(Name, Items<u32>), Memory>
    ensures name { IfOk result (λ r. r.0 ≡ written_name controller.now.name) }
    ensures machines { IfOk result (λ r. r.1 ≡ own_machines names.now controller.now) }
{
    let name = copy_name(alloc, &controller.name)?;
    let machines = machine_numbers(alloc, names, controller.machines.as_slice())?;
    Ok((name, machines))
}

// The number of the definition that the call names.
fn called(definitions: &Definitions, call: &RawCall) -> u32
    ensures { result ≡ definition_number (found call.now.name.text definitions.now) }
{
    number_or_zero(definitions.number(call.name.text.as_slice()))
}

// What a controller says, but for its definitions. One value of several parts is one to drop where memory is wanting.
#[derive(Drop)]
struct Heading {
    name: Name,
    machines: Items<u32>,
    start: u32,
    start_args: Terms,
}

fn controller_heading(
    alloc: Global,
    view: &View,
    names: &mut Table<Entry>,
    definitions: &Definitions,
    controller: &RawController,
) -> Result<Heading, Memory>
    ensures name { IfOk result (λ h. h.name ≡ written_name controller.now.name) }
    ensures machines { IfOk result (λ h. h.machines ≡ own_machines names.old controller.now) }
    ensures start { IfOk result (λ h. h.start ≡ definition_number (found controller.now.start.name.text definitions.now)) }
    ensures arguments { IfOk result (λ h. h.start_args ≡ arguments_in view.now names.old controller.now.start.arguments) }
    ensures kept { OnOk result (names.new ≡ names.old) }
{
    let (name, machines) = name_and_machines(alloc, names, controller)?;
    let start_args = normal_terms(alloc, view, names, controller.start.arguments.as_slice())?;
    Ok(Heading {
        name,
        machines,
        start: called(definitions, &controller.start),
        start_args,
    })
}

fn controller_definitions(
    alloc: Global,
    outside: &Outside,
    globals: &mut Table<Entry>,
    names: &mut Table<Entry>,
    definitions: &Definitions,
    controller: &RawController,
) -> Result<Items<Definition>, Memory>
    requires names { globals.old ≡ names.old }
    requires outer { outside.now.view.now ≡ outer_view outside.now.machines.now }
    requires forms { outside.now.forms.now ≡ map (value_forms outside.now.view.now globals.old) outside.now.channels.now }
    requires operations { AreCallees outside.now.known.now globals.old outside.now.machines.now outside.now.operations.now }
    requires same { AreSame definitions.now (table_of outside.now.known.now names.old outside.now.machines.now outside.now.channels.now controller.now) }
    ensures form { IfOk result (λ ds. ds ≡ map (definition_in outside.now.known.now names.old outside.now.machines.now outside.now.channels.now (own_machines names.old controller.now) (table_of outside.now.known.now names.old outside.now.machines.now outside.now.channels.now controller.now)) controller.now.definitions) }
    ensures globals { OnOk result (globals.new ≡ globals.old) }
    ensures names { OnOk result (names.new ≡ names.old) }
{
    let reading = controller_view(alloc, names, outside.machines, controller)?;
    let around = Around {
        machines: outside.machines,
        channels: outside.channels,
        known: outside.known,
        view: outside.view,
        own: &reading.reads,
        forms: outside.forms,
        operations: outside.operations,
        definitions,
    };
    let list = controller.definitions.as_slice();
    normal_definitions(alloc, &around, &reading, globals, names, list)
}

/// A controller in normal form. The names of the whole text come twice: to `names` those at a place are added for a while, and `globals`
/// keeps those of the whole text alone.
#[tactic(auto, unfolding(cb_text_laws::specs::NormalTexts::controller_with))]
pub fn normal_controller(
    alloc: Global,
    outside: &Outside,
    globals: &mut Table<Entry>,
    names: &mut Table<Entry>,
    controller: &RawController,
) -> Result<Controller, Memory>
    requires names { globals.old ≡ names.old }
    requires outer { outside.now.view.now ≡ outer_view outside.now.machines.now }
    requires forms { outside.now.forms.now ≡ map (value_forms outside.now.view.now globals.old) outside.now.channels.now }
    requires operations { AreCallees outside.now.known.now globals.old outside.now.machines.now outside.now.operations.now }
    ensures form { IfOk result (λ c. c ≡ controller_in outside.now.known.now names.old outside.now.machines.now outside.now.channels.now controller.now) }
    ensures globals { OnOk result (globals.new ≡ globals.old) }
    ensures names { OnOk result (names.new ≡ names.old) }
{
    let list = controller.definitions.as_slice();
    let table = definitions_of(alloc, outside.view, names, list)?;
    let heading = controller_heading(alloc, outside.view, names, &table, controller)?;
    let definitions = controller_definitions(alloc, outside, globals, names, &table, controller)?;
    let Heading {
        name,
        machines,
        start,
        start_args,
    } = heading;
    Ok(Controller {
        name,
        machines,
        start,
        start_args,
        definitions,
    })
}

/// Controllers in normal form, in text order.
pub fn normal_controllers(
    alloc: Global,
    outside: &Outside,
    globals: &mut Table<Entry>,
    names: &mut Table<Entry>,
    controllers: &[RawController],
) -> Result<Items<Controller>, Memory>
    requires names { globals.old ≡ names.old }
    requires outer { outside.now.view.now ≡ outer_view outside.now.machines.now }
    requires forms { outside.now.forms.now ≡ map (value_forms outside.now.view.now globals.old) outside.now.channels.now }
    requires operations { AreCallees outside.now.known.now globals.old outside.now.machines.now outside.now.operations.now }
    ensures form { IfOk result (λ cs. cs ≡ map (controller_in outside.now.known.now names.old outside.now.machines.now outside.now.channels.now) controllers.now) }
    ensures globals { OnOk result (globals.new ≡ globals.old) }
    ensures names { OnOk result (names.new ≡ names.old) }
{
    let mut all = Items::new(alloc);
    for controller in controllers {
        all.push(normal_controller(alloc, outside, globals, names, controller)?)?;
    }
    Ok(all)
}
