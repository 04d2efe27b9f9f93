//! Faults of controllers.

ghost use Rattle.std.specs.Prelude.{◌≡◌, [], IfOk, OnOk, map};
ghost use Rattle.cb_controls.specs.SameDefinitions.{AreSame};
ghost use Rattle.cb_forms.specs.Faults.{Both, first};
ghost use Rattle.cb_signatures.specs.Calls.{AreCallees};
ghost use Rattle.cb_text_laws.specs.ControllerFaults as spec;
ghost use Rattle.cb_text_laws.specs.Signatures.{definitions_from, value_forms};
ghost use Rattle.cb_text_laws.specs.TextNames.{outer_view, own_machines, view_with};

use crate::views::controller_view;
use cb_controls::channel::judge_maybe;
use cb_controls::definition::{
    Definitions, declare_parameters, definition_names_fault, definitions_of,
};
use cb_controls::start::start_fault;
use cb_flow::silent::silent_fault;
use cb_forms::fault::{Fault, earlier};
use cb_forms::form::Form;
use cb_forms::table::Table;
use cb_judge::names::{Entry, View};
use cb_lex::Memory;
use cb_lex::raw::text::{RawChannel, RawController, RawDefinition, RawMachine};
use cb_processes::process::{Around, process_fault};
use cb_signatures::operations::Operations;
use cb_types::declare::next_number;
use sqlite_items::Items;
use std::alloc::Global;

/// What is known in all controllers.
#[derive(Clone, Copy)]
pub struct Outside<'a> {
    pub machines: &'a [RawMachine],
    pub channels: &'a [RawChannel],
    /// The names that stand before variables are known.
    pub known: &'a Table<Entry>,
    /// What is known outside of machines.
    pub view: &'a View,
    /// The forms of the channels' values.
    pub forms: &'a Items<Items<Form>>,
    pub operations: &'a Operations,
}

// The first fault of a definition. Its invariant alone reads variables, in the view `reading`.
#[tactic(auto, unfolding(cb_text_laws::specs::ControllerFaults::definition_fault))]
fn definition_fault(
    alloc: Global,
    around: &Around,
    reading: &View,
    globals: &mut Table<Entry>,
    names: &mut Table<Entry>,
    number: u32,
    definition: &RawDefinition,
) -> Result<Option<Fault>, Memory>
    requires names { globals.old ≡ names.old }
    requires outer { around.now.view.now ≡ outer_view around.now.machines.now }
    requires reading { reading.now ≡ view_with around.now.own.now around.now.machines.now }
    requires forms { around.now.forms.now ≡ map (value_forms around.now.view.now globals.old) around.now.channels.now }
    requires operations { AreCallees around.now.known.now globals.old around.now.machines.now around.now.operations.now }
    ensures fault { IfOk result (λ f. f ≡ first (spec.definition_fault around.now.known.now names.old around.now.machines.now around.now.channels.now around.now.own.now around.now.definitions.now number definition.now)) }
    ensures globals { OnOk result (globals.new ≡ globals.old) }
    ensures names { OnOk result (names.new ≡ names.old) }
{
    let outside = names.len();
    let parameters = declare_parameters(alloc, around.view, names, definition)?;
    let invariant = judge_maybe(alloc, reading, names, &definition.invariant)?;
    let process = process_fault(
        alloc,
        around,
        globals,
        number,
        names,
        false,
        &definition.process,
    )?;
    names.leave(outside);
    Ok(earlier(parameters, earlier(invariant, process)))
}

// The first fault of a controller's definitions.
fn definitions_fault(
    alloc: Global,
    around: &Around,
    reading: &View,
    globals: &mut Table<Entry>,
    names: &mut Table<Entry>,
    definitions: &[RawDefinition],
) -> Result<Option<Fault>, Memory>
    requires names { globals.old ≡ names.old }
    requires outer { around.now.view.now ≡ outer_view around.now.machines.now }
    requires reading { reading.now ≡ view_with around.now.own.now around.now.machines.now }
    requires forms { around.now.forms.now ≡ map (value_forms around.now.view.now globals.old) around.now.channels.now }
    requires operations { AreCallees around.now.known.now globals.old around.now.machines.now around.now.operations.now }
    ensures fault { IfOk result (λ f. f ≡ first (spec.definitions_fault around.now.known.now names.old around.now.machines.now around.now.channels.now around.now.own.now around.now.definitions.now 0 definitions.now)) }
    ensures globals { OnOk result (globals.new ≡ globals.old) }
    ensures names { OnOk result (names.new ≡ names.old) }
{
    let mut fault = None;
    let mut number = 0;
    for definition in definitions {
        let own = definition_fault(alloc, around, reading, globals, names, number, definition)?;
        fault = earlier(fault, own);
        number = next_number(number);
    }
    Ok(fault)
}

// The first fault of the names of a controller's definitions and of its start.
fn head_fault(
    alloc: Global,
    view: &View,
    names: &mut Table<Entry>,
    definitions: &Definitions,
    controller: &RawController,
) -> Result<Option<Fault>, Memory>
    requires { AreSame definitions.now (definitions_from view.now names.old 0 controller.now.definitions) }
    ensures fault { IfOk result (λ f. f ≡ first (Both (spec.definition_names_fault [] controller.now.definitions) (spec.start_fault view.now names.old (definitions_from view.now names.old 0 controller.now.definitions) controller.now.start))) }
    ensures kept { OnOk result (names.new ≡ names.old) }
{
    let twice = definition_names_fault(alloc, controller.definitions.as_slice())?;
    let start = start_fault(alloc, view, names, definitions, &controller.start)?;
    Ok(earlier(twice, start))
}

// The first fault inside of a controller's definitions.
fn inside_fault(
    alloc: Global,
    outside: &Outside,
    globals: &mut Table<Entry>,
    names: &mut Table<Entry>,
    definitions: &Definitions,
    controller: &RawController,
) -> Result<Option<Fault>, Memory>
    requires names { globals.old ≡ names.old }
    requires outer { outside.now.view.now ≡ outer_view outside.now.machines.now }
    requires forms { outside.now.forms.now ≡ map (value_forms outside.now.view.now globals.old) outside.now.channels.now }
    requires operations { AreCallees outside.now.known.now globals.old outside.now.machines.now outside.now.operations.now }
    requires same { AreSame definitions.now (spec.table_of outside.now.known.now names.old outside.now.machines.now outside.now.channels.now controller.now) }
    ensures fault { IfOk result (λ f. f ≡ first (spec.definitions_fault outside.now.known.now names.old outside.now.machines.now outside.now.channels.now (own_machines names.old controller.now) (spec.table_of outside.now.known.now names.old outside.now.machines.now outside.now.channels.now controller.now) 0 controller.now.definitions)) }
    ensures globals { OnOk result (globals.new ≡ globals.old) }
    ensures names { OnOk result (names.new ≡ names.old) }
{
    let reading = controller_view(alloc, names, outside.machines, controller)?;
    let around = Around {
        machines: outside.machines,
        channels: outside.channels,
        known: outside.known,
        view: outside.view,
        own: &reading.reads,
        forms: outside.forms,
        operations: outside.operations,
        definitions,
    };
    let list = controller.definitions.as_slice();
    definitions_fault(alloc, &around, &reading, globals, names, list)
}

// The first fault of a controller.
#[tactic(auto, unfolding(cb_text_laws::specs::ControllerFaults::controller_fault))]
fn controller_fault(
    alloc: Global,
    outside: &Outside,
    globals: &mut Table<Entry>,
    names: &mut Table<Entry>,
    controller: &RawController,
) -> Result<Option<Fault>, Memory>
    requires names { globals.old ≡ names.old }
    requires outer { outside.now.view.now ≡ outer_view outside.now.machines.now }
    requires forms { outside.now.forms.now ≡ map (value_forms outside.now.view.now globals.old) outside.now.channels.now }
    requires operations { AreCallees outside.now.known.now globals.old outside.now.machines.now outside.now.operations.now }
    ensures fault { IfOk result (λ f. f ≡ first (spec.controller_fault outside.now.known.now names.old outside.now.machines.now outside.now.channels.now controller.now)) }
    ensures globals { OnOk result (globals.new ≡ globals.old) }
    ensures names { OnOk result (names.new ≡ names.old) }
{
    let list = controller.definitions.as_slice();
    let definitions = definitions_of(alloc, outside.view, names, list)?;
    let head = head_fault(alloc, outside.view, names, &definitions, controller)?;
    let inside = inside_fault(alloc, outside, globals, names, &definitions, controller)?;
    let silent = silent_fault(alloc, list)?;
    Ok(earlier(head, earlier(inside, silent)))
}

/// The first fault of controllers. The names of the whole text come twice: to `names` those at a place are added for a while, and
/// `globals` keeps those of the whole text alone.
pub fn controllers_fault(
    alloc: Global,
    outside: &Outside,
    globals: &mut Table<Entry>,
    names: &mut Table<Entry>,
    controllers: &[RawController],
) -> Result<Option<Fault>, Memory>
    requires names { globals.old ≡ names.old }
    requires outer { outside.now.view.now ≡ outer_view outside.now.machines.now }
    requires forms { outside.now.forms.now ≡ map (value_forms outside.now.view.now globals.old) outside.now.channels.now }
    requires operations { AreCallees outside.now.known.now globals.old outside.now.machines.now outside.now.operations.now }
    ensures fault { IfOk result (λ f. f ≡ first (spec.controllers_fault outside.now.known.now names.old outside.now.machines.now outside.now.channels.now controllers.now)) }
    ensures globals { OnOk result (globals.new ≡ globals.old) }
    ensures names { OnOk result (names.new ≡ names.old) }
{
    let mut fault = None;
    for controller in controllers {
        let own = controller_fault(alloc, outside, globals, names, controller)?;
        fault = earlier(fault, own);
    }
    Ok(fault)
}
