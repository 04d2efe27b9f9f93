//! The actions that build texts, their channels and their controllers.

ghost use Rattle.std.specs.Prelude.{◌≡◌, ◌++◌, ◌∷◌, [], IfOk, List, ℕ};
ghost use Rattle.cb_grammar.specs.Signatures.{name_kind, names_kind, terms_kind};
ghost use Rattle.cb_amn_parse.specs.Lexemes.{Did, Named};
ghost use Rattle.cb_amn_parse.specs.Formulas.{names_out, terms_out};
ghost use Rattle.cb_amn_parse.specs.Values.{stack_out, kinds_of, Takes, Turns};

use crate::Memory;
use crate::pops::{pop_channels, pop_controller, pop_controllers, pop_definitions, pop_machines};
use cb_amn_parse::value::{
    Value, pop_condition, pop_machine, pop_name, pop_names, pop_terms, push,
};
use cb_grammar::actions::{
    APPEND_CHANNEL, APPEND_CONTROLLER, APPEND_MACHINE, CONTROLLER, MACHINES_ALONE, NO_CHANNELS,
    NO_CONTROLLERS, NO_MACHINES, SYSTEM,
};
use cb_lex::raw::event::RawCall;
use cb_lex::raw::name::{RawName, RawNames};
use cb_lex::raw::text::{RawChannel, RawController, RawMachine, RawText};
use sqlite_items::Items;
use std::alloc::Global;

pub(crate) fn no_machines(alloc: Global, stack: &mut Vec<Value>) -> Result<(), Memory>
    requires { Takes stack.old.items NO_MACHINES }
    ensures out { IfOk result (λ _. stack_out stack.new.items ≡ stack_out stack.old.items ++ Did NO_MACHINES ∷ []) }
    ensures turns { IfOk result (λ _. Turns stack.old.items stack.new.items NO_MACHINES) }
{
    push(stack, Value::Machines(Items::new(alloc)))
}

// the machines with one more at the end
fn more_machines(
    mut machines: Items<RawMachine>,
    machine: RawMachine,
) -> Result<Items<RawMachine>, Memory>
    ensures { IfOk result (λ longer. longer ≡ machines ++ machine ∷ []) }
{
    machines.push(machine)?;
    Ok(machines)
}

pub(crate) fn append_machine(stack: &mut Vec<Value>) -> Result<(), Memory>
    requires { Takes stack.old.items APPEND_MACHINE }
    ensures out { IfOk result (λ _. stack_out stack.new.items ≡ stack_out stack.old.items ++ Did APPEND_MACHINE ∷ []) }
    ensures turns { IfOk result (λ _. Turns stack.old.items stack.new.items APPEND_MACHINE) }
{
    let machine = pop_machine(stack);
    let machines = pop_machines(stack);
    let longer = more_machines(machines, machine)?;
    push(stack, Value::Machines(longer))
}

pub(crate) fn machines_alone(alloc: Global, stack: &mut Vec<Value>) -> Result<(), Memory>
    requires { Takes stack.old.items MACHINES_ALONE }
    ensures out { IfOk result (λ _. stack_out stack.new.items ≡ stack_out stack.old.items ++ Did MACHINES_ALONE ∷ []) }
    ensures turns { IfOk result (λ _. Turns stack.old.items stack.new.items MACHINES_ALONE) }
{
    let machines = pop_machines(stack);
    let text = RawText {
        machines,
        channels: Items::new(alloc),
        controllers: Items::new(alloc),
        order: None,
    };
    push(stack, Value::Text(text))
}

pub(crate) fn no_controllers(alloc: Global, stack: &mut Vec<Value>) -> Result<(), Memory>
    requires { Takes stack.old.items NO_CONTROLLERS }
    ensures out { IfOk result (λ _. stack_out stack.new.items ≡ stack_out stack.old.items ++ Did NO_CONTROLLERS ∷ []) }
    ensures turns { IfOk result (λ _. Turns stack.old.items stack.new.items NO_CONTROLLERS) }
{
    push(stack, Value::Controllers(Items::new(alloc)))
}

// the controllers with one more at the end
fn more_controllers(
    mut controllers: Items<RawController>,
    controller: RawController,
) -> Result<Items<RawController>, Memory>
    ensures { IfOk result (λ longer. longer ≡ controllers ++ controller ∷ []) }
{
    controllers.push(controller)?;
    Ok(controllers)
}

pub(crate) fn append_controller(stack: &mut Vec<Value>) -> Result<(), Memory>
    requires { Takes stack.old.items APPEND_CONTROLLER }
    ensures out { IfOk result (λ _. stack_out stack.new.items ≡ stack_out stack.old.items ++ Did APPEND_CONTROLLER ∷ []) }
    ensures turns { IfOk result (λ _. Turns stack.old.items stack.new.items APPEND_CONTROLLER) }
{
    let controller = pop_controller(stack);
    let controllers = pop_controllers(stack);
    let longer = more_controllers(controllers, controller)?;
    push(stack, Value::Controllers(longer))
}

pub(crate) fn system(stack: &mut Vec<Value>) -> Result<(), Memory>
    requires { Takes stack.old.items SYSTEM }
    ensures out { IfOk result (λ _. stack_out stack.new.items ≡ stack_out stack.old.items ++ Did SYSTEM ∷ []) }
    ensures turns { IfOk result (λ _. Turns stack.old.items stack.new.items SYSTEM) }
{
    let order = pop_names(stack);
    let controllers = pop_controllers(stack);
    let channels = pop_channels(stack);
    let machines = pop_machines(stack);
    let text = RawText {
        machines,
        channels,
        controllers,
        order: Some(order),
    };
    push(stack, Value::Text(text))
}

pub(crate) fn no_channels(alloc: Global, stack: &mut Vec<Value>) -> Result<(), Memory>
    requires { Takes stack.old.items NO_CHANNELS }
    ensures out { IfOk result (λ _. stack_out stack.new.items ≡ stack_out stack.old.items ++ Did NO_CHANNELS ∷ []) }
    ensures turns { IfOk result (λ _. Turns stack.old.items stack.new.items NO_CHANNELS) }
{
    push(stack, Value::Channels(Items::new(alloc)))
}

pub(crate) fn append_channel(stack: &mut Vec<Value>) -> Result<(), Memory>
    requires { Takes stack.old.items APPEND_CHANNEL }
    ensures out { IfOk result (λ _. stack_out stack.new.items ≡ stack_out stack.old.items ++ Did APPEND_CHANNEL ∷ []) }
    ensures turns { IfOk result (λ _. Turns stack.old.items stack.new.items APPEND_CHANNEL) }
{
    let condition = pop_condition(stack);
    let values = pop_names(stack);
    let name = pop_name(stack);
    let mut channels = pop_channels(stack);
    channels.push(RawChannel {
        name,
        values,
        condition,
    })?;
    push(stack, Value::Channels(channels))
}

// a name and the terms behind it
fn pop_call(stack: &mut Vec<Value>) -> RawCall
    requires top { (r : List ℕ) × (kinds_of stack.old.items ≡ terms_kind ∷ name_kind ∷ r) }
    ensures out { stack_out stack.old.items ≡ stack_out stack.new.items ++ Named result.name ∷ terms_out result.arguments }
    ensures below { kinds_of stack.old.items ≡ terms_kind ∷ name_kind ∷ kinds_of stack.new.items }
{
    let arguments = pop_terms(stack);
    let name = pop_name(stack);
    RawCall { name, arguments }
}

// the name of a controller and its machines
fn pop_head(stack: &mut Vec<Value>) -> (RawName, RawNames)
    requires top { (r : List ℕ) × (kinds_of stack.old.items ≡ names_kind ∷ name_kind ∷ r) }
    ensures out { stack_out stack.old.items ≡ stack_out stack.new.items ++ Named result.0 ∷ names_out result.1 }
    ensures below { kinds_of stack.old.items ≡ names_kind ∷ name_kind ∷ kinds_of stack.new.items }
{
    let machines = pop_names(stack);
    let name = pop_name(stack);
    (name, machines)
}

pub(crate) fn controller(stack: &mut Vec<Value>) -> Result<(), Memory>
    requires { Takes stack.old.items CONTROLLER }
    ensures out { IfOk result (λ _. stack_out stack.new.items ≡ stack_out stack.old.items ++ Did CONTROLLER ∷ []) }
    ensures turns { IfOk result (λ _. Turns stack.old.items stack.new.items CONTROLLER) }
{
    let definitions = pop_definitions(stack);
    let start = pop_call(stack);
    let (name, machines) = pop_head(stack);
    let controller = RawController {
        name,
        machines,
        start,
        definitions,
    };
    push(stack, Value::Controller(controller))
}
