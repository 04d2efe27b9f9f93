//! Taking from a stack the values from which texts are built.

ghost use Rattle.std.specs.Prelude.{◌≡◌, ◌++◌, ◌∷◌, [], ℕ};
ghost use Rattle.cb_lex.specs.declared.token.Sort.TheVariants as sort;
ghost use Rattle.cb_lex.specs.declared.token.Keyword.TheVariants as keyword;
ghost use Rattle.cb_grammar.specs.Signatures.{stop_kind, skip_kind, if_kind, text_kind, machines_kind, channels_kind, controllers_kind, controller_kind, parameter_kind, parameters_kind, definitions_kind, process_kind, chain_kind, event_kind};
ghost use Rattle.cb_amn_parse.specs.Lexemes.{Said};
ghost use Rattle.cb_amn_parse.specs.Processes.{text_out, machines_out, channels_out, controllers_out, controller_out, parameter_out, parameters_out, definitions_out, process_out, chain_out, event_out};
ghost use Rattle.cb_amn_parse.specs.Values.{stack_out, value_out, kinds_of, kind_of, HasTop};

use cb_amn_parse::value::Value;
use cb_lex::raw::domain::RawParam;
use cb_lex::raw::event::RawEvent;
use cb_lex::raw::process::{RawProcess, RawProcesses};
use cb_lex::raw::text::{RawChannel, RawController, RawDefinition, RawMachine, RawText};
use cb_lex::token::Place;
use sqlite_items::Items;

// the top
fn pop(stack: &mut Vec<Value>) -> Value
    requires { (kind : ℕ) × HasTop stack.old.items kind }
    ensures out { stack_out stack.old.items ≡ stack_out stack.new.items ++ value_out result }
    ensures below { kinds_of stack.old.items ≡ kind_of result ∷ kinds_of stack.new.items }
{
    match stack.pop() {
        Some(value) => value,
        None => unreachable!(),
    }
}

/// Takes the word STOP from the top.
pub fn pop_stop(stack: &mut Vec<Value>) -> Place
    requires { HasTop stack.old.items stop_kind }
    ensures out { stack_out stack.old.items ≡ stack_out stack.new.items ++ Said (sort.Keyword keyword.Stop) result ∷ [] }
    ensures below { kinds_of stack.old.items ≡ stop_kind ∷ kinds_of stack.new.items }
{
    match pop(stack) {
        Value::Stop(place) => place,
        _ => unreachable!(),
    }
}

/// Takes the word SKIP from the top.
pub fn pop_skip(stack: &mut Vec<Value>) -> Place
    requires { HasTop stack.old.items skip_kind }
    ensures out { stack_out stack.old.items ≡ stack_out stack.new.items ++ Said (sort.Keyword keyword.SkipProcess) result ∷ [] }
    ensures below { kinds_of stack.old.items ≡ skip_kind ∷ kinds_of stack.new.items }
{
    match pop(stack) {
        Value::Skip(place) => place,
        _ => unreachable!(),
    }
}

/// Takes the word IF of a process from the top.
pub fn pop_if(stack: &mut Vec<Value>) -> Place
    requires { HasTop stack.old.items if_kind }
    ensures out { stack_out stack.old.items ≡ stack_out stack.new.items ++ Said (sort.Keyword keyword.If) result ∷ [] }
    ensures below { kinds_of stack.old.items ≡ if_kind ∷ kinds_of stack.new.items }
{
    match pop(stack) {
        Value::If(place) => place,
        _ => unreachable!(),
    }
}

/// Takes the machines from the top.
pub fn pop_machines(stack: &mut Vec<Value>) -> Items<RawMachine>
    requires { HasTop stack.old.items machines_kind }
    ensures out { stack_out stack.old.items ≡ stack_out stack.new.items ++ machines_out result }
    ensures below { kinds_of stack.old.items ≡ machines_kind ∷ kinds_of stack.new.items }
{
    match pop(stack) {
        Value::Machines(machines) => machines,
        _ => unreachable!(),
    }
}

/// Takes the channels from the top.
pub fn pop_channels(stack: &mut Vec<Value>) -> Items<RawChannel>
    requires { HasTop stack.old.items channels_kind }
    ensures out { stack_out stack.old.items ≡ stack_out stack.new.items ++ channels_out result }
    ensures below { kinds_of stack.old.items ≡ channels_kind ∷ kinds_of stack.new.items }
{
    match pop(stack) {
        Value::Channels(channels) => channels,
        _ => unreachable!(),
    }
}

/// Takes the controllers from the top.
pub fn pop_controllers(stack: &mut Vec<Value>) -> Items<RawController>
    requires { HasTop stack.old.items controllers_kind }
    ensures out { stack_out stack.old.items ≡ stack_out stack.new.items ++ controllers_out result }
    ensures below { kinds_of stack.old.items ≡ controllers_kind ∷ kinds_of stack.new.items }
{
    match pop(stack) {
        Value::Controllers(controllers) => controllers,
        _ => unreachable!(),
    }
}

/// Takes a controller from the top.
pub fn pop_controller(stack: &mut Vec<Value>) -> RawController
    requires { HasTop stack.old.items controller_kind }
    ensures out { stack_out stack.old.items ≡ stack_out stack.new.items ++ controller_out result }
    ensures below { kinds_of stack.old.items ≡ controller_kind ∷ kinds_of stack.new.items }
{
    match pop(stack) {
        Value::Controller(controller) => controller,
        _ => unreachable!(),
    }
}

/// Takes a parameter from the top.
pub fn pop_parameter(stack: &mut Vec<Value>) -> RawParam
    requires { HasTop stack.old.items parameter_kind }
    ensures out { stack_out stack.old.items ≡ stack_out stack.new.items ++ parameter_out result }
    ensures below { kinds_of stack.old.items ≡ parameter_kind ∷ kinds_of stack.new.items }
{
    match pop(stack) {
        Value::Parameter(parameter) => parameter,
        _ => unreachable!(),
    }
}

/// Takes the parameters from the top.
pub fn pop_parameters(stack: &mut Vec<Value>) -> Items<RawParam>
    requires { HasTop stack.old.items parameters_kind }
    ensures out { stack_out stack.old.items ≡ stack_out stack.new.items ++ parameters_out result }
    ensures below { kinds_of stack.old.items ≡ parameters_kind ∷ kinds_of stack.new.items }
{
    match pop(stack) {
        Value::Parameters(parameters) => parameters,
        _ => unreachable!(),
    }
}

/// Takes the definitions from the top.
pub fn pop_definitions(stack: &mut Vec<Value>) -> Items<RawDefinition>
    requires { HasTop stack.old.items definitions_kind }
    ensures out { stack_out stack.old.items ≡ stack_out stack.new.items ++ definitions_out result }
    ensures below { kinds_of stack.old.items ≡ definitions_kind ∷ kinds_of stack.new.items }
{
    match pop(stack) {
        Value::Definitions(definitions) => definitions,
        _ => unreachable!(),
    }
}

/// Takes a process from the top.
pub fn pop_process(stack: &mut Vec<Value>) -> RawProcess
    requires { HasTop stack.old.items process_kind }
    ensures out { stack_out stack.old.items ≡ stack_out stack.new.items ++ process_out result }
    ensures below { kinds_of stack.old.items ≡ process_kind ∷ kinds_of stack.new.items }
{
    match pop(stack) {
        Value::Process(process) => process,
        _ => unreachable!(),
    }
}

/// Takes the operands of a chain from the top.
pub fn pop_chain(stack: &mut Vec<Value>) -> RawProcesses
    requires { HasTop stack.old.items chain_kind }
    ensures out { stack_out stack.old.items ≡ stack_out stack.new.items ++ chain_out result }
    ensures below { kinds_of stack.old.items ≡ chain_kind ∷ kinds_of stack.new.items }
{
    match pop(stack) {
        Value::Chain(chain) => chain,
        _ => unreachable!(),
    }
}

/// Takes an event from the top.
pub fn pop_event(stack: &mut Vec<Value>) -> RawEvent
    requires { HasTop stack.old.items event_kind }
    ensures out { stack_out stack.old.items ≡ stack_out stack.new.items ++ event_out result }
    ensures below { kinds_of stack.old.items ≡ event_kind ∷ kinds_of stack.new.items }
{
    match pop(stack) {
        Value::Event(event) => event,
        _ => unreachable!(),
    }
}

/// Takes a text from the top.
pub fn pop_text(stack: &mut Vec<Value>) -> RawText
    requires { HasTop stack.old.items text_kind }
    ensures out { stack_out stack.old.items ≡ stack_out stack.new.items ++ text_out result }
    ensures below { kinds_of stack.old.items ≡ text_kind ∷ kinds_of stack.new.items }
{
    match pop(stack) {
        Value::Text(text) => text,
        _ => unreachable!(),
    }
}
