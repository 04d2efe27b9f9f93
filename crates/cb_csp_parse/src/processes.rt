//! The actions that build definitions and processes.

ghost use Rattle.std.specs.Prelude.{◌≡◌, ◌++◌, ◌∷◌, [], IfOk, List, ℕ};
ghost use Rattle.cb_grammar.specs.Signatures.{process_kind};
ghost use Rattle.cb_amn_parse.specs.Lexemes.{Did};
ghost use Rattle.cb_amn_parse.specs.Processes.{process_out};
ghost use Rattle.cb_amn_parse.specs.Values.{stack_out, kinds_of, Takes, Turns};
ghost use Rattle.cb_csp_parse.specs.Begun.{HasItsChains};

use crate::Memory;
use crate::pops::{
    pop_chain, pop_definitions, pop_event, pop_if, pop_parameter, pop_parameters, pop_process,
    pop_skip, pop_stop,
};
use cb_amn_parse::value::{
    Value, pop_condition, pop_domain, pop_formula, pop_name, pop_names, pop_terms, push,
};
use cb_grammar::actions::{
    APPEND_DEFINITION, APPEND_PARAMETER, APPEND_PROCESS, CALL, EXTERNAL, FIRST_TWO, INPUT,
    INTERNAL, NO_DEFINITIONS, NO_PARAMETERS, OPERATION_CALL, OUTPUT, PARAMETER_IN,
    PARAMETER_SUBSET, PREFIX, PROCESS_IF, SKIP_PROCESS, STOP,
};
use cb_lex::raw::domain::RawParam;
use cb_lex::raw::event::{RawCall, RawEvent};
use cb_lex::raw::process::{RawProcess, RawProcessNode, RawProcesses};
use cb_lex::raw::text::RawDefinition;
use sqlite_items::Items;
use std::alloc::Global;

pub(crate) fn no_parameters(alloc: Global, stack: &mut Vec<Value>) -> Result<(), Memory>
    requires { Takes stack.old.items NO_PARAMETERS }
    ensures out { IfOk result (λ _. stack_out stack.new.items ≡ stack_out stack.old.items ++ Did NO_PARAMETERS ∷ []) }
    ensures turns { IfOk result (λ _. Turns stack.old.items stack.new.items NO_PARAMETERS) }
{
    push(stack, Value::Parameters(Items::new(alloc)))
}

pub(crate) fn append_parameter(stack: &mut Vec<Value>) -> Result<(), Memory>
    requires { Takes stack.old.items APPEND_PARAMETER }
    ensures out { IfOk result (λ _. stack_out stack.new.items ≡ stack_out stack.old.items ++ Did APPEND_PARAMETER ∷ []) }
    ensures turns { IfOk result (λ _. Turns stack.old.items stack.new.items APPEND_PARAMETER) }
{
    let parameter = pop_parameter(stack);
    let mut parameters = pop_parameters(stack);
    parameters.push(parameter)?;
    push(stack, Value::Parameters(parameters))
}

pub(crate) fn parameter_in(stack: &mut Vec<Value>) -> Result<(), Memory>
    requires { Takes stack.old.items PARAMETER_IN }
    ensures out { IfOk result (λ _. stack_out stack.new.items ≡ stack_out stack.old.items ++ Did PARAMETER_IN ∷ []) }
    ensures turns { IfOk result (λ _. Turns stack.old.items stack.new.items PARAMETER_IN) }
{
    let domain = pop_domain(stack);
    let name = pop_name(stack);
    push(stack, Value::Parameter(RawParam::Member { name, domain }))
}

pub(crate) fn parameter_subset(stack: &mut Vec<Value>) -> Result<(), Memory>
    requires { Takes stack.old.items PARAMETER_SUBSET }
    ensures out { IfOk result (λ _. stack_out stack.new.items ≡ stack_out stack.old.items ++ Did PARAMETER_SUBSET ∷ []) }
    ensures turns { IfOk result (λ _. Turns stack.old.items stack.new.items PARAMETER_SUBSET) }
{
    let domain = pop_domain(stack);
    let name = pop_name(stack);
    push(stack, Value::Parameter(RawParam::Subset { name, domain }))
}

pub(crate) fn no_definitions(alloc: Global, stack: &mut Vec<Value>) -> Result<(), Memory>
    requires { Takes stack.old.items NO_DEFINITIONS }
    ensures out { IfOk result (λ _. stack_out stack.new.items ≡ stack_out stack.old.items ++ Did NO_DEFINITIONS ∷ []) }
    ensures turns { IfOk result (λ _. Turns stack.old.items stack.new.items NO_DEFINITIONS) }
{
    push(stack, Value::Definitions(Items::new(alloc)))
}

pub(crate) fn append_definition(stack: &mut Vec<Value>) -> Result<(), Memory>
    requires { Takes stack.old.items APPEND_DEFINITION }
    ensures out { IfOk result (λ _. stack_out stack.new.items ≡ stack_out stack.old.items ++ Did APPEND_DEFINITION ∷ []) }
    ensures turns { IfOk result (λ _. Turns stack.old.items stack.new.items APPEND_DEFINITION) }
{
    let process = pop_process(stack);
    let invariant = pop_condition(stack);
    let parameters = pop_parameters(stack);
    let name = pop_name(stack);
    let mut definitions = pop_definitions(stack);
    definitions.push(RawDefinition {
        name,
        parameters,
        invariant,
        process,
    })?;
    push(stack, Value::Definitions(definitions))
}

// the chain with one more at the end
fn extended(mut chain: RawProcesses, process: RawProcess) -> Result<RawProcesses, Memory>
    ensures { IfOk result (λ longer. longer ≡ chain ++ process ∷ []) }
{
    chain.push(process)?;
    Ok(chain)
}

// the chains one after the other
fn joined(mut first: RawProcesses, second: RawProcesses) -> Result<RawProcesses, Memory>
    ensures { IfOk result (λ chain. chain ≡ first ++ second) }
{
    first.append(second)?;
    Ok(first)
}

pub(crate) fn first_two(alloc: Global, stack: &mut Vec<Value>) -> Result<(), Memory>
    requires { Takes stack.old.items FIRST_TWO }
    ensures out { IfOk result (λ _. stack_out stack.new.items ≡ stack_out stack.old.items ++ Did FIRST_TWO ∷ []) }
    ensures turns { IfOk result (λ _. Turns stack.old.items stack.new.items FIRST_TWO) }
{
    let second = extended(Items::new(alloc), pop_process(stack))?;
    let first = extended(Items::new(alloc), pop_process(stack))?;
    push(stack, Value::Chain(joined(first, second)?))
}

pub(crate) fn append_process(stack: &mut Vec<Value>) -> Result<(), Memory>
    requires takes { Takes stack.old.items APPEND_PROCESS }
    requires begun { HasItsChains stack.old.items }
    ensures out { IfOk result (λ _. stack_out stack.new.items ≡ stack_out stack.old.items ++ Did APPEND_PROCESS ∷ []) }
    ensures turns { IfOk result (λ _. Turns stack.old.items stack.new.items APPEND_PROCESS) }
{
    let process = pop_process(stack);
    let chain = pop_chain(stack);
    let longer = extended(chain, process)?;
    push(stack, Value::Chain(longer))
}

pub(crate) fn external(stack: &mut Vec<Value>) -> Result<(), Memory>
    requires { Takes stack.old.items EXTERNAL }
    ensures out { IfOk result (λ _. stack_out stack.new.items ≡ stack_out stack.old.items ++ Did EXTERNAL ∷ []) }
    ensures turns { IfOk result (λ _. Turns stack.old.items stack.new.items EXTERNAL) }
{
    let chain = pop_chain(stack);
    let node = RawProcessNode::External(chain);
    push(stack, Value::Process(RawProcess { node }))
}

pub(crate) fn internal(stack: &mut Vec<Value>) -> Result<(), Memory>
    requires { Takes stack.old.items INTERNAL }
    ensures out { IfOk result (λ _. stack_out stack.new.items ≡ stack_out stack.old.items ++ Did INTERNAL ∷ []) }
    ensures turns { IfOk result (λ _. Turns stack.old.items stack.new.items INTERNAL) }
{
    let chain = pop_chain(stack);
    let node = RawProcessNode::Internal(chain);
    push(stack, Value::Process(RawProcess { node }))
}

pub(crate) fn stop(stack: &mut Vec<Value>) -> Result<(), Memory>
    requires { Takes stack.old.items STOP }
    ensures out { IfOk result (λ _. stack_out stack.new.items ≡ stack_out stack.old.items ++ Did STOP ∷ []) }
    ensures turns { IfOk result (λ _. Turns stack.old.items stack.new.items STOP) }
{
    let place = pop_stop(stack);
    let node = RawProcessNode::Stop(place);
    push(stack, Value::Process(RawProcess { node }))
}

pub(crate) fn skip(stack: &mut Vec<Value>) -> Result<(), Memory>
    requires { Takes stack.old.items SKIP_PROCESS }
    ensures out { IfOk result (λ _. stack_out stack.new.items ≡ stack_out stack.old.items ++ Did SKIP_PROCESS ∷ []) }
    ensures turns { IfOk result (λ _. Turns stack.old.items stack.new.items SKIP_PROCESS) }
{
    let place = pop_skip(stack);
    let node = RawProcessNode::Skip(place);
    push(stack, Value::Process(RawProcess { node }))
}

// the two processes on top
fn pop_pair(
    alloc: Global,
    stack: &mut Vec<Value>,
) -> Result<(Box<RawProcess>, Box<RawProcess>), Memory>
    requires top { (r : List ℕ) × (kinds_of stack.old.items ≡ process_kind ∷ process_kind ∷ r) }
    ensures out { IfOk result (λ pair. stack_out stack.old.items ≡ stack_out stack.new.items ++ process_out pair.0.value ++ process_out pair.1.value) }
    ensures below { IfOk result (λ _. kinds_of stack.old.items ≡ process_kind ∷ process_kind ∷ kinds_of stack.new.items) }
{
    let second = Box::new(alloc, pop_process(stack))?;
    let first = Box::new(alloc, pop_process(stack))?;
    Ok((first, second))
}

pub(crate) fn process_if(alloc: Global, stack: &mut Vec<Value>) -> Result<(), Memory>
    requires { Takes stack.old.items PROCESS_IF }
    ensures out { IfOk result (λ _. stack_out stack.new.items ≡ stack_out stack.old.items ++ Did PROCESS_IF ∷ []) }
    ensures turns { IfOk result (λ _. Turns stack.old.items stack.new.items PROCESS_IF) }
{
    let (then, otherwise) = pop_pair(alloc, stack)?;
    let condition = pop_formula(stack);
    let place = pop_if(stack);
    let node = RawProcessNode::If {
        place,
        condition,
        then,
        otherwise,
    };
    push(stack, Value::Process(RawProcess { node }))
}

pub(crate) fn call(stack: &mut Vec<Value>) -> Result<(), Memory>
    requires { Takes stack.old.items CALL }
    ensures out { IfOk result (λ _. stack_out stack.new.items ≡ stack_out stack.old.items ++ Did CALL ∷ []) }
    ensures turns { IfOk result (λ _. Turns stack.old.items stack.new.items CALL) }
{
    let arguments = pop_terms(stack);
    let name = pop_name(stack);
    let node = RawProcessNode::Call(RawCall { name, arguments });
    push(stack, Value::Process(RawProcess { node }))
}

pub(crate) fn prefix(alloc: Global, stack: &mut Vec<Value>) -> Result<(), Memory>
    requires { Takes stack.old.items PREFIX }
    ensures out { IfOk result (λ _. stack_out stack.new.items ≡ stack_out stack.old.items ++ Did PREFIX ∷ []) }
    ensures turns { IfOk result (λ _. Turns stack.old.items stack.new.items PREFIX) }
{
    let process = Box::new(alloc, pop_process(stack))?;
    let event = pop_event(stack);
    let node = RawProcessNode::Prefix { event, process };
    push(stack, Value::Process(RawProcess { node }))
}

pub(crate) fn output(stack: &mut Vec<Value>) -> Result<(), Memory>
    requires { Takes stack.old.items OUTPUT }
    ensures out { IfOk result (λ _. stack_out stack.new.items ≡ stack_out stack.old.items ++ Did OUTPUT ∷ []) }
    ensures turns { IfOk result (λ _. Turns stack.old.items stack.new.items OUTPUT) }
{
    let condition = pop_condition(stack);
    let values = pop_terms(stack);
    let channel = pop_name(stack);
    let event = RawEvent::Output {
        channel,
        values,
        condition,
    };
    push(stack, Value::Event(event))
}

pub(crate) fn input(stack: &mut Vec<Value>) -> Result<(), Memory>
    requires { Takes stack.old.items INPUT }
    ensures out { IfOk result (λ _. stack_out stack.new.items ≡ stack_out stack.old.items ++ Did INPUT ∷ []) }
    ensures turns { IfOk result (λ _. Turns stack.old.items stack.new.items INPUT) }
{
    let condition = pop_condition(stack);
    let names = pop_names(stack);
    let channel = pop_name(stack);
    let event = RawEvent::Input {
        channel,
        names,
        condition,
    };
    push(stack, Value::Event(event))
}

pub(crate) fn operation_call(stack: &mut Vec<Value>) -> Result<(), Memory>
    requires { Takes stack.old.items OPERATION_CALL }
    ensures out { IfOk result (λ _. stack_out stack.new.items ≡ stack_out stack.old.items ++ Did OPERATION_CALL ∷ []) }
    ensures turns { IfOk result (λ _. Turns stack.old.items stack.new.items OPERATION_CALL) }
{
    let results = pop_names(stack);
    let arguments = pop_terms(stack);
    let operation = pop_name(stack);
    let machine = pop_name(stack);
    let event = RawEvent::Operation {
        machine,
        operation,
        arguments,
        results,
    };
    push(stack, Value::Event(event))
}
