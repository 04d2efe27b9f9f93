//! From the items that the grammar writes to the values for which they are written.

ghost use Rattle.std.specs.Prelude.{◌≡◌, ◌≤◌, ◌++◌, ◌∷◌, [], IfOk, List, ℕ, Some, true};
ghost use Rattle.cb_engine.specs.Kinds.{kinds};
ghost use Rattle.cb_grammar.specs.Signatures.{signatures};
ghost use Rattle.cb_amn_parse.specs.Lexemes.{Did, lexeme, lexemes};
ghost use Rattle.cb_amn_parse.specs.Own.{GoesOn};
ghost use Rattle.cb_amn_parse.specs.Spelling.{IsHeard, AreHeard};
ghost use Rattle.cb_amn_parse.specs.Values.{stack_out, kinds_of, Takes, Turns};
ghost use Rattle.cb_csp_parse.specs.Begun.{HasItsChains};
ghost use Rattle.cb_csp_parse.specs.TextKinds.{are_of_texts, IsTextAction, FitsText};

use crate::words::word;
use crate::{Memory, processes, texts};
use cb_amn_parse::evaluate;
use cb_amn_parse::value::{Value, push};
use cb_grammar::Item;
use cb_grammar::actions::{
    APPEND_CHANNEL, APPEND_CONTROLLER, APPEND_DEFINITION, APPEND_MACHINE, APPEND_PARAMETER,
    APPEND_PROCESS, CALL, CONTROLLER, EXTERNAL, FIRST_TWO, INPUT, INTERNAL, MACHINES_ALONE,
    NAME_END, NO_CHANNELS, NO_CONTROLLERS, NO_DEFINITIONS, NO_MACHINES, NO_PARAMETERS,
    OPERATION_CALL, OUTPUT, PARAMETER_IN, PARAMETER_SUBSET, PREFIX, PROCESS_IF, SKIP_PROCESS, STOP,
    SYSTEM,
};
use cb_lex::token::Token;
use std::alloc::Global;

// the actions of whole texts
fn act_text(alloc: Global, action: u8, stack: &mut Vec<Value>) -> Result<(), Memory>
    requires one { action ≤ SYSTEM }
    requires takes { Takes stack.old.items action }
    ensures out { IfOk result (λ _. stack_out stack.new.items ≡ stack_out stack.old.items ++ Did action ∷ []) }
    ensures turns { IfOk result (λ _. Turns stack.old.items stack.new.items action) }
{
    match action {
        NO_MACHINES => texts::no_machines(alloc, stack),
        APPEND_MACHINE => texts::append_machine(stack),
        MACHINES_ALONE => texts::machines_alone(alloc, stack),
        NO_CONTROLLERS => texts::no_controllers(alloc, stack),
        APPEND_CONTROLLER => texts::append_controller(stack),
        SYSTEM => texts::system(stack),
        _ => unreachable!(),
    }
}

// the actions of channels, controllers and their definitions
fn act_controller(alloc: Global, action: u8, stack: &mut Vec<Value>) -> Result<(), Memory>
    requires one { (NO_CHANNELS ≤ action) × (action ≤ APPEND_DEFINITION) }
    requires takes { Takes stack.old.items action }
    ensures out { IfOk result (λ _. stack_out stack.new.items ≡ stack_out stack.old.items ++ Did action ∷ []) }
    ensures turns { IfOk result (λ _. Turns stack.old.items stack.new.items action) }
{
    match action {
        NO_CHANNELS => texts::no_channels(alloc, stack),
        APPEND_CHANNEL => texts::append_channel(stack),
        CONTROLLER => texts::controller(stack),
        NO_PARAMETERS => processes::no_parameters(alloc, stack),
        APPEND_PARAMETER => processes::append_parameter(stack),
        PARAMETER_IN => processes::parameter_in(stack),
        PARAMETER_SUBSET => processes::parameter_subset(stack),
        NO_DEFINITIONS => processes::no_definitions(alloc, stack),
        APPEND_DEFINITION => processes::append_definition(stack),
        _ => unreachable!(),
    }
}

// the actions of processes
fn act_process(alloc: Global, action: u8, stack: &mut Vec<Value>) -> Result<(), Memory>
    requires one { (FIRST_TWO ≤ action) × (action ≤ OPERATION_CALL) }
    requires takes { Takes stack.old.items action }
    requires begun { HasItsChains stack.old.items }
    ensures out { IfOk result (λ _. stack_out stack.new.items ≡ stack_out stack.old.items ++ Did action ∷ []) }
    ensures turns { IfOk result (λ _. Turns stack.old.items stack.new.items action) }
{
    match action {
        FIRST_TWO => processes::first_two(alloc, stack),
        APPEND_PROCESS => processes::append_process(stack),
        EXTERNAL => processes::external(stack),
        INTERNAL => processes::internal(stack),
        STOP => processes::stop(stack),
        SKIP_PROCESS => processes::skip(stack),
        PROCESS_IF => processes::process_if(alloc, stack),
        CALL => processes::call(stack),
        PREFIX => processes::prefix(alloc, stack),
        OUTPUT => processes::output(stack),
        INPUT => processes::input(stack),
        OPERATION_CALL => processes::operation_call(stack),
        _ => unreachable!(),
    }
}

/// Does one action over the values on top. `begun` says that the chains on the stack are those that were begun: a chain of
/// one operand can't be appended to.
pub fn act(alloc: Global, action: u8, stack: &mut Vec<Value>) -> Result<(), Memory>
    requires own { IsTextAction action }
    requires takes { Takes stack.old.items action }
    requires begun { HasItsChains stack.old.items }
    ensures out { IfOk result (λ _. stack_out stack.new.items ≡ stack_out stack.old.items ++ Did action ∷ []) }
    ensures turns { IfOk result (λ _. Turns stack.old.items stack.new.items action) }
{
    if action <= SYSTEM {
        act_text(alloc, action, stack)
    } else if action <= NAME_END {
        evaluate::act(alloc, action, stack)
    } else if action <= APPEND_DEFINITION {
        act_controller(alloc, action, stack)
    } else if action <= OPERATION_CALL {
        act_process(alloc, action, stack)
    } else {
        evaluate::act(alloc, action, stack)
    }
}

// Puts a word on top, or does an action.
fn take_item(
    alloc: Global,
    tokens: &[Token],
    item: Item,
    stack: &mut Vec<Value>,
) -> Result<(), Memory>
    requires heard { IsHeard tokens.now item }
    requires own { FitsText (kinds_of stack.old.items) item }
    requires begun { HasItsChains stack.old.items }
    ensures out { IfOk result (λ _. stack_out stack.new.items ≡ stack_out stack.old.items ++ lexeme tokens.now item ∷ []) }
    ensures fits { IfOk result (λ _. GoesOn (kinds_of stack.old.items) (kinds_of stack.new.items) item) }
{
    match item {
        Item::Word(terminal) => {
            let value = word(alloc, tokens, terminal)?;
            push(stack, value)
        }
        Item::Do(action) => act(alloc, action, stack),
    }
}

/// The values for which these items are written.
pub fn evaluate(alloc: Global, tokens: &[Token], items: &[Item]) -> Result<Vec<Value>, Memory>
    requires heard { AreHeard tokens.now items.now }
    requires fits { (end : List ℕ) × (kinds signatures items.now [] ≡ Some end) × (are_of_texts end ≡ true) }
    ensures out { IfOk result (λ stack. stack_out stack.items ≡ lexemes tokens.now items.now) }
    ensures kinds { IfOk result (λ stack. Some (kinds_of stack.items) ≡ kinds signatures items.now []) }
{
    let mut stack = Vec::new(alloc);
    for item in items {
        take_item(alloc, tokens, *item, &mut stack)?;
    }
    Ok(stack)
}
