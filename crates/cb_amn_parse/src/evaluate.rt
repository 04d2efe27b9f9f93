//! From the items that the grammar writes to the values for which they are written.

ghost use Rattle.std.specs.Prelude.{◌≡◌, ◌≤◌, ◌++◌, ◌∷◌, [], IfOk, List, ℕ, Some, true};
ghost use Rattle.cb_engine.specs.Kinds.{kinds};
ghost use Rattle.cb_grammar.specs.Signatures.{signatures};
ghost use Rattle.cb_amn_parse.specs.Lexemes.{Did, lexeme, lexemes};
ghost use Rattle.cb_amn_parse.specs.Own.{are_own, IsOwnAction, FitsOwn, GoesOn};
ghost use Rattle.cb_amn_parse.specs.Spelling.{IsHeard, AreHeard};
ghost use Rattle.cb_amn_parse.specs.Values.{stack_out, kinds_of, Takes, Turns};

use crate::value::{Value, push};
use crate::words::word;
use crate::{Memory, formulas, machines, substitutions, terms};
use cb_grammar::Item;
use cb_grammar::actions::{
    ALWAYS_FALSE, ALWAYS_TRUE, AMONG, AND, ANY, APPEND_NAME, APPEND_OPERATION, APPEND_PROPERTY,
    APPEND_SET, APPEND_SIDE, APPEND_TERM, ASSIGN, BINARY, BOOL, BOUND, CARD, CHOICE, EQUIVALENT,
    EXISTS, FOR_ALL, IF, IF_WITHOUT_ELSE, IMPLIES, LIMIT_END, LIMIT_LITERAL, LIMIT_TERM, LISTED,
    LITERAL, MACHINE, MINUS, MINUS_BOUND, MINUS_LITERAL, NAME_END, NAME_TERM, NAMED_DOMAIN,
    NO_CONDITION, NO_NAMES, NO_OPERATIONS, NO_PROPERTIES, NO_SETS, NO_SIDES, NO_STATE, NO_TERMS,
    NOT, NUMBER_END, NUMBER_TERM, OR, PARALLEL, RANGE, RELATION, SET_DOMAIN, SET_TERM, SKIP,
    SOME_CONDITION, SOME_STATE, SUBTRACT, TRUTH_TERM,
};
use cb_lex::token::Token;
use std::alloc::Global;

// the actions of machines
fn act_machine(alloc: Global, action: u8, stack: &mut Vec<Value>) -> Result<(), Memory>
    requires one { (MACHINE ≤ action) × (action ≤ NO_CONDITION) }
    requires takes { Takes stack.old.items action }
    ensures out { IfOk result (λ _. stack_out stack.new.items ≡ stack_out stack.old.items ++ Did action ∷ []) }
    ensures turns { IfOk result (λ _. Turns stack.old.items stack.new.items action) }
{
    match action {
        MACHINE => machines::machine(stack),
        NO_NAMES => machines::no_names(alloc, stack),
        APPEND_NAME => machines::append_name(stack),
        NO_SETS => machines::no_sets(alloc, stack),
        APPEND_SET => machines::append_set(stack),
        NO_PROPERTIES => machines::no_properties(alloc, stack),
        APPEND_PROPERTY => machines::append_property(stack),
        LITERAL => machines::literal(stack),
        MINUS_LITERAL => machines::minus_literal(stack),
        LIMIT_LITERAL => machines::limit_literal(stack),
        NO_STATE => machines::no_state(stack),
        SOME_STATE => machines::some_state(stack),
        NO_OPERATIONS => machines::no_operations(alloc, stack),
        APPEND_OPERATION => machines::append_operation(stack),
        SOME_CONDITION => formulas::some_condition(stack),
        NO_CONDITION => formulas::no_condition(stack),
        _ => unreachable!(),
    }
}

// the actions of substitutions
fn act_substitution(alloc: Global, action: u8, stack: &mut Vec<Value>) -> Result<(), Memory>
    requires one { (PARALLEL ≤ action) × (action ≤ ANY) }
    requires takes { Takes stack.old.items action }
    ensures out { IfOk result (λ _. stack_out stack.new.items ≡ stack_out stack.old.items ++ Did action ∷ []) }
    ensures turns { IfOk result (λ _. Turns stack.old.items stack.new.items action) }
{
    match action {
        PARALLEL => substitutions::parallel(alloc, stack),
        SKIP => substitutions::skip(stack),
        ASSIGN => substitutions::assign(stack),
        AMONG => substitutions::among(stack),
        IF => substitutions::if_with_else(alloc, stack),
        IF_WITHOUT_ELSE => substitutions::if_without_else(alloc, stack),
        NO_SIDES => substitutions::no_sides(alloc, stack),
        APPEND_SIDE => substitutions::append_side(stack),
        CHOICE => substitutions::choice(stack),
        ANY => substitutions::any(alloc, stack),
        _ => unreachable!(),
    }
}

// the actions of domains
fn act_domain(alloc: Global, action: u8, stack: &mut Vec<Value>) -> Result<(), Memory>
    requires one { (NAMED_DOMAIN ≤ action) × (action ≤ NAME_END) }
    requires takes { Takes stack.old.items action }
    ensures out { IfOk result (λ _. stack_out stack.new.items ≡ stack_out stack.old.items ++ Did action ∷ []) }
    ensures turns { IfOk result (λ _. Turns stack.old.items stack.new.items action) }
{
    match action {
        NAMED_DOMAIN => substitutions::named_domain(stack),
        SET_DOMAIN => substitutions::set_domain(stack),
        RANGE => substitutions::range(stack),
        BOUND => substitutions::bound(stack),
        MINUS_BOUND => substitutions::minus_bound(stack),
        NUMBER_END => substitutions::number_end(stack),
        LIMIT_END => substitutions::limit_end(stack),
        NAME_END => substitutions::name_end(stack),
        _ => unreachable!(),
    }
}

// the actions of formulas
fn act_formula(alloc: Global, action: u8, stack: &mut Vec<Value>) -> Result<(), Memory>
    requires one { (ALWAYS_TRUE ≤ action) × (action ≤ RELATION) }
    requires takes { Takes stack.old.items action }
    ensures out { IfOk result (λ _. stack_out stack.new.items ≡ stack_out stack.old.items ++ Did action ∷ []) }
    ensures turns { IfOk result (λ _. Turns stack.old.items stack.new.items action) }
{
    match action {
        ALWAYS_TRUE => formulas::always_true(stack),
        ALWAYS_FALSE => formulas::always_false(stack),
        NOT => formulas::not(alloc, stack),
        AND => formulas::and(alloc, stack),
        OR => formulas::or(alloc, stack),
        IMPLIES => formulas::implies(alloc, stack),
        EQUIVALENT => formulas::equivalent(alloc, stack),
        FOR_ALL => formulas::for_all(alloc, stack),
        EXISTS => formulas::exists(alloc, stack),
        RELATION => formulas::relation(stack),
        _ => unreachable!(),
    }
}

// the actions of terms
fn act_term(alloc: Global, action: u8, stack: &mut Vec<Value>) -> Result<(), Memory>
    requires one { (NO_TERMS ≤ action) × (action ≤ LISTED) }
    requires takes { Takes stack.old.items action }
    ensures out { IfOk result (λ _. stack_out stack.new.items ≡ stack_out stack.old.items ++ Did action ∷ []) }
    ensures turns { IfOk result (λ _. Turns stack.old.items stack.new.items action) }
{
    match action {
        NO_TERMS => terms::no_terms(alloc, stack),
        APPEND_TERM => terms::append_term(stack),
        NAME_TERM => terms::name_term(stack),
        NUMBER_TERM => terms::number_term(stack),
        TRUTH_TERM => terms::truth_term(stack),
        LIMIT_TERM => terms::limit_term(stack),
        SET_TERM => terms::set_term(stack),
        MINUS => terms::minus(alloc, stack),
        BINARY => terms::binary(alloc, stack),
        SUBTRACT => terms::subtract(alloc, stack),
        CARD => terms::card(alloc, stack),
        BOOL => terms::truth_of(alloc, stack),
        LISTED => terms::listed(stack),
        _ => unreachable!(),
    }
}

/// Does one action over the values on top.
pub fn act(alloc: Global, action: u8, stack: &mut Vec<Value>) -> Result<(), Memory>
    requires own { IsOwnAction action }
    requires takes { Takes stack.old.items action }
    ensures out { IfOk result (λ _. stack_out stack.new.items ≡ stack_out stack.old.items ++ Did action ∷ []) }
    ensures turns { IfOk result (λ _. Turns stack.old.items stack.new.items action) }
{
    if action <= NO_CONDITION {
        act_machine(alloc, action, stack)
    } else if action <= ANY {
        act_substitution(alloc, action, stack)
    } else if action <= NAME_END {
        act_domain(alloc, action, stack)
    } else if action <= RELATION {
        act_formula(alloc, action, stack)
    } else {
        act_term(alloc, action, stack)
    }
}

// Puts a word on top, or does an action.
fn take_item(
    alloc: Global,
    tokens: &[Token],
    item: Item,
    stack: &mut Vec<Value>,
) -> Result<(), Memory>
    requires heard { IsHeard tokens.now item }
    requires own { FitsOwn (kinds_of stack.old.items) item }
    ensures out { IfOk result (λ _. stack_out stack.new.items ≡ stack_out stack.old.items ++ lexeme tokens.now item ∷ []) }
    ensures fits { IfOk result (λ _. GoesOn (kinds_of stack.old.items) (kinds_of stack.new.items) item) }
{
    match item {
        Item::Word(terminal) => {
            let value = word(alloc, tokens, terminal)?;
            push(stack, value)
        }
        Item::Do(action) => act(alloc, action, stack),
    }
}

/// The values for which these items are written.
pub fn evaluate(alloc: Global, tokens: &[Token], items: &[Item]) -> Result<Vec<Value>, Memory>
    requires heard { AreHeard tokens.now items.now }
    requires fits { (end : List ℕ) × (kinds signatures items.now [] ≡ Some end) × (are_own end ≡ true) }
    ensures out { IfOk result (λ stack. stack_out stack.items ≡ lexemes tokens.now items.now) }
    ensures kinds { IfOk result (λ stack. Some (kinds_of stack.items) ≡ kinds signatures items.now []) }
{
    let mut stack = Vec::new(alloc);
    for item in items {
        take_item(alloc, tokens, *item, &mut stack)?;
    }
    Ok(stack)
}
