//! The actions that build machines.

ghost use Rattle.std.specs.Prelude.{◌≡◌, ◌++◌, ◌∷◌, [], IfOk, List, ℕ};
ghost use Rattle.cb_grammar.specs.Signatures.{name_kind, names_kind, sets_kind, properties_kind, state_kind};
ghost use Rattle.cb_amn_parse.specs.Lexemes.{Did, Named};
ghost use Rattle.cb_amn_parse.specs.Formulas.{names_out};
ghost use Rattle.cb_amn_parse.specs.Machines.{sets_out, properties_out, state_out};
ghost use Rattle.cb_amn_parse.specs.Values.{stack_out, kinds_of, Takes, Turns};

use crate::Memory;
use crate::value::{
    Limit, Value, pop_condition, pop_formula, pop_limit, pop_literal, pop_name, pop_names,
    pop_number, pop_operations, pop_properties, pop_sets, pop_state, pop_subst, push,
};
use cb_grammar::actions::{
    APPEND_NAME, APPEND_OPERATION, APPEND_PROPERTY, APPEND_SET, LIMIT_LITERAL, LITERAL, MACHINE,
    MINUS_LITERAL, NO_NAMES, NO_OPERATIONS, NO_PROPERTIES, NO_SETS, NO_STATE, SOME_STATE,
};
use cb_lex::raw::domain::RawLiteral;
use cb_lex::raw::name::{RawName, RawNames};
use cb_lex::raw::text::{RawMachine, RawOperation, RawProperty, RawSet, RawState};
use sqlite_items::Items;
use std::alloc::Global;

pub(crate) fn no_names(alloc: Global, stack: &mut Vec<Value>) -> Result<(), Memory>
    requires { Takes stack.old.items NO_NAMES }
    ensures out { IfOk result (λ _. stack_out stack.new.items ≡ stack_out stack.old.items ++ Did NO_NAMES ∷ []) }
    ensures turns { IfOk result (λ _. Turns stack.old.items stack.new.items NO_NAMES) }
{
    push(stack, Value::Names(Items::new(alloc)))
}

pub(crate) fn no_sets(alloc: Global, stack: &mut Vec<Value>) -> Result<(), Memory>
    requires { Takes stack.old.items NO_SETS }
    ensures out { IfOk result (λ _. stack_out stack.new.items ≡ stack_out stack.old.items ++ Did NO_SETS ∷ []) }
    ensures turns { IfOk result (λ _. Turns stack.old.items stack.new.items NO_SETS) }
{
    push(stack, Value::Sets(Items::new(alloc)))
}

pub(crate) fn no_properties(alloc: Global, stack: &mut Vec<Value>) -> Result<(), Memory>
    requires { Takes stack.old.items NO_PROPERTIES }
    ensures out { IfOk result (λ _. stack_out stack.new.items ≡ stack_out stack.old.items ++ Did NO_PROPERTIES ∷ []) }
    ensures turns { IfOk result (λ _. Turns stack.old.items stack.new.items NO_PROPERTIES) }
{
    push(stack, Value::Properties(Items::new(alloc)))
}

pub(crate) fn no_operations(alloc: Global, stack: &mut Vec<Value>) -> Result<(), Memory>
    requires { Takes stack.old.items NO_OPERATIONS }
    ensures out { IfOk result (λ _. stack_out stack.new.items ≡ stack_out stack.old.items ++ Did NO_OPERATIONS ∷ []) }
    ensures turns { IfOk result (λ _. Turns stack.old.items stack.new.items NO_OPERATIONS) }
{
    push(stack, Value::Operations(Items::new(alloc)))
}

pub(crate) fn append_name(stack: &mut Vec<Value>) -> Result<(), Memory>
    requires { Takes stack.old.items APPEND_NAME }
    ensures out { IfOk result (λ _. stack_out stack.new.items ≡ stack_out stack.old.items ++ Did APPEND_NAME ∷ []) }
    ensures turns { IfOk result (λ _. Turns stack.old.items stack.new.items APPEND_NAME) }
{
    let name = pop_name(stack);
    let mut names = pop_names(stack);
    names.push(name)?;
    push(stack, Value::Names(names))
}

pub(crate) fn append_set(stack: &mut Vec<Value>) -> Result<(), Memory>
    requires { Takes stack.old.items APPEND_SET }
    ensures out { IfOk result (λ _. stack_out stack.new.items ≡ stack_out stack.old.items ++ Did APPEND_SET ∷ []) }
    ensures turns { IfOk result (λ _. Turns stack.old.items stack.new.items APPEND_SET) }
{
    let elements = pop_names(stack);
    let name = pop_name(stack);
    let mut sets = pop_sets(stack);
    sets.push(RawSet { name, elements })?;
    push(stack, Value::Sets(sets))
}

pub(crate) fn append_property(stack: &mut Vec<Value>) -> Result<(), Memory>
    requires { Takes stack.old.items APPEND_PROPERTY }
    ensures out { IfOk result (λ _. stack_out stack.new.items ≡ stack_out stack.old.items ++ Did APPEND_PROPERTY ∷ []) }
    ensures turns { IfOk result (λ _. Turns stack.old.items stack.new.items APPEND_PROPERTY) }
{
    let literal = pop_literal(stack);
    let name = pop_name(stack);
    let mut properties = pop_properties(stack);
    properties.push(RawProperty { name, literal })?;
    push(stack, Value::Properties(properties))
}

pub(crate) fn literal(stack: &mut Vec<Value>) -> Result<(), Memory>
    requires { Takes stack.old.items LITERAL }
    ensures out { IfOk result (λ _. stack_out stack.new.items ≡ stack_out stack.old.items ++ Did LITERAL ∷ []) }
    ensures turns { IfOk result (λ _. Turns stack.old.items stack.new.items LITERAL) }
{
    let (value, place) = pop_number(stack);
    let literal = RawLiteral::Number {
        minus: false,
        value,
        place,
    };
    push(stack, Value::Literal(literal))
}

pub(crate) fn minus_literal(stack: &mut Vec<Value>) -> Result<(), Memory>
    requires { Takes stack.old.items MINUS_LITERAL }
    ensures out { IfOk result (λ _. stack_out stack.new.items ≡ stack_out stack.old.items ++ Did MINUS_LITERAL ∷ []) }
    ensures turns { IfOk result (λ _. Turns stack.old.items stack.new.items MINUS_LITERAL) }
{
    let (value, place) = pop_number(stack);
    let literal = RawLiteral::Number {
        minus: true,
        value,
        place,
    };
    push(stack, Value::Literal(literal))
}

pub(crate) fn limit_literal(stack: &mut Vec<Value>) -> Result<(), Memory>
    requires { Takes stack.old.items LIMIT_LITERAL }
    ensures out { IfOk result (λ _. stack_out stack.new.items ≡ stack_out stack.old.items ++ Did LIMIT_LITERAL ∷ []) }
    ensures turns { IfOk result (λ _. Turns stack.old.items stack.new.items LIMIT_LITERAL) }
{
    let (limit, place) = pop_limit(stack);
    let literal = match limit {
        Limit::MaxInt => RawLiteral::MaxInt(place),
        Limit::MinInt => RawLiteral::MinInt(place),
    };
    push(stack, Value::Literal(literal))
}

pub(crate) fn no_state(stack: &mut Vec<Value>) -> Result<(), Memory>
    requires { Takes stack.old.items NO_STATE }
    ensures out { IfOk result (λ _. stack_out stack.new.items ≡ stack_out stack.old.items ++ Did NO_STATE ∷ []) }
    ensures turns { IfOk result (λ _. Turns stack.old.items stack.new.items NO_STATE) }
{
    push(stack, Value::State(None))
}

pub(crate) fn some_state(stack: &mut Vec<Value>) -> Result<(), Memory>
    requires { Takes stack.old.items SOME_STATE }
    ensures out { IfOk result (λ _. stack_out stack.new.items ≡ stack_out stack.old.items ++ Did SOME_STATE ∷ []) }
    ensures turns { IfOk result (λ _. Turns stack.old.items stack.new.items SOME_STATE) }
{
    let initialisation = pop_subst(stack);
    let invariant = pop_formula(stack);
    let variables = pop_names(stack);
    let state = RawState {
        variables,
        invariant,
        initialisation,
    };
    push(stack, Value::State(Some(state)))
}

// the results, the name and the parameters of an operation
fn pop_signature(stack: &mut Vec<Value>) -> (RawNames, RawName, RawNames)
    requires top { (r : List ℕ) × (kinds_of stack.old.items ≡ names_kind ∷ name_kind ∷ names_kind ∷ r) }
    ensures out { stack_out stack.old.items ≡ stack_out stack.new.items ++ names_out result.0 ++ Named result.1 ∷ names_out result.2 }
    ensures below { kinds_of stack.old.items ≡ names_kind ∷ name_kind ∷ names_kind ∷ kinds_of stack.new.items }
{
    let parameters = pop_names(stack);
    let name = pop_name(stack);
    let results = pop_names(stack);
    (results, name, parameters)
}

pub(crate) fn append_operation(stack: &mut Vec<Value>) -> Result<(), Memory>
    requires { Takes stack.old.items APPEND_OPERATION }
    ensures out { IfOk result (λ _. stack_out stack.new.items ≡ stack_out stack.old.items ++ Did APPEND_OPERATION ∷ []) }
    ensures turns { IfOk result (λ _. Turns stack.old.items stack.new.items APPEND_OPERATION) }
{
    let body = pop_subst(stack);
    let precondition = pop_condition(stack);
    let (results, name, parameters) = pop_signature(stack);
    let mut operations = pop_operations(stack);
    operations.push(RawOperation {
        results,
        name,
        parameters,
        precondition,
        body,
    })?;
    push(stack, Value::Operations(operations))
}

// the name, the seen machines and the sets of a machine
fn pop_head(stack: &mut Vec<Value>) -> (RawName, RawNames, Items<RawSet>)
    requires top { (r : List ℕ) × (kinds_of stack.old.items ≡ sets_kind ∷ names_kind ∷ name_kind ∷ r) }
    ensures out { stack_out stack.old.items ≡ stack_out stack.new.items ++ Named result.0 ∷ names_out result.1 ++ sets_out result.2 }
    ensures below { kinds_of stack.old.items ≡ sets_kind ∷ names_kind ∷ name_kind ∷ kinds_of stack.new.items }
{
    let sets = pop_sets(stack);
    let sees = pop_names(stack);
    let name = pop_name(stack);
    (name, sees, sets)
}

// the constants, their properties and the state of a machine
fn pop_content(stack: &mut Vec<Value>) -> (RawNames, Items<RawProperty>, Option<RawState>)
    requires top { (r : List ℕ) × (kinds_of stack.old.items ≡ state_kind ∷ properties_kind ∷ names_kind ∷ r) }
    ensures out { stack_out stack.old.items ≡ stack_out stack.new.items ++ names_out result.0 ++ properties_out result.1 ++ state_out result.2 }
    ensures below { kinds_of stack.old.items ≡ state_kind ∷ properties_kind ∷ names_kind ∷ kinds_of stack.new.items }
{
    let state = pop_state(stack);
    let properties = pop_properties(stack);
    let constants = pop_names(stack);
    (constants, properties, state)
}

pub(crate) fn machine(stack: &mut Vec<Value>) -> Result<(), Memory>
    requires { Takes stack.old.items MACHINE }
    ensures out { IfOk result (λ _. stack_out stack.new.items ≡ stack_out stack.old.items ++ Did MACHINE ∷ []) }
    ensures turns { IfOk result (λ _. Turns stack.old.items stack.new.items MACHINE) }
{
    let operations = pop_operations(stack);
    let (constants, properties, state) = pop_content(stack);
    let (name, sees, sets) = pop_head(stack);
    let machine = RawMachine {
        name,
        sees,
        sets,
        constants,
        properties,
        state,
        operations,
    };
    push(stack, Value::Machine(machine))
}
