//! The actions that build formulas.

ghost use Rattle.std.specs.Prelude.{◌≡◌, ◌++◌, ◌∷◌, [], IfOk, List, ℕ};
ghost use Rattle.cb_grammar.specs.Signatures.{formula_kind};
ghost use Rattle.cb_amn_parse.specs.Lexemes.{Did};
ghost use Rattle.cb_amn_parse.specs.Formulas.{formula_out};
ghost use Rattle.cb_amn_parse.specs.Values.{stack_out, kinds_of, Takes, Turns};

use crate::Memory;
use crate::value::{Value, pop_formula, pop_name, pop_relation, pop_term, push};
use cb_grammar::actions::{
    ALWAYS_FALSE, ALWAYS_TRUE, AND, EQUIVALENT, EXISTS, FOR_ALL, IMPLIES, NO_CONDITION, NOT, OR,
    RELATION, SOME_CONDITION,
};
use cb_lex::raw::term::{RawFormula, RawFormulaNode};
use std::alloc::Global;

pub(crate) fn always_true(stack: &mut Vec<Value>) -> Result<(), Memory>
    requires { Takes stack.old.items ALWAYS_TRUE }
    ensures out { IfOk result (λ _. stack_out stack.new.items ≡ stack_out stack.old.items ++ Did ALWAYS_TRUE ∷ []) }
    ensures turns { IfOk result (λ _. Turns stack.old.items stack.new.items ALWAYS_TRUE) }
{
    let node = RawFormulaNode::True;
    push(stack, Value::Formula(RawFormula { node }))
}

pub(crate) fn always_false(stack: &mut Vec<Value>) -> Result<(), Memory>
    requires { Takes stack.old.items ALWAYS_FALSE }
    ensures out { IfOk result (λ _. stack_out stack.new.items ≡ stack_out stack.old.items ++ Did ALWAYS_FALSE ∷ []) }
    ensures turns { IfOk result (λ _. Turns stack.old.items stack.new.items ALWAYS_FALSE) }
{
    let node = RawFormulaNode::False;
    push(stack, Value::Formula(RawFormula { node }))
}

pub(crate) fn not(alloc: Global, stack: &mut Vec<Value>) -> Result<(), Memory>
    requires { Takes stack.old.items NOT }
    ensures out { IfOk result (λ _. stack_out stack.new.items ≡ stack_out stack.old.items ++ Did NOT ∷ []) }
    ensures turns { IfOk result (λ _. Turns stack.old.items stack.new.items NOT) }
{
    let inner = Box::new(alloc, pop_formula(stack))?;
    let node = RawFormulaNode::Not(inner);
    push(stack, Value::Formula(RawFormula { node }))
}

// the two formulas on top
fn pop_pair(
    alloc: Global,
    stack: &mut Vec<Value>,
) -> Result<(Box<RawFormula>, Box<RawFormula>), Memory>
    requires top { (r : List ℕ) × (kinds_of stack.old.items ≡ formula_kind ∷ formula_kind ∷ r) }
    ensures out { IfOk result (λ pair. stack_out stack.old.items ≡ stack_out stack.new.items ++ formula_out pair.0.value ++ formula_out pair.1.value) }
    ensures below { IfOk result (λ _. kinds_of stack.old.items ≡ formula_kind ∷ formula_kind ∷ kinds_of stack.new.items) }
{
    let right = Box::new(alloc, pop_formula(stack))?;
    let left = Box::new(alloc, pop_formula(stack))?;
    Ok((left, right))
}

pub(crate) fn and(alloc: Global, stack: &mut Vec<Value>) -> Result<(), Memory>
    requires { Takes stack.old.items AND }
    ensures out { IfOk result (λ _. stack_out stack.new.items ≡ stack_out stack.old.items ++ Did AND ∷ []) }
    ensures turns { IfOk result (λ _. Turns stack.old.items stack.new.items AND) }
{
    let (left, right) = pop_pair(alloc, stack)?;
    let node = RawFormulaNode::And(left, right);
    push(stack, Value::Formula(RawFormula { node }))
}

pub(crate) fn or(alloc: Global, stack: &mut Vec<Value>) -> Result<(), Memory>
    requires { Takes stack.old.items OR }
    ensures out { IfOk result (λ _. stack_out stack.new.items ≡ stack_out stack.old.items ++ Did OR ∷ []) }
    ensures turns { IfOk result (λ _. Turns stack.old.items stack.new.items OR) }
{
    let (left, right) = pop_pair(alloc, stack)?;
    let node = RawFormulaNode::Or(left, right);
    push(stack, Value::Formula(RawFormula { node }))
}

pub(crate) fn implies(alloc: Global, stack: &mut Vec<Value>) -> Result<(), Memory>
    requires { Takes stack.old.items IMPLIES }
    ensures out { IfOk result (λ _. stack_out stack.new.items ≡ stack_out stack.old.items ++ Did IMPLIES ∷ []) }
    ensures turns { IfOk result (λ _. Turns stack.old.items stack.new.items IMPLIES) }
{
    let (left, right) = pop_pair(alloc, stack)?;
    let node = RawFormulaNode::Implies(left, right);
    push(stack, Value::Formula(RawFormula { node }))
}

pub(crate) fn equivalent(alloc: Global, stack: &mut Vec<Value>) -> Result<(), Memory>
    requires { Takes stack.old.items EQUIVALENT }
    ensures out { IfOk result (λ _. stack_out stack.new.items ≡ stack_out stack.old.items ++ Did EQUIVALENT ∷ []) }
    ensures turns { IfOk result (λ _. Turns stack.old.items stack.new.items EQUIVALENT) }
{
    let (left, right) = pop_pair(alloc, stack)?;
    let node = RawFormulaNode::Equivalent(left, right);
    push(stack, Value::Formula(RawFormula { node }))
}

pub(crate) fn for_all(alloc: Global, stack: &mut Vec<Value>) -> Result<(), Memory>
    requires { Takes stack.old.items FOR_ALL }
    ensures out { IfOk result (λ _. stack_out stack.new.items ≡ stack_out stack.old.items ++ Did FOR_ALL ∷ []) }
    ensures turns { IfOk result (λ _. Turns stack.old.items stack.new.items FOR_ALL) }
{
    let (domain, body) = pop_pair(alloc, stack)?;
    let name = pop_name(stack);
    let node = RawFormulaNode::Every { name, domain, body };
    push(stack, Value::Formula(RawFormula { node }))
}

pub(crate) fn exists(alloc: Global, stack: &mut Vec<Value>) -> Result<(), Memory>
    requires { Takes stack.old.items EXISTS }
    ensures out { IfOk result (λ _. stack_out stack.new.items ≡ stack_out stack.old.items ++ Did EXISTS ∷ []) }
    ensures turns { IfOk result (λ _. Turns stack.old.items stack.new.items EXISTS) }
{
    let body = Box::new(alloc, pop_formula(stack))?;
    let name = pop_name(stack);
    let node = RawFormulaNode::Exists { name, body };
    push(stack, Value::Formula(RawFormula { node }))
}

pub(crate) fn relation(stack: &mut Vec<Value>) -> Result<(), Memory>
    requires { Takes stack.old.items RELATION }
    ensures out { IfOk result (λ _. stack_out stack.new.items ≡ stack_out stack.old.items ++ Did RELATION ∷ []) }
    ensures turns { IfOk result (λ _. Turns stack.old.items stack.new.items RELATION) }
{
    let right = pop_term(stack);
    let (relation, place) = pop_relation(stack);
    let left = pop_term(stack);
    let node = RawFormulaNode::Relation {
        relation,
        place,
        left,
        right,
    };
    push(stack, Value::Formula(RawFormula { node }))
}

pub(crate) fn some_condition(stack: &mut Vec<Value>) -> Result<(), Memory>
    requires { Takes stack.old.items SOME_CONDITION }
    ensures out { IfOk result (λ _. stack_out stack.new.items ≡ stack_out stack.old.items ++ Did SOME_CONDITION ∷ []) }
    ensures turns { IfOk result (λ _. Turns stack.old.items stack.new.items SOME_CONDITION) }
{
    let formula = pop_formula(stack);
    push(stack, Value::Condition(Some(formula)))
}

pub(crate) fn no_condition(stack: &mut Vec<Value>) -> Result<(), Memory>
    requires { Takes stack.old.items NO_CONDITION }
    ensures out { IfOk result (λ _. stack_out stack.new.items ≡ stack_out stack.old.items ++ Did NO_CONDITION ∷ []) }
    ensures turns { IfOk result (λ _. Turns stack.old.items stack.new.items NO_CONDITION) }
{
    push(stack, Value::Condition(None))
}
