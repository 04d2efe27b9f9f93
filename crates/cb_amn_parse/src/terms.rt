//! The actions that build terms.

ghost use Rattle.std.specs.Prelude.{◌≡◌, ◌++◌, ◌∷◌, [], IfOk};
ghost use Rattle.cb_lex.specs.RawTermTree as tree;
ghost use Rattle.cb_amn_parse.specs.Lexemes.{Did};
ghost use Rattle.cb_amn_parse.specs.Values.{stack_out, Takes, Turns};

use crate::Memory;
use crate::value::{
    Limit, SetWord, Value, pop_bool, pop_brace, pop_card, pop_formula, pop_limit, pop_minus,
    pop_name, pop_number, pop_operator, pop_set_word, pop_term, pop_terms, pop_truth, push,
};
use cb_grammar::actions::{
    APPEND_TERM, BINARY, BOOL, CARD, LIMIT_TERM, LISTED, MINUS, NAME_TERM, NO_TERMS, NUMBER_TERM,
    SET_TERM, SUBTRACT, TRUTH_TERM,
};
use cb_lex::raw::sign::{RawAtom, RawOperator};
use cb_lex::raw::term::{RawTerm, RawTermNode, RawTerms};
use cb_lex::token::Place;
use sqlite_items::Items;
use std::alloc::Global;

pub(crate) fn no_terms(alloc: Global, stack: &mut Vec<Value>) -> Result<(), Memory>
    requires { Takes stack.old.items NO_TERMS }
    ensures out { IfOk result (λ _. stack_out stack.new.items ≡ stack_out stack.old.items ++ Did NO_TERMS ∷ []) }
    ensures turns { IfOk result (λ _. Turns stack.old.items stack.new.items NO_TERMS) }
{
    push(stack, Value::Terms(Items::new(alloc)))
}

// the terms with one more at the end
fn extended(mut terms: RawTerms, term: RawTerm) -> Result<RawTerms, Memory>
    ensures { IfOk result (λ longer. longer ≡ terms ++ term ∷ []) }
{
    terms.push(term)?;
    Ok(terms)
}

pub(crate) fn append_term(stack: &mut Vec<Value>) -> Result<(), Memory>
    requires { Takes stack.old.items APPEND_TERM }
    ensures out { IfOk result (λ _. stack_out stack.new.items ≡ stack_out stack.old.items ++ Did APPEND_TERM ∷ []) }
    ensures turns { IfOk result (λ _. Turns stack.old.items stack.new.items APPEND_TERM) }
{
    let term = pop_term(stack);
    let terms = pop_terms(stack);
    let longer = extended(terms, term)?;
    push(stack, Value::Terms(longer))
}

pub(crate) fn name_term(stack: &mut Vec<Value>) -> Result<(), Memory>
    requires { Takes stack.old.items NAME_TERM }
    ensures out { IfOk result (λ _. stack_out stack.new.items ≡ stack_out stack.old.items ++ Did NAME_TERM ∷ []) }
    ensures turns { IfOk result (λ _. Turns stack.old.items stack.new.items NAME_TERM) }
{
    let name = pop_name(stack);
    let node = RawTermNode::Name(name);
    push(stack, Value::Term(RawTerm { node }))
}

pub(crate) fn number_term(stack: &mut Vec<Value>) -> Result<(), Memory>
    requires { Takes stack.old.items NUMBER_TERM }
    ensures out { IfOk result (λ _. stack_out stack.new.items ≡ stack_out stack.old.items ++ Did NUMBER_TERM ∷ []) }
    ensures turns { IfOk result (λ _. Turns stack.old.items stack.new.items NUMBER_TERM) }
{
    let (value, place) = pop_number(stack);
    let node = RawTermNode::Number { value, place };
    push(stack, Value::Term(RawTerm { node }))
}

pub(crate) fn truth_term(stack: &mut Vec<Value>) -> Result<(), Memory>
    requires { Takes stack.old.items TRUTH_TERM }
    ensures out { IfOk result (λ _. stack_out stack.new.items ≡ stack_out stack.old.items ++ Did TRUTH_TERM ∷ []) }
    ensures turns { IfOk result (λ _. Turns stack.old.items stack.new.items TRUTH_TERM) }
{
    let (truth, place) = pop_truth(stack);
    let atom = if truth { RawAtom::True } else { RawAtom::False };
    let node = RawTermNode::Atom { atom, place };
    push(stack, Value::Term(RawTerm { node }))
}

pub(crate) fn limit_term(stack: &mut Vec<Value>) -> Result<(), Memory>
    requires { Takes stack.old.items LIMIT_TERM }
    ensures out { IfOk result (λ _. stack_out stack.new.items ≡ stack_out stack.old.items ++ Did LIMIT_TERM ∷ []) }
    ensures turns { IfOk result (λ _. Turns stack.old.items stack.new.items LIMIT_TERM) }
{
    let (limit, place) = pop_limit(stack);
    let atom = match limit {
        Limit::MaxInt => RawAtom::MaxInt,
        Limit::MinInt => RawAtom::MinInt,
    };
    let node = RawTermNode::Atom { atom, place };
    push(stack, Value::Term(RawTerm { node }))
}

pub(crate) fn set_term(stack: &mut Vec<Value>) -> Result<(), Memory>
    requires { Takes stack.old.items SET_TERM }
    ensures out { IfOk result (λ _. stack_out stack.new.items ≡ stack_out stack.old.items ++ Did SET_TERM ∷ []) }
    ensures turns { IfOk result (λ _. Turns stack.old.items stack.new.items SET_TERM) }
{
    let (set, place) = pop_set_word(stack);
    let atom = match set {
        SetWord::Nat => RawAtom::Nat,
        SetWord::Nat1 => RawAtom::Nat1,
        SetWord::Int => RawAtom::Int,
        SetWord::Truths => RawAtom::Truths,
    };
    let node = RawTermNode::Atom { atom, place };
    push(stack, Value::Term(RawTerm { node }))
}

pub(crate) fn minus(alloc: Global, stack: &mut Vec<Value>) -> Result<(), Memory>
    requires { Takes stack.old.items MINUS }
    ensures out { IfOk result (λ _. stack_out stack.new.items ≡ stack_out stack.old.items ++ Did MINUS ∷ []) }
    ensures turns { IfOk result (λ _. Turns stack.old.items stack.new.items MINUS) }
{
    let term = Box::new(alloc, pop_term(stack))?;
    let place = pop_minus(stack);
    let node = RawTermNode::Minus { place, term };
    push(stack, Value::Term(RawTerm { node }))
}

// two terms joined by a sign
fn joined(operator: RawOperator, place: Place, left: Box<RawTerm>, right: Box<RawTerm>) -> RawTerm
    ensures { result ≡ tree.Binary operator place left.value right.value }
{
    let node = RawTermNode::Binary {
        operator,
        place,
        left,
        right,
    };
    RawTerm { node }
}

pub(crate) fn binary(alloc: Global, stack: &mut Vec<Value>) -> Result<(), Memory>
    requires { Takes stack.old.items BINARY }
    ensures out { IfOk result (λ _. stack_out stack.new.items ≡ stack_out stack.old.items ++ Did BINARY ∷ []) }
    ensures turns { IfOk result (λ _. Turns stack.old.items stack.new.items BINARY) }
{
    let right = Box::new(alloc, pop_term(stack))?;
    let (operator, place) = pop_operator(stack);
    let left = Box::new(alloc, pop_term(stack))?;
    let term = joined(operator, place, left, right);
    push(stack, Value::Term(term))
}

pub(crate) fn subtract(alloc: Global, stack: &mut Vec<Value>) -> Result<(), Memory>
    requires { Takes stack.old.items SUBTRACT }
    ensures out { IfOk result (λ _. stack_out stack.new.items ≡ stack_out stack.old.items ++ Did SUBTRACT ∷ []) }
    ensures turns { IfOk result (λ _. Turns stack.old.items stack.new.items SUBTRACT) }
{
    let right = Box::new(alloc, pop_term(stack))?;
    let place = pop_minus(stack);
    let left = Box::new(alloc, pop_term(stack))?;
    let term = joined(RawOperator::Minus, place, left, right);
    push(stack, Value::Term(term))
}

pub(crate) fn card(alloc: Global, stack: &mut Vec<Value>) -> Result<(), Memory>
    requires { Takes stack.old.items CARD }
    ensures out { IfOk result (λ _. stack_out stack.new.items ≡ stack_out stack.old.items ++ Did CARD ∷ []) }
    ensures turns { IfOk result (λ _. Turns stack.old.items stack.new.items CARD) }
{
    let term = Box::new(alloc, pop_term(stack))?;
    let place = pop_card(stack);
    let node = RawTermNode::Card { place, term };
    push(stack, Value::Term(RawTerm { node }))
}

pub(crate) fn truth_of(alloc: Global, stack: &mut Vec<Value>) -> Result<(), Memory>
    requires { Takes stack.old.items BOOL }
    ensures out { IfOk result (λ _. stack_out stack.new.items ≡ stack_out stack.old.items ++ Did BOOL ∷ []) }
    ensures turns { IfOk result (λ _. Turns stack.old.items stack.new.items BOOL) }
{
    let formula = Box::new(alloc, pop_formula(stack))?;
    let place = pop_bool(stack);
    let node = RawTermNode::TruthOf { place, formula };
    push(stack, Value::Term(RawTerm { node }))
}

pub(crate) fn listed(stack: &mut Vec<Value>) -> Result<(), Memory>
    requires { Takes stack.old.items LISTED }
    ensures out { IfOk result (λ _. stack_out stack.new.items ≡ stack_out stack.old.items ++ Did LISTED ∷ []) }
    ensures turns { IfOk result (λ _. Turns stack.old.items stack.new.items LISTED) }
{
    let terms = pop_terms(stack);
    let place = pop_brace(stack);
    let node = RawTermNode::Listed { place, terms };
    push(stack, Value::Term(RawTerm { node }))
}
