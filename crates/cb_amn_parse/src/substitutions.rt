//! The actions that build substitutions and domains.

ghost use Rattle.std.specs.Prelude.{◌≡◌, ◌++◌, ◌∷◌, [], IfOk, List, ℕ};
ghost use Rattle.cb_grammar.specs.Signatures.{substitution_kind};
ghost use Rattle.cb_amn_parse.specs.Lexemes.{Did};
ghost use Rattle.cb_amn_parse.specs.Machines.{subst_out};
ghost use Rattle.cb_amn_parse.specs.Values.{stack_out, kinds_of, Takes, Turns};

use crate::Memory;
use crate::value::{
    Limit, SetWord, Value, pop_bound, pop_domain, pop_end, pop_formula, pop_limit, pop_name,
    pop_number, pop_set_word, pop_sides, pop_subst, pop_term, push,
};
use cb_grammar::actions::{
    AMONG, ANY, APPEND_SIDE, ASSIGN, BOUND, CHOICE, IF, IF_WITHOUT_ELSE, LIMIT_END, MINUS_BOUND,
    NAME_END, NAMED_DOMAIN, NO_SIDES, NUMBER_END, PARALLEL, RANGE, SET_DOMAIN, SKIP,
};
use cb_lex::raw::domain::{RawBound, RawDomain, RawEnd};
use cb_lex::raw::subst::{RawSubst, RawSubstNode, RawSubsts};
use sqlite_items::Items;
use std::alloc::Global;

// the two substitutions on top
fn pop_pair(alloc: Global, stack: &mut Vec<Value>) -> Result<(Box<RawSubst>, Box<RawSubst>), Memory>
    requires top { (r : List ℕ) × (kinds_of stack.old.items ≡ substitution_kind ∷ substitution_kind ∷ r) }
    ensures out { IfOk result (λ pair. stack_out stack.old.items ≡ stack_out stack.new.items ++ subst_out pair.0.value ++ subst_out pair.1.value) }
    ensures below { IfOk result (λ _. kinds_of stack.old.items ≡ substitution_kind ∷ substitution_kind ∷ kinds_of stack.new.items) }
{
    let right = Box::new(alloc, pop_subst(stack))?;
    let left = Box::new(alloc, pop_subst(stack))?;
    Ok((left, right))
}

pub(crate) fn parallel(alloc: Global, stack: &mut Vec<Value>) -> Result<(), Memory>
    requires { Takes stack.old.items PARALLEL }
    ensures out { IfOk result (λ _. stack_out stack.new.items ≡ stack_out stack.old.items ++ Did PARALLEL ∷ []) }
    ensures turns { IfOk result (λ _. Turns stack.old.items stack.new.items PARALLEL) }
{
    let (left, right) = pop_pair(alloc, stack)?;
    let node = RawSubstNode::Parallel(left, right);
    push(stack, Value::Subst(RawSubst { node }))
}

pub(crate) fn skip(stack: &mut Vec<Value>) -> Result<(), Memory>
    requires { Takes stack.old.items SKIP }
    ensures out { IfOk result (λ _. stack_out stack.new.items ≡ stack_out stack.old.items ++ Did SKIP ∷ []) }
    ensures turns { IfOk result (λ _. Turns stack.old.items stack.new.items SKIP) }
{
    let node = RawSubstNode::Skip;
    push(stack, Value::Subst(RawSubst { node }))
}

pub(crate) fn assign(stack: &mut Vec<Value>) -> Result<(), Memory>
    requires { Takes stack.old.items ASSIGN }
    ensures out { IfOk result (λ _. stack_out stack.new.items ≡ stack_out stack.old.items ++ Did ASSIGN ∷ []) }
    ensures turns { IfOk result (λ _. Turns stack.old.items stack.new.items ASSIGN) }
{
    let term = pop_term(stack);
    let target = pop_name(stack);
    let node = RawSubstNode::Assign { target, term };
    push(stack, Value::Subst(RawSubst { node }))
}

pub(crate) fn among(stack: &mut Vec<Value>) -> Result<(), Memory>
    requires { Takes stack.old.items AMONG }
    ensures out { IfOk result (λ _. stack_out stack.new.items ≡ stack_out stack.old.items ++ Did AMONG ∷ []) }
    ensures turns { IfOk result (λ _. Turns stack.old.items stack.new.items AMONG) }
{
    let domain = pop_domain(stack);
    let target = pop_name(stack);
    let node = RawSubstNode::Among { target, domain };
    push(stack, Value::Subst(RawSubst { node }))
}

pub(crate) fn if_with_else(alloc: Global, stack: &mut Vec<Value>) -> Result<(), Memory>
    requires { Takes stack.old.items IF }
    ensures out { IfOk result (λ _. stack_out stack.new.items ≡ stack_out stack.old.items ++ Did IF ∷ []) }
    ensures turns { IfOk result (λ _. Turns stack.old.items stack.new.items IF) }
{
    let (then, otherwise) = pop_pair(alloc, stack)?;
    let condition = pop_formula(stack);
    let node = RawSubstNode::IfElse {
        condition,
        then,
        otherwise,
    };
    push(stack, Value::Subst(RawSubst { node }))
}

pub(crate) fn if_without_else(alloc: Global, stack: &mut Vec<Value>) -> Result<(), Memory>
    requires { Takes stack.old.items IF_WITHOUT_ELSE }
    ensures out { IfOk result (λ _. stack_out stack.new.items ≡ stack_out stack.old.items ++ Did IF_WITHOUT_ELSE ∷ []) }
    ensures turns { IfOk result (λ _. Turns stack.old.items stack.new.items IF_WITHOUT_ELSE) }
{
    let then = Box::new(alloc, pop_subst(stack))?;
    let condition = pop_formula(stack);
    let node = RawSubstNode::If { condition, then };
    push(stack, Value::Subst(RawSubst { node }))
}

pub(crate) fn no_sides(alloc: Global, stack: &mut Vec<Value>) -> Result<(), Memory>
    requires { Takes stack.old.items NO_SIDES }
    ensures out { IfOk result (λ _. stack_out stack.new.items ≡ stack_out stack.old.items ++ Did NO_SIDES ∷ []) }
    ensures turns { IfOk result (λ _. Turns stack.old.items stack.new.items NO_SIDES) }
{
    push(stack, Value::Sides(Items::new(alloc)))
}

// the sides with one more at the end
fn extended(mut sides: RawSubsts, side: RawSubst) -> Result<RawSubsts, Memory>
    ensures { IfOk result (λ longer. longer ≡ sides ++ side ∷ []) }
{
    sides.push(side)?;
    Ok(sides)
}

pub(crate) fn append_side(stack: &mut Vec<Value>) -> Result<(), Memory>
    requires { Takes stack.old.items APPEND_SIDE }
    ensures out { IfOk result (λ _. stack_out stack.new.items ≡ stack_out stack.old.items ++ Did APPEND_SIDE ∷ []) }
    ensures turns { IfOk result (λ _. Turns stack.old.items stack.new.items APPEND_SIDE) }
{
    let side = pop_subst(stack);
    let sides = pop_sides(stack);
    let longer = extended(sides, side)?;
    push(stack, Value::Sides(longer))
}

pub(crate) fn choice(stack: &mut Vec<Value>) -> Result<(), Memory>
    requires { Takes stack.old.items CHOICE }
    ensures out { IfOk result (λ _. stack_out stack.new.items ≡ stack_out stack.old.items ++ Did CHOICE ∷ []) }
    ensures turns { IfOk result (λ _. Turns stack.old.items stack.new.items CHOICE) }
{
    let sides = pop_sides(stack);
    let node = RawSubstNode::Choice(sides);
    push(stack, Value::Subst(RawSubst { node }))
}

pub(crate) fn any(alloc: Global, stack: &mut Vec<Value>) -> Result<(), Memory>
    requires { Takes stack.old.items ANY }
    ensures out { IfOk result (λ _. stack_out stack.new.items ≡ stack_out stack.old.items ++ Did ANY ∷ []) }
    ensures turns { IfOk result (λ _. Turns stack.old.items stack.new.items ANY) }
{
    let body = Box::new(alloc, pop_subst(stack))?;
    let condition = pop_formula(stack);
    let name = pop_name(stack);
    let node = RawSubstNode::Any {
        name,
        condition,
        body,
    };
    push(stack, Value::Subst(RawSubst { node }))
}

pub(crate) fn named_domain(stack: &mut Vec<Value>) -> Result<(), Memory>
    requires { Takes stack.old.items NAMED_DOMAIN }
    ensures out { IfOk result (λ _. stack_out stack.new.items ≡ stack_out stack.old.items ++ Did NAMED_DOMAIN ∷ []) }
    ensures turns { IfOk result (λ _. Turns stack.old.items stack.new.items NAMED_DOMAIN) }
{
    let name = pop_name(stack);
    push(stack, Value::Domain(RawDomain::Name(name)))
}

pub(crate) fn set_domain(stack: &mut Vec<Value>) -> Result<(), Memory>
    requires { Takes stack.old.items SET_DOMAIN }
    ensures out { IfOk result (λ _. stack_out stack.new.items ≡ stack_out stack.old.items ++ Did SET_DOMAIN ∷ []) }
    ensures turns { IfOk result (λ _. Turns stack.old.items stack.new.items SET_DOMAIN) }
{
    let (set, place) = pop_set_word(stack);
    let domain = match set {
        SetWord::Nat => RawDomain::Nat(place),
        SetWord::Nat1 => RawDomain::Nat1(place),
        SetWord::Int => RawDomain::Int(place),
        SetWord::Truths => RawDomain::Truths(place),
    };
    push(stack, Value::Domain(domain))
}

pub(crate) fn range(stack: &mut Vec<Value>) -> Result<(), Memory>
    requires { Takes stack.old.items RANGE }
    ensures out { IfOk result (λ _. stack_out stack.new.items ≡ stack_out stack.old.items ++ Did RANGE ∷ []) }
    ensures turns { IfOk result (λ _. Turns stack.old.items stack.new.items RANGE) }
{
    let high = pop_bound(stack);
    let low = pop_bound(stack);
    push(stack, Value::Domain(RawDomain::Range { low, high }))
}

pub(crate) fn bound(stack: &mut Vec<Value>) -> Result<(), Memory>
    requires { Takes stack.old.items BOUND }
    ensures out { IfOk result (λ _. stack_out stack.new.items ≡ stack_out stack.old.items ++ Did BOUND ∷ []) }
    ensures turns { IfOk result (λ _. Turns stack.old.items stack.new.items BOUND) }
{
    let end = pop_end(stack);
    push(stack, Value::Bound(RawBound { minus: false, end }))
}

pub(crate) fn minus_bound(stack: &mut Vec<Value>) -> Result<(), Memory>
    requires { Takes stack.old.items MINUS_BOUND }
    ensures out { IfOk result (λ _. stack_out stack.new.items ≡ stack_out stack.old.items ++ Did MINUS_BOUND ∷ []) }
    ensures turns { IfOk result (λ _. Turns stack.old.items stack.new.items MINUS_BOUND) }
{
    let end = pop_end(stack);
    push(stack, Value::Bound(RawBound { minus: true, end }))
}

pub(crate) fn number_end(stack: &mut Vec<Value>) -> Result<(), Memory>
    requires { Takes stack.old.items NUMBER_END }
    ensures out { IfOk result (λ _. stack_out stack.new.items ≡ stack_out stack.old.items ++ Did NUMBER_END ∷ []) }
    ensures turns { IfOk result (λ _. Turns stack.old.items stack.new.items NUMBER_END) }
{
    let (value, place) = pop_number(stack);
    push(stack, Value::End(RawEnd::Number { value, place }))
}

pub(crate) fn limit_end(stack: &mut Vec<Value>) -> Result<(), Memory>
    requires { Takes stack.old.items LIMIT_END }
    ensures out { IfOk result (λ _. stack_out stack.new.items ≡ stack_out stack.old.items ++ Did LIMIT_END ∷ []) }
    ensures turns { IfOk result (λ _. Turns stack.old.items stack.new.items LIMIT_END) }
{
    let (limit, place) = pop_limit(stack);
    let end = match limit {
        Limit::MaxInt => RawEnd::MaxInt(place),
        Limit::MinInt => RawEnd::MinInt(place),
    };
    push(stack, Value::End(end))
}

pub(crate) fn name_end(stack: &mut Vec<Value>) -> Result<(), Memory>
    requires { Takes stack.old.items NAME_END }
    ensures out { IfOk result (λ _. stack_out stack.new.items ≡ stack_out stack.old.items ++ Did NAME_END ∷ []) }
    ensures turns { IfOk result (λ _. Turns stack.old.items stack.new.items NAME_END) }
{
    let name = pop_name(stack);
    push(stack, Value::End(RawEnd::Name(name)))
}
