//! The actions that build the names of obligations and the list of proofs.

ghost use Rattle.std.specs.Prelude.{◌≡◌, ◌++◌, ◌∷◌, [], IfOk};
ghost use Rattle.cb_amn_parse.specs.Lexemes.{Did};
ghost use Rattle.cb_amn_parse.specs.Values.{stack_out, Takes, Turns};

use crate::Memory;
use crate::value::{
    pop_initialisation, pop_node, pop_numeral, pop_obligation, pop_proofs, pop_start,
};
use cb_amn_parse::value::{Value, pop_name, push};
use cb_grammar::actions::{
    APPEND_PROOF, NO_PROOFS, OBLIGATION_OF_INITIALISATION, OBLIGATION_OF_OWNER, OBLIGATION_OF_PART,
    OBLIGATION_OF_START,
};
use cb_lex::raw::proof::{RawObligation, RawProof};
use sqlite_items::Items;
use std::alloc::Global;

pub(crate) fn no_proofs(alloc: Global, stack: &mut Vec<Value>) -> Result<(), Memory>
    requires { Takes stack.old.items NO_PROOFS }
    ensures out { IfOk result (λ _. stack_out stack.new.items ≡ stack_out stack.old.items ++ Did NO_PROOFS ∷ []) }
    ensures turns { IfOk result (λ _. Turns stack.old.items stack.new.items NO_PROOFS) }
{
    push(stack, Value::Proofs(Items::new(alloc)))
}

pub(crate) fn append_proof(stack: &mut Vec<Value>) -> Result<(), Memory>
    requires { Takes stack.old.items APPEND_PROOF }
    ensures out { IfOk result (λ _. stack_out stack.new.items ≡ stack_out stack.old.items ++ Did APPEND_PROOF ∷ []) }
    ensures turns { IfOk result (λ _. Turns stack.old.items stack.new.items APPEND_PROOF) }
{
    let cert = pop_node(stack);
    let name = pop_obligation(stack);
    let mut proofs = pop_proofs(stack);
    proofs.push(RawProof { name, cert })?;
    push(stack, Value::Proofs(proofs))
}

pub(crate) fn of_owner(stack: &mut Vec<Value>) -> Result<(), Memory>
    requires { Takes stack.old.items OBLIGATION_OF_OWNER }
    ensures out { IfOk result (λ _. stack_out stack.new.items ≡ stack_out stack.old.items ++ Did OBLIGATION_OF_OWNER ∷ []) }
    ensures turns { IfOk result (λ _. Turns stack.old.items stack.new.items OBLIGATION_OF_OWNER) }
{
    let number = pop_numeral(stack);
    let owner = pop_name(stack);
    let group = pop_name(stack);
    let name = RawObligation::OfOwner {
        group,
        owner,
        number,
    };
    push(stack, Value::Obligation(name))
}

pub(crate) fn of_start(stack: &mut Vec<Value>) -> Result<(), Memory>
    requires { Takes stack.old.items OBLIGATION_OF_START }
    ensures out { IfOk result (λ _. stack_out stack.new.items ≡ stack_out stack.old.items ++ Did OBLIGATION_OF_START ∷ []) }
    ensures turns { IfOk result (λ _. Turns stack.old.items stack.new.items OBLIGATION_OF_START) }
{
    let number = pop_numeral(stack);
    let owner = pop_name(stack);
    let place = pop_start(stack);
    let name = RawObligation::OfStart {
        place,
        owner,
        number,
    };
    push(stack, Value::Obligation(name))
}

pub(crate) fn of_part(stack: &mut Vec<Value>) -> Result<(), Memory>
    requires { Takes stack.old.items OBLIGATION_OF_PART }
    ensures out { IfOk result (λ _. stack_out stack.new.items ≡ stack_out stack.old.items ++ Did OBLIGATION_OF_PART ∷ []) }
    ensures turns { IfOk result (λ _. Turns stack.old.items stack.new.items OBLIGATION_OF_PART) }
{
    let number = pop_numeral(stack);
    let part = pop_name(stack);
    let owner = pop_name(stack);
    let group = pop_name(stack);
    let name = RawObligation::OfPart {
        group,
        owner,
        part,
        number,
    };
    push(stack, Value::Obligation(name))
}

pub(crate) fn of_initialisation(stack: &mut Vec<Value>) -> Result<(), Memory>
    requires { Takes stack.old.items OBLIGATION_OF_INITIALISATION }
    ensures out { IfOk result (λ _. stack_out stack.new.items ≡ stack_out stack.old.items ++ Did OBLIGATION_OF_INITIALISATION ∷ []) }
    ensures turns { IfOk result (λ _. Turns stack.old.items stack.new.items OBLIGATION_OF_INITIALISATION) }
{
    let number = pop_numeral(stack);
    let place = pop_initialisation(stack);
    let owner = pop_name(stack);
    let group = pop_name(stack);
    let name = RawObligation::OfInitialisation {
        group,
        owner,
        place,
        number,
    };
    push(stack, Value::Obligation(name))
}
