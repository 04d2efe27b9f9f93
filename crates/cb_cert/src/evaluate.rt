//! From the items that the grammar writes to the values for which they are written.

ghost use Rattle.std.specs.Prelude.{◌≡◌, ◌≤◌, ◌++◌, ◌∷◌, [], IfOk, List, ℕ, Some, true};
ghost use Rattle.cb_engine.specs.Kinds.{kinds};
ghost use Rattle.cb_grammar.specs.Signatures.{signatures};
ghost use Rattle.cb_amn_parse.specs.Lexemes.{Did, lexeme, lexemes};
ghost use Rattle.cb_amn_parse.specs.Own.{GoesOn};
ghost use Rattle.cb_amn_parse.specs.Spelling.{IsHeard, AreHeard};
ghost use Rattle.cb_amn_parse.specs.Values.{stack_out, kinds_of, Takes, Turns};
ghost use Rattle.cb_cert.specs.Own.{are_of_proofs, IsProofAction, FitsProofs};

use crate::words::word;
use crate::{Memory, nodes, obligations, rules};
use cb_amn_parse::evaluate;
use cb_amn_parse::value::{Value, push};
use cb_grammar::Item;
use cb_grammar::actions::{
    APPEND_NODE, APPEND_PROOF, APPEND_ROW, LISTED, MINUS_ROW, NO_NODES, NO_PROOFS, NO_ROWS,
    OBLIGATION_OF_INITIALISATION, OBLIGATION_OF_OWNER, OBLIGATION_OF_PART, OBLIGATION_OF_START,
    ROW, RULE, RULE_FORMULA, RULE_HYPOTHESIS, RULE_HYPOTHESIS_TERM, RULE_ROWS, RULE_TERM,
    RULE_TERM_NUMBER, RULE_TWO_HYPOTHESES, RULE_TWO_TERMS,
};
use cb_lex::token::Token;
use std::alloc::Global;

// the actions of proofs and of the names of obligations
fn act_proof(alloc: Global, action: u8, stack: &mut Vec<Value>) -> Result<(), Memory>
    requires one { (NO_PROOFS ≤ action) × (action ≤ OBLIGATION_OF_INITIALISATION) }
    requires takes { Takes stack.old.items action }
    ensures out { IfOk result (λ _. stack_out stack.new.items ≡ stack_out stack.old.items ++ Did action ∷ []) }
    ensures turns { IfOk result (λ _. Turns stack.old.items stack.new.items action) }
{
    match action {
        NO_PROOFS => obligations::no_proofs(alloc, stack),
        APPEND_PROOF => obligations::append_proof(stack),
        OBLIGATION_OF_OWNER => obligations::of_owner(stack),
        OBLIGATION_OF_START => obligations::of_start(stack),
        OBLIGATION_OF_PART => obligations::of_part(stack),
        OBLIGATION_OF_INITIALISATION => obligations::of_initialisation(stack),
        _ => unreachable!(),
    }
}

// the actions of rows and premises
fn act_node(alloc: Global, action: u8, stack: &mut Vec<Value>) -> Result<(), Memory>
    requires one { (NO_NODES ≤ action) × (action ≤ MINUS_ROW) }
    requires takes { Takes stack.old.items action }
    ensures out { IfOk result (λ _. stack_out stack.new.items ≡ stack_out stack.old.items ++ Did action ∷ []) }
    ensures turns { IfOk result (λ _. Turns stack.old.items stack.new.items action) }
{
    match action {
        NO_NODES => nodes::no_nodes(alloc, stack),
        APPEND_NODE => nodes::append_node(stack),
        NO_ROWS => nodes::no_rows(alloc, stack),
        APPEND_ROW => nodes::append_row(stack),
        ROW => nodes::row(stack),
        MINUS_ROW => nodes::minus_row(stack),
        _ => unreachable!(),
    }
}

// the actions of rules
fn act_rule(action: u8, stack: &mut Vec<Value>) -> Result<(), Memory>
    requires one { (RULE ≤ action) × (action ≤ RULE_TERM_NUMBER) }
    requires takes { Takes stack.old.items action }
    ensures out { IfOk result (λ _. stack_out stack.new.items ≡ stack_out stack.old.items ++ Did action ∷ []) }
    ensures turns { IfOk result (λ _. Turns stack.old.items stack.new.items action) }
{
    match action {
        RULE => rules::plain(stack),
        RULE_HYPOTHESIS => rules::on_hypothesis(stack),
        RULE_TWO_HYPOTHESES => rules::on_two_hypotheses(stack),
        RULE_ROWS => rules::with_rows(stack),
        RULE_FORMULA => rules::with_formula(stack),
        RULE_TERM => rules::with_term(stack),
        RULE_TWO_TERMS => rules::with_two_terms(stack),
        RULE_HYPOTHESIS_TERM => rules::on_hypothesis_with_term(stack),
        RULE_TERM_NUMBER => rules::with_term_and_number(stack),
        _ => unreachable!(),
    }
}

/// Does one action over the values on top.
pub fn act(alloc: Global, action: u8, stack: &mut Vec<Value>) -> Result<(), Memory>
    requires own { IsProofAction action }
    requires takes { Takes stack.old.items action }
    ensures out { IfOk result (λ _. stack_out stack.new.items ≡ stack_out stack.old.items ++ Did action ∷ []) }
    ensures turns { IfOk result (λ _. Turns stack.old.items stack.new.items action) }
{
    if action <= LISTED {
        evaluate::act(alloc, action, stack)
    } else if action <= OBLIGATION_OF_INITIALISATION {
        act_proof(alloc, action, stack)
    } else if action <= MINUS_ROW {
        act_node(alloc, action, stack)
    } else {
        act_rule(action, stack)
    }
}

// Puts a word on top, or does an action.
fn take_item(
    alloc: Global,
    tokens: &[Token],
    item: Item,
    stack: &mut Vec<Value>,
) -> Result<(), Memory>
    requires heard { IsHeard tokens.now item }
    requires own { FitsProofs (kinds_of stack.old.items) item }
    ensures out { IfOk result (λ _. stack_out stack.new.items ≡ stack_out stack.old.items ++ lexeme tokens.now item ∷ []) }
    ensures fits { IfOk result (λ _. GoesOn (kinds_of stack.old.items) (kinds_of stack.new.items) item) }
{
    match item {
        Item::Word(terminal) => {
            let value = word(alloc, tokens, terminal)?;
            push(stack, value)
        }
        Item::Do(action) => act(alloc, action, stack),
    }
}

/// The values for which these items are written.
pub fn evaluate_proofs(
    alloc: Global,
    tokens: &[Token],
    items: &[Item],
) -> Result<Vec<Value>, Memory>
    requires heard { AreHeard tokens.now items.now }
    requires fits { (end : List ℕ) × (kinds signatures items.now [] ≡ Some end) × (are_of_proofs end ≡ true) }
    ensures out { IfOk result (λ stack. stack_out stack.items ≡ lexemes tokens.now items.now) }
    ensures kinds { IfOk result (λ stack. Some (kinds_of stack.items) ≡ kinds signatures items.now []) }
{
    let mut stack = Vec::new(alloc);
    for item in items {
        take_item(alloc, tokens, *item, &mut stack)?;
    }
    Ok(stack)
}
