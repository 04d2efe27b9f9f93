//! The actions that build certificates, one for each shape of a rule's arguments.

ghost use Rattle.std.specs.Prelude.{◌≡◌, ◌++◌, ◌∷◌, [], IfOk};
ghost use Rattle.cb_grammar.specs.Signatures.{node_kind};
ghost use Rattle.cb_amn_parse.specs.Lexemes.{Named, Did};
ghost use Rattle.cb_amn_parse.specs.Proofs.{arguments_out, rule_action, nodes_out};
ghost use Rattle.cb_amn_parse.specs.Values.{stack_out, kinds_of, Takes, Turns};

use crate::Memory;
use crate::value::{pop_nodes, pop_numeral, pop_rows};
use cb_amn_parse::value::{Value, pop_formula, pop_name, pop_term, push};
use cb_grammar::actions::{
    RULE, RULE_FORMULA, RULE_HYPOTHESIS, RULE_HYPOTHESIS_TERM, RULE_ROWS, RULE_TERM,
    RULE_TERM_NUMBER, RULE_TWO_HYPOTHESES, RULE_TWO_TERMS,
};
use cb_lex::raw::name::RawName;
use cb_lex::raw::proof::{RawArguments, RawCert, RawRule};

// puts a certificate on top
fn push_cert(
    stack: &mut Vec<Value>,
    word: RawName,
    arguments: RawArguments,
    children: Vec<RawCert>,
) -> Result<(), Memory>
    ensures out { IfOk result (λ _. stack_out stack.new.items ≡ stack_out stack.old.items ++ Named word ∷ arguments_out arguments ++ nodes_out children.items ++ Did (rule_action arguments) ∷ []) }
    ensures above { IfOk result (λ _. kinds_of stack.new.items ≡ node_kind ∷ kinds_of stack.old.items) }
{
    let rule = RawRule { word, arguments };
    push(stack, Value::Node(RawCert { rule, children }))
}

pub(crate) fn plain(stack: &mut Vec<Value>) -> Result<(), Memory>
    requires { Takes stack.old.items RULE }
    ensures out { IfOk result (λ _. stack_out stack.new.items ≡ stack_out stack.old.items ++ Did RULE ∷ []) }
    ensures turns { IfOk result (λ _. Turns stack.old.items stack.new.items RULE) }
{
    let children = pop_nodes(stack);
    let word = pop_name(stack);
    push_cert(stack, word, RawArguments::Nothing, children)
}

pub(crate) fn on_hypothesis(stack: &mut Vec<Value>) -> Result<(), Memory>
    requires { Takes stack.old.items RULE_HYPOTHESIS }
    ensures out { IfOk result (λ _. stack_out stack.new.items ≡ stack_out stack.old.items ++ Did RULE_HYPOTHESIS ∷ []) }
    ensures turns { IfOk result (λ _. Turns stack.old.items stack.new.items RULE_HYPOTHESIS) }
{
    let children = pop_nodes(stack);
    let hypothesis = pop_numeral(stack);
    let word = pop_name(stack);
    let arguments = RawArguments::Hypothesis(hypothesis);
    push_cert(stack, word, arguments, children)
}

pub(crate) fn on_two_hypotheses(stack: &mut Vec<Value>) -> Result<(), Memory>
    requires { Takes stack.old.items RULE_TWO_HYPOTHESES }
    ensures out { IfOk result (λ _. stack_out stack.new.items ≡ stack_out stack.old.items ++ Did RULE_TWO_HYPOTHESES ∷ []) }
    ensures turns { IfOk result (λ _. Turns stack.old.items stack.new.items RULE_TWO_HYPOTHESES) }
{
    let children = pop_nodes(stack);
    let second = pop_numeral(stack);
    let first = pop_numeral(stack);
    let word = pop_name(stack);
    let arguments = RawArguments::TwoHypotheses(first, second);
    push_cert(stack, word, arguments, children)
}

pub(crate) fn with_rows(stack: &mut Vec<Value>) -> Result<(), Memory>
    requires { Takes stack.old.items RULE_ROWS }
    ensures out { IfOk result (λ _. stack_out stack.new.items ≡ stack_out stack.old.items ++ Did RULE_ROWS ∷ []) }
    ensures turns { IfOk result (λ _. Turns stack.old.items stack.new.items RULE_ROWS) }
{
    let children = pop_nodes(stack);
    let rows = pop_rows(stack);
    let word = pop_name(stack);
    let arguments = RawArguments::Rows(rows);
    push_cert(stack, word, arguments, children)
}

pub(crate) fn with_formula(stack: &mut Vec<Value>) -> Result<(), Memory>
    requires { Takes stack.old.items RULE_FORMULA }
    ensures out { IfOk result (λ _. stack_out stack.new.items ≡ stack_out stack.old.items ++ Did RULE_FORMULA ∷ []) }
    ensures turns { IfOk result (λ _. Turns stack.old.items stack.new.items RULE_FORMULA) }
{
    let children = pop_nodes(stack);
    let formula = pop_formula(stack);
    let word = pop_name(stack);
    let arguments = RawArguments::Formula(formula);
    push_cert(stack, word, arguments, children)
}

pub(crate) fn with_term(stack: &mut Vec<Value>) -> Result<(), Memory>
    requires { Takes stack.old.items RULE_TERM }
    ensures out { IfOk result (λ _. stack_out stack.new.items ≡ stack_out stack.old.items ++ Did RULE_TERM ∷ []) }
    ensures turns { IfOk result (λ _. Turns stack.old.items stack.new.items RULE_TERM) }
{
    let children = pop_nodes(stack);
    let term = pop_term(stack);
    let word = pop_name(stack);
    let arguments = RawArguments::Term(term);
    push_cert(stack, word, arguments, children)
}

pub(crate) fn with_two_terms(stack: &mut Vec<Value>) -> Result<(), Memory>
    requires { Takes stack.old.items RULE_TWO_TERMS }
    ensures out { IfOk result (λ _. stack_out stack.new.items ≡ stack_out stack.old.items ++ Did RULE_TWO_TERMS ∷ []) }
    ensures turns { IfOk result (λ _. Turns stack.old.items stack.new.items RULE_TWO_TERMS) }
{
    let children = pop_nodes(stack);
    let second = pop_term(stack);
    let first = pop_term(stack);
    let word = pop_name(stack);
    let arguments = RawArguments::TwoTerms(first, second);
    push_cert(stack, word, arguments, children)
}

pub(crate) fn on_hypothesis_with_term(stack: &mut Vec<Value>) -> Result<(), Memory>
    requires { Takes stack.old.items RULE_HYPOTHESIS_TERM }
    ensures out { IfOk result (λ _. stack_out stack.new.items ≡ stack_out stack.old.items ++ Did RULE_HYPOTHESIS_TERM ∷ []) }
    ensures turns { IfOk result (λ _. Turns stack.old.items stack.new.items RULE_HYPOTHESIS_TERM) }
{
    let children = pop_nodes(stack);
    let term = pop_term(stack);
    let hypothesis = pop_numeral(stack);
    let word = pop_name(stack);
    let arguments = RawArguments::HypothesisTerm(hypothesis, term);
    push_cert(stack, word, arguments, children)
}

pub(crate) fn with_term_and_number(stack: &mut Vec<Value>) -> Result<(), Memory>
    requires { Takes stack.old.items RULE_TERM_NUMBER }
    ensures out { IfOk result (λ _. stack_out stack.new.items ≡ stack_out stack.old.items ++ Did RULE_TERM_NUMBER ∷ []) }
    ensures turns { IfOk result (λ _. Turns stack.old.items stack.new.items RULE_TERM_NUMBER) }
{
    let children = pop_nodes(stack);
    let number = pop_numeral(stack);
    let term = pop_term(stack);
    let word = pop_name(stack);
    let arguments = RawArguments::TermNumber(term, number);
    push_cert(stack, word, arguments, children)
}
