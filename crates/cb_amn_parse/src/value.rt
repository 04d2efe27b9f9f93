//! The values from which raw syntax is built, on a stack.

ghost use Rattle.std.specs.Prelude.{◌≡◌, ◌++◌, ◌∷◌, [], IfOk, ℕ};
ghost use Rattle.cb_lex.specs.declared.token.Sort.TheVariants as sort;
ghost use Rattle.cb_lex.specs.declared.token.Sign.TheVariants as sign;
ghost use Rattle.cb_lex.specs.declared.token.Keyword.TheVariants as keyword;
ghost use Rattle.cb_grammar.specs.Signatures.{name_kind, number_kind, limit_kind, truth_kind, set_kind, relation_kind, operator_kind, minus_kind, card_kind, bool_kind, brace_kind, formula_kind, term_kind, terms_kind, names_kind, condition_kind, literal_kind, end_kind, bound_kind, domain_kind, substitution_kind, sides_kind, sets_kind, properties_kind, state_kind, operations_kind, machine_kind};
ghost use Rattle.cb_grammar.specs.declared.actions.TheConstants.{BINARY};
ghost use Rattle.cb_amn_parse.specs.Lexemes.{Named, Said};
ghost use Rattle.cb_amn_parse.specs.Words.{operator_sort, operator_action, relation_sort};
ghost use Rattle.cb_amn_parse.specs.Formulas.{term_out, formula_out, terms_out, names_out, condition_out};
ghost use Rattle.cb_amn_parse.specs.Machines.{literal_out, end_out, bound_out, domain_out, subst_out, sides_out, sets_out, properties_out, state_out, operations_out, machine_out};
ghost use Rattle.cb_amn_parse.specs.Values.{value_out, kind_of, stack_out, kinds_of, HasTop, limit_keyword, truth_keyword, set_keyword};

use crate::Memory;
use cb_lex::raw::domain::{RawBound, RawDomain, RawEnd, RawLiteral, RawParam};
use cb_lex::raw::event::RawEvent;
use cb_lex::raw::name::{RawName, RawNames};
use cb_lex::raw::process::{RawProcess, RawProcesses};
use cb_lex::raw::proof::{RawCert, RawObligation, RawProofs, RawRow, RawRows};
use cb_lex::raw::sign::{RawOperator, RawRelation};
use cb_lex::raw::subst::{RawSubst, RawSubsts};
use cb_lex::raw::term::{RawFormula, RawTerm, RawTerms};
use cb_lex::raw::text::{
    RawChannel, RawController, RawDefinition, RawMachine, RawOperation, RawProperty, RawSet,
    RawState, RawText,
};
use cb_lex::token::Place;
use sqlite_items::Items;

/// `MAXINT` or `MININT`.
#[derive(Clone, Copy, Debug, PartialEq, Eq)]
pub enum Limit {
    MaxInt,
    MinInt,
}

/// The name of a set that is always there.
#[derive(Clone, Copy, Debug, PartialEq, Eq)]
pub enum SetWord {
    Nat,
    Nat1,
    Int,
    /// `BOOL`
    Truths,
}

/// A value on the stack: a word, or what was built from words.
#[derive(Drop)]
pub enum Value {
    Name(RawName),
    Number(i64, Place),
    Limit(Limit, Place),
    /// `TRUE` or `FALSE`.
    Truth(bool, Place),
    SetWord(SetWord, Place),
    Relation(RawRelation, Place),
    Operator(RawOperator, Place),
    /// `card`
    Card(Place),
    /// `bool`
    Bool(Place),
    /// `{`
    Brace(Place),
    /// `STOP`
    Stop(Place),
    /// `SKIP`
    Skip(Place),
    /// `IF` of processes.
    If(Place),
    /// `INITIALISATION` in the name of an obligation.
    Initialisation(Place),
    /// `START` in the name of an obligation.
    Start(Place),
    Formula(RawFormula),
    Term(RawTerm),
    Terms(RawTerms),
    Names(RawNames),
    /// A formula, or none where it is left out.
    Condition(Option<RawFormula>),
    Literal(RawLiteral),
    /// The end of a range without its minus.
    End(RawEnd),
    Bound(RawBound),
    Domain(RawDomain),
    Subst(RawSubst),
    /// The sides of a CHOICE.
    Sides(RawSubsts),
    Sets(Items<RawSet>),
    Properties(Items<RawProperty>),
    State(Option<RawState>),
    Operations(Items<RawOperation>),
    Machine(RawMachine),
    Machines(Items<RawMachine>),
    Channels(Items<RawChannel>),
    Parameter(RawParam),
    Parameters(Items<RawParam>),
    Event(RawEvent),
    Process(RawProcess),
    /// The operands of a chain of processes.
    Chain(RawProcesses),
    Definitions(Items<RawDefinition>),
    Controller(RawController),
    Controllers(Items<RawController>),
    Text(RawText),
    Obligation(RawObligation),
    Row(RawRow),
    Rows(RawRows),
    Node(RawCert),
    /// The certificates of the premises of a rule.
    Nodes(Vec<RawCert>),
    Proofs(RawProofs),
}

/// Puts a value on top.
pub fn push(stack: &mut Vec<Value>, value: Value) -> Result<(), Memory>
    ensures out { IfOk result (λ _. stack_out stack.new.items ≡ stack_out stack.old.items ++ value_out value) }
    ensures above { IfOk result (λ _. kinds_of stack.new.items ≡ kind_of value ∷ kinds_of stack.old.items) }
{
    stack.push(value)?;
    Ok(())
}

// the top
fn pop(stack: &mut Vec<Value>) -> Value
    requires { (kind : ℕ) × HasTop stack.old.items kind }
    ensures out { stack_out stack.old.items ≡ stack_out stack.new.items ++ value_out result }
    ensures below { kinds_of stack.old.items ≡ kind_of result ∷ kinds_of stack.new.items }
{
    match stack.pop() {
        Some(value) => value,
        None => unreachable!(),
    }
}

/// Takes a name from the top.
pub fn pop_name(stack: &mut Vec<Value>) -> RawName
    requires { HasTop stack.old.items name_kind }
    ensures out { stack_out stack.old.items ≡ stack_out stack.new.items ++ Named result ∷ [] }
    ensures below { kinds_of stack.old.items ≡ name_kind ∷ kinds_of stack.new.items }
{
    match pop(stack) {
        Value::Name(name) => name,
        _ => unreachable!(),
    }
}

/// Takes the MAXINT or MININT from the top.
pub fn pop_limit(stack: &mut Vec<Value>) -> (Limit, Place)
    requires { HasTop stack.old.items limit_kind }
    ensures out { stack_out stack.old.items ≡ stack_out stack.new.items ++ Said (sort.Keyword (limit_keyword result.0)) result.1 ∷ [] }
    ensures below { kinds_of stack.old.items ≡ limit_kind ∷ kinds_of stack.new.items }
{
    match pop(stack) {
        Value::Limit(limit, place) => (limit, place),
        _ => unreachable!(),
    }
}

/// Takes the number from the top.
pub fn pop_number(stack: &mut Vec<Value>) -> (i64, Place)
    requires { HasTop stack.old.items number_kind }
    ensures out { stack_out stack.old.items ≡ stack_out stack.new.items ++ Said (sort.Number result.0) result.1 ∷ [] }
    ensures below { kinds_of stack.old.items ≡ number_kind ∷ kinds_of stack.new.items }
{
    match pop(stack) {
        Value::Number(number, place) => (number, place),
        _ => unreachable!(),
    }
}

/// Takes the TRUE or FALSE from the top.
pub fn pop_truth(stack: &mut Vec<Value>) -> (bool, Place)
    requires { HasTop stack.old.items truth_kind }
    ensures out { stack_out stack.old.items ≡ stack_out stack.new.items ++ Said (sort.Keyword (truth_keyword result.0)) result.1 ∷ [] }
    ensures below { kinds_of stack.old.items ≡ truth_kind ∷ kinds_of stack.new.items }
{
    match pop(stack) {
        Value::Truth(truth, place) => (truth, place),
        _ => unreachable!(),
    }
}

/// Takes the name of a set that is always there from the top.
pub fn pop_set_word(stack: &mut Vec<Value>) -> (SetWord, Place)
    requires { HasTop stack.old.items set_kind }
    ensures out { stack_out stack.old.items ≡ stack_out stack.new.items ++ Said (sort.Keyword (set_keyword result.0)) result.1 ∷ [] }
    ensures below { kinds_of stack.old.items ≡ set_kind ∷ kinds_of stack.new.items }
{
    match pop(stack) {
        Value::SetWord(set, place) => (set, place),
        _ => unreachable!(),
    }
}

/// Takes the relation sign from the top.
pub fn pop_relation(stack: &mut Vec<Value>) -> (RawRelation, Place)
    requires { HasTop stack.old.items relation_kind }
    ensures out { stack_out stack.old.items ≡ stack_out stack.new.items ++ Said (relation_sort result.0) result.1 ∷ [] }
    ensures below { kinds_of stack.old.items ≡ relation_kind ∷ kinds_of stack.new.items }
{
    match pop(stack) {
        Value::Relation(relation, place) => (relation, place),
        _ => unreachable!(),
    }
}

/// Takes a sign between terms that is no minus from the top.
pub fn pop_operator(stack: &mut Vec<Value>) -> (RawOperator, Place)
    requires { HasTop stack.old.items operator_kind }
    ensures out { stack_out stack.old.items ≡ stack_out stack.new.items ++ Said (operator_sort result.0) result.1 ∷ [] }
    ensures below { kinds_of stack.old.items ≡ operator_kind ∷ kinds_of stack.new.items }
    ensures binary { operator_action result.0 ≡ BINARY }
{
    match pop(stack) {
        Value::Operator(operator, place) => (operator, place),
        _ => unreachable!(),
    }
}

/// Takes a minus from the top.
pub fn pop_minus(stack: &mut Vec<Value>) -> Place
    requires { HasTop stack.old.items minus_kind }
    ensures out { stack_out stack.old.items ≡ stack_out stack.new.items ++ Said (sort.Sign sign.Minus) result ∷ [] }
    ensures below { kinds_of stack.old.items ≡ minus_kind ∷ kinds_of stack.new.items }
{
    match pop(stack) {
        Value::Operator(RawOperator::Minus, place) => place,
        _ => unreachable!(),
    }
}

/// Takes the word card from the top.
pub fn pop_card(stack: &mut Vec<Value>) -> Place
    requires { HasTop stack.old.items card_kind }
    ensures out { stack_out stack.old.items ≡ stack_out stack.new.items ++ Said (sort.Keyword keyword.Card) result ∷ [] }
    ensures below { kinds_of stack.old.items ≡ card_kind ∷ kinds_of stack.new.items }
{
    match pop(stack) {
        Value::Card(place) => place,
        _ => unreachable!(),
    }
}

/// Takes the word bool from the top.
pub fn pop_bool(stack: &mut Vec<Value>) -> Place
    requires { HasTop stack.old.items bool_kind }
    ensures out { stack_out stack.old.items ≡ stack_out stack.new.items ++ Said (sort.Keyword keyword.Bool) result ∷ [] }
    ensures below { kinds_of stack.old.items ≡ bool_kind ∷ kinds_of stack.new.items }
{
    match pop(stack) {
        Value::Bool(place) => place,
        _ => unreachable!(),
    }
}

/// Takes an opening brace from the top.
pub fn pop_brace(stack: &mut Vec<Value>) -> Place
    requires { HasTop stack.old.items brace_kind }
    ensures out { stack_out stack.old.items ≡ stack_out stack.new.items ++ Said (sort.Sign sign.OpenBrace) result ∷ [] }
    ensures below { kinds_of stack.old.items ≡ brace_kind ∷ kinds_of stack.new.items }
{
    match pop(stack) {
        Value::Brace(place) => place,
        _ => unreachable!(),
    }
}

/// Takes a formula from the top.
pub fn pop_formula(stack: &mut Vec<Value>) -> RawFormula
    requires { HasTop stack.old.items formula_kind }
    ensures out { stack_out stack.old.items ≡ stack_out stack.new.items ++ formula_out result }
    ensures below { kinds_of stack.old.items ≡ formula_kind ∷ kinds_of stack.new.items }
{
    match pop(stack) {
        Value::Formula(formula) => formula,
        _ => unreachable!(),
    }
}

/// Takes a term from the top.
pub fn pop_term(stack: &mut Vec<Value>) -> RawTerm
    requires { HasTop stack.old.items term_kind }
    ensures out { stack_out stack.old.items ≡ stack_out stack.new.items ++ term_out result }
    ensures below { kinds_of stack.old.items ≡ term_kind ∷ kinds_of stack.new.items }
{
    match pop(stack) {
        Value::Term(term) => term,
        _ => unreachable!(),
    }
}

/// Takes the terms from the top.
pub fn pop_terms(stack: &mut Vec<Value>) -> RawTerms
    requires { HasTop stack.old.items terms_kind }
    ensures out { stack_out stack.old.items ≡ stack_out stack.new.items ++ terms_out result }
    ensures below { kinds_of stack.old.items ≡ terms_kind ∷ kinds_of stack.new.items }
{
    match pop(stack) {
        Value::Terms(terms) => terms,
        _ => unreachable!(),
    }
}

/// Takes the names from the top.
pub fn pop_names(stack: &mut Vec<Value>) -> RawNames
    requires { HasTop stack.old.items names_kind }
    ensures out { stack_out stack.old.items ≡ stack_out stack.new.items ++ names_out result }
    ensures below { kinds_of stack.old.items ≡ names_kind ∷ kinds_of stack.new.items }
{
    match pop(stack) {
        Value::Names(names) => names,
        _ => unreachable!(),
    }
}

/// Takes a condition from the top.
pub fn pop_condition(stack: &mut Vec<Value>) -> Option<RawFormula>
    requires { HasTop stack.old.items condition_kind }
    ensures out { stack_out stack.old.items ≡ stack_out stack.new.items ++ condition_out result }
    ensures below { kinds_of stack.old.items ≡ condition_kind ∷ kinds_of stack.new.items }
{
    match pop(stack) {
        Value::Condition(condition) => condition,
        _ => unreachable!(),
    }
}

/// Takes a literal from the top.
pub fn pop_literal(stack: &mut Vec<Value>) -> RawLiteral
    requires { HasTop stack.old.items literal_kind }
    ensures out { stack_out stack.old.items ≡ stack_out stack.new.items ++ literal_out result }
    ensures below { kinds_of stack.old.items ≡ literal_kind ∷ kinds_of stack.new.items }
{
    match pop(stack) {
        Value::Literal(literal) => literal,
        _ => unreachable!(),
    }
}

/// Takes the end of a range without its minus from the top.
pub fn pop_end(stack: &mut Vec<Value>) -> RawEnd
    requires { HasTop stack.old.items end_kind }
    ensures out { stack_out stack.old.items ≡ stack_out stack.new.items ++ end_out result }
    ensures below { kinds_of stack.old.items ≡ end_kind ∷ kinds_of stack.new.items }
{
    match pop(stack) {
        Value::End(end) => end,
        _ => unreachable!(),
    }
}

/// Takes the end of a range from the top.
pub fn pop_bound(stack: &mut Vec<Value>) -> RawBound
    requires { HasTop stack.old.items bound_kind }
    ensures out { stack_out stack.old.items ≡ stack_out stack.new.items ++ bound_out result }
    ensures below { kinds_of stack.old.items ≡ bound_kind ∷ kinds_of stack.new.items }
{
    match pop(stack) {
        Value::Bound(bound) => bound,
        _ => unreachable!(),
    }
}

/// Takes a domain from the top.
pub fn pop_domain(stack: &mut Vec<Value>) -> RawDomain
    requires { HasTop stack.old.items domain_kind }
    ensures out { stack_out stack.old.items ≡ stack_out stack.new.items ++ domain_out result }
    ensures below { kinds_of stack.old.items ≡ domain_kind ∷ kinds_of stack.new.items }
{
    match pop(stack) {
        Value::Domain(domain) => domain,
        _ => unreachable!(),
    }
}

/// Takes a substitution from the top.
pub fn pop_subst(stack: &mut Vec<Value>) -> RawSubst
    requires { HasTop stack.old.items substitution_kind }
    ensures out { stack_out stack.old.items ≡ stack_out stack.new.items ++ subst_out result }
    ensures below { kinds_of stack.old.items ≡ substitution_kind ∷ kinds_of stack.new.items }
{
    match pop(stack) {
        Value::Subst(subst) => subst,
        _ => unreachable!(),
    }
}

/// Takes the sides of a CHOICE from the top.
pub fn pop_sides(stack: &mut Vec<Value>) -> RawSubsts
    requires { HasTop stack.old.items sides_kind }
    ensures out { stack_out stack.old.items ≡ stack_out stack.new.items ++ sides_out result }
    ensures below { kinds_of stack.old.items ≡ sides_kind ∷ kinds_of stack.new.items }
{
    match pop(stack) {
        Value::Sides(sides) => sides,
        _ => unreachable!(),
    }
}

/// Takes the sets from the top.
pub fn pop_sets(stack: &mut Vec<Value>) -> Items<RawSet>
    requires { HasTop stack.old.items sets_kind }
    ensures out { stack_out stack.old.items ≡ stack_out stack.new.items ++ sets_out result }
    ensures below { kinds_of stack.old.items ≡ sets_kind ∷ kinds_of stack.new.items }
{
    match pop(stack) {
        Value::Sets(sets) => sets,
        _ => unreachable!(),
    }
}

/// Takes the properties from the top.
pub fn pop_properties(stack: &mut Vec<Value>) -> Items<RawProperty>
    requires { HasTop stack.old.items properties_kind }
    ensures out { stack_out stack.old.items ≡ stack_out stack.new.items ++ properties_out result }
    ensures below { kinds_of stack.old.items ≡ properties_kind ∷ kinds_of stack.new.items }
{
    match pop(stack) {
        Value::Properties(properties) => properties,
        _ => unreachable!(),
    }
}

/// Takes the state of a machine, or none from the top.
pub fn pop_state(stack: &mut Vec<Value>) -> Option<RawState>
    requires { HasTop stack.old.items state_kind }
    ensures out { stack_out stack.old.items ≡ stack_out stack.new.items ++ state_out result }
    ensures below { kinds_of stack.old.items ≡ state_kind ∷ kinds_of stack.new.items }
{
    match pop(stack) {
        Value::State(state) => state,
        _ => unreachable!(),
    }
}

/// Takes the operations from the top.
pub fn pop_operations(stack: &mut Vec<Value>) -> Items<RawOperation>
    requires { HasTop stack.old.items operations_kind }
    ensures out { stack_out stack.old.items ≡ stack_out stack.new.items ++ operations_out result }
    ensures below { kinds_of stack.old.items ≡ operations_kind ∷ kinds_of stack.new.items }
{
    match pop(stack) {
        Value::Operations(operations) => operations,
        _ => unreachable!(),
    }
}

/// Takes a machine from the top.
pub fn pop_machine(stack: &mut Vec<Value>) -> RawMachine
    requires { HasTop stack.old.items machine_kind }
    ensures out { stack_out stack.old.items ≡ stack_out stack.new.items ++ machine_out result }
    ensures below { kinds_of stack.old.items ≡ machine_kind ∷ kinds_of stack.new.items }
{
    match pop(stack) {
        Value::Machine(machine) => machine,
        _ => unreachable!(),
    }
}
