//! Arguments of proofs in normal form.

ghost use Rattle.std.specs.Prelude.{◌≡◌, IfOk, OnOk};
ghost use Rattle.cb_lex.specs.RawTermTree as raw;
ghost use Rattle.cb_term.specs.Tree as tree;
ghost use Rattle.cb_normal.specs.Normal.{sign_of, minus, related};
ghost use Rattle.cb_arguments.specs.Scopes.{name_of, typing_kind};
ghost use Rattle.cb_arguments.specs.Arguments.{free_term, or_integer, under, term_in, terms_in, formula_in};

use crate::clear::{enter, leave};
use crate::scope::{Symbol, Symbols, bound_index, copy_name, typing, written};
use cb_lex::Memory;
use cb_lex::raw::name::RawName;
use cb_lex::raw::sign::{RawOperator, RawRelation};
use cb_lex::raw::term::{RawFormula, RawFormulaNode, RawTerm, RawTermNode};
use cb_normal::formula::{negation, of_atom, relation_of, sign};
use cb_term::kind::Kind;
use cb_term::name::{Name, Names};
use cb_term::tree::{Formula, Term};
use sqlite_items::Items;
use std::alloc::Global;

fn free(alloc: Global, name: &RawName, symbol: Option<Symbol>) -> Result<Term, Memory>
    ensures { IfOk result (λ t. t ≡ free_term name.now symbol) }
{
    match symbol {
        None => Ok(Term::var(copy_name(alloc, name)?)),
        Some(Symbol::Constant(value)) => Ok(Term::num(value)),
        Some(Symbol::Element { set, index }) => Ok(Term::elem(set, index)),
        Some(Symbol::Set(set)) => Ok(Term::elems(set)),
    }
}

fn of_name(alloc: Global, symbols: &Symbols, bound: &[Name], name: &RawName) -> Result<Term, Memory>
    ensures { IfOk result (λ t. t ≡ term_in symbols.now bound.now (raw.Name name.now)) }
{
    match bound_index(bound, name) {
        None => free(alloc, name, written(symbols, name)),
        Some(k) => match u32::try_from(k) {
            Ok(index) => Ok(Term::bound(index)),
            Err(_) => Ok(Term::bound(u32::MAX)),
        },
    }
}

fn kind_or_integer(kind: Option<Kind>) -> Kind
    ensures { result ≡ or_integer kind }
{
    kind.unwrap_or(Kind::Integer)
}

fn every(alloc: Global, name: &RawName, kind: Kind, body: Formula) -> Result<Formula, Memory>
    ensures { IfOk result (λ f. f ≡ tree.Every (name_of name.now) kind body) }
{
    let name = copy_name(alloc, name)?;
    Formula::every(alloc, name, kind, body)
}

fn exist(alloc: Global, name: &RawName, kind: Kind, body: Formula) -> Result<Formula, Memory>
    ensures { IfOk result (λ f. f ≡ tree.Exist (name_of name.now) kind body) }
{
    let name = copy_name(alloc, name)?;
    Formula::exist(alloc, name, kind, body)
}

/// The normal form of a term. The bound names end as they began.
#[cycle(normal)]
pub fn normal_term(
    alloc: Global,
    symbols: &Symbols,
    bound: &mut Names,
    term: &RawTerm,
) -> Result<Term, Memory>
    ensures tree { IfOk result (λ t. t ≡ term_in symbols.now bound.old term.now) }
    ensures kept { OnOk result (bound.new ≡ bound.old) }
{
    match &term.node {
        RawTermNode::Number { value, .. } => Ok(Term::num(*value)),
        RawTermNode::Name(name) => of_name(alloc, symbols, bound.as_slice(), name),
        RawTermNode::Atom { atom, .. } => of_atom(alloc, *atom),
        RawTermNode::Binary {
            operator,
            left,
            right,
            ..
        } => normal_binary(alloc, symbols, bound, *operator, left, right),
        RawTermNode::Minus { term: operand, .. } => normal_minus(alloc, symbols, bound, operand),
        RawTermNode::Card { term: operand, .. } => normal_card(alloc, symbols, bound, operand),
        RawTermNode::TruthOf { formula, .. } => normal_truth(alloc, symbols, bound, formula),
        RawTermNode::Listed { terms, .. } => normal_listed(alloc, symbols, bound, terms.as_slice()),
    }
}

// Both terms.
#[cycle(normal)]
fn both_terms(
    alloc: Global,
    symbols: &Symbols,
    bound: &mut Names,
    left: &RawTerm,
    right: &RawTerm,
) -> Result<(Term, Term), Memory>
    ensures left { IfOk result (λ p. p.0 ≡ term_in symbols.now bound.old left.now) }
    ensures right { IfOk result (λ p. p.1 ≡ term_in symbols.now bound.old right.now) }
    ensures kept { OnOk result (bound.new ≡ bound.old) }
{
    let a = normal_term(alloc, symbols, bound, left)?;
    let b = normal_term(alloc, symbols, bound, right)?;
    Ok((a, b))
}

// Two terms with an operator between them.
#[cycle(normal)]
fn normal_binary(
    alloc: Global,
    symbols: &Symbols,
    bound: &mut Names,
    operator: RawOperator,
    left: &RawTerm,
    right: &RawTerm,
) -> Result<Term, Memory>
    ensures tree { IfOk result (λ t. t ≡ tree.Bin (sign_of operator) (term_in symbols.now bound.old left.now) (term_in symbols.now bound.old right.now)) }
    ensures kept { OnOk result (bound.new ≡ bound.old) }
{
    let (a, b) = both_terms(alloc, symbols, bound, left, right)?;
    Term::bin(alloc, sign(operator), a, b)
}

// A minus before a term.
#[cycle(normal)]
fn normal_minus(
    alloc: Global,
    symbols: &Symbols,
    bound: &mut Names,
    operand: &RawTerm,
) -> Result<Term, Memory>
    ensures tree { IfOk result (λ t. t ≡ minus (term_in symbols.now bound.old operand.now)) }
    ensures kept { OnOk result (bound.new ≡ bound.old) }
{
    let a = normal_term(alloc, symbols, bound, operand)?;
    negation(alloc, a)
}

// `card(..)`
#[cycle(normal)]
fn normal_card(
    alloc: Global,
    symbols: &Symbols,
    bound: &mut Names,
    operand: &RawTerm,
) -> Result<Term, Memory>
    ensures tree { IfOk result (λ t. t ≡ tree.Card (term_in symbols.now bound.old operand.now)) }
    ensures kept { OnOk result (bound.new ≡ bound.old) }
{
    let a = normal_term(alloc, symbols, bound, operand)?;
    Term::card(alloc, a)
}

// `bool(..)`
#[cycle(normal)]
fn normal_truth(
    alloc: Global,
    symbols: &Symbols,
    bound: &mut Names,
    formula: &RawFormula,
) -> Result<Term, Memory>
    ensures tree { IfOk result (λ t. t ≡ tree.Test (formula_in symbols.now bound.old formula.now)) }
    ensures kept { OnOk result (bound.new ≡ bound.old) }
{
    let f = normal_formula(alloc, symbols, bound, formula)?;
    Term::bool_of(alloc, f)
}

// `{..}`
#[cycle(normal)]
fn normal_listed(
    alloc: Global,
    symbols: &Symbols,
    bound: &mut Names,
    terms: &[RawTerm],
) -> Result<Term, Memory>
    ensures tree { IfOk result (λ t. t ≡ tree.Listed (terms_in symbols.now bound.old (raw.raw_terms terms.now))) }
    ensures kept { OnOk result (bound.new ≡ bound.old) }
{
    let mut listed = Items::new(alloc);
    for item in terms {
        listed.push(normal_term(alloc, symbols, bound, item)?)?;
    }
    Ok(Term::listed(listed))
}

/// The normal form of a formula. The bound names end as they began.
#[cycle(normal)]
pub fn normal_formula(
    alloc: Global,
    symbols: &Symbols,
    bound: &mut Names,
    formula: &RawFormula,
) -> Result<Formula, Memory>
    ensures tree { IfOk result (λ f. f ≡ formula_in symbols.now bound.old formula.now) }
    ensures kept { OnOk result (bound.new ≡ bound.old) }
{
    match &formula.node {
        RawFormulaNode::True => Ok(Formula::btrue()),
        RawFormulaNode::False => Ok(Formula::bfalse()),
        RawFormulaNode::Not(operand) => normal_not(alloc, symbols, bound, operand),
        RawFormulaNode::And(left, right) => normal_and(alloc, symbols, bound, left, right),
        RawFormulaNode::Or(left, right) => normal_or(alloc, symbols, bound, left, right),
        RawFormulaNode::Implies(left, right) => normal_implies(alloc, symbols, bound, left, right),
        RawFormulaNode::Equivalent(left, right) => normal_iff(alloc, symbols, bound, left, right),
        RawFormulaNode::Relation {
            relation,
            left,
            right,
            ..
        } => normal_relation(alloc, symbols, bound, *relation, left, right),
        RawFormulaNode::Every { name, domain, body } => normal_every(
            alloc, symbols, bound, name, domain, body,
        ),
        RawFormulaNode::Exists { name, body } => normal_exists(alloc, symbols, bound, name, body),
    }
}

// Both formulas.
#[cycle(normal)]
fn both_formulas(
    alloc: Global,
    symbols: &Symbols,
    bound: &mut Names,
    left: &RawFormula,
    right: &RawFormula,
) -> Result<(Formula, Formula), Memory>
    ensures left { IfOk result (λ p. p.0 ≡ formula_in symbols.now bound.old left.now) }
    ensures right { IfOk result (λ p. p.1 ≡ formula_in symbols.now bound.old right.now) }
    ensures kept { OnOk result (bound.new ≡ bound.old) }
{
    let f = normal_formula(alloc, symbols, bound, left)?;
    let g = normal_formula(alloc, symbols, bound, right)?;
    Ok((f, g))
}

// `not`
#[cycle(normal)]
fn normal_not(
    alloc: Global,
    symbols: &Symbols,
    bound: &mut Names,
    operand: &RawFormula,
) -> Result<Formula, Memory>
    ensures tree { IfOk result (λ f. f ≡ tree.Not (formula_in symbols.now bound.old operand.now)) }
    ensures kept { OnOk result (bound.new ≡ bound.old) }
{
    let f = normal_formula(alloc, symbols, bound, operand)?;
    Formula::not(alloc, f)
}

// `&`
#[cycle(normal)]
fn normal_and(
    alloc: Global,
    symbols: &Symbols,
    bound: &mut Names,
    left: &RawFormula,
    right: &RawFormula,
) -> Result<Formula, Memory>
    ensures tree { IfOk result (λ f. f ≡ tree.And (formula_in symbols.now bound.old left.now) (formula_in symbols.now bound.old right.now)) }
    ensures kept { OnOk result (bound.new ≡ bound.old) }
{
    let (f, g) = both_formulas(alloc, symbols, bound, left, right)?;
    Formula::and(alloc, f, g)
}

// `or`
#[cycle(normal)]
fn normal_or(
    alloc: Global,
    symbols: &Symbols,
    bound: &mut Names,
    left: &RawFormula,
    right: &RawFormula,
) -> Result<Formula, Memory>
    ensures tree { IfOk result (λ f. f ≡ tree.Or (formula_in symbols.now bound.old left.now) (formula_in symbols.now bound.old right.now)) }
    ensures kept { OnOk result (bound.new ≡ bound.old) }
{
    let (f, g) = both_formulas(alloc, symbols, bound, left, right)?;
    Formula::or(alloc, f, g)
}

// `=>`
#[cycle(normal)]
fn normal_implies(
    alloc: Global,
    symbols: &Symbols,
    bound: &mut Names,
    left: &RawFormula,
    right: &RawFormula,
) -> Result<Formula, Memory>
    ensures tree { IfOk result (λ f. f ≡ tree.Implies (formula_in symbols.now bound.old left.now) (formula_in symbols.now bound.old right.now)) }
    ensures kept { OnOk result (bound.new ≡ bound.old) }
{
    let (f, g) = both_formulas(alloc, symbols, bound, left, right)?;
    Formula::implies(alloc, f, g)
}

// `<=>`
#[cycle(normal)]
fn normal_iff(
    alloc: Global,
    symbols: &Symbols,
    bound: &mut Names,
    left: &RawFormula,
    right: &RawFormula,
) -> Result<Formula, Memory>
    ensures tree { IfOk result (λ f. f ≡ tree.Iff (formula_in symbols.now bound.old left.now) (formula_in symbols.now bound.old right.now)) }
    ensures kept { OnOk result (bound.new ≡ bound.old) }
{
    let (f, g) = both_formulas(alloc, symbols, bound, left, right)?;
    Formula::iff(alloc, f, g)
}

// Two terms with a relation between them.
#[cycle(normal)]
fn normal_relation(
    alloc: Global,
    symbols: &Symbols,
    bound: &mut Names,
    relation: RawRelation,
    left: &RawTerm,
    right: &RawTerm,
) -> Result<Formula, Memory>
    ensures tree { IfOk result (λ f. f ≡ related relation (term_in symbols.now bound.old left.now) (term_in symbols.now bound.old right.now)) }
    ensures kept { OnOk result (bound.new ≡ bound.old) }
{
    let (a, b) = both_terms(alloc, symbols, bound, left, right)?;
    relation_of(alloc, relation, a, b)
}

// `!name.(domain => body)`
#[cycle(normal)]
fn normal_every(
    alloc: Global,
    symbols: &Symbols,
    bound: &mut Names,
    name: &RawName,
    domain: &RawFormula,
    body: &RawFormula,
) -> Result<Formula, Memory>
    ensures tree { IfOk result (λ f. f ≡ formula_in symbols.now bound.old (raw.Every name.now domain.now body.now)) }
    ensures kept { OnOk result (bound.new ≡ bound.old) }
{
    let (kind, inside) = implies_under(alloc, symbols, bound, name, domain, body)?;
    every(alloc, name, kind, inside)
}

// The kind that the domain gives the name, and `domain => body`, where the name is bound.
#[cycle(normal)]
fn implies_under(
    alloc: Global,
    symbols: &Symbols,
    bound: &mut Names,
    name: &RawName,
    domain: &RawFormula,
    body: &RawFormula,
) -> Result<(Kind, Formula), Memory>
    ensures kind { IfOk result (λ p. p.0 ≡ or_integer (typing_kind symbols.now (under bound.old name.now) (name_of name.now) domain.now)) }
    ensures inside { IfOk result (λ p. p.1 ≡ tree.Implies (formula_in symbols.now (under bound.old name.now) domain.now) (formula_in symbols.now (under bound.old name.now) body.now)) }
    ensures kept { OnOk result (bound.new ≡ bound.old) }
{
    enter(alloc, bound, name)?;
    let kind = kind_or_integer(typing(symbols, bound.as_slice(), name, domain));
    let inside = normal_implies(alloc, symbols, bound, domain, body)?;
    leave(bound);
    Ok((kind, inside))
}

// `#name.(body)`
#[cycle(normal)]
fn normal_exists(
    alloc: Global,
    symbols: &Symbols,
    bound: &mut Names,
    name: &RawName,
    body: &RawFormula,
) -> Result<Formula, Memory>
    ensures tree { IfOk result (λ f. f ≡ formula_in symbols.now bound.old (raw.Exists name.now body.now)) }
    ensures kept { OnOk result (bound.new ≡ bound.old) }
{
    let (kind, inside) = formula_under(alloc, symbols, bound, name, body)?;
    exist(alloc, name, kind, inside)
}

// The kind that the formula gives the name, and the formula, where the name is bound.
#[cycle(normal)]
fn formula_under(
    alloc: Global,
    symbols: &Symbols,
    bound: &mut Names,
    name: &RawName,
    body: &RawFormula,
) -> Result<(Kind, Formula), Memory>
    ensures kind { IfOk result (λ p. p.0 ≡ or_integer (typing_kind symbols.now (under bound.old name.now) (name_of name.now) body.now)) }
    ensures inside { IfOk result (λ p. p.1 ≡ formula_in symbols.now (under bound.old name.now) body.now) }
    ensures kept { OnOk result (bound.new ≡ bound.old) }
{
    enter(alloc, bound, name)?;
    let kind = kind_or_integer(typing(symbols, bound.as_slice(), name, body));
    let inside = normal_formula(alloc, symbols, bound, body)?;
    leave(bound);
    Ok((kind, inside))
}
