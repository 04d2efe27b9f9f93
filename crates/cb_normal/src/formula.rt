//! Terms and formulas in normal form.

ghost use Rattle.std.specs.Prelude.{◌≡◌, IfOk, OnOk, length};
ghost use Rattle.cb_lex.specs.RawTermTree as raw;
ghost use Rattle.cb_term.specs.Tree as tree;
ghost use Rattle.cb_spec.specs.Domains.{kind_of_domain};
ghost use Rattle.cb_forms.specs.Find.{found};
ghost use Rattle.cb_judge.specs.Judged.{under};
ghost use Rattle.cb_normal.specs.Normal.{written, index_of, meaning_term, named, range, atom_term, sign_of, minus, related, domain_or, term_in, terms_in, formula_in};

use cb_forms::table::Table;
use cb_judge::domain::{Choice, MAXINT, typing};
use cb_judge::judge::enter;
use cb_judge::names::{Entry, Meaning, View};
use cb_lex::Memory;
use cb_lex::raw::name::RawName;
use cb_lex::raw::sign::{RawAtom, RawOperator, RawRelation};
use cb_lex::raw::term::{RawFormula, RawFormulaNode, RawTerm, RawTermNode};
use cb_term::kind::{Base, Domain, Kind};
use cb_term::name::{Name, NameText};
use cb_term::sign::{RelSign, TermSign};
use cb_term::tree::{Formula, Term, TermNode};
use sqlite_items::Items;
use std::alloc::Global;

/// The name as it is written.
pub fn copy_name(alloc: Global, name: &RawName) -> Result<Name, Memory>
    ensures { IfOk result (λ x. x ≡ written name.now.text) }
{
    Ok(Name {
        text: NameText::from_slice(alloc, name.text.as_slice())?,
        number: 0,
    })
}

// The number of a bound variable, counted from the inside.
fn bound_index(known: usize, level: usize) -> u32
    ensures { result ≡ index_of known level }
{
    let index = known.saturating_sub(level).saturating_sub(1);
    match u32::try_from(index) {
        Ok(i) => i,
        Err(_) => u32::MAX,
    }
}

fn of_meaning(alloc: Global, known: usize, name: &RawName, meaning: Meaning) -> Result<Term, Memory>
    ensures { IfOk result (λ t. t ≡ meaning_term known name.now.text meaning) }
{
    match meaning {
        Meaning::Constant { owner: _, value } => Ok(Term::num(value)),
        Meaning::Element {
            owner: _,
            set,
            index,
        } => Ok(Term::elem(set, index)),
        Meaning::Set {
            owner: _,
            set,
            size: _,
        } => Ok(Term::elems(set)),
        Meaning::Bound { level, form: _ } => Ok(Term::bound(bound_index(known, level))),
        _ => Ok(Term::var(copy_name(alloc, name)?)),
    }
}

// What stands for a name where so many names are known.
fn of_name(
    alloc: Global,
    known: usize,
    name: &RawName,
    entry: Option<Entry>,
) -> Result<Term, Memory>
    ensures { IfOk result (λ t. t ≡ named known name.now.text entry) }
{
    match entry {
        None => Ok(Term::var(copy_name(alloc, name)?)),
        Some(e) => of_meaning(alloc, known, name, e.meaning),
    }
}

/// The range from one number to another.
pub fn range_term(alloc: Global, lo: i64, hi: i64) -> Result<Term, Memory>
    ensures { IfOk result (λ t. t ≡ range lo hi) }
{
    Term::bin(alloc, TermSign::Range, Term::num(lo), Term::num(hi))
}

/// The normal form of a word.
pub fn of_atom(alloc: Global, atom: RawAtom) -> Result<Term, Memory>
    ensures { IfOk result (λ t. t ≡ atom_term atom) }
{
    match atom {
        RawAtom::True => Ok(Term::truth(true)),
        RawAtom::False => Ok(Term::truth(false)),
        RawAtom::MaxInt => Ok(Term::num(MAXINT)),
        RawAtom::MinInt => Ok(Term::num(-MAXINT)),
        RawAtom::Nat => range_term(alloc, 0, MAXINT),
        RawAtom::Nat1 => range_term(alloc, 1, MAXINT),
        RawAtom::Int => range_term(alloc, -MAXINT, MAXINT),
        RawAtom::Truths => Ok(Term::truths()),
    }
}

/// The sign of an operator.
pub fn sign(operator: RawOperator) -> TermSign
    ensures { result ≡ sign_of operator }
{
    match operator {
        RawOperator::Plus => TermSign::Add,
        RawOperator::Minus => TermSign::Minus,
        RawOperator::Times => TermSign::Mul,
        RawOperator::Divide => TermSign::Div,
        RawOperator::Mod => TermSign::Mod,
        RawOperator::UpTo => TermSign::Range,
        RawOperator::Union => TermSign::Union,
        RawOperator::Intersection => TermSign::Inter,
    }
}

/// A minus before the term, which a number takes in where 64 bits hold it then.
pub fn negation(alloc: Global, term: Term) -> Result<Term, Memory>
    ensures { IfOk result (λ t. t ≡ minus term) }
{
    match &term.node {
        TermNode::Num(n) => match n.checked_neg() {
            Some(m) => Ok(Term::num(m)),
            None => Term::neg(alloc, term),
        },
        _ => Term::neg(alloc, term),
    }
}

/// A relation in the signs that are kept.
pub fn relation_of(
    alloc: Global,
    relation: RawRelation,
    a: Term,
    b: Term,
) -> Result<Formula, Memory>
    ensures { IfOk result (λ f. f ≡ related relation a b) }
{
    match relation {
        RawRelation::Equal => Ok(Formula::rel(RelSign::Equal, a, b)),
        RawRelation::Unequal => Formula::not(alloc, Formula::rel(RelSign::Equal, a, b)),
        RawRelation::Less => Ok(Formula::rel(RelSign::Less, a, b)),
        RawRelation::AtMost => Ok(Formula::rel(RelSign::AtMost, a, b)),
        RawRelation::Greater => Ok(Formula::rel(RelSign::Less, b, a)),
        RawRelation::AtLeast => Ok(Formula::rel(RelSign::AtMost, b, a)),
        RawRelation::Member => Ok(Formula::rel(RelSign::Member, a, b)),
        RawRelation::NotMember => Formula::not(alloc, Formula::rel(RelSign::Member, a, b)),
        RawRelation::Subset => Ok(Formula::rel(RelSign::Subset, a, b)),
    }
}

/// The domain; the number 0 stands for one that is missing.
pub fn domain_or_zero(choice: &Option<Choice>) -> Domain
    ensures { result ≡ domain_or choice.now }
{
    match choice {
        None => Domain::Range { lo: 0, hi: 0 },
        Some(c) => c.domain,
    }
}

/// The kind of a domain's values.
pub fn kind(domain: &Domain) -> Kind
    ensures { result ≡ kind_of_domain domain.now }
{
    match domain {
        Domain::Range { lo: _, hi: _ } => Kind::Integer,
        Domain::Truth => Kind::Truth,
        Domain::Elems(set) => Kind::Elem(*set),
        Domain::Subsets { lo: _, hi: _ } => Kind::SetOf(Base::Integer),
        Domain::ElemSubsets(set) => Kind::SetOf(Base::Elem(*set)),
    }
}

fn every(alloc: Global, name: &RawName, kind: Kind, body: Formula) -> Result<Formula, Memory>
    ensures { IfOk result (λ f. f ≡ tree.Every (written name.now.text) kind body) }
{
    let name = copy_name(alloc, name)?;
    Formula::every(alloc, name, kind, body)
}

fn exist(alloc: Global, name: &RawName, kind: Kind, body: Formula) -> Result<Formula, Memory>
    ensures { IfOk result (λ f. f ≡ tree.Exist (written name.now.text) kind body) }
{
    let name = copy_name(alloc, name)?;
    Formula::exist(alloc, name, kind, body)
}

/// The normal form of a term. The table ends as it began.
#[cycle(normal)]
pub fn normal_term(
    alloc: Global,
    view: &View,
    names: &mut Table<Entry>,
    term: &RawTerm,
) -> Result<Term, Memory>
    ensures tree { IfOk result (λ t. t ≡ term_in view.now names.old term.now) }
    ensures kept { OnOk result (names.new ≡ names.old) }
{
    match &term.node {
        RawTermNode::Number { value, .. } => Ok(Term::num(*value)),
        RawTermNode::Name(name) => {
            let entry = names.find(name.text.as_slice());
            of_name(alloc, names.len(), name, entry)
        }
        RawTermNode::Atom { atom, .. } => of_atom(alloc, *atom),
        RawTermNode::Binary {
            operator,
            left,
            right,
            ..
        } => normal_binary(alloc, view, names, *operator, left, right),
        RawTermNode::Minus { term: operand, .. } => normal_minus(alloc, view, names, operand),
        RawTermNode::Card { term: operand, .. } => normal_card(alloc, view, names, operand),
        RawTermNode::TruthOf { formula, .. } => normal_truth(alloc, view, names, formula),
        RawTermNode::Listed { terms, .. } => normal_listed(alloc, view, names, terms.as_slice()),
    }
}

// Both terms.
#[cycle(normal)]
fn both_terms(
    alloc: Global,
    view: &View,
    names: &mut Table<Entry>,
    left: &RawTerm,
    right: &RawTerm,
) -> Result<(Term, Term), Memory>
    ensures left { IfOk result (λ p. p.0 ≡ term_in view.now names.old left.now) }
    ensures right { IfOk result (λ p. p.1 ≡ term_in view.now names.old right.now) }
    ensures kept { OnOk result (names.new ≡ names.old) }
{
    let a = normal_term(alloc, view, names, left)?;
    let b = normal_term(alloc, view, names, right)?;
    Ok((a, b))
}

// Two terms with an operator between them.
#[cycle(normal)]
fn normal_binary(
    alloc: Global,
    view: &View,
    names: &mut Table<Entry>,
    operator: RawOperator,
    left: &RawTerm,
    right: &RawTerm,
) -> Result<Term, Memory>
    ensures tree { IfOk result (λ t. t ≡ tree.Bin (sign_of operator) (term_in view.now names.old left.now) (term_in view.now names.old right.now)) }
    ensures kept { OnOk result (names.new ≡ names.old) }
{
    let (a, b) = both_terms(alloc, view, names, left, right)?;
    Term::bin(alloc, sign(operator), a, b)
}

// A minus before a term.
#[cycle(normal)]
fn normal_minus(
    alloc: Global,
    view: &View,
    names: &mut Table<Entry>,
    operand: &RawTerm,
) -> Result<Term, Memory>
    ensures tree { IfOk result (λ t. t ≡ minus (term_in view.now names.old operand.now)) }
    ensures kept { OnOk result (names.new ≡ names.old) }
{
    let a = normal_term(alloc, view, names, operand)?;
    negation(alloc, a)
}

// `card(..)`
#[cycle(normal)]
fn normal_card(
    alloc: Global,
    view: &View,
    names: &mut Table<Entry>,
    operand: &RawTerm,
) -> Result<Term, Memory>
    ensures tree { IfOk result (λ t. t ≡ tree.Card (term_in view.now names.old operand.now)) }
    ensures kept { OnOk result (names.new ≡ names.old) }
{
    let a = normal_term(alloc, view, names, operand)?;
    Term::card(alloc, a)
}

// `bool(..)`
#[cycle(normal)]
fn normal_truth(
    alloc: Global,
    view: &View,
    names: &mut Table<Entry>,
    formula: &RawFormula,
) -> Result<Term, Memory>
    ensures tree { IfOk result (λ t. t ≡ tree.Test (formula_in view.now names.old formula.now)) }
    ensures kept { OnOk result (names.new ≡ names.old) }
{
    let f = normal_formula(alloc, view, names, formula)?;
    Term::bool_of(alloc, f)
}

// `{..}`
#[cycle(normal)]
fn normal_listed(
    alloc: Global,
    view: &View,
    names: &mut Table<Entry>,
    terms: &[RawTerm],
) -> Result<Term, Memory>
    ensures tree { IfOk result (λ t. t ≡ tree.Listed (terms_in view.now names.old (raw.raw_terms terms.now))) }
    ensures kept { OnOk result (names.new ≡ names.old) }
{
    let mut listed = Items::new(alloc);
    for item in terms {
        listed.push(normal_term(alloc, view, names, item)?)?;
    }
    Ok(Term::listed(listed))
}

/// The normal form of a formula. The table ends as it began.
#[cycle(normal)]
pub fn normal_formula(
    alloc: Global,
    view: &View,
    names: &mut Table<Entry>,
    formula: &RawFormula,
) -> Result<Formula, Memory>
    ensures tree { IfOk result (λ f. f ≡ formula_in view.now names.old formula.now) }
    ensures kept { OnOk result (names.new ≡ names.old) }
{
    match &formula.node {
        RawFormulaNode::True => Ok(Formula::btrue()),
        RawFormulaNode::False => Ok(Formula::bfalse()),
        RawFormulaNode::Not(operand) => normal_not(alloc, view, names, operand),
        RawFormulaNode::And(left, right) => normal_and(alloc, view, names, left, right),
        RawFormulaNode::Or(left, right) => normal_or(alloc, view, names, left, right),
        RawFormulaNode::Implies(left, right) => normal_implies(alloc, view, names, left, right),
        RawFormulaNode::Equivalent(left, right) => normal_iff(alloc, view, names, left, right),
        RawFormulaNode::Relation {
            relation,
            left,
            right,
            ..
        } => normal_relation(alloc, view, names, *relation, left, right),
        RawFormulaNode::Every { name, domain, body } => normal_every(
            alloc, view, names, name, domain, body,
        ),
        RawFormulaNode::Exists { name, body } => normal_exists(alloc, view, names, name, body),
    }
}

// Both formulas.
#[cycle(normal)]
fn both_formulas(
    alloc: Global,
    view: &View,
    names: &mut Table<Entry>,
    left: &RawFormula,
    right: &RawFormula,
) -> Result<(Formula, Formula), Memory>
    ensures left { IfOk result (λ p. p.0 ≡ formula_in view.now names.old left.now) }
    ensures right { IfOk result (λ p. p.1 ≡ formula_in view.now names.old right.now) }
    ensures kept { OnOk result (names.new ≡ names.old) }
{
    let f = normal_formula(alloc, view, names, left)?;
    let g = normal_formula(alloc, view, names, right)?;
    Ok((f, g))
}

// `not`
#[cycle(normal)]
fn normal_not(
    alloc: Global,
    view: &View,
    names: &mut Table<Entry>,
    operand: &RawFormula,
) -> Result<Formula, Memory>
    ensures tree { IfOk result (λ f. f ≡ tree.Not (formula_in view.now names.old operand.now)) }
    ensures kept { OnOk result (names.new ≡ names.old) }
{
    let f = normal_formula(alloc, view, names, operand)?;
    Formula::not(alloc, f)
}

// `&`
#[cycle(normal)]
fn normal_and(
    alloc: Global,
    view: &View,
    names: &mut Table<Entry>,
    left: &RawFormula,
    right: &RawFormula,
) -> Result<Formula, Memory>
    ensures tree { IfOk result (λ f. f ≡ tree.And (formula_in view.now names.old left.now) (formula_in view.now names.old right.now)) }
    ensures kept { OnOk result (names.new ≡ names.old) }
{
    let (f, g) = both_formulas(alloc, view, names, left, right)?;
    Formula::and(alloc, f, g)
}

// `or`
#[cycle(normal)]
fn normal_or(
    alloc: Global,
    view: &View,
    names: &mut Table<Entry>,
    left: &RawFormula,
    right: &RawFormula,
) -> Result<Formula, Memory>
    ensures tree { IfOk result (λ f. f ≡ tree.Or (formula_in view.now names.old left.now) (formula_in view.now names.old right.now)) }
    ensures kept { OnOk result (names.new ≡ names.old) }
{
    let (f, g) = both_formulas(alloc, view, names, left, right)?;
    Formula::or(alloc, f, g)
}

// `=>`
#[cycle(normal)]
fn normal_implies(
    alloc: Global,
    view: &View,
    names: &mut Table<Entry>,
    left: &RawFormula,
    right: &RawFormula,
) -> Result<Formula, Memory>
    ensures tree { IfOk result (λ f. f ≡ tree.Implies (formula_in view.now names.old left.now) (formula_in view.now names.old right.now)) }
    ensures kept { OnOk result (names.new ≡ names.old) }
{
    let (f, g) = both_formulas(alloc, view, names, left, right)?;
    Formula::implies(alloc, f, g)
}

// `<=>`
#[cycle(normal)]
fn normal_iff(
    alloc: Global,
    view: &View,
    names: &mut Table<Entry>,
    left: &RawFormula,
    right: &RawFormula,
) -> Result<Formula, Memory>
    ensures tree { IfOk result (λ f. f ≡ tree.Iff (formula_in view.now names.old left.now) (formula_in view.now names.old right.now)) }
    ensures kept { OnOk result (names.new ≡ names.old) }
{
    let (f, g) = both_formulas(alloc, view, names, left, right)?;
    Formula::iff(alloc, f, g)
}

// Two terms with a relation between them.
#[cycle(normal)]
fn normal_relation(
    alloc: Global,
    view: &View,
    names: &mut Table<Entry>,
    relation: RawRelation,
    left: &RawTerm,
    right: &RawTerm,
) -> Result<Formula, Memory>
    ensures tree { IfOk result (λ f. f ≡ related relation (term_in view.now names.old left.now) (term_in view.now names.old right.now)) }
    ensures kept { OnOk result (names.new ≡ names.old) }
{
    let (a, b) = both_terms(alloc, view, names, left, right)?;
    relation_of(alloc, relation, a, b)
}

// `!name.(domain => body)`
#[cycle(normal)]
fn normal_every(
    alloc: Global,
    view: &View,
    names: &mut Table<Entry>,
    name: &RawName,
    domain: &RawFormula,
    body: &RawFormula,
) -> Result<Formula, Memory>
    ensures tree { IfOk result (λ f. f ≡ formula_in view.now names.old (raw.Every name.now domain.now body.now)) }
    ensures kept { OnOk result (names.new ≡ names.old) }
{
    let choice = typing(names, view, name.text.as_slice(), domain);
    let inside = implies_under(alloc, view, names, name, &choice, domain, body)?;
    every(alloc, name, kind(&domain_or_zero(&choice)), inside)
}

// `domain => body`, where the name is bound.
#[cycle(normal)]
fn implies_under(
    alloc: Global,
    view: &View,
    names: &mut Table<Entry>,
    name: &RawName,
    choice: &Option<Choice>,
    domain: &RawFormula,
    body: &RawFormula,
) -> Result<Formula, Memory>
    ensures tree { IfOk result (λ f. f ≡ tree.Implies (formula_in view.now (under name.now choice.now names.old) domain.now) (formula_in view.now (under name.now choice.now names.old) body.now)) }
    ensures kept { OnOk result (names.new ≡ names.old) }
{
    let outside = names.len();
    enter(alloc, names, name, choice)?;
    let inside = normal_implies(alloc, view, names, domain, body)?;
    names.leave(outside);
    Ok(inside)
}

// `#name.(body)`
#[cycle(normal)]
fn normal_exists(
    alloc: Global,
    view: &View,
    names: &mut Table<Entry>,
    name: &RawName,
    body: &RawFormula,
) -> Result<Formula, Memory>
    ensures tree { IfOk result (λ f. f ≡ formula_in view.now names.old (raw.Exists name.now body.now)) }
    ensures kept { OnOk result (names.new ≡ names.old) }
{
    let choice = typing(names, view, name.text.as_slice(), body);
    let inside = formula_under(alloc, view, names, name, &choice, body)?;
    exist(alloc, name, kind(&domain_or_zero(&choice)), inside)
}

// The formula, where the name is bound.
#[cycle(normal)]
fn formula_under(
    alloc: Global,
    view: &View,
    names: &mut Table<Entry>,
    name: &RawName,
    choice: &Option<Choice>,
    body: &RawFormula,
) -> Result<Formula, Memory>
    ensures tree { IfOk result (λ f. f ≡ formula_in view.now (under name.now choice.now names.old) body.now) }
    ensures kept { OnOk result (names.new ≡ names.old) }
{
    let outside = names.len();
    enter(alloc, names, name, choice)?;
    let inside = normal_formula(alloc, view, names, body)?;
    names.leave(outside);
    Ok(inside)
}
