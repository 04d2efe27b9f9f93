//! Substitutions in normal form.

ghost use Rattle.std.specs.Prelude.{◌≡◌, IfOk, OnOk};
ghost use Rattle.cb_lex.specs.RawSubstTree as raw;
ghost use Rattle.cb_term.specs.Tree.{Var};
ghost use Rattle.cb_spec.specs.Domains.{typing as typing_of};
ghost use Rattle.cb_spec.specs.SubstTree as tree;
ghost use Rattle.cb_judge.specs.Substs.{within};
ghost use Rattle.cb_normal.specs.Normal.{written, term_in, formula_in};
ghost use Rattle.cb_normal.specs.NormalSubsts.{any, among, subst_in, substs_in};

use crate::formula::{copy_name, domain_or_zero, normal_formula, normal_term, range_term};
use cb_forms::table::Table;
use cb_judge::domain::{Choice, domain, typing};
use cb_judge::names::{Entry, View};
use cb_judge::subst::enter;
use cb_lex::Memory;
use cb_lex::raw::name::RawName;
use cb_lex::raw::subst::{RawSubst, RawSubstNode};
use cb_lex::raw::term::{RawFormula, RawTerm};
use cb_spec::subst::{Subst, SubstNode};
use cb_term::kind::Domain;
use cb_term::name::{Name, NameText};
use cb_term::sign::RelSign;
use cb_term::tree::{Formula, Term};
use sqlite_items::Items;
use std::alloc::Global;

// The reserved name `any`.
fn reserved(alloc: Global) -> Result<Name, Memory>
    ensures { IfOk result (λ x. x ≡ any) }
{
    Ok(Name {
        text: NameText::from_slice(alloc, b"any")?,
        number: 0,
    })
}

/// The conjunct that says of the name that its value is in the domain.
pub fn typing_conjunct(alloc: Global, name: Name, domain: &Domain) -> Result<Formula, Memory>
    ensures { IfOk result (λ f. f ≡ typing_of (Var name) domain.now) }
{
    let term = Term::var(name);
    match domain {
        Domain::Range { lo, hi } => Ok(Formula::rel(
            RelSign::Member,
            term,
            range_term(alloc, *lo, *hi)?,
        )),
        Domain::Truth => Ok(Formula::rel(RelSign::Member, term, Term::truths())),
        Domain::Elems(set) => Ok(Formula::rel(RelSign::Member, term, Term::elems(*set))),
        Domain::Subsets { lo, hi } => Ok(Formula::rel(
            RelSign::Subset,
            term,
            range_term(alloc, *lo, *hi)?,
        )),
        Domain::ElemSubsets(set) => Ok(Formula::rel(RelSign::Subset, term, Term::elems(*set))),
    }
}

/// `skip`.
pub fn skip() -> Subst
    ensures { result ≡ tree.Skip }
{
    Subst {
        node: SubstNode::Skip,
    }
}

fn assign(target: Name, value: Term) -> Subst
    ensures { result ≡ tree.Assign target value }
{
    Subst {
        node: SubstNode::Assign { target, value },
    }
}

fn any_of(name: Name, domain: Domain, test: Formula, body: Box<Subst>) -> Subst
    ensures { result ≡ tree.AnyOf name domain test body.value }
{
    Subst {
        node: SubstNode::AnyOf {
            name,
            domain,
            test,
            body,
        },
    }
}

fn branch(test: Formula, then: Box<Subst>, other: Box<Subst>) -> Subst
    ensures { result ≡ tree.If test then.value other.value }
{
    Subst {
        node: SubstNode::If { test, then, other },
    }
}

fn boxed(alloc: Global, subst: Subst) -> Result<Box<Subst>, Memory>
    ensures { IfOk result (λ b. b.value ≡ subst) }
{
    Ok(Box::new(alloc, subst)?)
}

// `any : d`
fn any_test(alloc: Global, domain: &Domain) -> Result<Formula, Memory>
    ensures { IfOk result (λ f. f ≡ typing_of (Var any) domain.now) }
{
    let name = reserved(alloc)?;
    typing_conjunct(alloc, name, domain)
}

// The name `any`, and `any : d`.
fn reserved_with_test(alloc: Global, domain: &Domain) -> Result<(Name, Formula), Memory>
    ensures name { IfOk result (λ p. p.0 ≡ any) }
    ensures test { IfOk result (λ p. p.1 ≡ typing_of (Var any) domain.now) }
{
    let name = reserved(alloc)?;
    let test = any_test(alloc, domain)?;
    Ok((name, test))
}

// `target := any`
fn assign_any(alloc: Global, target: &RawName) -> Result<Subst, Memory>
    ensures { IfOk result (λ s. s ≡ tree.Assign (written target.now.text) (Var any)) }
{
    let target = copy_name(alloc, target)?;
    let value = reserved(alloc)?;
    Ok(assign(target, Term::var(value)))
}

fn boxed_assign_any(alloc: Global, target: &RawName) -> Result<Box<Subst>, Memory>
    ensures { IfOk result (λ b. b.value ≡ tree.Assign (written target.now.text) (Var any)) }
{
    let subst = assign_any(alloc, target)?;
    boxed(alloc, subst)
}

// `target :: d`
fn one_of(alloc: Global, target: &RawName, domain: Domain) -> Result<Subst, Memory>
    ensures { IfOk result (λ s. s ≡ among (written target.now.text) domain) }
{
    let body = boxed_assign_any(alloc, target)?;
    let (name, test) = reserved_with_test(alloc, &domain)?;
    Ok(any_of(name, domain, test, body))
}

/// The normal form of a substitution. The table ends as it began.
#[cycle(normal)]
pub fn normal_subst(
    alloc: Global,
    view: &View,
    names: &mut Table<Entry>,
    subst: &RawSubst,
) -> Result<Subst, Memory>
    ensures tree { IfOk result (λ s. s ≡ subst_in view.now names.old subst.now) }
    ensures kept { OnOk result (names.new ≡ names.old) }
{
    match &subst.node {
        RawSubstNode::Skip => Ok(skip()),
        RawSubstNode::Assign { target, term } => normal_assign(alloc, view, names, target, term),
        RawSubstNode::Among {
            target,
            domain: raw,
        } => {
            let values = domain_or_zero(&domain(names, view, raw));
            one_of(alloc, target, values)
        }
        RawSubstNode::If { condition, then } => normal_if(alloc, view, names, condition, then),
        RawSubstNode::IfElse {
            condition,
            then,
            otherwise,
        } => normal_if_else(alloc, view, names, condition, then, otherwise),
        RawSubstNode::Choice(sides) => normal_choice(alloc, view, names, sides.as_slice()),
        RawSubstNode::Any {
            name,
            condition,
            body,
        } => normal_any(alloc, view, names, name, condition, body),
        RawSubstNode::Parallel(left, right) => normal_parallel(alloc, view, names, left, right),
    }
}

fn normal_assign(
    alloc: Global,
    view: &View,
    names: &mut Table<Entry>,
    target: &RawName,
    term: &RawTerm,
) -> Result<Subst, Memory>
    ensures tree { IfOk result (λ s. s ≡ tree.Assign (written target.now.text) (term_in view.now names.old term.now)) }
    ensures kept { OnOk result (names.new ≡ names.old) }
{
    let value = normal_term(alloc, view, names, term)?;
    let target = copy_name(alloc, target)?;
    Ok(assign(target, value))
}

// The substitution in a box.
#[cycle(normal)]
fn boxed_subst(
    alloc: Global,
    view: &View,
    names: &mut Table<Entry>,
    subst: &RawSubst,
) -> Result<Box<Subst>, Memory>
    ensures tree { IfOk result (λ b. b.value ≡ subst_in view.now names.old subst.now) }
    ensures kept { OnOk result (names.new ≡ names.old) }
{
    let normal = normal_subst(alloc, view, names, subst)?;
    boxed(alloc, normal)
}

// A condition and what is done where it holds.
#[cycle(normal)]
fn tested(
    alloc: Global,
    view: &View,
    names: &mut Table<Entry>,
    condition: &RawFormula,
    then: &RawSubst,
) -> Result<(Formula, Box<Subst>), Memory>
    ensures test { IfOk result (λ p. p.0 ≡ formula_in view.now names.old condition.now) }
    ensures then { IfOk result (λ p. p.1.value ≡ subst_in view.now names.old then.now) }
    ensures kept { OnOk result (names.new ≡ names.old) }
{
    let test = normal_formula(alloc, view, names, condition)?;
    let then = boxed_subst(alloc, view, names, then)?;
    Ok((test, then))
}

// An IF with nothing after it.
#[cycle(normal)]
fn normal_if(
    alloc: Global,
    view: &View,
    names: &mut Table<Entry>,
    condition: &RawFormula,
    then: &RawSubst,
) -> Result<Subst, Memory>
    ensures tree { IfOk result (λ s. s ≡ tree.If (formula_in view.now names.old condition.now) (subst_in view.now names.old then.now) tree.Skip) }
    ensures kept { OnOk result (names.new ≡ names.old) }
{
    let other = boxed(alloc, skip())?;
    let (test, then) = tested(alloc, view, names, condition, then)?;
    Ok(branch(test, then, other))
}

// An IF with what is done where it does not hold.
#[cycle(normal)]
fn normal_if_else(
    alloc: Global,
    view: &View,
    names: &mut Table<Entry>,
    condition: &RawFormula,
    then: &RawSubst,
    otherwise: &RawSubst,
) -> Result<Subst, Memory>
    ensures tree { IfOk result (λ s. s ≡ tree.If (formula_in view.now names.old condition.now) (subst_in view.now names.old then.now) (subst_in view.now names.old otherwise.now)) }
    ensures kept { OnOk result (names.new ≡ names.old) }
{
    let other = boxed_subst(alloc, view, names, otherwise)?;
    let (test, then) = tested(alloc, view, names, condition, then)?;
    Ok(branch(test, then, other))
}

// The sides of a CHOICE.
#[cycle(normal)]
fn normal_choice(
    alloc: Global,
    view: &View,
    names: &mut Table<Entry>,
    sides: &[RawSubst],
) -> Result<Subst, Memory>
    ensures tree { IfOk result (λ s. s ≡ tree.Choice (substs_in view.now names.old (raw.raw_substs sides.now))) }
    ensures kept { OnOk result (names.new ≡ names.old) }
{
    let mut all = Items::new(alloc);
    for side in sides {
        all.push(normal_subst(alloc, view, names, side)?)?;
    }
    Ok(Subst {
        node: SubstNode::Choice(all),
    })
}

// `ANY name WHERE condition THEN body END`
#[cycle(normal)]
fn normal_any(
    alloc: Global,
    view: &View,
    names: &mut Table<Entry>,
    name: &RawName,
    condition: &RawFormula,
    body: &RawSubst,
) -> Result<Subst, Memory>
    ensures tree { IfOk result (λ s. s ≡ subst_in view.now names.old (raw.Any name.now condition.now body.now)) }
    ensures kept { OnOk result (names.new ≡ names.old) }
{
    let choice = typing(names, view, name.text.as_slice(), condition);
    let written = copy_name(alloc, name)?;
    let (test, body) = tested_within(alloc, view, names, name, &choice, condition, body)?;
    Ok(any_of(written, domain_or_zero(&choice), test, body))
}

// A condition and a body, where the name is known.
#[cycle(normal)]
fn tested_within(
    alloc: Global,
    view: &View,
    names: &mut Table<Entry>,
    name: &RawName,
    choice: &Option<Choice>,
    condition: &RawFormula,
    body: &RawSubst,
) -> Result<(Formula, Box<Subst>), Memory>
    ensures test { IfOk result (λ p. p.0 ≡ formula_in view.now (within name.now choice.now names.old) condition.now) }
    ensures body { IfOk result (λ p. p.1.value ≡ subst_in view.now (within name.now choice.now names.old) body.now) }
    ensures kept { OnOk result (names.new ≡ names.old) }
{
    let outside = names.len();
    enter(alloc, names, name, choice)?;
    let inside = tested(alloc, view, names, condition, body)?;
    names.leave(outside);
    Ok(inside)
}

// `left || right`
#[cycle(normal)]
fn normal_parallel(
    alloc: Global,
    view: &View,
    names: &mut Table<Entry>,
    left: &RawSubst,
    right: &RawSubst,
) -> Result<Subst, Memory>
    ensures tree { IfOk result (λ s. s ≡ tree.Together (subst_in view.now names.old left.now) (subst_in view.now names.old right.now)) }
    ensures kept { OnOk result (names.new ≡ names.old) }
{
    let left = boxed_subst(alloc, view, names, left)?;
    let right = boxed_subst(alloc, view, names, right)?;
    Ok(Subst {
        node: SubstNode::Together(left, right),
    })
}
