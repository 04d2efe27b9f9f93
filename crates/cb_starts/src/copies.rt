//! Copies of substitutions.

ghost use Rattle.std.specs.Prelude.{◌≡◌, IfOk};
ghost use Rattle.cb_spec.specs.SubstTree as subst;
ghost use Rattle.cb_spec.specs.SubstTree.{sides_of};

use cb_spec::subst::{Subst, SubstNode};
use cb_term::Memory;
use cb_term::kind::Domain;
use cb_term::name::Name;
use cb_term::tree::{Formula, Term};
use sqlite_items::Items;
use std::alloc::Global;

/// `skip`.
pub fn skip() -> Subst
    ensures { result ≡ subst.Skip }
{
    Subst {
        node: SubstNode::Skip,
    }
}

/// `S || T`.
pub fn together(left: Box<Subst>, right: Box<Subst>) -> Subst
    ensures { result ≡ subst.Together left.value right.value }
{
    Subst {
        node: SubstNode::Together(left, right),
    }
}

// `IF P THEN S ELSE T END`.
fn choosing(test: Formula, then: Box<Subst>, other: Box<Subst>) -> Subst
    ensures { result ≡ subst.If test then.value other.value }
{
    Subst {
        node: SubstNode::If { test, then, other },
    }
}

// `ANY z WHERE P THEN S END`.
fn any_of(name: Name, domain: Domain, test: Formula, body: Box<Subst>) -> Subst
    ensures { result ≡ subst.AnyOf name domain test body.value }
{
    Subst {
        node: SubstNode::AnyOf {
            name,
            domain,
            test,
            body,
        },
    }
}

/// The substitution in a box.
pub fn boxed(alloc: Global, subst: Subst) -> Result<Box<Subst>, Memory>
    ensures { IfOk result (λ b. b.value ≡ subst) }
{
    Ok(Box::new(alloc, subst)?)
}

/// The same substitution again.
#[cycle(copies)]
pub fn copy_subst(alloc: Global, subst: &Subst) -> Result<Subst, Memory>
    ensures { IfOk result (λ s. s ≡ subst.now) }
{
    match &subst.node {
        SubstNode::Skip => Ok(skip()),
        SubstNode::Assign { target, value } => copy_assigned(alloc, target, value),
        SubstNode::Together(left, right) => copy_together(alloc, left, right),
        SubstNode::Choice(sides) => copy_choice(alloc, sides.as_slice()),
        SubstNode::If { test, then, other } => copy_if(alloc, test, then, other),
        SubstNode::AnyOf {
            name,
            domain,
            test,
            body,
        } => copy_any(alloc, name, *domain, test, body),
    }
}

fn copy_assigned(alloc: Global, target: &Name, value: &Term) -> Result<Subst, Memory>
    ensures { IfOk result (λ s. s ≡ subst.Assign target.now value.now) }
{
    let target = target.copy(alloc)?;
    let value = value.copy(alloc)?;
    Ok(Subst {
        node: SubstNode::Assign { target, value },
    })
}

/// The same substitution again, in a box.
#[cycle(copies)]
pub fn boxed_copy(alloc: Global, subst: &Subst) -> Result<Box<Subst>, Memory>
    ensures { IfOk result (λ b. b.value ≡ subst.now) }
{
    let copied = copy_subst(alloc, subst)?;
    boxed(alloc, copied)
}

#[cycle(copies)]
fn copy_together(alloc: Global, left: &Subst, right: &Subst) -> Result<Subst, Memory>
    ensures { IfOk result (λ s. s ≡ subst.Together left.now right.now) }
{
    let left = boxed_copy(alloc, left)?;
    let right = boxed_copy(alloc, right)?;
    Ok(together(left, right))
}

#[cycle(copies)]
fn copy_choice(alloc: Global, sides: &[Subst]) -> Result<Subst, Memory>
    ensures { IfOk result (λ s. s ≡ subst.Choice (sides_of sides.now)) }
{
    let mut copies = Items::new(alloc);
    for side in sides {
        copies.push(copy_subst(alloc, side)?)?;
    }
    Ok(Subst {
        node: SubstNode::Choice(copies),
    })
}

// A test with what is done under it.
#[cycle(copies)]
fn copy_tested(alloc: Global, test: &Formula, body: &Subst) -> Result<(Formula, Box<Subst>), Memory>
    ensures test { IfOk result (λ p. p.0 ≡ test.now) }
    ensures body { IfOk result (λ p. p.1.value ≡ body.now) }
{
    let test = test.copy(alloc)?;
    let body = boxed_copy(alloc, body)?;
    Ok((test, body))
}

#[cycle(copies)]
fn copy_if(alloc: Global, test: &Formula, then: &Subst, other: &Subst) -> Result<Subst, Memory>
    ensures { IfOk result (λ s. s ≡ subst.If test.now then.now other.now) }
{
    let other = boxed_copy(alloc, other)?;
    let (test, then) = copy_tested(alloc, test, then)?;
    Ok(choosing(test, then, other))
}

#[cycle(copies)]
fn copy_any(
    alloc: Global,
    name: &Name,
    domain: Domain,
    test: &Formula,
    body: &Subst,
) -> Result<Subst, Memory>
    ensures { IfOk result (λ s. s ≡ subst.AnyOf name.now domain test.now body.now) }
{
    let name = name.copy(alloc)?;
    let (test, body) = copy_tested(alloc, test, body)?;
    Ok(any_of(name, domain, test, body))
}
