//! What must hold before for a formula to hold after, and the formula that says that a substitution is live.

ghost use Rattle.std.specs.Prelude.{◌≡◌, ◌∷◌, [], IfOk, IfErr, None, map, if◌then◌else◌, ◌&&◌, bytes_eq, codes};
ghost use Rattle.cb_term.specs.Tree as tree;
ghost use Rattle.cb_term.specs.declared.sign.TermSign.TheVariants as sign;
ghost use Rattle.cb_term.specs.Same.{same};
ghost use Rattle.cb_spec.specs.Domains as domains;
ghost use Rattle.cb_spec.specs.SubstTree.{sides_of};
ghost use Rattle.cb_obligations.specs.Branches.{numbered};
ghost use Rattle.cb_obligations.specs.Laws.{TransformIsRight, LiveIsRight};
ghost use Rattle.cb_obligations.specs.Transform as spec;
ghost use Rattle.cb_wp.specs.Parts.{item_of, branch_of, conjunction};
ghost use Rattle.cb_wp.specs.Limits.{Tells, branch_limit};

use crate::branches::{Branch, Item, all_branches, branch_count, kind_of, with_first};
use crate::changes::{Assigned, Closed};
use crate::limits::{MakeFault, Which};
use cb_obligations::laws::{live_is_right, transform_is_right};
use cb_spec::subst::{Subst, SubstNode};
use cb_term::Memory;
use cb_term::change::change_formula;
use cb_term::equal::equal;
use cb_term::kind::{Domain, Kind};
use cb_term::name::Name;
use cb_term::sign::{RelSign, TermSign};
use cb_term::tree::{Formula, Term};
use sqlite_items::Items;
use std::alloc::Global;

/// The formula with bound variables in the places of the names, the innermost first.
pub fn closed_over(alloc: Global, bound: &[Name], formula: &Formula) -> Result<Formula, Memory>
    ensures { IfOk result (λ f. f ≡ spec.closed_over bound.now formula.now) }
{
    change_formula(alloc, formula, &Closed { bound }, 0)
}

fn unnumbered(alloc: Global, name: &Name) -> Result<Name, Memory>
    ensures { IfOk result (λ x. x ≡ numbered name.now 0) }
{
    let text = name.text.copy(alloc)?;
    Ok(Name { text, number: 0 })
}

#[cycle(branch_formula)]
fn branch_formula(
    alloc: Global,
    bound: &[Name],
    items: &[Item],
    writes: &[(Name, Term)],
    formula: &Formula,
) -> Result<Formula, Memory>
    ensures { IfOk result (λ f. f ≡ spec.branch_formula bound.now (map item_of items.now) writes.now formula.now) }
{
    let Some((first, rest)) = items.split_first() else {
        return change_formula(alloc, formula, &Assigned { bound, writes }, 0);
    };
    match first {
        Item::Bind(name, kind) => bound_formula(alloc, bound, name, *kind, rest, writes, formula),
        Item::Guard(guard) => guarded_formula(alloc, bound, guard, rest, writes, formula),
    }
}

#[cycle(branch_formula)]
fn bound_formula(
    alloc: Global,
    bound: &[Name],
    name: &Name,
    kind: Kind,
    rest: &[Item],
    writes: &[(Name, Term)],
    formula: &Formula,
) -> Result<Formula, Memory>
    ensures { IfOk result (λ f. f ≡ tree.Every (numbered name.now 0) kind (spec.branch_formula (name.now ∷ bound.now) (map item_of rest.now) writes.now formula.now)) }
{
    let inner = with_first(alloc, name.copy(alloc)?, bound)?;
    let body = branch_formula(alloc, inner.as_slice(), rest, writes, formula)?;
    each_unnumbered(alloc, name, kind, body)
}

#[cycle(branch_formula)]
fn guarded_formula(
    alloc: Global,
    bound: &[Name],
    guard: &Formula,
    rest: &[Item],
    writes: &[(Name, Term)],
    formula: &Formula,
) -> Result<Formula, Memory>
    ensures { IfOk result (λ f. f ≡ tree.Implies (spec.closed_over bound.now guard.now) (spec.branch_formula bound.now (map item_of rest.now) writes.now formula.now)) }
{
    let body = branch_formula(alloc, bound, rest, writes, formula)?;
    where_it_holds(alloc, bound, guard, body)
}

// `!x.(F)`, x being the name as written.
fn each_unnumbered(alloc: Global, name: &Name, kind: Kind, body: Formula) -> Result<Formula, Memory>
    ensures { IfOk result (λ f. f ≡ tree.Every (numbered name.now 0) kind body) }
{
    let name = unnumbered(alloc, name)?;
    Formula::every(alloc, name, kind, body)
}

// The conjunction with the branch's formula at its end.
fn and_branch(
    alloc: Global,
    whole: Formula,
    branch: &Branch,
    formula: &Formula,
) -> Result<Formula, Memory>
    ensures { IfOk result (λ f. f ≡ tree.And whole (spec.branch_formula [] (branch_of branch.now).items (branch_of branch.now).writes formula.now)) }
{
    let items = branch.items.as_slice();
    let next = branch_formula(alloc, &[], items, branch.writes.as_slice(), formula)?;
    Formula::and(alloc, whole, next)
}

fn and_branches(
    alloc: Global,
    begun: Formula,
    branches: &[Branch],
    formula: &Formula,
) -> Result<Formula, Memory>
    ensures { IfOk result (λ f. f ≡ spec.and_branches begun (map branch_of branches.now) formula.now) }
{
    let mut whole = begun;
    for branch in branches {
        whole = and_branch(alloc, whole, branch, formula)?;
    }
    Ok(whole)
}

fn conjunction(alloc: Global, branches: &[Branch], formula: &Formula) -> Result<Formula, Memory>
    ensures { IfOk result (λ f. f ≡ spec.all_branches (map branch_of branches.now) formula.now) }
{
    let Some((first, rest)) = branches.split_first() else {
        return Ok(Formula::btrue());
    };
    let items = first.items.as_slice();
    let begun = branch_formula(alloc, &[], items, first.writes.as_slice(), formula)?;
    and_branches(alloc, begun, rest, formula)
}

/// What `transform` gives, however many branches there are.
pub fn transformed(alloc: Global, subst: &Subst, formula: &Formula) -> Result<Formula, Memory>
    ensures { IfOk result (λ f. f ≡ spec.transformed subst.now formula.now) }
{
    let branches = all_branches(alloc, subst)?;
    conjunction(alloc, branches.as_slice(), formula)
}

/// The formula that holds before the substitution exactly where the given one holds after each run: for each branch in order a
/// conjunct. Each name in the substitution is as written. `Limit(Branches)` exactly where there are more than 256 branches.
pub fn transform(alloc: Global, subst: &Subst, formula: &Formula) -> Result<Formula, MakeFault>
    ensures formula { IfOk result (λ f. f ≡ spec.transformed subst.now formula.now) }
    ensures within { IfOk result (λ f. branch_limit subst.now ≡ None) }
    ensures fault { IfErr result (λ e. Tells e (branch_limit subst.now)) }
    ensures law { TransformIsRight }
{
    transform_is_right();
    if branch_count(subst) > 256 {
        return Err(MakeFault::Limit(Which::Branches));
    }
    Ok(transformed(alloc, subst, formula)?)
}

/// The conjunct that says that the term's value is in the domain.
pub fn typing(alloc: Global, term: Term, domain: Domain) -> Result<Formula, Memory>
    ensures { IfOk result (λ f. f ≡ domains.typing term domain) }
{
    match domain {
        Domain::Range { lo, hi } => in_range(alloc, RelSign::Member, term, lo, hi),
        Domain::Truth => Ok(Formula::rel(RelSign::Member, term, Term::truths())),
        Domain::Elems(set) => Ok(Formula::rel(RelSign::Member, term, Term::elems(set))),
        Domain::Subsets { lo, hi } => in_range(alloc, RelSign::Subset, term, lo, hi),
        Domain::ElemSubsets(set) => Ok(Formula::rel(RelSign::Subset, term, Term::elems(set))),
    }
}

fn in_range(
    alloc: Global,
    relation: RelSign,
    term: Term,
    lo: i64,
    hi: i64,
) -> Result<Formula, Memory>
    ensures { IfOk result (λ f. f ≡ tree.Rel relation term (tree.Bin sign.Range (tree.Num lo) (tree.Num hi))) }
{
    let range = range(alloc, lo, hi)?;
    Ok(Formula::rel(relation, term, range))
}

fn range(alloc: Global, lo: i64, hi: i64) -> Result<Term, Memory>
    ensures { IfOk result (λ t. t ≡ tree.Bin sign.Range (tree.Num lo) (tree.Num hi)) }
{
    Term::bin(alloc, TermSign::Range, Term::num(lo), Term::num(hi))
}

// Whether the ANY of this name and test is what `x :: D` stands for, if its body assigns.
fn is_any_of(alloc: Global, name: &Name, domain: Domain, test: &Formula) -> Result<bool, Memory>
    ensures { IfOk result (λ b. b ≡ bytes_eq name.now.text (codes "any") && same test.now (domains.typing (tree.Var name.now) domain)) }
{
    let conjunct = typing(alloc, Term::var(name.copy(alloc)?), domain)?;
    Ok(name.text.as_slice() == b"any".as_slice() && equal(test, &conjunct))
}

// Whether this ANY is what `x :: D` stands for.
fn is_choice(
    alloc: Global,
    name: &Name,
    domain: Domain,
    test: &Formula,
    body: &Subst,
) -> Result<bool, Memory>
    ensures { IfOk result (λ b. b ≡ spec.is_choice name.now domain test.now body.now) }
{
    match &body.node {
        SubstNode::Assign { .. } => is_any_of(alloc, name, domain, test),
        _ => Ok(false),
    }
}

#[tactic(auto, using(crate::proofs::LiveLemmas::and_onto_last, crate::proofs::LiveLemmas::and_onto_is))]
// The formulas' conjunction, grouped to the right; without any, `btrue`.
fn and_all(alloc: Global, formulas: Items<Formula>) -> Result<Formula, Memory>
    ensures { IfOk result (λ f. f ≡ conjunction formulas) }
{
    let mut left = formulas;
    let Some(mut whole) = left.pop() else {
        return Ok(Formula::btrue());
    };
    while let Some(last) = left.pop() {
        whole = Formula::and(alloc, last, whole)?;
    }
    Ok(whole)
}

/// `P => F`, P over the bound names.
pub fn where_it_holds(
    alloc: Global,
    bound: &[Name],
    test: &Formula,
    formula: Formula,
) -> Result<Formula, Memory>
    ensures { IfOk result (λ f. f ≡ tree.Implies (spec.closed_over bound.now test.now) formula) }
{
    let guard = closed_over(alloc, bound, test)?;
    Formula::implies(alloc, guard, formula)
}

fn closed_negation(alloc: Global, bound: &[Name], test: &Formula) -> Result<Formula, Memory>
    ensures { IfOk result (λ f. f ≡ tree.Not (spec.closed_over bound.now test.now)) }
{
    let guard = closed_over(alloc, bound, test)?;
    Formula::not(alloc, guard)
}

// `not P => F`, over the bound names.
fn where_it_fails(
    alloc: Global,
    bound: &[Name],
    test: &Formula,
    formula: Formula,
) -> Result<Formula, Memory>
    ensures { IfOk result (λ f. f ≡ tree.Implies (tree.Not (spec.closed_over bound.now test.now)) formula) }
{
    let guard = closed_negation(alloc, bound, test)?;
    Formula::implies(alloc, guard, formula)
}

// `#z.(P)`, z being the first of the bound names.
fn some_value(
    alloc: Global,
    bound: &[Name],
    name: &Name,
    kind: Kind,
    test: &Formula,
) -> Result<Formula, Memory>
    ensures { IfOk result (λ f. f ≡ tree.Exist name.now kind (spec.closed_over bound.now test.now)) }
{
    let name = name.copy(alloc)?;
    let body = closed_over(alloc, bound, test)?;
    Formula::exist(alloc, name, kind, body)
}

// `!z.(P => F)`, z being the first of the bound names.
fn each_value(
    alloc: Global,
    bound: &[Name],
    name: &Name,
    kind: Kind,
    test: &Formula,
    formula: Formula,
) -> Result<Formula, Memory>
    ensures { IfOk result (λ f. f ≡ tree.Every name.now kind (tree.Implies (spec.closed_over bound.now test.now) formula)) }
{
    let body = where_it_holds(alloc, bound, test, formula)?;
    let name = name.copy(alloc)?;
    Formula::every(alloc, name, kind, body)
}

// Under the bound names, the innermost first.
#[cycle(live)]
fn live_under(alloc: Global, bound: &[Name], subst: &Subst) -> Result<Formula, Memory>
    ensures { IfOk result (λ f. f ≡ spec.live_under bound.now subst.now) }
{
    match &subst.node {
        SubstNode::Skip | SubstNode::Assign { .. } => Ok(Formula::btrue()),
        SubstNode::Together(a, b) => live_together(alloc, bound, a, b),
        SubstNode::Choice(sides) => live_choice(alloc, bound, sides.as_slice()),
        SubstNode::If { test, then, other } => live_if(alloc, bound, test, then, other),
        SubstNode::AnyOf {
            name,
            domain,
            test,
            body,
        } => live_any(alloc, bound, name, *domain, test, body),
    }
}

#[cycle(live)]
fn live_together(alloc: Global, bound: &[Name], a: &Subst, b: &Subst) -> Result<Formula, Memory>
    ensures { IfOk result (λ f. f ≡ tree.And (spec.live_under bound.now a.now) (spec.live_under bound.now b.now)) }
{
    let first = live_under(alloc, bound, a)?;
    let second = live_under(alloc, bound, b)?;
    Formula::and(alloc, first, second)
}

#[cycle(live)]
fn live_choice(alloc: Global, bound: &[Name], sides: &[Subst]) -> Result<Formula, Memory>
    ensures { IfOk result (λ f. f ≡ spec.live_each bound.now (sides_of sides.now)) }
{
    let mut lives = Items::new(alloc);
    for side in sides {
        lives.push(live_under(alloc, bound, side)?)?;
    }
    and_all(alloc, lives)
}

#[cycle(live)]
fn live_if(
    alloc: Global,
    bound: &[Name],
    test: &Formula,
    side: &Subst,
    other: &Subst,
) -> Result<Formula, Memory>
    ensures { IfOk result (λ f. f ≡ tree.And (tree.Implies (spec.closed_over bound.now test.now) (spec.live_under bound.now side.now)) (tree.Implies (tree.Not (spec.closed_over bound.now test.now)) (spec.live_under bound.now other.now))) }
{
    let first = live_then(alloc, bound, test, side)?;
    let second = live_else(alloc, bound, test, other)?;
    Formula::and(alloc, first, second)
}

#[cycle(live)]
fn live_then(alloc: Global, bound: &[Name], test: &Formula, side: &Subst) -> Result<Formula, Memory>
    ensures { IfOk result (λ f. f ≡ tree.Implies (spec.closed_over bound.now test.now) (spec.live_under bound.now side.now)) }
{
    let live = live_under(alloc, bound, side)?;
    where_it_holds(alloc, bound, test, live)
}

#[cycle(live)]
fn live_else(
    alloc: Global,
    bound: &[Name],
    test: &Formula,
    other: &Subst,
) -> Result<Formula, Memory>
    ensures { IfOk result (λ f. f ≡ tree.Implies (tree.Not (spec.closed_over bound.now test.now)) (spec.live_under bound.now other.now)) }
{
    let live = live_under(alloc, bound, other)?;
    where_it_fails(alloc, bound, test, live)
}

#[cycle(live)]
fn live_any(
    alloc: Global,
    bound: &[Name],
    name: &Name,
    domain: Domain,
    test: &Formula,
    body: &Subst,
) -> Result<Formula, Memory>
    ensures { IfOk result (λ f. f ≡ (if spec.is_choice name.now domain test.now body.now then tree.True else tree.And (tree.Exist name.now (domains.kind_of_domain domain) (spec.closed_over (name.now ∷ bound.now) test.now)) (tree.Every name.now (domains.kind_of_domain domain) (tree.Implies (spec.closed_over (name.now ∷ bound.now) test.now) (spec.live_under (name.now ∷ bound.now) body.now))))) }
{
    if is_choice(alloc, name, domain, test, body)? {
        return Ok(Formula::btrue());
    }
    let inner = with_first(alloc, name.copy(alloc)?, bound)?;
    live_inside(alloc, inner.as_slice(), name, kind_of(domain), test, body)
}

// The name is the first of the bound ones.
#[cycle(live)]
fn live_inside(
    alloc: Global,
    bound: &[Name],
    name: &Name,
    kind: Kind,
    test: &Formula,
    body: &Subst,
) -> Result<Formula, Memory>
    ensures { IfOk result (λ f. f ≡ tree.And (tree.Exist name.now kind (spec.closed_over bound.now test.now)) (tree.Every name.now kind (tree.Implies (spec.closed_over bound.now test.now) (spec.live_under bound.now body.now)))) }
{
    let some = some_value(alloc, bound, name, kind, test)?;
    let each = live_each(alloc, bound, name, kind, test, body)?;
    Formula::and(alloc, some, each)
}

#[cycle(live)]
fn live_each(
    alloc: Global,
    bound: &[Name],
    name: &Name,
    kind: Kind,
    test: &Formula,
    body: &Subst,
) -> Result<Formula, Memory>
    ensures { IfOk result (λ f. f ≡ tree.Every name.now kind (tree.Implies (spec.closed_over bound.now test.now) (spec.live_under bound.now body.now))) }
{
    let live = live_under(alloc, bound, body)?;
    each_value(alloc, bound, name, kind, test, live)
}

/// The formula that holds exactly where the substitution is live. Each name in the substitution is as written.
pub fn live(alloc: Global, subst: &Subst) -> Result<Formula, Memory>
    ensures formula { IfOk result (λ f. f ≡ spec.live subst.now) }
    ensures law { LiveIsRight }
{
    live_is_right();
    live_under(alloc, &[], subst)
}
