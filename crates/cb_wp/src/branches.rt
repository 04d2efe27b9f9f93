//! The branches of a substitution.

ghost use Rattle.std.specs.Prelude.{◌≡◌, ◌++◌, ◌∷◌, [], min, IfOk, IfErr, OnOk, None, map, flat_map};
ghost use Rattle.cb_spec.specs.Domains as domains;
ghost use Rattle.cb_obligations.specs.Counts as counts;
ghost use Rattle.cb_obligations.specs.Branches as spec;
ghost use Rattle.cb_spec.specs.SubstTree as subst;
ghost use Rattle.cb_spec.specs.SubstTree.{sides_of};
ghost use Rattle.cb_term.specs.Tree as tree;
ghost use Rattle.cb_wp.specs.Parts.{item_of, branch_of, begun_of, after, guarded, bound};
ghost use Rattle.cb_wp.specs.Limits.{Tells, branch_limit};

use crate::changes::{Opened, next, put};
use crate::limits::{MakeFault, Which};
use cb_spec::subst::{Subst, SubstNode};
use cb_term::Memory;
use cb_term::change::{change_formula, change_term};
use cb_term::kind::{Base, Domain, Kind};
use cb_term::name::Name;
use cb_term::tree::{Formula, Term};
use sqlite_items::Items;
use std::alloc::Global;

/// What stands in front of a branch's assignment.
#[derive(Drop)]
pub enum Item {
    /// A name of this kind is bound.
    Bind(Name, Kind),
    /// The formula holds.
    Guard(Formula),
}

/// One way through a substitution: names bound and guards met in order, and what is then written, all at once.
#[derive(Drop)]
pub struct Branch {
    pub items: Items<Item>,
    pub writes: Items<(Name, Term)>,
}

// A branch of what comes before, with the number of names that it binds.
#[derive(Drop)]
pub struct Begun {
    branch: Branch,
    number: u32,
}

impl Item {
    fn copy(&self, alloc: Global) -> Result<Item, Memory>
        ensures { IfOk result (λ i. i ≡ self.now) }
    {
        match self {
            Item::Bind(name, kind) => Ok(Item::Bind(name.copy(alloc)?, *kind)),
            Item::Guard(formula) => Ok(Item::Guard(formula.copy(alloc)?)),
        }
    }
}

fn copy_items(alloc: Global, items: &[Item]) -> Result<Items<Item>, Memory>
    ensures { IfOk result (λ xs. xs ≡ items.now) }
{
    let mut copies = Items::new(alloc);
    for item in items {
        copies.push(item.copy(alloc)?)?;
    }
    Ok(copies)
}

fn copy_write(alloc: Global, write: &(Name, Term)) -> Result<(Name, Term), Memory>
    ensures { IfOk result (λ x. x ≡ write.now) }
{
    let name = write.0.copy(alloc)?;
    let value = write.1.copy(alloc)?;
    Ok((name, value))
}

fn copy_writes(alloc: Global, writes: &[(Name, Term)]) -> Result<Items<(Name, Term)>, Memory>
    ensures { IfOk result (λ xs. xs ≡ writes.now) }
{
    let mut copies = Items::new(alloc);
    for write in writes {
        copies.push(copy_write(alloc, write)?)?;
    }
    Ok(copies)
}

impl Branch {
    fn copy(&self, alloc: Global) -> Result<Branch, Memory>
        ensures { IfOk result (λ b. b ≡ self.now) }
    {
        let items = copy_items(alloc, self.items.as_slice())?;
        let writes = copy_writes(alloc, self.writes.as_slice())?;
        Ok(Branch { items, writes })
    }
}

impl Begun {
    fn writing(self, target: Name, value: Term) -> Result<Begun, Memory>
        ensures { IfOk result (λ b. begun_of b ≡ (self.number, spec.joined_branch (branch_of self.branch) (record { items = []; writes = (target, value) ∷ [] }))) }
    {
        let Begun { mut branch, number } = self;
        branch.writes.push((target, value))?;
        Ok(Begun { branch, number })
    }

    fn guarded(self, guard: Formula) -> Result<Begun, Memory>
        ensures { IfOk result (λ b. begun_of b ≡ guarded (begun_of self) guard) }
    {
        let Begun { mut branch, number } = self;
        branch.items.push(Item::Guard(guard))?;
        Ok(Begun { branch, number })
    }

    // The name is numbered by what is bound with it.
    fn binding(self, name: Name, kind: Kind) -> Result<Begun, Memory>
        ensures { IfOk result (λ b. begun_of b ≡ (name.number, spec.joined_branch (branch_of self.branch) (record { items = spec.Bind name kind ∷ []; writes = [] }))) }
    {
        let Begun { mut branch, .. } = self;
        let number = name.number;
        branch.items.push(Item::Bind(name, kind))?;
        Ok(Begun { branch, number })
    }

    fn copy(&self, alloc: Global) -> Result<Begun, Memory>
        ensures { IfOk result (λ b. b ≡ self.now) }
    {
        let branch = self.branch.copy(alloc)?;
        Ok(Begun {
            branch,
            number: self.number,
        })
    }
}

/// The kind of the domain's values.
pub fn kind_of(domain: Domain) -> Kind
    ensures { result ≡ domains.kind_of_domain domain }
{
    match domain {
        Domain::Range { .. } => Kind::Integer,
        Domain::Truth => Kind::Truth,
        Domain::Elems(set) => Kind::Elem(set),
        Domain::Subsets { .. } => Kind::SetOf(Base::Integer),
        Domain::ElemSubsets(set) => Kind::SetOf(Base::Elem(set)),
    }
}

#[tactic(auto, using(crate::proofs::BranchLemmas::product_least))]
/// How many branches the substitution has. 257 where there are more than 256.
pub fn branch_count(subst: &Subst) -> u64
    ensures { result ≡ min (counts.branch_count subst.now) 257 }
{
    match &subst.node {
        SubstNode::Skip | SubstNode::Assign { .. } => 1,
        SubstNode::Together(a, b) => least(branch_count(a).saturating_mul(branch_count(b))),
        SubstNode::Choice(sides) => {
            let mut sum = 0u64;
            for side in sides.as_slice() {
                sum = least(branch_count(side).saturating_add(sum));
            }
            sum
        }
        SubstNode::If { then, other, .. } => least(branch_count(then).saturating_add(branch_count(
            other,
        ))),
        SubstNode::AnyOf { body, .. } => branch_count(body),
    }
}

fn least(count: u64) -> u64
    ensures { result ≡ min count 257 }
{
    if count < 257 { count } else { 257 }
}

fn numbered(alloc: Global, name: &Name, number: u32) -> Result<Name, Memory>
    ensures { IfOk result (λ x. x ≡ spec.numbered name.now number) }
{
    let text = name.text.copy(alloc)?;
    Ok(Name { text, number })
}

fn opened_term(alloc: Global, term: &Term, scope: &[Name]) -> Result<Term, Memory>
    ensures { IfOk result (λ t. t ≡ spec.opened_term scope.now term.now) }
{
    change_term(alloc, term, &Opened { scope }, 0)
}

fn opened_write(
    alloc: Global,
    target: &Name,
    value: &Term,
    scope: &[Name],
) -> Result<(Name, Term), Memory>
    ensures { IfOk result (λ w. w ≡ (target.now, spec.opened_term scope.now value.now)) }
{
    let target = target.copy(alloc)?;
    let value = opened_term(alloc, value, scope)?;
    Ok((target, value))
}

fn opened_formula(alloc: Global, formula: &Formula, scope: &[Name]) -> Result<Formula, Memory>
    ensures { IfOk result (λ f. f ≡ spec.opened scope.now formula.now) }
{
    change_formula(alloc, formula, &Opened { scope }, 0)
}

/// The names with this one in front.
pub fn with_first(alloc: Global, name: Name, names: &[Name]) -> Result<Items<Name>, Memory>
    ensures { IfOk result (λ xs. xs ≡ name ∷ names.now) }
{
    let mut all = Items::new(alloc);
    all.push(name)?;
    for other in names {
        all.push(other.copy(alloc)?)?;
    }
    Ok(all)
}

// With the test as a guard.
fn behind(alloc: Global, begun: Begun, test: &Formula, scope: &[Name]) -> Result<Begun, Memory>
    ensures { IfOk result (λ b. begun_of b ≡ guarded (begun_of begun) (spec.opened scope.now test.now)) }
{
    let guard = opened_formula(alloc, test, scope)?;
    begun.guarded(guard)
}

// With the test's negation as a guard.
fn behind_not(alloc: Global, begun: Begun, test: &Formula, scope: &[Name]) -> Result<Begun, Memory>
    ensures { IfOk result (λ b. begun_of b ≡ guarded (begun_of begun) (tree.Not (spec.opened scope.now test.now))) }
{
    let guard = opened_formula(alloc, test, scope)?;
    let negated = Formula::not(alloc, guard)?;
    begun.guarded(negated)
}

// The name in front of the scope's.
fn within(alloc: Global, name: &Name, number: u32, scope: &[Name]) -> Result<Items<Name>, Memory>
    ensures { IfOk result (λ xs. xs ≡ spec.numbered name.now number ∷ scope.now) }
{
    let name = numbered(alloc, name, number)?;
    with_first(alloc, name, scope)
}

// With the name bound, and its test as a guard.
fn bound(
    alloc: Global,
    name: &Name,
    domain: Domain,
    test: &Formula,
    begun: Begun,
    number: u32,
    inner: &[Name],
) -> Result<Begun, Memory>
    ensures { IfOk result (λ b. begun_of b ≡ bound (begun_of begun) number name.now (domains.kind_of_domain domain) (spec.opened inner.now test.now)) }
{
    let name = numbered(alloc, name, number)?;
    let binding = begun.binding(name, kind_of(domain))?;
    behind(alloc, binding, test, inner)
}

// Appends the substitution's branches, each after what is begun. The innermost name of the scope is the first.
#[cycle(branches)]
fn add_branches(
    alloc: Global,
    subst: &Subst,
    begun: Begun,
    scope: &[Name],
    into: &mut Vec<Begun>,
) -> Result<(), Memory>
    ensures { OnOk result (map begun_of into.new.items ≡ map begun_of into.old.items ++ after (λ k. spec.branches_from k scope.now subst.now) (begun_of begun)) }
{
    match &subst.node {
        SubstNode::Skip => add_skip(begun, into),
        SubstNode::Assign { target, value } => {
            add_assigned(alloc, target, value, begun, scope, into)
        }
        SubstNode::Together(a, b) => add_together(alloc, a, b, begun, scope, into),
        SubstNode::Choice(sides) => add_sides(alloc, sides.as_slice(), begun, scope, into),
        SubstNode::If { test, then, other } => {
            add_if(alloc, test, then, other, begun, scope, into)
        }
        SubstNode::AnyOf {
            name,
            domain,
            test,
            body,
        } => add_any(alloc, name, *domain, test, body, begun, scope, into),
    }
}

fn add_skip(begun: Begun, into: &mut Vec<Begun>) -> Result<(), Memory>
    ensures { OnOk result (map begun_of into.new.items ≡ map begun_of into.old.items ++ after (λ k. spec.branches_from k [] subst.Skip) (begun_of begun)) }
{
    put(into, begun)
}

fn add_assigned(
    alloc: Global,
    target: &Name,
    value: &Term,
    begun: Begun,
    scope: &[Name],
    into: &mut Vec<Begun>,
) -> Result<(), Memory>
    ensures { OnOk result (map begun_of into.new.items ≡ map begun_of into.old.items ++ after (λ k. spec.branches_from k scope.now (subst.Assign target.now value.now)) (begun_of begun)) }
{
    let (target, value) = opened_write(alloc, target, value, scope)?;
    let written = begun.writing(target, value)?;
    put(into, written)
}

#[cycle(branches)]
fn add_together(
    alloc: Global,
    a: &Subst,
    b: &Subst,
    begun: Begun,
    scope: &[Name],
    into: &mut Vec<Begun>,
) -> Result<(), Memory>
    ensures { OnOk result (map begun_of into.new.items ≡ map begun_of into.old.items ++ after (λ k. spec.branches_from k scope.now (subst.Together a.now b.now)) (begun_of begun)) }
{
    let mut firsts = Vec::new(alloc);
    add_branches(alloc, a, begun, scope, &mut firsts)?;
    add_each(alloc, b, firsts, scope, into)
}

// Appends the substitution's branches after each of these.
#[cycle(branches)]
fn add_each(
    alloc: Global,
    subst: &Subst,
    firsts: Vec<Begun>,
    scope: &[Name],
    into: &mut Vec<Begun>,
) -> Result<(), Memory>
    ensures { OnOk result (map begun_of into.new.items ≡ map begun_of into.old.items ++ flat_map (after (λ k. spec.branches_from k scope.now subst.now)) (map begun_of firsts.items)) }
{
    for first in firsts {
        add_branches(alloc, subst, first, scope, into)?;
    }
    Ok(())
}

#[cycle(branches)]
fn add_sides(
    alloc: Global,
    sides: &[Subst],
    begun: Begun,
    scope: &[Name],
    into: &mut Vec<Begun>,
) -> Result<(), Memory>
    ensures { OnOk result (map begun_of into.new.items ≡ map begun_of into.old.items ++ after (λ k. spec.branches_of_each k scope.now (sides_of sides.now)) (begun_of begun)) }
{
    for side in sides {
        let copied = begun.copy(alloc)?;
        add_branches(alloc, side, copied, scope, into)?;
    }
    Ok(())
}

#[cycle(branches)]
fn add_if(
    alloc: Global,
    test: &Formula,
    side: &Subst,
    other: &Subst,
    begun: Begun,
    scope: &[Name],
    into: &mut Vec<Begun>,
) -> Result<(), Memory>
    ensures { OnOk result (map begun_of into.new.items ≡ map begun_of into.old.items ++ after (λ k. spec.branches_from k scope.now (subst.If test.now side.now other.now)) (begun_of begun)) }
{
    let copied = begun.copy(alloc)?;
    let first = behind(alloc, copied, test, scope)?;
    add_branches(alloc, side, first, scope, into)?;
    let second = behind_not(alloc, begun, test, scope)?;
    add_branches(alloc, other, second, scope, into)
}

#[cycle(branches)]
fn add_any(
    alloc: Global,
    name: &Name,
    domain: Domain,
    test: &Formula,
    body: &Subst,
    begun: Begun,
    scope: &[Name],
    into: &mut Vec<Begun>,
) -> Result<(), Memory>
    ensures { OnOk result (map begun_of into.new.items ≡ map begun_of into.old.items ++ after (λ k. spec.branches_from k scope.now (subst.AnyOf name.now domain test.now body.now)) (begun_of begun)) }
{
    let number = next(begun.number)?;
    let inner = within(alloc, name, number, scope)?;
    let inside = bound(alloc, name, domain, test, begun, number, inner.as_slice())?;
    add_branches(alloc, body, inside, inner.as_slice(), into)
}

fn begin(alloc: Global) -> Begun
    ensures { begun_of result ≡ (0, record { items = []; writes = [] }) }
{
    Begun {
        branch: Branch {
            items: Items::new(alloc),
            writes: Items::new(alloc),
        },
        number: 0,
    }
}

/// The branches of a substitution whose names are as written, in order. The j-th name that a branch binds has the number j,
/// and so have its places in the branch. `Limit(Branches)` exactly where there are more than 256.
pub fn branches(alloc: Global, subst: &Subst) -> Result<Items<Branch>, MakeFault>
    ensures list { IfOk result (λ bs. map branch_of bs ≡ spec.branches subst.now) }
    ensures within { IfOk result (λ bs. branch_limit subst.now ≡ None) }
    ensures fault { IfErr result (λ e. Tells e (branch_limit subst.now)) }
{
    if branch_count(subst) > 256 {
        return Err(MakeFault::Limit(Which::Branches));
    }
    Ok(all_branches(alloc, subst)?)
}

/// What `branches` gives, however many they are.
pub fn all_branches(alloc: Global, subst: &Subst) -> Result<Items<Branch>, Memory>
    ensures { IfOk result (λ bs. map branch_of bs ≡ spec.branches subst.now) }
{
    let mut made = Vec::new(alloc);
    add_branches(alloc, subst, begin(alloc), &[], &mut made)?;
    without_numbers(alloc, made)
}

fn without_numbers(alloc: Global, begun: Vec<Begun>) -> Result<Items<Branch>, Memory>
    ensures { IfOk result (λ bs. map branch_of bs ≡ map (λ b. branch_of b.branch) begun.items) }
{
    let mut branches = Items::new(alloc);
    for one in begun {
        branches.push(one.branch)?;
    }
    Ok(branches)
}
