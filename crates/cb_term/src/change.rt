//! Terms in the place of names and of bound variables: one walk for every such change.

ghost use Rattle.std.specs.Prelude.{◌≡◌, ℕ, ◌+◌, IfOk};
ghost use Rattle.cb_term.specs.declared.name.Name.{Name};
ghost use Rattle.cb_term.specs.Tree.{TermTree};
ghost use Rattle.cb_term.specs.Change.{mapped_term, mapped_formula, for_name, for_outermost, name_stays, bound_stays, subst_formula, open_formula};
ghost use Rattle.cb_term.specs.Laws.{HoldsAt, HoldsInside};

use crate::Memory;
use crate::name::Name;
use crate::tree::{Formula, FormulaNode, Term, TermNode};
use sqlite_items::Items;
use std::alloc::{AllocError, Global};

/// What goes in the place of names and of bound variables. A term is told how many binders stand around the place where it
/// goes, so it may have bound variables of its own.
pub trait Change {
    ghost names: { Self → ℕ → Name → TermTree };

    ghost bounds: { Self → ℕ → ℕ → TermTree };

    /// The term for a name under so many binders.
    fn name(&self, alloc: Global, depth: u32, name: &Name) -> Result<Term, Memory>
        ensures { IfOk result (λ t. t ≡ names self.now depth name.now) };

    /// The term for a bound variable under so many binders.
    fn bound(&self, alloc: Global, depth: u32, index: u32) -> Result<Term, Memory>
        ensures { IfOk result (λ t. t ≡ bounds self.now depth index) };
}

/// A term for each free occurrence of a name.
#[derive(Clone, Copy)]
struct AtName<'a> {
    name: &'a Name,
    term: &'a Term,
}

impl Change for AtName<'_> {
    ghost names = { λ c. for_name c.name.now c.term.now };

    ghost bounds = { λ c. bound_stays };

    fn name(&self, alloc: Global, _depth: u32, name: &Name) -> Result<Term, Memory> {
        if name.is_same(self.name) {
            self.term.copy(alloc)
        } else {
            Ok(Term::var(name.copy(alloc)?))
        }
    }

    fn bound(&self, _alloc: Global, _depth: u32, index: u32) -> Result<Term, Memory> {
        Ok(Term::bound(index))
    }
}

/// A term for the variable that is bound just outside the tree.
#[derive(Clone, Copy)]
struct AtOutermost<'a> {
    term: &'a Term,
}

impl Change for AtOutermost<'_> {
    ghost names = { λ c. name_stays };

    ghost bounds = { λ c. for_outermost c.term.now };

    fn name(&self, alloc: Global, _depth: u32, name: &Name) -> Result<Term, Memory> {
        Ok(Term::var(name.copy(alloc)?))
    }

    fn bound(&self, alloc: Global, depth: u32, index: u32) -> Result<Term, Memory> {
        if index == depth {
            self.term.copy(alloc)
        } else {
            Ok(Term::bound(index))
        }
    }
}

/// The formula with the term in the place of each free occurrence of the name. A term with loose bound variables is put in as
/// it stands, and its truth is then not told.
pub fn substitute(
    alloc: Global,
    formula: &Formula,
    name: &Name,
    term: &Term,
) -> Result<Formula, Memory>
    ensures tree { IfOk result (λ f. f ≡ subst_formula name.now term.now formula.now) }
    ensures truth { IfOk result (λ f. HoldsAt f name.now term.now formula.now) }
{
    change_formula(alloc, formula, &AtName { name, term }, 0)
}

/// The body of a quantifier with the term in the place of the variable that the quantifier binds. A term with loose bound
/// variables is put in as it stands, and its truth is then not told.
pub fn instantiate(alloc: Global, body: &Formula, term: &Term) -> Result<Formula, Memory>
    ensures tree { IfOk result (λ f. f ≡ open_formula term.now body.now) }
    ensures truth { IfOk result (λ f. HoldsInside f term.now body.now) }
{
    change_formula(alloc, body, &AtOutermost { term }, 0)
}

/// One binder more. More than a `u32` can count is want of memory, which a formula of that depth would meet first.
fn deeper(depth: u32) -> Result<u32, Memory>
    ensures { IfOk result (λ d. d ≡ depth + 1) }
{
    depth.checked_add(1).ok_or(AllocError)
}

/// The term with what the change puts in the place of its names and bound variables, `depth` binders standing around it.
#[cycle(change)]
pub fn change_term<C: Change>(
    alloc: Global,
    term: &Term,
    change: &C,
    depth: u32,
) -> Result<Term, Memory>
    ensures { IfOk result (λ t. t ≡ mapped_term (C.names change.now) (C.bounds change.now) depth term.now) }
{
    match &term.node {
        TermNode::Var(name) => change.name(alloc, depth, name),
        TermNode::Bound(index) => change.bound(alloc, depth, *index),
        TermNode::Num(n) => Ok(Term::num(*n)),
        TermNode::Truth(b) => Ok(Term::truth(*b)),
        TermNode::Elem { set, index } => Ok(Term::elem(*set, *index)),
        TermNode::Bin { sign, left, right } => Term::bin(
            alloc,
            *sign,
            change_term(alloc, left, change, depth)?,
            change_term(alloc, right, change, depth)?,
        ),
        TermNode::Neg(operand) => Term::neg(alloc, change_term(alloc, operand, change, depth)?),
        TermNode::Card(operand) => Term::card(alloc, change_term(alloc, operand, change, depth)?),
        TermNode::Listed(terms) => {
            let mut changed = Items::new(alloc);
            for term in terms.as_slice() {
                changed.push(change_term(alloc, term, change, depth)?)?;
            }
            Ok(Term::listed(changed))
        }
        TermNode::Elems(set) => Ok(Term::elems(*set)),
        TermNode::Truths => Ok(Term::truths()),
        TermNode::Bool(formula) => Term::bool_of(
            alloc,
            change_formula(alloc, formula, change, depth)?,
        ),
    }
}

/// The formula with what the change puts in the place of its names and bound variables, `depth` binders standing around it.
#[cycle(change)]
pub fn change_formula<C: Change>(
    alloc: Global,
    formula: &Formula,
    change: &C,
    depth: u32,
) -> Result<Formula, Memory>
    ensures { IfOk result (λ f. f ≡ mapped_formula (C.names change.now) (C.bounds change.now) depth formula.now) }
{
    match &formula.node {
        FormulaNode::True => Ok(Formula::btrue()),
        FormulaNode::False => Ok(Formula::bfalse()),
        FormulaNode::Rel { sign, left, right } => Ok(Formula::rel(
            *sign,
            change_term(alloc, left, change, depth)?,
            change_term(alloc, right, change, depth)?,
        )),
        FormulaNode::Not(operand) => Formula::not(
            alloc,
            change_formula(alloc, operand, change, depth)?,
        ),
        FormulaNode::And(left, right) => Formula::and(
            alloc,
            change_formula(alloc, left, change, depth)?,
            change_formula(alloc, right, change, depth)?,
        ),
        FormulaNode::Or(left, right) => Formula::or(
            alloc,
            change_formula(alloc, left, change, depth)?,
            change_formula(alloc, right, change, depth)?,
        ),
        FormulaNode::Implies(left, right) => Formula::implies(
            alloc,
            change_formula(alloc, left, change, depth)?,
            change_formula(alloc, right, change, depth)?,
        ),
        FormulaNode::Iff(left, right) => Formula::iff(
            alloc,
            change_formula(alloc, left, change, depth)?,
            change_formula(alloc, right, change, depth)?,
        ),
        FormulaNode::Every { name, kind, body } => Formula::every(
            alloc,
            name.copy(alloc)?,
            *kind,
            change_formula(alloc, body, change, deeper(depth)?)?,
        ),
        FormulaNode::Exist { name, kind, body } => Formula::exist(
            alloc,
            name.copy(alloc)?,
            *kind,
            change_formula(alloc, body, change, deeper(depth)?)?,
        ),
    }
}
