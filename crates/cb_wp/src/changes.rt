//! Names in the places of names and of bound variables, and bound variables and terms in the places of names.

ghost use Rattle.std.specs.Prelude.{◌≡◌, ◌+◌, IfOk, OnOk, [], ◌∷◌, ◌++◌};
ghost use Rattle.cb_term.specs.Tree as tree;
ghost use Rattle.cb_term.specs.Change.{name_stays, bound_stays};
ghost use Rattle.cb_obligations.specs.Branches as branches;
ghost use Rattle.cb_obligations.specs.Transform as transform;
ghost use Rattle.cb_obligations.specs.Pieces.{freed};

use cb_term::Memory;
use cb_term::change::{Change, change_term};
use cb_term::name::Name;
use cb_term::tree::Term;
use std::alloc::{AllocError, Global};

/// Opened names for the written ones, the innermost first.
#[derive(Clone, Copy)]
pub struct Opened<'a> {
    pub scope: &'a [Name],
}

fn opened_name(alloc: Global, scope: &[Name], name: &Name) -> Result<Name, Memory>
    ensures { IfOk result (λ x. x ≡ branches.opened_name scope.now name.now) }
{
    for opened in scope {
        if name.number == 0 && name.text.is_same(&opened.text) {
            return opened.copy(alloc);
        }
    }
    name.copy(alloc)
}

impl Change for Opened<'_> {
    ghost names = { λ c. branches.opened_names c.scope.now };

    ghost bounds = { λ c. bound_stays };

    fn name(&self, alloc: Global, _depth: u32, name: &Name) -> Result<Term, Memory> {
        Ok(Term::var(opened_name(alloc, self.scope, name)?))
    }

    fn bound(&self, _alloc: Global, _depth: u32, index: u32) -> Result<Term, Memory> {
        Ok(Term::bound(index))
    }
}

/// Bound variables for the names, the innermost first.
#[derive(Clone, Copy)]
pub struct Closed<'a> {
    pub bound: &'a [Name],
}

fn as_bound(alloc: Global, bound: &[Name], depth: u32, name: &Name) -> Result<Term, Memory>
    ensures { IfOk result (λ t. t ≡ transform.as_bound bound.now depth name.now) }
{
    let mut place = depth;
    for x in bound {
        if name.is_same(x) {
            return Ok(Term::bound(place));
        }
        place = place.checked_add(1).ok_or(AllocError)?;
    }
    Ok(Term::var(name.copy(alloc)?))
}

impl Change for Closed<'_> {
    ghost names = { λ c. transform.as_bound c.bound.now };

    ghost bounds = { λ c. bound_stays };

    fn name(&self, alloc: Global, depth: u32, name: &Name) -> Result<Term, Memory> {
        as_bound(alloc, self.bound, depth, name)
    }

    fn bound(&self, _alloc: Global, _depth: u32, index: u32) -> Result<Term, Memory> {
        Ok(Term::bound(index))
    }
}

/// The written terms for the names that are assigned to, under the bound names.
#[derive(Clone, Copy)]
pub struct Assigned<'a> {
    pub bound: &'a [Name],
    pub writes: &'a [(Name, Term)],
}

impl Change for Assigned<'_> {
    ghost names = { λ c. transform.assigned c.bound.now c.writes.now };

    ghost bounds = { λ c. bound_stays };

    fn name(&self, alloc: Global, depth: u32, name: &Name) -> Result<Term, Memory> {
        written_term(alloc, self.bound, self.writes, depth, name)
    }

    fn bound(&self, _alloc: Global, _depth: u32, index: u32) -> Result<Term, Memory> {
        Ok(Term::bound(index))
    }
}

fn written_term(
    alloc: Global,
    bound: &[Name],
    writes: &[(Name, Term)],
    depth: u32,
    name: &Name,
) -> Result<Term, Memory>
    ensures { IfOk result (λ t. t ≡ transform.assigned bound.now writes.now depth name.now) }
{
    for write in writes {
        if name.is_same(&write.0) {
            return change_term(alloc, &write.1, &Closed { bound }, depth);
        }
    }
    Ok(Term::var(name.copy(alloc)?))
}

/// Opened names for the variables that are bound outside, the innermost first.
#[derive(Clone, Copy)]
pub struct Freed<'a> {
    pub opened: &'a [Name],
}

fn freed_term(alloc: Global, opened: &[Name], depth: u32, index: u32) -> Result<Term, Memory>
    ensures { IfOk result (λ t. t ≡ freed opened.now depth index) }
{
    let mut place = depth;
    for y in opened {
        if index == place {
            return Ok(Term::var(y.copy(alloc)?));
        }
        place = place.checked_add(1).ok_or(AllocError)?;
    }
    Ok(Term::bound(index))
}

impl Change for Freed<'_> {
    ghost names = { λ c. name_stays };

    ghost bounds = { λ c. freed c.opened.now };

    fn name(&self, alloc: Global, _depth: u32, name: &Name) -> Result<Term, Memory> {
        Ok(Term::var(name.copy(alloc)?))
    }

    fn bound(&self, alloc: Global, depth: u32, index: u32) -> Result<Term, Memory> {
        freed_term(alloc, self.opened, depth, index)
    }
}

/// Appends the item.
pub fn put<T: Drop>(into: &mut Vec<T>, item: T) -> Result<(), Memory>
    ensures { OnOk result (into.new.items ≡ into.old.items ++ item ∷ []) }
{
    match into.push(item) {
        Ok(()) => Ok(()),
        Err(_) => Err(AllocError),
    }
}

/// One more.
pub fn next(number: u32) -> Result<u32, Memory>
    ensures { IfOk result (λ n. n ≡ number + 1) }
{
    number.checked_add(1).ok_or(AllocError)
}
