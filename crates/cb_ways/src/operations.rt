//! The way into one branch of an operation that is called, and back.

ghost use Rattle.std.specs.Prelude.{◌≡◌, ◌≤◌, take, length, option_map, slice_get, IfOk, OnOk, IfErr};
ghost use Rattle.cb_obligations.specs.Steps.{Reach};
ghost use Rattle.cb_wp.specs.Limits.{Counted, Faulted};
ghost use Rattle.cb_wp.specs.Parts.{branch_of};
ghost use Rattle.cb_conditions.specs.Ways.{supposing, leaving};
ghost use Rattle.cb_symbolic.specs.Stores.{meaning_of};
ghost use Rattle.cb_symbolic.specs.Walks.{way_of, IsReached, cut_at, Extends, Passes, Stops};
ghost use Rattle.cb_ways.specs.Calls.{branch_way, entry_steps, put_back, operation_of};

use crate::branches::enter;
use crate::formulas::outcome;
use cb_spec::system::{Machine, Operation, System};
use cb_symbolic::store::SymStore;
use cb_symbolic::walk::{Mark, Reached, Walk, leave, suppose};
use cb_term::Memory;
use cb_term::name::Name;
use cb_term::tree::{Formula, Term};
use cb_wp::branches::Branch;
use cb_wp::limits::{MakeFault, Used};
use std::alloc::Global;

/// The machine and the operation at these places.
pub fn find_operation(
    system: &System,
    machine: u32,
    operation: u32,
) -> Option<(&Machine, &Operation)>
    ensures { option_map (λ p. (p.0.now, p.1.now)) result ≡ operation_of (slice_get system.now.machines machine) operation }
{
    let machine = system.machines.as_slice().get(machine as usize)?;
    let operation = machine.operations.as_slice().get(operation as usize)?;
    Some((machine, operation))
}

// Writes over the first entries of the store, and supposes the formula. The other entries are handed out.
fn leave_under(
    alloc: Global,
    walk: &mut Walk,
    reached: Reached,
    outer: usize,
    writes: &[(Name, Term)],
    formula: &Formula,
) -> Result<(Reached, SymStore), MakeFault>
    requires reached { IsReached reached walk.old }
    requires outer { outer ≤ length walk.old.store }
    ensures way { IfOk result (λ p. way_of p.0 walk.new ≡ supposing (leaving (meaning_of (take outer walk.old.store)) writes.now (way_of reached walk.old)) formula.now) }
    ensures reached { IfOk result (λ p. IsReached p.0 walk.new) }
    ensures back { IfOk result (λ p. Extends (put_back outer p.1 walk.new) walk.old) }
    ensures passes { OnOk result (Passes (Reach (supposing (leaving (meaning_of (take outer walk.old.store)) writes.now (way_of reached walk.old)) formula.now).hypotheses)) }
    ensures stops { IfErr result (λ e. Stops e (Reach (supposing (leaving (meaning_of (take outer walk.old.store)) writes.now (way_of reached walk.old)) formula.now).hypotheses)) }
{
    let inner = leave(alloc, walk, outer, writes)?;
    let reached = suppose(alloc, walk, reached, formula)?;
    Ok((reached, inner))
}

/// Goes through the branch of the operation and out of it, to where the machine's invariant is supposed. The store's entries after the
/// first ones are handed out. Nothing is made, so the count stays.
pub fn enter_branch(
    alloc: Global,
    walk: &mut Walk,
    reached: Reached,
    machine: &Machine,
    operation: &Operation,
    results: &[Name],
    branch: &Branch,
    outer: usize,
    used: &Used,
) -> Result<(Reached, SymStore), MakeFault>
    requires reached { IsReached reached walk.old }
    requires outer { outer ≤ length walk.old.store }
    ensures way { IfOk result (λ p. way_of p.0 walk.new ≡ branch_way machine.now operation.now results.now (meaning_of (take outer walk.old.store)) (way_of reached walk.old) (branch_of branch.now)) }
    ensures reached { IfOk result (λ p. IsReached p.0 walk.new) }
    ensures back { IfOk result (λ p. Extends (put_back outer p.1 walk.new) walk.old) }
    ensures counted { OnOk result (Counted used.now used.now (entry_steps machine.now operation.now results.now (meaning_of (take outer walk.old.store)) (way_of reached walk.old) (branch_of branch.now))) }
    ensures fault { IfErr result (λ e. Faulted e used.now (entry_steps machine.now operation.now results.now (meaning_of (take outer walk.old.store)) (way_of reached walk.old) (branch_of branch.now))) }
{
    let inside = enter(alloc, walk, reached, branch.items.as_slice(), used)?;
    let writes = branch.writes.as_slice();
    let left = outcome(alloc, walk, machine, operation, results, writes, used)?;
    leave_under(
        alloc,
        walk,
        inside,
        outer,
        left.as_slice(),
        &machine.invariant,
    )
}

/// Puts the entries behind the first ones of the store again, and goes back to where the walk was.
pub fn leave_branch(
    walk: &mut Walk,
    mark: Mark,
    outer: usize,
    inner: SymStore,
) -> Result<(), Memory>
    ensures { OnOk result (walk.new ≡ cut_at mark (put_back outer inner walk.old)) }
{
    walk.store.cut(outer);
    walk.store.append(inner)?;
    walk.cut(mark);
    Ok(())
}
