//! What is known of a controller's machines where its process goes on: their invariants, supposed one after another.

ghost use Rattle.std.specs.Prelude.{◌≡◌, IfOk, OnOk, IfErr, option_copied};
ghost use Rattle.cb_term.specs.Tree as tree;
ghost use Rattle.cb_obligations.specs.Steps.{Reach};
ghost use Rattle.cb_conditions.specs.Conditions.{listed, invariants_of, machines_of};
ghost use Rattle.cb_conditions.specs.Ways.{supposing};
ghost use Rattle.cb_symbolic.specs.Walks.{way_of, IsReached, Passes, Stops};
ghost use Rattle.cb_starts.specs.Starts.{own_supposed};

use cb_spec::system::{Controller, Machine, System};
use cb_symbolic::walk::{Reached, Walk, suppose};
use cb_term::tree::Formula;
use cb_wp::limits::MakeFault;
use sqlite_items::at;
use std::alloc::Global;

// Supposes the invariant of the machine that is there.
fn suppose_own(
    alloc: Global,
    walk: &mut Walk,
    reached: Reached,
    machine: Option<&Machine>,
) -> Result<Reached, MakeFault>
    requires { IsReached reached walk.old }
    ensures way { IfOk result (λ r. way_of r walk.new ≡ own_supposed (way_of reached walk.old) (option_copied machine.entry)) }
    ensures reached { IfOk result (λ r. IsReached r walk.new) }
    ensures stops { IfErr result (λ e. Stops e (Reach (own_supposed (way_of reached walk.old) (option_copied machine.entry)).hypotheses)) }
{
    match machine {
        Some(machine) => suppose(alloc, walk, reached, &machine.invariant),
        None => Ok(reached),
    }
}

/// Supposes `btrue`: nothing is added, and what is known by then is seen to be within the limit of a sequent.
pub fn suppose_nothing(
    alloc: Global,
    walk: &mut Walk,
    reached: Reached,
) -> Result<Reached, MakeFault>
    requires { IsReached reached walk.old }
    ensures way { IfOk result (λ r. way_of r walk.new ≡ supposing (way_of reached walk.old) tree.True) }
    ensures reached { IfOk result (λ r. IsReached r walk.new) }
    ensures passes { OnOk result (Passes (Reach (supposing (way_of reached walk.old) tree.True).hypotheses)) }
    ensures stops { IfErr result (λ e. Stops e (Reach (supposing (way_of reached walk.old) tree.True).hypotheses)) }
{
    let nothing = Formula::btrue();
    suppose(alloc, walk, reached, &nothing)
}

// Supposes the invariants of the machines at these places.
fn suppose_each(
    alloc: Global,
    walk: &mut Walk,
    reached: Reached,
    machines: &[Machine],
    places: &[u32],
) -> Result<Reached, MakeFault>
    requires { IsReached reached walk.old }
    ensures way { IfOk result (λ r. way_of r walk.new ≡ supposing (way_of reached walk.old) (invariants_of (listed machines.now places.now))) }
    ensures reached { IfOk result (λ r. IsReached r walk.new) }
    ensures passes { OnOk result (Passes (Reach (supposing (way_of reached walk.old) (invariants_of (listed machines.now places.now))).hypotheses)) }
    ensures stops { IfErr result (λ e. Stops e (Reach (supposing (way_of reached walk.old) (invariants_of (listed machines.now places.now))).hypotheses)) }
{
    let mut reached = reached;
    for place in places {
        reached = suppose_own(alloc, walk, reached, at(machines, *place as usize))?;
    }
    suppose_nothing(alloc, walk, reached)
}

/// Supposes that the invariants of the controller's machines hold, as they are read here. `Limit(Sequent)` exactly where the
/// hypotheses then have more than 20,000 nodes.
pub fn suppose_invariants(
    alloc: Global,
    system: &System,
    controller: &Controller,
    walk: &mut Walk,
    reached: Reached,
) -> Result<Reached, MakeFault>
    requires { IsReached reached walk.old }
    ensures way { IfOk result (λ r. way_of r walk.new ≡ supposing (way_of reached walk.old) (invariants_of (machines_of system.now controller.now))) }
    ensures reached { IfOk result (λ r. IsReached r walk.new) }
    ensures passes { OnOk result (Passes (Reach (supposing (way_of reached walk.old) (invariants_of (machines_of system.now controller.now))).hypotheses)) }
    ensures stops { IfErr result (λ e. Stops e (Reach (supposing (way_of reached walk.old) (invariants_of (machines_of system.now controller.now))).hypotheses)) }
{
    suppose_each(
        alloc,
        walk,
        reached,
        system.machines.as_slice(),
        controller.machines.as_slice(),
    )
}
