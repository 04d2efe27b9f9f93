//! The way through one branch of a substitution.

ghost use Rattle.std.specs.Prelude.{◌≡◌, ℕ, List, [], ◌∷◌, IfOk, OnOk, IfErr, map};
ghost use Rattle.cb_obligations.specs.Branches as spec;
ghost use Rattle.cb_wp.specs.Limits.{count, Counted, Faulted};
ghost use Rattle.cb_wp.specs.declared.limits.Used.{Used};
ghost use Rattle.cb_wp.specs.Parts.{item_of};
ghost use Rattle.cb_conditions.specs.Steps.{inside_steps};
ghost use Rattle.cb_conditions.specs.Ways.{inside};
ghost use Rattle.cb_symbolic.specs.Walks.{way_of, IsReached, Extends};

use cb_symbolic::walk::{Reached, Walk, open, suppose};
use cb_wp::branches::Item;
use cb_wp::limits::{MakeFault, Used};
use std::alloc::Global;

// Opens what the item binds, or supposes its guard.
fn enter_one(
    alloc: Global,
    walk: &mut Walk,
    reached: Reached,
    item: &Item,
) -> Result<Reached, MakeFault>
    requires { IsReached reached walk.old }
    ensures way { IfOk result (λ r. way_of r walk.new ≡ inside (way_of reached walk.old) (item_of item.now ∷ [])) }
    ensures extends { OnOk result (Extends walk.new walk.old) }
    ensures reached { IfOk result (λ r. IsReached r walk.new) }
    ensures passes { OnOk result ((o n : ℕ) (rest : List spec.Item) → count o n (inside_steps (way_of reached walk.old) (item_of item.now ∷ rest)) ≡ count o n (inside_steps (inside (way_of reached walk.old) (item_of item.now ∷ [])) rest)) }
    ensures stops { IfErr result (λ e. (u : Used) (rest : List spec.Item) → Faulted e u (inside_steps (way_of reached walk.old) (item_of item.now ∷ rest))) }
{
    match item {
        Item::Bind(name, kind) => Ok(open(alloc, walk, reached, name, *kind)?),
        Item::Guard(guard) => suppose(alloc, walk, reached, guard),
    }
}

/// Opens what the items bind and supposes their guards, in order. Nothing is made, so the count stays.
pub fn enter(
    alloc: Global,
    walk: &mut Walk,
    reached: Reached,
    items: &[Item],
    _used: &Used,
) -> Result<Reached, MakeFault>
    requires reached { IsReached reached walk.old }
    ensures way { IfOk result (λ r. way_of r walk.new ≡ inside (way_of reached walk.old) (map item_of items.now)) }
    ensures extends { OnOk result (Extends walk.new walk.old) }
    ensures reached { IfOk result (λ r. IsReached r walk.new) }
    ensures counted { OnOk result (Counted _used.now _used.now (inside_steps (way_of reached walk.old) (map item_of items.now))) }
    ensures fault { IfErr result (λ e. Faulted e _used.now (inside_steps (way_of reached walk.old) (map item_of items.now))) }
{
    let mut reached = reached;
    for item in items {
        reached = enter_one(alloc, walk, reached, item)?;
    }
    Ok(reached)
}
