//! The processes of a system, laid flat.

ghost use Rattle.std.specs.Prelude.{◌≡◌, ◌<◌, length, slice_get, Some, IfOk, OnOk};
ghost use Rattle.cb_spec.specs.ProcessTree as tree;
ghost use Rattle.cb_spec.specs.Typed.{AllBelow};
ghost use Rattle.cb_code.specs.Nodes.{Extends};
ghost use Rattle.cb_settling.specs.Resolving.{HasBodies};
ghost use Rattle.cb_beginning.specs.Layouts.{AddsController, IsLaidTo};

use cb_code::code::Code;
use cb_code::copies::copy_terms;
use cb_code::place::Place;
use cb_spec::process::{Process, ProcessNode};
use cb_spec::store::Store;
use cb_spec::system::{Controller, System};
use cb_term::Memory;
use sqlite_items::Items;
use std::alloc::Global;

/// The processes of some controllers, the places of their definitions' bodies, and where the controllers are.
#[derive(Drop)]
pub struct Layout {
    pub code: Code,
    pub bodies: Vec<Items<u32>>,
    pub places: Vec<Place>,
}

// Lays down the bodies of the controller's definitions, and tells their places.
fn lay_bodies(alloc: Global, code: &mut Code, controller: &Controller) -> Result<Items<u32>, Memory>
    ensures bodies { IfOk result (λ ks. HasBodies controller.now code.new ks) }
    ensures more { OnOk result (Extends code.old code.new) }
{
    let mut bodies = Items::new(alloc);
    for definition in controller.definitions.as_slice() {
        bodies.push(code.lay(alloc, &definition.body)?)?;
    }
    Ok(bodies)
}

// Lays down the controller's START call, and tells its place.
fn lay_start(alloc: Global, code: &mut Code, controller: &Controller) -> Result<u32, Memory>
    ensures place { IfOk result (λ k. slice_get code.new k ≡ Some (tree.Call controller.now.start controller.now.start_args)) }
    ensures more { OnOk result (Extends code.old code.new) }
{
    let call = Process {
        node: ProcessNode::Call {
            definition: controller.start,
            args: copy_terms(alloc, &controller.start_args)?,
        },
    };
    code.lay(alloc, &call)
}

// Lays down one controller more, which is at its START call.
fn lay_controller(alloc: Global, layout: &mut Layout, controller: &Controller) -> Result<(), Memory>
    ensures { OnOk result (AddsController controller.now layout.old layout.new) }
{
    let bodies = lay_bodies(alloc, &mut layout.code, controller)?;
    let process = lay_start(alloc, &mut layout.code, controller)?;
    layout.bodies.push(bodies)?;
    layout.places.push(Place::At {
        process,
        env: Store::new(alloc),
    })?;
    Ok(())
}

// The controller at this place of the text.
fn controller_at(system: &System, at: u32) -> &Controller
    requires { at < length system.now.controllers }
    ensures { slice_get system.now.controllers at ≡ Some result.now }
{
    &system.controllers.as_slice()[at as usize]
}

/// The processes of all controllers, in the order of the controllers' numbers.
pub fn lay_system(alloc: Global, system: &System) -> Result<Layout, Memory>
    requires { AllBelow (length system.now.controllers) system.now.order }
    ensures { IfOk result (λ l. IsLaidTo system.now (length system.now.order) l) }
{
    let mut layout = Layout {
        code: Code::new(alloc),
        bodies: Vec::new(alloc),
        places: Vec::new(alloc),
    };
    for at in system.order.as_slice() {
        lay_controller(alloc, &mut layout, controller_at(system, *at))?;
    }
    Ok(layout)
}
