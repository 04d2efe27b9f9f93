//! What controllers offer, as the rendezvous table has it.

ghost use Rattle.std.specs.Prelude.{◌≡◌, IfOk};
ghost use Rattle.cb_settling.specs.Branches.{ArePrefixes};
ghost use Rattle.cb_settling.specs.Resolving.{ShowsPrefixes};
ghost use Rattle.cb_system.specs.Rows.{side_of, sides_at, row_shown};

use cb_code::code::{Code, Node};
use cb_offers::offers::Side;
use cb_settling::settle::Outcome;
use cb_spec::event::Event;
use cb_term::Memory;
use sqlite_items::Items;
use std::alloc::Global;

// The side of an event.
fn side_of(event: &Event) -> Side
    ensures { result ≡ side_of event.now }
{
    match event {
        Event::Output { channel, .. } => Side::Output(*channel),
        Event::Input { channel, .. } => Side::Input(*channel),
        Event::Call { .. } => Side::Call,
    }
}

// The sides of the prefixes at these places.
fn sides_at(alloc: Global, code: &Code, prefixes: &Items<u32>) -> Result<Vec<Side>, Memory>
    requires { ArePrefixes code.now prefixes.now }
    ensures { IfOk result (λ sides. sides.items ≡ sides_at code.now prefixes.now) }
{
    let mut sides = Vec::new(alloc);
    for place in prefixes.as_slice() {
        match code.node(*place) {
            Node::Prefix { event, .. } => sides.push(side_of(event))?,
            _ => unreachable!(),
        }
    }
    Ok(sides)
}

/// The sides that a controller offers whose process is resolved to this.
pub fn row_shown(alloc: Global, code: &Code, outcome: &Outcome) -> Result<Vec<Side>, Memory>
    requires { ShowsPrefixes code.now outcome.now }
    ensures { IfOk result (λ sides. sides.items ≡ row_shown code.now outcome.now) }
{
    match outcome {
        Outcome::Shown { prefixes, .. } => sides_at(alloc, code, prefixes),
        Outcome::Over => Ok(Vec::new(alloc)),
    }
}
