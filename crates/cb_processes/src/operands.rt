//! What a walk tells of a process, and of the operands of a chain.

ghost use Rattle.std.specs.Prelude.{◌≡◌, ◌&&◌, true, false, not, Option, Some, None};
ghost use Rattle.cb_forms.specs.Faults.{fault_if, first, least};
ghost use Rattle.cb_judge.specs.Sure.{nowhere};
ghost use Rattle.cb_processes.specs.Chains.{or_place};
ghost use Rattle.cb_text_laws.specs.ProcessFaults as spec;

use cb_forms::fault::{Fault, earlier, when};
use cb_lex::raw::event::{RawCall, RawEvent};
use cb_lex::token::Place;

/// What is told of a process: its first fault, whether it may be an operand of `[]`, and where it begins.
#[derive(Clone, Copy)]
pub struct Judged {
    pub fault: Option<Fault>,
    pub is_operand: bool,
    pub place: Place,
}

/// What is told of the operands of a chain: the first fault inside of them, the first fault of operands that `[]` may not have,
/// whether there is no such operand, and where the chain begins.
#[derive(Clone, Copy)]
pub struct Chain {
    pub fault: Option<Fault>,
    pub stranger: Option<Fault>,
    pub are_operands: bool,
    pub place: Option<Place>,
}

fn event_place(event: &RawEvent) -> Place
    ensures { result ≡ spec.event_place event.now }
{
    match event {
        RawEvent::Output { channel, .. } | RawEvent::Input { channel, .. } => channel.place,
        RawEvent::Operation { machine, .. } => machine.place,
    }
}

fn place_or(place: Option<Place>, other: Place) -> Place
    ensures { result ≡ or_place place other }
{
    match place {
        None => other,
        Some(place) => place,
    }
}

// A chain without operands begins nowhere.
fn chain_place(chain: &Chain) -> Place
    ensures { result ≡ or_place chain.now.place nowhere }
{
    place_or(chain.place, Place { line: 0, col: 0 })
}

/// `STOP` or `SKIP`.
pub fn of_end(is_operand: bool, place: Place) -> Judged
    ensures { result ≡ record { fault = None; is_operand = is_operand; place = place } }
{
    Judged {
        fault: None,
        is_operand,
        place,
    }
}

/// A call with its fault.
pub fn of_call(fault: Option<Fault>, call: &RawCall) -> Judged
    ensures { result ≡ record { fault = fault; is_operand = false; place = call.now.name.place } }
{
    Judged {
        fault,
        is_operand: false,
        place: call.name.place,
    }
}

/// An IF with the fault of its condition.
pub fn of_sides(place: Place, own: Option<Fault>, then: &Judged, otherwise: &Judged) -> Judged
    ensures { result ≡ record { fault = least own (least then.now.fault otherwise.now.fault); is_operand = then.now.is_operand && otherwise.now.is_operand; place = place } }
{
    Judged {
        fault: earlier(own, earlier(then.fault, otherwise.fault)),
        is_operand: then.is_operand && otherwise.is_operand,
        place,
    }
}

/// A prefix with the fault of its event.
pub fn of_prefix(event: &RawEvent, own: Option<Fault>, rest: &Judged) -> Judged
    ensures { result ≡ record { fault = least own rest.now.fault; is_operand = true; place = spec.event_place event.now } }
{
    Judged {
        fault: earlier(own, rest.fault),
        is_operand: true,
        place: event_place(event),
    }
}

/// A chain of `[]`.
pub fn of_external(chain: &Chain) -> Judged
    ensures { result ≡ record { fault = least chain.now.stranger chain.now.fault; is_operand = chain.now.are_operands; place = or_place chain.now.place nowhere } }
{
    Judged {
        fault: earlier(chain.stranger, chain.fault),
        is_operand: chain.are_operands,
        place: chain_place(chain),
    }
}

/// A chain of `|~|`.
pub fn of_internal(chain: &Chain) -> Judged
    ensures { result ≡ record { fault = chain.now.fault; is_operand = false; place = or_place chain.now.place nowhere } }
{
    Judged {
        fault: chain.fault,
        is_operand: false,
        place: chain_place(chain),
    }
}

/// A chain of which no operand was met.
pub fn no_operand() -> Chain
    ensures { result ≡ record { fault = None; stranger = None; are_operands = true; place = None } }
{
    Chain {
        fault: None,
        stranger: None,
        are_operands: true,
        place: None,
    }
}

/// A chain with one operand more.
pub fn with_operand(chain: &Chain, own: &Judged) -> Chain
    ensures { result ≡ record { fault = least chain.now.fault own.now.fault; stranger = least chain.now.stranger (first (fault_if (not own.now.is_operand) 14 own.now.place)); are_operands = chain.now.are_operands && own.now.is_operand; place = Some (or_place chain.now.place own.now.place) } }
{
    Chain {
        fault: earlier(chain.fault, own.fault),
        stranger: earlier(chain.stranger, when(!own.is_operand, 14, own.place)),
        are_operands: chain.are_operands && own.is_operand,
        place: Some(place_or(chain.place, own.place)),
    }
}
