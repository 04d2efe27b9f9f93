//! A system: its machines, channels and controllers, in the form in which constants stand as their numbers.

use crate::process::Process;
use crate::subst::Subst;
use cb_term::kind::{Domain, Kind};
use cb_term::name::Name;
use cb_term::table::SetTable;
use cb_term::tree::{Formula, Terms};
use sqlite_items::Items;

/// A name with its domain.
#[derive(Drop)]
pub struct Declared {
    pub name: Name,
    pub domain: Domain,
}

/// A machine. The invariant gives each variable its domain by its first typing conjunct.
#[derive(Drop)]
pub struct Machine {
    pub name: Name,
    pub variables: Items<Declared>,
    pub invariant: Formula,
    pub init: Subst,
    pub operations: Items<Operation>,
}

/// An operation. Outside its precondition it may do anything.
#[derive(Drop)]
pub struct Operation {
    pub name: Name,
    pub params: Items<Declared>,
    /// The results in order, each with the kind of what is assigned to it.
    pub results: Items<(Name, Kind)>,
    pub pre: Formula,
    pub body: Subst,
}

/// A channel. Controllers are told by their numbers; where none sends or receives, the number is that of all controllers.
#[derive(Drop)]
pub struct Channel {
    pub name: Name,
    pub values: Items<Declared>,
    /// What is true of the values that are passed.
    pub assertion: Formula,
    pub sender: u32,
    pub receiver: u32,
}

/// A definition of a controller. The invariant is over its parameters and the variables of the controller's machines.
#[derive(Drop)]
pub struct Definition {
    pub name: Name,
    pub params: Items<Declared>,
    pub invariant: Formula,
    pub body: Process,
}

/// A controller: the machines that it alone calls, and its definitions, of which it starts with one.
#[derive(Drop)]
pub struct Controller {
    pub name: Name,
    pub machines: Items<u32>,
    pub start: u32,
    pub start_args: Terms,
    pub definitions: Items<Definition>,
}

/// A system. Machines, channels and sets are told by their places here.
#[derive(Drop)]
pub struct System {
    pub sets: SetTable,
    /// Each constant of the text with its number, in text order.
    pub constants: Items<(Name, i64)>,
    pub machines: Items<Machine>,
    pub channels: Items<Channel>,
    /// In text order.
    pub controllers: Items<Controller>,
    /// For each number of a controller, its place in `controllers`.
    pub order: Items<u32>,
}
