//! Texts, machines, channels and controllers as they are written.

use crate::raw::domain::{RawLiteral, RawParam};
use crate::raw::event::RawCall;
use crate::raw::name::{RawName, RawNames};
use crate::raw::process::RawProcess;
use crate::raw::subst::RawSubst;
use crate::raw::term::RawFormula;
use sqlite_items::Items;

/// A text without its proofs.
#[derive(Drop)]
pub struct RawText {
    pub machines: Items<RawMachine>,
    /// What CHANNELS declares; with no CHANNELS there is none.
    pub channels: Items<RawChannel>,
    pub controllers: Items<RawController>,
    /// The names after SYSTEM; none in a text of machines alone, which has no channel and no controller.
    pub order: Option<RawNames>,
}

/// A machine. A part that is left out is empty.
#[derive(Drop)]
pub struct RawMachine {
    pub name: RawName,
    pub sees: RawNames,
    pub sets: Items<RawSet>,
    pub constants: RawNames,
    pub properties: Items<RawProperty>,
    pub state: Option<RawState>,
    pub operations: Items<RawOperation>,
}

/// An enumerated set, `name = {elements}`.
#[derive(Drop)]
pub struct RawSet {
    pub name: RawName,
    pub elements: RawNames,
}

/// What a constant is, `name = literal`.
#[derive(Drop)]
pub struct RawProperty {
    pub name: RawName,
    pub literal: RawLiteral,
}

/// VARIABLES, INVARIANT and INITIALISATION, which come together.
#[derive(Drop)]
pub struct RawState {
    pub variables: RawNames,
    pub invariant: RawFormula,
    pub initialisation: RawSubst,
}

/// An operation, `results <-- name(parameters) = PRE precondition THEN body END`.
#[derive(Drop)]
pub struct RawOperation {
    pub results: RawNames,
    pub name: RawName,
    pub parameters: RawNames,
    pub precondition: Option<RawFormula>,
    pub body: RawSubst,
}

/// A channel, `name(values) WHERE condition`.
#[derive(Drop)]
pub struct RawChannel {
    pub name: RawName,
    pub values: RawNames,
    pub condition: Option<RawFormula>,
}

/// A controller.
#[derive(Drop)]
pub struct RawController {
    pub name: RawName,
    pub machines: RawNames,
    /// The call after START.
    pub start: RawCall,
    pub definitions: Items<RawDefinition>,
}

/// A definition of a process, `name(parameters) INV (invariant) = process`.
#[derive(Drop)]
pub struct RawDefinition {
    pub name: RawName,
    pub parameters: Items<RawParam>,
    pub invariant: Option<RawFormula>,
    pub process: RawProcess,
}
