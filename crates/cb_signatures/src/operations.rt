//! The operations of all machines as their callers know them.

ghost use Rattle.std.specs.Prelude.{◌≡◌, [], IfOk, OnOk, option_copied};
ghost use Rattle.cb_forms.specs.Find.{found, inside};
ghost use Rattle.cb_signatures.specs.Calls.{AreCallees, callee_among};
ghost use Rattle.cb_signatures.specs.Kept.{formed};
ghost use Rattle.cb_signatures.specs.Tables as spec;
ghost use Rattle.cb_text_laws.specs.Signatures.{assigned_after};
ghost use Rattle.cb_types.specs.MachineFaults.{inside_operation};

use crate::parameters::parameter_forms;
use crate::results::{assigned, result_forms};
use cb_forms::form::Form;
use cb_forms::table::Table;
use cb_judge::domain::Choice;
use cb_judge::names::{Entry, View};
use cb_lex::Memory;
use cb_lex::raw::text::{RawMachine, RawOperation};
use cb_types::declare::{domains, next_number};
use cb_types::machine::{declare_locals, view_inside};
use indexmap::IndexMap;
use sqlite_items::Items;
use std::alloc::{AllocError, Global};
use std::marker::Model;

/// An operation as a caller knows it.
#[derive(Drop)]
pub struct Signature {
    /// The machine's number, and the operation's own in it.
    pub machine: u32,
    pub operation: u32,
    pub parameters: Items<Form>,
    pub results: Items<Form>,
}

impl Model for Signature {
    ghost use Rattle.cb_text_laws.specs.Signatures.{Callee};

    ghost Value = { Callee };

    ghost view = { λ s. record { machine = s.machine; operation = s.operation; parameters = s.parameters; results = s.results } };
}

// The operations of a machine by their names.
#[derive(Drop)]
struct Own {
    operations: IndexMap<Vec<u8>, Signature>,
}

impl Model for Own {
    ghost use Rattle.std.specs.Prelude.{List, ℕ};
    ghost use Rattle.cb_text_laws.specs.Signatures.{Callee};

    ghost Value = { List (List ℕ × Callee) };

    ghost use Rattle.cb_forms.specs.View.{entries_of};

    ghost view = { λ o. entries_of o.operations.entries };
}

impl Own {
    fn new(alloc: Global) -> Own
        ensures { result ≡ [] }
    {
        Own {
            operations: IndexMap::new(alloc),
        }
    }

    fn find(&self, name: &[u8]) -> Option<&Signature>
        ensures { option_copied result ≡ found name.now self.now }
    {
        self.operations.get(name)
    }

    // Adds the operation, but keeps one of its name that is there.
    fn enter(&mut self, alloc: Global, name: &[u8], signature: Signature) -> Result<(), Memory>
        ensures { OnOk result (self.new ≡ inside name.now signature self.old) }
    {
        if self.find(name).is_some() {
            return Ok(());
        }
        let key = Vec::from_slice(alloc, name)?;
        self.operations.insert(key, signature)?;
        Ok(())
    }
}

/// The operations of all machines, by their names.
#[derive(Drop)]
pub struct Operations {
    machines: Items<Own>,
}

impl Model for Operations {
    ghost use Rattle.cb_signatures.specs.Calls.{Callees};

    ghost Value = { Callees };

    ghost view = { λ o. o.machines };
}

impl Operations {
    /// The operation of this name of the machine with this number.
    pub fn find(&self, machine: Option<u32>, name: &[u8]) -> Option<&Signature>
        ensures { option_copied result ≡ callee_among self.now machine name.now }
    {
        match machine {
            None => None,
            Some(number) => match self.machines.get(number as usize) {
                None => None,
                Some(own) => own.find(name),
            },
        }
    }
}

// What an operation assigns. The names outside are known; they end as they began.
fn inside_assigned(
    alloc: Global,
    view: &View,
    names: &mut Table<Entry>,
    domains: &Table<Choice>,
    operation: &RawOperation,
) -> Result<Table<Form>, Memory>
    ensures given { IfOk result (λ g. formed g ≡ assigned_after view.now (inside_operation domains.now operation.now names.old) [] operation.now.body) }
    ensures kept { OnOk result (names.new ≡ names.old) }
{
    let outside = names.len();
    declare_locals(alloc, names, domains, operation)?;
    let given = assigned(alloc, view, names, &operation.body)?;
    names.leave(outside);
    Ok(given)
}

fn describe(
    alloc: Global,
    view: &View,
    names: &mut Table<Entry>,
    machine: u32,
    number: u32,
    operation: &RawOperation,
) -> Result<Signature, Memory>
    ensures known { IfOk result (λ s. s ≡ spec.signature_of view.now names.old machine number operation.now) }
    ensures kept { OnOk result (names.new ≡ names.old) }
{
    let domains = domains(alloc, view, names, operation.precondition.as_ref())?;
    let given = inside_assigned(alloc, view, names, &domains, operation)?;
    let parameters = parameter_forms(alloc, &domains, operation.parameters.as_slice())?;
    let results = result_forms(alloc, &given, operation.results.as_slice())?;
    Ok(Signature {
        machine,
        operation: number,
        parameters,
        results,
    })
}

fn own_operations(
    alloc: Global,
    known: &Table<Entry>,
    names: &mut Table<Entry>,
    owner: u32,
    machine: &RawMachine,
) -> Result<Own, Memory>
    ensures table { IfOk result (λ o. o ≡ spec.own_operations known.now names.old owner machine.now) }
    ensures kept { OnOk result (names.new ≡ names.old) }
{
    let view = view_inside(alloc, known, owner, machine)?;
    let mut own = Own::new(alloc);
    let mut number = 0;
    for operation in machine.operations.as_slice() {
        let signature = describe(alloc, &view, names, owner, number, operation)?;
        own.enter(alloc, operation.name.text.as_slice(), signature)?;
        number = next_number(number);
    }
    Ok(own)
}

fn operations_of(
    alloc: Global,
    known: &Table<Entry>,
    names: &mut Table<Entry>,
    machines: &[RawMachine],
) -> Result<Operations, Memory>
    ensures table { IfOk result (λ os. os ≡ spec.operations_of known.now names.old 0 machines.now) }
    ensures kept { OnOk result (names.new ≡ names.old) }
{
    let mut all = Items::new(alloc);
    let mut owner = 0;
    for machine in machines {
        all.push(own_operations(alloc, known, names, owner, machine)?)?;
        owner = next_number(owner);
    }
    Ok(Operations { machines: all })
}

/// The operations of the machines, whose names are `known` where no variable is, and `names`. Of more machines than 32 bits count there
/// is no table.
pub fn all_operations(
    alloc: Global,
    known: &Table<Entry>,
    names: &mut Table<Entry>,
    machines: &[RawMachine],
) -> Result<Operations, Memory>
    ensures table { IfOk result (λ os. AreCallees known.now names.old machines.now os) }
    ensures kept { OnOk result (names.new ≡ names.old) }
{
    // A number of 32 bits tells a machine.
    if machines.len() > u32::MAX as usize {
        return Err(AllocError);
    }
    Ok(operations_of(alloc, known, names, machines)?)
}
