//! What is known outside of machines.

ghost use Rattle.std.specs.Prelude.{◌≡◌, [], IfOk, OnOk};
ghost use Rattle.cb_text_laws.specs.TextNames as spec;
ghost use Rattle.cb_types.specs.Declares.{with_owner};

use cb_forms::owners::Owners;
use cb_forms::table::Table;
use cb_judge::names::{Entry, View};
use cb_lex::Memory;
use cb_lex::raw::text::{RawController, RawMachine};
use cb_types::declare::next_number;
use cb_types::tables::machine_of;
use std::alloc::Global;

fn all_numbers(alloc: Global, machines: &[RawMachine]) -> Result<Owners, Memory>
    ensures { IfOk result (λ ks. ks ≡ spec.numbers_of 0 [] machines.now) }
{
    let mut numbers = Owners::new(alloc);
    let mut number = 0;
    for _machine in machines {
        numbers.add(number)?;
        number = next_number(number);
    }
    Ok(numbers)
}

// What is known outside of machines where the variables of these are read.
fn view_with(alloc: Global, reads: Owners, machines: &[RawMachine]) -> Result<View, Memory>
    ensures { IfOk result (λ v. v ≡ spec.view_with reads machines.now) }
{
    let sees = all_numbers(alloc, machines)?;
    Ok(View {
        machine: 0,
        sees,
        reads,
    })
}

/// What is known outside of machines where no variable may be read.
pub fn outer_view(alloc: Global, machines: &[RawMachine]) -> Result<View, Memory>
    ensures { IfOk result (λ v. v ≡ spec.outer_view machines.now) }
{
    view_with(alloc, Owners::new(alloc), machines)
}

fn add(numbers: &mut Owners, number: Option<u32>) -> Result<(), Memory>
    ensures { OnOk result (numbers.new ≡ with_owner number numbers.old) }
{
    match number {
        None => Ok(()),
        Some(k) => Ok(numbers.add(k)?),
    }
}

// The numbers of the machines that a controller calls.
fn own_machines(
    alloc: Global,
    names: &Table<Entry>,
    controller: &RawController,
) -> Result<Owners, Memory>
    ensures { IfOk result (λ ks. ks ≡ spec.own_machines names.now controller.now) }
{
    let mut numbers = Owners::new(alloc);
    for name in controller.machines.as_slice() {
        add(&mut numbers, machine_of(names.find(name.text.as_slice())))?;
    }
    Ok(numbers)
}

/// What is known outside of machines where the variables of the controller's machines may be read.
pub fn controller_view(
    alloc: Global,
    names: &Table<Entry>,
    machines: &[RawMachine],
    controller: &RawController,
) -> Result<View, Memory>
    ensures { IfOk result (λ v. v ≡ spec.view_with (spec.own_machines names.now controller.now) machines.now) }
{
    let own = own_machines(alloc, names, controller)?;
    view_with(alloc, own, machines)
}
