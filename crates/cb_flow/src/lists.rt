//! Lists of machines and of controllers: which machine stands in which list, and who is left out.

ghost use Rattle.std.specs.Prelude.{◌≡◌, [], IfOk, OnOk, is_none};
ghost use Rattle.cb_forms.specs.Faults.{Both, fault_if, first};
ghost use Rattle.cb_forms.specs.Find.{found};
ghost use Rattle.cb_types.specs.Declares.{machine_number, with_owner, sees_from, variables_of};
ghost use Rattle.cb_types.specs.MachineFaults.{again, with_seen};
ghost use Rattle.cb_text_laws.specs.TextNames.{controller_number, order_from};
ghost use Rattle.cb_text_laws.specs.UseFaults as spec;

use cb_forms::fault::{Fault, earlier, when};
use cb_forms::owners::Owners;
use cb_forms::table::Table;
use cb_judge::names::{Entry, Meaning};
use cb_lex::Memory;
use cb_lex::raw::name::RawName;
use cb_lex::raw::text::{RawController, RawMachine, RawText};
use cb_lex::token::Place;
use cb_types::declare::next_number;
use cb_types::tables::{machine_of, variables};
use std::alloc::Global;

/// The number of the controller that a name is.
pub fn controller_of(entry: Option<Entry>) -> Option<u32>
    ensures { result ≡ controller_number entry }
{
    match entry {
        Some(
            Entry {
                meaning: Meaning::Controller(k),
                place: _,
            },
        ) => Some(k),
        _ => None,
    }
}

// The fault of a name that stands in its list already. The name is noted.
fn repeated(alloc: Global, seen: &mut Table<Place>, name: &RawName) -> Result<Option<Fault>, Memory>
    ensures fault { IfOk result (λ f. f ≡ first (again seen.old name.now)) }
    ensures seen { OnOk result (seen.new ≡ with_seen name.now seen.old) }
{
    let text = name.text.as_slice();
    let fault = when(seen.find(text).is_some(), 1, name.place);
    seen.enter(alloc, text, name.place)?;
    Ok(fault)
}

fn add(numbers: &mut Owners, number: Option<u32>) -> Result<(), Memory>
    ensures { OnOk result (numbers.new ≡ with_owner number numbers.old) }
{
    match number {
        None => Ok(()),
        Some(k) => Ok(numbers.add(k)?),
    }
}

// The fault of a machine that stands in an earlier list.
fn owned_before(owned: &Owners, number: Option<u32>, place: Place) -> Option<Fault>
    ensures { result ≡ first (spec.owned_fault owned.now number place) }
{
    match number {
        None => None,
        Some(k) => when(owned.has(k), 20, place),
    }
}

// The faults of one name in a list of machines.
fn judge_machine(
    alloc: Global,
    names: &Table<Entry>,
    seen: &mut Table<Place>,
    owned: &Owners,
    name: &RawName,
) -> Result<Option<Fault>, Memory>
    ensures fault { IfOk result (λ f. f ≡ first (Both (again seen.old name.now) (Both (fault_if (is_none (machine_number (found name.now.text names.now))) 2 name.now.place) (spec.owned_fault owned.now (machine_number (found name.now.text names.now)) name.now.place)))) }
    ensures seen { OnOk result (seen.new ≡ with_seen name.now seen.old) }
{
    let twice = repeated(alloc, seen, name)?;
    let number = machine_of(names.find(name.text.as_slice()));
    let unknown = when(number.is_none(), 2, name.place);
    let owned = owned_before(owned, number, name.place);
    Ok(earlier(twice, earlier(unknown, owned)))
}

// The faults of a list of machines, which are owned then.
fn judge_machines(
    alloc: Global,
    names: &Table<Entry>,
    owned: &mut Owners,
    machines: &[RawName],
) -> Result<Option<Fault>, Memory>
    ensures fault { IfOk result (λ f. f ≡ first (spec.machine_list_fault names.now [] owned.old machines.now)) }
    ensures owned { OnOk result (owned.new ≡ sees_from names.now owned.old machines.now) }
{
    let mut fault = None;
    let mut seen = Table::new(alloc);
    for name in machines {
        let own = judge_machine(alloc, names, &mut seen, owned, name)?;
        fault = earlier(fault, own);
        add(owned, machine_of(names.find(name.text.as_slice())))?;
    }
    Ok(fault)
}

// The faults of the lists of machines of all controllers.
fn judge_lists(
    alloc: Global,
    names: &Table<Entry>,
    owned: &mut Owners,
    controllers: &[RawController],
) -> Result<Option<Fault>, Memory>
    ensures fault { IfOk result (λ f. f ≡ first (spec.machine_lists_fault names.now owned.old controllers.now)) }
    ensures owned { OnOk result (owned.new ≡ spec.owned_from names.now owned.old controllers.now) }
{
    let mut fault = None;
    for controller in controllers {
        let own = judge_machines(alloc, names, owned, controller.machines.as_slice())?;
        fault = earlier(fault, own);
    }
    Ok(fault)
}

// The faults of one name after SYSTEM.
fn judge_listed(
    alloc: Global,
    names: &Table<Entry>,
    seen: &mut Table<Place>,
    name: &RawName,
) -> Result<Option<Fault>, Memory>
    ensures fault { IfOk result (λ f. f ≡ first (Both (again seen.old name.now) (fault_if (is_none (controller_number (found name.now.text names.now))) 2 name.now.place))) }
    ensures seen { OnOk result (seen.new ≡ with_seen name.now seen.old) }
{
    let twice = repeated(alloc, seen, name)?;
    let number = controller_of(names.find(name.text.as_slice()));
    Ok(earlier(twice, when(number.is_none(), 2, name.place)))
}

// The faults of the names after SYSTEM. The controllers that they are come into the order.
fn judge_order(
    alloc: Global,
    names: &Table<Entry>,
    order: &mut Owners,
    list: &[RawName],
) -> Result<Option<Fault>, Memory>
    ensures fault { IfOk result (λ f. f ≡ first (spec.order_fault names.now [] list.now)) }
    ensures order { OnOk result (order.new ≡ order_from names.now order.old list.now) }
{
    let mut fault = None;
    let mut seen = Table::new(alloc);
    for name in list {
        let own = judge_listed(alloc, names, &mut seen, name)?;
        fault = earlier(fault, own);
        add(order, controller_of(names.find(name.text.as_slice())))?;
    }
    Ok(fault)
}

// A controller that is not listed.
fn unlisted(order: &Owners, controllers: &[RawController]) -> Option<Fault>
    ensures { result ≡ first (spec.unlisted_fault order.now 0 controllers.now) }
{
    let mut fault = None;
    let mut number = 0;
    for controller in controllers {
        fault = earlier(fault, when(!order.has(number), 2, controller.name.place));
        number = next_number(number);
    }
    fault
}

fn names_any(list: &[RawName]) -> bool
    ensures { result ≡ spec.has_names list.now }
{
    !list.is_empty()
}

// A machine with variables that is in no list.
fn unowned(owned: &Owners, machines: &[RawMachine]) -> Option<Fault>
    ensures { result ≡ first (spec.unowned_fault owned.now 0 machines.now) }
{
    let mut fault = None;
    let mut number = 0;
    for machine in machines {
        let alone = names_any(variables(&machine.state)) && !owned.has(number);
        fault = earlier(fault, when(alone, 21, machine.name.place));
        number = next_number(number);
    }
    fault
}

// The faults of the names after SYSTEM, and of a controller that is none of them.
fn judge_listing(
    alloc: Global,
    names: &Table<Entry>,
    controllers: &[RawController],
    list: &[RawName],
) -> Result<Option<Fault>, Memory>
    ensures { IfOk result (λ f. f ≡ first (Both (spec.order_fault names.now [] list.now) (spec.unlisted_fault (order_from names.now [] list.now) 0 controllers.now))) }
{
    let mut order = Owners::new(alloc);
    let listed = judge_order(alloc, names, &mut order, list)?;
    Ok(earlier(listed, unlisted(&order, controllers)))
}

// The faults of SYSTEM, where these machines are owned.
fn judge_system(
    alloc: Global,
    names: &Table<Entry>,
    owned: &Owners,
    text: &RawText,
) -> Result<Option<Fault>, Memory>
    requires { owned.now ≡ spec.owned_from names.now [] text.now.controllers }
    ensures { IfOk result (λ f. f ≡ first (spec.system_fault names.now text.now.machines text.now.controllers text.now.order)) }
{
    match &text.order {
        None => Ok(None),
        Some(list) => {
            let controllers = text.controllers.as_slice();
            let listing = judge_listing(alloc, names, controllers, list.as_slice())?;
            Ok(earlier(listing, unowned(owned, text.machines.as_slice())))
        }
    }
}

/// The first fault of the lists of machines and of SYSTEM: a name that stands twice or of nothing that belongs there, a machine in two
/// lists, a controller that is not listed, a machine with variables in no list.
pub fn lists_fault(
    alloc: Global,
    names: &Table<Entry>,
    text: &RawText,
) -> Result<Option<Fault>, Memory>
    ensures { IfOk result (λ f. f ≡ first (Both (spec.machine_lists_fault names.now [] text.now.controllers) (spec.system_fault names.now text.now.machines text.now.controllers text.now.order))) }
{
    let mut owned = Owners::new(alloc);
    let lists = judge_lists(alloc, names, &mut owned, text.controllers.as_slice())?;
    let system = judge_system(alloc, names, &owned, text)?;
    Ok(earlier(lists, system))
}
