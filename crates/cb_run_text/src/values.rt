//! Values, printed by their kinds.

ghost use Rattle.std.specs.Prelude.{◌≡◌, ◌++◌, true, not, codes, slice_get, IfOk, OnOk, map};
ghost use Rattle.std.specs.Option.{option_copied};
ghost use Rattle.std.specs.Fmt.{signed_decimal};
ghost use Rattle.cb_term.specs.Text.{only_if, element_text, found_text};
ghost use Rattle.cb_run_text.specs.Traces as texts;

use cb_spec::system::Declared;
use cb_term::Memory;
use cb_term::kind::{Base, Kind};
use cb_term::name::Name;
use cb_term::table::SetTable;
use cb_term::text::{put_element, put_name};
use cb_term::value::Value;
use cb_wp::branches::kind_of;
use sqlite_items::{Items, at};
use std::alloc::Global;

/// Appends a value of this kind. An element of another kind, or one that the table lacks, prints nothing.
pub fn put_value(
    alloc: Global,
    out: &mut Vec<u8>,
    sets: &SetTable,
    kind: Kind,
    value: &Value,
) -> Result<(), Memory>
    ensures { OnOk result (out.new.items ≡ out.old.items ++ texts.value_text sets.now.sets.items kind value.now) }
{
    match value {
        Value::Int(number) => put_number(alloc, out, *number),
        Value::Truth(truth) => put_truth(out, *truth),
        Value::Elem(place) => match kind {
            Kind::Elem(set) => put_element(alloc, out, sets, set, *place),
            Kind::Integer | Kind::Truth | Kind::SetOf(_) | Kind::EmptySet => Ok(()),
        },
        Value::Set(items) => {
            put(out, b"{")?;
            put_items(alloc, out, sets, base_of(kind), items.as_slice())?;
            put(out, b"}")
        }
    }
}

/// Appends the values of these kinds, with commas between them.
pub fn put_values(
    alloc: Global,
    out: &mut Vec<u8>,
    sets: &SetTable,
    kinds: &[Kind],
    values: &[Value],
) -> Result<(), Memory>
    ensures { OnOk result (out.new.items ≡ out.old.items ++ texts.values_text sets.now.sets.items true kinds.now values.now) }
{
    let mut first = true;
    for i in 0..kinds.len().min(values.len()) {
        put_comma(out, first)?;
        put_value(alloc, out, sets, kinds[i], &values[i])?;
        first = false;
    }
    Ok(())
}

/// The kinds of declared names.
pub fn kinds_of(alloc: Global, declared: &[Declared]) -> Result<Items<Kind>, Memory>
    ensures { IfOk result (λ ks. ks ≡ texts.kinds_of declared.now) }
{
    let mut kinds = Items::new(alloc);
    for one in declared {
        kinds.push(kind_of(one.domain))?;
    }
    Ok(kinds)
}

/// The kinds of results.
pub fn result_kinds(alloc: Global, results: &[(Name, Kind)]) -> Result<Items<Kind>, Memory>
    ensures { IfOk result (λ ks. ks ≡ map (λ r. r.1) results.now) }
{
    let mut kinds = Items::new(alloc);
    for result in results {
        kinds.push(result.1)?;
    }
    Ok(kinds)
}

fn base_of(kind: Kind) -> Base
    ensures { result ≡ texts.base_of kind }
{
    match kind {
        Kind::SetOf(base) => base,
        Kind::Integer | Kind::Truth | Kind::Elem(_) | Kind::EmptySet => Base::Integer,
    }
}

fn put_items(
    alloc: Global,
    out: &mut Vec<u8>,
    sets: &SetTable,
    base: Base,
    items: &[i64],
) -> Result<(), Memory>
    ensures { OnOk result (out.new.items ≡ out.old.items ++ texts.items_text sets.now.sets.items base true items.now) }
{
    let mut first = true;
    for i in 0..items.len() {
        put_comma(out, first)?;
        put_item(alloc, out, sets, base, items[i])?;
        first = false;
    }
    Ok(())
}

fn put_item(
    alloc: Global,
    out: &mut Vec<u8>,
    sets: &SetTable,
    base: Base,
    item: i64,
) -> Result<(), Memory>
    ensures { OnOk result (out.new.items ≡ out.old.items ++ texts.item_text sets.now.sets.items base item) }
{
    match base {
        Base::Integer => put_number(alloc, out, item),
        Base::Truth => put_truth(out, item == 1),
        Base::Elem(set) => put_place(alloc, out, sets, set, item),
    }
}

// An item of a set of elements, which is the place of one.
fn put_place(
    alloc: Global,
    out: &mut Vec<u8>,
    sets: &SetTable,
    set: u32,
    place: i64,
) -> Result<(), Memory>
    ensures { OnOk result (out.new.items ≡ out.old.items ++ element_text (slice_get sets.now.sets.items set) (texts.place_of place)) }
{
    match at(sets.sets.as_slice(), set as usize) {
        Some(set) => put_found(alloc, out, set.elements.get(place.max(0) as usize)),
        None => Ok(()),
    }
}

fn put_found(alloc: Global, out: &mut Vec<u8>, found: Option<&Name>) -> Result<(), Memory>
    ensures { OnOk result (out.new.items ≡ out.old.items ++ found_text (option_copied found.entry)) }
{
    match found {
        Some(name) => put_name(alloc, out, name),
        None => Ok(()),
    }
}

fn put_truth(out: &mut Vec<u8>, truth: bool) -> Result<(), Memory>
    ensures { OnOk result (out.new.items ≡ out.old.items ++ texts.truth_text truth) }
{
    if truth {
        put(out, b"TRUE")
    } else {
        put(out, b"FALSE")
    }
}

fn put_comma(out: &mut Vec<u8>, first: bool) -> Result<(), Memory>
    ensures { OnOk result (out.new.items ≡ out.old.items ++ only_if (not first) (codes ", ")) }
{
    if first { Ok(()) } else { put(out, b", ") }
}

fn put_number(alloc: Global, out: &mut Vec<u8>, number: i64) -> Result<(), Memory>
    ensures { OnOk result (out.new.items ≡ out.old.items ++ signed_decimal number) }
{
    let digits = number.to_string(alloc)?;
    put(out, digits.as_bytes())
}

pub(crate) fn put(out: &mut Vec<u8>, bytes: &[u8]) -> Result<(), Memory>
    ensures { OnOk result (out.new.items ≡ out.old.items ++ bytes.now) }
{
    out.extend_from_slice(bytes)?;
    Ok(())
}
