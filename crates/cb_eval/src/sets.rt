//! Finite sets as ascending slices of numbers.

ghost use Rattle.std.specs.Prelude.{◌≡◌, ◌+ℤ◌, ◌≤ℤ◌, ◌^◌, pos, length, IfOk, OnOk};
ghost use Rattle.cb_term.specs.Sets as spec;
ghost use Rattle.cb_term.specs.Sets.{IsAscending};

use cb_term::Memory;
use std::alloc::Global;

/// Whether the set has the number.
pub fn contains(items: &[i128], x: i128) -> bool
    requires { IsAscending items.now }
    ensures { result ≡ spec.has items.now x }
{
    items.binary_search(&x).is_ok()
}

/// Whether the sets have the same items.
pub fn are_same(xs: &[i128], ys: &[i128]) -> bool
    ensures { result ≡ spec.same_items xs.now ys.now }
{
    if xs.len() != ys.len() {
        return false;
    }
    for (i, x) in xs.iter().enumerate() {
        if *x != ys[i] {
            return false;
        }
    }
    true
}

/// Whether the second set has each item of the first.
pub fn is_subset(xs: &[i128], ys: &[i128]) -> bool
    requires { IsAscending ys.now }
    ensures { result ≡ spec.is_subset xs.now ys.now }
{
    for x in xs {
        if !contains(ys, *x) {
            return false;
        }
    }
    true
}

/// The set with the number in its place.
pub fn insert(items: &mut Vec<i128>, x: i128) -> Result<(), Memory>
    requires { IsAscending items.old.items }
    ensures set { OnOk result (items.new.items ≡ spec.insert x items.old.items) }
    ensures ascending { OnOk result (IsAscending items.new.items) }
{
    match items.binary_search(&x) {
        Ok(_at) => Ok(()),
        Err(at) => Ok(items.insert(at, x)?),
    }
}

/// The items that both sets have.
pub fn intersection(alloc: Global, xs: &[i128], ys: &[i128]) -> Result<Vec<i128>, Memory>
    requires first { IsAscending xs.now }
    requires second { IsAscending ys.now }
    ensures set { IfOk result (λ zs. zs.items ≡ spec.intersection xs.now ys.now) }
    ensures ascending { IfOk result (λ zs. IsAscending zs.items) }
{
    let mut both = Vec::new(alloc);
    for x in xs {
        if contains(ys, *x) {
            both.push(*x)?;
        }
    }
    Ok(both)
}

/// The items of the first set that the second lacks.
pub fn difference(alloc: Global, xs: &[i128], ys: &[i128]) -> Result<Vec<i128>, Memory>
    requires first { IsAscending xs.now }
    requires second { IsAscending ys.now }
    ensures set { IfOk result (λ zs. zs.items ≡ spec.difference xs.now ys.now) }
    ensures ascending { IfOk result (λ zs. IsAscending zs.items) }
{
    let mut rest = Vec::new(alloc);
    for x in xs {
        if contains(ys, *x) {
            continue;
        }
        rest.push(*x)?;
    }
    Ok(rest)
}

/// The items of either set.
pub fn union(alloc: Global, xs: &[i128], ys: &[i128]) -> Result<Vec<i128>, Memory>
    requires { IsAscending ys.now }
    ensures set { IfOk result (λ zs. zs.items ≡ spec.union xs.now ys.now) }
    ensures ascending { IfOk result (λ zs. IsAscending zs.items) }
{
    let mut all = Vec::from_slice(alloc, ys)?;
    let mut left = xs.len();
    while left > 0 {
        left -= 1;
        insert(&mut all, xs[left])?;
    }
    Ok(all)
}

/// The numbers from `first` on, so many.
pub fn upwards(alloc: Global, first: i128, count: usize) -> Result<Vec<i128>, Memory>
    requires { (first +ℤ pos count) ≤ℤ pos (2 ^ 127) }
    ensures set { IfOk result (λ xs. xs.items ≡ spec.upwards first count) }
    ensures ascending { IfOk result (λ xs. IsAscending xs.items) }
{
    let mut items = Vec::new(alloc);
    for i in 0..count {
        items.push(first + i as i128)?;
    }
    Ok(items)
}
