//! Stores.

ghost use Rattle.std.specs.Prelude.{◌≡◌, [], Some, IsSome, IfOk, IfErr, OnOk, OnErr, ◌<◌, ◌≤◌, length};
ghost use Rattle.std.specs.Option.{option_copied};
ghost use Rattle.std.specs.List.{HoldsAt};
ghost use Rattle.std.specs.List.Sorted.{IsPartitionPoint};
ghost use Rattle.std.specs.declared.cmp.Ordering.TheVariants.{Less, Equal, Greater};
ghost use Rattle.cb_spec.specs.Stores.{found, look_of, Puts, name_order, IsAscending};

use cb_term::Memory;
use cb_term::name::Name;
use cb_term::value::Value;
use std::alloc::Global;
use std::cmp::Ordering;
use std::marker::Model;
use std::mem;

/// Names with values. A name that it lacks counts as the number 0. Contracts see the pairs in the order of their names.
#[derive(Debug, Drop)]
pub struct Store {
    entries: Vec<(Name, Value)>,
}

impl Model for Store {
    ghost use Rattle.cb_spec.specs.Stores.{Writes, IsAscending};

    ghost Value = { Writes };

    ghost view = { λ s. s.entries.items };

    ghost invariant = { λ s. IsAscending s.entries.items };
}

impl Store {
    /// The store without names.
    pub fn new(alloc: Global) -> Store
        ensures { result ≡ [] }
    {
        Store {
            entries: Vec::new(alloc),
        }
    }

    /// The pairs in the order of their names.
    pub fn entries(&self) -> &[(Name, Value)]
        ensures all { result.now ≡ self.now }
        ensures ascending { IsAscending self.now }
    {
        &self.entries
    }

    /// The name's value, if the store has the name.
    pub fn get(&self, name: &Name) -> Option<&Value>
        ensures { option_copied result ≡ found self.now name.now }
    {
        match place(&self.entries, name) {
            Ok(at) => Some(&self.entries[at].1),
            Err(_) => None,
        }
    }

    /// A copy of what the name stands for.
    pub fn value_at(&self, alloc: Global, name: &Name) -> Result<Value, Memory>
        ensures { IfOk result (λ v. v ≡ look_of self.now name.now) }
    {
        match self.get(name) {
            Some(value) => value.copy(alloc),
            None => Ok(Value::Int(0)),
        }
    }

    /// Gives the name this value. After want of memory the store is as before.
    pub fn insert(&mut self, name: Name, value: Value) -> Result<(), Memory>
        ensures ok { OnOk result (Puts self.old self.new name value) }
        ensures err { OnErr result (self.new ≡ self.old) }
    {
        match place(&self.entries, &name) {
            Ok(at) => {
                self.entries[at] = (name, value);
                Ok(())
            }
            Err(at) => Ok(self.entries.insert(at, (name, value))?),
        }
    }

    /// Gives a name that is there this value, and hands out the one that it had. It takes no memory.
    pub fn replace(&mut self, name: &Name, value: Value) -> Value
        requires { IsSome (found self.old name.now) }
        ensures new { Puts self.old self.new name.now value }
        ensures old { Some result ≡ found self.old name.now }
    {
        match place(&self.entries, name) {
            Ok(at) => mem::replace(&mut self.entries[at].1, value),
            Err(_) => unreachable!(),
        }
    }

    /// The same store again.
    pub fn copy(&self, alloc: Global) -> Result<Store, Memory>
        ensures { IfOk result (λ s. s ≡ self.now) }
    {
        let mut entries = Vec::new(alloc);
        for entry in &self.entries {
            entries.push((entry.0.copy(alloc)?, entry.1.copy(alloc)?))?;
        }
        Ok(Store { entries })
    }
}

// Which of the names comes first.
fn order(x: &Name, y: &Name) -> Ordering
    ensures { result ≡ name_order x.now y.now }
{
    x.text
        .as_slice()
        .cmp(y.text.as_slice())
        .then(x.number.cmp(&y.number))
}

// Where the name is, or where it would go.
fn place(entries: &[(Name, Value)], name: &Name) -> Result<usize, usize>
    requires { IsAscending entries.now }
    ensures within { IfOk result (λ i. i < length entries.now) }
    ensures here { IfOk result (HoldsAt (λ e. name_order e.0 name.now ≡ Equal) entries.now) }
    ensures no_further { IfErr result (λ i. i ≤ length entries.now) }
    ensures gap { IfErr result (IsPartitionPoint (λ e. name_order e.0 name.now ≡ Less) (λ e. name_order e.0 name.now ≡ Greater) entries.now) }
{
    entries.binary_search_by(|entry| order(&entry.0, name))
}
