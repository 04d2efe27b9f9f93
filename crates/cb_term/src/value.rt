//! Values of terms.

ghost use Rattle.std.specs.Prelude.{◌≡◌, IfOk};

use crate::Memory;
use sqlite_items::Items;
use std::alloc::Global;

/// A value. The code has numbers of 64 bits; definitions take any whole number.
#[derive(Debug, Drop)]
pub enum Value {
    Int(i64),
    Truth(bool),
    /// An element, by its place in its set.
    Elem(u32),
    /// A finite set: its items in ascending order, each once. Items are numbers, 0 and 1 for FALSE and TRUE, or places of elements.
    Set(Items<i64>),
}

impl Value {
    /// The same value again.
    pub fn copy(&self, alloc: Global) -> Result<Value, Memory>
        ensures { IfOk result (λ v. v ≡ self.now) }
    {
        match self {
            Value::Int(x) => Ok(Value::Int(*x)),
            Value::Truth(b) => Ok(Value::Truth(*b)),
            Value::Elem(k) => Ok(Value::Elem(*k)),
            Value::Set(items) => Ok(Value::Set(Items::from_slice(alloc, items.as_slice())?)),
        }
    }
}
