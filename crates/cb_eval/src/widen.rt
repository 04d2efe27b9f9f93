//! Values as wide values, and wide values as values.

ghost use Rattle.std.specs.Prelude.{◌≡◌, ◌+ℤ◌, pos, Some, None, IfOk, length, nat_le, ◌&&◌, if◌then◌else◌};
ghost use Rattle.cb_eval.specs.Evaluation.{is_ascending, given};

use crate::signs::MOST_ITEMS;
use crate::wide::{Wide, WideNode};
use cb_term::Memory;
use cb_term::value::Value;
use sqlite_items::Items;
use std::alloc::{AllocError, Global};

// Whether each number is below the next.
fn ascends(items: &[i64]) -> bool
    ensures { result ≡ is_ascending items.now }
{
    for at in 1..items.len() {
        if items[at - 1] >= items[at] {
            return false;
        }
    }
    true
}

/// The value as a wide one. None where its items don't ascend or are more than 256.
pub fn widened(alloc: Global, value: &Value) -> Result<Option<Wide>, Memory>
    ensures { IfOk result (λ o. o ≡ given value.now) }
{
    match value {
        Value::Int(x) => Ok(Some(Wide::int(i128::from(*x)))),
        Value::Truth(b) => Ok(Some(Wide::truth(*b))),
        Value::Elem(k) => Ok(Some(Wide::elem(*k))),
        Value::Set(items) => {
            let items = items.as_slice();
            if !ascends(items) || items.len() > MOST_ITEMS {
                return Ok(None);
            }
            let mut wide = Vec::new(alloc);
            for item in items {
                wide.push(i128::from(*item))?;
            }
            Ok(Some(Wide::set(wide)))
        }
    }
}

/// The wide value as a value. Its numbers have 64 bits where names are known; one that hasn't is told as want of memory.
pub fn narrowed(alloc: Global, wide: &Wide) -> Result<Value, Memory>
    ensures { IfOk result (λ v. v ≡ wide.now) }
{
    match &wide.node {
        WideNode::Int(x) => Ok(Value::Int(number(*x)?)),
        WideNode::Truth(b) => Ok(Value::Truth(*b)),
        WideNode::Elem(k) => Ok(Value::Elem(*k)),
        WideNode::Set(items) => {
            let mut narrow = Items::new(alloc);
            for item in items.as_slice() {
                narrow.push(number(*item)?)?;
            }
            Ok(Value::Set(narrow))
        }
    }
}

fn number(x: i128) -> Result<i64, Memory>
    ensures { IfOk result (λ n. n ≡ x) }
{
    match i64::try_from(x) {
        Ok(n) => Ok(n),
        Err(_wide) => Err(AllocError),
    }
}
