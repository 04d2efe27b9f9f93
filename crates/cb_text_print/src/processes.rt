//! Printing processes.

ghost use Rattle.std.specs.Prelude.{◌≡◌, ◌++◌, OnOk, true};
ghost use Rattle.cb_lex.specs.RawProcessTree.{raw_processes};
ghost use Rattle.cb_amn_print.specs.Tokens.{wrapped};
ghost use Rattle.cb_text_print.specs.Processes as text;

use crate::Memory;
use crate::events::{put_call, put_event};
use cb_amn_print::{put, put_formula, put_if};
use cb_lex::raw::process::{RawProcess, RawProcessNode};
use std::alloc::Global;

// a process, as an operand of a chain or behind an event if it is `inner`
#[cycle(process)]
pub(crate) fn put_process(
    alloc: Global,
    out: &mut Vec<u8>,
    inner: bool,
    process: &RawProcess,
) -> Result<(), Memory>
    ensures { OnOk result (out.new.items ≡ out.old.items ++ text.process_text inner process.now) }
{
    match &process.node {
        RawProcessNode::Stop(_) => put(out, b"STOP "),
        RawProcessNode::Skip(_) => put(out, b"SKIP "),
        RawProcessNode::Call(call) => put_call(alloc, out, call),
        RawProcessNode::If {
            condition,
            then,
            otherwise,
            ..
        } => {
            put(out, b"IF ")?;
            put_formula(alloc, out, false, condition)?;
            put(out, b"THEN ")?;
            put_process(alloc, out, false, then)?;
            put(out, b"ELSE ")?;
            put_process(alloc, out, false, otherwise)?;
            put(out, b"END ")
        }
        RawProcessNode::Prefix { event, process } => {
            put_event(alloc, out, event)?;
            put(out, b"-> ")?;
            put_process(alloc, out, true, process)
        }
        RawProcessNode::External(operands) => {
            put_chain(alloc, out, inner, b"[] ", operands.as_slice())
        }
        RawProcessNode::Internal(operands) => {
            put_chain(alloc, out, inner, b"|~| ", operands.as_slice())
        }
    }
}

// the operands with the sign between them, in parentheses if the chain is `inner`
#[cycle(process)]
fn put_chain(
    alloc: Global,
    out: &mut Vec<u8>,
    inner: bool,
    sign: &[u8],
    operands: &[RawProcess],
) -> Result<(), Memory>
    ensures { OnOk result (out.new.items ≡ out.old.items ++ wrapped inner (text.chain_text sign.now true (raw_processes operands.now))) }
{
    put_if(out, inner, b"( ")?;
    let mut first = true;
    for operand in operands {
        put_if(out, !first, sign)?;
        put_process(alloc, out, true, operand)?;
        first = false;
    }
    put_if(out, inner, b") ")
}
