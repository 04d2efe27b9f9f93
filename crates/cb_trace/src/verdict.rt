//! Verdicts on obligations, and how they are printed.

ghost use Rattle.std.specs.Prelude.{◌≡◌, ◌++◌, IfOk, OnOk};
ghost use Rattle.cb_trace.specs.Texts as texts;

use crate::listing::{put, put_count, put_number, put_obligation};
use cb_seq::sequent::ObName;
use cb_term::Memory;
use std::alloc::Global;

/// What is found of an obligation.
#[derive(Clone, Copy, Debug, PartialEq, Eq)]
pub enum Verdict {
    /// Its proof derives it.
    Proved,
    /// It has no proof.
    Missing,
    /// Its proof fails at this node first, counted from 1 in preorder.
    Bad { node: u64 },
}

/// A line for each obligation, with its verdict, and then whether all are accepted.
pub fn verdict_text(alloc: Global, lines: &[(ObName, Verdict)]) -> Result<Vec<u8>, Memory>
    ensures { IfOk result (λ out. out.items ≡ texts.verdict_text lines.now) }
{
    let mut out = Vec::new(alloc);
    for line in lines {
        put_obligation(alloc, &mut out, &line.0)?;
        put_verdict(alloc, &mut out, line.1)?;
        put(&mut out, b"\n")?;
    }
    put_summary(alloc, &mut out, open_count(lines), lines.len() as u64)?;
    Ok(out)
}

/// How many obligations are not proved.
pub fn open_count(lines: &[(ObName, Verdict)]) -> u64
    ensures { result ≡ texts.open_count lines.now }
{
    let mut count = 0u64;
    for line in lines {
        if line.1 != Verdict::Proved {
            count += 1;
        }
    }
    count
}

fn put_verdict(alloc: Global, out: &mut Vec<u8>, verdict: Verdict) -> Result<(), Memory>
    ensures { OnOk result (out.new.items ≡ out.old.items ++ texts.verdict_word verdict) }
{
    match verdict {
        Verdict::Proved => put(out, b" proved"),
        Verdict::Missing => put(out, b" missing"),
        Verdict::Bad { node } => {
            put(out, b" bad ")?;
            put_number(alloc, out, node)
        }
    }
}

fn put_summary(alloc: Global, out: &mut Vec<u8>, refused: u64, all: u64) -> Result<(), Memory>
    ensures { OnOk result (out.new.items ≡ out.old.items ++ texts.summary refused all) }
{
    if refused == 0 {
        put(out, b"accepted: ")?;
    } else {
        put(out, b"refused: ")?;
        put_number(alloc, out, refused)?;
        put(out, b" of ")?;
    }
    put_count(alloc, out, all)
}
