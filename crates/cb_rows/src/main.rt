//! Runs the rows of standard input, and prints those that answer otherwise than they state, and how many there are.
//!
//! A row begins with `%% run WORDS`, the words of a command. `%% file NAME` begins a file of the row, whose lines follow, with no
//! line's end behind the last one; `%% times N PIECE` adds a piece to it so many times, with no line's end round it. `%% read N` makes
//! the Nth read fail, `%% write N` the Nth write on standard output, and `%% complain N` the Nth on standard error. `%% status N` begins
//! what is printed on standard output, and `%% err` what is printed on standard error; `%% cut` takes the end of the last line away.
//! There and in a file `%% each N LINE` stands for N lines, with the numbers from 1 to N for `@`.
#![tactic(auto)]

mod row;

use cb_edge::{MemFiles, MemSink, NoGate};
use cb_top::command;
use row::Row;
use std::alloc::Global;
use std::sync::Wait;
use std::thread::Threads;
use std::{io, str};

// Room for what a command of a row prints.
const ROOM: usize = 1 << 20;

// Whether the command answers what the row states. If not, this is printed.
fn agrees<R: Threads + Wait + Sync + Print>(rt: &R, alloc: Global, row: Row) -> io::Result<bool> {
    let mut files = MemFiles::new(alloc, row.files, row.reads)?;
    let mut out = MemSink::new(alloc, 64, row.writes);
    let mut err = MemSink::new(alloc, 64, row.complaints);
    out.reserve(ROOM)?;
    err.reserve(ROOM)?;
    let status = command(
        rt, alloc, &row.words, &mut files, &mut out, &mut err, &NoGate,
    );
    let holds = row.status == Some(status)
        && out.bytes() == row.out.as_slice()
        && err.bytes() == row.err.as_slice();
    if !holds {
        println!(rt; "line {}: status {status}", row.line)?;
        println!(rt; "{}{}", text_of(out.bytes()), text_of(err.bytes()))?;
    }
    Ok(holds)
}

fn text_of(bytes: &[u8]) -> &str {
    str::from_utf8(bytes).unwrap_or("bytes that are no text")
}

fn main(rt: HostRuntime) -> io::Result<()> {
    let alloc = rt.alloc();
    let text = io::read_to_string(alloc, rt.stdin())?;
    let mut rows = 0u64;
    let mut agreed = 0u64;
    let mut last: Option<Row> = None;
    let mut number = 0u64;
    for line in text.lines() {
        number = number.saturating_add(1);
        if let Some(words) = line.strip_prefix("%% run") {
            if let Some(row) = last.take() {
                rows = rows.saturating_add(1);
                agreed = agreed.saturating_add(u64::from(agrees(&rt, alloc, row)?));
            }
            last = Some(Row::new(alloc, number, words)?);
        } else if let Some(row) = &mut last {
            row.add(alloc, line)?;
        }
    }
    if let Some(row) = last {
        rows = rows.saturating_add(1);
        agreed = agreed.saturating_add(u64::from(agrees(&rt, alloc, row)?));
    }
    println!(rt; "{agreed} of {rows} rows as stated")
}
