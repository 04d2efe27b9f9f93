//! Files and a sink in memory, for tests.
ghost use Rattle.std.specs.Prelude.{Some, ◌≡◌, ℕ, ◌+◌, ◌-◌, ◌<◌, ◌≤◌, List, length, min, vec_len, vec_capacity, IfOk, OnOk, OnErr, is_err};
ghost use Rattle.std.specs.Io.KnownBytes.{WriteAppends};
ghost use Rattle.cb_edge.specs.Edge.{ReadsFrom, ReadsHeld, NoneFalls, HasCause, CountsErrors, StaysSure, KeepsRoom};
ghost use Rattle.cb_edge.specs.Places.{place_in};

use crate::edge::{Failed, Files, Memory, Sink};
use std::alloc::{AllocError, Global};

/// Files that are lists of bytes, and calls of `read_at` that fail.
///
/// The calls are counted from 1, whatever their name and whether they fail or not. A read of a name that isn't
/// there fails. Each entry has a count of faults of its own, and all other names share one. The first entry of a
/// name is its file. No read takes memory.
#[derive(Drop)]
pub struct MemFiles {
    entries: Vec<(String, Vec<u8>)>,
    failing: Vec<u64>,
    counts: Vec<u64>,
    unknown: u64,
    calls: u64,
    ghost counted: { vec_len counts ≡ vec_len entries },
}

impl MemFiles {
    ghost use Rattle.cb_edge.specs.Memory.{IsFresh};

    /// The files with these names and bytes; the calls with the numbers in `failing` fail.
    ///
    /// # Errors
    ///
    /// `Memory`. Then both lists are dropped.
    pub fn new(
        alloc: Global,
        entries: Vec<(String, Vec<u8>)>,
        failing: Vec<u64>,
    ) -> Result<MemFiles, Memory>
        ensures { IfOk result (λ f. IsFresh f entries.items failing.items) }
    {
        let counts = vec![in alloc; 0; entries.len()]?;
        Ok(MemFiles {
            entries,
            failing,
            counts,
            unknown: 0,
            calls: 0,
        })
    }
}

// The place of the first entry with this name.
fn place_of(entries: &[(String, Vec<u8>)], name: &str) -> Option<usize>
    ensures { result ≡ place_in entries.now name.now }
{
    entries.iter().position(|entry| entry.0.as_str() == name)
}

// Copies the bytes from a place on, as many as there are and as the buffer takes.
fn copy_from(bytes: &[u8], at: u64, buf: &mut [u8]) -> usize
    requires { 0 < length buf.old }
    ensures count { result ≡ min (length bytes.now - at) (length buf.new) }
    ensures copied { ReadsFrom bytes.now at result buf.new }
{
    let len = bytes.len() as u64;
    if at >= len {
        return 0;
    }
    let rest = &bytes[at as usize..];
    let count = rest.len().min(buf.len());
    buf[..count].copy_from_slice(&rest[..count]);
    count
}

impl Files for MemFiles {
    ghost use Rattle.cb_edge.specs.Memory.{held_by, count_by, fails_next, takes_next, NextCall, CountsFault, IsSure};

    ghost held = { held_by };

    ghost faults = { count_by };

    ghost sure = { IsSure };

    fn read_at(&mut self, name: &str, at: u64, buf: &mut [u8]) -> Result<usize, Failed>
        requires { 0 < length buf.old }
        ensures bound { IfOk result (λ n. n ≤ length buf.new) }
        ensures bytes { ReadsHeld (held_by self.old name.now) at result buf.new }
        ensures held { (other : List ℕ) → held_by self.new other ≡ held_by self.old other }
        ensures later { NoneFalls (count_by self.old) (count_by self.new) }
        ensures cause { HasCause (count_by self.old name.now) (count_by self.new name.now) result }
        ensures stays_sure { StaysSure (IsSure self.old) (IsSure self.new) (count_by self.old) (count_by self.new) }

        // The exact answer, and the files after it.
        ensures fails { is_err result ≡ fails_next self.old name.now }
        ensures takes { IfOk result (λ n. n ≡ takes_next self.old name.now at (length buf.new)) }
        ensures call { NextCall self.old self.new }
        ensures ok { OnOk result ((other : List ℕ) → count_by self.new other ≡ count_by self.old other) }
        ensures err { OnErr result (CountsFault self.old self.new name.now) }
    {
        self.calls = self.calls.saturating_add(1);
        let Some(place) = place_of(&self.entries, name) else {
            self.unknown = self.unknown.saturating_add(1);
            return Err(Failed);
        };
        if self.failing.contains(&self.calls) {
            self.counts[place] = self.counts[place].saturating_add(1);
            return Err(Failed);
        }
        Ok(copy_from(&self.entries[place].1, at, buf))
    }
}

/// A sink that is a list of bytes, and calls of `write` that fail.
///
/// The calls are counted from 1, whether they fail or not. A write that doesn't fail takes the least of `most`,
/// the piece's length and the reserved room that is left. One for which no room is left fails.
#[derive(Drop)]
pub struct MemSink {
    bytes: Vec<u8>,
    room: usize,
    most: usize,
    failing: Vec<u64>,
    calls: u64,
    faults: u64,
    ghost reserved: { vec_len bytes + room ≤ vec_capacity bytes },
    ghost takes_some: { 0 < most },
}

impl MemSink {
    ghost use Rattle.cb_edge.specs.Sinks.{bytes_of, room_of, IsFresh, SameButRoom};

    /// An empty sink with no room yet, whose writes take at most `most` bytes, one at least. The calls with the
    /// numbers in `failing` fail.
    pub fn new(alloc: Global, most: usize, failing: Vec<u64>) -> MemSink
        requires { 0 < most }
        ensures { IsFresh result most failing.items }
    {
        MemSink {
            bytes: Vec::new(alloc),
            room: 0,
            most,
            failing,
            calls: 0,
            faults: 0,
        }
    }

    /// Makes room for `more` bytes, beside the room that is left.
    ///
    /// # Errors
    ///
    /// `Memory`. Then all is as before.
    pub fn reserve(&mut self, more: usize) -> Result<(), Memory>
        ensures same { SameButRoom self.old self.new }
        ensures ok { OnOk result (room_of self.new ≡ room_of self.old + more) }
        ensures err { OnErr result (room_of self.new ≡ room_of self.old) }
    {
        let Some(room) = self.room.checked_add(more) else {
            return Err(AllocError);
        };
        self.bytes.reserve(room)?;
        self.room = room;
        Ok(())
    }

    /// The written bytes.
    pub fn bytes(&self) -> &[u8]
        ensures { result.now ≡ bytes_of self.now }
    {
        &self.bytes
    }
}

impl Sink for MemSink {
    ghost use Rattle.cb_edge.specs.Sinks.{bytes_of, faults_of, takes_next, fails_next, NextCall, TakesSurely};

    ghost written = { λ s. Some (bytes_of s) };

    ghost faults = { faults_of };

    ghost sure = { TakesSurely };

    fn write(&mut self, piece: &[u8]) -> Result<usize, Failed>
        requires { 0 < length piece.now }
        ensures bound { IfOk result (λ n. (0 < n) × (n ≤ length piece.now)) }
        ensures bytes { WriteAppends (Some (bytes_of self.old)) (Some (bytes_of self.new)) result piece.now }
        ensures cause { HasCause (faults_of self.old) (faults_of self.new) result }
        ensures stays_sure { KeepsRoom (TakesSurely self.old) (TakesSurely self.new) (faults_of self.old) (faults_of self.new) (length piece.now) result }

        // The exact answer, and the sink after it.
        ensures fails { is_err result ≡ fails_next self.old }
        ensures takes { IfOk result (λ n. n ≡ takes_next self.old (length piece.now)) }
        ensures call { NextCall self.old self.new result }
        ensures counts { CountsErrors (faults_of self.old) (faults_of self.new) result }
    {
        self.calls = self.calls.saturating_add(1);
        let count = self.most.min(piece.len()).min(self.room);
        if count == 0 || self.failing.contains(&self.calls) {
            self.faults = self.faults.saturating_add(1);
            return Err(Failed);
        }
        // The room is reserved, so this takes no memory and can't fail.
        if self.bytes.extend_from_slice(&piece[..count]).is_err() {
            self.faults = self.faults.saturating_add(1);
            return Err(Failed);
        }
        self.room -= count;
        Ok(count)
    }
}
