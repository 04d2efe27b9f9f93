//! The real outside: files of the system and any writer. What they hold isn't told.
ghost use Rattle.std.specs.Prelude.{None, ◌≡◌, ◌<◌, ◌≤◌, length, IfOk};
ghost use Rattle.cb_edge.specs.Edge.{CountsErrors, HasCause, NoneFalls, StaysSure};

use crate::edge::{Failed, Files, Sink};
use std::io::{Read, Seek, SeekFrom, Write};
use std::{fs, io, rt};

/// The files of the system. One count of faults stands for every name.
///
/// Each read opens the file anew, so a file that is replaced while it is read gives bytes of both.
#[derive(Drop)]
pub struct RealFiles<'a, R> {
    rt: &'a R,
    faults: u64,
}

impl<'a, R: rt::Files> RealFiles<'a, R> {
    ghost use Rattle.cb_edge.specs.Real.{files_faults};

    /// The files that `rt` reaches, with no fault yet.
    pub fn new(rt: &'a R) -> RealFiles<'a, R>
        ensures { files_faults result ≡ 0 }
    {
        RealFiles { rt, faults: 0 }
    }
}

fn read_from<R: rt::Files>(rt: &R, name: &str, at: u64, buf: &mut [u8]) -> io::Result<usize>
    ensures { IfOk result (λ n. n ≤ length buf.new) }
{
    let mut file = fs::open(rt, name)?;
    file.seek(SeekFrom::Start(at))?;
    file.read(buf)
}

impl<R: rt::Files> Files for RealFiles<'_, R> {
    ghost use Rattle.cb_edge.specs.Real.{files_faults};

    ghost held = { λ _ _. None };

    ghost faults = { λ s _. files_faults s };

    ghost sure = { λ _ _. ⊥ };

    fn read_at(&mut self, name: &str, at: u64, buf: &mut [u8]) -> Result<usize, Failed>
        requires { 0 < length buf.old }
        ensures bound { IfOk result (λ n. n ≤ length buf.new) }
        ensures later { NoneFalls (λ _. files_faults self.old) (λ _. files_faults self.new) }
        ensures cause { HasCause (files_faults self.old) (files_faults self.new) result }
        ensures sure { StaysSure (λ _. ⊥) (λ _. ⊥) (λ _. files_faults self.old) (λ _. files_faults self.new) }
        ensures counts { CountsErrors (files_faults self.old) (files_faults self.new) result }
    {
        match read_from(self.rt, name, at, buf) {
            Ok(count) => Ok(count),
            Err(_) => {
                self.faults = self.faults.saturating_add(1);
                Err(Failed)
            }
        }
    }
}

/// Any writer, with a count of its faults. A write that takes nothing of a piece is one.
#[derive(Drop)]
pub struct RealSink<W: Write> {
    inner: W,
    faults: u64,
}

impl<W: Write> RealSink<W> {
    ghost use Rattle.cb_edge.specs.Real.{sink_faults};

    /// A sink over `inner`, with no fault yet.
    pub fn new(inner: W) -> RealSink<W>
        ensures { sink_faults result ≡ 0 }
    {
        RealSink { inner, faults: 0 }
    }
}

impl<W: Write> Sink for RealSink<W> {
    ghost use Rattle.cb_edge.specs.Real.{sink_faults};

    ghost written = { λ _. None };

    ghost faults = { sink_faults };

    ghost sure = { λ _ _. ⊥ };

    fn write(&mut self, piece: &[u8]) -> Result<usize, Failed>
        requires { 0 < length piece.now }
        ensures bound { IfOk result (λ n. (0 < n) × (n ≤ length piece.now)) }
        ensures cause { HasCause (sink_faults self.old) (sink_faults self.new) result }
        ensures counts { CountsErrors (sink_faults self.old) (sink_faults self.new) result }
    {
        match self.inner.write(piece) {
            Ok(count) if count > 0 => Ok(count),
            _ => {
                self.faults = self.faults.saturating_add(1);
                Err(Failed)
            }
        }
    }
}
