//! Whole files and whole texts, over any files and any sink.
ghost use Rattle.std.specs.Prelude.{◌≡◌, ℕ, ◌<◌, ◌≤◌, List, length, IfOk, IfSome, OnOk, OnErr, IsErrOf};
ghost use Rattle.std.specs.Io.KnownBytes.{Appends};
ghost use Rattle.cb_edge.specs.Edge.{Rose, HasCause, NoneFalls, CutShort, StaysSure};
ghost use Rattle.cb_edge.specs.declared.text.ReadAll.TheVariants.{Failed, Memory};

use crate::edge::{Failed, Files, Memory, Sink};
use std::alloc::Global;
use thiserror::Error;

/// Why a file wasn't read whole.
#[derive(Clone, Copy, Debug, PartialEq, Eq, Error)]
pub enum ReadAll {
    /// A read failed: the count of the file's name rose.
    #[error("the file can't be read")]
    Failed,
    /// There are more bytes than the limit allows.
    #[error("the file is too long")]
    TooLong,
    /// Want of memory.
    #[error("out of memory")]
    Memory,
}

impl From<Failed> for ReadAll {
    ghost from_gives = { λ _ fault. fault ≡ Failed };

    fn from(_fault: Failed) -> ReadAll {
        ReadAll::Failed
    }
}

impl From<Memory> for ReadAll {
    ghost from_gives = { λ _ fault. fault ≡ Memory };

    fn from(_fault: Memory) -> ReadAll {
        ReadAll::Memory
    }
}

const PIECE: usize = 65536;

/// All bytes of a file up to its end, if there are at most `limit`.
///
/// # Errors
///
/// `Failed` where a read failed, `TooLong` where there are more than `limit` bytes, and `Memory`. Where the bytes
/// are told, `TooLong` comes only where more are held under the name, and the answer never holds more than `limit`.
pub fn read_all<F: Files>(
    alloc: Global,
    files: &mut F,
    name: &str,
    limit: u64,
) -> Result<Vec<u8>, ReadAll>
    ensures bytes { IfOk result (λ v. IfSome (F.held files.old name.now) (λ bs. v.items ≡ bs)) }
    ensures fits { IfOk result (λ v. length v.items ≤ limit) }
    ensures too_long { IsErrOf result ReadAll.TooLong → IfSome (F.held files.old name.now) (λ bs. limit < length bs) }
    ensures failed { IsErrOf result ReadAll.Failed → Rose (F.faults files.old name.now) (F.faults files.new name.now) }

    // The files after it.
    ensures held { (other : List ℕ) → F.held files.new other ≡ F.held files.old other }
    ensures later { NoneFalls (F.faults files.old) (F.faults files.new) }
    ensures sure { StaysSure (F.sure files.old) (F.sure files.new) (F.faults files.old) (F.faults files.new) }
{
    let mut bytes = Vec::new(alloc);
    let mut piece = [0u8; PIECE];
    'pieces: loop {
        let at = bytes.len() as u64;
        let count = files.read_at(name, at, &mut piece)?;
        if count == 0 {
            return Ok(bytes);
        }
        if count as u64 > limit - at {
            return Err(ReadAll::TooLong);
        }
        bytes.extend_from_slice(&piece[..count])?;
    }
}

/// Appends all the bytes, giving each write all those that aren't appended yet.
///
/// # Errors
///
/// `Failed` where a write failed. Then a front part of the bytes was appended, and not the whole.
pub fn write_text<K: Sink>(sink: &mut K, bytes: &[u8]) -> Result<(), Failed>
    ensures whole { OnOk result (Appends (K.written sink.old) (K.written sink.new) bytes.now) }
    ensures part { OnErr result (CutShort (K.written sink.old) (K.written sink.new) bytes.now) }
    ensures cause { HasCause (K.faults sink.old) (K.faults sink.new) result }
    ensures sure { (n : ℕ) → length bytes.now ≤ n → K.sure sink.old n → K.faults sink.new ≡ K.faults sink.old }
{
    let mut done = 0;
    'pieces: while done < bytes.len() {
        done += sink.write(&bytes[done..])?;
    }
    Ok(())
}
