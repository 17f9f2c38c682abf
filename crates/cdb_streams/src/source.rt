//! Readers.

ghost use Rattle.std.specs.Prelude.{◌≡◌, ℕ, ◌<◌, ◌≤◌, length, Option, None, Err, IfOk, IfSome, IfNone, is_err};
ghost use Rattle.std.specs.Prelude.{Some, codes, option_map};
ghost use Rattle.std.specs.Io.{ReadsAtMost};
ghost use Rattle.std.specs.Io.KnownBytes.{Consumes, IsAtEnd, ReadConsumes};
ghost use Rattle.cdb_base.specs.Memory.{no_memory};
ghost use Rattle.cdb_streams.specs.FaultTexts.{play_fault_text};
ghost use Rattle.cdb_streams.specs.Faults.{of_reading};
ghost use Rattle.cdb_streams.specs.Streams.{Stream, counted, is_end, EndsOnceAtMost, FailsWhere};
ghost use Rattle.cdb_streams.specs.declared.source.ReadFault.TheVariants as reading;

use crate::fault::PlayFault;
use crate::sink::Failed;
use cdb_base::NoMemory;
use std::alloc::{AllocError, Global};
use std::error::Error;
use std::fmt;

/// What gives bytes.
pub trait Source {
    /// The bytes that are left, where they are known, and how many of its calls have failed, in 64 bits.
    ghost stream: { Self → Stream };

    /// How many of its reads have told that it is at its end, in 64 bits, where that is counted.
    ghost ends: { Self → Option ℕ } = { λ _. None };

    /// Puts the next bytes at the front of the buffer, and returns how many: 0 at the end, and where the buffer
    /// is empty. After an error as many are left as before.
    fn read(&mut self, buffer: &mut [u8]) -> Result<usize, Failed>
        ensures within { ReadsAtMost result buffer.new }
        ensures bytes { ReadConsumes (stream self.old).bytes (stream self.new).bytes
            result buffer.new }
        ensures failures { (stream self.new).failures
            ≡ counted (is_err result) (stream self.old).failures }
        ensures ends { ends self.new
            ≡ option_map (counted (is_end result buffer.new)) (ends self.old) };

    /// All the bytes that are left, where they stand in memory already and are at most this many: they are handed
    /// over, and none is copied. Else nothing happens.
    fn hand_over(&mut self, _alloc: Global, most: usize) -> Option<Vec<u8>>
        ensures taken { IfSome result
            (λ bytes. Consumes (stream self.old).bytes (stream self.new).bytes bytes.items) }
        ensures most { IfSome result (λ bytes. length bytes.items ≤ most) }
        ensures end { IfSome result (λ _. IsAtEnd (stream self.new).bytes) }
        ensures none { IfNone result (self.new ≡ self.old) }
        ensures failures { (stream self.new).failures ≡ (stream self.old).failures }
        ensures ends { ends self.new ≡ ends self.old }
    {
        let _ = most;
        None
    }
}

/// Why a reader was not read.
#[derive(Clone, Copy, Debug, PartialEq, Eq)]
pub enum ReadFault {
    /// The reader failed in this call.
    Failed,
    NoMemory(NoMemory),
}

/// The text of the fault of a play.
impl fmt::Display for ReadFault {
    ghost output = { λ fault. Some (play_fault_text (of_reading fault) (codes "the input")) };

    fn fmt<W: fmt::Write>(&self, f: &mut fmt::Formatter<W>) -> fmt::Result {
        let fault = PlayFault::from(*self);
        write!(f, "{fault}")
    }
}

impl Error for ReadFault {}

impl From<Failed> for ReadFault {
    ghost from_gives = { λ _ made. made ≡ reading.Failed };

    fn from(_error: Failed) -> Self {
        ReadFault::Failed
    }
}

impl From<AllocError> for ReadFault {
    ghost from_gives = { λ _ made. made ≡ reading.NoMemory no_memory };

    fn from(error: AllocError) -> Self {
        ReadFault::NoMemory(NoMemory::from(error))
    }
}

/// How many bytes are asked for at a time.
const PIECE: usize = 4096;

/// Reads to the end, or this many bytes where the reader has more. After an error what was read is given up.
///
/// Promise: No byte is read twice, nothing is tried again, and a reader that has told its end isn't asked again.
pub fn read_up_to<R: Source>(
    alloc: Global,
    source: &mut R,
    most: usize,
) -> Result<Vec<u8>, ReadFault>
    ensures taken { IfOk result
        (λ bytes. Consumes (R.stream source.old).bytes (R.stream source.new).bytes bytes.items) }
    ensures most { IfOk result (λ bytes. length bytes.items ≤ most) }
    ensures end { IfOk result
        (λ bytes. length bytes.items < most → IsAtEnd (R.stream source.new).bytes) }
    ensures failed { FailsWhere R.stream (result ≡ Err ReadFault.Failed) source.old source.new }
    ensures asked { EndsOnceAtMost (R.ends source.old) (R.ends source.new) }
{
    if let Some(bytes) = source.hand_over(alloc, most) {
        return Ok(bytes);
    }
    let mut bytes = Vec::new(alloc);
    let mut buffer = [0u8; PIECE];
    while bytes.len() < most {
        let room = PIECE.min(most - bytes.len());
        let count = source.read(&mut buffer[..room])?;
        if count == 0 {
            return Ok(bytes);
        }
        bytes.extend_from_slice(&buffer[..count])?;
    }
    Ok(bytes)
}
