//! Readers of the system, and bytes in memory, as sources.

ghost use Rattle.std.specs.Prelude.{◌≡◌};

use crate::sink::Failed;
use crate::source::Source;
use std::alloc::Global;
use std::io::Read;
use std::marker::Model;
use std::mem;

/// A reader of the standard library whose failures are counted, and how often it told that it is at its end. What it
/// has left is what the reader has left.
#[derive(Drop)]
pub struct Input<R: Read + Drop> {
    reader: R,
    failures: u64,
    ends: u64,
}

impl<R: Read + Drop> Input<R> {
    /// The reader, of which no call has failed or told its end.
    pub fn new(reader: R) -> Self
        ensures reader { result.reader ≡ reader }
        ensures failures { result.failures ≡ 0 }
        ensures ends { result.ends ≡ 0 }
    {
        Input {
            reader,
            failures: 0,
            ends: 0,
        }
    }
}

impl<R: Read + Drop> Source for Input<R> {
    ghost use Rattle.std.specs.Prelude.{Some};

    ghost stream = { λ input. record {
      bytes = R.remaining input.reader;
      failures = input.failures;
    } };

    ghost ends = { λ input. Some input.ends };

    fn read(&mut self, buffer: &mut [u8]) -> Result<usize, Failed> {
        let Ok(count) = self.reader.read(buffer) else {
            self.failures = self.failures.wrapping_add(1);
            return Err(Failed);
        };
        if count == 0 && !buffer.is_empty() {
            self.ends = self.ends.wrapping_add(1);
        }
        Ok(count)
    }
}

/// Bytes in memory that are not yet read.
#[derive(Drop)]
pub struct Bytes<'a> {
    rest: &'a [u8],
}

impl<'a> Bytes<'a> {
    /// The bytes, all of them still to be read.
    pub fn new(bytes: &'a [u8]) -> Self
        ensures { result.rest ≡ bytes.entry }
    {
        Bytes { rest: bytes }
    }
}

impl<'a> Source for Bytes<'a> {
    ghost use Rattle.std.specs.Prelude.{Some};

    ghost stream = { λ bytes. record { bytes = Some bytes.rest.now; failures = 0 } };

    fn read(&mut self, buffer: &mut [u8]) -> Result<usize, Failed> {
        let count = buffer.len().min(self.rest.len());
        buffer[..count].copy_from_slice(&self.rest[..count]);
        self.rest = &self.rest[count..];
        Ok(count)
    }
}

/// Bytes in memory that are not yet read. They are handed over to who reads all; else their memory is given up as soon
/// as the last is read.
#[derive(Drop)]
pub struct HeldBytes {
    bytes: Vec<u8>,
    /// How many of them are read.
    read: usize,
    alloc: Global,
}

impl Model for HeldBytes {
    ghost use Rattle.std.specs.Prelude.{ℕ, ◌≤◌, List, drop, length};

    ghost Value = { List ℕ };

    ghost view = { λ held. drop held.read held.bytes.items };

    ghost invariant = { λ held. held.read ≤ length held.bytes.items };
}

impl HeldBytes {
    /// The bytes, all of them still to be read.
    pub fn new(alloc: Global, bytes: Vec<u8>) -> Self
        ensures { result ≡ bytes.items }
    {
        HeldBytes {
            bytes,
            read: 0,
            alloc,
        }
    }
}

impl Source for HeldBytes {
    ghost use Rattle.std.specs.Prelude.{Some};

    ghost stream = { λ held. record { bytes = Some held; failures = 0 } };

    fn read(&mut self, buffer: &mut [u8]) -> Result<usize, Failed> {
        let count = buffer.len().min(self.bytes.len() - self.read);
        let end = self.read + count;
        buffer[..count].copy_from_slice(&self.bytes[self.read..end]);
        self.read = end;
        if end == self.bytes.len() {
            self.bytes = Vec::new(self.alloc);
            self.read = 0;
        }
        Ok(count)
    }

    fn hand_over(&mut self, alloc: Global, most: usize) -> Option<Vec<u8>> {
        if self.read > 0 || self.bytes.len() > most {
            return None;
        }
        let mut bytes = Vec::new(alloc);
        mem::swap(&mut bytes, &mut self.bytes);
        Some(bytes)
    }
}
