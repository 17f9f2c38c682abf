//! A reader and a writer over memory that fail, and the setups.

mod out_of_memory;
mod pair;
mod plays;
mod races;
mod sessions;

use cdb_streams::{Failed, Sink, Source};

const ONE_PROCESS: &str =
    r#"{"algorithm":"leader","processes":1,"quorum":1,"inputs":[7],"oracle":[[1]]}"#;

const MAJORITY: &str =
    r#"{"algorithm":"leader","processes":2,"quorum":2,"inputs":[5,6],"oracle":[[1],[1]]}"#;

/// A writer over memory that takes `most` bytes a call. After this many good calls one takes none, or fails.
#[derive(Drop)]
struct Memory {
    held: Vec<u8>,
    most: usize,
    good_calls: usize,
    takes_none: bool,
    failures: u64,
}

impl Sink for Memory {
    ghost use Rattle.std.specs.Prelude.{Some};

    ghost stream = { λ out. record { bytes = Some out.held.items; failures = out.failures } };

    fn write(&mut self, piece: &[u8]) -> Result<usize, Failed> {
        let most = if self.good_calls == 0 { 0 } else { self.most };
        let count = piece.len().min(most);
        let fails = self.good_calls == 0 && !self.takes_none;
        if fails || self.held.extend_from_slice(&piece[..count]).is_err() {
            self.failures = self.failures.wrapping_add(1);
            return Err(Failed);
        }
        self.good_calls = self.good_calls.saturating_sub(1);
        if count == 0 && !piece.is_empty() {
            self.failures = self.failures.wrapping_add(1);
        }
        Ok(count)
    }
}

/// A reader over memory that gives 5 bytes a call, and fails after this many good calls.
#[derive(Drop)]
struct Halting<'a> {
    rest: &'a [u8],
    good_calls: usize,
    failures: u64,
}

impl<'a> Source for Halting<'a> {
    ghost use Rattle.std.specs.Prelude.{Some};

    ghost stream = { λ source. record {
      bytes = Some source.rest.now;
      failures = source.failures;
    } };

    fn read(&mut self, buffer: &mut [u8]) -> Result<usize, Failed> {
        if self.good_calls == 0 {
            self.failures = self.failures.wrapping_add(1);
            return Err(Failed);
        }
        self.good_calls -= 1;
        let count = buffer.len().min(self.rest.len()).min(5);
        buffer[..count].copy_from_slice(&self.rest[..count]);
        self.rest = &self.rest[count..];
        Ok(count)
    }
}

/// A writer that takes this many bytes a call, and fails after this many good calls.
fn writer(rt: &impl AllocGlobal, most: usize, good_calls: usize) -> Memory {
    Memory {
        held: Vec::new(rt.alloc()),
        most,
        good_calls,
        takes_none: false,
        failures: 0,
    }
}
