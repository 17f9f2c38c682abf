//! Whom a session reads from and writes to.

use cdb_session::Console;
use cdb_streams::Failed;
use std::alloc::Global;

/// Someone who gives at most `most` bytes when asked, takes at most `most`, and keeps what was written, with its length
/// at each time when more was asked for. After this many good reads or writes the next one fails.
#[derive(Drop)]
pub struct Person {
    pub rest: &'static [u8],
    most: usize,
    pub said: Vec<u8>,
    pub asked_at: Vec<usize>,
    pub good_reads: usize,
    pub good_writes: usize,
    failed_reads: u64,
    failed_writes: u64,
}

impl Console for Person {
    ghost use Rattle.std.specs.Prelude.{None};

    ghost known = { λ person. record {
      moves = None;
      left = None;
      held = None;
      saved = None;
      failed_reads = person.failed_reads;
      failed_writes = person.failed_writes;
    } };

    fn read(&mut self, buffer: &mut [u8]) -> Result<usize, Failed> {
        if self.asked_at.push(self.said.len()).is_err() || self.good_reads == 0 {
            self.failed_reads = self.failed_reads.wrapping_add(1);
            return Err(Failed);
        }
        self.good_reads -= 1;
        let count = buffer.len().min(self.rest.len()).min(self.most);
        buffer[..count].copy_from_slice(&self.rest[..count]);
        self.rest = &self.rest[count..];
        Ok(count)
    }

    fn write(&mut self, piece: &[u8]) -> Result<usize, Failed> {
        let count = piece.len().min(self.most);
        let is_good = self.good_writes > 0 && count > 0;
        if !is_good || self.said.extend_from_slice(&piece[..count]).is_err() {
            self.failed_writes = self.failed_writes.wrapping_add(1);
            return Err(Failed);
        }
        self.good_writes -= 1;
        Ok(count)
    }

    fn save(&mut self, _name: &[u8], _text: &[u8]) -> Result<(), Failed> {
        Err(Failed)
    }
}

/// Someone with these lines, whose reads and writes are all good.
pub fn with_lines(alloc: Global, rest: &'static [u8], most: usize) -> Person {
    Person {
        rest,
        most,
        said: Vec::new(alloc),
        asked_at: Vec::new(alloc),
        good_reads: usize::MAX,
        good_writes: usize::MAX,
        failed_reads: 0,
        failed_writes: 0,
    }
}
