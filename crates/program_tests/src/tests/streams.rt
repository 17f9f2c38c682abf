//! A reader and a writer over memory, which move few bytes a call, and fail once their good calls are over.

ghost use Rattle.std.specs.Prelude.{◌≡◌, []};

use cdb_session::Console;
use cdb_shared_session::{Endpoint, Opener};
use cdb_streams::{Failed, ReadFault, Sink, Source};
use std::alloc::Global;

/// How many bytes a call moves at most.
const MOST: usize = 5;

/// A reader over memory.
#[derive(Drop)]
pub struct Reader<'a> {
    rest: &'a [u8],
    good_calls: usize,
    pub failures: u64,
}

impl<'a> Reader<'a> {
    /// All the bytes are left, and this many calls go well.
    pub fn new(rest: &'a [u8], good_calls: usize) -> Self {
        Reader {
            rest,
            good_calls,
            failures: 0,
        }
    }
}

impl<'a> Source for Reader<'a> {
    ghost use Rattle.std.specs.Prelude.{Some};

    ghost stream = { λ source. record {
      bytes = Some source.rest.now;
      failures = source.failures;
    } };

    fn read(&mut self, buffer: &mut [u8]) -> Result<usize, Failed> {
        if self.good_calls == 0 {
            self.failures = self.failures.wrapping_add(1);
            return Err(Failed);
        }
        self.good_calls -= 1;
        let count = buffer.len().min(self.rest.len()).min(MOST);
        buffer[..count].copy_from_slice(&self.rest[..count]);
        self.rest = &self.rest[count..];
        Ok(count)
    }
}

/// What a seat reads from and writes to: the lines are given at once, and what is answered is lost.
#[derive(Drop)]
pub struct Visitor {
    rest: Vec<u8>,
}

impl Visitor {
    /// All of these bytes are left.
    pub fn new(rest: Vec<u8>) -> Self {
        Visitor { rest }
    }
}

impl Console for Visitor {
    ghost use Rattle.std.specs.Prelude.{None};

    ghost known = { λ _. record {
      moves = None;
      left = None;
      held = None;
      saved = None;
      failed_reads = 0;
      failed_writes = 0;
    } };

    fn read(&mut self, buffer: &mut [u8]) -> Result<usize, Failed> {
        let count = buffer.len().min(self.rest.len());
        buffer[..count].copy_from_slice(&self.rest.as_slice()[..count]);
        self.rest.clear();
        Ok(count)
    }

    fn write(&mut self, piece: &[u8]) -> Result<usize, Failed> {
        Ok(piece.len())
    }

    fn save(&mut self, _name: &[u8], _text: &[u8]) -> Result<(), Failed> {
        Ok(())
    }
}

/// A seat with these lines, or one that can't be opened.
#[derive(Drop)]
pub struct Arrival {
    pub lines: Option<Vec<u8>>,
}

impl Opener for Arrival {
    type Seat = Visitor;

    ghost opens = { λ arrival opened. Unit {0} };

    fn open(self, _alloc: Global) -> Result<Endpoint<Visitor>, ReadFault> {
        match self.lines {
            Some(lines) => Ok(Endpoint {
                console: Visitor::new(lines),
                prompt: b"",
            }),
            None => Err(ReadFault::Failed),
        }
    }
}

/// A writer over memory.
#[derive(Drop)]
pub struct Writer {
    pub held: Vec<u8>,
    good_calls: usize,
    pub failures: u64,
}

impl Writer {
    /// It holds nothing, and this many calls go well.
    pub fn new(alloc: Global, good_calls: usize) -> Self
        ensures { result.held.items ≡ [] }
    {
        Writer {
            held: Vec::new(alloc),
            good_calls,
            failures: 0,
        }
    }
}

impl Sink for Writer {
    ghost use Rattle.std.specs.Prelude.{Some};

    ghost stream = { λ out. record { bytes = Some out.held.items; failures = out.failures } };

    fn write(&mut self, piece: &[u8]) -> Result<usize, Failed> {
        let count = piece.len().min(MOST);
        if self.good_calls == 0 || self.held.extend_from_slice(&piece[..count]).is_err() {
            self.failures = self.failures.wrapping_add(1);
            return Err(Failed);
        }
        self.good_calls -= 1;
        Ok(count)
    }
}
