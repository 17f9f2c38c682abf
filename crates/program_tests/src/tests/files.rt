//! Files in memory.

use super::streams::{Arrival, Writer};
use cdb_page::Rewritten;
use cdb_program::Files;
use cdb_session::NewFiles;
use cdb_streams::{Failed, OutputFault, ReadFault};
use std::alloc::{AllocError, Global};

/// A name and the bytes of the file of this name.
type Named = (&'static str, &'static [u8]);

/// The files of the tests.
const FILES: &[Named] = &[
    (
        "one.json",
        b"{\"algorithm\":\"leader\",\"processes\":1,\"quorum\":1,\"inputs\":[7],\"oracle\":[[1]]}",
    ),
    (
        "two.json",
        b"{\"algorithm\":\"leader\",\"processes\":2,\"quorum\":2,\"inputs\":[5,6],\"oracle\":[[1],[1]]}",
    ),
    (
        "eight.txt",
        b"auto 1\nauto 1\nauto 1\nauto 1\nauto 1\nauto 1\nauto 1\nauto 1\n",
    ),
    ("undo.txt", b"undo 3 1\n"),
    ("redo.txt", b"redo"),
    ("decisions.txt", b"decisions\n"),
    ("number.txt", b"auto 1\nstep 01 go\n"),
    ("journal.txt", b"1 auto 1\n2 undo 1 1\n"),
];

/// Files in memory, the names of those that were opened, and how many more can be read. No contract knows their bytes.
#[derive(Drop)]
pub struct Folder {
    pub opened: Vec<Vec<u8>>,
    good_reads: usize,
    pub failures: u64,
}

impl Folder {
    /// None of the files was opened, and this many reads go well.
    pub fn new(alloc: Global, good_reads: usize) -> Self {
        Folder {
            opened: Vec::new(alloc),
            good_reads,
            failures: 0,
        }
    }
}

/// The bytes of the file of this name.
fn content_of(name: &str) -> Option<&'static [u8]> {
    for (named, content) in FILES {
        if *named == name {
            return Some(*content);
        }
    }
    None
}

/// The file of a page, of which nothing is known.
#[derive(Drop)]
pub struct Paper;

impl Rewritten for Paper {
    ghost use Rattle.std.specs.Prelude.{None, false};

    ghost versions = { λ _. record { texts = None; failed = false } };

    fn rewrite(&mut self, _alloc: Global, _text: &[u8]) -> Result<(), OutputFault> {
        Ok(())
    }
}

/// What takes no new file.
#[derive(Drop)]
pub struct NoFiles;

impl NewFiles for NoFiles {
    ghost use Rattle.std.specs.Prelude.{None};

    ghost saved = { λ _. None };

    fn save(&mut self, _name: &[u8], _text: &[u8]) -> Result<(), Failed> {
        Err(Failed)
    }
}

impl Files for Folder {
    type Seat = Arrival;

    type Made = Writer;

    type Page = Paper;

    type New = NoFiles;

    ghost use Rattle.std.specs.Prelude.{[], None, Some};
    ghost use Rattle.cdb_play.specs.Races.{bytes_of};

    ghost seen = { λ folder. record {
      known = [];
      opened = Some (bytes_of folder.opened.items);
      failures = folder.failures;
      seats = [];
      written = None;
    } };

    fn read(&mut self, alloc: Global, name: &str, most: usize) -> Result<Vec<u8>, ReadFault> {
        let copy = Vec::from_slice(alloc, name.as_bytes())?;
        let content = content_of(name);
        let content = if self.good_reads == 0 { None } else { content };
        let all = content.unwrap_or(&[]);
        let bytes = Vec::from_slice(alloc, &all[..most.min(all.len())])?;
        self.opened.push(copy).map_err(AllocError::from)?;
        self.good_reads = self.good_reads.saturating_sub(1);
        if content.is_none() {
            self.failures = self.failures.wrapping_add(1);
            return Err(ReadFault::Failed);
        }
        Ok(bytes)
    }

    /// A seat's input is the file of its name, and its output is lost. The seat `shut` is found, but can't be opened.
    fn find_seat(&mut self, alloc: Global, name: &str) -> Result<Arrival, ReadFault> {
        let copy = Vec::from_slice(alloc, name.as_bytes())?;
        let content = content_of(name);
        let lines = Vec::from_slice(alloc, content.unwrap_or(b""))?;
        self.opened.push(copy).map_err(AllocError::from)?;
        if content.is_none() && name != "shut" {
            self.failures = self.failures.wrapping_add(1);
            return Err(ReadFault::Failed);
        }
        let lines = if content.is_none() { None } else { Some(lines) };
        Ok(Arrival { lines })
    }

    /// No file has this name yet; none is made where one has.
    fn make_file(&mut self, alloc: Global, name: &str) -> Result<Writer, ReadFault> {
        let copy = Vec::from_slice(alloc, name.as_bytes())?;
        self.opened.push(copy).map_err(AllocError::from)?;
        if content_of(name).is_some() {
            self.failures = self.failures.wrapping_add(1);
            return Err(ReadFault::Failed);
        }
        Ok(Writer::new(alloc, usize::MAX))
    }

    /// As `make_file`.
    fn make_page(&mut self, alloc: Global, name: &str) -> Result<Paper, ReadFault> {
        self.make_file(alloc, name)?;
        Ok(Paper)
    }

    /// No name is that of a folder with something in it, but that of a file.
    fn take_folder(&mut self, alloc: Global, name: &str) -> Result<(), ReadFault> {
        let copy = Vec::from_slice(alloc, name.as_bytes())?;
        self.opened.push(copy).map_err(AllocError::from)?;
        if content_of(name).is_some() {
            self.failures = self.failures.wrapping_add(1);
            return Err(ReadFault::Failed);
        }
        Ok(())
    }

    /// Where no read would go well, no write does. What was written is lost.
    fn write_whole(
        &mut self,
        _alloc: Global,
        _name: &str,
        _bytes: &[u8],
    ) -> Result<(), OutputFault> {
        if self.good_reads == 0 {
            return Err(OutputFault::Write);
        }
        self.good_reads -= 1;
        Ok(())
    }

    fn show_progress(&self, _done: u32, _all: u32) {}

    fn clear_progress(&self) {}
}
