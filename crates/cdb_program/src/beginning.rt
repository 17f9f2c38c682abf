//! What sessions begin from: the files of a setup, and of a journal if one is named.

ghost use Rattle.std.specs.Prelude.{◌∷◌};
ghost use Rattle.cdb_base.specs.Requests.{any_text};
ghost use Rattle.cdb_program.specs.Beginnings.{AreOfBeginning, AreOfJournal};
ghost use Rattle.cdb_program.specs.FilesRead.{OpensAll};
ghost use Rattle.cdb_program.specs.Known.{any_name};

use crate::fault::Fault;
use crate::files::{Files, read_file};
use cdb_journal::MOST_JOURNAL;
use cdb_streams::PlayFault;
use std::alloc::Global;

/// How many bytes of a file are read: one more than a journal may have, which shows that it is too long.
const MOST_READ: usize = MOST_JOURNAL + 1;

/// The names with which sessions are asked for.
#[derive(Clone, Copy)]
pub struct Names<'a> {
    pub setup: &'a str,
    /// The journal that they go on from.
    pub from: Option<&'a str>,
    /// The file in which their journal is kept.
    pub journal: Option<&'a str>,
    /// The file in which a page of their run is kept.
    pub page: Option<&'a str>,
}

/// The bytes of the file of a journal; none where none is named.
///
/// # Errors
/// As of `read_file`.
fn read_journal<'a, F: Files>(
    alloc: Global,
    files: &mut F,
    name: Option<&'a str>,
) -> Result<Vec<u8>, Fault<'a>>
    ensures { OpensAll (λ bytes. AreOfJournal (F.seen files.old) (any_text name.entry) bytes.items)
        (F.seen files.old) (F.seen files.new) (any_name (any_text name.entry)) result }
{
    match name {
        Some(given) => match files.read(alloc, given, MOST_READ) {
            Ok(bytes) => Ok(bytes),
            Err(fault) => Err(Fault::Play(PlayFault::from(fault), given)),
        },
        None => Ok(Vec::new(alloc)),
    }
}

/// The bytes of the file of a setup and then of that of the journal that is named.
///
/// # Errors
/// Those of `read_file`, of the first file that can't be read; the one after it is not opened.
pub fn read_beginning<'a, F: Files>(
    alloc: Global,
    files: &mut F,
    setup: &'a str,
    from: Option<&'a str>,
) -> Result<(Vec<u8>, Vec<u8>), Fault<'a>>
    ensures { OpensAll (λ read. AreOfBeginning (F.seen files.old) setup.entry.now (any_text from.entry)
        read.0.items read.1.items)
        (F.seen files.old) (F.seen files.new) (setup.entry.now ∷ any_name (any_text from.entry)) result }
{
    let json = read_file(alloc, files, setup)?;
    let journal = read_journal(alloc, files, from)?;
    Ok((json, journal))
}
