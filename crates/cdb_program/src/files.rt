//! Files, which are read by their names.

ghost use Rattle.std.specs.Prelude.{[], ◌∷◌};
ghost use Rattle.cdb_base.specs.Requests.{texts};
ghost use Rattle.cdb_program.specs.FrameFiles.{TakesFolder, WritesWhole};
ghost use Rattle.cdb_program.specs.Known.{FilesSeen};
ghost use Rattle.cdb_program.specs.Keepings.{HasHadNone, IsEmpty};
ghost use Rattle.cdb_program.specs.FilesRead.{both, many, single, three, AreFirstBytes, Opens, Reads};
ghost use Rattle.cdb_program.specs.SeatStreams.{IsOpenerOf};

use crate::fault::Fault;
use cdb_base::NoMemory;
use cdb_base::limits::MAX_BYTES;
use cdb_page::Rewritten;
use cdb_session::NewFiles;
use cdb_shared_session::Opener;
use cdb_streams::{OutputFault, PlayFault, ReadFault, Sink};
use std::alloc::Global;

/// How many bytes of a file are read: one more than a setup or a script may have, which shows that it is too long.
const MOST_READ: usize = MAX_BYTES + 1;

/// Files that can be read by their names.
pub trait Files {
    /// What opens the streams of a seat.
    type Seat: Opener + Send;

    /// A file that is written to.
    type Made: Sink + Drop;

    /// A file of a page, which is written anew as a whole.
    type Page: Rewritten + Drop;

    /// What takes the new files of a session.
    type New: NewFiles + Drop;

    /// What is known of the files: their bytes, the names of those that were opened, how many could not be read, and
    /// what the seat of a name has when its streams are open.
    ghost seen: { Self → FilesSeen };

    /// Reads the file of this name to its end, or this many bytes where it has more.
    ///
    /// # Errors
    /// `Failed` where the file can't be opened or read, and `NoMemory` where an allocation fails, which counts as if
    /// the file had not been opened.
    fn read(&mut self, alloc: Global, name: &str, most: usize) -> Result<Vec<u8>, ReadFault>
        ensures { Opens (λ bytes. AreFirstBytes (seen self.old) most name.now bytes.items)
            (seen self.old) (seen self.new) name.now result };

    /// Finds the seat of this name: a terminal device, or `IN:OUT`, a pair of files or pipes. Its streams are not
    /// opened yet, and so it doesn't wait.
    ///
    /// # Errors
    /// `Failed` where what it would write has something in it, and `NoMemory` where an allocation fails, which counts
    /// as if it had not been opened.
    fn find_seat(&mut self, alloc: Global, name: &str) -> Result<Self::Seat, ReadFault>
        ensures { Opens (IsOpenerOf Self.Seat.opens (seen self.old) name.now)
            (seen self.old) (seen self.new) name.now result };

    /// Makes the file of this name, or opens it where it is there and empty.
    ///
    /// # Errors
    /// `Failed` where it has something in it or can't be opened, and `NoMemory` where an allocation fails, which counts
    /// as if it had not been opened.
    fn make_file(&mut self, alloc: Global, name: &str) -> Result<Self::Made, ReadFault>
        ensures { Opens (λ file. IsEmpty (Self.Made.stream file)) (seen self.old) (seen self.new) name.now result };

    /// Makes the file of this name for a page, or takes it where it is there and empty.
    ///
    /// # Errors
    /// As of `make_file`.
    fn make_page(&mut self, alloc: Global, name: &str) -> Result<Self::Page, ReadFault>
        ensures { Opens (λ file. HasHadNone (Self.Page.versions file))
            (seen self.old) (seen self.new) name.now result };

    /// Takes the folder of this name to write to, which is made where it is not there.
    ///
    /// # Errors
    /// `Failed` where it has something in it or can't be made, and `NoMemory` where an allocation fails, which counts
    /// as if it had not been opened.
    fn take_folder(&mut self, alloc: Global, name: &str) -> Result<(), ReadFault>
        ensures { TakesFolder (seen self.old) (seen self.new) name.now result };

    /// Writes a new file of this name, with these bytes. After an error there is none.
    fn write_whole(&mut self, alloc: Global, name: &str, bytes: &[u8]) -> Result<(), OutputFault>
        ensures { WritesWhole (seen self.old) (seen self.new) name.now bytes.now result };

    /// Shows how many of all walks are done, in a line that is written over, where standard error is a terminal.
    /// Of that line nothing is known, and what can't be shown is left out.
    fn show_progress(&self, done: u32, all: u32);

    /// Clears that line.
    fn clear_progress(&self);
}

/// The bytes of the file of this name, at most 1,048,577 of them.
///
/// # Errors
/// `Play(Read, name)` where the file can't be read, and `Play(NoMemory, name)` where an allocation fails.
pub fn read_file<'a, F: Files>(
    alloc: Global,
    files: &mut F,
    name: &'a str,
) -> Result<Vec<u8>, Fault<'a>>
    ensures { Reads single (F.seen files.old) (F.seen files.new) (name.entry.now ∷ []) result }
{
    match files.read(alloc, name, MOST_READ) {
        Ok(bytes) => Ok(bytes),
        Err(fault) => Err(Fault::Play(PlayFault::from(fault), name)),
    }
}

/// The bytes of the file of a setup and then of that of a script.
///
/// # Errors
/// Those of `read_file`, of the first file that can't be read; the one after it is not opened.
pub fn read_two<'a, F: Files>(
    alloc: Global,
    files: &mut F,
    setup: &'a str,
    script: &'a str,
) -> Result<(Vec<u8>, Vec<u8>), Fault<'a>>
    ensures { Reads both (F.seen files.old) (F.seen files.new)
        (setup.entry.now ∷ script.entry.now ∷ []) result }
{
    let json = read_file(alloc, files, setup)?;
    let bytes = read_file(alloc, files, script)?;
    Ok((json, bytes))
}

/// The bytes of the file of a setup and then of those of two scripts.
///
/// # Errors
/// Those of `read_file`, of the first file that can't be read; those after it are not opened.
pub fn read_three<'a, F: Files>(
    alloc: Global,
    files: &mut F,
    setup: &'a str,
    first: &'a str,
    second: &'a str,
) -> Result<(Vec<u8>, Vec<u8>, Vec<u8>), Fault<'a>>
    ensures { Reads three (F.seen files.old) (F.seen files.new)
        (setup.entry.now ∷ first.entry.now ∷ second.entry.now ∷ []) result }
{
    let (json, one) = read_two(alloc, files, setup, first)?;
    let other = read_file(alloc, files, second)?;
    Ok((json, one, other))
}

/// The bytes of the files of these names, which are read one after the other as `read_file` does.
///
/// # Errors
/// `Play(Read, name)` with the name of the first file that can't be read; those after it are not opened.
/// `Play(NoMemory, _)` where an allocation fails.
pub fn read_each<'a, F: Files>(
    alloc: Global,
    files: &mut F,
    names: &[&'a str],
) -> Result<Vec<Vec<u8>>, Fault<'a>>
    ensures { Reads many (F.seen files.old) (F.seen files.new) (texts names.now) result }
{
    let mut contents = Vec::new(alloc);
    for name in names {
        let bytes = read_file(alloc, files, name)?;
        if let Err(error) = contents.push(bytes) {
            let refused = NoMemory::from(error);
            return Err(Fault::Play(PlayFault::NoMemory(refused), name));
        }
    }
    Ok(contents)
}
