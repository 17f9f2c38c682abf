//! The files of the system.

ghost use Rattle.std.specs.Prelude.{◌≡◌};
ghost use Rattle.std.specs.IoError.{error_kind};
ghost use Rattle.revdbg.specs.System.{read_fault_of};

use crate::seats::{InputName, OutputName, is_of_seat, pair_of, path_of, prompt_at};
use cdb_base::NoMemory;
use cdb_page::Rewritten;
use cdb_program::Files;
use cdb_session::{NewFiles, Streams};
use cdb_shared_session::{Endpoint, Opener};
use cdb_streams::{Failed, Input, Output, OutputFault, ReadFault, read_up_to};
use std::alloc::{AllocError, Global};
use std::fs::{File, Metadata};
use std::io::{ErrorKind, IsTerminal, Write};
use std::{fs, io};

/// Of so many walks one is shown.
const SHOWN_EACH: u32 = 50;

/// What the session of a seat reads from and writes to.
type SeatConsole = Streams<Input<File>, Output<File>, SystemNewFiles>;

/// New files of the system.
#[derive(Drop)]
pub struct SystemNewFiles {
    rt: HostRuntime,
}

impl SystemNewFiles {
    /// New files of the system.
    pub fn new(rt: &HostRuntime) -> Self {
        SystemNewFiles { rt: *rt }
    }
}

impl NewFiles for SystemNewFiles {
    ghost use Rattle.std.specs.Prelude.{None};

    ghost saved = { λ _. None };

    fn save(&mut self, name: &[u8], text: &[u8]) -> Result<(), Failed> {
        match str::from_utf8(name) {
            Ok(name) => write_first(&self.rt, name, text).map_err(|_| Failed),
            Err(_) => Err(Failed),
        }
    }
}

/// The files of the system, of which `-` is standard input. Nothing is known of them but how many could not be read.
#[derive(Drop)]
pub struct SystemFiles<'a> {
    rt: &'a HostRuntime,
    failures: u64,
    /// The names of the seats that were found, and of the files that were made.
    taken: Vec<String>,
}

impl<'a> SystemFiles<'a> {
    /// The files of the system, of which none was read.
    pub fn new(rt: &'a HostRuntime) -> Self {
        SystemFiles {
            rt,
            failures: 0,
            taken: Vec::new(rt.alloc()),
        }
    }

    /// Whether this is the name of a file that was made, or that a seat reads from or writes to.
    fn is_taken(&self, name: &str) -> bool {
        self.taken
            .iter()
            .any(|taken| is_of_seat(taken.as_str(), name))
    }
}

/// The terminal of this name, to read from and to write to. What is no terminal is left as it is.
fn terminal(rt: &HostRuntime, name: &str) -> io::Result<(File, File)> {
    let input = File::open(rt, name)?;
    if !input.is_terminal() {
        return Err(io::Error::from(ErrorKind::InvalidInput));
    }
    Ok((input, File::options().write(true).open(rt, name)?))
}

/// Whether this is a file with something in it.
fn is_used(about: &Metadata) -> bool {
    about.is_file() && about.len() > 0
}

/// The file of this name to write to, which is made where it is not there. A file that has something in it is refused,
/// so that none is emptied.
fn empty_file(rt: &HostRuntime, name: &str) -> io::Result<File> {
    let file = File::options().write(true).create(true).open(rt, name)?;
    if is_used(&file.metadata()?) {
        return Err(io::Error::from(ErrorKind::AlreadyExists));
    }
    Ok(file)
}

/// The file that a seat reads.
fn open_input(rt: &HostRuntime, name: InputName<'_>) -> io::Result<File> {
    File::open(rt, path_of(name.0))
}

/// The file that a seat writes, which is made where it is not there, and refused where it has something in it.
fn make_output(rt: &HostRuntime, name: OutputName<'_>) -> io::Result<File> {
    empty_file(rt, name.0)
}

/// The seat of this name: a terminal device, or `IN:OUT`, a pair of files or pipes. No file is made to write to where
/// the one to read can't be opened.
fn seat_of(rt: &HostRuntime, name: &str) -> io::Result<Endpoint<SeatConsole>> {
    let (input, output) = match pair_of(name) {
        Some((input, output)) => (open_input(rt, input)?, make_output(rt, output)?),
        None => terminal(rt, name)?,
    };
    let prompt = prompt_at(input.is_terminal()).as_bytes();
    let files = SystemNewFiles::new(rt);
    let console = Streams::new(Input::new(input), Output::new(output), files);
    Ok(Endpoint { console, prompt })
}

/// Whether the seat of this name would write to a file that has something in it.
fn writes_over(rt: &HostRuntime, name: &str) -> bool {
    match pair_of(name) {
        Some((_, output)) => fs::metadata(rt, output.0).is_ok_and(|about| is_used(&about)),
        None => false,
    }
}

/// Makes the folder of this name, or sees that nothing is in it.
fn empty_folder(rt: &HostRuntime, name: &str) -> io::Result<()> {
    match fs::create_dir(rt, name) {
        Ok(()) => Ok(()),
        Err(error) => {
            if error.kind() != ErrorKind::AlreadyExists {
                return Err(error);
            }
            match fs::read_dir(rt, name)?.next() {
                Some(_) => Err(error),
                None => Ok(()),
            }
        }
    }
}

/// Writes a file that was not there. After an error it is not there again.
fn write_first(rt: &HostRuntime, name: &str, bytes: &[u8]) -> io::Result<()> {
    let mut file = File::create_new(rt, name)?;
    let written = file.write_all(bytes);
    if written.is_err() {
        let _ = fs::remove_file(rt, name);
    }
    written
}

/// Writes a file under another name, in the place of what has that, and gives it its own once it is whole.
fn write_new(rt: &HostRuntime, part: &str, name: &str, bytes: &[u8]) -> io::Result<()> {
    let mut file = File::create(rt, part)?;
    file.write_all(bytes)?;
    fs::rename(rt, part, name)
}

/// Writes a file as a whole, in the place of what has its name. After an error that is as it was.
fn replace_file(
    rt: &HostRuntime,
    alloc: Global,
    name: &str,
    bytes: &[u8],
) -> Result<(), OutputFault> {
    let part = format!(in alloc; "{name}.part")?;
    match write_new(rt, part.as_str(), name, bytes) {
        Ok(()) => Ok(()),
        Err(_) => {
            let _ = fs::remove_file(rt, part.as_str());
            Err(OutputFault::Write)
        }
    }
}

/// A file of a page, which is written anew, and whether that failed last.
#[derive(Drop)]
pub struct SystemPage {
    rt: HostRuntime,
    name: String,
    failed: bool,
}

impl Rewritten for SystemPage {
    ghost use Rattle.std.specs.Prelude.{None};

    ghost versions = { λ page. record { texts = None; failed = page.failed } };

    fn rewrite(&mut self, alloc: Global, text: &[u8]) -> Result<(), OutputFault> {
        let replaced = replace_file(&self.rt, alloc, self.name.as_str(), text);
        self.failed = replaced == Err(OutputFault::Write);
        replaced
    }
}

/// The fault of a file that could not be opened, where this is the system's error.
fn fault_of(error: &io::Error) -> ReadFault
    ensures { result ≡ read_fault_of (error_kind error.now) }
{
    match NoMemory::of(error) {
        Some(refused) => ReadFault::NoMemory(refused),
        None => ReadFault::Failed,
    }
}

/// A seat of the system, whose streams are not open yet.
#[derive(Drop)]
pub struct SystemSeat {
    rt: HostRuntime,
    name: String,
}

impl Opener for SystemSeat {
    type Seat = SeatConsole;

    ghost opens = { λ seat opened. Unit {0} };

    fn open(self, _alloc: Global) -> Result<Endpoint<SeatConsole>, ReadFault> {
        match seat_of(&self.rt, self.name.as_str()) {
            Ok(endpoint) => Ok(endpoint),
            Err(error) => Err(fault_of(&error)),
        }
    }
}

impl<'a> Files for SystemFiles<'a> {
    type Seat = SystemSeat;

    type Made = Output<File>;

    type Page = SystemPage;

    type New = SystemNewFiles;

    ghost use Rattle.std.specs.Prelude.{[], None};

    ghost seen = { λ files. record {
      known = [];
      opened = None;
      failures = files.failures;
      seats = [];
      written = None;
    } };

    fn read(&mut self, alloc: Global, name: &str, most: usize) -> Result<Vec<u8>, ReadFault> {
        let read = match File::open(self.rt, path_of(name)) {
            Ok(file) => read_up_to(alloc, &mut Input::new(file), most),
            Err(error) => Err(fault_of(&error)),
        };
        if read == Err(ReadFault::Failed) {
            self.failures = self.failures.wrapping_add(1);
        }
        read
    }

    fn find_seat(&mut self, alloc: Global, name: &str) -> Result<SystemSeat, ReadFault> {
        if writes_over(self.rt, name) {
            self.failures = self.failures.wrapping_add(1);
            return Err(ReadFault::Failed);
        }
        let rt = *self.rt;
        let found = String::from_str(alloc, name)?;
        let name = String::from_str(alloc, name)?;
        self.taken.push(found).map_err(AllocError::from)?;
        Ok(SystemSeat { rt, name })
    }

    fn make_file(&mut self, alloc: Global, name: &str) -> Result<Output<File>, ReadFault> {
        let taken = String::from_str(alloc, name)?;
        self.taken.reserve(1)?;
        let made = if self.is_taken(name) {
            Err(io::Error::from(ErrorKind::AlreadyExists))
        } else {
            empty_file(self.rt, name)
        };
        match made {
            Ok(file) => {
                self.taken.push_reserved(taken);
                Ok(Output::new(file))
            }
            Err(error) => {
                let fault = fault_of(&error);
                if fault == ReadFault::Failed {
                    self.failures = self.failures.wrapping_add(1);
                }
                Err(fault)
            }
        }
    }

    fn make_page(&mut self, alloc: Global, name: &str) -> Result<SystemPage, ReadFault> {
        let page_name = String::from_str(alloc, name)?;
        self.make_file(alloc, name)?;
        Ok(SystemPage {
            rt: *self.rt,
            name: page_name,
            failed: false,
        })
    }

    fn take_folder(&mut self, _alloc: Global, name: &str) -> Result<(), ReadFault> {
        match empty_folder(self.rt, name) {
            Ok(()) => Ok(()),
            Err(error) => {
                let fault = fault_of(&error);
                if fault == ReadFault::Failed {
                    self.failures = self.failures.wrapping_add(1);
                }
                Err(fault)
            }
        }
    }

    fn write_whole(&mut self, alloc: Global, name: &str, bytes: &[u8]) -> Result<(), OutputFault> {
        replace_file(self.rt, alloc, name, bytes)
    }

    fn show_progress(&self, done: u32, all: u32) {
        if done % SHOWN_EACH == 0 && self.rt.stderr().is_terminal() {
            let _ = eprint!(self.rt; "\r{done} of {all} walks");
        }
    }

    fn clear_progress(&self) {
        if self.rt.stderr().is_terminal() {
            let _ = eprint!(self.rt; "\r\x1b[K");
        }
    }
}
