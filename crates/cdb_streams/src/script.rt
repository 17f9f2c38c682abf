//! The commands of a script.

ghost use Rattle.std.specs.Prelude.{◌≡◌, ◌+◌, ◌*◌, ◌/◌, ◌<◌, ◌≤◌, [], ◌∷◌, ◌++◌, length};
ghost use Rattle.std.specs.Prelude.{Some, Err, IfOk, IfErr, OnOk, codes};
ghost use Rattle.cdb_base.specs.Limits.{MAX_ENTRIES};
ghost use Rattle.cdb_base.specs.Memory.{no_memory};
ghost use Rattle.cdb_setup.specs.Format.{longest};
ghost use Rattle.cdb_streams.specs.FaultTexts.{play_fault_text};
ghost use Rattle.cdb_streams.specs.Faults.{IsFaultOfReading, of_script, of_script_at};
ghost use Rattle.cdb_streams.specs.Lines.{lines_of};
ghost use Rattle.cdb_streams.specs.Scripts.{AreCommandsOf, GivesCommands, IsFaultOfScript};
ghost use Rattle.cdb_streams.specs.Streams.{FailsWhere};
ghost use Rattle.cdb_streams.specs.declared.script.ScriptFault.TheVariants.{NoMemory as out_of_memory};

use crate::fault::PlayFault;
use crate::lines::first_line;
use crate::source::{Source, read_up_to};
use cdb_base::limits::MAX_BYTES;
use cdb_base::{Act, NoMemory, Reg};
use cdb_commands::{Command, Stop, View};
use cdb_text::{LineFault, parse_line};
use std::alloc::{AllocError, Global};
use std::error::Error;
use std::fmt;

/// How many bytes the shortest line of a command has, which is `redo` and the byte 10 at its end.
const SHORTEST_LINE: usize = 5;

/// Why a script can't be played.
#[derive(Clone, Copy, Debug, PartialEq, Eq)]
pub enum ScriptFault {
    /// The line of this number, counted from 1, is no command. It is the first such line.
    Line(usize, LineFault),
    /// The script has more than 1,048,576 bytes.
    TooLong,
    NoMemory(NoMemory),
}

impl ScriptFault {
    /// The fault of a play or of a race whose script of this number has it.
    pub fn at(self, script: usize) -> PlayFault
        ensures { result ≡ of_script_at script self }
    {
        match self {
            ScriptFault::Line(line, fault) => PlayFault::Line(script, line, fault),
            ScriptFault::TooLong => PlayFault::ScriptTooLong(script),
            ScriptFault::NoMemory(refused) => PlayFault::NoMemory(refused),
        }
    }
}

/// The text of the fault of a play.
impl fmt::Display for ScriptFault {
    ghost output = { λ fault. Some (play_fault_text (of_script fault) (codes "the input")) };

    fn fmt<W: fmt::Write>(&self, f: &mut fmt::Formatter<W>) -> fmt::Result {
        let fault = PlayFault::from(*self);
        write!(f, "{fault}")
    }
}

impl Error for ScriptFault {}

impl From<AllocError> for ScriptFault {
    ghost from_gives = { λ _ made. made ≡ out_of_memory no_memory };

    fn from(error: AllocError) -> Self {
        ScriptFault::NoMemory(NoMemory::from(error))
    }
}

/// Adds a command.
fn push_command(commands: &mut Vec<Command>, command: Command) -> Result<(), AllocError>
    ensures { OnOk result (commands.new.items ≡ commands.old.items ++ command ∷ []) }
{
    // Names each type inside a command: the checker asks for that where a command is passed for a type parameter.
    let _parts: (Option<Stop>, Option<Act>, Option<View>, Option<Reg>) = (None, None, None, None);
    match commands.push(command) {
        Ok(()) => Ok(()),
        Err(error) => Err(AllocError::from(error)),
    }
}

/// How many commands a script of this many bytes has at most.
fn most_commands(bytes: usize) -> usize
    ensures { result ≡ 1 + bytes / 5 }
{
    1 + bytes / SHORTEST_LINE
}

/// The commands of the lines of a script, in their order. Where a line is no command, the first such line is
/// named with its first fault. A script that is too long is refused as such, and never as out of memory.
pub fn commands_of(alloc: Global, script: &[u8]) -> Result<Vec<Command>, ScriptFault>
    ensures commands { IfOk result
        (λ commands. AreCommandsOf commands.items (lines_of script.now)) }
    // No line is empty, so two bytes at least stand for each but the last.
    ensures few { IfOk result (λ commands. 2 * length commands.items ≤ length script.now + 1) }
    ensures short { IfOk result (λ _. length script.now ≤ longest) }
    ensures fault { IfErr result (λ fault. IsFaultOfScript fault script.now) }
{
    if script.len() > MAX_BYTES {
        return Err(ScriptFault::TooLong);
    }
    let mut commands = Vec::with_capacity(alloc, most_commands(script.len()))?;
    let mut rest = script;
    while !rest.is_empty() {
        let (line, behind) = first_line(rest);
        match parse_line(line) {
            Ok(command) => push_command(&mut commands, command)?,
            Err(fault) => return Err(ScriptFault::Line(commands.len() + 1, fault)),
        }
        rest = behind;
    }
    Ok(commands)
}

/// Reads a script to its end, and returns its commands. The bytes are kept no longer.
pub fn read_commands<R: Source>(alloc: Global, script: &mut R) -> Result<Vec<Command>, PlayFault>
    ensures commands { IfOk result (λ commands. GivesCommands
        (R.stream script.old) (R.stream script.new) commands.items) }
    ensures few { IfOk result (λ commands. length commands.items < MAX_ENTRIES) }
    ensures fault { IfErr result (IsFaultOfReading (R.stream script.old) (R.stream script.new)) }
    ensures read { FailsWhere R.stream (result ≡ Err PlayFault.Read) script.old script.new }
{
    let bytes = read_up_to(alloc, script, MAX_BYTES + 1)?;
    let commands = commands_of(alloc, bytes.as_slice())?;
    Ok(commands)
}
