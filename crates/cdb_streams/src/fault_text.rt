//! The lines that report faults. They are written without allocating.

ghost use Rattle.std.specs.Prelude.{Some};
ghost use Rattle.cdb_setup.specs.Numbers.{numbered_text, setup_fault_text};
ghost use Rattle.cdb_streams.specs.FaultTexts.{as_line, play_fault_text, race_fault_text};
ghost use Rattle.cdb_streams.specs.FaultTexts.{script_line_text, long_script_text};
ghost use Rattle.cdb_streams.specs.Streams.{Writes};

use crate::fault::{PlayFault, RaceFault};
use crate::piece::Piece::{Number, Text};
use crate::piece::{Piece, write_each};
use crate::sink::{Failed, Sink};
use cdb_setup::SetupFault;
use cdb_text::LineFault;

const NO_MEMORY: &str = "no memory";

const OUTPUT_FAILED: &str = "output failed";

const END: Piece<'static> = Text("\n");

/// A fault of a setup that has this number: after its name its key, its position, or its process and position.
fn write_numbered<W: Sink>(number: u8, fault: &SetupFault, err: &mut W) -> Result<(), Failed>
    ensures { Writes W.stream result err.old err.new
        (as_line (numbered_text (Some number) fault.now)) }
{
    let (start, space) = (Text("setup fault "), Text(" "));
    let (number, name) = (Number(usize::from(number)), Text(fault.name()));
    match fault {
        SetupFault::Missing(key) => {
            let key = Text(key.name());
            write_each(err, &[start, number, space, name, space, key, END])
        }
        SetupFault::BadInput(position) => {
            let position = Number(*position);
            write_each(err, &[start, number, space, name, space, position, END])
        }
        SetupFault::BadOracle(process, position) => {
            let (process, position) = (Number(*process), Number(*position));
            let pieces = [
                start, number, space, name, space, process, space, position, END,
            ];
            write_each(err, &pieces)
        }
        _ => write_each(err, &[start, number, space, name, END]),
    }
}

fn write_setup_fault<W: Sink>(fault: &SetupFault, err: &mut W) -> Result<(), Failed>
    ensures { Writes W.stream result err.old err.new (as_line (setup_fault_text fault.now)) }
{
    match fault.number() {
        Some(number) => write_numbered(number, fault, err),
        None => write_words(NO_MEMORY, err),
    }
}

fn write_line_fault<W: Sink>(
    script: usize,
    line: usize,
    fault: LineFault,
    err: &mut W,
) -> Result<(), Failed>
    ensures { Writes W.stream result err.old err.new
        (as_line (script_line_text script line fault)) }
{
    let (script, line) = (Number(script), Number(line));
    let (number, name) = (Number(usize::from(fault.number())), Text(fault.name()));
    let pieces = [
        Text("script "),
        script,
        Text(" line "),
        line,
        Text(" fault "),
        number,
        Text(" "),
        name,
        END,
    ];
    write_each(err, &pieces)
}

fn write_too_long<W: Sink>(script: usize, err: &mut W) -> Result<(), Failed>
    ensures { Writes W.stream result err.old err.new (as_line (long_script_text script)) }
{
    write_each(
        err,
        &[Text("script "), Number(script), Text(" too long"), END],
    )
}

/// A line of these words.
fn write_words<W: Sink>(words: &str, err: &mut W) -> Result<(), Failed>
    ensures { Writes W.stream result err.old err.new (as_line words.now) }
{
    write_each(err, &[Text(words), END])
}

/// Writes the line that reports a fault. The name is that of what could not be read. Where the writer fails, what
/// was written is a beginning of the line.
///
/// Promise: The text of a fault is written without memory, and is that of its `Display`.
pub fn write_fault<W: Sink>(fault: &PlayFault, name: &str, err: &mut W) -> Result<(), Failed>
    ensures { Writes W.stream result err.old err.new
        (as_line (play_fault_text fault.now name.now)) }
{
    match fault {
        PlayFault::Setup(fault) => write_setup_fault(fault, err),
        PlayFault::Line(script, line, fault) => write_line_fault(*script, *line, *fault, err),
        PlayFault::ScriptTooLong(script) => write_too_long(*script, err),
        PlayFault::Read => write_each(err, &[Text("cannot read "), Text(name), END]),
        PlayFault::Write => write_words(OUTPUT_FAILED, err),
        PlayFault::NoMemory(_) => write_words(NO_MEMORY, err),
    }
}

/// Writes the line that reports a fault of a race. Where the writer fails, what was written is a beginning of it.
pub fn write_race_fault<W: Sink>(fault: &RaceFault, err: &mut W) -> Result<(), Failed>
    ensures { Writes W.stream result err.old err.new (as_line (race_fault_text fault.now)) }
{
    match fault {
        RaceFault::Play(fault) => write_fault(fault, "the input", err),
        RaceFault::JournalFull => write_words("journal full", err),
        RaceFault::Spawn(_) | RaceFault::Stopped(_) => write_words("no thread", err),
    }
}
