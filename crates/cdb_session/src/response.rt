//! The texts of responses that are no replies.

ghost use Rattle.std.specs.Prelude.{◌++◌, codes};
ghost use Rattle.cdb_text.specs.Pushes.{Pushes};
ghost use Rattle.cdb_session.specs.Dialogues.{fault_of_line_text, fault_response, faulty_line_text, long_line_text};
ghost use Rattle.cdb_session.specs.Dialogues.{watch_text};
ghost use Rattle.cdb_session.specs.Due.{stands};
ghost use Rattle.cdb_session.specs.Requests.{seat_line};

use crate::due::{Due, push_amiss, push_word};
use crate::request::FaultyLine;
use cdb_text::LineFault;
use std::alloc::{AllocError, Global};

/// `seat S`.
pub(crate) fn push_seat(text: &mut String, seat: u8) -> Result<(), AllocError>
    ensures { Pushes result text.old text.new (seat_line seat ++ codes "\n") }
{
    writeln!(text, "seat {seat}")
}

/// `watching`, or `not watching`.
pub(crate) fn push_watch(text: &mut String, begins: bool) -> Result<(), AllocError>
    ensures { Pushes result text.old text.new (watch_text begins) }
{
    if begins {
        return text.push_str("watching\n");
    }
    text.push_str("not watching\n")
}

/// Adds `line L fault N Name`.
fn push_fault(text: &mut String, line: u64, fault: LineFault) -> Result<(), AllocError>
    ensures { Pushes result text.old text.new (fault_of_line_text line fault) }
{
    let (number, name) = (fault.number(), fault.name());
    write!(text, "line {line} fault {number} {name}")
}

/// Adds the response to a line of this number that begins with a word which can't begin one here, as a line.
pub(crate) fn push_no_command(text: &mut String, line: u64, word: &[u8]) -> Result<(), AllocError>
    ensures { Pushes result text.old text.new
        (faulty_line_text line LineFault.Word (stands Due.Command word.now)) }
{
    push_fault(text, line, LineFault::Word)?;
    push_word(text, Due::Command, word)?;
    text.push('\n')
}

/// Adds the response to a line of this number that is no command, as a line: `line L fault N Name`, and what is amiss.
pub(crate) fn push_faulty(
    alloc: Global,
    text: &mut String,
    line: u64,
    chooses: bool,
    faulty: &FaultyLine<'_>,
) -> Result<(), AllocError>
    ensures { Pushes result text.old text.new (fault_response line chooses faulty.now) }
{
    if faulty.fault == LineFault::Empty {
        return Ok(());
    }
    push_fault(text, line, faulty.fault)?;
    push_amiss(alloc, text, chooses, faulty.line)?;
    text.push('\n')
}

/// Adds `line L too long` at the end of a text, as a line. Only out of memory is an error.
pub(crate) fn push_too_long(text: &mut String, line: u64) -> Result<(), AllocError>
    ensures { Pushes result text.old text.new (long_line_text line) }
{
    writeln!(text, "line {line} too long")
}
