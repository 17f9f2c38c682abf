//! Lines of a journal.

ghost use Rattle.std.specs.Prelude.{◌≡◌, ◌↔◌, ℕ, Ok, Err};
ghost use Rattle.cdb_commands.specs.declared.command.Command.{Command as CommandName};
ghost use Rattle.cdb_text.specs.declared.fault.LineFault.{LineFault as LineFaultName};
ghost use Rattle.cdb_base.specs.Results.{MapsTo};
ghost use Rattle.cdb_text.specs.Entries.{IsEntryLine, IsFaultOfEntry};
ghost use Rattle.cdb_text.specs.Lines.{seat_at, entry_at};

use crate::fault::LineFault;
use crate::line::command;
use crate::words::Words;
use cdb_base::limits::MAX_SEATS;
use cdb_commands::Command;

/// The next word, which is the number of a seat.
fn seat(words: &mut Words<'_>) -> Result<u8, LineFault>
    ensures { MapsTo (λ seat. (seat, words.new)) result (seat_at words.old) }
{
    let number = words.number()?;
    if number > u32::from(MAX_SEATS) {
        return Err(LineFault::Number);
    }
    Ok(number as u8)
}

/// The seat and the command of the words of a line.
fn entry(mut words: Words<'_>) -> Result<(u8, Command), LineFault>
    ensures { result ≡ entry_at words.entry }
{
    let seat = seat(&mut words)?;
    let command = command(words)?;
    Ok((seat, command))
}

/// The seat, from 1 to 64, and the command of a line of a journal, which is given without the byte 10 at its end; else
/// the first fault of the line, read from the left: a first word that is no seat is a bad number. It allocates nothing.
pub fn parse_entry(line: &[u8]) -> Result<(u8, Command), LineFault>
    ensures entry { (seat : ℕ) (command : CommandName) →
        (result ≡ Ok (seat, command)) ↔ IsEntryLine seat command line.now }
    ensures fault { (fault : LineFaultName) →
        (result ≡ Err fault) ↔ IsFaultOfEntry fault line.now }
{
    if line.is_empty() {
        return Err(LineFault::Empty);
    }
    entry(Words::of(line))
}
