//! A journal is played again: its commands are carried out one after the other, each for its seat, and each reply is
//! written.

ghost use Rattle.std.specs.Prelude.{◌≡◌, ◌+◌, ◌<◌, ◌≤◌, [], ◌++◌, codes, decimal, length, replicate};
ghost use Rattle.std.specs.Prelude.{Err, IfErr, IfOk, OnOk};
ghost use Rattle.cdb_base.specs.Limits.{MAX_ENTRIES, MAX_SEATS};
ghost use Rattle.cdb_control.specs.Journal.{AreOfSeats, control_state, extended, reply_in};
ghost use Rattle.cdb_setup.specs.Parts.{IsWithin};
ghost use Rattle.cdb_setup.specs.declared.fault.SetupFault.{SetupFault as SetupFaultName};
ghost use Rattle.cdb_streams.specs.PiecesPut.{Puts};
ghost use Rattle.cdb_streams.specs.Endings.{pieces_ending, play_ending};
ghost use Rattle.cdb_streams.specs.Streams.{FailsWhere};
ghost use Rattle.cdb_streams.specs.Written.{IsWritten, Only};
ghost use Rattle.cdb_journal.specs.Replays.{IsFaultOfReplay, Replays, RepliesAgain};
ghost use Rattle.cdb_journal.specs.SeatReplies.{seat_replies_along, seat_replies_from, seat_reply_line};
ghost use Rattle.cdb_journal.specs.SeatReplies.{seat_replies_text};

use crate::laws;
use crate::opening::{carry_out, open_on};
use crate::reading::read_entries;
use cdb_base::limits::MAX_SEATS;
use cdb_control::{Control, Entry, Runs};
use cdb_setup::Setup;
use cdb_streams::{Buffer, OutputFault, PlayFault, Sink, Source, put_reply};
use itoa::Buffer as Digits;
use std::alloc::Global;

/// Carries a command out for its seat, and puts the line of the reply, whose text is made in `text`.
fn perform<T: Runs, W: Sink>(
    alloc: Global,
    control: &mut Control<T>,
    entry: Entry,
    text: &mut String,
    buffer: &mut Buffer,
    out: &mut W,
) -> Result<(), OutputFault>
    requires seat { IsWithin 1 control.old.seats entry.seat }
    requires room { length control.old.journal < MAX_ENTRIES }
    ensures done { OnOk result (control.new ≡ extended T.rules control.old entry.seat entry.command) }
    ensures put { Puts W.stream result out.old buffer.old out.new buffer.new
        (seat_reply_line entry.seat (reply_in T.rules control.old entry.seat entry.command)) }
{
    let seat = entry.seat;
    let reply = carry_out(alloc, control, entry)?;
    let mut digits = Digits::new();
    buffer.put(out, digits.format(seat).as_bytes())?;
    buffer.put(out, b" ")?;
    put_reply(&reply, text, buffer, out)
}

/// Carries the commands out, one after the other, each for its seat, and puts the line of each reply, whose text is
/// made in `text`. No seat has room. After an error what was put is a beginning of the lines.
fn perform_each<T: Runs, W: Sink>(
    alloc: Global,
    control: &mut Control<T>,
    entries: &[Entry],
    text: &mut String,
    buffer: &mut Buffer,
    out: &mut W,
) -> Result<(), OutputFault>
    requires seats { AreOfSeats control.old.seats entries.now }
    requires room { length control.old.journal + length entries.now ≤ MAX_ENTRIES }
    requires rooms { control.old.rooms ≡ replicate control.old.seats 0 }
    ensures { Puts W.stream result out.old buffer.old out.new buffer.new
        (seat_replies_text (seat_replies_from (T.rules control.old.setup) (control_state T.rules control.old)
        entries.now)) }
{
    for entry in entries {
        perform(alloc, control, *entry, text, buffer, out)?;
    }
    Ok(())
}

/// Carries the commands out as `perform_each` does, on a run of the setup.
fn perform_all<T: Runs, W: Sink>(
    alloc: Global,
    setup: Setup,
    entries: &[Entry],
    buffer: &mut Buffer,
    out: &mut W,
) -> Result<(), OutputFault>
    requires seats { AreOfSeats MAX_SEATS entries.now }
    requires room { length entries.now ≤ MAX_ENTRIES }
    ensures { Puts W.stream result out.old buffer.old out.new buffer.new
        (seat_replies_text (seat_replies_along (T.rules setup) setup MAX_SEATS entries.now)) }
{
    let mut control = open_on::<T>(alloc, setup, MAX_SEATS, &[])?;
    let mut text = String::new(alloc);
    let performed = perform_each(alloc, &mut control, entries, &mut text, buffer, out);
    control.close();
    performed
}

/// Carries the commands out as `perform_all` does, and writes the lines in pieces.
fn write_replies<T: Runs, W: Sink>(
    alloc: Global,
    setup: Setup,
    entries: &[Entry],
    out: &mut W,
) -> Result<(), OutputFault>
    requires seats { AreOfSeats MAX_SEATS entries.now }
    requires room { length entries.now ≤ MAX_ENTRIES }
    ensures { IsWritten W.stream (pieces_ending result) out.old out.new
        (Only (seat_replies_text (seat_replies_along (T.rules setup) setup MAX_SEATS entries.now))) }
{
    let mut buffer = Buffer::new(alloc)?;
    perform_all::<T, W>(alloc, setup, entries, &mut buffer, out)?;
    buffer.flush(out)?;
    Ok(())
}

/// Plays a journal again on a run of the setup, with seats 1 to 64, and writes `S REPLY` for each entry: the number of
/// its seat, and the text of its reply.
///
/// The setup is read first, then the whole journal, then all its lines, each `S LINE`: so after `Setup` the journal is
/// not read, and after `Setup`, `Read`, `ScriptTooLong` and `Line` nothing was written. After `Write` what was written
/// is a beginning of the lines, and after `NoMemory` one of whole pieces of 65,536 bytes. `Read` and `Write` come only
/// where the reader or the writer failed in this call. A setup that is too long is refused as such, and never as out of
/// memory.
///
/// Promise: A journal that was written, with however many seats, is read back, and each seat is told again what it was
/// told.
pub fn replay<T: Runs, R: Source, W: Sink>(
    alloc: Global,
    setup: &[u8],
    journal: &mut R,
    out: &mut W,
) -> Result<(), PlayFault>
    ensures wrote { IsWritten W.stream (play_ending result) out.old out.new
        (Replays T.rules setup.now (R.stream journal.old) (R.stream journal.new)) }
    ensures again { IsWritten W.stream (play_ending result) out.old out.new
        (RepliesAgain T.rules setup.now (R.stream journal.old) (R.stream journal.new)) }
    ensures fault { IfErr result
        (IsFaultOfReplay setup.now (R.stream journal.old) (R.stream journal.new)) }
    ensures unread { (fault : SetupFaultName) → result ≡ Err (PlayFault.Setup fault) →
        journal.new ≡ journal.old }
    ensures read { FailsWhere R.stream (result ≡ Err PlayFault.Read) journal.old journal.new }
{
    // Its clause says that a journal that was written is read back, and that its seats are told the same.
    laws::journals_are_replayed();
    let setup = Setup::read(alloc, setup)?;
    let entries = read_entries(alloc, journal)?;
    write_replies::<T, W>(alloc, setup, entries.as_slice(), out)?;
    Ok(())
}
