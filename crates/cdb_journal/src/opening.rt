//! A control that goes on from a journal.

ghost use Rattle.std.specs.Prelude.{◌≡◌, ◌+◌, ◌<◌, ◌≤◌, ◌++◌, length, replicate, IfErr, IfOk, OnOk};
ghost use Rattle.cdb_base.specs.Limits.{MAX_ENTRIES, MAX_SEATS};
ghost use Rattle.cdb_commands.specs.ReplyView.{reply_view};
ghost use Rattle.cdb_control.specs.Journal.{AreOfSeats, extended, reply_in};
ghost use Rattle.cdb_setup.specs.Parts.{IsWithin};
ghost use Rattle.cdb_journal.specs.OpenedFrom.{IsFaultOfOpening, IsJournalOf, IsOpenedFrom, first_beyond, opened_from};

use crate::reading::entries_of;
use cdb_base::NoMemory;
use cdb_control::{CallFault, Control, Entry, OpenFault, Reply, Runs};
use cdb_setup::Setup;
use cdb_streams::ScriptFault;
use cdb_text::LineFault;
use std::alloc::Global;

/// The index of the first entry of a seat above `seats`.
fn first_beyond(entries: &[Entry], seats: u8) -> Option<usize>
    ensures { result ≡ first_beyond seats entries.now }
{
    entries.iter().position(|entry| entry.seat > seats)
}

/// The entries of a journal's text, each of a seat from 1 to `seats`.
fn entries_for(alloc: Global, text: &[u8], seats: u8) -> Result<Vec<Entry>, ScriptFault>
    ensures entries { IfOk result (λ entries. IsJournalOf seats entries.items text.now) }
    ensures fault { IfErr result (IsFaultOfOpening seats text.now) }
{
    let entries = entries_of(alloc, text)?;
    match first_beyond(entries.as_slice(), seats) {
        Some(index) => Err(ScriptFault::Line(index + 1, LineFault::Number)),
        None => Ok(entries),
    }
}

/// Carries the command of an entry out, for its seat, in a journal with room for it.
pub(crate) fn carry_out<R: Runs>(
    alloc: Global,
    control: &mut Control<R>,
    entry: Entry,
) -> Result<Reply, NoMemory>
    requires seat { IsWithin 1 control.old.seats entry.seat }
    requires room { length control.old.journal < MAX_ENTRIES }
    ensures done { OnOk result (control.new ≡ extended R.rules control.old entry.seat entry.command) }
    ensures reply { IfOk result
        (λ reply. reply_view reply ≡ reply_in R.rules control.old entry.seat entry.command) }
{
    match control.execute(alloc, entry.seat, entry.command) {
        Ok(reply) => Ok(reply),
        Err(CallFault::JournalFull) => unreachable!(),
        Err(CallFault::NoMemory(refused)) => Err(refused),
    }
}

/// Carries the commands of these entries out, one after the other, each for its seat. No seat has room.
pub(crate) fn carry_out_each<R: Runs>(
    alloc: Global,
    control: &mut Control<R>,
    entries: &[Entry],
) -> Result<(), NoMemory>
    requires seats { AreOfSeats control.old.seats entries.now }
    requires few { length control.old.journal + length entries.now ≤ MAX_ENTRIES }
    requires rooms { control.old.rooms ≡ replicate control.old.seats 0 }
    ensures { OnOk result
        (control.new ≡ record control.old { journal = control.old.journal ++ entries.now }) }
{
    for entry in entries {
        carry_out(alloc, control, *entry)?.close();
    }
    Ok(())
}

/// A control of the setup with 1 to 64 seats on which these entries were carried out. No seat has room.
pub fn open_on<R: Runs>(
    alloc: Global,
    setup: Setup,
    seats: u8,
    entries: &[Entry],
) -> Result<Control<R>, NoMemory>
    requires from_one { 1 ≤ seats }
    requires to_last { seats ≤ MAX_SEATS }
    requires seats { AreOfSeats seats entries.now }
    requires few { length entries.now ≤ MAX_ENTRIES }
    ensures { IfOk result (λ control. control ≡ opened_from setup seats entries.now) }
{
    let mut control = match Control::open(alloc, setup, seats) {
        Ok(control) => control,
        Err(OpenFault::NoMemory(refused)) => return Err(refused),
        Err(OpenFault::Seats) => unreachable!(),
    };
    match carry_out_each(alloc, &mut control, entries) {
        Ok(()) => Ok(control),
        Err(refused) => {
            control.close();
            Err(refused)
        }
    }
}

/// A control of the setup with 1 to 64 seats on which the entries of a journal were carried out, in their order; a text
/// without bytes is a journal without entries. No seat has room.
///
/// # Errors
/// `TooLong` and `Line` where the text is no journal, as of `entries_of`. Where it is one, `Line` with the fault Number
/// for the first line of a seat beyond the last. `NoMemory` where an allocation fails, but not in place of `TooLong`.
///
/// Promise: Sessions that go on from a journal begin with exactly its entries carried out.
pub fn open_from<R: Runs>(
    alloc: Global,
    setup: Setup,
    seats: u8,
    journal: &[u8],
) -> Result<Control<R>, ScriptFault>
    requires from_one { 1 ≤ seats }
    requires to_last { seats ≤ MAX_SEATS }
    ensures control { IfOk result (IsOpenedFrom setup seats journal.now) }
    ensures fault { IfErr result (IsFaultOfOpening seats journal.now) }
{
    let entries = entries_for(alloc, journal, seats)?;
    open_on(alloc, setup, seats, entries.as_slice()).map_err(ScriptFault::NoMemory)
}
