//! What a seat is told of the others.

ghost use Rattle.std.specs.Prelude.{◌≡◌, ◌+◌, ◌<◌, ◌≤◌, ◌++◌, drop, length, replicate, IfOk, OnOk};
ghost use Rattle.cdb_base.specs.Limits.{MAX_ENTRIES};
ghost use Rattle.cdb_commands.specs.ReplyView.{reply_view};
ghost use Rattle.cdb_control.specs.Journal.{AreOfSeats, extended, reply_in};
ghost use Rattle.cdb_setup.specs.Parts.{IsWithin};
ghost use Rattle.cdb_text.specs.Pushes.{Pushes};
ghost use Rattle.cdb_journal.specs.SeatReplies.{news_in, news_line, news_lines, seat_replies_in};

use crate::opening::{carry_out, carry_out_each};
use cdb_base::NoMemory;
use cdb_control::{Control, Entry, Reply, Runs};
use cdb_text::push_reply;
use std::alloc::{AllocError, Global};

/// Adds the line of a reply to a seat, but none of the reader's own.
fn push_line(text: &mut String, reader: u8, seat: u8, reply: &Reply) -> Result<(), AllocError>
    ensures { Pushes result text.old text.new
        (news_line reader (record { seat = seat; reply = reply_view reply.now })) }
{
    if seat == reader {
        return Ok(());
    }
    write!(text, "[{seat}] ")?;
    push_reply(text, reply)
}

/// Carries the command of an entry out, for its seat, and adds its line.
fn push_entry<R: Runs>(
    alloc: Global,
    control: &mut Control<R>,
    reader: u8,
    entry: Entry,
    text: &mut String,
) -> Result<(), NoMemory>
    requires seat { IsWithin 1 control.old.seats entry.seat }
    requires room { length control.old.journal < MAX_ENTRIES }
    ensures done { OnOk result (control.new ≡ extended R.rules control.old entry.seat entry.command) }
    ensures text { Pushes result text.old text.new (news_line reader
        (record { seat = entry.seat; reply = reply_in R.rules control.old entry.seat entry.command })) }
{
    let seat = entry.seat;
    let reply = carry_out(alloc, control, entry)?;
    let pushed = push_line(text, reader, seat, &reply);
    reply.close();
    pushed?;
    Ok(())
}

/// Carries the commands of these entries out, one after the other, each for its seat, and adds their lines. No seat
/// has room.
fn push_each<R: Runs>(
    alloc: Global,
    control: &mut Control<R>,
    reader: u8,
    entries: &[Entry],
    text: &mut String,
) -> Result<(), NoMemory>
    requires seats { AreOfSeats control.old.seats entries.now }
    requires few { length control.old.journal + length entries.now ≤ MAX_ENTRIES }
    requires rooms { control.old.rooms ≡ replicate control.old.seats 0 }
    ensures control { OnOk result
        (control.new ≡ record control.old { journal = control.old.journal ++ entries.now }) }
    ensures text { Pushes result text.old text.new
        (news_lines reader (drop (length control.old.journal) (seat_replies_in R.rules control.new))) }
{
    for entry in entries {
        push_entry(alloc, control, reader, *entry, text)?;
    }
    Ok(())
}

/// Carries these entries out as `follow` does.
fn push_news<R: Runs>(
    alloc: Global,
    control: &mut Control<R>,
    seat: u8,
    entries: &[Entry],
    from: usize,
) -> Result<Vec<u8>, NoMemory>
    requires seats { AreOfSeats control.old.seats entries.now }
    requires few { length control.old.journal + length entries.now ≤ MAX_ENTRIES }
    requires rooms { control.old.rooms ≡ replicate control.old.seats 0 }
    requires from { length control.old.journal ≤ from }
    ensures control { OnOk result
        (control.new ≡ record control.old { journal = control.old.journal ++ entries.now }) }
    ensures news { IfOk result (λ text. text.items ≡ news_in R.rules control.new seat from) }
{
    let silent = (from - control.journal().len()).min(entries.len());
    carry_out_each(alloc, control, &entries[..silent])?;
    let mut text = String::new(alloc);
    push_each(alloc, control, seat, &entries[silent..], &mut text)?;
    Ok(text.into_bytes())
}

/// Carries out on a control, which has a beginning of a journal, the entries that follow there, and tells a seat the
/// news from entry `from` of the journal on, which the control had not: of each entry of another seat `[S] REPLY`, the
/// number of its seat and the text of its reply. After `NoMemory` the control is gone.
///
/// Promise: News tell each entry of the others once, in the order of the journal, with the reply that its seat had, and
/// none of the reader's own.
pub fn follow<R: Runs>(
    alloc: Global,
    mut control: Control<R>,
    seat: u8,
    entries: &[Entry],
    from: usize,
) -> Result<(Control<R>, Vec<u8>), NoMemory>
    requires seats { AreOfSeats control.seats entries.now }
    requires few { length control.journal + length entries.now ≤ MAX_ENTRIES }
    requires rooms { control.rooms ≡ replicate control.seats 0 }
    requires from { length control.journal ≤ from }
    ensures control { IfOk result
        (λ followed. followed.0 ≡ record control { journal = control.journal ++ entries.now }) }
    ensures news { IfOk result (λ followed. followed.1.items ≡ news_in R.rules followed.0 seat from) }
{
    match push_news(alloc, &mut control, seat, entries, from) {
        Ok(text) => Ok((control, text)),
        Err(refused) => {
            control.close();
            Err(refused)
        }
    }
}
