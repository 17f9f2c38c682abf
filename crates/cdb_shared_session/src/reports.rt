//! What is reported once all sessions have ended: the journal, what failed, and the status.

ghost use Rattle.std.specs.Prelude.{◌≡◌, ◌≤◌, ◌++◌, length};
ghost use Rattle.cdb_streams.specs.Endings.{whole_ending};
ghost use Rattle.cdb_streams.specs.Streams.{Writes};
ghost use Rattle.cdb_streams.specs.Written.{IsWritten, Only};
ghost use Rattle.cdb_journal.specs.Journals.{journal_text};
ghost use Rattle.cdb_shared_session.specs.Reports.{outcomes, seat_name, failed_seat_line};
ghost use Rattle.cdb_shared_session.specs.Reports.{failed_seat_lines, seats_status};
ghost use Rattle.cdb_shared_session.specs.Reports.{journal_line, kept_line, failures_text, status_of as status_is};

use crate::endpoint::Finished;
use cdb_base::limits::MAX_SEATS;
use cdb_control::Entry;
use cdb_journal::journal_text;
use cdb_streams::{
    Failed, OutputFault, Piece, PlayFault, Sink, status_of, write_all, write_each, write_fault,
};
use std::alloc::Global;

/// Writes a text.
fn put<W: Sink>(text: &[u8], out: &mut W) -> Result<(), OutputFault>
    ensures { IsWritten W.stream (whole_ending result) out.old out.new (Only text.now) }
{
    match write_all(out, text) {
        Ok(()) => Ok(()),
        Err(_) => Err(OutputFault::Write),
    }
}

/// Writes a journal: a line for each entry, with the number of its seat and its command.
///
/// # Errors
/// `Write` where the writer fails: what was written is a beginning of the journal. `NoMemory` where an allocation
/// fails: nothing was written.
pub fn write_journal<W: Sink>(
    alloc: Global,
    journal: &[Entry],
    out: &mut W,
) -> Result<(), OutputFault>
    ensures { IsWritten W.stream (whole_ending result) out.old out.new
        (Only (journal_text journal.now)) }
{
    match journal_text(alloc, journal) {
        Ok(text) => put(text.as_slice(), out),
        Err(refused) => Err(OutputFault::NoMemory(refused)),
    }
}

/// Writes `seat S: `.
fn write_name<W: Sink>(seat: u8, out: &mut W) -> Result<(), Failed>
    ensures { Writes W.stream result out.old out.new (seat_name seat) }
{
    write_each(
        out,
        &[
            Piece::Text("seat "),
            Piece::Number(usize::from(seat)),
            Piece::Text(": "),
        ],
    )
}

/// Writes the line of a seat whose session ended so, if that was with a fault.
fn write_seat<W: Sink>(seat: u8, outcome: &Result<(), PlayFault>, out: &mut W) -> Result<(), Failed>
    ensures { Writes W.stream result out.old out.new (failed_seat_line seat outcome.now) }
{
    match outcome {
        Ok(()) => Ok(()),
        Err(fault) => {
            write_name(seat, out)?;
            write_fault(fault, "the input", out)
        }
    }
}

/// Writes a line for each seat whose session failed, with its number and the fault.
fn write_seats<T, W: Sink>(finished: &[Finished<T>], out: &mut W) -> Result<(), Failed>
    requires { length finished.now ≤ MAX_SEATS }
    ensures { Writes W.stream result out.old out.new (failed_seat_lines 1 (outcomes finished.now)) }
{
    let mut seat = 0u8;
    for its in finished {
        seat += 1;
        write_seat(seat, &its.outcome, out)?;
    }
    Ok(())
}

/// Writes the line of a journal that was not written, if it was not.
fn write_journal_fault<W: Sink>(
    written: &Result<(), OutputFault>,
    out: &mut W,
) -> Result<(), Failed>
    ensures { Writes W.stream result out.old out.new (journal_line written.now) }
{
    match written {
        Ok(()) => Ok(()),
        Err(fault) => write_fault(&PlayFault::from(*fault), "the input", out),
    }
}

/// Writes the line of a file in which the journal was not kept, if it was not. Where the writer fails, what was written
/// is a beginning of the line.
pub fn write_kept_fault<W: Sink>(kept: &Result<(), OutputFault>, out: &mut W) -> Result<(), Failed>
    ensures { Writes W.stream result out.old out.new (kept_line kept.now) }
{
    match kept {
        Ok(()) => Ok(()),
        Err(fault) => {
            write_all(out, b"journal: ")?;
            write_fault(&PlayFault::from(*fault), "the input", out)
        }
    }
}

/// Writes the lines of a journal that was not written, and of a file in which it was not kept.
#[tactic(auto, using(crate::proofs::WrittenTexts::cut_off, crate::proofs::WrittenTexts::writes_then))]
fn write_journal_faults<W: Sink>(
    written: &Result<(), OutputFault>,
    kept: &Result<(), OutputFault>,
    out: &mut W,
) -> Result<(), Failed>
    ensures { Writes W.stream result out.old out.new (journal_line written.now ++ kept_line kept.now) }
{
    write_journal_fault(written, out)?;
    write_kept_fault(kept, out)
}

/// Writes a line for each seat whose session failed, with its number and the fault, in the order of the seats, of which
/// there are at most 64, and then one for a journal that was not written, and one for a file in which it was not kept.
/// It takes no memory, and where the writer
/// fails, what was written is a beginning of the lines.
#[tactic(auto, using(crate::proofs::WrittenTexts::cut_off, crate::proofs::WrittenTexts::writes_then))]
pub fn write_failures<T, W: Sink>(
    finished: &[Finished<T>],
    written: &Result<(), OutputFault>,
    kept: &Result<(), OutputFault>,
    out: &mut W,
) -> Result<(), Failed>
    requires { length finished.now ≤ MAX_SEATS }
    ensures { Writes W.stream result out.old out.new
        (failures_text written.now kept.now (outcomes finished.now)) }
{
    write_seats(finished, out)?;
    write_journal_faults(written, kept, out)
}

/// The status of the least seat whose session failed, 3, 6 or 7, and 0 where none did.
#[tactic(auto, using(crate::proofs::FailureLines::well, crate::proofs::FailureLines::failed))]
fn status_of_seats<T>(finished: &[Finished<T>]) -> u8
    ensures { result ≡ seats_status (outcomes finished.now) }
{
    for its in finished {
        if let Err(fault) = &its.outcome {
            return status_of(fault);
        }
    }
    0
}

/// The status once all sessions have ended: 6 or 7 where the journal was not written or not kept, else that of the
/// least seat whose session failed, 3, 6 or 7, and 0 where none did.
pub fn status_after<T>(
    finished: &[Finished<T>],
    written: &Result<(), OutputFault>,
    kept: &Result<(), OutputFault>,
) -> u8
    ensures { result ≡ status_is written.now kept.now (outcomes finished.now) }
{
    match (written, kept) {
        (Err(fault), _) | (Ok(()), Err(fault)) => status_of(&PlayFault::from(*fault)),
        (Ok(()), Ok(())) => status_of_seats(finished),
    }
}
