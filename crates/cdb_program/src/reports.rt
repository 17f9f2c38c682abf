//! What is reported of how a request ended.

ghost use Rattle.std.specs.Prelude.{◌≡◌, []};
ghost use Rattle.cdb_explain.specs.FaultTexts.{answer_fault_text, answer_status};
ghost use Rattle.cdb_explain.specs.declared.fault.AnswerFault.TheVariants.{NotFound};
ghost use Rattle.cdb_program.specs.declared.fault.Fault.TheVariants.{Page};
ghost use Rattle.cdb_program.specs.Reports.{fault_status, fault_text, IsReported};
ghost use Rattle.cdb_streams.specs.FaultTexts.{as_line};
ghost use Rattle.cdb_streams.specs.Streams.{Writes};

use crate::fault::{Fault, NO_GOAL};
use cdb_explain::AnswerFault;
use cdb_shared_session::write_kept_fault;
use cdb_streams::{
    Failed, Piece, PlayFault, Sink, race_status_of, status_of, write_all, write_each, write_fault,
    write_race_fault,
};

/// The status after an answer that is no: of a step that doesn't stand, takes no value or has to be named, of a goal
/// that doesn't hold, and of runs that differ.
const NO: u8 = 1;

/// The status after arguments that can't be carried out.
const USAGE: u8 = 2;

/// The status after a fault of an answer.
fn answer_status_of(fault: &AnswerFault) -> u8
    ensures { result ≡ answer_status fault.now }
{
    match fault {
        AnswerFault::Play(fault) => status_of(fault),
        AnswerFault::NoStep
        | AnswerFault::NoValue
        | AnswerFault::TooManyEvents
        | AnswerFault::NotFound(_)
        | AnswerFault::DoesNotHold => NO,
    }
}

/// The status after this fault.
fn status_after(fault: &Fault<'_>) -> u8
    ensures { result ≡ fault_status fault.now }
{
    match fault {
        Fault::Play(fault, _) => status_of(fault),
        Fault::Race(fault) => race_status_of(fault),
        Fault::Answer(fault, _) | Fault::Page(fault) => answer_status_of(fault),
        Fault::Journal(fault) => status_of(&PlayFault::from(*fault)),
        Fault::Different => NO,
        Fault::NoGoal | Fault::TooManySeats | Fault::Refused(_) => USAGE,
    }
}

/// Writes that a goal held in none of so many walks.
fn write_not_found<E: Sink>(walks: u32, error: &mut E) -> Result<(), Failed>
    ensures { Writes E.stream result error.old error.new (as_line (answer_fault_text (NotFound walks) [])) }
{
    write_each(
        error,
        &[
            Piece::Text("not found in "),
            Piece::Number(walks as usize),
            Piece::Text(" walks\n"),
        ],
    )
}

/// Writes the line of a fault of an answer, where this names what could not be read.
fn write_answer_fault<E: Sink>(fault: &AnswerFault, name: &str, error: &mut E) -> Result<(), Failed>
    ensures { Writes E.stream result error.old error.new (as_line (answer_fault_text fault.now name.now)) }
{
    match fault {
        AnswerFault::NoStep => write_all(error, b"refused 10 NoStep\n"),
        AnswerFault::NoValue => write_all(error, b"no value\n"),
        AnswerFault::TooManyEvents => write_all(error, b"too many events to draw; name a step\n"),
        AnswerFault::NotFound(walks) => write_not_found(*walks, error),
        AnswerFault::DoesNotHold => write_all(error, b"the goal does not hold\n"),
        AnswerFault::Play(fault) => write_fault(fault, name, error),
    }
}

/// Writes the line of a page that could not be kept or made.
fn write_page_fault<E: Sink>(fault: &AnswerFault, error: &mut E) -> Result<(), Failed>
    ensures { Writes E.stream result error.old error.new (fault_text (Page fault.now)) }
{
    write_all(error, b"page: ")?;
    write_answer_fault(fault, "the input", error)
}

/// Writes the text of a fault. Where the writer fails, what was written is a beginning of it.
fn write_text<E: Sink>(fault: &Fault<'_>, error: &mut E) -> Result<(), Failed>
    ensures { Writes E.stream result error.old error.new (fault_text fault.now) }
{
    match fault {
        Fault::Play(fault, name) => write_fault(fault, name, error),
        Fault::Race(fault) => write_race_fault(fault, error),
        Fault::Journal(fault) => write_kept_fault(&Err(*fault), error),
        Fault::Page(fault) => write_page_fault(fault, error),
        Fault::Answer(fault, name) => write_answer_fault(fault, name, error),
        Fault::NoGoal => write_all(error, NO_GOAL.as_bytes()),
        Fault::Different => write_all(error, b""),
        Fault::TooManySeats => write_all(error, b"too many seats\n"),
        Fault::Refused(reason) => write_all(error, reason.as_bytes()),
    }
}

/// Reports how a request ended, and returns the status.
pub fn report<E: Sink>(outcome: Result<(), Fault<'_>>, error: &mut E) -> u8
    ensures { IsReported outcome.entry (E.stream error.old) (E.stream error.new) result }
{
    match outcome {
        Ok(()) => 0,
        Err(fault) => {
            let _ = write_text(&fault, error);
            status_after(&fault)
        }
    }
}
