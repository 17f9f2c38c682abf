//! Why nothing was written of what was asked about a run.

ghost use Rattle.std.specs.Prelude.{◌≡◌, Some, codes};
ghost use Rattle.cdb_explain.specs.FaultTexts.{answer_fault_text};
ghost use Rattle.cdb_explain.specs.declared.fault.AnswerFault.TheVariants.{Play as of_play};
ghost use Rattle.cdb_streams.specs.Faults.{of_output, of_setup};
ghost use Rattle.cdb_streams.specs.declared.fault.PlayFault.TheVariants as play;

use cdb_base::{NoMemory, Refusal};
use cdb_setup::SetupFault;
use cdb_streams::{OutputFault, PlayFault};
use std::error::Error;
use std::fmt;

/// Why nothing was written of what was asked about a run.
#[derive(Clone, Copy, Debug, PartialEq, Eq)]
pub enum AnswerFault {
    /// The step that is asked for doesn't stand in the run that the script leaves.
    NoStep,
    /// The step takes no value, so no trail leads to it.
    NoValue,
    /// More events stand than are drawn, and no step is asked for.
    TooManyEvents,
    /// The goal held in none of this many walks, which says nothing of others.
    NotFound(u32),
    /// The goal doesn't hold of the run that the script leaves.
    DoesNotHold,
    /// As for a play.
    Play(PlayFault),
}

/// The text that the program reports, without the end of the line; what could not be read is the input.
impl fmt::Display for AnswerFault {
    ghost output = { λ fault. Some (answer_fault_text fault (codes "the input")) };

    fn fmt<W: fmt::Write>(&self, f: &mut fmt::Formatter<W>) -> fmt::Result {
        match self {
            AnswerFault::NoStep => {
                let refusal = Refusal::NoStep;
                write!(f, "{refusal}")
            }
            AnswerFault::NoValue => f.write_str("no value"),
            AnswerFault::TooManyEvents => f.write_str("too many events to draw; name a step"),
            AnswerFault::NotFound(walks) => write!(f, "not found in {walks} walks"),
            AnswerFault::DoesNotHold => f.write_str("the goal does not hold"),
            AnswerFault::Play(fault) => write!(f, "{fault}"),
        }
    }
}

impl Error for AnswerFault {}

impl From<PlayFault> for AnswerFault {
    ghost from_gives = { λ fault made. made ≡ of_play fault };

    fn from(fault: PlayFault) -> Self {
        AnswerFault::Play(fault)
    }
}

impl From<SetupFault> for AnswerFault {
    ghost from_gives = { λ fault made. made ≡ of_play (of_setup fault) };

    fn from(fault: SetupFault) -> Self {
        AnswerFault::Play(PlayFault::from(fault))
    }
}

impl From<NoMemory> for AnswerFault {
    ghost from_gives = { λ refused made. made ≡ of_play (play.NoMemory refused) };

    fn from(refused: NoMemory) -> Self {
        AnswerFault::Play(PlayFault::NoMemory(refused))
    }
}

impl From<OutputFault> for AnswerFault {
    ghost from_gives = { λ fault made. made ≡ of_play (of_output fault) };

    fn from(fault: OutputFault) -> Self {
        AnswerFault::Play(PlayFault::from(fault))
    }
}
