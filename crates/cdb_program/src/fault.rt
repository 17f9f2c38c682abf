//! Why a request was not carried out to its end.

ghost use Rattle.cdb_program.specs.Outcomes.{IsOfAnswer, IsOfPage, IsOfPlay, IsOfRace, IsOfSame, IsOfSession};

use cdb_explain::AnswerFault;
use cdb_streams::{OutputFault, PlayFault, RaceFault};
use std::error::Error;
use std::fmt;

/// What is reported of a word that names no goal.
pub(crate) const NO_GOAL: &str = "the goal is differ, all, stuck:R or decides:P:V\n";

/// Why a request was not carried out to its end.
#[derive(Clone, Copy, Debug)]
pub enum Fault<'a> {
    /// A fault of a play, or of what was to be read for a play or a race, which has this name.
    Play(PlayFault, &'a str),
    Race(RaceFault),
    /// Why nothing was written of what was asked about a run, with the script of this name, or the setup of a search.
    Answer(AnswerFault, &'a str),
    /// The word that was given names no goal.
    NoGoal,
    /// The runs that were compared differ, as the output tells. Nothing else is reported.
    Different,
    /// The journal could not be kept in its file.
    Journal(OutputFault),
    /// The page of a run could not be kept in its file, or not be made.
    Page(AnswerFault),
    /// A race of more than 64 processes and scripts.
    TooManySeats,
    /// Nothing was asked for that can be done, and this text says why.
    Refused(&'a str),
}

/// The whole text that the program reports, with its line ends.
impl fmt::Display for Fault<'_> {
    ghost use Rattle.std.specs.Prelude.{Some};
    ghost use Rattle.cdb_program.specs.Reports.{fault_text};

    ghost output = { λ fault. Some (fault_text fault) };

    fn fmt<W: fmt::Write>(&self, f: &mut fmt::Formatter<W>) -> fmt::Result {
        match self {
            Fault::Play(PlayFault::Read, name)
            | Fault::Answer(AnswerFault::Play(PlayFault::Read), name) => {
                writeln!(f, "cannot read {name}")
            }
            Fault::Play(fault, _) => writeln!(f, "{fault}"),
            Fault::Race(fault) => writeln!(f, "{fault}"),
            Fault::Answer(fault, _) => writeln!(f, "{fault}"),
            Fault::NoGoal => f.write_str(NO_GOAL),
            Fault::Different => Ok(()),
            Fault::Journal(fault) => {
                let fault = PlayFault::from(*fault);
                writeln!(f, "journal: {fault}")
            }
            Fault::Page(fault) => writeln!(f, "page: {fault}"),
            Fault::TooManySeats => f.write_str("too many seats\n"),
            Fault::Refused(reason) => f.write_str(reason),
        }
    }
}

impl Error for Fault<'_> {}

/// How a request ended that was a play of the script of this name.
pub fn of_play<'a>(played: Result<(), PlayFault>, name: &'a str) -> Result<(), Fault<'a>>
    ensures { IsOfPlay name.entry.now played result }
{
    match played {
        Ok(()) => Ok(()),
        Err(fault) => Err(Fault::Play(fault, name)),
    }
}

/// How a request ended whose last page was written so.
pub fn of_page<'a>(shown: Result<(), AnswerFault>) -> Result<(), Fault<'a>>
    ensures { IsOfPage shown result }
{
    match shown {
        Ok(()) => Ok(()),
        Err(fault) => Err(Fault::Page(fault)),
    }
}

/// How a request ended that was a session, whose journal was kept so, and whose last page was written so.
pub fn of_session<'a>(
    debugged: Result<(), PlayFault>,
    kept: Result<(), OutputFault>,
    shown: Result<(), AnswerFault>,
) -> Result<(), Fault<'a>>
    ensures { IsOfSession debugged kept shown result }
{
    match (debugged, kept) {
        (Err(fault), _) => Err(Fault::Play(fault, "standard input")),
        (Ok(()), Err(fault)) => Err(Fault::Journal(fault)),
        (Ok(()), Ok(())) => of_page(shown),
    }
}

/// How a request ended that was a race.
pub fn of_race<'a>(raced: Result<(), RaceFault>) -> Result<(), Fault<'a>>
    ensures { IsOfRace raced result }
{
    match raced {
        Ok(()) => Ok(()),
        Err(fault) => Err(Fault::Race(fault)),
    }
}

/// How a request ended that asked about a run, with the script of this name, or the setup of a search.
pub fn of_answer<'a>(answered: Result<(), AnswerFault>, name: &'a str) -> Result<(), Fault<'a>>
    ensures { IsOfAnswer name.entry.now answered result }
{
    match answered {
        Ok(()) => Ok(()),
        Err(fault) => Err(Fault::Answer(fault, name)),
    }
}

/// How a request ended that was a comparison of runs.
pub fn of_same<'a>(compared: Result<bool, PlayFault>) -> Result<(), Fault<'a>>
    ensures { IsOfSame compared result }
{
    match compared {
        Ok(true) => Ok(()),
        Ok(false) => Err(Fault::Different),
        Err(fault) => Err(Fault::Play(fault, "")),
    }
}
