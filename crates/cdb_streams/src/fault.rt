//! Why a play or a race ended early.

ghost use Rattle.std.specs.Prelude.{◌≡◌, Some, codes};
ghost use Rattle.cdb_base.specs.Memory.{no_memory};
ghost use Rattle.cdb_streams.specs.FaultTexts.{play_fault_text, race_fault_text};
ghost use Rattle.cdb_streams.specs.Faults.{of_output, of_reading, of_script, of_setup};
ghost use Rattle.cdb_streams.specs.declared.fault.PlayFault.TheVariants as play;
ghost use Rattle.cdb_streams.specs.declared.fault.RaceFault.TheVariants as race;

use crate::buffer::OutputFault;
use crate::script::ScriptFault;
use crate::source::ReadFault;
use cdb_base::NoMemory;
use cdb_base::start::RefusedStart;
use cdb_setup::SetupFault;
use cdb_text::LineFault;
use std::alloc::AllocError;
use std::error::Error;
use std::fmt;

/// Why a play ended early. Scripts and lines count from 1, and a play has one script.
#[derive(Clone, Copy, Debug, PartialEq, Eq)]
pub enum PlayFault {
    /// The setup's first fault, which is never out of memory.
    Setup(SetupFault),
    /// Of this script this line is no command: the first such line, with its first fault.
    Line(usize, usize, LineFault),
    /// This script has more than 1,048,576 bytes.
    ScriptTooLong(usize),
    /// The reader failed in this call.
    Read,
    /// The writer failed in this call.
    Write,
    NoMemory(NoMemory),
}

/// Why a race ended early. Seats count from 1.
#[derive(Clone, Copy, Debug, PartialEq, Eq)]
pub enum RaceFault {
    /// As a play ends, but that nothing is read.
    Play(PlayFault),
    /// The journal took no further entry.
    JournalFull,
    /// The start of a thread was refused.
    Spawn(RefusedStart),
    /// The gate of this seat stopped its calls.
    Stopped(u8),
}

/// The text that the program reports, without the end of the line; the program names what could not be read, which here
/// is the input.
impl fmt::Display for PlayFault {
    ghost output = { λ fault. Some (play_fault_text fault (codes "the input")) };

    fn fmt<W: fmt::Write>(&self, f: &mut fmt::Formatter<W>) -> fmt::Result {
        match self {
            PlayFault::Setup(fault) => write!(f, "{fault}"),
            PlayFault::Line(script, line, fault) => {
                write!(f, "script {script} line {line} {fault}")
            }
            PlayFault::ScriptTooLong(script) => write!(f, "script {script} too long"),
            PlayFault::Read => f.write_str("cannot read the input"),
            PlayFault::Write => f.write_str("output failed"),
            PlayFault::NoMemory(_) => f.write_str("no memory"),
        }
    }
}

impl Error for PlayFault {}

/// The text that the program reports, without the end of the line.
impl fmt::Display for RaceFault {
    ghost output = { λ fault. Some (race_fault_text fault) };

    fn fmt<W: fmt::Write>(&self, f: &mut fmt::Formatter<W>) -> fmt::Result {
        match self {
            RaceFault::Play(fault) => write!(f, "{fault}"),
            RaceFault::JournalFull => f.write_str("journal full"),
            RaceFault::Spawn(_) | RaceFault::Stopped(_) => f.write_str("no thread"),
        }
    }
}

impl Error for RaceFault {}

impl From<SetupFault> for PlayFault {
    ghost from_gives = { λ fault made. made ≡ of_setup fault };

    fn from(fault: SetupFault) -> Self {
        match fault {
            SetupFault::NoMemory(refused) => PlayFault::NoMemory(refused),
            fault => PlayFault::Setup(fault),
        }
    }
}

/// A fault of the only script.
impl From<ScriptFault> for PlayFault {
    ghost from_gives = { λ fault made. made ≡ of_script fault };

    fn from(fault: ScriptFault) -> Self {
        fault.at(1)
    }
}

impl From<ReadFault> for PlayFault {
    ghost from_gives = { λ fault made. made ≡ of_reading fault };

    fn from(fault: ReadFault) -> Self {
        match fault {
            ReadFault::Failed => PlayFault::Read,
            ReadFault::NoMemory(refused) => PlayFault::NoMemory(refused),
        }
    }
}

impl From<NoMemory> for PlayFault {
    ghost from_gives = { λ refused made. made ≡ play.NoMemory refused };

    fn from(refused: NoMemory) -> Self {
        PlayFault::NoMemory(refused)
    }
}

impl From<OutputFault> for PlayFault {
    ghost from_gives = { λ fault made. made ≡ of_output fault };

    fn from(fault: OutputFault) -> Self {
        match fault {
            OutputFault::Write => PlayFault::Write,
            OutputFault::NoMemory(refused) => PlayFault::NoMemory(refused),
        }
    }
}

impl From<SetupFault> for RaceFault {
    ghost from_gives = { λ fault made. made ≡ race.Play (of_setup fault) };

    fn from(fault: SetupFault) -> Self {
        RaceFault::Play(PlayFault::from(fault))
    }
}

impl From<OutputFault> for RaceFault {
    ghost from_gives = { λ fault made. made ≡ race.Play (of_output fault) };

    fn from(fault: OutputFault) -> Self {
        RaceFault::Play(PlayFault::from(fault))
    }
}

impl From<NoMemory> for RaceFault {
    ghost from_gives = { λ refused made. made ≡ race.Play (play.NoMemory refused) };

    fn from(refused: NoMemory) -> Self {
        RaceFault::Play(PlayFault::NoMemory(refused))
    }
}

impl From<AllocError> for RaceFault {
    ghost from_gives = { λ _ made. made ≡ race.Play (play.NoMemory no_memory) };

    fn from(error: AllocError) -> Self {
        RaceFault::from(NoMemory::from(error))
    }
}
