//! The statuses with which the program ends, and when a race has seats enough.

ghost use Rattle.std.specs.Prelude.{◌≡◌, ◌↔◌, ◌+◌, ◌≤◌, IsTrue};
ghost use Rattle.cdb_streams.specs.Statuses.{play_status, race_status};

use crate::fault::{PlayFault, RaceFault};
use cdb_base::limits::MAX_SEATS;
use cdb_setup::Setup;

/// The status after this fault of a play: 3 to 7.
pub fn status_of(fault: &PlayFault) -> u8
    ensures { result ≡ play_status fault.now }
{
    match fault {
        PlayFault::Read => 3,
        PlayFault::Setup(_) => 4,
        PlayFault::Line(..) | PlayFault::ScriptTooLong(_) => 5,
        PlayFault::NoMemory(_) => 6,
        PlayFault::Write => 7,
    }
}

/// The status after this fault of a race: 3 to 9.
pub fn race_status_of(fault: &RaceFault) -> u8
    ensures { result ≡ race_status fault.now }
{
    match fault {
        RaceFault::Play(fault) => status_of(fault),
        RaceFault::JournalFull => 8,
        RaceFault::Spawn(_) | RaceFault::Stopped(_) => 9,
    }
}

/// Tells whether a race has a seat for each process and each of this many scripts: together at most 64.
pub fn fits(setup: &Setup, scripts: usize) -> bool
    ensures { IsTrue result ↔ (setup.now.processes + scripts ≤ MAX_SEATS) }
{
    scripts <= usize::from(MAX_SEATS - setup.n())
}
