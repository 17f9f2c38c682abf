//! A control of one seat, whose commands are given one after the other.

ghost use Rattle.std.specs.Prelude.{◌≡◌, ◌≤◌, [], IfOk};
ghost use Rattle.cdb_base.specs.Limits.{MAX_ENTRIES};
ghost use Rattle.cdb_control.specs.OneSeat.{HasCarriedOut};
ghost use Rattle.cdb_control.specs.Room.{room_of};

use crate::control::{Control, OpenFault};
use cdb_base::NoMemory;
use cdb_rules::Runs;
use cdb_setup::Setup;
use std::alloc::Global;

/// A control with one seat in which nothing has happened, with room for this many commands: so their journal is
/// allocated once.
pub fn open_for<T: Runs>(alloc: Global, setup: Setup, count: u32) -> Result<Control<T>, NoMemory>
    requires { count ≤ MAX_ENTRIES }
    ensures new { IfOk result (HasCarriedOut setup []) }
    ensures room { IfOk result (λ control. room_of control.rooms 1 ≡ count) }
{
    let mut control = match Control::<T>::open(alloc, setup, 1) {
        Ok(control) => control,
        Err(OpenFault::NoMemory(refused)) => return Err(refused),
        Err(OpenFault::Seats) => unreachable!(),
    };
    match control.reserve(alloc, 1, count) {
        Ok(()) => Ok(control),
        Err(fault) => {
            control.close();
            Err(fault)
        }
    }
}
