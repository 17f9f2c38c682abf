//! A seat: what one session holds of a shared control.
ghost use Rattle.std.specs.Prelude.{◌≡◌, ◌≤◌};
ghost use Rattle.crossbeam_queue.specs.Passes.{view as view_of};
ghost use Rattle.cdb_shared.specs.Passes.{IsOfOneSeat};

use crate::turn::TurnPass;
use cdb_rules::Runs;
use std::marker::Model;

/// What one session holds of a shared control. A contract sees which control it is of, with its setup and its
/// number of seats, the seat's own number, the journal that it has seen, and whether it rests, that is,
/// has not the turn.
#[derive(Drop)]
pub struct Seat<T: Runs> {
    pub(crate) number: u8,
    pub(crate) pass: TurnPass<T>,
    ghost one: { IsOfOneSeat (view_of pass) },
}

impl<T: Runs> Model for Seat<T> {
    ghost use Rattle.std.specs.Prelude.{◌≡◌, []};
    ghost use Rattle.crossbeam_queue.specs.Passes.{view as view_of};
    ghost use Rattle.cdb_shared.specs.Passes.{seat_of_pass, known_seat_of, HasNumber};
    ghost use Rattle.cdb_shared.specs.Seats.{SeatView};

    ghost Value = { SeatView };

    ghost view = { λ s. seat_of_pass s.pass.table_id (view_of s.pass) s.one };

    ghost invariant = { λ s. (s.pass.me.1 ≡ [])
        × HasNumber s.number (known_seat_of (view_of s.pass) s.one) };
}

impl<T: Runs> Seat<T> {
    /// Its number, from 1 to the number of seats.
    pub fn number(&self) -> u8
        ensures number { result ≡ self.now.number }
        ensures range { (1 ≤ result) × (result ≤ self.now.seats) }
    {
        self.number
    }
}
