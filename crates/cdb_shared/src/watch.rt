//! A watch: what sees the journal of a shared control, and gives no command.
ghost use Rattle.crossbeam_queue.specs.Passes.{view as view_of};
ghost use Rattle.cdb_shared.specs.Passes.{IsOfOneSeat};

use crate::turn::TurnPass;
use cdb_rules::Runs;
use std::marker::Model;

/// What sees the journal of a shared control, and gives no command. A contract sees it as a seat with the number 0,
/// which no seat has.
#[derive(Drop)]
pub struct Watch<T: Runs> {
    pub(crate) pass: TurnPass<T>,
    ghost one: { IsOfOneSeat (view_of pass) },
}

impl<T: Runs> Model for Watch<T> {
    ghost use Rattle.std.specs.Prelude.{◌≡◌, []};
    ghost use Rattle.crossbeam_queue.specs.Passes.{view as view_of};
    ghost use Rattle.cdb_shared.specs.Passes.{seat_of_pass};
    ghost use Rattle.cdb_shared.specs.Seats.{SeatView};

    ghost Value = { SeatView };

    ghost view = { λ w. seat_of_pass w.pass.table_id (view_of w.pass) w.one };

    ghost invariant = { λ w. w.pass.me.1 ≡ [] };
}
