//! The rule of the turn: what each pass of the queue knows. Values of these types exist in proofs alone.

use cdb_control::{Control, Entry};
use cdb_rules::Runs;
use cdb_setup::Setup;
use crossbeam_queue::protocol::{Join, Lesson, Outcome, Protocol, Split};
use std::collections::LinkedList;

/// Whether a pass has the turn: the first one does, until it gives a control, and one that took the control.
pub enum Stage {
    Opening,
    Resting,
    Holding(Story),
}

/// A seat: its number, the setup and the number of seats of the opening, and the journal that it has seen.
pub struct KnownSeat {
    pub number: u8,
    pub setup: Setup,
    pub seats: u8,
    pub seen: LinkedList<Entry>,
}

/// What the rule sees of a control: its setup, its number of seats and its journal.
pub struct Story {
    pub setup: Setup,
    pub seats: u8,
    pub journal: LinkedList<Entry>,
}

/// What a pass knows: whether it has the turn, and its seats.
pub struct Knowledge {
    pub stage: Stage,
    pub known_seats: LinkedList<KnownSeat>,
}

/// The rule: one control, which stands in the queue or is with one pass.
pub struct OneControl;

impl<T: Runs> Protocol<Control<T>, Knowledge> for OneControl {
    ghost use Rattle.cdb_shared.specs.Turn.{opening, IsRuled};

    ghost holds = { IsRuled };

    ghost first = { opening };
}

/// The turn is taken.
pub struct Takes;

impl<T: Runs> Outcome<Control<T>, Knowledge> for Takes {
    ghost use Rattle.cdb_shared.specs.Turn.{TurnTaken};

    ghost then = { TurnTaken };
}

/// The turn is given back, at first with the control that is handed in.
pub struct Gives;

impl<T: Runs> Outcome<Control<T>, Knowledge> for Gives {
    ghost use Rattle.cdb_shared.specs.Turn.{TurnGiven};

    ghost then = { TurnGiven };
}

impl<T: Runs> Lesson<Control<T>, Knowledge> for Gives {
    ghost use Rattle.cdb_shared.specs.Turn.{NoneWaits};

    ghost fact = { NoneWaits };
}

/// The first seat of a pass gets a pass of its own.
pub struct FirstSeat;

impl Split<Knowledge> for FirstSeat {
    ghost use Rattle.cdb_shared.specs.Turn.{without_first, first_alone};

    ghost left = { without_first };

    ghost right = { first_alone };
}

/// A pass takes in the seats of another.
pub struct AllSeats;

impl Join<Knowledge> for AllSeats {
    ghost use Rattle.cdb_shared.specs.Turn.{joined_pass, spent};

    ghost both = { joined_pass };

    ghost spent = { spent };
}
