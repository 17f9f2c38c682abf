//! Where a value lies in a run, and what a step does with it.

ghost use Rattle.std.specs.Prelude.{◌≡◌, [], ◌∷◌, ◌++◌, option_to_list};
ghost use Rattle.cdb_trail.specs.Flow.{moves, still};

use cdb_base::{Proc, Reg};
use std::marker::Model;

/// Where a value lies in a run.
#[derive(Clone, Copy)]
pub enum Spot<S: Copy + Drop> {
    /// A slot of a process, of those that its machine has.
    Slot(Proc, S),
    /// The message of that process and number.
    Message(Proc, u16),
    /// A register.
    Register(Reg),
}

/// What a step does with a value: the spot from which it takes one, if it takes one, and the spots that it sets, at
/// most two.
#[derive(Drop)]
pub struct Flow<S: Copy + Drop> {
    takes: Option<Spot<S>>,
    sets: Option<Spot<S>>,
    also: Option<Spot<S>>,
}

impl<S: Copy + Drop> Model for Flow<S> {
    ghost use Rattle.std.specs.Prelude.{◌++◌, option_to_list};
    ghost use Rattle.cdb_trail.specs.Flow.{Flow as MovesOf};

    ghost Value = { MovesOf S };

    ghost view = { λ x. record { takes = x.takes; sets = option_to_list x.sets ++ option_to_list x.also } };
}

impl<S: Copy + Drop> Flow<S> {
    /// The flow of a step that moves no value.
    pub fn still() -> Self
        ensures { result ≡ still }
    {
        Flow {
            takes: None,
            sets: None,
            also: None,
        }
    }

    /// The flow of a step that takes a value, if it takes one, and sets a spot.
    pub fn sets(takes: Option<Spot<S>>, spot: Spot<S>) -> Self
        ensures { result ≡ record { takes = takes; sets = spot ∷ [] } }
    {
        Flow {
            takes,
            sets: Some(spot),
            also: None,
        }
    }

    /// The flow of a step that moves the value of one spot into two others.
    pub fn moves_into_both(from: Spot<S>, spot: Spot<S>, other: Spot<S>) -> Self
        ensures { result ≡ moves from (spot ∷ other ∷ []) }
    {
        Flow {
            takes: Some(from),
            sets: Some(spot),
            also: Some(other),
        }
    }

    /// The spots that the step sets.
    pub fn spots_set(&self) -> (Option<Spot<S>>, Option<Spot<S>>)
        ensures { self.now.sets ≡ option_to_list result.0 ++ option_to_list result.1 }
    {
        (self.sets, self.also)
    }

    /// The spot from which the step takes a value, if it takes one.
    pub fn takes(&self) -> Option<Spot<S>>
        ensures { result ≡ self.now.takes }
    {
        self.takes
    }
}
