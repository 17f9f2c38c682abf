//! Where one message stands among those that an index knows.

ghost use Rattle.std.specs.Prelude.{◌≡◌, ◌<◌, None, is_some};
ghost use Rattle.cdb_leader.specs.Spot.{noted, forgotten};

use std::marker::Model;

/// Where in an inbox a message stands, from 0.
pub(crate) type Position = usize;

/// How many messages an index knows: the first ones of an inbox.
pub(crate) const KNOWN: usize = 65_535;

/// The position of a message that an index knows, or none, in two bytes. A contract sees the position.
#[derive(Clone, Copy)]
pub struct Spot(u16);

impl Model for Spot {
    ghost use Rattle.std.specs.Prelude.{ℕ, Option};
    ghost use Rattle.cdb_leader.specs.Spot.{position_before, number_after};

    ghost Value = { Option ℕ };

    ghost view = { λ spot. position_before spot.0 };

    ghost inverse = { λ position. record { 0 = number_after position } };
}

impl Spot {
    /// No position is kept.
    pub(crate) fn empty() -> Self
        ensures { result ≡ None }
    {
        Spot(0)
    }

    /// The position that is kept.
    pub(crate) fn position(self) -> Option<Position>
        ensures { result ≡ self }
    {
        match self.0 {
            0 => None,
            number => Some(usize::from(number) - 1),
        }
    }

    /// Whether one is kept.
    pub(crate) fn is_kept(self) -> bool
        ensures { result ≡ is_some self }
    {
        self.0 != 0
    }

    /// The position that is kept, or that one where none is.
    pub(crate) fn noted(self, position: Position) -> Self
        requires { position < KNOWN }
        ensures { result ≡ noted position self }
    {
        match self.0 {
            0 => Spot(position as u16 + 1),
            _ => self,
        }
    }

    /// The position that is kept, unless it is that one.
    pub(crate) fn forgotten(self, position: Position) -> Self
        ensures { result ≡ forgotten position self }
    {
        if self.position() == Some(position) {
            Spot(0)
        } else {
            self
        }
    }
}
