//! Where a leader machine stands in its round.

ghost use Rattle.std.specs.Prelude.{◌≡◌};
ghost use Rattle.cdb_leader.specs.Place.{place_number};

/// Where a leader machine stands in its round.
#[derive(Clone, Copy, PartialEq, Eq)]
pub enum Place {
    /// Before a round: the oracle is asked.
    L0,
    /// The first phase is sent.
    L1,
    /// First-phase messages are awaited.
    L2,
    /// The second phase is sent.
    L3,
    /// Second-phase messages are awaited.
    L4,
    /// The decision is sent.
    L5,
    /// Done.
    L6,
}

impl Place {
    /// The number of the place in the table, from 0 to 6.
    pub fn number(self) -> u8
        ensures { result ≡ place_number self }
    {
        self as u8
    }
}
