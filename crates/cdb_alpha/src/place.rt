//! Where an Alpha machine stands in its round.

ghost use Rattle.std.specs.Prelude.{◌≡◌};
ghost use Rattle.cdb_alpha.specs.Place.{place_number};

/// Where an Alpha machine stands in its round.
#[derive(Clone, Copy, PartialEq, Eq)]
pub enum Place {
    /// The register of the decision is read.
    A0,
    /// The oracle is asked.
    A1,
    /// The round is entered in the own register.
    A2,
    /// The registers are read for the first time.
    A3,
    /// The value is chosen, or the round given up.
    A4,
    /// The value is written to the own register.
    A5,
    /// The registers are read for the second time.
    A6,
    /// The round is carried through, or given up.
    A7,
    /// The decision is written.
    A8,
    /// Done.
    A9,
}

impl Place {
    /// The number of the place in the table, from 0 to 9.
    pub fn number(self) -> u8
        ensures { result ≡ place_number self }
    {
        self as u8
    }
}
