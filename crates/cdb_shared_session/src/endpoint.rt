//! A seat's side of its session, before it and after it.

ghost use Rattle.std.specs.Prelude.{Result};
ghost use Rattle.cdb_shared_session.specs.Openings.{SeatSeen, seat_seen};
ghost use Rattle.cdb_streams.specs.declared.source.ReadFault.{ReadFault as Fault};

use cdb_session::Console;
use cdb_streams::{PlayFault, ReadFault};
use std::alloc::Global;

/// What a seat's session reads from and writes to, and the prompt that it shows before each line.
#[derive(Drop)]
pub struct Endpoint<T> {
    pub console: T,
    pub prompt: &'static [u8],
}

/// Opens the streams of a seat. The seat's own thread calls it, so an opening that waits holds no other seat.
pub trait Opener: Drop {
    /// What the session of the seat reads from and writes to.
    type Seat: Console + Drop + Send;

    // How the opening can end.
    ghost opens: { Self → Result SeatSeen Fault → Type 0 };

    /// Opens the streams, and may wait until their other ends are there.
    ///
    /// # Errors
    /// `Failed` where one can't be opened, and `NoMemory` where an allocation fails.
    fn open(self, alloc: Global) -> Result<Endpoint<Self::Seat>, ReadFault>
        ensures { opens self (seat_seen Self.Seat.known result) };
}

/// What a seat's session read from and wrote to, none where its streams could not be opened; and how the session ended:
/// a fault, also that of the opening, ended it alone, and the others went on.
#[derive(Drop)]
pub struct Finished<T> {
    pub console: Option<T>,
    pub outcome: Result<(), PlayFault>,
}
