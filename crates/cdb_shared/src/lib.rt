//! One control for the sessions of many threads. Each session has a seat; whoever has the turn executes
//! a command, and one journal explains the replies of all seats.
//!
//! ```text
//! let (shared, seats) = Shared::open(rt, alloc, control)?;
//! let reply = shared.call(rt, alloc, &mut seat, Command::Auto(1))?;
//! let control = shared.finish(rt, seats);
//! ```
#![tactic(auto)]

mod knowledge;
mod seat;
mod session;
mod shared;
mod turn;
mod watch;

pub use seat::Seat;
pub use session::{End, Gate, drive, serve};
pub use shared::Shared;
pub use watch::Watch;
