//! Sessions of several people at once over one shared run. Each seat is served by a thread of its own, line by line,
//! until all inputs have ended; one journal then explains the responses to each.
//!
//! ```text
//! let openers = vec![in alloc; opener]?;
//! let (control, finished, kept) = debug_seats::<R, A, _, _, _>(rt, alloc, control, greeting, openers, file)?;
//! let text = cdb_journal::journal_text(alloc, control.journal())?;
//! ```
#![tactic(auto)]

mod alone;
mod endpoint;
mod keeping;
mod replica;
mod reports;
mod seat;
mod shared;
mod threads;

pub use alone::debug_kept;
pub use endpoint::{Endpoint, Finished, Opener};
pub use keeping::Kept;
pub use reports::{status_after, write_failures, write_journal, write_kept_fault};
pub use shared::debug_shared;
pub use threads::debug_seats;
