//! Journals as text, and the law of replay: a journal that was written is read back, and each seat is told what it was
//! told.
//!
//! ```text
//! let text = journal_text(alloc, control.journal())?;
//! let entries = entries_of(alloc, text.as_slice())?;
//! replay::<AnyRun, _, _>(alloc, setup, &mut Bytes::new(text.as_slice()), &mut out)?;
//! ```
#![tactic(auto)]

pub mod laws;
mod news;
mod opening;
mod reading;
mod replays;
mod text;

pub use news::follow;
pub use opening::{open_from, open_on};
pub use reading::{MOST_JOURNAL, entries_of, read_entries};
pub use replays::replay;
pub use text::journal_text;
