//! Walks at random until a goal holds, and scripts made small as long as it does.
//!
//! ```text
//! let script = search::<AnyRun, _>(alloc, setup, Goal::Differ, 1, 1000, &watch)?;
//! let script = shrink::<AnyRun>(alloc, &run, Goal::Differ)?;
//! ```
#![tactic(auto)]

mod finds;
mod random;
mod searches;
mod shrinks;
mod sparing;
mod walker;
mod walks;
mod watch;

pub use searches::search;
pub use shrinks::shrink;
pub use watch::Watch;
