//! Vector clocks of the standing steps of a run: of each process, how many of its steps have led to a step. The
//! functions of `laws` do nothing: the contract of each is the law.
//!
//! ```text
//! let text = clocks::<AnyRun>(alloc, &run)?;
//! ```
#![tactic(auto)]

mod clock;
pub mod laws;
mod rows;
mod text;

pub use clock::Clock;
pub use text::clocks;
