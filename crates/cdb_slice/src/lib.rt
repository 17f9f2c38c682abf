//! A script that plays a run again, or only what led to a step of it. The functions of `laws` do nothing: the contract
//! of each is the law.
//!
//! ```text
//! let text = slice::<AnyRun>(alloc, &run, step)?;
//! ```
#![tactic(auto)]

mod events;
pub mod laws;
mod past;
mod script;
mod slices;

pub use past::past_of;
pub use script::{command_for, commands_for, lines_of, script_of};
pub use slices::slice;
