//! The trail of a value to a step: the steps along which it went, from the input of a process. The functions of `laws`
//! do nothing: the contract of each is the law.
//!
//! ```text
//! let text = trail_to_step(alloc, &run, 2, None)?;
//! ```
#![tactic(auto)]

mod alpha_flow;
mod flow;
mod flowing;
pub mod laws;
mod leader_flow;
mod oracle;
mod origins;
mod played;
mod text;
mod trail;
mod walk;

pub use origins::{Origin, origins_of};
pub use text::trail_to_step;
pub use trail::{Trail, trail_of};
