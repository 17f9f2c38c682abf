//! Goals: what is looked for among the runs of a setup.
//!
//! ```text
//! let goal = Goal::read("stuck:3")?;
//! let reached = holds(&run, goal);
//! ```
#![tactic(auto)]

mod goal;
mod holding;
mod tests;

pub use goal::Goal;
pub use holding::holds;
