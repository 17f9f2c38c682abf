//! The run that a script leaves, and what led to a step of it, as text.
//!
//! ```text
//! let run = run_left_by::<AnyRun>(alloc, setup, script)?;
//! let text = explain_step::<AnyRun>(alloc, &run, 2, None)?;
//! ```
#![tactic(auto)]

mod asked;
mod deed;
mod detail;
mod fault;
mod left;
mod line;
mod lines;
mod replay;
mod step;

pub use asked::position_of_step;
pub use fault::AnswerFault;
pub use left::{control_after, read_both, run_left_by, trace_of};
pub use line::{Causes, decision_by, push_whole, round_by};
pub use lines::{explanation, push_count, push_lines};
pub use replay::{fresh, next_deed, play_on, played};
pub use step::explain_step;
