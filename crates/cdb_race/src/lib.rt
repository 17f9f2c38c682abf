//! A race: one thread for each process and one for each script, over one shared control.
//!
//! ```text
//! let scripts = [Script::new(first), Script::new(second)];
//! let raced = race(rt, alloc, setup, 50, &scripts, gates)?;
//! let journal = raced.control.journal();
//! ```
#![tactic(auto)]

mod plan;
mod threads;
mod worker;

pub use plan::Script;
pub use threads::{Raced, race};
