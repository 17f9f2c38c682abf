//! A run of one machine: its steps, their undo and rollback, and what it shows.
//!
//! ```text
//! let mut run: Run<Leader> = Run::start(alloc, setup)?;
//! let event = run.step(alloc, 1, Act::Query(None))?;
//! let undone = run.undo(1, 1);
//! ```
#![tactic(auto)]

mod among;
mod change;
mod first;
pub mod laws;
mod own_steps;
mod plan;
mod progress;
mod run;
mod state;

pub use cdb_base::Act;
pub use cdb_rules::EventRef;
pub use run::Run;
