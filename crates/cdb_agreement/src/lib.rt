//! What holds of all histories of a run, by its rules: undo and redo, exchange, and agreement of the
//! decisions. Each function does nothing: its contract is the law.
//!
//! ```text
//! laws::exchanged_histories::<Leader>();
//! agreement::shown_decisions_agree();
//! ```
#![tactic(auto)]

pub mod agreement;
pub mod laws;
