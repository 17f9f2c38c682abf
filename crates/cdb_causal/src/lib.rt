//! Dependence of events: which events depend on which, directly or through others, and what holds of lists of
//! events under it. The histories that are held and searched are those of `cdb_standing`.
//!
//! ```text
//! let linked = depends(&first, &second);
//! ```
#![tactic(auto)]

pub mod dependence;
pub mod laws;
pub mod links;
pub mod past;

pub use dependence::depends;
pub use links::{is_direct_cause, is_linked};
