//! What a step did, by the table of its machine: what it settled, and from which messages or registers. The functions
//! of `laws` do nothing: the contract of each is the law.
//!
//! ```text
//! let deed = run.deed(alloc, &names, &event)?;
//! ```
#![tactic(auto)]

mod alpha;
mod deed;
mod has_deeds;
pub mod laws;
mod leader;
mod received;

pub use alpha::{alpha_deed, register_of_value};
pub use deed::{Deed, Messages, Source};
pub use has_deeds::HasDeeds;
pub use leader::{
    leader_deed, number_of_estimate, number_of_learnt, number_of_proposal, value_of, value_received,
};
pub use received::ReceivedNames;
