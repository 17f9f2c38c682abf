//! Plays and races of scripts.
#![tactic(auto)]

mod plays;
mod races;

pub use plays::play;
pub use races::{race, race_on, race_with};
