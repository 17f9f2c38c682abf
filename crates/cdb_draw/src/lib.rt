//! The picture of a run, as SVG.
#![tactic(auto)]

mod arrow;
mod asked;
mod draws;
mod frames;
mod holds;
mod lanes;
mod laws;
mod layout;
mod mark;
mod picture;
mod piece;
mod sends;
pub mod style;
mod waits;
mod way;
mod weight;

pub use asked::picture_for;
pub use draws::picture_of;
pub use frames::Frames;
pub use laws::{arrows_keep_off_marks, most_drawn_is_defined};
pub use layout::MOST_DRAWN;
