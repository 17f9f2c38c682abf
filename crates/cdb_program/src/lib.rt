//! What the program `revdbg` does with a request, in a world of files, standard input and two outputs.
#![tactic(auto)]

mod answers;
mod beginning;
mod compares;
mod debugs;
mod fault;
mod files;
mod frames;
mod keeping;
mod made;
mod plays;
mod questions;
mod races;
mod replays;
mod reports;
mod request;
mod searches;
mod seats;
mod world;

pub use answers::Printed;
pub use fault::Fault;
pub use files::Files;
pub use request::{Action, perform};
pub use world::World;
