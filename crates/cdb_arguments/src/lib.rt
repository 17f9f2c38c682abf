//! The command line of `revdbg`: what its arguments ask for, read by `clap`.
#![tactic(auto)]

mod command_line;
mod reading;
mod request;

pub use reading::{ask_status, asked};
pub use request::ArgumentsFault;
