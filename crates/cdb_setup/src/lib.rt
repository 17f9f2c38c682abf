//! The setup of a run, read from JSON. Bytes that are the text of none are refused with their first
//! fault:
//!
//! ```text
//! let setup = Setup::read(alloc, bytes)?;
//! let input = setup.input(Proc::new(1));
//! let leader = setup.answer(Proc::new(1), 1);
//! ```
#![tactic(auto)]

mod answers;
mod fault;
mod key;
mod keys;
mod parts;
mod reading;
mod setup;

pub use fault::SetupFault;
pub use key::Key;
pub use setup::{Algorithm, Setup};
