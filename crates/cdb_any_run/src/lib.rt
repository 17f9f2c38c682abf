//! A run of the algorithm that its setup names.
//!
//! ```text
//! let mut run = AnyRun::start(alloc, setup)?;
//! let event = run.step(alloc, 1, Act::Query(None))?;
//! let undone = run.undo(1, 1);
//! ```
#![tactic(auto)]

/// What a call of the run is, whichever machine it has.
macro_rules! by_machine {
    ($any:expr, $run:ident => $call:expr) => {
        match $any {
            crate::any::ByMachine::Leader($run) => $call,
            crate::any::ByMachine::Alpha($run) => $call,
        }
    };
}

mod any;
mod has_deeds;
mod runs;
mod shown;

pub use any::AnyRun;
pub use cdb_rules::Runs;
