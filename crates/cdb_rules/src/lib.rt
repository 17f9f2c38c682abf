//! The rules of a run: its state, its steps, what is refused and what is shown, by the table of either
//! algorithm, and the trait of a run that keeps to them.
//!
//! ```text
//! let mut run: R = R::start(alloc, setup)?;
//! let event = run.step(alloc, 1, Act::Query(None))?;
//! let undone = run.undo(EventRef::Step(1, 1));
//! ```
#![tactic(auto)]

mod event_ref;
mod own_event;
mod past;
mod progress;
mod runs;
mod trace;

pub use event_ref::EventRef;
pub use own_event::OwnEvent;
pub use progress::Progress;
pub use runs::Runs;
pub use trace::Trace;
