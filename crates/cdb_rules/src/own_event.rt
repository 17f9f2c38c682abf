//! A step, with what it met at its register.

use cdb_base::Event;

/// An event and, at a read or a write, how many writes of that register stood before it.
#[derive(Clone, Copy, PartialEq, Eq)]
pub struct OwnEvent {
    pub event: Event,
    pub writes_before: Option<usize>,
}
