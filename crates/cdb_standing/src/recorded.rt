//! What is kept of a standing event for taking it back.

use cdb_base::{Cell, Event};

/// What a step left for taking it back. `B` is what an input leaves of its machine.
#[derive(Drop)]
pub struct UndoData<B: Drop> {
    /// What the step consumed or overwrote in its machine; none for a crash.
    pub back: Option<B>,
    /// The cell that a write overwrote.
    pub overwritten: Option<Cell>,
}

/// A standing event with what it left: the loss of a copy left nothing.
#[derive(Drop)]
pub struct Recorded<B: Drop> {
    pub event: Event,
    pub back: Option<B>,
    pub overwritten: Option<Cell>,
}
