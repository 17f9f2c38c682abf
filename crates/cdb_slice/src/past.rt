//! The run of what led to an event.

ghost use Rattle.std.specs.Prelude.{◌≡◌, ◌≤◌, length, List, IfOk};
ghost use Rattle.cdb_base.specs.declared.event.Event.{Event};
ghost use Rattle.cdb_causal.specs.Dependence.{depends};
ghost use Rattle.cdb_causal.specs.Past.{IsSlice};
ghost use Rattle.cdb_rules.specs.ByRules.{IsInOrder};
ghost use Rattle.cdb_rules.specs.Runs.{with_history};

use crate::events::led_to;
use cdb_base::NoMemory;
use cdb_explain::played;
use cdb_rules::{Runs, Trace};
use std::alloc::Global;

/// What has led to the event at a position, from 1, which is a run by itself: the event is the last one of it.
///
/// Promise: What has led to an event is a run of the same setup by itself.
pub fn past_of<T: Runs>(alloc: Global, run: &Trace, position: usize) -> Result<Trace, NoMemory>
    requires valid { IsInOrder T.rules run.now }
    requires from_one { 1 ≤ position }
    requires to_len { position ≤ length run.now.history }
    ensures past { IfOk result (λ past. (events : List Event) × (others : List Event)
        × IsSlice depends run.now.history position events others
        × (past ≡ with_history run.now events)) }
    ensures valid { IfOk result (IsInOrder T.rules) }
    ensures some { IfOk result (λ past. 1 ≤ length past.history) }
    ensures few { IfOk result (λ past. length past.history ≤ length run.now.history) }
{
    // Its clause says that the parts of the setup are in range.
    let _ranges = run.setup().n();
    let events = led_to(alloc, run, position)?;
    let again = played::<T>(alloc, run, events.as_slice())?;
    let (setup, history) = again.into_parts();
    Trace::new(alloc, setup, history)
}
