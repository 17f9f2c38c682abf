//! The events that a script is to play.

ghost use Rattle.std.specs.Prelude.{◌≤◌, List, length, IfOk, MatchOption};
ghost use Rattle.cdb_base.specs.declared.event.Event.{Event as EventName};
ghost use Rattle.cdb_causal.specs.Dependence.{depends};
ghost use Rattle.cdb_causal.specs.Past.{IsSlice};
ghost use Rattle.cdb_explain.specs.Asked.{IsMissing};
ghost use Rattle.cdb_slice.specs.Slices.{AreSliced};

use cdb_base::{Event, NoMemory, StepAsked};
use cdb_explain::position_of_step;
use cdb_rules::Trace;
use std::alloc::Global;

/// The events that have led to the one at a position, from 1, and that one, in order.
pub(crate) fn led_to(alloc: Global, run: &Trace, position: usize) -> Result<Vec<Event>, NoMemory>
    requires from_one { 1 ≤ position }
    requires to_len { position ≤ length run.now.history }
    ensures { IfOk result (λ led. (others : List EventName)
        × IsSlice depends run.now.history position led.items others) }
{
    let events = run.events();
    let past = run.flag_past(alloc, position)?;
    let flags = past.as_slice();
    let mut led = Vec::new(alloc);
    for i in 0..events.len() {
        let event = events[i];
        if flags[i] {
            led.push(event)?;
        }
    }
    Ok(led)
}

/// All events of a run; with a step those that have led to it. Nothing where no such step stands.
pub(crate) fn events_for(
    alloc: Global,
    run: &Trace,
    step: Option<StepAsked>,
) -> Result<Option<Vec<Event>>, NoMemory>
    ensures { IfOk result (λ found. MatchOption found (IsMissing run.now.history step)
        (λ events. AreSliced run.now.history step events.items)) }
{
    let Some(step) = step else {
        return Ok(Some(run.events().to_vec(alloc)?));
    };
    let Some(position) = position_of_step(run.events(), step.p, step.k) else {
        return Ok(None);
    };
    Ok(Some(led_to(alloc, run, position)?))
}
