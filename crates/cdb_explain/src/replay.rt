//! A run that is played again, event by event.

ghost use Rattle.cdb_causal.specs.StandingEvents.{IsStanding};
ghost use Rattle.cdb_explain.specs.Explanations.{deed_at};
ghost use Rattle.cdb_explain.specs.Replays.{IsPlayed};
ghost use Rattle.cdb_rules.specs.ByRules.{IsInOrder};
ghost use Rattle.cdb_rules.specs.Runs.{with_event, with_history};
ghost use Rattle.std.specs.Prelude.{◌≡◌, ◌+◌, ◌<◌, suc, [], length, IfOk, OnOk};

use cdb_base::{CopyName, Event, Kind, MsgName, NoMemory, Reg, StepId, StepName};
use cdb_deeds::{Deed, HasDeeds, ReceivedNames};
use cdb_rules::{Runs, Trace};
use std::alloc::Global;

/// A run of the same setup in which nothing has happened.
pub fn fresh<T: Runs>(alloc: Global, run: &Trace) -> Result<T, NoMemory>
    ensures { IfOk result (λ again. T.run again ≡ with_history run.now []) }
{
    let setup = run.setup().copy(alloc)?;
    T::start(alloc, setup)
}

/// Takes the next event of the run that is played again.
fn take_next<T: Runs>(alloc: Global, again: &mut T, event: &Event) -> Result<(), NoMemory>
    requires { IsInOrder T.rules (with_event (T.run again.old) event.now) }
    ensures { OnOk result (T.run again.new ≡ with_event (T.run again.old) event.now) }
{
    // Names each type inside an event and a refusal, which the check finds in no other part of the function.
    let _parts: (Option<Kind>, Option<Reg>, Option<StepId>) = (None, None, None);
    let _names: (Option<StepName>, Option<CopyName>, Option<MsgName>) = (None, None, None);
    // Its clause says that the parts of the setup are in range.
    let _ranges = again.setup().n();
    match again.again(alloc, event)? {
        Ok(_) => Ok(()),
        Err(_) => unreachable!(),
    }
}

/// A run of the same setup in which just these events were taken.
pub fn played<T: Runs>(alloc: Global, run: &Trace, events: &[Event]) -> Result<T, NoMemory>
    requires { IsInOrder T.rules (with_history run.now events.now) }
    ensures { IfOk result (λ again. T.run again ≡ with_history run.now events.now) }
{
    let mut again = fresh::<T>(alloc, run)?;
    // Its clause says that the parts of the setup are in range.
    let _ranges = run.setup().n();
    for i in 0..events.len() {
        take_next(alloc, &mut again, &events[i])?;
    }
    Ok(again)
}

/// What the event at index `i` of the run does, from 0, which comes next in `again`.
pub fn next_deed<T: HasDeeds>(
    alloc: Global,
    again: &T,
    names: &ReceivedNames,
    run: &Trace,
    i: usize,
) -> Result<Deed, NoMemory>
    requires within { i < length run.now.history }
    requires played { IsPlayed run.now i (T.run again.now) names.now }
    ensures { IfOk result (λ deed. deed ≡ deed_at run.now (suc i)) }
{
    let events = run.events();
    again.deed(alloc, names, &events[i])
}

/// Takes that event, and notes what it receives.
pub fn play_on<T: HasDeeds>(
    alloc: Global,
    again: &mut T,
    names: &mut ReceivedNames,
    run: &Trace,
    i: usize,
) -> Result<(), NoMemory>
    requires valid { IsInOrder T.rules run.now }
    requires within { i < length run.now.history }
    requires played { IsPlayed run.now i (T.run again.old) names.old }
    ensures played { OnOk result (IsPlayed run.now (i + 1) (T.run again.new) names.new) }
    ensures standing { OnOk result (IsStanding run.now.history) }
{
    // Its clause says that the parts of the setup are in range.
    let _ranges = run.setup().n();
    let events = run.events();
    let event = &events[i];
    take_next(alloc, again, event)?;
    names.add(event)?;
    Ok(())
}
