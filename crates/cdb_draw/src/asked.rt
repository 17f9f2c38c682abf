//! The picture that is asked for of a run.

ghost use Rattle.std.specs.Prelude.{◌≡◌, ◌≤◌, length, Some, IfErr, IfOk, IfSome};
ghost use Rattle.cdb_agreement.specs.Algorithms.{rules};
ghost use Rattle.cdb_draw.specs.Drawn.{IsPictureFor, IsPictureOfPast, IsPositionFor, IsTooMuch};
ghost use Rattle.cdb_explain.specs.Asked.{IsMissing};
ghost use Rattle.cdb_explain.specs.TextFaults.{IsFaultOfText};
ghost use Rattle.cdb_explain.specs.declared.fault.AnswerFault.TheVariants.{NoStep as no_step};
ghost use Rattle.cdb_rules.specs.ByRules.{IsInOrder};

use crate::draws::picture_of;
use crate::layout::MOST_DRAWN;
use cdb_any_run::AnyRun;
use cdb_base::limits::MAX_ENTRIES;
use cdb_base::{Event, NoMemory, StepAsked};
use cdb_explain::{AnswerFault, position_of_step};
use cdb_rules::Trace;
use cdb_slice::past_of;
use std::alloc::Global;

/// The position, from 1, of the step that is asked for, if one is. `NoStep` where none such stands.
fn position_for(events: &[Event], step: Option<StepAsked>) -> Result<Option<usize>, AnswerFault>
    ensures position { IfOk result (IsPositionFor events.now step) }
    ensures within { IfOk result
        (λ position. IfSome position (λ at. (1 ≤ at) × (at ≤ length events.now))) }
    ensures missing { IfErr result (λ fault. (fault ≡ no_step) × IsMissing events.now step) }
{
    let Some(step) = step else {
        return Ok(None);
    };
    match position_of_step(events, step.p, step.k) {
        Some(position) => Ok(Some(position)),
        None => Err(AnswerFault::NoStep),
    }
}

/// The picture of what has led to the event at a position of a run, and of nothing else.
fn picture_of_past(
    alloc: Global,
    run: &Trace,
    columns: u32,
    position: usize,
) -> Result<Vec<u8>, NoMemory>
    requires valid { IsInOrder rules run.now }
    requires few { length run.now.history ≤ MAX_ENTRIES }
    requires from_one { 1 ≤ position }
    requires to_len { position ≤ length run.now.history }
    ensures { IfOk result (λ text. IsPictureOfPast rules run.now columns (Some position) text.items) }
{
    let past = past_of::<AnyRun>(alloc, run, position)?;
    picture_of(alloc, &past, columns, Some(past.events().len()))
}

/// The picture of a run of at most 999,999 events, as SVG, with `columns` columns to a row; with 0 all are in one row.
/// With a step the trail to it is drawn bold, what else has led to it in full, and the rest pale; without one all is in
/// full. Of a run of more than 5,000 events only what has led to the step is drawn.
///
/// # Errors
/// `NoStep` where the step doesn't stand, `TooManyEvents` where none is asked for of more than 5,000 events, and
/// `NoMemory` where an allocation fails.
pub fn picture_for(
    alloc: Global,
    run: &Trace,
    columns: u32,
    step: Option<StepAsked>,
) -> Result<Vec<u8>, AnswerFault>
    requires valid { IsInOrder rules run.now }
    requires few { length run.now.history ≤ MAX_ENTRIES }
    ensures picture { IfOk result (λ text. IsPictureFor rules run.now columns step text.items) }
    ensures fault { IfErr result (IsFaultOfText (IsMissing run.now.history step) ⊥ (IsTooMuch run.now step)) }
{
    let position = position_for(run.events(), step)?;
    if run.events().len() <= MOST_DRAWN {
        return Ok(picture_of(alloc, run, columns, position)?);
    }
    let Some(position) = position else {
        return Err(AnswerFault::TooManyEvents);
    };
    Ok(picture_of_past(alloc, run, columns, position)?)
}
