//! The picture of a run, or of what led to one of its events.

ghost use Rattle.std.specs.Prelude.{◌≡◌, ◌≤◌, length, Option, Some, IfOk, IfSome};
ghost use Rattle.cdb_agreement.specs.Algorithms.{rules};
ghost use Rattle.cdb_draw.specs.Picture.{IsPicture};
ghost use Rattle.cdb_draw.specs.Weights.{trail_flags, weigh_each, AreWeighed};
ghost use Rattle.cdb_rules.specs.ByRules.{IsInOrder};
ghost use Rattle.cdb_trail.specs.Trailed.{IsTrailIn};
ghost use Rattle.cdb_trail.specs.declared.trail.Trail.{Trail};

use crate::layout::grid_of;
use crate::picture::weighed_picture;
use crate::weight::Weight;
use cdb_any_run::AnyRun;
use cdb_base::NoMemory;
use cdb_base::limits::MAX_ENTRIES;
use cdb_rules::Trace;
use cdb_trail::trail_of;
use std::alloc::Global;

/// The weight of each event, by the flags of those that have led to a step, and of those on the trail to it.
fn weigh_each(alloc: Global, past: &[bool], trail: &[bool]) -> Result<Vec<Weight>, NoMemory>
    requires { length trail.now ≡ length past.now }
    ensures weights { IfOk result (λ weights. weights.items ≡ weigh_each past.now trail.now) }
    ensures each { IfOk result (λ weights. length weights.items ≡ length past.now) }
{
    let mut weights = Vec::new(alloc);
    for i in 0..past.len() {
        weights.push(Weight::of(past[i], trail[i]))?;
    }
    Ok(weights)
}

/// Flags the events on the trail to the step at a position; none where it takes no value.
fn flag_trail(alloc: Global, run: &Trace, position: usize) -> Result<Vec<bool>, NoMemory>
    requires valid { IsInOrder rules run.now }
    requires from_one { 1 ≤ position }
    requires to_len { position ≤ length run.now.history }
    ensures flags { IfOk result (λ flags. (trail : Option Trail) × IsTrailIn run.now position trail
        × (flags.items ≡ trail_flags (length run.now.history) trail)) }
    ensures each { IfOk result (λ flags. length flags.items ≡ length run.now.history) }
{
    match trail_of(alloc, run, position)? {
        Some(trail) => Ok(trail.flags),
        None => Ok(Vec::from_elem(alloc, false, run.events().len())?),
    }
}

/// The weight of each event where the step at a position is asked for.
fn weights_to(alloc: Global, run: &Trace, position: usize) -> Result<Vec<Weight>, NoMemory>
    requires valid { IsInOrder rules run.now }
    requires from_one { 1 ≤ position }
    requires to_len { position ≤ length run.now.history }
    ensures weights { IfOk result (λ weights. AreWeighed run.now (Some position) weights.items) }
    ensures each { IfOk result (λ weights. length weights.items ≡ length run.now.history) }
{
    let past = run.flag_past(alloc, position)?;
    let trail = flag_trail(alloc, run, position)?;
    let weights = weigh_each(alloc, past.as_slice(), trail.as_slice())?;
    Ok(weights)
}

/// The weight of each event: all are in full where no step is asked for.
fn weights_for(alloc: Global, run: &Trace, position: Option<usize>) -> Result<Vec<Weight>, NoMemory>
    requires valid { IsInOrder rules run.now }
    requires stands { IfSome position (λ at. (1 ≤ at) × (at ≤ length run.now.history)) }
    ensures weights { IfOk result (λ weights. AreWeighed run.now position weights.items) }
    ensures each { IfOk result (λ weights. length weights.items ≡ length run.now.history) }
{
    match position {
        Some(position) => weights_to(alloc, run, position),
        None => Ok(Vec::from_elem(alloc, Weight::Full, run.events().len())?),
    }
}

/// The picture of a run of at most 999,999 events, as SVG, with `columns` columns to a row; with 0 all are in one row.
/// With a position of its history, from 1, the trail to the event there is drawn bold, what else has led to it in full,
/// and the rest pale; without one everything is in full. Only out of memory is an error.
///
/// Promise: A picture has one mark for each standing event, on its lane and in the order of the history, with its name,
/// its whole text, the value that it carries, the round that it begins or what it did; what each write leaves in its
/// register; a stub with the receivers that wait at each send whose copies were not all received or lost; one arrow to
/// each receive and each lost copy, from the first event that sends its message; one from or to the register of each
/// read and write; a lane that ends at its crash; and exactly the trail to the event that is asked for is bold, exactly
/// what else has led to it in full.
pub fn picture_of(
    alloc: Global,
    run: &Trace,
    columns: u32,
    position: Option<usize>,
) -> Result<Vec<u8>, NoMemory>
    requires valid { IsInOrder rules run.now }
    requires few { length run.now.history ≤ MAX_ENTRIES }
    requires stands { IfSome position (λ at. (1 ≤ at) × (at ≤ length run.now.history)) }
    ensures { IfOk result (λ text. IsPicture rules run.now columns position text.items) }
{
    let weights = weights_for(alloc, run, position)?;
    let grid = grid_of(run.setup(), columns as usize, run.events().len());
    weighed_picture::<AnyRun>(alloc, grid, run, weights.as_slice())
}
