//! The script that plays a run, or what led to a step of it.

ghost use Rattle.std.specs.Prelude.{IfErr, IfOk};
ghost use Rattle.cdb_explain.specs.Asked.{IsMissing};
ghost use Rattle.cdb_explain.specs.TextFaults.{IsFaultOfText};
ghost use Rattle.cdb_rules.specs.ByRules.{IsInOrder};
ghost use Rattle.cdb_slice.specs.Slices.{IsSliceText};

use crate::events::events_for;
use crate::script::script_of;
use cdb_base::StepAsked;
use cdb_explain::AnswerFault;
use cdb_rules::{Runs, Trace};
use std::alloc::Global;

/// A script of the standing events of a run, a command for each; with a step only of those that have led to it. Given
/// from the start, each command is answered with its event, and in the end just these events stand, in this order. That
/// each line is read as its command is a law of `cdb_text`.
///
/// # Errors
/// `NoStep` where no such step stands, and `NoMemory` where an allocation fails.
///
/// Promise: A slice has a line for each standing event, or for each that has led to the step, and for no other, in the
/// order of the history: its command. Given from the start, each is answered with its event, and in the end just these
/// events stand. `NoStep` comes only where no such step stands.
pub fn slice<T: Runs>(
    alloc: Global,
    run: &Trace,
    step: Option<StepAsked>,
) -> Result<Vec<u8>, AnswerFault>
    requires { IsInOrder T.rules run.now }
    ensures text { IfOk result (λ text. IsSliceText T.rules run.now step text.items) }
    ensures fault { IfErr result (IsFaultOfText (IsMissing run.now.history step) ⊥ ⊥) }
{
    // Its clause says that the parts of the setup are in range.
    let _ranges = run.setup().n();
    let Some(events) = events_for(alloc, run, step)? else {
        return Err(AnswerFault::NoStep);
    };
    Ok(script_of(alloc, events.as_slice())?)
}
