//! The explanation of the step that is asked for.

ghost use Rattle.cdb_explain.specs.Asked.{StandsNoStep};
ghost use Rattle.cdb_explain.specs.Explanations.{IsStepExplained};
ghost use Rattle.cdb_explain.specs.TextFaults.{IsFaultOfText};
ghost use Rattle.cdb_rules.specs.ByRules.{IsInOrder};
ghost use Rattle.std.specs.Prelude.{IfErr, IfOk};

use crate::asked::position_of_step;
use crate::fault::AnswerFault;
use crate::lines::explanation;
use cdb_deeds::HasDeeds;
use cdb_rules::Trace;
use std::alloc::Global;

/// The explanation of the `k`-th standing step of process `p`; without `k` that of its last standing step,
/// which is its decision where it has decided.
///
/// # Errors
/// `NoStep` where no such step stands, and `NoMemory` where an allocation fails.
///
/// Promise: An explanation has a line for each event that has led to the step and for no other, in the order of the
/// history, each with what it carries and decides, what it did by the table of its machine, and its direct causes, and
/// counts them. `NoStep` comes only where no such step stands.
pub fn explain_step<T: HasDeeds>(
    alloc: Global,
    run: &Trace,
    p: u32,
    k: Option<u32>,
) -> Result<Vec<u8>, AnswerFault>
    requires { IsInOrder T.rules run.now }
    ensures text { IfOk result (λ text. IsStepExplained T.rules run.now p k text.items) }
    ensures fault { IfErr result (IsFaultOfText (StandsNoStep run.now.history p k) ⊥ ⊥) }
{
    let Some(position) = position_of_step(run.events(), p, k) else {
        return Err(AnswerFault::NoStep);
    };
    Ok(explanation::<T>(alloc, run, position)?)
}
