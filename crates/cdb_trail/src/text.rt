//! The text of the trail to a step.

ghost use Rattle.std.specs.Prelude.{◌≡◌, ◌++◌, length, IfErr, IfOk};
ghost use Rattle.cdb_agreement.specs.Algorithms.{rules};
ghost use Rattle.cdb_explain.specs.Asked.{StandsNoStep};
ghost use Rattle.cdb_explain.specs.Explanations.{events_text, flagged_text};
ghost use Rattle.cdb_explain.specs.TextFaults.{IsFaultOfText};
ghost use Rattle.cdb_explain.specs.declared.line.Causes.TheVariants.{Hidden};
ghost use Rattle.cdb_rules.specs.ByRules.{IsInOrder};
ghost use Rattle.cdb_text.specs.Pushes.{Pushes};
ghost use Rattle.cdb_trail.specs.Oracle.{answers_in, answers_text};
ghost use Rattle.cdb_trail.specs.Texts.{proposal_text, trail_text, IsTrailToStep, TakesNoValue};

use crate::oracle::{answers_in, push_answers};
use crate::trail::{Trail, trail_of};
use cdb_any_run::AnyRun;
use cdb_base::{NoMemory, Proc, Val};
use cdb_explain::{AnswerFault, Causes, position_of_step, push_count, push_lines};
use cdb_rules::Trace;
use std::alloc::{AllocError, Global};

/// Adds the line of the input at which a trail begins.
fn push_proposal(text: &mut String, proposer: Proc, value: Val) -> Result<(), AllocError>
    ensures { Pushes result text.old text.new (proposal_text proposer value) }
{
    let proposer = proposer.number();
    let value = value.number();
    write!(text, "process {proposer} proposes ")?;
    write!(text, "{value}\n")
}

/// Adds the text of a trail of this run, whose events are flagged.
fn push_trail(
    alloc: Global,
    text: &mut String,
    run: &Trace,
    proposer: Proc,
    value: Val,
    flags: &[bool],
) -> Result<(), NoMemory>
    requires valid { IsInOrder rules run.now }
    requires a_flag_each { length flags.now ≡ length run.now.history }
    ensures { Pushes result text.old text.new (proposal_text proposer value
        ++ events_text rules Hidden run.now flags.now ++ answers_text (answers_in run.now flags.now)
        ++ flagged_text run.now flags.now) }
{
    push_proposal(text, proposer, value)?;
    let count = push_lines::<AnyRun>(alloc, text, Causes::Hidden, run, flags)?;
    let names = answers_in(alloc, run, flags)?;
    push_answers(text, names.as_slice())?;
    push_count(text, count, run.events().len())?;
    Ok(())
}

/// The text of a trail of this run.
fn text_of_trail(alloc: Global, run: &Trace, trail: &Trail) -> Result<Vec<u8>, NoMemory>
    requires valid { IsInOrder rules run.now }
    requires a_flag_each { length trail.now.flags.items ≡ length run.now.history }
    ensures { IfOk result (λ text. text.items ≡ trail_text run.now trail.now) }
{
    let mut text = String::new(alloc);
    let flags = trail.flags.as_slice();
    push_trail(alloc, &mut text, run, trail.proposer, trail.value, flags)?;
    Ok(text.into_bytes())
}

/// The text of the trail of a value to a step of a run: to the `k`-th standing step of process `p`; without `k` to its
/// last one, which is its decision where it has decided. First the process whose input the value was, then each event
/// along which it went, the oracle's answers on which they rest, and how many events they are.
///
/// # Errors
/// `NoStep` where no such step stands, `NoValue` where it takes no value, and `NoMemory` where an allocation fails.
///
/// Promise: A trail has the process whose input the value was, a line for each event on the trail to the step and for
/// no other, and the oracle's answers on which it rests, and counts them. `NoStep` comes only where no such step
/// stands, `NoValue` only where it takes no value.
pub fn trail_to_step(
    alloc: Global,
    run: &Trace,
    p: u32,
    k: Option<u32>,
) -> Result<Vec<u8>, AnswerFault>
    requires { IsInOrder rules run.now }
    ensures text { IfOk result (λ text. IsTrailToStep run.now p k text.items) }
    ensures fault { IfErr result
        (IsFaultOfText (StandsNoStep run.now.history p k) (TakesNoValue run.now p k) ⊥) }
{
    let Some(position) = position_of_step(run.events(), p, k) else {
        return Err(AnswerFault::NoStep);
    };
    let Some(trail) = trail_of(alloc, run, position)? else {
        return Err(AnswerFault::NoValue);
    };
    Ok(text_of_trail(alloc, run, &trail)?)
}
