//! Questions of a run: the text that answers each, and what is done where a script file leaves the run.

ghost use Rattle.std.specs.Prelude.{◌≡◌, ◌≤◌, length, IfErr, IfOk};
ghost use Rattle.cdb_agreement.specs.Algorithms.{rules};
ghost use Rattle.cdb_base.specs.Limits.{MAX_ENTRIES};
ghost use Rattle.cdb_program.specs.Questions.{Answers, AsksFiles, IsAnswerTo, IsFaultOfAnswer, IsFaultOfQuestion};
ghost use Rattle.cdb_rules.specs.ByRules.{IsInOrder};

use crate::fault::{Fault, of_answer};
use crate::files::{Files, read_two};
use crate::made::write_made;
use crate::world::World;
use cdb_any_run::AnyRun;
use cdb_base::Question;
use cdb_clocks::clocks;
use cdb_draw::picture_for;
use cdb_explain::{AnswerFault, explain_step, run_left_by};
use cdb_page::page_of_few;
use cdb_page::parts::Refresh;
use cdb_rules::Trace;
use cdb_slice::slice;
use cdb_streams::{Sink, Source};
use cdb_trail::trail_to_step;
use std::alloc::Global;

/// The text that answers a question of a run.
pub(crate) fn text_about(
    alloc: Global,
    run: &Trace,
    question: Question,
) -> Result<Vec<u8>, AnswerFault>
    requires valid { IsInOrder rules run.now }
    requires few { length run.now.history ≤ MAX_ENTRIES }
    ensures text { IfOk result (λ text. IsAnswerTo question run.now text.items) }
    ensures fault { IfErr result (IsFaultOfAnswer question run.now) }
{
    match question {
        Question::Explain(step) => explain_step::<AnyRun>(alloc, run, step.p, step.k),
        Question::Trail(step) => trail_to_step(alloc, run, step.p, step.k),
        Question::Draw { columns, step } => picture_for(alloc, run, columns, step),
        Question::Slice(step) => slice::<AnyRun>(alloc, run, step),
        Question::Clocks => Ok(clocks::<AnyRun>(alloc, run)?),
        Question::Page => page_of_few(alloc, run, Refresh::Never),
    }
}

/// The text that answers a question of the run that a script leaves.
fn answer(
    alloc: Global,
    setup: &[u8],
    script: &[u8],
    question: Question,
) -> Result<Vec<u8>, AnswerFault>
    ensures text { IfOk result (λ text. Answers question setup.now script.now text.items) }
    ensures fault { IfErr result (IsFaultOfQuestion question setup.now script.now) }
{
    let run = run_left_by::<AnyRun>(alloc, setup, script)?;
    text_about(alloc, &run, question)
}

/// Answers a question of the run that a script file leaves on a setup file.
///
/// Promise: The setup is read first, then the whole script, then all its lines, and the text of an answer is whole
/// before any of it is written. So after a fault nothing was written, but after a failed write a beginning.
pub fn answer_files<'a, F: Files + Drop, I: Source + Drop, O: Sink + Drop, E: Sink + Drop>(
    alloc: Global,
    setup: &'a str,
    script: &'a str,
    question: Question,
    world: &mut World<F, I, O, E>,
) -> Result<(), Fault<'a>>
    ensures does { AsksFiles setup.entry.now script.entry.now question
        world.old world.new result }
    ensures error { world.new.error ≡ world.old.error }
    ensures saved { world.new.saved ≡ world.old.saved }
{
    let (json, bytes) = read_two(alloc, &mut world.files, setup, script)?;
    let made = answer(alloc, json.as_slice(), bytes.as_slice(), question);
    of_answer(write_made(alloc, made, &mut world.streams.output), script)
}
