//! What a session answers that is asked of its run.

ghost use Rattle.std.specs.Prelude.{◌≡◌, IfOk};
ghost use Rattle.cdb_program.specs.Answers.{question_of, report_of};

use crate::questions::text_about;
use cdb_any_run::AnyRun;
use cdb_base::limits::COLUMNS;
use cdb_base::{NoMemory, Question};
use cdb_explain::AnswerFault;
use cdb_rules::Trace;
use cdb_session::{Answers, Inquiry};
use cdb_streams::PlayFault;
use std::alloc::Global;

/// Answers with what `explain` and `trail` print of a run and `draw` writes, or report where there is nothing.
#[derive(Drop)]
pub struct Printed;

impl Answers<AnyRun> for Printed {
    ghost use Rattle.cdb_program.specs.Answers.{IsAnswer};

    ghost answers = { IsAnswer };

    fn answer(
        alloc: Global,
        run: &Trace,
        inquiry: &Inquiry<'_>,
    ) -> Result<Result<Vec<u8>, Vec<u8>>, NoMemory> {
        match text_about(alloc, run, question_of(inquiry)) {
            Ok(text) => Ok(Ok(text)),
            Err(AnswerFault::Play(PlayFault::NoMemory(refused))) => Err(refused),
            Err(fault) => Ok(Err(reported(alloc, fault)?)),
        }
    }
}

/// The question that is asked.
fn question_of(inquiry: &Inquiry<'_>) -> Question
    ensures { result ≡ question_of inquiry.now }
{
    match inquiry {
        Inquiry::Explain(step) => Question::Explain(*step),
        Inquiry::Trail(step) => Question::Trail(*step),
        Inquiry::Draw(_, step) => Question::Draw {
            columns: COLUMNS,
            step: *step,
        },
    }
}

/// What is reported of a fault.
fn reported(alloc: Global, fault: AnswerFault) -> Result<Vec<u8>, NoMemory>
    ensures { IfOk result (λ text. text.items ≡ report_of fault) }
{
    let mut text = String::new(alloc);
    writeln!(text, "{fault}")?;
    Ok(text.into_bytes())
}
