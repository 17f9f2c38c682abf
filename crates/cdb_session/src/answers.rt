//! Who answers what is asked of a run.

ghost use Rattle.std.specs.Prelude.{◌≡◌, ◌≤◌, IfOk, length};
ghost use Rattle.cdb_base.specs.Limits.{MAX_ENTRIES, MAX_SEATS};
ghost use Rattle.cdb_control.specs.Journal.{AreOfSeats};
ghost use Rattle.cdb_rules.specs.ByRules.{IsInOrder};
ghost use Rattle.cdb_rules.specs.RunView.{RunView};
ghost use Rattle.cdb_session.specs.Answers.{answer_seen, run_left};
ghost use Rattle.cdb_session.specs.Exchanges.{Answer};
ghost use Rattle.cdb_session.specs.declared.inquiry.Inquiry.{Inquiry as InquiryName};

use crate::inquiry::Inquiry;
use cdb_base::NoMemory;
use cdb_control::{Control, Entry};
use cdb_explain::trace_of;
use cdb_journal::open_on;
use cdb_rules::{Runs, Trace};
use cdb_setup::Setup;
use std::alloc::Global;

/// Who answers what is asked of a run of this type.
pub trait Answers<R: Runs> {
    // Of a run, what is asked of it and an answer, whether it is that answer.
    ghost answers: { RunView → InquiryName → Answer → Type 0 };

    /// The answer to what is asked of a run: the text, or one that says why there is none.
    fn answer(
        alloc: Global,
        run: &Trace,
        inquiry: &Inquiry<'_>,
    ) -> Result<Result<Vec<u8>, Vec<u8>>, NoMemory>
        requires valid { IsInOrder R.rules run.now }
        requires few { length run.now.history ≤ MAX_ENTRIES }
        ensures { IfOk result (λ answer. answers run.now inquiry.now (answer_seen answer)) };
}

/// What stands in the run that a journal leaves.
fn run_left<R: Runs>(
    alloc: Global,
    setup: Setup,
    seats: u8,
    entries: &[Entry],
) -> Result<Trace, NoMemory>
    requires some { (1 ≤ seats) × (seats ≤ MAX_SEATS) }
    requires seats { AreOfSeats seats entries.now }
    requires few { length entries.now ≤ MAX_ENTRIES }
    ensures left { IfOk result (λ run. run ≡ run_left R.rules setup seats entries.now) }
    ensures valid { IfOk result (IsInOrder R.rules) }
    ensures few { IfOk result (λ run. length run.history ≤ MAX_ENTRIES) }
{
    let control = open_on::<R>(alloc, setup, seats, entries)?;
    trace_of(alloc, control)
}

/// The answer to what is asked of the run that a journal leaves, of a control with this setup and 1 to 64 seats: its
/// commands are carried out again, on a control of their own.
pub fn answer_of<R: Runs, A: Answers<R>>(
    alloc: Global,
    setup: &Setup,
    seats: u8,
    entries: &[Entry],
    inquiry: &Inquiry<'_>,
) -> Result<Result<Vec<u8>, Vec<u8>>, NoMemory>
    requires some { (1 ≤ seats) × (seats ≤ MAX_SEATS) }
    requires seats { AreOfSeats seats entries.now }
    requires few { length entries.now ≤ MAX_ENTRIES }
    ensures { IfOk result
        (λ answer. A.answers (run_left R.rules setup.now seats entries.now) inquiry.now (answer_seen answer)) }
{
    let setup = setup.copy(alloc)?;
    let run = run_left::<R>(alloc, setup, seats, entries)?;
    A::answer(alloc, &run, inquiry)
}

/// The answer to what is asked of the run of a control.
pub fn answer_in<R: Runs, A: Answers<R>>(
    alloc: Global,
    control: &Control<R>,
    inquiry: &Inquiry<'_>,
) -> Result<Result<Vec<u8>, Vec<u8>>, NoMemory>
    ensures answer { IfOk result (λ answer. A.answers
        (run_left R.rules control.now.setup control.now.seats control.now.journal) inquiry.now (answer_seen answer)) }
    ensures limit { length control.now.journal ≤ MAX_ENTRIES }
{
    let (setup, seats) = (control.run().setup(), control.seats());
    answer_of::<R, A>(alloc, setup, seats, control.journal(), inquiry)
}
