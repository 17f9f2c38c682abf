//! Whether a goal holds of a run.

ghost use Rattle.std.specs.Prelude.{◌≡◌, ◌↔◌, IsSome, IsTrue, MatchOption};
ghost use Rattle.cdb_goal.specs.Holds.{Holds, IsDecided, ShowsProcess};
ghost use Rattle.cdb_rules.specs.Views.{decision_of};

use crate::goal::Goal;
use crate::tests::{Test, some_passes};
use cdb_base::Val;
use cdb_rules::Runs;

/// The decision of a process, if it has one.
fn decision_of<T: Runs>(run: &T, p: u32) -> Option<Val>
    ensures { result ≡ decision_of (T.rules (T.run run.now).setup) (T.run run.now).history p }
{
    run.view(p)?.decision
}

/// The decision of the first process that has decided.
fn first_decision<T: Runs>(run: &T) -> Option<Val>
    ensures { MatchOption result
        (ShowsProcess (T.rules (T.run run.now).setup) (T.run run.now).history (λ it. IsSome it.decision) → ⊥)
        (IsDecided (T.rules (T.run run.now).setup) (T.run run.now).history) }
{
    // Its clause says that the parts of the setup are in range.
    let _ranges = run.setup().n();
    for p in 1..=u32::from(run.processes()) {
        if let Some(value) = decision_of(run, p) {
            return Some(value);
        }
    }
    None
}

/// Whether two decisions that stand differ.
fn decisions_differ<T: Runs>(run: &T) -> bool
    ensures { IsTrue result ↔ Holds (T.rules (T.run run.now).setup) (T.run run.now).history Goal.Differ }
{
    match first_decision(run) {
        Some(value) => some_passes(run, &Test::HasDecidedOther(value)),
        None => false,
    }
}

/// Whether the goal holds of the run. It takes no memory.
///
/// Promise: A goal is found to hold of a run exactly where it does: by what `show` shows of the processes.
pub fn holds<T: Runs>(run: &T, goal: Goal) -> bool
    ensures { IsTrue result ↔ Holds (T.rules (T.run run.now).setup) (T.run run.now).history goal }
{
    match goal {
        Goal::Differ => decisions_differ(run),
        Goal::All => !some_passes(run, &Test::IsUndecided),
        Goal::Stuck(round) => {
            some_passes(run, &Test::IsInRound(round)) && !some_passes(run, &Test::HasDecided)
        }
        Goal::Decides(p, value) => decision_of(run, p).is_some_and(|its| its.number() == value),
    }
}
