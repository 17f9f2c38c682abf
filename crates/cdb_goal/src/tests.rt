//! What a process is tested for.

ghost use Rattle.std.specs.Prelude.{◌≡◌, ◌↔◌, IsTrue, false};
ghost use Rattle.std.specs.Option.{option_map_or};
ghost use Rattle.cdb_goal.specs.Holds.{ShowsProcess};
ghost use Rattle.cdb_goal.specs.Tests.{passes};
ghost use Rattle.cdb_rules.specs.ByRules.{process_in};

use cdb_base::{ProcView, Val};
use cdb_rules::Runs;

/// What a process is tested for.
#[derive(Clone, Copy)]
pub(crate) enum Test {
    HasDecided,
    /// It has decided another value.
    HasDecidedOther(Val),
    /// It is alive, and has not decided.
    IsUndecided,
    /// It is in this round or a later one.
    IsInRound(u32),
}

impl Test {
    /// Whether a process passes that is shown so.
    fn passes(&self, process: &ProcView) -> bool
        ensures { result ≡ passes self.now process.now.round process.now.alive process.now.decision }
    {
        match self {
            Test::HasDecided => process.decision.is_some(),
            Test::HasDecidedOther(value) => process.decision.is_some_and(|other| other != *value),
            Test::IsUndecided => process.alive && process.decision.is_none(),
            Test::IsInRound(round) => *round <= process.round,
        }
    }
}

/// Whether the run has a process of that number that passes the test.
fn passes_at<T: Runs>(run: &T, p: u32, test: &Test) -> bool
    ensures { result ≡ option_map_or (λ it. passes test.now it.round it.alive it.decision)
        (process_in T.rules (T.run run.now) p) false }
{
    match run.view(p) {
        Some(process) => test.passes(&process),
        None => false,
    }
}

/// Whether some process of the run passes the test.
pub(crate) fn some_passes<T: Runs>(run: &T, test: &Test) -> bool
    ensures { IsTrue result ↔ ShowsProcess (T.rules (T.run run.now).setup) (T.run run.now).history
        (λ it. IsTrue (passes test.now it.round it.alive it.decision)) }
{
    // Its clause says that the parts of the setup are in range.
    let _ranges = run.setup().n();
    for p in 1..=u32::from(run.processes()) {
        if passes_at(run, p, test) {
            return true;
        }
    }
    false
}
