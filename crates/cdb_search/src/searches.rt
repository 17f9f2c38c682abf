//! Searches: walks at random until the goal holds, and the script of the run that was found.

ghost use Rattle.std.specs.Prelude.{IfErr, IfOk};
ghost use Rattle.cdb_goal.specs.Holds.{Holds};
ghost use Rattle.cdb_search.specs.Found.{IsFaultOfSearch, IsFound, IsScriptTo};

use crate::finds::find;
use crate::watch::Watch;
use cdb_base::NoMemory;
use cdb_explain::AnswerFault;
use cdb_goal::Goal;
use cdb_rules::Runs;
use cdb_setup::Setup;
use cdb_slice::laws::valid_histories_play_back;
use cdb_slice::script_of;
use std::alloc::Global;

/// A script that plays the run.
fn script_of_run<T: Runs>(alloc: Global, run: T, goal: Goal) -> Result<Vec<u8>, NoMemory>
    requires { Holds (T.rules (T.run run).setup) (T.run run).history goal }
    ensures { IfOk result (λ text.
        IsScriptTo (T.rules (T.run run).setup) (T.run run).setup goal text.items) }
{
    // Its clause is that the script of a valid history plays it back.
    valid_histories_play_back::<T>();
    // Its clause says that the parts of the setup are in range.
    let _ranges = run.setup().n();
    let (_setup, history) = run.into_parts();
    let events = history.to_vec(alloc)?;
    script_of(alloc, events.as_slice())
}

/// Walks at random on a setup, at most this often, until a goal holds, and makes a script that plays the run in
/// which it does: each line is answered with its event, and in the end just these events stand, of which the goal
/// holds. A walk tries at most 400 steps. Everything that can happen can come in it; what it prefers is not said, nor
/// that it finds anything.
///
/// The seed is all that the walks depend on, so that the same one finds the same run. The watch is told of each walk
/// that came to nothing.
///
/// Promise: Of the script that a search makes each line, played from the start, is answered with its event, and in the
/// end the goal holds. `NotFound` says nothing of other runs.
pub fn search<T: Runs, P: Watch>(
    alloc: Global,
    setup: &[u8],
    goal: Goal,
    seed: u32,
    walks: u32,
    watch: &P,
) -> Result<Vec<u8>, AnswerFault>
    ensures text { IfOk result (λ text. IsFound T.rules setup.now goal text.items) }
    ensures fault { IfErr result (IsFaultOfSearch setup.now walks) }
{
    let setup = Setup::read(alloc, setup)?;
    match find::<T, P>(alloc, &setup, goal, seed, walks, watch)? {
        Some(run) => Ok(script_of_run(alloc, run, goal)?),
        None => Err(AnswerFault::NotFound(walks)),
    }
}
