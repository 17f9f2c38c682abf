//! Scripts made small: lines are left out as long as a goal holds.

ghost use Rattle.std.specs.Prelude.{◌≤◌, IfErr, IfOk, length};
ghost use Rattle.cdb_base.specs.Limits.{MAX_ENTRIES};
ghost use Rattle.cdb_rules.specs.ByRules.{IsInOrder};
ghost use Rattle.cdb_search.specs.Shrunk.{IsFaultOfShrink, IsShrunkText};

use crate::sparing::{holds_after, shrunk};
use cdb_explain::AnswerFault;
use cdb_goal::Goal;
use cdb_rules::{Runs, Trace};
use cdb_slice::laws::valid_histories_play_back;
use cdb_slice::{commands_for, lines_of};
use std::alloc::Global;

/// A small script after which a goal holds: lines of a script of what stands in a run, in their order. A line is a
/// command, and lines that are refused change nothing. Leaving out any one of them, and what is refused then, loses the
/// goal; of several such scripts it is not the shortest.
///
/// # Errors
/// `DoesNotHold` where the goal doesn't hold of the run, and `NoMemory` where an allocation fails.
///
/// Promise: What a shrink makes are lines of the slice of the run, in their order. Played from the start the goal holds
/// in the end, and without any one of them it does not. `DoesNotHold` comes only where it does not hold of that run.
#[tactic(auto, using(crate::proofs::Scripts::memory_is_out))]
pub fn shrink<T: Runs>(alloc: Global, run: &Trace, goal: Goal) -> Result<Vec<u8>, AnswerFault>
    requires valid { IsInOrder T.rules run.now }
    requires few { length run.now.history ≤ MAX_ENTRIES }
    ensures text { IfOk result (λ text. IsShrunkText T.rules run.now goal text.items) }
    ensures fault { IfErr result (IsFaultOfShrink T.rules run.now goal) }
{
    // Its clause is that the script of a valid history plays it back.
    valid_histories_play_back::<T>();
    // Its clause says that the parts of the setup are in range.
    let _ranges = run.setup().n();
    let commands = commands_for(alloc, run.events())?;
    if !holds_after::<T>(alloc, run.setup(), goal, commands.as_slice())? {
        return Err(AnswerFault::DoesNotHold);
    }
    let lines = shrunk::<T>(alloc, run.setup(), goal, commands.as_slice())?;
    Ok(lines_of(alloc, lines.as_slice())?)
}
