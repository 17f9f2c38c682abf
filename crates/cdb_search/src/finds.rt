//! Walks one after the other, until the goal holds.

ghost use Rattle.std.specs.Prelude.{◌≡◌, IfOk, IfSome};
ghost use Rattle.cdb_search.specs.Found.{IsReached};

use crate::walks::walk;
use crate::watch::Watch;
use cdb_base::NoMemory;
use cdb_goal::Goal;
use cdb_rules::Runs;
use cdb_setup::Setup;
use rand_core::SeedableRng;
use rand_xoshiro::Xoshiro256PlusPlus;
use std::alloc::Global;

/// A run of the setup in which the goal holds, if one of the walks comes to one. The walks are the same where the seed
/// is.
pub(crate) fn find<T: Runs, P: Watch>(
    alloc: Global,
    setup: &Setup,
    goal: Goal,
    seed: u32,
    walks: u32,
    watch: &P,
) -> Result<Option<T>, NoMemory>
    ensures { IfOk result (λ found. IfSome found (λ run. IsReached T.rules setup.now goal (T.run run))) }
{
    let mut random = Xoshiro256PlusPlus::seed_from_u64(u64::from(seed));
    for walked in 0..walks {
        if let Some(run) = walk::<T, _>(alloc, setup, goal, &mut random)? {
            return Ok(Some(run));
        }
        watch.walked(walked + 1);
    }
    Ok(None)
}
