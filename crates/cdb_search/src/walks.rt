//! One walk.

ghost use Rattle.std.specs.Prelude.{◌≡◌, IfOk, IfSome};
ghost use Rattle.cdb_search.specs.Found.{IsReached};

use crate::walker::Walker;
use cdb_base::{Event, NoMemory};
use cdb_commands::Command;
use cdb_goal::{Goal, holds};
use cdb_rules::Runs;
use cdb_setup::Setup;
use rand_core::Rng;
use std::alloc::Global;

/// The most steps that a walk tries.
const MOST_STEPS: u32 = 400;

/// The event of a step or a loss, where it is not refused.
fn attempt<T: Runs>(alloc: Global, run: &mut T, command: Command) -> Result<Option<Event>, NoMemory>
    ensures { (T.run run.new).setup ≡ (T.run run.old).setup }
{
    let result = match command {
        Command::Step(p, act) => run.step(alloc, p, act)?,
        Command::Lose(s, m, p) => run.lose(alloc, s, m, p)?,
        _ => return Ok(None),
    };
    Ok(result.ok())
}

/// Goes one step further.
fn go_on<T: Runs, G: Rng>(
    alloc: Global,
    run: &mut T,
    walker: &mut Walker,
    random: &mut G,
) -> Result<(), NoMemory>
    ensures { (T.run run.new).setup ≡ (T.run run.old).setup }
{
    let command = walker.next(run, random);
    match attempt(alloc, run, command)? {
        Some(event) => walker.see(&event),
        None => Ok(()),
    }
}

/// A run of the setup in which the goal holds, where a walk of at most 400 steps comes to one.
pub(crate) fn walk<T: Runs, G: Rng>(
    alloc: Global,
    setup: &Setup,
    goal: Goal,
    random: &mut G,
) -> Result<Option<T>, NoMemory>
    ensures { IfOk result (λ found. IfSome found (λ run. IsReached T.rules setup.now goal (T.run run))) }
{
    let mut run = T::start(alloc, setup.copy(alloc)?)?;
    let mut walker = Walker::new(alloc, setup, random);
    for _ in 0..MOST_STEPS {
        if holds(&run, goal) {
            break;
        }
        go_on(alloc, &mut run, &mut walker, random)?;
    }
    if holds(&run, goal) {
        Ok(Some(run))
    } else {
        Ok(None)
    }
}
