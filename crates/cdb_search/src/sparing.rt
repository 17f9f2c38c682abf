//! Commands are left out as long as a goal holds.

ghost use Rattle.std.specs.Prelude.{◌≡◌, ◌↔◌, ◌<◌, ◌≤◌, ◌+◌, IfOk, IsTrue, length};
ghost use Rattle.cdb_base.specs.Limits.{MAX_ENTRIES};
ghost use Rattle.cdb_causal.specs.Rollback.{without};
ghost use Rattle.cdb_search.specs.Shrunk.{HoldsAfter, IsShrunk};
ghost use Rattle.cdb_search.specs.Passes.{IsPassed};

use cdb_base::NoMemory;
use cdb_commands::Command;
use cdb_explain::control_after;
use cdb_goal::{Goal, holds};
use cdb_rules::Runs;
use cdb_setup::Setup;
use std::alloc::Global;

/// The commands without the one at a position, from 0.
fn without_one(alloc: Global, commands: &[Command], i: usize) -> Result<Vec<Command>, NoMemory>
    requires { i < length commands.now }
    ensures { IfOk result (λ fewer. fewer.items ≡ without commands.now (i + 1)) }
{
    let mut fewer = Vec::from_slice(alloc, &commands[..i])?;
    fewer.extend_from_slice(&commands[i + 1..])?;
    Ok(fewer)
}

/// Whether the goal holds of the run that the commands leave.
pub(crate) fn holds_after<T: Runs>(
    alloc: Global,
    setup: &Setup,
    goal: Goal,
    commands: &[Command],
) -> Result<bool, NoMemory>
    requires { length commands.now ≤ MAX_ENTRIES }
    ensures { IfOk result (λ held. IsTrue held ↔ HoldsAfter (T.rules setup.now) setup.now goal commands.now) }
{
    let control = control_after::<T>(alloc, setup.copy(alloc)?, commands)?;
    let held = holds(control.run(), goal);
    control.close();
    Ok(held)
}

/// One pass over the commands, from the last to the first: each without which the goal still holds is left out.
fn pass<T: Runs>(
    alloc: Global,
    setup: &Setup,
    goal: Goal,
    commands: &[Command],
) -> Result<Vec<Command>, NoMemory>
    requires few { length commands.now ≤ MAX_ENTRIES }
    requires holds { HoldsAfter (T.rules setup.now) setup.now goal commands.now }
    ensures { IfOk result (λ lines. IsPassed (T.rules setup.now) setup.now goal commands.now lines.items) }
{
    let mut lines = Vec::from_slice(alloc, commands)?;
    for i in (0..commands.len()).rev() {
        let fewer = without_one(alloc, lines.as_slice(), i)?;
        if holds_after::<T>(alloc, setup, goal, fewer.as_slice())? {
            lines = fewer;
        }
    }
    Ok(lines)
}

/// Some of the commands, of which none can be left out: passes over what is left, until one leaves out nothing.
pub(crate) fn shrunk<T: Runs>(
    alloc: Global,
    setup: &Setup,
    goal: Goal,
    commands: &[Command],
) -> Result<Vec<Command>, NoMemory>
    requires few { length commands.now ≤ MAX_ENTRIES }
    requires holds { HoldsAfter (T.rules setup.now) setup.now goal commands.now }
    ensures { IfOk result (λ lines. IsShrunk (T.rules setup.now) setup.now goal commands.now lines.items) }
{
    let mut lines = Vec::from_slice(alloc, commands)?;
    for _ in 0..commands.len() + 1 {
        let fewer = pass::<T>(alloc, setup, goal, lines.as_slice())?;
        if fewer.len() == lines.len() {
            return Ok(fewer);
        }
        lines = fewer;
    }
    unreachable!()
}
