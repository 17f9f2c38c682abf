//! The trail of a value to a step of a run.

ghost use Rattle.std.specs.Prelude.{◌≤◌, length, IfOk};
ghost use Rattle.cdb_agreement.specs.Algorithms.{rules};
ghost use Rattle.cdb_rules.specs.ByRules.{IsInOrder};
ghost use Rattle.cdb_rules.specs.Runs.{IsInOrder as is_in_order, machine_in};
ghost use Rattle.cdb_trail.specs.Trailed.{IsTrailFound, IsTrailIn};
ghost use Rattle.cdb_trail.specs.Trails.{EachValueHasATrail, TrailsAreUnique};

use crate::flowing::Flowing;
use crate::played::{play_before, taken_by};
use crate::walk::walk_back;
use cdb_alpha::Alpha;
use cdb_base::{NoMemory, Proc, Val};
use cdb_leader::Leader;
use cdb_rules::Trace;
use cdb_setup::Algorithm;
use std::alloc::Global;

/// The trail of a value: whose input the value was, and a flag for each event of the run, set where the event is on the
/// trail.
#[derive(Drop)]
pub struct Trail {
    pub proposer: Proc,
    pub value: Val,
    pub flags: Vec<bool>,
}

/// The trail to the step at a position, from 1, of a run of that machine; none where the step takes no value.
fn trail_by<P: Flowing>(
    alloc: Global,
    run: &Trace,
    position: usize,
) -> Result<Option<Trail>, NoMemory>
    requires valid { is_in_order P.table run.now }
    requires from_one { 1 ≤ position }
    requires to_len { position ≤ length run.now.history }
    requires has_trails { EachValueHasATrail (machine_in P.table run.now) P.flows run.now.setup.inputs }
    requires no_others { TrailsAreUnique (machine_in P.table run.now) P.flows run.now.setup.inputs }
    ensures { IfOk result (IsTrailFound (machine_in P.table run.now) P.flows run.now position) }
{
    let (before, flows) = play_before::<P>(alloc, run, position - 1)?;
    let flows = flows.as_slice();
    match taken_by(run, &before, flows.len()) {
        Some((from, value)) => {
            let (proposer, flags) = walk_back::<P>(alloc, run, flows, from)?;
            Ok(Some(Trail {
                proposer,
                value,
                flags,
            }))
        }
        None => Ok(None),
    }
}

/// The trail along which a value came to the step at a position, from 1; none where the step takes no value. It plays
/// the run again up to the step, and goes back from there once. `NoMemory` if an allocation fails.
pub fn trail_of(alloc: Global, run: &Trace, position: usize) -> Result<Option<Trail>, NoMemory>
    requires valid { IsInOrder rules run.now }
    requires from_one { 1 ≤ position }
    requires to_len { position ≤ length run.now.history }
    ensures { IfOk result (IsTrailIn run.now position) }
{
    match run.setup().algorithm() {
        Algorithm::Leader => trail_by::<Leader>(alloc, run, position),
        Algorithm::Alpha => trail_by::<Alpha>(alloc, run, position),
    }
}
