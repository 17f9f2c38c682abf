//! From where the value of each step of a run came.

ghost use Rattle.std.specs.Prelude.{◌≡◌, ◌+◌, ◌<◌, length, take, IfOk, IfSome, MatchOption};
ghost use Rattle.cdb_agreement.specs.Algorithms.{rules};
ghost use Rattle.cdb_rules.specs.ByRules.{IsInOrder};
ghost use Rattle.cdb_rules.specs.Runs.{IsInOrder as is_in_order, machine_in, with_history};
ghost use Rattle.cdb_trail.specs.Origins.{AreOrigins, IsOrigin, IsOriginIn};
ghost use Rattle.cdb_trail.specs.Played.{AreFirstFlows, IsLastSetter, SetNone};
ghost use Rattle.cdb_trail.specs.Trails.{EachValueHasATrail};

use crate::flow::{Flow, Spot};
use crate::flowing::Flowing;
use crate::played::{play_on, taken_by};
use crate::walk::{process_of, sets};
use cdb_alpha::Alpha;
use cdb_base::{NoMemory, Proc};
use cdb_leader::Leader;
use cdb_rules::Trace;
use cdb_run::Run;
use cdb_setup::Algorithm;
use std::alloc::Global;

/// From where the value of a step came.
#[derive(Clone, Copy)]
pub enum Origin {
    /// The step at that position, from 1, which is before it on its trail.
    Step(usize),
    /// The input of that process, with which its trail begins.
    Input(Proc),
}

/// The last of the flows that sets the spot, counted from 0.
fn last_setter<P: Flowing>(flows: &[Flow<P::Slot>], spot: &Spot<P::Slot>) -> Option<usize>
    ensures last { MatchOption result (SetNone flows.now spot.now) (IsLastSetter flows.now spot.now) }
    ensures within { IfSome result (λ i. i < length flows.now) }
{
    for i in (0..flows.len()).rev() {
        if sets::<P>(&flows[i], spot) {
            return Some(i);
        }
    }
    None
}

/// From where the value came of the event that stands behind those of these flows, where the run stands so before it.
fn origin_behind<P: Flowing>(
    run: &Trace,
    before: &Run<P>,
    flows: &[Flow<P::Slot>],
) -> Option<Origin>
    requires valid { is_in_order P.table run.now }
    requires within { length flows.now < length run.now.history }
    requires before { before.now ≡ with_history run.now (take (length flows.now) run.now.history) }
    requires flows { AreFirstFlows P.table P.flows run.now flows.now }
    requires has_trails { EachValueHasATrail (machine_in P.table run.now) P.flows run.now.setup.inputs }
    ensures { IsOrigin (machine_in P.table run.now) P.flows run.now.history (length flows.now + 1) result }
{
    let Some((from, _)) = taken_by(run, before, flows.len()) else {
        return None;
    };
    match last_setter::<P>(flows, &from) {
        Some(i) => Some(Origin::Step(i + 1)),
        None => Some(Origin::Input(process_of(&from))),
    }
}

/// From where the value of each event of a run of that machine came.
fn origins_by<P: Flowing>(alloc: Global, run: &Trace) -> Result<Vec<Option<Origin>>, NoMemory>
    requires valid { is_in_order P.table run.now }
    requires has_trails { EachValueHasATrail (machine_in P.table run.now) P.flows run.now.setup.inputs }
    ensures { IfOk result (λ origins. AreOrigins run.now.history
        (IsOrigin (machine_in P.table run.now) P.flows run.now.history) origins.items) }
{
    let mut again = Run::start(alloc, run.setup().copy(alloc)?)?;
    let mut flows = Vec::new(alloc);
    let mut origins = Vec::new(alloc);
    for i in 0..run.events().len() {
        origins.push(origin_behind::<P>(run, &again, flows.as_slice()))?;
        play_on(alloc, run, i, &mut again, &mut flows)?;
    }
    Ok(origins)
}

/// From where the value of each event of a run came, in order; none where an event takes no value. It plays the run
/// again once, and for each event goes back to where its value was set. `NoMemory` if an allocation fails.
///
/// Promise: Each event that takes a value has the step before it on its trail, or the process whose input it takes
/// where its trail begins with it; each other has none. So followed back from a step they give its trail.
#[tactic(auto, using(crate::proofs::Promised::leader_values, crate::proofs::Promised::alpha_values))]
pub fn origins_of(alloc: Global, run: &Trace) -> Result<Vec<Option<Origin>>, NoMemory>
    requires { IsInOrder rules run.now }
    ensures { IfOk result (λ origins. AreOrigins run.now.history (IsOriginIn run.now) origins.items) }
{
    match run.setup().algorithm() {
        Algorithm::Leader => origins_by::<Leader>(alloc, run),
        Algorithm::Alpha => origins_by::<Alpha>(alloc, run),
    }
}
