//! The walk back from a step along the trail of its value.

ghost use Rattle.std.specs.Prelude.{◌≡◌, ℕ, ◌+◌, ◌<◌, List, Contains, Some, length, IfOk, IsTrue, ◌↔◌};
ghost use Rattle.cdb_trail.specs.Flow.{slot};
ghost use Rattle.cdb_trail.specs.Played.{AreFirstFlows, TakesFrom, IsTrailTo};
ghost use Rattle.cdb_trail.specs.Trailed.{FlagsTrail};

use crate::flow::{Flow, Spot};
use crate::flowing::Flowing;
use cdb_base::{NoMemory, Proc};
use cdb_rules::Trace;
use std::alloc::Global;

/// Whether the two are one spot.
fn is_one_spot<P: Flowing>(spot: &Spot<P::Slot>, other: &Spot<P::Slot>) -> bool
    ensures { IsTrue result ↔ (spot.now ≡ other.now) }
{
    match (spot, other) {
        (Spot::Slot(p, x), Spot::Slot(q, y)) => *p == *q && P::is_one_slot(x, y),
        (Spot::Message(s, m), Spot::Message(o, k)) => *s == *o && *m == *k,
        (Spot::Register(r), Spot::Register(o)) => *r == *o,
        _ => false,
    }
}

/// Whether that spot was found.
fn is_it<P: Flowing>(found: &Option<Spot<P::Slot>>, spot: &Spot<P::Slot>) -> bool
    ensures { IsTrue result ↔ (found.now ≡ Some spot.now) }
{
    match found {
        Some(it) => is_one_spot::<P>(it, spot),
        None => false,
    }
}

/// The process of which the spot is a slot.
pub(crate) fn process_of<S: Copy + Drop>(spot: &Spot<S>) -> Proc
    requires { (q : ℕ) × (x : S) × (spot.now ≡ slot q x) }
    ensures { (q : ℕ) (x : S) → spot.now ≡ slot q x → result ≡ q }
{
    match *spot {
        Spot::Slot(p, _) => p,
        Spot::Message(_, _) => unreachable!(),
        Spot::Register(_) => unreachable!(),
    }
}

/// Whether a step of that flow sets the spot.
pub(crate) fn sets<P: Flowing>(flow: &Flow<P::Slot>, spot: &Spot<P::Slot>) -> bool
    ensures { IsTrue result ↔ Contains flow.now.sets spot.now }
{
    let (first, second) = flow.spots_set();
    is_it::<P>(&first, spot) || is_it::<P>(&second, spot)
}

/// Flags the trail to the step that comes after the events of these flows and takes its value from that spot, and
/// returns the process at whose input the trail begins.
pub(crate) fn walk_back<P: Flowing>(
    alloc: Global,
    run: &Trace,
    flows: &[Flow<P::Slot>],
    from: Spot<P::Slot>,
) -> Result<(Proc, Vec<bool>), NoMemory>
    requires flows { AreFirstFlows P.table P.flows run.now flows.now }
    requires within { length flows.now < length run.now.history }
    requires takes { TakesFrom P.table P.flows run.now (length flows.now + 1) from }
    requires has_trail { (q : ℕ) × (trail : List ℕ) × IsTrailTo P.table P.flows run.now q (length flows.now + 1) trail }
    ensures { IfOk result (λ found. (trail : List ℕ)
        × IsTrailTo P.table P.flows run.now found.0 (length flows.now + 1) trail
        × FlagsTrail (length run.now.history) trail found.1.items) }
{
    let mut flags = Vec::from_elem(alloc, false, run.events().len())?;
    flags[flows.len()] = true;
    let mut wanted = from;
    for i in (0..flows.len()).rev() {
        let flow = &flows[i];
        if sets::<P>(flow, &wanted) {
            flags[i] = true;
            match flow.takes() {
                Some(spot) => wanted = spot,
                None => unreachable!(),
            }
        }
    }
    Ok((process_of(&wanted), flags))
}
