//! Events that stand in the other order in another history. The other one is gone through in its order, and of each
//! process it is known how many steps have come: the direct causes of the next event have to be among them.

ghost use Rattle.std.specs.Prelude.{◌≡◌, ◌↔◌, ℕ, ◌≤◌, suc, IsTrue, MatchOption, Some};
ghost use Rattle.cdb_base.specs.Event.{event_name};
ghost use Rattle.cdb_base.specs.Positions.{nth};
ghost use Rattle.cdb_causal.specs.Dependence.{depends as depends_of};
ghost use Rattle.cdb_causal.specs.Exchange.{KeepsOrder};
ghost use Rattle.cdb_same.specs.Come.{AreCounts, CausesHaveCome, HasCome, HaveCome};
ghost use Rattle.cdb_same.specs.Come.{IsCauseToCome, IsNotCome, StandWithin};
ghost use Rattle.cdb_same.specs.Comparisons.{AreNumberedUpTo, AreTurned, IsComparable};
ghost use Rattle.cdb_standing.specs.Moves.{IsStandingName};

use cdb_base::{Event, Proc, StepId};
use cdb_standing::History;
use std::alloc::Global;

/// Whether the event of that name has come: a step up to the count of its process. On a loss nothing depends, so none
/// is waited for.
fn has_come(counts: &[u16; 9], name: &StepId) -> bool
    ensures { IsTrue result ↔ HasCome counts.now name.now }
{
    match name {
        StepId::Step(step) => step.k <= counts[step.p.index()],
        StepId::Lost(_) => true,
    }
}

/// The first of the names whose event has not come.
fn first_not_come(counts: &[u16; 9], names: &[StepId]) -> Option<StepId>
    ensures { MatchOption result (HaveCome counts.now names.now) (IsNotCome counts.now names.now) }
{
    for name in names {
        if !has_come(counts, name) {
            return Some(*name);
        }
    }
    None
}

/// The first direct cause of a standing event that has not come.
fn cause_to_come(
    alloc: Global,
    history: &History,
    counts: &[u16; 9],
    event: &Event,
) -> Option<StepId>
    requires { IsStandingName history.now (event_name event.now) }
    ensures { (at : ℕ) → nth history.now at ≡ Some event.now →
        MatchOption result (CausesHaveCome history.now at counts.now)
        (IsCauseToCome history.now at counts.now) }
{
    let causes = history.direct_causes(alloc, event.name());
    first_not_come(counts, causes.as_slice())
}

/// The steps of each process are numbered in the order of the history. It does nothing: its contract is what is known.
pub fn numbered(history: &History)
    ensures { AreNumberedUpTo history.now 9 }
{
    for i in 0..9u8 {
        let _steps = history.steps_of(Proc::new(i + 1));
    }
}

/// Counts an event that comes next, where it is a step.
fn count(counts: &mut [u16; 9], history: &History, event: &Event)
    requires standing { IsComparable history.now }
    requires numbered { AreNumberedUpTo history.now 9 }
    ensures { (end : ℕ) → nth history.now (suc end) ≡ Some event.now →
        AreCounts history.now end counts.old → AreCounts history.now (suc end) counts.new }
{
    match event {
        Event::Step { p, k, .. } => counts[p.index()] = *k,
        Event::Lost(_) => {}
    }
}

/// Two events that depend on each other and stand in both histories, in this order in the first, and turned round in
/// the second: of those that come last the first in the second history.
pub(crate) fn other_order(
    alloc: Global,
    first: &History,
    second: &History,
    others: &[Event],
) -> Option<(Event, Event)>
    requires first { IsComparable first.now }
    requires second { IsComparable second.now }
    requires others { others.now ≡ second.now }
    requires within { StandWithin first.now second.now }
    requires back { StandWithin second.now first.now }
    ensures { MatchOption result (KeepsOrder depends_of first.now second.now)
        (λ pair. AreTurned first.now second.now pair.0 pair.1) }
{
    numbered(second);
    let mut counts = [0; 9];
    for event in others {
        if let Some(name) = cause_to_come(alloc, first, &counts, event) {
            return Some((first.find(name)?, *event));
        }
        count(&mut counts, second, event);
    }
    None
}
