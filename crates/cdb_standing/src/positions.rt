//! Events by their positions, from 1, for whoever embeds the library: a run names its events. These calls list the
//! whole history in order, which takes memory.

ghost use Rattle.std.specs.Prelude.{◌≡◌, ℕ, ◌≤◌, List, length, map, IfOk, OnOk, OnErr, MatchOption, Some};
ghost use Rattle.cdb_base.specs.Event.{event_name};
ghost use Rattle.cdb_base.specs.declared.event.Event.{Event as AnEvent};
ghost use Rattle.cdb_base.specs.Positions.{nth};
ghost use Rattle.cdb_causal.specs.Causality.{IsFree};
ghost use Rattle.cdb_causal.specs.Dependence.{depends as depends_of};
ghost use Rattle.cdb_causal.specs.DirectCauses.{AreDirectCauses};
ghost use Rattle.cdb_causal.specs.DirectDependents.{CountsDirectDependents};
ghost use Rattle.cdb_causal.specs.Names.{IsNamedAt, IsNewName, IsPositionOf, IsFirstDependentOrFree};
ghost use Rattle.cdb_causal.specs.Laws.{AreConsequences};
ghost use Rattle.cdb_causal.specs.Rollback.{without};
ghost use Rattle.cdb_standing.specs.Moves.{IsFreeAlone};

use crate::history::History;
use cdb_base::{Event, Kind, NoMemory, Reg, StepId};
use cdb_causal::is_direct_cause;
use smallvec::SmallVec;
use std::alloc::Global;

/// The position of an event of that name in a list.
fn place_of(events: &[Event], name: StepId) -> Option<usize>
    ensures { MatchOption result (IsNewName events.now name) (λ at. IsNamedAt events.now at name) }
{
    for (i, event) in events.iter().enumerate() {
        if event.name() == name {
            return Some(i + 1);
        }
    }
    None
}

/// How many events of a list depend directly on the one at a position, from 1.
pub(crate) fn count_direct(events: &[Event], at: usize) -> usize
    requires { 1 ≤ at }
    ensures { CountsDirectDependents depends_of events.now at result }
{
    let mut count = 0;
    for i in 0..events.len() {
        if is_direct_cause(events, at, i + 1) {
            count += 1;
        }
    }
    count
}

impl History {
    /// The event at a position, from 1 to the number of events.
    pub fn get(&self, alloc: Global, at: usize) -> Result<Event, NoMemory>
        requires from_one { 1 ≤ at }
        requires to_len { at ≤ length self.now }
        ensures { IfOk result (λ event. nth self.now at ≡ Some event) }
    {
        Ok(self.to_vec(alloc)?[at - 1])
    }

    /// The position of the event of that name, if one stands.
    pub fn position(&self, alloc: Global, name: StepId) -> Result<Option<usize>, NoMemory>
        ensures { IfOk result (λ found. MatchOption found (IsNewName self.now name) (IsPositionOf self.now name)) }
    {
        match self.find(name) {
            Some(_) => Ok(place_of(&self.to_vec(alloc)?, name)),
            None => Ok(None),
        }
    }

    /// Takes the event at a position out, from 1 to the number of events, on which nothing depends. The others keep
    /// their order. Without memory nothing is taken out.
    pub fn remove(&mut self, alloc: Global, at: usize) -> Result<Event, NoMemory>
        requires from_one { 1 ≤ at }
        requires to_len { at ≤ length self.old }
        requires free { IsFree depends_of self.old at }
        ensures event { IfOk result (λ event. nth self.old at ≡ Some event) }
        ensures rest { OnOk result (self.new ≡ without self.old at) }
        ensures err { OnErr result (self.new ≡ self.old) }
    {
        let event = self.get(alloc, at)?;
        self.take(&event);
        Ok(event)
    }

    /// Takes an event out on which nothing depends.
    fn take(&mut self, event: &Event)
        requires { IsFreeAlone self.old (event_name event.now) }
        ensures { (at : ℕ) → IsNamedAt self.old at (event_name event.now) →
            self.new ≡ without self.old at }
    {
        match event {
            Event::Step { p, k, .. } => {
                let _kind = self.take_step(*p, *k);
            }
            Event::Lost(copy) => self.take_loss(*copy),
        }
    }
}

/// The name of the event at a position, from 1 to the number of events.
fn name_at(alloc: Global, history: &History, at: usize) -> Result<StepId, NoMemory>
    requires from_one { 1 ≤ at }
    requires to_len { at ≤ length history.now }
    ensures { IfOk result (λ name. IsNamedAt history.now at name) }
{
    // Names each type inside an event, which the checker finds in no other part of the function.
    let _parts: (Option<Kind>, Option<Reg>) = (None, None);
    Ok(history.get(alloc, at)?.name())
}

/// The name of the first event that depends on the one at a position, from 1 to the number of events. None says that
/// none does.
pub fn first_dependent(
    alloc: Global,
    history: &History,
    at: usize,
) -> Result<Option<StepId>, NoMemory>
    requires from_one { 1 ≤ at }
    requires to_len { at ≤ length history.now }
    ensures { IfOk result (λ found. IsFirstDependentOrFree history.now at found) }
{
    let name = name_at(alloc, history, at)?;
    Ok(history.first_dependent(name))
}

/// The names of the consequences of the event at a position, from 1 to the number of events, in order: of the least set
/// of later events each of which depends on that event or on one of them.
pub fn consequences(alloc: Global, history: &History, at: usize) -> Result<Vec<StepId>, NoMemory>
    requires from_one { 1 ≤ at }
    requires to_len { at ≤ length history.now }
    ensures { IfOk result (λ names. (events : List AnEvent)
        × AreConsequences depends_of history.now at events
        × (names.items ≡ map event_name events)) }
{
    let name = name_at(alloc, history, at)?;
    let rolled_back = history.rolled_back(alloc, name)?;
    let mut names = Vec::new(alloc);
    for i in 1..rolled_back.len() {
        names.push(rolled_back[i].name())?;
    }
    Ok(names)
}

/// The names of the direct causes of the event at a position, from 1 to the number of events.
pub fn direct_causes(
    alloc: Global,
    history: &History,
    at: usize,
) -> Result<SmallVec<StepId, 9>, NoMemory>
    requires from_one { 1 ≤ at }
    requires to_len { at ≤ length history.now }
    ensures { IfOk result (λ names. AreDirectCauses history.now at names.items) }
{
    let name = name_at(alloc, history, at)?;
    Ok(history.direct_causes(alloc, name))
}
