//! The plain, slow program of each definition, over a list of events, compared with a history on many small ones.

use super::draws::{draw, draw_event, may_come};
use cdb_base::{Event, NoMemory, Proc, StepId};
use cdb_causal::depends;
use cdb_standing::{History, consequences, direct_causes, first_dependent};
use std::alloc::Global;
use std::process::Abort;

/// Whether there are events at both indexes, the first before the second, and the second depends on the first.
pub fn is_linked(events: &[Event], i: usize, j: usize) -> bool {
    i < j && j < events.len() && depends(&events[i], &events[j])
}

/// Whether they are linked, and by no event between.
fn is_direct(events: &[Event], i: usize, j: usize) -> bool {
    for k in 0..events.len() {
        if is_linked(events, i, k) && is_linked(events, k, j) {
            return false;
        }
    }
    is_linked(events, i, j)
}

fn is_linked_to_one(events: &[Event], causes: &[usize], j: usize) -> bool {
    for i in causes {
        if is_linked(events, *i, j) {
            return true;
        }
    }
    false
}

/// The least set that has the index and each index linked to one that it has: it grows until nothing is left to add.
fn rolled_back(alloc: Global, events: &[Event], i: usize) -> Result<Vec<usize>, NoMemory> {
    let mut indexes = Vec::new(alloc);
    indexes.push(i)?;
    for _ in 0..events.len() {
        for j in (0..events.len()).rev() {
            if !indexes.contains(&j) && is_linked_to_one(events, &indexes, j) {
                indexes.push(j)?;
            }
        }
    }
    Ok(indexes)
}

/// The events that go with one when it is rolled back, in order, itself first.
pub fn gone_with(alloc: Global, events: &[Event], i: usize) -> Result<Vec<Event>, NoMemory> {
    let indexes = rolled_back(alloc, events, i)?;
    let mut gone = Vec::new(alloc);
    for j in 0..events.len() {
        if indexes.contains(&j) {
            gone.push(events[j])?;
        }
    }
    Ok(gone)
}

/// The name of the first event that is linked to one.
pub fn first_linked(events: &[Event], i: usize) -> Option<StepId> {
    for j in 0..events.len() {
        if is_linked(events, i, j) {
            return Some(events[j].name());
        }
    }
    None
}

/// Compares what depends on each event.
fn compare_effects(rt: &impl Abort, alloc: Global, history: &History, events: &[Event]) {
    for i in 0..history.len() {
        let first = first_dependent(alloc, history, i + 1).expect(rt, "memory");
        assert_eq!(rt; first, first_linked(events, i));
        let gone = gone_with(alloc, events, i).expect(rt, "memory");
        let found = consequences(alloc, history, i + 1).expect(rt, "memory");
        assert!(rt; found.len() + 1 == gone.len());
        for (name, event) in found.iter().zip(gone.iter().skip(1)) {
            assert!(rt; *name == event.name());
        }
    }
}

/// Adds the names of the direct causes of an event among the steps of a process.
fn add_direct_names(
    events: &[Event],
    j: usize,
    p: Proc,
    names: &mut Vec<StepId>,
) -> Result<(), NoMemory> {
    for i in 0..events.len() {
        if events[i].is_step_of(p) && is_direct(events, i, j) {
            names.push(events[i].name())?;
        }
    }
    Ok(())
}

/// The names of the direct causes of an event, by process: no loss is a cause of what may come behind it.
fn direct_names(alloc: Global, events: &[Event], j: usize) -> Result<Vec<StepId>, NoMemory> {
    let mut names = Vec::new(alloc);
    for p in Proc::all() {
        add_direct_names(events, j, p, &mut names)?;
    }
    Ok(names)
}

/// Compares each event, its position and what comes before it.
fn compare_causes(rt: &impl Abort, alloc: Global, history: &History, events: &[Event]) {
    for j in 0..history.len() {
        let event = history.get(alloc, j + 1).expect(rt, "memory");
        assert!(rt; j < events.len() && events[j] == event);
        let position = history.position(alloc, event.name()).expect(rt, "memory");
        assert!(rt; position == Some(j + 1));
        let names = direct_names(alloc, events, j).expect(rt, "memory");
        let found = direct_causes(alloc, history, j + 1).expect(rt, "memory");
        assert!(rt; found.as_slice() == names.as_slice());
    }
}

/// Adds an event that comes up to both, where both say that it may come.
pub fn add_to_both(
    rt: &impl Abort,
    history: &mut History,
    events: &mut Vec<Event>,
    seed: &mut u64,
) {
    let event = draw_event(events, seed);
    assert!(rt; history.may_come(&event) == may_come(events, &event));
    if history.may_come(&event) {
        assert!(rt; history.push(event).is_ok());
        assert!(rt; events.push(event).is_ok());
    }
}

/// Takes an event out of both, where nothing depends on it. Returns whether it did.
pub fn take_from_both(
    rt: &impl Abort,
    alloc: Global,
    history: &mut History,
    events: &mut Vec<Event>,
    i: usize,
) -> bool {
    assert!(rt; i < events.len() && events.len() == history.len());
    let first = first_dependent(alloc, history, i + 1).expect(rt, "memory");
    assert_eq!(rt; first, first_linked(events, i));
    match first {
        Some(_) => false,
        None => {
            let gone = history.remove(alloc, i + 1).expect(rt, "memory");
            assert!(rt; events.remove(i) == gone);
            assert!(rt; history.find(gone.name()).is_none());
            true
        }
    }
}

pub fn compare_lists(rt: &impl Abort, alloc: Global, history: &History, events: &[Event]) {
    assert!(rt; history.len() == events.len());
    let listed = history.to_vec(alloc).expect(rt, "memory");
    assert!(rt; listed.as_slice() == events);
}

/// Takes the first free event from an index on out of both: the last is free.
fn take_one(
    rt: &impl Abort,
    alloc: Global,
    history: &mut History,
    events: &mut Vec<Event>,
    first: usize,
) {
    for i in first..events.len() {
        if take_from_both(rt, alloc, history, events, i) {
            return;
        }
    }
}

/// Compares a history of at most 14 events with the plain programs, takes an event out, and so on until none is left.
/// Returns how many there were.
fn compare_and_take_out(rt: &impl Abort, alloc: Global, seed: &mut u64) -> usize {
    let mut history = History::new(alloc).expect(rt, "memory");
    let mut events = Vec::new(alloc);
    for _ in 0..draw(seed, 15) {
        add_to_both(rt, &mut history, &mut events, seed);
    }
    let count = events.len();
    for _ in 0..count {
        compare_effects(rt, alloc, &history, &events);
        compare_causes(rt, alloc, &history, &events);
        assert!(rt; events.len() > 0);
        let first = draw(seed, events.len() as u64) as usize;
        take_one(rt, alloc, &mut history, &mut events, first);
        compare_lists(rt, alloc, &history, &events);
    }
    assert!(rt; events.len() == 0);
    count
}

#[test]
fn the_same_as_the_plain_programs(rt: HostRuntime) {
    let mut seed = 1;
    let mut longest = 0;
    for _ in 0..300 {
        longest = longest.max(compare_and_take_out(&rt, rt.alloc(), &mut seed));
    }
    assert!(rt; longest > 8);
}
