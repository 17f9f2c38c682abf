//! Histories in which events are undone and redone again and again, compared with a plain list.

use super::causal_twins::{add_to_both, compare_lists, gone_with, take_from_both};
use super::draws::draw;
use cdb_base::{Event, NoMemory, StepId};
use cdb_standing::History;
use std::alloc::Global;
use std::process::Abort;

/// Adds events until there are as many.
fn fill(
    rt: &impl Abort,
    history: &mut History,
    events: &mut Vec<Event>,
    count: usize,
    seed: &mut u64,
) {
    for _ in 0..1000 {
        if events.len() < count {
            add_to_both(rt, history, events, seed);
        }
    }
    assert!(rt; events.len() == count);
}

/// The index of an event of the list.
fn index_of(events: &[Event], name: StepId) -> Option<usize> {
    for (i, event) in events.iter().enumerate() {
        if event.name() == name {
            return Some(i);
        }
    }
    None
}

/// Undoes the event of that name with its consequences, the last first, and redoes them in order.
fn undo_and_redo(
    rt: &impl Abort,
    alloc: Global,
    history: &mut History,
    events: &mut Vec<Event>,
    name: StepId,
) {
    let i = index_of(events, name).expect(rt, "it stands");
    let gone = gone_with(alloc, events, i).expect(rt, "memory");
    for event in gone.iter().rev() {
        let i = index_of(events, event.name()).expect(rt, "it stands");
        assert!(rt; take_from_both(rt, alloc, history, events, i));
    }
    compare_lists(rt, alloc, history, events);
    for event in gone.iter() {
        assert!(rt; history.may_come(event));
        if history.may_come(event) {
            assert!(rt; history.push(*event).is_ok());
            assert!(rt; events.push(*event).is_ok());
        }
    }
    compare_lists(rt, alloc, history, events);
}

/// The names of the events, in order.
fn names_of(alloc: Global, events: &[Event]) -> Result<Vec<StepId>, NoMemory> {
    let mut names = Vec::new(alloc);
    for event in events {
        names.push(event.name())?;
    }
    Ok(names)
}

#[test]
fn each_event_is_undone_and_redone_many_times(rt: HostRuntime) {
    let alloc = rt.alloc();
    let mut seed = 7;
    let mut history = History::new(alloc).expect(&rt, "memory");
    let mut events = Vec::new(alloc);
    fill(&rt, &mut history, &mut events, 40, &mut seed);
    for _ in 0..8 {
        let names = names_of(alloc, &events).expect(&rt, "memory");
        for name in names {
            undo_and_redo(&rt, alloc, &mut history, &mut events, name);
        }
    }
    assert!(&rt; events.len() == 40);
}

#[test]
fn a_long_history_is_a_plain_list(rt: HostRuntime) {
    let alloc = rt.alloc();
    let mut seed = 1;
    let mut history = History::new(alloc).expect(&rt, "memory");
    let mut events = Vec::new(alloc);
    fill(&rt, &mut history, &mut events, 200, &mut seed);
    let mut taken: usize = 0;
    for _ in 0..1500 {
        let count = events.len();
        if count < 150 || draw(&mut seed, 2) == 0 {
            add_to_both(&rt, &mut history, &mut events, &mut seed);
        } else {
            // Mostly one of the last, since few others are free.
            let i = count - 1 - draw(&mut seed, 12) as usize;
            if take_from_both(&rt, alloc, &mut history, &mut events, i) {
                taken = taken.saturating_add(1);
            }
        }
    }
    compare_lists(&rt, alloc, &history, &events);
    assert!(&rt; taken > 200);
}
