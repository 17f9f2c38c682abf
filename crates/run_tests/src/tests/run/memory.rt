//! Out of memory: a run is as it was, and returns the same when it is asked again. To see it, let each
//! allocation of these tests fail in turn.

use super::example::{Example, command_of};
use super::scripts::{TWELVE_STEPS, WITH_LOSSES};
use super::setups::{ALPHA_PAIR, LOSSY};
use cdb_base::Event;
use cdb_control::Command;
use cdb_rules::EventRef;
use std::process::Abort;

/// Two runs of one setup that look the same: one that is led, and one behind it, which shows how the first was.
struct Pair {
    run: Example,
    behind: Example,
}

impl Pair {
    /// Two runs in which nothing has happened.
    fn start<R: Abort + AllocGlobal>(rt: &R, setup: &str) -> Pair {
        Pair {
            run: Example::start(rt, setup),
            behind: Example::start(rt, setup),
        }
    }

    /// Gives both up.
    fn end(self) {
        let Pair { run, behind } = self;
        run.end();
        behind.end();
    }

    /// Whether both show the same.
    fn is_alike<R: Abort + AllocGlobal>(&self, rt: &R) -> bool {
        self.run.looks_as(rt, &self.behind)
    }
}

/// Gives a command, and returns the number of the refusal, 0 where it is granted; or nothing where an allocation
/// failed.
fn give_once<R: Abort + AllocGlobal>(rt: &R, run: &mut Example, command: &Command) -> Option<u8> {
    match run.give(rt, command) {
        Ok(Ok(_)) => Some(0),
        Ok(Err(refusal)) => Some(refusal.number()),
        Err(_) => None,
    }
}

/// The same, and once more where an allocation failed.
fn give_at_last<R: Abort + AllocGlobal>(rt: &R, run: &mut Example, command: &Command) -> u8 {
    match give_once(rt, run, command) {
        Some(number) => number,
        None => give_once(rt, run, command).expect(rt, "an answer"),
    }
}

/// Gives a command to the run that is led. Where an allocation failed it looks like the one behind it, and is asked
/// again.
fn lead<R: Abort + AllocGlobal>(rt: &R, pair: &mut Pair, command: &Command) -> u8 {
    if let Some(number) = give_once(rt, &mut pair.run, command) {
        return number;
    }
    assert!(rt; pair.is_alike(rt));
    give_at_last(rt, &mut pair.run, command)
}

/// Gives a command to both runs, which return the same.
fn give<R: Abort + AllocGlobal>(rt: &R, pair: &mut Pair, command: &Command) {
    let number = lead(rt, pair, command);
    assert_eq!(rt; number, give_at_last(rt, &mut pair.behind, command));
}

/// Two runs that were given the commands of a script.
fn led<R: Abort + AllocGlobal>(rt: &R, setup: &str, script: &str) -> Pair {
    let mut pair = Pair::start(rt, setup);
    for line in script.lines() {
        give(rt, &mut pair, &command_of(rt, line));
        assert!(rt; pair.is_alike(rt));
    }
    pair
}

/// Takes an event again, and returns whether there was memory.
fn take<R: Abort + AllocGlobal>(rt: &R, run: &mut Example, event: &Event) -> bool {
    run.again(rt, event).is_ok()
}

/// Takes an event again, and once more where an allocation failed.
fn take_at_last<R: Abort + AllocGlobal>(rt: &R, run: &mut Example, event: &Event) {
    if !take(rt, run, event) {
        assert!(rt; take(rt, run, event));
    }
}

/// Takes an event again in both runs.
fn take_again<R: Abort + AllocGlobal>(rt: &R, pair: &mut Pair, event: &Event) {
    if !take(rt, &mut pair.run, event) {
        assert!(rt; pair.is_alike(rt));
        take_at_last(rt, &mut pair.run, event);
    }
    take_at_last(rt, &mut pair.behind, event);
    assert!(rt; pair.is_alike(rt));
}

/// Two runs in which the events were taken again.
fn taken_again<R: Abort + AllocGlobal>(rt: &R, setup: &str, events: &[Event]) -> Pair {
    let mut pair = Pair::start(rt, setup);
    for event in events {
        take_again(rt, &mut pair, event);
    }
    pair
}

/// Rolls a step back, adds what is removed to a list, and returns whether there was memory.
fn roll_back_once<R: Abort + AllocGlobal>(
    rt: &R,
    run: &mut Example,
    p: u32,
    k: u32,
    undone: &mut Vec<Event>,
) -> bool {
    run.roll_back(rt, EventRef::Step(p, k), undone).is_ok()
}

/// Rolls a step back in the run that is led. Where an allocation failed run and list are as before, and it is asked
/// again.
fn roll_back<R: Abort + AllocGlobal>(
    rt: &R,
    pair: &mut Pair,
    p: u32,
    k: u32,
    undone: &mut Vec<Event>,
) {
    let before = undone.len();
    if !roll_back_once(rt, &mut pair.run, p, k, undone) {
        assert_eq!(rt; undone.len(), before);
        assert!(rt; pair.is_alike(rt));
        assert!(rt; roll_back_once(rt, &mut pair.run, p, k, undone));
    }
    assert!(rt; undone.len() > before);
}

/// Takes the events of a list again, the last first.
fn redo<R: Abort + AllocGlobal>(rt: &R, run: &mut Example, undone: &[Event]) {
    for i in (0..undone.len()).rev() {
        take_at_last(rt, run, &undone[i]);
    }
}

/// Rolls the last step of process 1 back, and then all that needs its first, onto one list, and takes them again.
fn roll_back_and_redo<R: Abort + AllocGlobal>(rt: &R, pair: &mut Pair, last: u32) {
    let mut undone = Vec::new(rt.alloc());
    roll_back(rt, pair, 1, last, &mut undone);
    assert!(rt; pair.behind.undo(EventRef::Step(1, last)).is_ok());
    roll_back(rt, pair, 1, 1, &mut undone);
    redo(rt, &mut pair.run, undone.as_slice());
}

/// Makes each call that takes memory on runs of a setup: of a script of steps and losses, after which this many events
/// stand, the last of process 1 its step `last`.
fn check<R: Abort + AllocGlobal>(rt: &R, setup: &str, script: &str, standing: usize, last: u32) {
    let mut pair = led(rt, setup, script);
    let events = pair.run.events(rt);
    assert_eq!(rt; events.len(), standing);
    let again = taken_again(rt, setup, events.as_slice());
    assert!(rt; again.run.looks_as(rt, &pair.run));
    roll_back_and_redo(rt, &mut pair, last);
    assert!(rt; pair.run.is_same(rt, &again.run));
    pair.end();
    again.end();
}

#[test]
fn calls_about_messages_are_made_again(rt: HostRuntime) {
    check(&rt, LOSSY, WITH_LOSSES, 9, 4);
}

#[test]
fn calls_about_registers_are_made_again(rt: HostRuntime) {
    check(&rt, ALPHA_PAIR, TWELVE_STEPS, 12, 12);
}
