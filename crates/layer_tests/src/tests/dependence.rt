//! Which events depend on each other.

use cdb_base::{CopyName, Event, Kind, MsgName, NoMemory, Proc, Reg};
use cdb_causal::depends;
use cdb_standing::History;
use std::process::Abort;

pub fn step(p: Proc, k: u16, kind: Kind) -> Event {
    Event::Step { p, k, kind }
}

pub fn copy(s: Proc, m: u16, to: Proc) -> CopyName {
    let msg = MsgName { s, m };
    CopyName { msg, to }
}

/// Compares whether two events depend on each other, either way.
fn compare(rt: &impl Abort, pairs: &[(&Event, &Event, bool)]) {
    for (event, other, does) in pairs {
        assert_eq!(rt; depends(event, other), *does);
        assert_eq!(rt; depends(other, event), *does);
    }
}

#[test]
fn what_depends_on_what(rt: HostRuntime) {
    let (one, two, three) = (Proc::new(1), Proc::new(2), Proc::new(3));
    let send = step(one, 2, Kind::Send(1));
    let crash = step(one, 3, Kind::Crash);
    let received = step(two, 1, Kind::Recv(one, 1));
    let by_another = step(three, 1, Kind::Recv(one, 1));
    let from_another = step(two, 1, Kind::Recv(three, 1));
    let next_received = step(two, 1, Kind::Recv(one, 2));
    let lost = Event::Lost(copy(one, 1, two));
    let lost_to_another = Event::Lost(copy(one, 1, three));
    let read = step(two, 1, Kind::Read(Reg::Dec));
    let read_too = step(three, 1, Kind::Read(Reg::Dec));
    let write = step(one, 9, Kind::Write(Reg::Dec));
    let write_too = step(two, 9, Kind::Write(Reg::Dec));
    let elsewhere = step(three, 1, Kind::Write(Reg::R(one)));
    let pairs = [
        // A message and its receives.
        (&send, &received, true),
        (&send, &by_another, true),
        (&received, &by_another, false),
        (&send, &from_another, false),
        (&send, &next_received, false),
        // Two steps of one process.
        (&send, &crash, true),
        (&crash, &received, false),
        // Two accesses of one register, of which one is a write.
        (&read, &write, true),
        (&write, &write_too, true),
        (&read, &read_too, false),
        (&write, &elsewhere, false),
        // A loss, its send and its receive.
        (&lost, &send, true),
        (&lost, &received, true),
        (&lost, &by_another, false),
        (&lost, &lost_to_another, false),
        (&lost, &crash, false),
    ];
    compare(&rt, &pairs);
}

/// Adds an event where the history may have it next.
pub fn add(history: &mut History, event: Event) -> Result<(), NoMemory> {
    if history.may_come(&event) {
        history.push(event)?;
    }
    Ok(())
}
