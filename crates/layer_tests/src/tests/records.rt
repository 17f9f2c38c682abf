//! The calls of records that no run makes.

use super::dependence::{copy, step};
use cdb_base::{Cell, Event, Kind, NoMemory, Proc, Reg, StepId, StepName, Val};
use cdb_standing::{Recorded, Records, UndoData};
use std::alloc::Global;
use std::process::Abort;

const CELL: Cell = Cell {
    lre: 4,
    lrww: 2,
    val: None,
};

/// Adds an event where the records may have it: a step with a number and a cell that it left.
fn add(records: &mut Records<u32>, event: Event, number: u32) -> Result<(), NoMemory> {
    if !records.history().may_come(&event) {
        return Ok(());
    }
    match event {
        Event::Step { p, k, kind } => {
            let left = UndoData {
                back: Some(number),
                overwritten: Some(CELL),
            };
            records.push(p, k, kind, left)
        }
        Event::Lost(copy) => records.push_loss(copy),
    }
}

/// Adds the start of a run in which the first message of process 1 is lost for process 2, and received by 1 and 3. Each
/// step leaves its position.
fn add_example(records: &mut Records<u32>) -> Result<(), NoMemory> {
    let (one, two, three) = (Proc::new(1), Proc::new(2), Proc::new(3));
    let events = [
        step(one, 1, Kind::Query(one)),
        step(one, 2, Kind::Send(1)),
        Event::Lost(copy(one, 1, two)),
        step(two, 1, Kind::Query(one)),
        step(one, 3, Kind::Recv(one, 1)),
        step(three, 1, Kind::Recv(one, 1)),
        step(two, 2, Kind::Local),
    ];
    for (i, event) in events.iter().enumerate() {
        add(records, *event, i as u32 + 1)?;
    }
    Ok(())
}

/// Compares how many events have one as a direct cause.
fn compare_counts(rt: &impl Abort, alloc: Global, records: &Records<u32>) {
    let (one, two, three) = (Proc::new(1), Proc::new(2), Proc::new(3));
    let counts = [
        (one, 1, 1),
        (one, 2, 3),
        (one, 3, 0),
        (two, 1, 1),
        (three, 2, 0),
    ];
    for (p, k, count) in counts {
        let name = StepId::Step(StepName { p, k });
        assert_eq!(rt; records.count_of(alloc, name).expect(rt, "memory"), count);
    }
    let lost = StepId::Lost(copy(one, 1, two));
    assert_eq!(rt; records.count_of(alloc, lost).expect(rt, "memory"), 0);
}

/// Whether this event was taken out, with its number and the cell where it is a step.
fn is_taken(taken: Option<Recorded<u32>>, event: Event, number: Option<u32>) -> bool {
    // Names the types inside a recorded event, which the check finds in no other part of the function.
    let _parts: (Option<Reg>, Option<Val>) = (None, None);
    let Some(taken) = taken else {
        return false;
    };
    let cell = if number.is_some() { Some(CELL) } else { None };
    taken.event == event && taken.back == number && taken.overwritten == cell
}

/// Takes out what no event depends on.
fn take_out(rt: &impl Abort, records: &mut Records<u32>) {
    let one = Proc::new(1);
    let receive = step(one, 3, Kind::Recv(one, 1));
    assert!(rt; is_taken(records.take_last_of(one), receive, Some(5)));
    // The send is needed by the loss and by the other receive.
    assert!(rt; records.take_last_of(one).is_none());
    let two = Proc::new(2);
    let loss = Event::Lost(copy(one, 1, two));
    assert!(rt; is_taken(records.take_lost(copy(one, 1, two)), loss, None));
    assert!(rt; records.take_lost(copy(one, 1, two)).is_none());
    assert!(rt; records.take_last_of(Proc::new(4)).is_none());
}

#[test]
fn records_are_counted_and_taken_out(rt: HostRuntime) {
    let mut records = Records::new(rt.alloc()).expect(&rt, "memory");
    assert!(rt; add_example(&mut records).is_ok());
    compare_counts(&rt, rt.alloc(), &records);
    take_out(&rt, &mut records);
    assert_eq!(rt; records.history().len(), 5);
}

/// More steps than two pieces of a stack hold.
const MANY: u16 = 300;

#[test]
fn many_steps_of_a_process_are_taken_out(rt: HostRuntime) {
    let one = Proc::new(1);
    let mut records = Records::new(rt.alloc()).expect(&rt, "memory");
    for k in 1..=MANY {
        let added = add(&mut records, step(one, k, Kind::Local), u32::from(k));
        assert!(rt; added.is_ok());
    }
    for k in (1..=MANY).rev() {
        let taken = records.take_last_of(one);
        assert!(rt; is_taken(taken, step(one, k, Kind::Local), Some(u32::from(k))));
    }
    assert!(rt; records.take_last_of(one).is_none());
}
