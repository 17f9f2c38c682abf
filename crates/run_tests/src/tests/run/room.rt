//! Room: what goes back needs no memory where its seat has room.

use super::session::{Session, text_of};
use super::setups::{ALONE, LOSSY};
use cdb_base::Event;
use cdb_control::Reply;
use std::process::Abort;

/// The seat of a line, the rooms that are made before it, the line, its reply, and the rooms after it.
type Row = (u8, [u32; 2], &'static str, &'static str, [u32; 2]);

/// Rooms are made of nothing, where the seat has less, and not where it has more. Each command takes of both, and a
/// rollback of its own seat's as many as it takes back.
const OF_BOTH_SEATS: [Row; 20] = [
    (1, [0, 0], "auto 1", "1.1 query 1\n", [0, 0]),
    (1, [0, 0], "auto 1", "1.2 send 1#1\n", [0, 0]),
    (1, [0, 0], "auto 1", "1.3 recv 1#1\n", [0, 0]),
    (1, [0, 0], "auto 1", "1.4 local\n", [0, 0]),
    (1, [0, 0], "auto 1", "1.5 send 1#2\n", [0, 0]),
    (1, [0, 0], "auto 1", "1.6 recv 1#2\n", [0, 0]),
    (1, [0, 0], "auto 1", "1.7 local\n", [0, 0]),
    (1, [0, 0], "auto 1", "1.8 send 1#3 decides 7\n", [0, 0]),
    (1, [3, 0], "undo 1 8", "undone 1.8 send 1#3\n", [2, 0]),
    (1, [0, 0], "undo 1 2", "refused 11 NeededBy 1.3\n", [1, 0]),
    (1, [0, 0], "undo 1 7", "undone 1.7 local\n", [0, 0]),
    (1, [0, 0], "redo", "redone 1.7 local\n", [0, 0]),
    (1, [0, 0], "redo", "redone 1.8 send 1#3 decides 7\n", [0, 0]),
    (2, [5, 1], "undo 1 8", "undone 1.8 send 1#3\n", [4, 0]),
    (2, [0, 0], "undo 1 9", "refused 10 NoStep\n", [3, 0]),
    (1, [2, 7], "redo", "refused 14 NothingToRedo\n", [2, 6]),
    (2, [0, 0], "redo", "redone 1.8 send 1#3 decides 7\n", [1, 5]),
    (1, [9, 9], "rollback 1 2", "rolled back 7\n", [2, 8]),
    (1, [0, 0], "redo", "redone 1.2 send 1#1\n", [1, 7]),
    (1, [0, 0], "rollback 1 1", "rolled back 2\n", [0, 6]),
];

const OF_ALL_THAT_GOES_BACK: [Row; 9] = [
    (1, [0, 0], "auto 1", "1.1 query 1\n", [0, 0]),
    (1, [0, 0], "auto 1", "1.2 send 1#1\n", [0, 0]),
    (1, [0, 0], "lose 1 1 2", "lost 1#1 to 2\n", [0, 0]),
    (1, [0, 0], "break round 2 1", "break 1\n", [0, 0]),
    (1, [0, 0], "step 2 query", "2.1 query 1 break 1\n", [0, 0]),
    (
        1,
        [4, 0],
        "undo lost 1 1 2",
        "undone lost 1#1 to 2\n",
        [3, 0],
    ),
    (1, [0, 0], "unbreak 1", "unbreak 1\n", [2, 0]),
    (1, [0, 0], "resume", "resumed\n", [1, 0]),
    (1, [0, 0], "forget", "forgot 1\n", [0, 0]),
];

/// Makes room for this many commands of a seat, at the second try where an allocation failed, which has changed no
/// room.
fn make_room<R: Abort + AllocGlobal>(rt: &R, session: &mut Session, seat: u8, count: u32) {
    let before = session.rooms(rt);
    if session.reserve(rt, seat, count).is_err() {
        assert_eq!(rt; session.rooms(rt), before);
        assert!(rt; session.reserve(rt, seat, count).is_ok());
    }
}

/// Makes the rooms of a row, gives its line, and compares the reply and the rooms after it.
fn check_row<R: Abort + AllocGlobal>(rt: &R, session: &mut Session, row: &Row) {
    let (seat, made, line, text, rooms) = *row;
    make_room(rt, session, 1, made[0]);
    make_room(rt, session, 2, made[1]);
    let reply = session.give(rt, seat, line);
    assert!(rt; text_of(rt, reply).as_slice() == text.as_bytes(), "{text}");
    assert_eq!(rt; session.rooms(rt), rooms, "{text}");
}

fn check<R: Abort + AllocGlobal>(rt: &R, setup: &str, rows: &[Row]) {
    let mut session = Session::open(rt, setup);
    for row in rows {
        check_row(rt, &mut session, row);
    }
    session.end();
}

#[test]
fn rooms_are_made_and_taken(rt: HostRuntime) {
    check(&rt, ALONE, &OF_BOTH_SEATS);
    check(&rt, LOSSY, &OF_ALL_THAT_GOES_BACK);
}

/// A session that has decided, with room for three commands.
fn with_room<R: Abort + AllocGlobal>(rt: &R) -> Session {
    let mut session = Session::open(rt, ALONE);
    session.repeat(rt, 8, "auto 1");
    make_room(rt, &mut session, 1, 3);
    session
}

/// The beginning of the next test, from whose end on each request is refused there.
#[test]
fn room_is_made(rt: HostRuntime) {
    with_room(&rt).end();
}

/// The number of the step that was undone by a reply, 0 if none was.
fn undone_by(reply: &Reply) -> u16 {
    match reply {
        Reply::Undone(Event::Step { k, .. }) => *k,
        _ => 0,
    }
}

/// Gives an undo, at the first try, and returns the number of the step, 0 where it is refused, and the room that is
/// left.
fn undo<R: Abort + AllocGlobal>(rt: &R, session: &mut Session, line: &str) -> (u16, u32) {
    let reply = session.try_line(rt, 1, line).expect(rt, line);
    let step = undone_by(&reply);
    reply.close();
    (step, session.rooms(rt)[0])
}

#[test]
fn three_undos_without_memory(rt: HostRuntime) {
    let mut session = with_room(&rt);
    assert_eq!(&rt; undo(&rt, &mut session, "undo 1 8"), (8, 2));
    assert_eq!(&rt; undo(&rt, &mut session, "undo 1 2"), (0, 1));
    assert_eq!(&rt; undo(&rt, &mut session, "undo 1 7"), (7, 0));
    session.end();
}
