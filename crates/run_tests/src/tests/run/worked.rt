//! Out of memory: each command of a worked example changes nothing where an allocation fails, and has its usual reply
//! when it is given again. To see it, let each allocation of this test fail in turn, with the example in a file.

use super::session::{Session, text_of};
use cdb_control::Reply;
use cdb_streams::{Input, read_up_to};
use std::alloc::Global;
use std::fs::File;
use std::process::Abort;
use std::str;

/// Where the example stands: its setup on the first line, and then its commands.
const FILE: &str = "worked.txt";

/// The example where there is no such file.
const DEFAULT: &str = r#"{"algorithm":"leader","processes":1,"quorum":1,"inputs":[7],"oracle":[[1]]}
auto 1
auto 1
undo 1 2
break decide 1
redo
why 1 2
"#;

/// All that a session shows, and then what takes its redo list and its breakpoints apart.
const ALL: &str = "show 1
show 2
show 3
show regs
show mail
show history
decisions
redo
redo
redo
redo
redo
redo
redo
redo
redo
unbreak 1
unbreak 2
unbreak 3
unbreak 4
unbreak 5
unbreak 6
unbreak 7
unbreak 8
unbreak 9
resume
show history";

/// What the file has, if it can be read.
fn read_once(rt: &HostRuntime) -> Option<Vec<u8>> {
    let file = File::open(rt, FILE).ok()?;
    read_up_to(rt.alloc(), &mut Input::new(file), 1_000_000).ok()
}

/// The example where there is no such file.
fn default_once(alloc: Global) -> Option<Vec<u8>> {
    Vec::from_slice(alloc, DEFAULT.as_bytes()).ok()
}

/// The example, each part at the second try where an allocation failed.
fn read(rt: &HostRuntime) -> Option<Vec<u8>> {
    for _ in 0..2 {
        if let Some(text) = read_once(rt) {
            return Some(text);
        }
    }
    match default_once(rt.alloc()) {
        Some(text) => Some(text),
        None => default_once(rt.alloc()),
    }
}

/// Compares a reply with that of the other session, which is given the line too.
fn compare<R: Abort + AllocGlobal>(rt: &R, reply: Reply, other: &mut Session, line: &str) {
    let text = text_of(rt, reply);
    let reply = other.give(rt, 1, line);
    assert!(rt; text_of(rt, reply).as_slice() == text.as_slice(), "{line}");
}

/// Compares all that both sessions show, their redo lists and their breakpoints.
fn compare_all<R: Abort + AllocGlobal>(rt: &R, session: &mut Session, other: &mut Session) {
    assert!(rt; session.shows_same(rt, other));
    for line in ALL.lines() {
        let reply = session.give(rt, 1, line);
        compare(rt, reply, other, line);
    }
    assert!(rt; session.shows_same(rt, other));
}

/// Gives a line to a session. Where an allocation fails all of it is as in the other, and it is given the line again.
fn lead<R: Abort + AllocGlobal>(
    rt: &R,
    session: &mut Session,
    other: &mut Session,
    line: &str,
) -> Reply {
    match session.try_line(rt, 1, line) {
        Ok(reply) => reply,
        Err(_) => {
            compare_all(rt, session, other);
            session.give(rt, 1, line)
        }
    }
}

/// Gives each line to two sessions of a setup, one always a line behind the other.
fn check<R: Abort + AllocGlobal>(rt: &R, setup: &str, script: &str) {
    let mut ahead = Session::open(rt, setup);
    let mut behind = Session::open(rt, setup);
    for line in script.lines() {
        let reply = lead(rt, &mut ahead, &mut behind, line);
        compare(rt, reply, &mut behind, line);
    }
    compare_all(rt, &mut ahead, &mut behind);
    ahead.end();
    behind.end();
}

#[test]
fn a_worked_example_without_memory(rt: HostRuntime) {
    let text = read(&rt).expect(&rt, "an example");
    let text = str::from_utf8(text.as_slice()).ok().expect(&rt, "a text");
    let (setup, script) = text.split_once('\n').expect(&rt, "a setup");
    check(&rt, setup, script);
}
