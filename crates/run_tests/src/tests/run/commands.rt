//! Out of memory: a command whose allocation fails changes nothing, and has its usual reply when it is given again.
//! To see it, let each allocation of these tests fail in turn.

use super::session::{Session, text_of};
use super::setups::{ALONE, ALPHA_ALONE, ALPHA_PAIR, LOSSY, NO_MAJORITY};
use cdb_control::Reply;
use std::process::Abort;

const LOSSES: &str = "\
step 1 query
  1.1 query 1

step 1 go
  1.2 send 1#1

lose 1 1 2
  lost 1#1 to 2

step 2 recv 1 1
  refused 19 Lost

show mail
  to 1 1#1 p1 1 5 1

undo 1 2
  refused 11 NeededBy lost 1#1 to 2

why lost 1 1 2
  lost 1#1 to 2 because 1.2

auto 2
  2.1 query 1

undo lost 1 1 2
  undone lost 1#1 to 2

step 2 recv 1 1
  2.2 recv 1#1

redo
  refused 6 Taken

undo 2 2
  undone 2.2 recv 1#1

redo
  redone 2.2 recv 1#1

forget
  forgot 1

redo
  refused 14 NothingToRedo

why 2 2
  2.2 because 1.2 2.1";

const ROLLBACKS: &str = "\
step 1 query 1
  1.1 query 1

step 1 go
  1.2 send 1#1

lose 1 1 2
  lost 1#1 to 2

rollback lost 1 1 2
  rolled back 1

redo
  redone lost 1#1 to 2

rollback 1 1
  rolled back 3

show history
  no steps

redo
  redone 1.1 query 1

redo
  redone 1.2 send 1#1

redo
  redone lost 1#1 to 2

show history
  1.1 query 1
  1.2 send 1#1
  lost 1#1 to 2";

const BREAKPOINTS: &str = "\
break recv 1
  break 1

break round 1 1
  break 2

auto 1
  1.1 query 1 break 2

auto 1
  refused 13 Paused 2

resume
  resumed

unbreak 2
  unbreak 2

auto 1
  1.2 send 1#1

auto 1
  1.3 recv 1#1 break 1

unbreak 1
  unbreak 1

break decide 1
  break 3

resume
  resumed

auto 1
  1.4 local

auto 1
  1.5 send 1#2

auto 1
  1.6 recv 1#2

auto 1
  1.7 local

auto 1
  1.8 send 1#3 decides 7 break 3

undo 1 8
  undone 1.8 send 1#3

decisions
  decisions none

redo
  redone 1.8 send 1#3 decides 7

decisions
  decisions 1=7

show 1
  process 1 L6 round 1 alive steps 8 queries 1 decision 7

rollback 1 2
  rolled back 7

redo
  redone 1.2 send 1#1";

const REGISTERS: &str = "\
break write dec
  break 1

auto 1
  1.1 read dec

auto 1
  1.2 query 1

auto 1
  1.3 write r1

auto 1
  1.4 read r1

auto 1
  1.5 local

auto 1
  1.6 write r1

step 1 go
  1.7 read r1

step 1 go
  1.8 local

step 1 go
  1.9 write dec break 1

step 1 go
  1.10 read dec decides 7

show regs
  r1 lre 1 lrww 1 val 7
  dec 7

rollback 1 9
  rolled back 2

show regs
  r1 lre 1 lrww 1 val 7
  dec none

redo
  redone 1.9 write dec

redo
  redone 1.10 read dec decides 7";

const A_CRASH: &str = "\
auto 1
  1.1 query 1

auto 1
  1.2 send 1#1

auto 1
  1.3 recv 1#1

auto 1
  1.4 local

auto 1
  1.5 send 1#2

auto 1
  1.6 recv 1#2

auto 1
  1.7 local

auto 1
  1.8 send 1#3 decides 5

step 2 learn
  refused 4 NotNow

step 2 recv 1 3
  2.1 recv 1#3

step 2 learn
  2.2 learn

step 2 crash
  2.3 crash

step 2 go
  refused 2 Crashed

undo 2 3
  undone 2.3 crash

step 2 go
  2.3 send 2#1 decides 5";

/// Gives a line to a session. Where an allocation fails it shows what the other shows, and is given the line again.
fn lead<R: Abort + AllocGlobal>(
    rt: &R,
    session: &mut Session,
    other: &Session,
    line: &str,
) -> Reply {
    match session.try_line(rt, 1, line) {
        Ok(reply) => reply,
        Err(_) => {
            assert!(rt; session.shows_same(rt, other), "{line}");
            session.try_line(rt, 1, line).expect(rt, line)
        }
    }
}

/// Whether a text has these lines, of which each is two spaces in.
fn has_lines(text: &[u8], lines: &str) -> bool {
    let mut rest = text;
    for line in lines.lines() {
        let Some(line) = line.strip_prefix("  ") else {
            return false;
        };
        let Some(end) = rest.strip_prefix(line.as_bytes()) else {
            return false;
        };
        let Some(next) = end.strip_prefix(b"\n") else {
            return false;
        };
        rest = next;
    }
    rest.is_empty()
}

/// Gives a line to two sessions that show the same, and compares each reply with the lines below it.
fn give_to_both<R: Abort + AllocGlobal>(
    rt: &R,
    ahead: &mut Session,
    behind: &mut Session,
    row: &str,
) {
    let (line, lines) = row.split_once('\n').expect(rt, row);
    let reply = lead(rt, ahead, behind, line);
    assert!(rt; has_lines(text_of(rt, reply).as_slice(), lines), "{row}");
    let reply = behind.give(rt, 1, line);
    assert!(rt; has_lines(text_of(rt, reply).as_slice(), lines), "{row}");
    assert!(rt; ahead.shows_same(rt, behind), "{row}");
}

/// Gives each line to two sessions of a setup, one always a line behind the other.
fn check<R: Abort + AllocGlobal>(rt: &R, setup: &str, rows: &str) {
    let mut ahead = Session::open(rt, setup);
    let mut behind = Session::open(rt, setup);
    for row in rows.split("\n\n") {
        give_to_both(rt, &mut ahead, &mut behind, row);
    }
    ahead.end();
    behind.end();
}

#[test]
fn commands_without_memory(rt: HostRuntime) {
    check(&rt, LOSSY, LOSSES);
    check(&rt, LOSSY, ROLLBACKS);
    check(&rt, ALONE, BREAKPOINTS);
    check(&rt, ALPHA_ALONE, REGISTERS);
    check(&rt, NO_MAJORITY, A_CRASH);
}

/// A history of more events than one piece of a log has.
#[test]
fn many_steps_without_memory(rt: HostRuntime) {
    let mut session = Session::open(&rt, ALPHA_PAIR);
    for _ in 0..70 {
        session.repeat(&rt, 1, "step 1 go");
        session.repeat(&rt, 1, "step 1 query 2");
    }
    let reply = session.give(&rt, 1, "step 1 go");
    assert!(&rt; text_of(&rt, reply).as_slice() == b"1.141 read dec\n".as_slice());
    session.end();
}
