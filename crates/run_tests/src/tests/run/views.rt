//! What a control shows beside its replies, and its longest journal.

use super::session::Session;
use super::setups::{ALONE, LOSSY};
use cdb_control::{Act, CallFault};
use std::process::Abort;

#[test]
fn what_auto_would_do_is_picked(rt: HostRuntime) {
    let session = Session::open(&rt, LOSSY);
    assert!(rt; session.control.pick(1) == Some(Act::Query(None)));
    assert!(rt; session.control.pick(3) == None);
    session.end();
}

/// Gives a line to a session whose journal is full.
fn is_full<R: Abort + AllocGlobal>(rt: &R, session: &mut Session, line: &str) -> bool {
    match session.try_line(rt, 1, line) {
        Ok(reply) => {
            reply.close();
            false
        }
        Err(fault) => fault == CallFault::JournalFull,
    }
}

#[test]
fn a_full_journal_takes_no_more(rt: HostRuntime) {
    let mut session = Session::open(&rt, ALONE);
    session.repeat(&rt, 999_999, "forget");
    assert!(&rt; is_full(&rt, &mut session, "forget"));
    assert!(&rt; is_full(&rt, &mut session, "auto 1"));
    assert_eq!(&rt; session.lengths(), (999_999, 0));
    session.end();
}
