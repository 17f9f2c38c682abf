//! Undos and refusals ask for no memory. To see it, let each request fail from the end of the first of these tests on.

use super::example::{Example, after, command_of};
use super::setups::LOSSY;
use cdb_rules::EventRef;
use std::process::Abort;

const BEGINNING: &str = "auto 1
auto 1
lose 1 1 2
auto 1
auto 2";

/// Commands that are refused after the beginning.
const REFUSED: &str = "step 3 go
step 1 go
auto 1
auto 3
step 1 recv 1 1
step 2 recv 1 1
step 2 recv 2 1
lose 1 1 1
lose 1 1 2
lose 2 1 1
undo 1 2
undo 2 2
undo lost 1 1 1";

const UNDONE: &str = "undo lost 1 1 2
undo 2 1
undo 1 3
undo 1 2
undo 1 1";

/// Gives each command of a script, and each is refused, or none.
fn give_each<R: Abort + AllocGlobal>(rt: &R, run: &mut Example, script: &str, is_refused: bool) {
    for line in script.lines() {
        let answer = run.give(rt, &command_of(rt, line)).expect(rt, "an answer");
        assert_eq!(rt; answer.is_err(), is_refused, "{line}");
    }
}

/// Asks for the rollback of a step that does not stand.
fn find_no_step<R: Abort + AllocGlobal>(rt: &R, run: &mut Example) {
    let mut undone = Vec::new(rt.alloc());
    let answer = run.roll_back(rt, EventRef::Step(1, 9), &mut undone);
    assert!(rt; answer.expect(rt, "an answer").is_err());
}

#[test]
fn a_run_begins(rt: HostRuntime) {
    after(&rt, LOSSY, BEGINNING).end();
}

#[test]
fn undos_and_refusals_take_no_memory(rt: HostRuntime) {
    let mut run = after(&rt, LOSSY, BEGINNING);
    give_each(&rt, &mut run, REFUSED, true);
    find_no_step(&rt, &mut run);
    give_each(&rt, &mut run, UNDONE, false);
    run.end();
}
