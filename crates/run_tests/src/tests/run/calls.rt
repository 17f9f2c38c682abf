//! Calls that no command makes, each once where it succeeds.

ghost use Rattle.std.specs.Prelude.{◌≤◌};

use super::example::{after, read};
use super::scripts::{RACE, TWELVE_STEPS};
use super::setups::{ALPHA_PAIR, LOSSY};
use cdb_agreement::{agreement, laws};
use cdb_any_run::{AnyRun, Runs};
use cdb_base::{Act, CopyName, MsgName, Proc, Reg, StepId, StepName};
use cdb_leader::{Back, Leader};
use std::process::Abort;

/// Takes a step of process 1.
fn step<R: Abort + AllocGlobal>(rt: &R, run: &mut AnyRun, act: Act) {
    assert!(rt; matches!(run.step(rt.alloc(), 1, act), Ok(Ok(_))));
}

/// A run in which process 1 has asked and sent, and its copy for process 2 is lost.
fn begun<R: Abort + AllocGlobal>(rt: &R) -> AnyRun {
    let setup = read(rt.alloc(), LOSSY).ok().expect(rt, "a setup");
    let mut run = AnyRun::start(rt.alloc(), setup).expect(rt, "a run");
    step(rt, &mut run, Act::Query(None));
    step(rt, &mut run, Act::Go);
    assert!(rt; matches!(run.lose(rt.alloc(), 1, 1, 2), Ok(Ok(_))));
    run
}

/// Gives a run up.
fn end(run: AnyRun) {
    run.into_parts();
}

/// The copy of the first message of process 1 for a process from 1 to 9.
fn first_copy_for(receiver: u8) -> CopyName
    requires from_one { 1 ≤ receiver }
    requires to_nine { receiver ≤ 9 }
{
    let msg = MsgName {
        s: Proc::new(1),
        m: 1,
    };
    CopyName {
        msg,
        to: Proc::new(receiver),
    }
}

#[test]
fn events_are_undone_by_plain_numbers(rt: HostRuntime) {
    let mut run = begun(&rt);
    assert!(&rt; run.undo_lost(1, 1, 2).is_ok());
    assert!(&rt; run.undo(1, 2).is_ok());
    assert_eq!(&rt; run.history().len(), 1);
    end(run);
}

#[test]
fn events_are_rolled_back_by_plain_numbers(rt: HostRuntime) {
    let mut run = begun(&rt);
    assert!(&rt; matches!(run.rollback_lost(rt.alloc(), 1, 1, 2), Ok(Ok(_))));
    assert_eq!(&rt; run.history().len(), 2);
    assert!(&rt; matches!(run.rollback(rt.alloc(), 1, 1), Ok(Ok(_))));
    assert_eq!(&rt; run.history().len(), 0);
    end(run);
}

#[test]
fn causes_and_lost_copies_are_found_by_plain_numbers(rt: HostRuntime) {
    let run = begun(&rt);
    let causes = run.causes(rt.alloc(), 1, 2).ok().expect(&rt, "causes");
    let query = StepName {
        p: Proc::new(1),
        k: 1,
    };
    assert!(&rt; causes.as_slice() == [StepId::Step(query)].as_slice());
    assert!(&rt; !run.lost(first_copy_for(1)) && run.lost(first_copy_for(2)));
    end(run);
}

/// How many writes stand of the registers of processes 1 to 3 and of the decision's, after a script of two processes of
/// Alpha.
fn writes_after<R: Abort + AllocGlobal>(rt: &R, script: &str) -> [Option<u32>; 4] {
    let run = after(rt, ALPHA_PAIR, script);
    let found = [
        run.writes(Reg::R(Proc::new(1))),
        run.writes(Reg::R(Proc::new(2))),
        run.writes(Reg::R(Proc::new(3))),
        run.writes(Reg::Dec),
    ];
    run.end();
    found
}

#[test]
fn writes_that_stand_are_counted(rt: HostRuntime) {
    let found = writes_after(&rt, TWELVE_STEPS);
    assert!(&rt; found == [Some(2), Some(0), None, Some(1)]);
    let found = writes_after(&rt, RACE);
    assert!(&rt; found == [Some(2), Some(2), None, Some(1)]);
}

#[test]
fn laws_can_be_called() {
    laws::independent_events_commute::<Leader>();
    laws::exchange::<Leader>();
    laws::exchanged_histories::<Leader>();
    laws::undo::<Leader>();
    laws::granted_undo::<Leader>();
    laws::rollback::<Leader>();
    laws::granted_rollback::<Leader>();
    laws::step_then_undo();
    laws::names::<Leader>();
    laws::numbers::<Leader>();
    laws::valid_histories_stand::<Leader>();
    laws::losses::<Leader>();
    laws::same_state_exchanged::<Leader>();
    laws::own_events::<Leader>();
    laws::rules_keep_histories();
    cdb_run::laws::undo_with_records::<Leader, Back>();
    agreement::leader_decisions_agree();
    agreement::alpha_decisions_agree();
    agreement::shown_decisions_agree();
    agreement::leader_decisions_are_proposed();
    agreement::alpha_decisions_are_proposed();
    agreement::shown_decisions_are_proposed();
    agreement::worked_runs();
    agreement::leader_rounds();
    agreement::alpha_rounds();
}
