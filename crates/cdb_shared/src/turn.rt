//! The two steps on the turn.
ghost use Rattle.std.specs.Prelude.{◌≡◌};
ghost use Rattle.crossbeam_queue.specs.Passes.{view, IsPassOf, IsSamePass, ruled_capacity};
ghost use Rattle.cdb_shared.specs.Turn.{TurnTaken, TurnGiven, MayGive};

use crate::knowledge::{Gives, Knowledge, OneControl, Stage, Takes};
use cdb_control::Control;
use cdb_rules::Runs;
use crossbeam_queue::{Pass, RuledArrayQueue};
use std::sync::Wait;
use std::thread;

/// The queue with room for one control, which is the turn.
pub type Turn<T> = RuledArrayQueue<Control<T>, Knowledge, OneControl>;

/// What a thread shows to take the turn.
pub type TurnPass<T> = Pass<Control<T>, Knowledge>;

/// Takes the turn, and tries again until it has it.
pub fn take<T: Runs, R: Wait>(rt: &R, turn: &Turn<T>, pass: &mut TurnPass<T>) -> Control<T>
    requires queue { IsPassOf turn.now pass.old }
    requires rests { (view pass.old).stage ≡ Stage.Resting }
    ensures queue { IsSamePass pass.old pass.new }
    ensures taken { TurnTaken (view pass.old) result (view pass.new) }
{
    for _ in rt.forever() {
        if let Some(control) = turn.try_pop_as::<Takes>(pass) {
            return control;
        }
        thread::yield_now();
    }
    unreachable!()
}

/// Gives the turn back; the first pass gives the control that is handed in.
pub fn give<T: Runs, R: Wait>(rt: &R, turn: &Turn<T>, pass: &mut TurnPass<T>, control: Control<T>)
    requires queue { IsPassOf turn.now pass.old × (ruled_capacity turn.now ≡ 1) }
    requires control { MayGive (view pass.old) control }
    ensures queue { IsSamePass pass.old pass.new }
    ensures given { TurnGiven (view pass.old) control (view pass.new) }
{
    let _ = turn.push_as::<Gives, R>(rt, pass, control);
}
