//! The run of an example. A contract sees nothing of it, so that what a test proves does not grow with what the run
//! holds.

ghost use Rattle.std.specs.Prelude.{◌≡◌, IsTrue};

use cdb_any_run::AnyRun;
use cdb_base::{Event, MsgName, NoMemory, Proc, Refusal, Reg};
use cdb_control::Command;
use cdb_rules::{EventRef, Runs};
use cdb_setup::{Setup, SetupFault};
use cdb_text::parse_line;
use std::alloc::Global;
use std::marker::Model;
use std::process::Abort;

/// Whether two setups are equal.
fn is_equal(setup: &Setup, other: &Setup) -> bool
    ensures { IsTrue result → setup.now ≡ other.now }
{
    setup.eq(other)
}

/// The setup of a text.
pub fn read(alloc: Global, setup: &str) -> Result<Setup, SetupFault> {
    Setup::read(alloc, setup.as_bytes())
}

/// The run of a setup in which nothing has happened, or none where an allocation failed.
fn run_of(alloc: Global, setup: &str) -> Option<AnyRun> {
    let setup = read(alloc, setup).ok()?;
    AnyRun::start(alloc, setup).ok()
}

/// The least copy that process `p` can still receive.
fn next_copy(run: &AnyRun, p: u32) -> Option<MsgName> {
    run.pending(run.process(p)?, None)
}

/// Whether process `p` and its register show the same in both runs.
fn is_as_far(one: &AnyRun, other: &AnyRun, p: u32) -> bool {
    one.view(p) == other.view(p) && next_copy(one, p) == next_copy(other, p)
}

/// Whether the register shows the same in both runs.
fn is_same_register(one: &AnyRun, other: &AnyRun, register: Reg) -> bool {
    let (again, once_more, last) = (register, register, register);
    one.cell(register) == other.cell(again) && one.writes(once_more) == other.writes(last)
}

/// The standing events, at the second try where an allocation failed.
pub fn events_of<R: Abort + AllocGlobal>(rt: &R, run: &AnyRun) -> Vec<Event> {
    match run.events(rt.alloc()) {
        Ok(events) => events,
        Err(_) => run.events(rt.alloc()).expect(rt, "the events"),
    }
}

/// Whether the same events stand in both, in the same order.
pub fn has_same_events<R: Abort + AllocGlobal>(rt: &R, one: &AnyRun, other: &AnyRun) -> bool {
    events_of(rt, one).as_slice() == events_of(rt, other).as_slice()
}

/// The run of an example.
pub struct Example {
    run: AnyRun,
}

impl Model for Example {
    ghost use Rattle.std.specs.Prelude.{⊤};

    ghost Value = { ⊤ };

    ghost view = { λ _. tt };
}

impl Example {
    /// The run of a setup in which nothing has happened, at the second try where an allocation failed.
    pub fn start<R: Abort + AllocGlobal>(rt: &R, setup: &str) -> Example {
        if let Some(run) = run_of(rt.alloc(), setup) {
            return Example { run };
        }
        let run = run_of(rt.alloc(), setup).expect(rt, "a run");
        Example { run }
    }

    /// Takes a step, loses a copy or undoes an event, as a command says.
    pub fn give<R: Abort + AllocGlobal>(
        &mut self,
        rt: &R,
        command: &Command,
    ) -> Result<Result<Event, Refusal>, NoMemory> {
        match *command {
            Command::Step(p, act) => self.run.step(rt.alloc(), p, act),
            Command::Auto(p) => {
                if self.run.process(p).is_none() {
                    return Ok(Err(Refusal::NoProcess));
                }
                self.run.step_first(rt.alloc(), p)
            }
            Command::Lose(s, m, p) => self.run.lose(rt.alloc(), s, m, p),
            Command::Undo(p, k) => Ok(self.run.undo(p, k)),
            Command::UndoLost(s, m, p) => Ok(self.run.undo_lost(s, m, p)),
            _ => panic!(rt; "a step, a loss or an undo"),
        }
    }

    /// Gives the run up: its setup and its history are dropped here. The proof of what drops a run itself goes through
    /// all its parts.
    pub fn end(self) {
        let Example { run } = self;
        run.into_parts();
    }

    /// Undoes an event.
    pub fn undo(&mut self, event: EventRef) -> Result<Event, Refusal> {
        self.run.undo_event(event)
    }

    /// Takes an event again, which has to be one that a run of the setup can have.
    pub fn again<R: Abort + AllocGlobal>(
        &mut self,
        rt: &R,
        event: &Event,
    ) -> Result<Result<Event, Refusal>, NoMemory> {
        assert!(rt; self.run.is_of_run(event));
        self.run.again(rt.alloc(), event)
    }

    /// Rolls an event back, and adds what is undone to a list.
    pub fn roll_back<R: Abort + AllocGlobal>(
        &mut self,
        rt: &R,
        event: EventRef,
        undone: &mut Vec<Event>,
    ) -> Result<Result<u32, Refusal>, NoMemory> {
        assert!(rt; self.run.history().len() <= 999_999);
        Runs::rollback(&mut self.run, rt.alloc(), event, undone)
    }

    /// The standing events.
    pub fn events<R: Abort + AllocGlobal>(&self, rt: &R) -> Vec<Event> {
        events_of(rt, &self.run)
    }

    /// How many writes of the register stand, where the run has it.
    pub fn writes(&self, register: Reg) -> Option<u32> {
        self.run.writes(register)
    }

    /// Whether two runs of one setup are in the same state.
    pub fn is_same<R: Abort>(&self, rt: &R, other: &Example) -> bool {
        assert!(rt; is_equal(self.run.setup(), other.run.setup()));
        self.run.same_run(&other.run)
    }

    /// Whether both show the same of all processes and registers.
    pub fn stands_as(&self, other: &Example) -> bool {
        for p in &Proc::all() {
            if !is_as_far(&self.run, &other.run, u32::from(p.number())) {
                return false;
            }
            if !is_same_register(&self.run, &other.run, Reg::R(*p)) {
                return false;
            }
        }
        is_same_register(&self.run, &other.run, Reg::Dec)
    }

    /// Whether both show the same of all processes and registers, and of what has happened.
    pub fn looks_as<R: Abort + AllocGlobal>(&self, rt: &R, other: &Example) -> bool {
        self.stands_as(other) && has_same_events(rt, &self.run, &other.run)
    }
}

/// The command of a line.
pub fn command_of<R: Abort>(rt: &R, line: &str) -> Command {
    parse_line(line.as_bytes()).ok().expect(rt, "a command")
}

/// Gives each command of a script, none of which is refused.
fn give_all<R: Abort + AllocGlobal>(rt: &R, run: &mut Example, script: &str) {
    for line in script.lines() {
        let answer = run.give(rt, &command_of(rt, line)).expect(rt, "an answer");
        assert!(rt; answer.is_ok(), "{line}");
    }
}

/// The run of a setup after a script.
pub fn after<R: Abort + AllocGlobal>(rt: &R, setup: &str, script: &str) -> Example {
    let mut run = Example::start(rt, setup);
    give_all(rt, &mut run, script);
    run
}
