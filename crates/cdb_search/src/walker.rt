//! What a walk does next. No contract says what it prefers.

ghost use Rattle.std.specs.Prelude.{◌≤◌};

use crate::random::{below, one_in};
use cdb_base::{Act, CopyName, Event, Kind, MsgName, NoMemory, Proc};
use cdb_commands::Command;
use cdb_rules::Runs;
use cdb_setup::Setup;
use rand_core::Rng;
use std::alloc::Global;

/// Of so many copies that are taken one comes from the other half.
const ONE_FROM_AFAR: usize = 50;

/// Of so many copies that would be received one is lost, where copies can be.
const ONE_LOSS: usize = 30;

/// Of so many steps of processes one is a crash.
const ONE_CRASH: usize = 400;

/// Of so many further steps of processes one is what else there is.
const ONE_OTHERWISE: usize = 20;

/// Of so many queries one takes the answer of the setup.
const ONE_FROM_FILE: usize = 16;

/// Of so many further queries one asks for any process.
const ONE_OF_ANY: usize = 12;

/// How many processes are drawn to lead their halves, the last of each half to stay: so many that each half has most
/// likely one.
const DRAWS: u32 = 32;

/// One of the two halves of the processes.
#[derive(Clone, Copy, PartialEq, Eq)]
enum Half {
    First,
    Second,
}

/// What a walk prefers: two halves of the processes, of which one may be empty, between which few messages pass, and in
/// each a leader for which it mostly asks; and the copies that wait, as far as the walk has seen.
#[derive(Drop)]
pub(crate) struct Walker {
    processes: u8,
    loses_copies: bool,
    /// The half of each process, by its position.
    halves: [Half; 9],
    first_leader: Proc,
    second_leader: Proc,
    /// The copies of messages from the receiver's half, and those from the other.
    near: Vec<CopyName>,
    far: Vec<CopyName>,
    ghost in_range: { (1 ≤ processes) × (processes ≤ 9) },
}

/// Halves at random; every other time the first has all processes.
fn draw_halves<G: Rng>(random: &mut G) -> [Half; 9] {
    let mut halves = [Half::First; 9];
    if one_in(random, 2) {
        return halves;
    }
    for i in 0..9 {
        if one_in(random, 2) {
            halves[i] = Half::Second;
        }
    }
    halves
}

/// A copy at random, which is taken out of the list.
fn take_copy<G: Rng>(copies: &mut Vec<CopyName>, random: &mut G) -> Option<CopyName> {
    if copies.is_empty() {
        return None;
    }
    let i = below(random, copies.len());
    Some(copies.swap_remove(i))
}

/// Whether the process is alive and has not decided.
fn is_active<T: Runs>(run: &T, p: Proc) -> bool {
    match run.view(u32::from(p.number())) {
        Some(process) => process.alive && process.decision.is_none(),
        None => false,
    }
}

/// A process at random, of so many.
fn any_of<G: Rng>(processes: u8, random: &mut G) -> Proc
    requires { (1 ≤ processes) × (processes ≤ 9) }
{
    Proc::new(below(random, usize::from(processes)) as u8 + 1)
}

/// The command that receives the copy.
fn receive(copy: &CopyName) -> Command {
    let act = Act::Recv(u32::from(copy.msg.s.number()), u32::from(copy.msg.m));
    Command::Step(u32::from(copy.to.number()), act)
}

/// The command that loses the copy.
fn lose(copy: &CopyName) -> Command {
    let (s, m) = (u32::from(copy.msg.s.number()), u32::from(copy.msg.m));
    Command::Lose(s, m, u32::from(copy.to.number()))
}

impl Walker {
    /// A walker on a run of a setup in which nothing has happened.
    pub(crate) fn new<G: Rng>(alloc: Global, setup: &Setup, random: &mut G) -> Self {
        let processes = setup.n();
        let mut walker = Walker {
            processes,
            loses_copies: setup.version() == 2,
            halves: draw_halves(random),
            first_leader: any_of(processes, random),
            second_leader: any_of(processes, random),
            near: Vec::new(alloc),
            far: Vec::new(alloc),
        };
        for _ in 0..DRAWS {
            walker.name_leader(any_of(processes, random));
        }
        walker
    }

    /// The half of a process.
    fn half_of(&self, p: Proc) -> Half {
        self.halves[p.index()]
    }

    /// The process leads its half.
    fn name_leader(&mut self, p: Proc) {
        match self.half_of(p) {
            Half::First => self.first_leader = p,
            Half::Second => self.second_leader = p,
        }
    }

    /// The leader of the half of a process.
    fn leader_of(&self, p: Proc) -> Proc {
        match self.half_of(p) {
            Half::First => self.first_leader,
            Half::Second => self.second_leader,
        }
    }

    /// A process at random that is alive and has not decided; where there is none, one that is not so.
    fn active_process<T: Runs, G: Rng>(&self, run: &T, random: &mut G) -> Proc {
        let mut p = any_of(self.processes, random);
        for _ in 0..self.processes {
            if is_active(run, p) {
                break;
            }
            p = if p.number() < self.processes {
                Proc::new(p.number() + 1)
            } else {
                Proc::new(1)
            };
        }
        p
    }

    /// The leader that a query of a process asks for.
    fn answer<G: Rng>(&self, p: Proc, random: &mut G) -> Option<u32> {
        if one_in(random, ONE_FROM_FILE) {
            return None;
        }
        let leader = if one_in(random, ONE_OF_ANY) {
            any_of(self.processes, random)
        } else {
            self.leader_of(p)
        };
        Some(u32::from(leader.number()))
    }

    /// What comes of a copy that waits: mostly that it is received.
    fn next_of_copy<G: Rng>(&mut self, random: &mut G) -> Option<Command> {
        let copy = if one_in(random, ONE_FROM_AFAR) {
            take_copy(&mut self.far, random)?
        } else {
            take_copy(&mut self.near, random)?
        };
        if self.loses_copies && one_in(random, ONE_LOSS) {
            Some(lose(&copy))
        } else {
            Some(receive(&copy))
        }
    }

    /// What a process mostly does next of itself: the first of these that it can.
    fn usual_act<T: Runs, G: Rng>(&self, run: &T, p: Proc, random: &mut G) -> Act {
        let number = u32::from(p.number());
        if run.refuses(number, Act::Learn).is_none() {
            Act::Learn
        } else if run.refuses(number, Act::Go).is_none() {
            Act::Go
        } else {
            Act::Query(self.answer(p, random))
        }
    }

    /// What a process may do of itself, whatever it mostly does.
    fn any_act<G: Rng>(&self, p: Proc, random: &mut G) -> Act {
        match below(random, 3) {
            0 => Act::Learn,
            1 => Act::Go,
            _ => Act::Query(self.answer(p, random)),
        }
    }

    /// What a process does next of itself.
    fn next_of_process<T: Runs, G: Rng>(&self, run: &T, random: &mut G) -> Command {
        let p = self.active_process(run, random);
        let act = if one_in(random, ONE_CRASH) {
            Act::Crash
        } else if one_in(random, ONE_OTHERWISE) {
            self.any_act(p, random)
        } else {
            self.usual_act(run, p, random)
        };
        Command::Step(u32::from(p.number()), act)
    }

    /// What the walk tries next. It may be refused.
    pub(crate) fn next<T: Runs, G: Rng>(&mut self, run: &T, random: &mut G) -> Command {
        if !one_in(random, 3) {
            if let Some(command) = self.next_of_copy(random) {
                return command;
            }
        }
        self.next_of_process(run, random)
    }

    /// The copy of the `m`-th message of process `p` for process `to` waits.
    fn add_copy(&mut self, p: Proc, m: u16, to: Proc) -> Result<(), NoMemory> {
        let msg = MsgName { s: p, m };
        let added = if self.half_of(p) == self.half_of(to) {
            self.near.push(CopyName { msg, to })
        } else {
            self.far.push(CopyName { msg, to })
        };
        Ok(added?)
    }

    /// Sees an event: the copies of a message that is sent wait.
    pub(crate) fn see(&mut self, event: &Event) -> Result<(), NoMemory> {
        if let Event::Step {
            p,
            kind: Kind::Send(m),
            ..
        } = *event
        {
            for number in 1..=self.processes {
                self.add_copy(p, m, Proc::new(number))?;
            }
        }
        Ok(())
    }
}
