//! The control state: a run, the breakpoints, the pause and the redo lists.
ghost use Rattle.std.specs.Prelude.{◌≡◌, ◌+◌, ◌≤◌, [], true, Ok, IfOk, IfErr, OnOk, replicate, length, map};
ghost use Rattle.std.specs.Option.{option_or};
ghost use Rattle.cdb_base.specs.Limits.{MAX_ENTRIES};
ghost use Rattle.cdb_control.specs.Done.{came_out, asking_why, IsPerformed, IsPerformedForAny, NoneShrinks};
ghost use Rattle.cdb_control.specs.Auto.{choice};
ghost use Rattle.cdb_rules.specs.Auto.{first_act_of};
ghost use Rattle.cdb_control.specs.Commands.{decides, newly_fired, last_step, step_replied};
ghost use Rattle.cdb_control.specs.Headline.{undoing, rolling_back};
ghost use Rattle.cdb_rules.specs.EventRefs.{name_given};
ghost use Rattle.cdb_rules.specs.Step.{is_among};
ghost use Rattle.cdb_control.specs.AutoChoices.{IsFreeForAuto, IsRefusedForAuto};
ghost use Rattle.cdb_control.specs.Kept.{HasSeat, capacity_of, events_kept, AreOfRun};
ghost use Rattle.cdb_control.specs.State.{first_control_state, redo_of};
ghost use Rattle.cdb_rules.specs.Views.{round_of, decision_of};
ghost use Rattle.cdb_setup.specs.Parts.{AreInRange};

use crate::stops::{Breakpoints, TakenStep, names_none_of};
use cdb_base::limits::{MAX_BREAKPOINTS, MAX_STEPS};
use cdb_base::{Act, Event, Kind, NoMemory, Refusal, Reg, Val};
use cdb_commands::{Command, Reply, Stop, View};
use cdb_rules::{EventRef, Runs};
use cdb_setup::Setup;
use std::alloc::Global;
use std::marker::Model;

/// A run with what sessions do to it.
#[derive(Drop)]
pub struct ControlState<R: Runs> {
    run: R,
    breakpoints: Breakpoints,
    pause: Option<u32>,
    // For each seat the events that it undid and has not taken again, the last undone at the end.
    redo: Vec<Vec<Event>>,
}

impl<R: Runs> Model for ControlState<R> {
    ghost use Rattle.std.specs.Prelude.{map, vec_capacity};
    ghost use Rattle.cdb_control.specs.Room.{StoredState};

    ghost Value = { StoredState };

    ghost view = { λ t. record {
      state = record {
        setup = (R.run t.run).setup;
        history = (R.run t.run).history;
        stops = t.breakpoints.stops;
        next = t.breakpoints.next;
        pause = t.pause;
        redo = map (λ list. list.items) t.redo.items;
      };
      capacities = map (λ list. vec_capacity list) t.redo.items;
    } };
}

/// An empty redo list for each seat.
fn empty_lists(alloc: Global, seats: u8) -> Result<Vec<Vec<Event>>, NoMemory>
    ensures { IfOk result (λ lists. map (λ list. list.items) lists.items ≡ replicate seats []) }
{
    let mut lists = Vec::new(alloc);
    for _ in 0..seats {
        lists.push(Vec::new(alloc))?;
    }
    Ok(lists)
}

/// A command that is refused. It is a call, so that what is seldom refused makes no reply beforehand.
#[inline(never)]
fn refused(refusal: Refusal) -> Result<Reply, NoMemory>
    ensures { result ≡ Ok (Reply.Refused refusal) }
{
    Ok(Reply::Refused(refusal))
}

/// The first act of those that `auto` tries which the run does not refuse.
fn first_act<R: Runs>(run: &R, p: u32) -> Result<Act, Refusal>
    requires { is_among (R.run run.now).setup.processes p ≡ true }
    ensures { result ≡ first_act_of (R.rules (R.run run.now).setup) (R.run run.now).history p }
{
    if run.refuses(p, Act::Learn).is_none() {
        return Ok(Act::Learn);
    }
    if let Some(name) = run.pending(p) {
        let act = Act::Recv(u32::from(name.s.number()), u32::from(name.m));
        if run.refuses(p, act).is_none() {
            return Ok(act);
        }
    }
    if run.refuses(p, Act::Go).is_none() {
        return Ok(Act::Go);
    }
    if run.refuses(p, Act::Query(None)).is_none() {
        return Ok(Act::Query(None));
    }
    Err(Refusal::Idle)
}

impl<R: Runs> ControlState<R> {
    /// The state in which nothing has happened.
    pub fn open(alloc: Global, setup: Setup, seats: u8) -> Result<Self, NoMemory>
        ensures { IfOk result (λ t. t.state ≡ first_control_state setup seats) }
    {
        let redo = empty_lists(alloc, seats)?;
        let run = R::start(alloc, setup)?;
        Ok(ControlState {
            run,
            breakpoints: Breakpoints::new(alloc),
            pause: None,
            redo,
        })
    }

    /// The run.
    pub fn run(&self) -> &R
        ensures setup { (R.run result.now).setup ≡ self.now.state.setup }
        ensures history { (R.run result.now).history ≡ self.now.state.history }
    {
        &self.run
    }

    /// The run; all else of the control state is given up.
    pub fn into_run(self) -> R
        ensures setup { (R.run result).setup ≡ self.state.setup }
        ensures history { (R.run result).history ≡ self.state.history }
    {
        let ControlState { run, .. } = self;
        run
    }

    /// Ends the pause.
    #[inline(never)]
    #[tactic(auto, unfolding(crate::specs::Commands::outcome))]
    pub fn resume(&mut self) -> Reply
        ensures { IsPerformedForAny R.rules self.old Command.Resume self.new (Ok result) }
    {
        self.pause = None;
        Reply::Resumed
    }

    /// Takes a breakpoint away.
    #[inline(never)]
    #[tactic(auto, unfolding(crate::specs::Commands::outcome))]
    pub fn unbreak(&mut self, number: u32) -> Reply
        ensures { IsPerformedForAny R.rules self.old (Command.Unbreak number) self.new (Ok result) }
    {
        if !self.breakpoints.has(number) {
            return Reply::Refused(Refusal::NoBreak);
        }
        self.breakpoints.remove(number);
        Reply::BreakGone(number)
    }

    /// Sets a breakpoint.
    #[inline(never)]
    #[tactic(auto, unfolding(crate::specs::Commands::outcome))]
    pub fn set_break(&mut self, stop: Stop) -> Result<Reply, NoMemory>
        requires { self.old.state.next ≤ MAX_ENTRIES }
        ensures { IsPerformedForAny R.rules self.old (Command.Break stop) self.new result }
    {
        if names_none_of(self.run.processes(), &stop) {
            return refused(Refusal::NoProcess);
        }
        if self.breakpoints.len() >= usize::from(MAX_BREAKPOINTS) {
            return refused(Refusal::BreakLimit);
        }
        let number = self.breakpoints.set(stop)?;
        Ok(Reply::BreakSet(number))
    }

    /// Empties the redo list of a seat.
    #[inline(never)]
    #[tactic(auto, unfolding(crate::specs::Commands::outcome))]
    pub fn forget(&mut self, seat: u8) -> Reply
        requires seat { HasSeat self.old.state seat }
        requires few { events_kept self.old.state ≤ MAX_ENTRIES }
        ensures { IsPerformed R.rules self.old seat Command.Forget self.new (Ok result) }
    {
        let list = &mut self.redo[seat as usize - 1];
        let count = list.len();
        list.clear();
        Reply::Forgot(count as u32)
    }

    /// Makes room in a seat's redo list for this many events more. After `NoMemory` there is as much as
    /// there was.
    pub fn reserve(&mut self, seat: u8, additional: usize) -> Result<(), NoMemory>
        requires { HasSeat self.old.state seat }
        ensures state { self.new.state ≡ self.old.state }
        ensures ok { OnOk result
            (length (redo_of self.old.state seat) + additional ≤ capacity_of self.new seat) }
        ensures capacities { NoneShrinks self.old.capacities self.new.capacities }
    {
        self.redo[seat as usize - 1].reserve(additional)?;
        Ok(())
    }

    /// Undoes an event on which no standing event depends, and puts it at the end of the seat's
    /// redo list. It needs no memory where there is room for the event.
    #[inline(never)]
    pub fn undo(&mut self, seat: u8, event: EventRef) -> Result<Reply, NoMemory>
        requires { HasSeat self.old.state seat }
        ensures { IsPerformed R.rules self.old seat (undoing (name_given event)) self.new result }
    {
        let _kind: Option<Kind> = None;
        let _register: Option<Reg> = None;
        let list = &mut self.redo[seat as usize - 1];
        if let Err(error) = list.reserve(1) {
            // A refusal needs no room in the list.
            let Some(refusal) = self.run.refuses_undo(event) else {
                return Err(NoMemory::from(error));
            };
            return refused(refusal);
        }
        let event = match self.run.undo(event) {
            Ok(event) => event,
            Err(refusal) => return refused(refusal),
        };
        let again = event;
        list.push_reserved(again);
        Ok(Reply::Undone(event))
    }

    /// Removes an event with its consequences, and puts them on the seat's redo list, the last first.
    #[inline(never)]
    pub fn rollback(&mut self, alloc: Global, seat: u8, event: EventRef) -> Result<Reply, NoMemory>
        requires seat { HasSeat self.old.state seat }
        requires few { events_kept self.old.state ≤ MAX_ENTRIES }
        ensures { IsPerformed R.rules self.old seat (rolling_back (name_given event)) self.new result }
    {
        let list = &mut self.redo[seat as usize - 1];
        let count = match self.run.rollback(alloc, event, list)? {
            Ok(count) => count,
            Err(refusal) => return refused(refusal),
        };
        Ok(Reply::RolledBack(count))
    }

    /// Takes the seat's last undone event again, and off its redo list.
    #[inline(never)]
    #[tactic(auto, unfolding(crate::specs::Commands::outcome))]
    pub fn redo(&mut self, alloc: Global, seat: u8) -> Result<Reply, NoMemory>
        requires seat { HasSeat self.old.state seat }
        requires of_run { AreOfRun self.old.state }
        ensures { IsPerformed R.rules self.old seat Command.Redo self.new result }
    {
        let Some(undone) = self.redo[seat as usize - 1].last().copied() else {
            return refused(Refusal::NothingToRedo);
        };
        match self.run.again(alloc, &undone)? {
            Ok(event) => {
                self.redo[seat as usize - 1].pop();
                let decides = self.decides(&event);
                Ok(Reply::Redone { event, decides })
            }
            Err(refusal) => refused(refusal),
        }
    }

    /// The decision of a process, if it has one, and its round, 0 where there is no such process.
    fn decision_and_round_of(&self, p: u32) -> (Option<Val>, u32)
        ensures decision { result.0
            ≡ decision_of (R.rules self.now.state.setup) self.now.state.history p }
        ensures round { result.1
            ≡ round_of (R.rules self.now.state.setup) self.now.state.history p }
    {
        match self.run.view(p) {
            Some(process) => (process.decision, process.round),
            None => (None, 0),
        }
    }

    /// The decision that an event which stands last gave its process.
    fn decides(&self, event: &Event) -> Option<Val>
        ensures { result
            ≡ decides (R.rules self.now.state.setup) self.now.state.history event.now }
    {
        match event {
            Event::Step { p, .. } => self.decision_and_round_of(u32::from(p.number())).0,
            Event::Lost(_) => None,
        }
    }

    /// Sets the pause, where none stands and a breakpoint fires.
    #[inline(always)]
    fn fire(&mut self, taken: &TakenStep) -> Option<u32>
        ensures fired { result ≡ newly_fired self.old.state.pause taken.now self.old.state.stops }
        ensures after { self.new.state
            ≡ record self.old.state { pause = option_or self.old.state.pause result } }
        ensures kept { self.new.capacities ≡ self.old.capacities }
    {
        if self.pause.is_some() || self.breakpoints.is_empty() {
            return None;
        }
        self.pause = self.breakpoints.first_fired(taken);
        self.pause
    }

    /// What breakpoints look at in a step of process `p` that stands last and was taken in that round.
    fn last_step(&self, event: Event, p: u32, round_before: u32) -> TakenStep
        ensures { result
            ≡ last_step (R.rules self.now.state.setup) self.now.state.history p event round_before }
    {
        let (decides, round_after) = self.decision_and_round_of(p);
        TakenStep {
            event,
            decides,
            round_before,
            round_after,
        }
    }

    /// The reply to a step that stands last. Sets the pause, where a breakpoint fires.
    #[inline(always)]
    fn reply_to_step(&mut self, taken: TakenStep) -> Reply
        ensures said { came_out result self.new.state ≡ step_replied self.old.state taken }
        ensures kept { self.new.capacities ≡ self.old.capacities }
    {
        let paused = self.fire(&taken);
        Reply::Stepped {
            event: taken.event,
            decides: taken.decides,
            paused,
        }
    }

    /// Takes a step.
    #[inline(never)]
    #[tactic(auto, unfolding(crate::specs::Commands::outcome))]
    pub fn step(&mut self, alloc: Global, p: u32, act: Act) -> Result<Reply, NoMemory>
        ensures { IsPerformedForAny R.rules self.old (Command.Step p act) self.new result }
    {
        let (_, round_before) = self.decision_and_round_of(p);
        match self.run.step(alloc, p, act)? {
            Ok(event) => {
                let taken = self.last_step(event, p, round_before);
                Ok(self.reply_to_step(taken))
            }
            Err(refusal) => refused(refusal),
        }
    }

    /// Loses the copy of the `m`-th message of process `s` for process `p`. No breakpoint looks at it.
    #[inline(never)]
    #[tactic(auto, unfolding(crate::specs::Commands::outcome))]
    pub fn lose(&mut self, alloc: Global, s: u32, m: u32, p: u32) -> Result<Reply, NoMemory>
        ensures { IsPerformedForAny R.rules self.old (Command.Lose s m p) self.new result }
    {
        match self.run.lose(alloc, s, m, p)? {
            Ok(event) => Ok(Reply::Stepped {
                event,
                decides: None,
                paused: None,
            }),
            Err(refusal) => refused(refusal),
        }
    }

    /// The round of a process that `auto` may take a step of, or why it may take none.
    fn round_for_auto(&self, p: u32) -> Result<u32, Refusal>
        requires { AreInRange self.now.state.setup }
        ensures among { OnOk result (is_among self.now.state.setup.processes p ≡ true) }
        ensures refused { IfErr result (λ why.
            IsRefusedForAuto (R.rules self.now.state.setup) self.now.state.history p why) }
        ensures free { OnOk result
            (IsFreeForAuto (R.rules self.now.state.setup) self.now.state.history p) }
        ensures round { IfOk result (λ round.
            round ≡ round_of (R.rules self.now.state.setup) self.now.state.history p) }
    {
        let Some(process) = self.run.view(p) else {
            return Err(Refusal::NoProcess);
        };
        if !process.alive {
            return Err(Refusal::Crashed);
        }
        if process.decision.is_some() {
            return Err(Refusal::Done);
        }
        if process.steps >= u32::from(MAX_STEPS) {
            return Err(Refusal::StepLimit);
        }
        Ok(process.round)
    }

    /// What `auto` would do for a process.
    pub fn choose(&self, p: u32) -> Result<Act, Refusal>
        requires { AreInRange self.now.state.setup }
        ensures { result ≡ choice (R.rules self.now.state.setup) self.now.state.history p }
    {
        self.round_for_auto(p)?;
        first_act(&self.run, p)
    }

    /// Takes the first step that is possible for a process.
    #[inline(never)]
    #[tactic(auto, unfolding(crate::specs::Commands::outcome))]
    pub fn auto(&mut self, alloc: Global, p: u32) -> Result<Reply, NoMemory>
        requires { AreInRange self.old.state.setup }
        ensures { IsPerformedForAny R.rules self.old (Command.Auto p) self.new result }
    {
        if let Some(number) = self.pause {
            let refusal = self.choose(p).err().unwrap_or(Refusal::Paused(number));
            return refused(refusal);
        }
        let round_before = match self.round_for_auto(p) {
            Ok(round) => round,
            Err(refusal) => return refused(refusal),
        };
        match self.run.step_first(alloc, p)? {
            Ok(event) => {
                let taken = self.last_step(event, p, round_before);
                Ok(self.reply_to_step(taken))
            }
            Err(refusal) => refused(refusal),
        }
    }

    /// Returns the direct causes of an event.
    #[inline(never)]
    #[tactic(auto, using(crate::proofs::Steps::why_is))]
    pub fn why(&self, alloc: Global, event: EventRef) -> Result<Reply, NoMemory>
        ensures { IsPerformedForAny R.rules self.now (asking_why (name_given event)) self.now result }
    {
        match self.run.explain(alloc, event) {
            Ok((name, causes)) => Ok(Reply::Because(
                name,
                Vec::from_slice(alloc, causes.as_slice())?,
            )),
            Err(refusal) => refused(refusal),
        }
    }

    /// Shows a part of the run.
    #[inline(never)]
    #[tactic(auto, unfolding(crate::specs::Commands::outcome))]
    pub fn show(&self, alloc: Global, view: View) -> Result<Reply, NoMemory>
        ensures { IsPerformedForAny R.rules self.now (Command.Show view) self.now result }
    {
        let reply = match view {
            View::Proc(p) => match self.run.view(p) {
                Some(process) => Reply::Proc(process),
                None => return refused(Refusal::NoProcess),
            },
            View::Regs => Reply::Regs(self.run.cells(alloc)?),
            View::Mail => Reply::Mail(self.run.mail(alloc)?),
            View::History => Reply::History(self.run.events(alloc)?),
        };
        Ok(reply)
    }

    /// Shows who has decided what.
    #[inline(never)]
    #[tactic(auto, unfolding(crate::specs::Commands::outcome))]
    pub fn decisions(&self, alloc: Global) -> Result<Reply, NoMemory>
        ensures { IsPerformedForAny R.rules self.now Command.Decisions self.now result }
    {
        Ok(Reply::Decisions(self.run.decisions(alloc)?))
    }

    /// Carries a command out, of a seat.
    #[inline(always)]
    pub fn perform(&mut self, alloc: Global, seat: u8, command: Command) -> Result<Reply, NoMemory>
        requires seat { HasSeat self.old.state seat }
        requires few { events_kept self.old.state ≤ MAX_ENTRIES }
        requires numbers { self.old.state.next ≤ MAX_ENTRIES }
        requires of_run { AreOfRun self.old.state }
        requires in_range { AreInRange self.old.state.setup }
        ensures { IsPerformed R.rules self.old seat command self.new result }
    {
        match command {
            Command::Step(p, act) => self.step(alloc, p, act),
            Command::Auto(p) => self.auto(alloc, p),
            Command::Lose(s, m, p) => self.lose(alloc, s, m, p),
            Command::Undo(p, k) => self.undo(seat, EventRef::Step(p, k)),
            Command::UndoLost(s, m, p) => self.undo(seat, EventRef::Lost(s, m, p)),
            Command::Redo => self.redo(alloc, seat),
            Command::Forget => Ok(self.forget(seat)),
            Command::Rollback(p, k) => self.rollback(alloc, seat, EventRef::Step(p, k)),
            Command::RollbackLost(s, m, p) => self.rollback(alloc, seat, EventRef::Lost(s, m, p)),
            Command::Why(p, k) => self.why(alloc, EventRef::Step(p, k)),
            Command::WhyLost(s, m, p) => self.why(alloc, EventRef::Lost(s, m, p)),
            Command::Break(stop) => self.set_break(stop),
            Command::Unbreak(number) => Ok(self.unbreak(number)),
            Command::Resume => Ok(self.resume()),
            Command::Show(view) => self.show(alloc, view),
            Command::Decisions => self.decisions(alloc),
        }
    }
}
