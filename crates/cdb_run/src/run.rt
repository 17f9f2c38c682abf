//! A run, with one current state and a record of each standing event.

ghost use Rattle.std.specs.Prelude.{◌≡◌, ◌≤◌, ◌↔◌, ℕ, [], length, true, None, Some, is_some};
ghost use Rattle.std.specs.Prelude.{IsTrue, IsSome, IfSome, IsOk, IfOk, OnOk, OnErr, IfNone};
ghost use Rattle.std.specs.Option.{option_copied};
ghost use Rattle.std.specs.Result.{result_err, result_ok};
ghost use Rattle.cdb_message.specs.Mail.{next_pending, payload_of, is_lost};
ghost use Rattle.cdb_rules.specs.Auto.{first_step_in};
ghost use Rattle.cdb_run.specs.Plans.{IsInRun, plan_of, plan_again_of, receive_of};
ghost use Rattle.cdb_run.specs.Proper.{IsProper};
ghost use Rattle.cdb_rules.specs.Refusals.{IsOfRun};
ghost use Rattle.cdb_rules.specs.Step.{is_among};
ghost use Rattle.cdb_rules.specs.Runs.{IsNumberAmong, IsNext, IsInOrder, process_in, progress_in, alive_in};
ghost use Rattle.cdb_rules.specs.Runs.{steps_in, queries_in, local_in, mail_in, registers_in, register_in};
ghost use Rattle.cdb_rules.specs.Runs.{cell_in, writes_in, decisions_in, result_of_step, result_of_again};
ghost use Rattle.cdb_rules.specs.Runs.{result_of_loss, with_event, with_result, IsJustTaken};

use crate::among::{names_process, process_among};
use crate::plan::{Seen, plan_loss};
use crate::progress::decided;
use crate::state::State;
use cdb_base::limits::MAX_STEPS;
use cdb_base::{
    Act, Cell, CopyName, Event, Kind, MsgName, NoMemory, Payload, Proc, Refusal, Reg, Val,
};
use cdb_message::mail::Mail;
use cdb_process::{Input, Process, accepts_receive};
use cdb_register::Registers;
use cdb_rules::Progress;
use cdb_setup::Setup;
use cdb_standing::{History, Records};
use std::alloc::Global;
use std::marker::Model;

mod rollback;
mod same;
mod undo;

/// A run. A contract sees its setup and its standing events; the state that it holds is what these
/// events reach from the start.
#[derive(Drop)]
pub struct Run<P: Process> {
    setup: Setup,
    state: State<P>,
    records: Records<P::Back>,
}

impl<P: Process> Model for Run<P> {
    ghost use Rattle.cdb_standing.specs.Recorded.{events_of};
    ghost use Rattle.cdb_rules.specs.Machines.{machine_of};
    ghost use Rattle.cdb_rules.specs.RunView.{RunView};
    ghost use Rattle.cdb_run.specs.Current.{IsCurrent, held_in};

    ghost Value = { RunView };

    ghost view = { λ run. record { setup = run.setup; history = events_of run.records } };

    ghost invariant = { λ run.
        IsCurrent (machine_of P.table run.setup) P.before (held_in run.state) run.records };
}

impl<P: Process> Run<P> {
    /// The run of a setup in which nothing has happened. After `NoMemory` the setup is given up.
    pub fn start(alloc: Global, setup: Setup) -> Result<Self, NoMemory>
        ensures { IfOk result (λ run. run ≡ record { setup = setup; history = [] }) }
    {
        let _ranges = setup.n();
        let state = State::first(alloc, &setup)?;
        let records = Records::new(alloc)?;
        Ok(Run {
            setup,
            state,
            records,
        })
    }

    /// What holds of every run. The function does nothing: its contract is the law.
    #[inline(always)]
    pub(crate) fn proper(&self)
        ensures { IsProper P.table self.now }
    {
        let _ranges = self.setup.n();
    }

    /// Takes an enabled step. A refused growth changes nothing.
    #[inline(always)]
    fn take_step(&mut self, alloc: Global, p: Proc, k: u16, kind: &Kind) -> Result<(), NoMemory>
        requires { IsNext P.table self.old (Event.Step p k kind.now) }
        ensures ok { OnOk result (self.new ≡ with_event self.old (Event.Step p k kind.now)) }
        ensures err { OnErr result (self.new ≡ self.old) }
    {
        let _ranges = self.setup.n();
        let state = &mut self.state;
        self.records
            .push_with(p, k, *kind, state, |state| state.step(alloc, p, kind))?;
        Ok(())
    }

    /// Takes an enabled loss. A refused growth changes nothing.
    fn take_loss(&mut self, alloc: Global, copy: &CopyName) -> Result<(), NoMemory>
        requires { IsNext P.table self.old (Event.Lost copy.now) }
        ensures ok { OnOk result (self.new ≡ with_event self.old (Event.Lost copy.now)) }
        ensures err { OnErr result (self.new ≡ self.old) }
    {
        let _ranges = self.setup.n();
        let mail = &mut self.state.mail;
        self.records
            .push_loss_with(*copy, mail, |mail| mail.lose(alloc, copy.to, copy.msg))?;
        Ok(())
    }

    /// Takes an enabled event. A refused growth changes nothing.
    fn take(&mut self, alloc: Global, event: &Event) -> Result<(), NoMemory>
        requires { IsNext P.table self.old event.now }
        ensures ok { OnOk result (self.new ≡ with_event self.old event.now) }
        ensures err { OnErr result (self.new ≡ self.old) }
    {
        match event {
            Event::Step { p, k, kind } => self.take_step(alloc, *p, *k, kind),
            Event::Lost(copy) => self.take_loss(alloc, copy),
        }
    }

    /// Takes the event that is planned, or returns the refusal. A refused growth changes nothing.
    fn take_planned(
        &mut self,
        alloc: Global,
        planned: Result<Event, Refusal>,
    ) -> Result<Result<Event, Refusal>, NoMemory>
        requires { IfOk planned (λ event. IsNext P.table self.old event) }
        ensures returns { IfOk result (λ r. r ≡ planned) }
        ensures after { IfOk result (λ r. self.new ≡ with_result self.old r) }
        ensures undoable { IfOk result (λ r. IfOk r (λ e. IsJustTaken self.new e self.old)) }
        ensures err { OnErr result (self.new ≡ self.old) }
        ensures memory { OnErr result (IsOk planned) }
    {
        self.proper();
        match planned {
            Ok(next) => {
                self.take(alloc, &next)?;
                Ok(Ok(next))
            }
            Err(refusal) => Ok(Err(refusal)),
        }
    }

    /// The process of that number, where the run has it.
    pub fn process(&self, p: u32) -> Option<Proc>
        ensures number { IsNumberAmong self.now.setup.processes p result }
        ensures none { IfNone result (process_in P.table self.now p ≡ None) }
    {
        self.proper();
        process_among(self.setup().n(), p)
    }

    /// How far a process has come.
    pub fn progress(&self, p: Proc) -> &Progress<P>
        requires { p ≤ self.now.setup.processes }
        ensures { progress_in P.table self.now p ≡ Some result.now }
    {
        let _ranges = self.setup.n();
        &self.state.processes[p.index()]
    }

    /// What is seen of a process.
    fn seen(&self, p: Proc) -> Seen<'_, P>
        requires { p ≤ self.now.setup.processes }
        ensures in_run { IsInRun result }
        ensures steps { (act : Act) → plan_of P.table result act ≡ result_of_step P.table self.now p act }
        ensures again { (k : ℕ) (kind : Kind) → plan_again_of P.table result k kind
            ≡ result_of_again P.table self.now (Event.Step p k kind) }
    {
        self.proper();
        Seen {
            setup: self.setup(),
            mail: self.mail(),
            registers: self.registers(),
            progress: self.progress(p),
            p,
        }
    }

    /// What a step of process `p` returns.
    fn plan(&self, p: u32, act: Act) -> Result<Event, Refusal>
        ensures returns { result ≡ result_of_step P.table self.now p act }
        ensures enabled { IfOk result (λ event. IsNext P.table self.now event) }
    {
        self.proper();
        let Some(process) = self.process(p) else {
            return Err(Refusal::NoProcess);
        };
        self.seen(process).plan(act)
    }

    /// What a step of process `p` would be refused with, if it would be.
    pub fn refuses(&self, p: u32, act: Act) -> Option<Refusal>
        ensures { result ≡ result_err (result_of_step P.table self.now p act) }
    {
        self.plan(p, act).err()
    }

    /// Takes the step of process `p` that an act names, or returns the first refusal that holds:
    /// `NoProcess`, `Crashed`, `Done`, `NotNow`, `NoMessage`, `Taken`, `BadLeader`, `NoAnswer`,
    /// `StepLimit` or `Lost`, in this order. After a refusal and after `NoMemory` the run is as it was.
    ///
    /// Promise: A step, and a loss and an event taken again, return the event as the definition gives it and add it, or
    /// return the first refusal in order and change nothing. Memory that is refused changes nothing, and what is
    /// refused takes none.
    pub fn step(
        &mut self,
        alloc: Global,
        p: u32,
        act: Act,
    ) -> Result<Result<Event, Refusal>, NoMemory>
        ensures returns { IfOk result (λ r. r ≡ result_of_step P.table self.old p act) }
        ensures after { IfOk result (λ r. self.new ≡ with_result self.old r) }
        ensures undoable { IfOk result (λ r. IfOk r (λ e. IsJustTaken self.new e self.old)) }
        ensures err { OnErr result (self.new ≡ self.old) }
        ensures memory { OnErr result (IsOk (result_of_step P.table self.old p act)) }
    {
        let planned = self.plan(p, act);
        self.take_planned(alloc, planned)
    }

    /// The step in which process `p` learns, where it is not refused.
    fn plan_learn(&self, p: u32) -> Option<Event>
        requires { is_among self.now.setup.processes p ≡ true }
        ensures learnt { result ≡ result_ok (result_of_step P.table self.now p Act.Learn) }
        ensures enabled { IfSome result (λ event. IsNext P.table self.now event) }
    {
        let process = self.process(p)?;
        if !self.local(process).accepts(&Input::Learn) {
            return None;
        }
        self.plan(p, Act::Learn).ok()
    }

    /// The receive of the least copy that process `p` can still receive, where it is not refused.
    fn plan_receive(&self, p: u32) -> Option<Event>
        requires { is_among self.now.setup.processes p ≡ true }
        ensures received { result ≡ receive_of (result_of_step P.table self.now p)
            (next_pending (mail_in P.table self.now) p None) }
        ensures enabled { IfSome result (λ event. IsNext P.table self.now event) }
    {
        let process = self.process(p)?;
        if !accepts_receive(self.local(process)) {
            return None;
        }
        let name = self.mail().pending(process, None)?;
        let act = Act::Recv(u32::from(name.s.number()), u32::from(name.m));
        self.plan(p, act).ok()
    }

    /// The first step of process `p` that `auto` tries and that is not refused; `Idle` where each is.
    fn plan_first(&self, p: u32) -> Result<Event, Refusal>
        requires { is_among self.now.setup.processes p ≡ true }
        ensures returns { result ≡ first_step_in P.table self.now p }
        ensures enabled { IfOk result (λ event. IsNext P.table self.now event) }
    {
        if let Some(event) = self.plan_learn(p) {
            return Ok(event);
        }
        if let Some(event) = self.plan_receive(p) {
            return Ok(event);
        }
        if let Ok(event) = self.plan(p, Act::Go) {
            return Ok(event);
        }
        if let Ok(event) = self.plan(p, Act::Query(None)) {
            return Ok(event);
        }
        Err(Refusal::Idle)
    }

    /// Takes the first step of process `p`, from 1 to their number, that `auto` tries and that is not refused, or
    /// returns `Idle`. After a refusal and after `NoMemory` the run is as it was.
    #[inline(always)]
    pub fn step_first(&mut self, alloc: Global, p: u32) -> Result<Result<Event, Refusal>, NoMemory>
        requires { is_among self.old.setup.processes p ≡ true }
        ensures returns { IfOk result (λ r. r ≡ first_step_in P.table self.old p) }
        ensures after { IfOk result (λ r. self.new ≡ with_result self.old r) }
        ensures undoable { IfOk result (λ r. IfOk r (λ e. IsJustTaken self.new e self.old)) }
        ensures err { OnErr result (self.new ≡ self.old) }
        ensures memory { OnErr result (IsOk (first_step_in P.table self.old p)) }
    {
        let planned = self.plan_first(p);
        self.take_planned(alloc, planned)
    }

    /// Whether a run of this setup can have the event, which `again` asks of whoever calls it: a step of one of its
    /// processes, with a number that a step can have, where a query names one of them; or in version 2 the loss of a
    /// copy for one of them.
    pub fn is_of_run(&self, event: &Event) -> bool
        ensures { IsTrue result ↔ IsOfRun self.now.setup event.now }
    {
        let n = self.setup.n();
        match event {
            Event::Step { p, k, kind } => {
                p.number() <= n && 1 <= *k && *k <= MAX_STEPS && names_process(n, kind)
            }
            Event::Lost(copy) => self.setup.version() == 2 && copy.to.number() <= n,
        }
    }

    /// What taking an undone event again returns.
    fn plan_again(&self, event: &Event) -> Result<Event, Refusal>
        requires { IsOfRun self.now.setup event.now }
        ensures { result ≡ result_of_again P.table self.now event.now }
    {
        self.proper();
        match event {
            Event::Step { p, k, kind } => self.seen(*p).plan_again(*k, kind),
            Event::Lost(copy) => self.plan_loss(
                u32::from(copy.msg.s.number()),
                u32::from(copy.msg.m),
                u32::from(copy.to.number()),
            ),
        }
    }

    /// Takes an undone event of the run again, at the end of the history, or returns the first
    /// refusal that holds: of a step `Moved`, `Crashed`, `Done`, `NotNow`, `NoMessage`, `Taken` or
    /// `Lost`, of a loss `NoMessage`, `Taken` or `Lost`, in this order. A step reads what stands now.
    /// After a refusal and after `NoMemory` the run is as it was.
    pub fn again(
        &mut self,
        alloc: Global,
        event: &Event,
    ) -> Result<Result<Event, Refusal>, NoMemory>
        requires { IsOfRun self.old.setup event.now }
        ensures returns { IfOk result (λ r. r ≡ result_of_again P.table self.old event.now) }
        ensures taken { IfOk result (λ r. IsOk r ↔ IsNext P.table self.old event.now) }
        ensures after { IfOk result (λ r. self.new ≡ with_result self.old r) }
        ensures undoable { IfOk result (λ r. IfOk r (λ e. IsJustTaken self.new e self.old)) }
        ensures err { OnErr result (self.new ≡ self.old) }
        ensures memory { OnErr result (IsOk (result_of_again P.table self.old event.now)) }
    {
        self.proper();
        let planned = self.plan_again(event);
        self.take_planned(alloc, planned)
    }

    /// Loses the copy of the `m`-th message of process `s` for process `p`, or returns the first
    /// refusal that holds: `NoLoss`, `NoProcess` of `p`, `NoMessage`, `Taken` or `Lost`, in this
    /// order. After a refusal and after `NoMemory` the run is as it was.
    pub fn lose(
        &mut self,
        alloc: Global,
        s: u32,
        m: u32,
        p: u32,
    ) -> Result<Result<Event, Refusal>, NoMemory>
        ensures returns { IfOk result (λ r. r ≡ result_of_loss P.table self.old s m p) }
        ensures after { IfOk result (λ r. self.new ≡ with_result self.old r) }
        ensures undoable { IfOk result (λ r. IfOk r (λ e. IsJustTaken self.new e self.old)) }
        ensures err { OnErr result (self.new ≡ self.old) }
        ensures memory { OnErr result (IsOk (result_of_loss P.table self.old s m p)) }
    {
        let planned = self.plan_loss(s, m, p);
        self.take_planned(alloc, planned)
    }

    /// What losing a copy returns.
    fn plan_loss(&self, s: u32, m: u32, p: u32) -> Result<Event, Refusal>
        ensures returns { result ≡ result_of_loss P.table self.now s m p }
        ensures enabled { IfOk result (λ event. IsNext P.table self.now event) }
    {
        self.proper();
        plan_loss(self.setup(), self.mail(), s, m, p)
    }

    /// The setup of the run.
    pub fn setup(&self) -> &Setup
        ensures { result.now ≡ self.now.setup }
    {
        &self.setup
    }

    /// The standing events, in the order in which they were taken: each was enabled in its turn.
    pub fn history(&self) -> &History
        ensures events { result.now ≡ self.now.history }
        ensures valid { IsInOrder P.table self.now }
    {
        self.proper();
        self.records.history()
    }

    /// The setup of the run and the standing events, each of which was enabled in its turn. All else of the run is
    /// given up.
    pub fn into_parts(self) -> (Setup, History)
        ensures setup { result.0 ≡ self.setup }
        ensures history { result.1 ≡ self.history }
        ensures valid { IsInOrder P.table self }
    {
        self.proper();
        let Run { setup, records, .. } = self;
        (setup, records.into_history())
    }

    /// Whether no crash of the process stands.
    pub fn alive(&self, p: Proc) -> bool
        requires { p ≤ self.now.setup.processes }
        ensures { alive_in P.table self.now p ≡ Some result }
    {
        self.progress(p).alive
    }

    /// How many steps of the process stand.
    pub fn steps(&self, p: Proc) -> u32
        requires { p ≤ self.now.setup.processes }
        ensures { steps_in P.table self.now p ≡ Some result }
    {
        self.progress(p).steps
    }

    /// How many queries of the process stand.
    pub fn queries(&self, p: Proc) -> u32
        requires { p ≤ self.now.setup.processes }
        ensures { queries_in P.table self.now p ≡ Some result }
    {
        self.progress(p).queries
    }

    /// The machine of the process, in its local state.
    pub fn local(&self, p: Proc) -> &P
        requires { p ≤ self.now.setup.processes }
        ensures { local_in P.table self.now p ≡ Some result.now }
    {
        &self.progress(p).local
    }

    /// The mail as it stands.
    pub fn mail(&self) -> &Mail
        ensures mail { result.now ≡ mail_in P.table self.now }
        ensures receivers { length result.now.received ≡ self.now.setup.processes }
    {
        self.proper();
        &self.state.mail
    }

    /// The registers as they stand.
    pub fn registers(&self) -> &Registers
        ensures { result.now ≡ registers_in P.table self.now }
    {
        &self.state.registers
    }

    /// Whether the run has the register: Alpha alone has some.
    pub fn has(&self, register: Reg) -> bool
        ensures { result ≡ is_some (register_in P.table self.now register) }
    {
        self.registers().has(register)
    }

    /// What the register holds.
    pub fn cell(&self, register: Reg) -> Cell
        requires { IsSome (register_in P.table self.now register) }
        ensures { cell_in P.table self.now register ≡ Some result }
    {
        self.registers().read(register)
    }

    /// How many writes of the register stand.
    pub fn writes(&self, register: Reg) -> u32
        requires { IsSome (register_in P.table self.now register) }
        ensures { writes_in P.table self.now register ≡ Some result }
    {
        self.registers().writes(register)
    }

    /// The least name above `after`, by sender and number, of a message that was sent and whose copy
    /// for process `p` was neither received nor lost.
    pub fn pending(&self, p: Proc, after: Option<MsgName>) -> Option<MsgName>
        requires { p ≤ self.now.setup.processes }
        ensures { result ≡ next_pending (mail_in P.table self.now) p after }
    {
        self.mail().pending(p, after)
    }

    /// The payload of the message of that name, if it was sent.
    pub fn payload(&self, name: MsgName) -> Option<&Payload>
        ensures { option_copied result ≡ payload_of (mail_in P.table self.now) name }
    {
        self.mail().payload(name)
    }

    /// Whether the copy is lost.
    pub fn lost(&self, copy: CopyName) -> bool
        ensures { result ≡ is_lost (mail_in P.table self.now) copy }
    {
        self.mail().lost(copy.to, copy.msg)
    }

    /// The decisions that stand: each process that has decided with its value, in order.
    pub fn decisions(&self, alloc: Global) -> Result<Vec<(Proc, Val)>, NoMemory>
        ensures { IfOk result (λ found. found.items ≡ decisions_in P.table self.now) }
    {
        let _ranges = self.setup.n();
        decided(alloc, &self.state.processes)
    }
}
