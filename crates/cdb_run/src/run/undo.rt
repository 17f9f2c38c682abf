//! Steps and losses of a run, found by their names and undone in place.

ghost use Rattle.std.specs.Prelude.{◌≡◌, ◌↔◌, IsOk, IfOk};
ghost use Rattle.std.specs.Result.{result_err};
ghost use Rattle.cdb_rules.specs.EventRefs.{name_given};
ghost use Rattle.cdb_rules.specs.Refusals.{IsOfRun};
ghost use Rattle.cdb_rules.specs.Runs.{step_name, loss_name, CanUndo, LeadsTo, result_of_undo, after_undo};
ghost use Rattle.cdb_run.specs.Found.{IsFound, IsFoundFree};
ghost use Rattle.cdb_rules.specs.Undo.{names_processes};
ghost use Rattle.cdb_standing.specs.Moves.{IsTakenOut};

use crate::run::Run;
use cdb_base::{CopyName, Event, Proc, Refusal, StepId};
use cdb_process::Process;
use cdb_rules::EventRef;

impl<P: Process> Run<P> {
    /// Whether the run has the processes that are named.
    fn has_processes(&self, event: EventRef) -> bool
        ensures { result ≡ names_processes self.now.setup.processes (name_given event) }
    {
        match event {
            EventRef::Step(p, _) => self.process(p).is_some(),
            EventRef::Lost(s, _, p) => self.process(s).is_some() && self.process(p).is_some(),
        }
    }

    /// The name of a standing event; or the first refusal that holds: `NoProcess` or `NoStep`.
    pub fn find(&self, event: EventRef) -> Result<StepId, Refusal>
        ensures { IsFound self.now (name_given event) result }
    {
        self.proper();
        if !self.has_processes(event) {
            return Err(Refusal::NoProcess);
        }
        let Some(name) = event.id() else {
            return Err(Refusal::NoStep);
        };
        let asked = name;
        match self.history().find(asked) {
            Some(_) => Ok(name),
            None => Err(Refusal::NoStep),
        }
    }

    /// The name of an event that can be undone; or the first refusal that holds: `NoProcess`, `NoStep`, or `NeededBy`
    /// the first standing event that depends on it.
    fn find_free(&self, event: EventRef) -> Result<StepId, Refusal>
        ensures { IsFoundFree self.now (name_given event) result }
    {
        self.proper();
        let name = self.find(event)?;
        let asked = name;
        match self.history().first_dependent(asked) {
            Some(dependent) => Err(Refusal::NeededBy(dependent)),
            None => Ok(name),
        }
    }

    /// Takes the step of that name out, on which none depends, and restores the state before it. It takes no memory.
    fn restore_step(&mut self, p: Proc, k: u16) -> Event
        requires { CanUndo self.old (step_name p k) }
        ensures event { IsTakenOut self.old.history (step_name p k) result self.new.history }
        ensures setup { self.new.setup ≡ self.old.setup }
    {
        let _ranges = self.setup.n();
        let (kind, left) = self.records.take_step(p, k);
        self.state.take_back(p, &kind, left);
        Event::Step { p, k, kind }
    }

    /// Takes the loss of that copy out, and restores the state before it. It takes no memory.
    fn restore_loss(&mut self, copy: &CopyName) -> Event
        requires { CanUndo self.old (StepId.Lost copy.now) }
        ensures event { IsTakenOut self.old.history (StepId.Lost copy.now) result self.new.history }
        ensures setup { self.new.setup ≡ self.old.setup }
    {
        let _ranges = self.setup.n();
        self.records.take_loss(*copy);
        self.state.mail.take_back_lose(copy.to, copy.msg);
        Event::Lost(*copy)
    }

    /// Takes the event of that name out, on which none depends, and restores the state before it. It takes no memory.
    pub(crate) fn restore(&mut self, name: StepId) -> Event
        requires { CanUndo self.old name }
        ensures event { IsTakenOut self.old.history name result self.new.history }
        ensures setup { self.new.setup ≡ self.old.setup }
    {
        match &name {
            StepId::Step(step) => self.restore_step(step.p, step.k),
            StepId::Lost(copy) => self.restore_loss(copy),
        }
    }

    /// Undoes an event, whatever came later in time, or returns the first refusal that holds: `NoProcess`, `NoStep`,
    /// or `NeededBy` the first standing event that depends on it. After a refusal the run is as it was. It takes no
    /// memory. What it returns may be given to `again`.
    pub fn undo_event(&mut self, event: EventRef) -> Result<Event, Refusal>
        ensures returns { result ≡ result_of_undo self.old (name_given event) }
        ensures after { self.new ≡ after_undo self.old (name_given event) }
        ensures free { IsOk result ↔ CanUndo self.old (name_given event) }
        ensures back { IfOk result (λ event. LeadsTo P.table self.new event self.old) }
        ensures of_run { IfOk result (IsOfRun self.old.setup) }
    {
        self.proper();
        let name = self.find_free(event)?;
        Ok(self.restore(name))
    }

    /// What `undo_event` would be refused with, if it would be. It takes no memory.
    #[tactic(auto, using(crate::proofs::Found::unrefused))]
    pub fn refuses_undo(&self, event: EventRef) -> Option<Refusal>
        ensures { result ≡ result_err (result_of_undo self.now (name_given event)) }
    {
        self.proper();
        match self.find_free(event) {
            Ok(_) => None,
            Err(refusal) => Some(refusal),
        }
    }

    /// Undoes the `k`-th step of process `p`, as `undo_event` does.
    pub fn undo(&mut self, p: u32, k: u32) -> Result<Event, Refusal>
        ensures returns { result ≡ result_of_undo self.old (step_name p k) }
        ensures after { self.new ≡ after_undo self.old (step_name p k) }
        ensures free { IsOk result ↔ CanUndo self.old (step_name p k) }
        ensures back { IfOk result (λ event. LeadsTo P.table self.new event self.old) }
        ensures of_run { IfOk result (IsOfRun self.old.setup) }
    {
        self.undo_event(EventRef::Step(p, k))
    }

    /// Undoes the loss of the copy for process `p` of the `m`-th message of process `s`, as `undo_event` does.
    pub fn undo_lost(&mut self, s: u32, m: u32, p: u32) -> Result<Event, Refusal>
        ensures returns { result ≡ result_of_undo self.old (loss_name s m p) }
        ensures after { self.new ≡ after_undo self.old (loss_name s m p) }
        ensures free { IsOk result ↔ CanUndo self.old (loss_name s m p) }
        ensures back { IfOk result (λ event. LeadsTo P.table self.new event self.old) }
        ensures of_run { IfOk result (IsOfRun self.old.setup) }
    {
        self.undo_event(EventRef::Lost(s, m, p))
    }
}
