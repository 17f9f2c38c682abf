//! A run of the algorithm that its setup names, and what is asked of it by numbers and names.

ghost use Rattle.std.specs.Prelude.{◌≡◌, ◌≤◌, ◌↔◌, None, Some, IsTrue, IfNone, IsOk, IfOk};
ghost use Rattle.std.specs.Prelude.{All, OnOk, OnErr, true, length, option_map, vec_capacity};
ghost use Rattle.std.specs.Vec.{vec_items};
ghost use Rattle.cdb_base.specs.Results.{MapsTo};
ghost use Rattle.cdb_agreement.specs.Algorithms.{rules};
ghost use Rattle.cdb_agreement.specs.StepNumbers.{AreStepsNumbered, AreSendsNumbered};
ghost use Rattle.cdb_agreement.specs.SameState.{AreInSameState, LeadsBack, LeadsTo, RollbackLeadsBack};
ghost use Rattle.cdb_causal.specs.Dependence.{depends};
ghost use Rattle.cdb_causal.specs.Exchange.{IsExchanged};
ghost use Rattle.cdb_message.specs.Mail.{next_pending, is_lost};
ghost use Rattle.cdb_rules.specs.Agreement.{AllAgree, AreProposed, HasMajorityIfNeeded};
ghost use Rattle.cdb_rules.specs.Auto.{first_step_by};
ghost use Rattle.cdb_rules.specs.ByRules.{IsNext, IsInOrder, process_in, alive_in, steps_in, queries_in};
ghost use Rattle.cdb_rules.specs.ByRules.{place_in, round_in, decision_in, mail_in, registers_in};
ghost use Rattle.cdb_rules.specs.ByRules.{writes_in, decisions_in, result_of_step, result_of_again, result_of_loss};
ghost use Rattle.cdb_rules.specs.EventRefs.{name_given};
ghost use Rattle.cdb_rules.specs.Refusals.{IsOfRun};
ghost use Rattle.cdb_rules.specs.Runs.{step_name, loss_name, IsNumberAmong, RollsBackOnto, result_of_undo};
ghost use Rattle.cdb_rules.specs.Runs.{result_of_rollback, causes_in, with_result, after_undo, after_rollback};
ghost use Rattle.cdb_rules.specs.Runs.{CanUndo, IsJustTaken, IsExactRollback, AreCausesOf, RemovesOfRun};
ghost use Rattle.cdb_rules.specs.Step.{is_among};
ghost use Rattle.cdb_rules.specs.Views.{seen_as};
ghost use Rattle.cdb_run.specs.Found.{IsFound};

use crate::shown::view_of;
use cdb_alpha::Alpha;
use cdb_base::{
    Act, CopyName, Event, MsgName, NoMemory, Proc, ProcView, Refusal, Reg, StepId, Val,
};
use cdb_leader::Leader;
use cdb_message::mail::Mail;
use cdb_register::Registers;
use cdb_rules::{EventRef, Runs};
use cdb_run::Run;
use cdb_standing::History;
use smallvec::SmallVec;
use std::alloc::Global;
use std::marker::Model;

/// A run by its machine.
#[derive(Drop)]
pub(crate) enum ByMachine {
    Leader(Run<Leader>),
    Alpha(Run<Alpha>),
}

/// A run of the algorithm that its setup names. A contract sees its setup and its standing events, and what it returns
/// and shows is what the rules of the setup say of these events, one set of rules for both algorithms.
///
/// Promise: What is promised of a run holds by the rules of the algorithm that the setup names, whichever it is.
#[derive(Drop)]
pub struct AnyRun {
    pub(crate) run: ByMachine,
}

impl Model for AnyRun {
    ghost use Rattle.cdb_any_run.specs.Any.{run_view, IsTrueToSetup};
    ghost use Rattle.cdb_rules.specs.RunView.{RunView};

    ghost Value = { RunView };

    ghost view = { λ fields. run_view fields.run };

    ghost invariant = { λ fields. IsTrueToSetup fields.run };
}

impl AnyRun {
    /// Takes the step of process `p` that an act names, or returns the first refusal that holds:
    /// `NoProcess`, `Crashed`, `Done`, `NotNow`, `NoMessage`, `Taken`, `BadLeader`, `NoAnswer`,
    /// `StepLimit` or `Lost`, in this order. After a refusal and after `NoMemory` the run is as it was.
    pub fn step(
        &mut self,
        alloc: Global,
        p: u32,
        act: Act,
    ) -> Result<Result<Event, Refusal>, NoMemory>
        ensures returns { IfOk result (λ r. r ≡ result_of_step rules self.old p act) }
        ensures after { IfOk result (λ r. self.new ≡ with_result self.old r) }
        ensures undoable { IfOk result (λ r. IfOk r (λ e. IsJustTaken self.new e self.old)) }
        ensures err { OnErr result (self.new ≡ self.old) }
        ensures memory { OnErr result (IsOk (result_of_step rules self.old p act)) }
    {
        by_machine!(&mut self.run, run => run.step(alloc, p, act))
    }

    /// Takes the first step of process `p`, from 1 to their number, that `auto` tries and that is not refused, or
    /// returns `Idle`. After a refusal and after `NoMemory` the run is as it was.
    #[inline(always)]
    pub fn step_first(&mut self, alloc: Global, p: u32) -> Result<Result<Event, Refusal>, NoMemory>
        requires { is_among self.old.setup.processes p ≡ true }
        ensures returns { IfOk result (λ r. r ≡ first_step_by rules self.old p) }
        ensures after { IfOk result (λ r. self.new ≡ with_result self.old r) }
        ensures undoable { IfOk result (λ r. IfOk r (λ e. IsJustTaken self.new e self.old)) }
        ensures err { OnErr result (self.new ≡ self.old) }
        ensures memory { OnErr result (IsOk (first_step_by rules self.old p)) }
    {
        by_machine!(&mut self.run, run => run.step_first(alloc, p))
    }

    /// Whether a run of this setup can have the event, which `again` asks of whoever calls it: a step of one of its
    /// processes, with a number that a step can have, where a query names one of them; or in version 2 the loss of a
    /// copy for one of them.
    pub fn is_of_run(&self, event: &Event) -> bool
        ensures { IsTrue result ↔ IsOfRun self.now.setup event.now }
    {
        by_machine!(&self.run, run => run.is_of_run(event))
    }

    /// Takes an undone event of the run again, at the end of the history, or returns the first
    /// refusal that holds: of a step `Moved`, `Crashed`, `Done`, `NotNow`, `NoMessage`, `Taken` or
    /// `Lost`, of a loss `NoMessage`, `Taken` or `Lost`, in this order. A step reads what stands now.
    /// After a refusal and after `NoMemory` the run is as it was.
    pub fn again(
        &mut self,
        alloc: Global,
        event: &Event,
    ) -> Result<Result<Event, Refusal>, NoMemory>
        requires { IsOfRun self.old.setup event.now }
        ensures returns { IfOk result (λ r. r ≡ result_of_again rules self.old event.now) }
        ensures taken { IfOk result (λ r. IsOk r ↔ IsNext rules self.old event.now) }
        ensures after { IfOk result (λ r. self.new ≡ with_result self.old r) }
        ensures undoable { IfOk result (λ r. IfOk r (λ e. IsJustTaken self.new e self.old)) }
        ensures err { OnErr result (self.new ≡ self.old) }
        ensures memory { OnErr result (IsOk (result_of_again rules self.old event.now)) }
    {
        by_machine!(&mut self.run, run => run.again(alloc, event))
    }

    /// Loses the copy of the `m`-th message of process `s` for process `p`, or returns the first
    /// refusal that holds: `NoLoss`, `NoProcess` of `p`, `NoMessage`, `Taken` or `Lost`, in this
    /// order. After a refusal and after `NoMemory` the run is as it was.
    pub fn lose(
        &mut self,
        alloc: Global,
        s: u32,
        m: u32,
        p: u32,
    ) -> Result<Result<Event, Refusal>, NoMemory>
        ensures returns { IfOk result (λ r. r ≡ result_of_loss rules self.old s m p) }
        ensures after { IfOk result (λ r. self.new ≡ with_result self.old r) }
        ensures undoable { IfOk result (λ r. IfOk r (λ e. IsJustTaken self.new e self.old)) }
        ensures err { OnErr result (self.new ≡ self.old) }
        ensures memory { OnErr result (IsOk (result_of_loss rules self.old s m p)) }
    {
        by_machine!(&mut self.run, run => run.lose(alloc, s, m, p))
    }

    /// Undoes an event, whatever came later in time, or returns the first refusal that holds: `NoProcess`, `NoStep`,
    /// or `NeededBy` the first standing event that depends on it. After a refusal the run is as it was. It takes no
    /// memory. What it returns may be given to `again`.
    pub fn undo_event(&mut self, event: EventRef) -> Result<Event, Refusal>
        ensures returns { result ≡ result_of_undo self.old (name_given event) }
        ensures after { self.new ≡ after_undo self.old (name_given event) }
        ensures free { IsOk result ↔ CanUndo self.old (name_given event) }
        ensures back { IfOk result (λ event. LeadsTo rules self.new event self.old) }
        ensures of_run { IfOk result (IsOfRun self.old.setup) }
    {
        by_machine!(&mut self.run, run => run.undo_event(event))
    }

    /// Undoes the `k`-th step of process `p`, as `undo_event` does.
    pub fn undo(&mut self, p: u32, k: u32) -> Result<Event, Refusal>
        ensures returns { result ≡ result_of_undo self.old (step_name p k) }
        ensures after { self.new ≡ after_undo self.old (step_name p k) }
        ensures free { IsOk result ↔ CanUndo self.old (step_name p k) }
        ensures back { IfOk result (λ event. LeadsTo rules self.new event self.old) }
        ensures of_run { IfOk result (IsOfRun self.old.setup) }
    {
        self.undo_event(EventRef::Step(p, k))
    }

    /// Undoes the loss of the copy for process `p` of the `m`-th message of process `s`, as `undo_event` does.
    pub fn undo_lost(&mut self, s: u32, m: u32, p: u32) -> Result<Event, Refusal>
        ensures returns { result ≡ result_of_undo self.old (loss_name s m p) }
        ensures after { self.new ≡ after_undo self.old (loss_name s m p) }
        ensures free { IsOk result ↔ CanUndo self.old (loss_name s m p) }
        ensures back { IfOk result (λ event. LeadsTo rules self.new event self.old) }
        ensures of_run { IfOk result (IsOfRun self.old.setup) }
    {
        self.undo_event(EventRef::Lost(s, m, p))
    }

    /// Removes an event with its consequences, adds what was removed to the end of a list, the last first, and
    /// returns how many events that are; or returns the first refusal that holds: `NoProcess` or `NoStep`. After a
    /// refusal and after `NoMemory` run and list are as they were. A refusal takes no memory. What it adds may be given
    /// to `again`.
    pub fn rollback_event(
        &mut self,
        alloc: Global,
        event: EventRef,
        removed: &mut Vec<Event>,
    ) -> Result<Result<usize, Refusal>, NoMemory>
        ensures rolled_back { RollsBackOnto self.old self.new (name_given event) removed.old.items
            removed.new.items result }
        ensures exact { OnOk result (IsExactRollback self.old (name_given event) self.new) }
        ensures again { OnOk result (RollbackLeadsBack self.old (name_given event) self.new) }
        ensures of_run { RemovesOfRun self.old (name_given event) }
        ensures capacity { vec_capacity removed.old ≤ vec_capacity removed.new }
        ensures err { OnErr result (self.new ≡ self.old) }
    {
        by_machine!(&mut self.run, run => run.rollback_event(alloc, event, removed))
    }

    /// Removes the `k`-th step of process `p` with its consequences, and returns what was
    /// removed, the last first; or returns the first refusal that holds: `NoProcess` or `NoStep`. After a
    /// refusal and after `NoMemory` the run is as it was. What it returns may be given to `again`.
    pub fn rollback(
        &mut self,
        alloc: Global,
        p: u32,
        k: u32,
    ) -> Result<Result<Vec<Event>, Refusal>, NoMemory>
        ensures returns { IfOk result
            (λ r. MapsTo vec_items r (result_of_rollback self.old (step_name p k))) }
        ensures after { OnOk result (self.new ≡ after_rollback self.old (step_name p k)) }
        ensures exact { OnOk result (IsExactRollback self.old (step_name p k) self.new) }
        ensures again { LeadsBack self.new result self.old }
        ensures of_run { IfOk result
            (λ r. IfOk r (λ removed. All (IsOfRun self.old.setup) removed.items)) }
        ensures err { OnErr result (self.new ≡ self.old) }
        ensures memory { OnErr result (IsOk (result_of_rollback self.old (step_name p k))) }
    {
        by_machine!(&mut self.run, run => run.rollback(alloc, p, k))
    }

    /// Removes the loss of the copy for process `p` of the `m`-th message of process `s` with its
    /// consequences, and returns what was removed, the last first; or returns the first refusal
    /// that holds: `NoProcess` of `s` or `p`, or `NoStep`. After a refusal and after `NoMemory` the run
    /// is as it was. What it returns may be given to `again`.
    pub fn rollback_lost(
        &mut self,
        alloc: Global,
        s: u32,
        m: u32,
        p: u32,
    ) -> Result<Result<Vec<Event>, Refusal>, NoMemory>
        ensures returns { IfOk result
            (λ r. MapsTo vec_items r (result_of_rollback self.old (loss_name s m p))) }
        ensures after { OnOk result (self.new ≡ after_rollback self.old (loss_name s m p)) }
        ensures exact { OnOk result (IsExactRollback self.old (loss_name s m p) self.new) }
        ensures again { LeadsBack self.new result self.old }
        ensures of_run { IfOk result
            (λ r. IfOk r (λ removed. All (IsOfRun self.old.setup) removed.items)) }
        ensures err { OnErr result (self.new ≡ self.old) }
        ensures memory { OnErr result (IsOk (result_of_rollback self.old (loss_name s m p))) }
    {
        by_machine!(&mut self.run, run => run.rollback_lost(alloc, s, m, p))
    }

    /// The name of a standing event; or the first refusal that holds: `NoProcess` or `NoStep`.
    pub(crate) fn find(&self, event: EventRef) -> Result<StepId, Refusal>
        ensures { IsFound self.now (name_given event) result }
    {
        by_machine!(&self.run, run => run.find(event))
    }

    /// The direct causes of a standing event, in order of process, at most one of each; or the first refusal that
    /// holds: `NoProcess` or `NoStep`. It takes no memory.
    pub fn causes_of(&self, alloc: Global, event: EventRef) -> Result<SmallVec<StepId, 9>, Refusal>
        ensures returns { MapsTo (λ c. c.items) result (causes_in self.now (name_given event)) }
        ensures direct { IfOk result (λ c. AreCausesOf self.now (name_given event) c.items) }
    {
        by_machine!(&self.run, run => run.causes_of(alloc, event))
    }

    /// The direct causes of the `k`-th step of process `p`, as `causes_of` returns them.
    pub fn causes(&self, alloc: Global, p: u32, k: u32) -> Result<SmallVec<StepId, 9>, Refusal>
        ensures returns { MapsTo (λ c. c.items) result (causes_in self.now (step_name p k)) }
        ensures direct { IfOk result (λ c. AreCausesOf self.now (step_name p k) c.items) }
    {
        self.causes_of(alloc, EventRef::Step(p, k))
    }

    /// The standing events, in the order in which they were taken: each was enabled in its turn. The steps of a
    /// process are numbered in this order, and so are the messages that it sends.
    pub fn history(&self) -> &History
        ensures events { result.now ≡ self.now.history }
        ensures valid { IsInOrder rules self.now }
        ensures steps { AreStepsNumbered self.now.history }
        ensures sends { AreSendsNumbered self.now.history }
    {
        by_machine!(&self.run, run => run.history())
    }

    /// The process of that number, where the run has it.
    pub fn process(&self, p: u32) -> Option<Proc>
        ensures number { IsNumberAmong self.now.setup.processes p result }
        ensures none { IfNone result (process_in rules self.now p ≡ None) }
    {
        by_machine!(&self.run, run => run.process(p))
    }

    /// A process of the run as it is shown.
    pub(crate) fn view_of(&self, p: Proc) -> ProcView
        requires { p ≤ self.now.setup.processes }
        ensures { option_map (seen_as self.now.setup p) (process_in rules self.now p)
            ≡ Some result }
    {
        by_machine!(&self.run, run => view_of(run, p))
    }

    /// Whether no crash of the process stands.
    pub fn alive(&self, p: Proc) -> bool
        requires { p ≤ self.now.setup.processes }
        ensures { alive_in rules self.now p ≡ Some result }
    {
        self.view_of(p).alive
    }

    /// How many steps of the process stand.
    pub fn steps(&self, p: Proc) -> u32
        requires { p ≤ self.now.setup.processes }
        ensures { steps_in rules self.now p ≡ Some result }
    {
        self.view_of(p).steps
    }

    /// How many queries of the process stand.
    pub fn queries(&self, p: Proc) -> u32
        requires { p ≤ self.now.setup.processes }
        ensures { queries_in rules self.now p ≡ Some result }
    {
        self.view_of(p).queries
    }

    /// The number of the place in its machine's table at which the process stands: of the leader machine 0 to
    /// 6, of the Alpha machine 0 to 9.
    pub fn place(&self, p: Proc) -> u8
        requires { p ≤ self.now.setup.processes }
        ensures { place_in rules self.now p ≡ Some result }
    {
        self.view_of(p).place
    }

    /// The round that the process is in.
    pub fn round(&self, p: Proc) -> u32
        requires { p ≤ self.now.setup.processes }
        ensures { round_in rules self.now p ≡ Some result }
    {
        self.view_of(p).round
    }

    /// The value that the process has decided, if it has.
    pub fn decision(&self, p: Proc) -> Option<Val>
        requires { p ≤ self.now.setup.processes }
        ensures { decision_in rules self.now p ≡ Some result }
    {
        self.view_of(p).decision
    }

    /// The mail as it stands.
    pub(crate) fn its_mail(&self) -> &Mail
        ensures mail { result.now ≡ mail_in rules self.now }
        ensures receivers { length result.now.received ≡ self.now.setup.processes }
    {
        by_machine!(&self.run, run => run.mail())
    }

    /// The registers as they stand.
    pub(crate) fn its_registers(&self) -> &Registers
        ensures { result.now ≡ registers_in rules self.now }
    {
        by_machine!(&self.run, run => run.registers())
    }

    /// How many writes of the register stand, where the run has it: Alpha alone has registers.
    pub fn writes(&self, register: Reg) -> Option<u32>
        ensures { result ≡ writes_in rules self.now register }
    {
        Some(self.its_registers().state(register)?.writes)
    }

    /// The least name above `after`, by sender and number, of a message that was sent and whose copy
    /// for process `p` was neither received nor lost.
    pub fn pending(&self, p: Proc, after: Option<MsgName>) -> Option<MsgName>
        requires { p ≤ self.now.setup.processes }
        ensures { result ≡ next_pending (mail_in rules self.now) p after }
    {
        self.its_mail().pending(p, after)
    }

    /// Whether the copy is lost.
    pub fn lost(&self, copy: CopyName) -> bool
        ensures { result ≡ is_lost (mail_in rules self.now) copy }
    {
        self.its_mail().lost(copy.to, copy.msg)
    }

    /// Whether both runs are in the same state, that is, whether their histories are equal up to
    /// exchange of neighbours that do not depend on each other. It takes no memory.
    pub fn same_run(&self, other: &AnyRun) -> bool
        requires { self.now.setup ≡ other.now.setup }
        ensures state { IsTrue result ↔ AreInSameState self.now other.now }
        ensures exchange { IsTrue result
            ↔ IsExchanged depends self.now.history other.now.history }
    {
        match (&self.run, &other.run) {
            (ByMachine::Leader(run), ByMachine::Leader(other)) => run.same_run(other),
            (ByMachine::Alpha(run), ByMachine::Alpha(other)) => run.same_run(other),
            _ => unreachable!(),
        }
    }

    /// Each process that has decided with its value, by the machine.
    fn decided(&self, alloc: Global) -> Result<Vec<(Proc, Val)>, NoMemory>
        ensures { IfOk result (λ v. v.items ≡ decisions_in rules self.now) }
    {
        by_machine!(&self.run, run => run.decisions(alloc))
    }

    /// The decisions that stand: each process that has decided with its value, in order. No two values
    /// differ, unless the algorithm is the leader-based one and a quorum at most half of the processes, and
    /// each was the input of a process. `NoMemory` if a growth is refused.
    pub fn decisions(&self, alloc: Global) -> Result<Vec<(Proc, Val)>, NoMemory>
        ensures value { IfOk result (λ v. v.items ≡ decisions_in rules self.now) }
        ensures agreement { IfOk result
            (λ found. HasMajorityIfNeeded self.now.setup → AllAgree found.items) }
        ensures validity { IfOk result (λ found. AreProposed self.now.setup found.items) }
    {
        let _ranges = self.setup().n();
        let _valid = self.history();
        self.decided(alloc)
    }
}
