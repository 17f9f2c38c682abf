//! The standing events.

ghost use Rattle.std.specs.Prelude.{◌≡◌, ℕ, ◌+◌, ◌-◌, ◌<◌, ◌≤◌, [], ◌∷◌, ◌++◌, Ok, IfOk, IfErr};
ghost use Rattle.std.specs.Prelude.{OnOk, OnErr, IsTrue, MatchOption, length, ◌↔◌};
ghost use Rattle.std.specs.Fn.{FnOnceReturnsAtMut, FnOnceTakesAtMut};
ghost use Rattle.cdb_base.specs.declared.event.Event.TheVariants.{Step, Lost};
ghost use Rattle.cdb_causal.specs.FailedChange.{HasFailed};
ghost use Rattle.cdb_base.specs.declared.name.StepId.TheVariants as named;
ghost use Rattle.cdb_causal.specs.DirectCauses.{AreDirectCauses};
ghost use Rattle.cdb_causal.specs.Names.{IsNamedAt, IsNewName, IsFirstDependentOrFree};
ghost use Rattle.cdb_causal.specs.Dependence.{depends as depends_of};
ghost use Rattle.cdb_causal.specs.Rollback.{rolled_back};
ghost use Rattle.cdb_standing.specs.Comparisons.{steps_by, AreNumbered, AreWritesBefore, LoseSame};
ghost use Rattle.cdb_standing.specs.LedTo.{IsPastOfName};
ghost use Rattle.cdb_standing.specs.Moves.{IsNextStep, MayDo, IsPending, MayCome, IsEndOf, IsStandingName};
ghost use Rattle.cdb_standing.specs.Moves.{IsFreeAlone, IsNamed, IsTakenOut};

use crate::accesses::number_of;
use crate::add::{add_loss, add_step, reserve_mark, reserve_step};
use crate::causes::causes_in;
use crate::compare::{have_same_losses, writes_before};
use crate::cuts::{cuts_at, past_in};
use crate::dependents::first_of_step;
use crate::find::find_in;
use crate::may::{is_next_step, is_pending, may_do};
use crate::order::{in_order, one_event};
use crate::table::{empty_rows, item, row};
use crate::tables::Tables;
use crate::take::{take_loss, take_step};
use cdb_base::{CopyName, Event, Kind, NoMemory, Proc, Reg, StepId};
use smallvec::SmallVec;
use std::alloc::Global;
use std::marker::Model;

/// The standing events, each under a name of its own. A contract sees their list.
///
/// Promise: A history is a list of events as a run can take them, and each call leaves it as the list's own would: an
/// event is added at the end, and taken out where nothing depends on it. Memory that is refused changes nothing.
#[derive(Drop)]
pub struct History {
    tables: Tables,
    /// How many events stand.
    count: usize,
}

impl Model for History {
    ghost use Rattle.std.specs.Prelude.{List};
    ghost use Rattle.cdb_base.specs.declared.event.Event.{Event};
    ghost use Rattle.cdb_standing.specs.Kept.{AreCounted};
    ghost use Rattle.cdb_standing.specs.Tables.{history_in};

    ghost Value = { List Event };

    ghost view = { λ s. history_in s.tables };

    ghost invariant = { λ s. AreCounted s.tables s.count };
}

impl History {
    /// Of a run in which nothing has happened.
    pub fn new(alloc: Global) -> Result<Self, NoMemory>
        ensures { IfOk result (λ standing. standing ≡ []) }
    {
        let steps = empty_rows(alloc, 9)?;
        let sent = empty_rows(alloc, 9)?;
        let accesses = empty_rows(alloc, 99)?;
        let writes = empty_rows(alloc, 99)?;
        Ok(History {
            tables: Tables {
                next: 0,
                steps,
                sent,
                accesses,
                writes,
            },
            count: 0,
        })
    }

    /// How many events stand.
    pub fn len(&self) -> usize
        ensures { result ≡ length self.now }
    {
        self.count
    }

    /// Changes a state as a step does, and adds the step at the end: makes room for it, then calls `change`, then adds
    /// it, which takes no memory. Where there is no room, or `change` fails, nothing is added.
    #[tactic(auto, using(crate::proofs::Held::history_same))]
    #[inline(always)]
    pub fn push_step_with<S, R, F: FnOnce(&mut S) -> Result<R, NoMemory>>(
        &mut self,
        p: Proc,
        k: u16,
        kind: Kind,
        state: &mut S,
        change: F,
    ) -> Result<R, NoMemory>
        requires next { IsNextStep self.old p k }
        requires may { MayDo self.old p kind }
        requires callable { FnOnceTakesAtMut F.FnOnce change state.old }
        ensures changed { IfOk result
            (λ left. FnOnceReturnsAtMut F.FnOnce change state.old (Ok left) state.new) }
        ensures added { OnOk result (self.new ≡ self.old ++ Step p k kind ∷ []) }
        ensures failed { IfErr result (λ e. HasFailed F.FnOnce change state.old e state.new) }
        ensures err { OnErr result (self.new ≡ self.old) }
    {
        reserve_step(&mut self.tables, p, &kind)?;
        let _number = p.number();
        let left = change(state)?;
        add_step(&mut self.tables, p, k, &kind);
        self.count += 1;
        Ok(left)
    }

    /// The name of the first event that depends on the one of that name, which stands. None says that
    /// none does.
    pub fn first_dependent(&self, name: StepId) -> Option<StepId>
        requires { IsStandingName self.now name }
        ensures { (at : ℕ) → IsNamedAt self.now at name → IsFirstDependentOrFree self.now at result }
    {
        match name {
            StepId::Step(step) => first_of_step(&self.tables, step.p, step.k),
            StepId::Lost(_) => None,
        }
    }

    /// Of each process the number up to which its steps led to the event of that name, which stands: the event itself,
    /// and each from which a chain of dependences leads to it.
    pub fn past(&self, name: StepId) -> [usize; 9]
        requires { IsStandingName self.now name }
        ensures { IsPastOfName self.now name result }
    {
        past_in(&self.tables, &name)
    }

    /// The names of the direct causes of the event of that name, which stands: of the earlier events on which it
    /// depends, those with no event between that depends on such an event and has it depend on itself. They are steps,
    /// by process, at most one of each, so nine cells suffice, and no memory is taken.
    pub fn direct_causes(&self, alloc: Global, name: StepId) -> SmallVec<StepId, 9>
        requires { IsStandingName self.now name }
        ensures { (at : ℕ) → IsNamedAt self.now at name → AreDirectCauses self.now at result.items }
    {
        causes_in(alloc, &self.tables, &name)
    }

    /// Changes a state as the loss of a copy does, and adds the loss at the end: of a message that was sent, to a
    /// process that has neither received nor lost it. `change` is called before it is added. Where `change` fails, or
    /// no mark is left, nothing is added.
    pub fn push_loss_with<S, R, F: FnOnce(&mut S) -> Result<R, NoMemory>>(
        &mut self,
        copy: CopyName,
        state: &mut S,
        change: F,
    ) -> Result<R, NoMemory>
        requires pending { IsPending self.old copy.to copy.msg.s copy.msg.m }
        requires callable { FnOnceTakesAtMut F.FnOnce change state.old }
        ensures changed { IfOk result
            (λ left. FnOnceReturnsAtMut F.FnOnce change state.old (Ok left) state.new) }
        ensures added { OnOk result (self.new ≡ self.old ++ Lost copy ∷ []) }
        ensures failed { IfErr result (λ e. HasFailed F.FnOnce change state.old e state.new) }
        ensures err { OnErr result (self.new ≡ self.old) }
    {
        reserve_mark(&self.tables)?;
        let _number = copy.to.number();
        let left = change(state)?;
        add_loss(&mut self.tables, &copy);
        self.count += 1;
        Ok(left)
    }

    /// Adds an event at the end: the next step of its process, or the loss of a copy that was neither received nor
    /// lost. Without memory nothing is added.
    pub fn push(&mut self, event: Event) -> Result<(), NoMemory>
        requires { MayCome self.old event }
        ensures ok { OnOk result (self.new ≡ self.old ++ event ∷ []) }
        ensures err { OnErr result (self.new ≡ self.old) }
    {
        match event {
            Event::Step { p, k, kind } => self.push_step_with(p, k, kind, &mut (), |_| Ok(())),
            Event::Lost(copy) => self.push_loss_with(copy, &mut (), |_| Ok(())),
        }
    }

    /// Whether an event may be added at the end: the next step of its process, which sends that process's next message,
    /// or receives a copy that was neither received nor lost, or does neither; or the loss of such a copy.
    pub fn may_come(&self, event: &Event) -> bool
        ensures { IsTrue result ↔ MayCome self.now event.now }
    {
        match event {
            Event::Step { p, k, kind } => {
                is_next_step(&self.tables, *p, *k) && may_do(&self.tables, *p, kind)
            }
            Event::Lost(copy) => is_pending(&self.tables, copy),
        }
    }

    /// The event of that name, if it stands.
    pub fn find(&self, name: StepId) -> Option<Event>
        ensures { MatchOption result (IsNewName self.now name) (IsNamed self.now name) }
    {
        find_in(&self.tables, &name)
    }

    /// How many steps of a process stand: those of the numbers from 1 to that one.
    pub fn steps_of(&self, p: Proc) -> u16
        ensures count { result ≡ length (steps_by p self.now) }
        ensures end { IsEndOf self.now p result }
        ensures numbered { AreNumbered p self.now }
    {
        row(&self.tables.steps, p).len() as u16
    }

    /// How many writes of a register stand before the `k`-th step of process `p`, which stands.
    pub fn writes_before(&self, register: Reg, p: Proc, k: u16) -> usize
        requires { IsStandingName self.now (named.Step (record { p = p; k = k })) }
        ensures { AreWritesBefore self.now register (named.Step (record { p = p; k = k })) result }
    {
        match item(&self.tables.steps, p, k) {
            Some(entry) => writes_before(&self.tables, number_of(&register), entry.mark),
            None => 0,
        }
    }

    /// Whether the same copies are lost in both.
    pub fn has_same_losses(&self, other: &History) -> bool
        ensures { IsTrue result ↔ LoseSame self.now other.now }
    {
        have_same_losses(&self.tables.sent, &other.tables.sent)
    }

    /// Takes out the last step of a process, on which nothing depends, and returns what it did. It takes no memory.
    #[inline(always)]
    pub fn take_step(&mut self, p: Proc, k: u16) -> Kind
        requires { IsFreeAlone self.old (named.Step (record { p = p; k = k })) }
        ensures taken { IsTakenOut self.old (named.Step (record { p = p; k = k })) (Step p k result)
            self.new }
        ensures was_last { IsEndOf self.old p k }
        ensures last { IsEndOf self.new p (k - 1) }
    {
        let entry = take_step(&mut self.tables, p);
        self.count -= 1;
        entry.kind
    }

    /// Takes out the loss of a copy. It takes no memory.
    pub fn take_loss(&mut self, copy: CopyName)
        requires { IsStandingName self.old (named.Lost copy) }
        ensures { IsTakenOut self.old (named.Lost copy) (Lost copy) self.new }
    {
        take_loss(&mut self.tables, &copy);
        self.count -= 1;
    }

    /// A copy of the standing events, in order.
    pub fn to_vec(&self, alloc: Global) -> Result<Vec<Event>, NoMemory>
        ensures { IfOk result (λ events. events.items ≡ self.now) }
    {
        in_order(alloc, &self.tables, &[0; 9])
    }

    /// The event of that name, which stands, with its consequences, in order.
    pub fn rolled_back(&self, alloc: Global, name: StepId) -> Result<Vec<Event>, NoMemory>
        requires { IsStandingName self.now name }
        ensures { IfOk result (λ events. (at : ℕ) → IsNamedAt self.now at name →
            events.items ≡ rolled_back depends_of self.now at) }
    {
        match name {
            StepId::Step(step) => {
                let cuts = cuts_at(&self.tables, true, step.p, step.k);
                in_order(alloc, &self.tables, &cuts)
            }
            StepId::Lost(copy) => one_event(alloc, Event::Lost(copy)),
        }
    }
}
