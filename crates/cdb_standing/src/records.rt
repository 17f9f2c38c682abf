//! The standing events with what restores the state before each.

ghost use Rattle.std.specs.Prelude.{◌≡◌, [], ◌∷◌, ◌++◌, Ok, IsTrue, IfErr, IfOk, OnOk, OnErr, ◌↔◌};
ghost use Rattle.std.specs.Fn.{FnOnceReturnsAtMut, FnOnceTakesAtMut};
ghost use Rattle.cdb_base.specs.declared.event.Event.TheVariants.{Step, Lost};
ghost use Rattle.cdb_base.specs.declared.name.StepId.TheVariants as named;
ghost use Rattle.cdb_causal.specs.FailedChange.{HasFailed};
ghost use Rattle.cdb_causal.specs.Names.{IsNewName};
ghost use Rattle.cdb_standing.specs.Moves.{MayCome, IsFreeAlone};
ghost use Rattle.cdb_standing.specs.Recorded.{events_of, nothing, recorded_of, IsAddedBy, IsRecordTakenOut};
ghost use Rattle.cdb_standing.specs.Recorded.{IsLastOf, TakesFree, IsCountOf, IsZeroWhereFree};

use crate::history::History;
use crate::positions::count_direct;
use crate::recorded::{Recorded, UndoData};
use crate::table::{empty_rows, put_on, reserve_in, steps_more, take_last};
use cdb_base::{CopyName, Event, Kind, NoMemory, Proc, StepId, StepName};
use std::alloc::Global;
use std::marker::Model;

/// Whether the event of that name stands, and none depends on it.
fn is_free(history: &History, name: StepId) -> bool
    ensures { IsTrue result ↔ IsFreeAlone history.now name }
{
    let again = name;
    match history.find(again) {
        None => false,
        Some(_) => match history.first_dependent(name) {
            Some(_) => false,
            None => true,
        },
    }
}

/// The standing events, each with what restores the state before it. A contract sees the list of recorded events, in
/// the order in which they were taken.
///
/// Promise: An event is added with what its change left, or nothing is; what is taken out is what stood there; the
/// count of an event is how many depend on it directly, 0 exactly where it is free.
#[derive(Drop)]
pub struct Records<B: Drop> {
    history: History,
    /// By process, what its standing steps left, the last on top.
    left: Vec<Vec<UndoData<B>>>,
}

impl<B: Drop> Model for Records<B> {
    ghost use Rattle.std.specs.Prelude.{List};
    ghost use Rattle.cdb_standing.specs.UndoDataLists.{recorded_with, AreBeside};
    ghost use Rattle.cdb_standing.specs.Tables.{rows_in};
    ghost use Rattle.cdb_standing.specs.declared.recorded.Recorded.{Recorded};

    ghost Value = { List (Recorded B) };

    ghost view = { λ records. recorded_with (rows_in records.left.items) records.history };

    ghost invariant = { λ records. AreBeside (rows_in records.left.items) records.history };
}

impl<B: Drop> Records<B> {
    /// The records of a run in which nothing has happened.
    pub fn new(alloc: Global) -> Result<Self, NoMemory>
        ensures { IfOk result (λ records. records ≡ []) }
    {
        let history = History::new(alloc)?;
        let left = empty_rows(alloc, 9)?;
        Ok(Records { history, left })
    }

    /// The standing events.
    #[tactic(auto, using(crate::proofs::Beside::history_seen))]
    pub fn history(&self) -> &History
        ensures { result.now ≡ events_of self.now }
    {
        &self.history
    }

    /// The standing events, without what takes them back.
    #[tactic(auto, using(crate::proofs::Beside::history_seen))]
    pub fn into_history(self) -> History
        ensures { result ≡ events_of self }
    {
        let Records { history, .. } = self;
        history
    }

    /// Changes a state as the `k`-th step of process `p` does, which is its next, and adds the step at the end, with
    /// what `change` returns for taking it back: makes room for both, then calls `change`, then adds them, which takes
    /// no memory. Where there is no room, and where `change` fails, nothing is added.
    #[inline(always)]
    pub fn push_with<S, F: FnOnce(&mut S) -> Result<UndoData<B>, NoMemory>>(
        &mut self,
        p: Proc,
        k: u16,
        kind: Kind,
        state: &mut S,
        change: F,
    ) -> Result<(), NoMemory>
        requires may { MayCome (events_of self.old) (Step p k kind) }
        requires callable { FnOnceTakesAtMut F.FnOnce change state.old }
        ensures ok { OnOk result
            (IsAddedBy F.FnOnce change state.old state.new (Step p k kind) self.old self.new) }
        ensures failed { IfErr result (λ e. HasFailed F.FnOnce change state.old e state.new) }
        ensures err { OnErr result (self.new ≡ self.old) }
    {
        let i = p.index();
        let count = self.history.steps_of(p);
        reserve_in(&mut self.left, i, steps_more(count as usize))?;
        let left = self.history.push_step_with(p, k, kind, state, change)?;
        put_on(&mut self.left, i, left);
        Ok(())
    }

    /// Changes a state as the loss of a copy does, which was neither received nor lost, and adds the loss at the end,
    /// which leaves nothing: calls `change`, then adds it. Where `change` fails, or there is no room, nothing is added.
    pub fn push_loss_with<S, F: FnOnce(&mut S) -> Result<(), NoMemory>>(
        &mut self,
        copy: CopyName,
        state: &mut S,
        change: F,
    ) -> Result<(), NoMemory>
        requires may { MayCome (events_of self.old) (Lost copy) }
        requires callable { FnOnceTakesAtMut F.FnOnce change state.old }
        ensures changed { IfOk result
            (λ done. FnOnceReturnsAtMut F.FnOnce change state.old (Ok done) state.new) }
        ensures added { OnOk result (self.new ≡ self.old ++ recorded_of (Lost copy) nothing ∷ []) }
        ensures failed { IfErr result (λ e. HasFailed F.FnOnce change state.old e state.new) }
        ensures err { OnErr result (self.new ≡ self.old) }
    {
        self.history.push_loss_with(copy, state, change)?;
        Ok(())
    }

    /// Adds the `k`-th step of process `p`, which is its next, at the end, with what it left. After `NoMemory` nothing
    /// is added, and what it left is given up.
    pub fn push(&mut self, p: Proc, k: u16, kind: Kind, left: UndoData<B>) -> Result<(), NoMemory>
        requires { MayCome (events_of self.old) (Step p k kind) }
        ensures ok { OnOk result (self.new ≡ self.old ++ recorded_of (Step p k kind) left ∷ []) }
        ensures err { OnErr result (self.new ≡ self.old) }
    {
        self.push_with(p, k, kind, &mut (), |_| Ok(left))
    }

    /// Adds the loss of a copy at the end, which was neither received nor lost; it leaves nothing. After `NoMemory`
    /// nothing is added.
    pub fn push_loss(&mut self, copy: CopyName) -> Result<(), NoMemory>
        requires { MayCome (events_of self.old) (Lost copy) }
        ensures ok { OnOk result (self.new ≡ self.old ++ recorded_of (Lost copy) nothing ∷ []) }
        ensures err { OnErr result (self.new ≡ self.old) }
    {
        self.push_loss_with(copy, &mut (), |_| Ok(()))
    }

    /// How many standing events have the event of that name as a direct cause: 0 exactly where none depends on it, and
    /// 0 where no event has the name. The history is listed for it, which takes memory.
    pub fn count_of(&self, alloc: Global, name: StepId) -> Result<usize, NoMemory>
        ensures count { IfOk result (IsCountOf (events_of self.now) name) }
        ensures free { IfOk result (IsZeroWhereFree (events_of self.now) name) }
        ensures none { IfOk result (λ count. IsNewName (events_of self.now) name → count ≡ 0) }
    {
        match self.history.position(alloc, name)? {
            Some(at) => Ok(count_direct(&self.history.to_vec(alloc)?, at)),
            None => Ok(0),
        }
    }

    /// Takes out the last step of a process, on which nothing depends, and returns what it did and what it left. It
    /// takes no memory.
    pub fn take_step(&mut self, p: Proc, k: u16) -> (Kind, UndoData<B>)
        requires { IsFreeAlone (events_of self.old) (named.Step (record { p = p; k = k })) }
        ensures { IsRecordTakenOut self.old (named.Step (record { p = p; k = k }))
            (recorded_of (Step p k result.0) result.1) self.new }
    {
        let _count = self.history.steps_of(p);
        let kind = self.history.take_step(p, k);
        let left = take_last(&mut self.left, p.index());
        (kind, left)
    }

    /// Takes out the loss of a copy. It takes no memory.
    pub fn take_loss(&mut self, copy: CopyName)
        requires { IsFreeAlone (events_of self.old) (named.Lost copy) }
        ensures { IsRecordTakenOut self.old (named.Lost copy) (recorded_of (Lost copy) nothing) self.new }
    {
        self.history.take_loss(copy);
    }

    /// Takes the last step of a process out, where one stands and nothing depends on it; else nothing changes. It takes
    /// no memory.
    pub fn take_last_of(&mut self, p: Proc) -> Option<Recorded<B>>
        ensures { TakesFree (IsLastOf (events_of self.old) p) result self.old self.new }
    {
        let k = self.history.steps_of(p);
        if !is_free(&self.history, StepId::Step(StepName { p, k })) {
            return None;
        }
        let (kind, left) = self.take_step(p, k);
        let UndoData { back, overwritten } = left;
        Some(Recorded {
            event: Event::Step { p, k, kind },
            back,
            overwritten,
        })
    }

    /// Takes the loss of a copy out, where it stands; else nothing changes. It takes no memory.
    pub fn take_lost(&mut self, copy: CopyName) -> Option<Recorded<B>>
        ensures { TakesFree (λ name. name ≡ named.Lost copy) result self.old self.new }
    {
        let again = copy;
        let event = Event::Lost(copy);
        if !is_free(&self.history, event.name()) {
            return None;
        }
        self.take_loss(again);
        Some(Recorded {
            event,
            back: None,
            overwritten: None,
        })
    }
}
