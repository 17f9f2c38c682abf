//! Steps and losses of a run, removed with their consequences, and why they cannot be removed
//! alone.

ghost use Rattle.std.specs.Prelude.{◌≡◌, ◌+◌, ◌<◌, ◌≤◌, [], ◌∷◌, ◌++◌, reverse, vec_len};
ghost use Rattle.std.specs.Prelude.{vec_capacity, All, Ok, IfOk, IsOk, OnOk, OnErr};
ghost use Rattle.std.specs.Vec.{vec_items};
ghost use Rattle.cdb_base.specs.Results.{MapsTo};
ghost use Rattle.cdb_rules.specs.EventRefs.{name_given};
ghost use Rattle.cdb_rules.specs.Refusals.{IsOfRun};
ghost use Rattle.cdb_rules.specs.Runs.{step_name, loss_name, AllLeadTo, RollsBackOnto, result_of_rollback, causes_in};
ghost use Rattle.cdb_rules.specs.Runs.{after_rollback, RollbackLeadsBack, IsExactRollback, AreCausesOf, RemovesOfRun};
ghost use Rattle.cdb_rules.specs.Undo.{number_removed, with_removed};
ghost use Rattle.cdb_standing.specs.Moves.{IsStandingName};

use crate::run::Run;
use cdb_base::{Event, Kind, NoMemory, Refusal, Reg, StepId};
use cdb_process::Process;
use cdb_rules::EventRef;
use smallvec::SmallVec;
use std::alloc::Global;

/// Adds an event to a list that has room for it.
fn push_reserved(events: &mut Vec<Event>, event: &Event)
    requires { vec_len events.old < vec_capacity events.old }
    ensures items { events.new.items ≡ events.old.items ++ event.now ∷ [] }
    ensures len { vec_len events.new ≡ vec_len events.old + 1 }
    ensures capacity { vec_capacity events.new ≡ vec_capacity events.old }
{
    // Names the types inside an event, which the check finds in no other part of the function.
    let _parts: (Option<Kind>, Option<Reg>) = (None, None);
    events.push_reserved(*event);
}

impl<P: Process> Run<P> {
    /// Removes the event of that name, which stands, with its consequences, the last first, and adds each to the end
    /// of a list. Returns how many events that are.
    fn roll_back(
        &mut self,
        alloc: Global,
        name: StepId,
        removed: &mut Vec<Event>,
    ) -> Result<usize, NoMemory>
        requires { IsStandingName self.old.history name }
        ensures number { IfOk result (λ n. Ok n ≡ number_removed (result_of_rollback self.old name)) }
        ensures after { OnOk result (self.new ≡ after_rollback self.old name) }
        ensures list { OnOk result (removed.new.items
            ≡ with_removed removed.old.items (result_of_rollback self.old name)) }
        ensures err { OnErr result (self.new ≡ self.old) }
        ensures list_err { OnErr result (removed.new.items ≡ removed.old.items) }
        ensures memory { OnErr result (IsOk (result_of_rollback self.old name)) }
        ensures capacity { vec_capacity removed.old ≤ vec_capacity removed.new }
    {
        self.proper();
        let mut events = self.history().rolled_back(alloc, name)?;
        let number = events.len();
        removed.reserve(number)?;
        while let Some(event) = events.pop() {
            self.restore(event.name());
            push_reserved(removed, &event);
        }
        Ok(number)
    }

    /// Removes an event with its consequences, and returns what was removed, the last first.
    fn rolled_back(
        &mut self,
        alloc: Global,
        event: EventRef,
    ) -> Result<Result<Vec<Event>, Refusal>, NoMemory>
        ensures returns { IfOk result
            (λ r. MapsTo vec_items r (result_of_rollback self.old (name_given event))) }
        ensures after { OnOk result (self.new ≡ after_rollback self.old (name_given event)) }
        ensures exact { OnOk result (IsExactRollback self.old (name_given event) self.new) }
        ensures again { IfOk result
            (λ r. IfOk r (λ removed. AllLeadTo P.table self.new (reverse removed.items) self.old)) }
        ensures of_run { IfOk result
            (λ r. IfOk r (λ removed. All (IsOfRun self.old.setup) removed.items)) }
        ensures err { OnErr result (self.new ≡ self.old) }
        ensures memory { OnErr result (IsOk (result_of_rollback self.old (name_given event))) }
    {
        let mut removed = Vec::new(alloc);
        match self.rollback_event(alloc, event, &mut removed)? {
            Ok(_) => Ok(Ok(removed)),
            Err(refusal) => Ok(Err(refusal)),
        }
    }

    /// Removes an event with its consequences, adds what was removed to the end of a list, the last first, and
    /// returns how many events that are; or returns the first refusal that holds: `NoProcess` or `NoStep`. After a
    /// refusal and after `NoMemory` run and list are as they were. A refusal takes no memory. What it adds may be given
    /// to `again`.
    ///
    /// Promise: A rollback removes an event with exactly its consequences, the least set that holds the event and each
    /// that depends on one of them; what it removed, taken again in order, leads to the state before. Memory that is
    /// refused changes neither the run nor the list.
    pub fn rollback_event(
        &mut self,
        alloc: Global,
        event: EventRef,
        removed: &mut Vec<Event>,
    ) -> Result<Result<usize, Refusal>, NoMemory>
        ensures rolled_back { RollsBackOnto self.old self.new (name_given event)
            removed.old.items removed.new.items result }
        ensures exact { OnOk result (IsExactRollback self.old (name_given event) self.new) }
        ensures again { OnOk result
            (RollbackLeadsBack P.table self.old (name_given event) self.new) }
        ensures of_run { RemovesOfRun self.old (name_given event) }
        ensures capacity { vec_capacity removed.old ≤ vec_capacity removed.new }
    {
        self.proper();
        match self.find(event) {
            Ok(name) => Ok(Ok(self.roll_back(alloc, name, removed)?)),
            Err(refusal) => Ok(Err(refusal)),
        }
    }

    /// Removes the `k`-th step of process `p` with its consequences, and returns what was removed, the last
    /// first; or returns the first refusal that holds: `NoProcess` or `NoStep`. After a refusal and after `NoMemory`
    /// the run is as it was. A refusal takes no memory. What it returns may be given to `again`.
    pub fn rollback(
        &mut self,
        alloc: Global,
        p: u32,
        k: u32,
    ) -> Result<Result<Vec<Event>, Refusal>, NoMemory>
        ensures returns { IfOk result
            (λ r. MapsTo vec_items r (result_of_rollback self.old (step_name p k))) }
        ensures after { OnOk result (self.new ≡ after_rollback self.old (step_name p k)) }
        ensures exact { OnOk result (IsExactRollback self.old (step_name p k) self.new) }
        ensures again { IfOk result
            (λ r. IfOk r (λ removed. AllLeadTo P.table self.new (reverse removed.items) self.old)) }
        ensures of_run { IfOk result
            (λ r. IfOk r (λ removed. All (IsOfRun self.old.setup) removed.items)) }
        ensures err { OnErr result (self.new ≡ self.old) }
        ensures memory { OnErr result (IsOk (result_of_rollback self.old (step_name p k))) }
    {
        self.rolled_back(alloc, EventRef::Step(p, k))
    }

    /// Removes the loss of the copy for process `p` of the `m`-th message of process `s` with its consequences, as
    /// `rollback` does a step.
    pub fn rollback_lost(
        &mut self,
        alloc: Global,
        s: u32,
        m: u32,
        p: u32,
    ) -> Result<Result<Vec<Event>, Refusal>, NoMemory>
        ensures returns { IfOk result
            (λ r. MapsTo vec_items r (result_of_rollback self.old (loss_name s m p))) }
        ensures after { OnOk result (self.new ≡ after_rollback self.old (loss_name s m p)) }
        ensures exact { OnOk result (IsExactRollback self.old (loss_name s m p) self.new) }
        ensures again { IfOk result
            (λ r. IfOk r (λ removed. AllLeadTo P.table self.new (reverse removed.items) self.old)) }
        ensures of_run { IfOk result
            (λ r. IfOk r (λ removed. All (IsOfRun self.old.setup) removed.items)) }
        ensures err { OnErr result (self.new ≡ self.old) }
        ensures memory { OnErr result (IsOk (result_of_rollback self.old (loss_name s m p))) }
    {
        self.rolled_back(alloc, EventRef::Lost(s, m, p))
    }

    /// The direct causes of a standing event, in order of process, at most one of each; or the first refusal that
    /// holds: `NoProcess` or `NoStep`. It takes no memory.
    pub fn causes_of(&self, alloc: Global, event: EventRef) -> Result<SmallVec<StepId, 9>, Refusal>
        ensures returns { MapsTo (λ causes. causes.items) result
            (causes_in self.now (name_given event)) }
        ensures direct { IfOk result
            (λ causes. AreCausesOf self.now (name_given event) causes.items) }
    {
        self.proper();
        let name = self.find(event)?;
        Ok(self.history().direct_causes(alloc, name))
    }

    /// The direct causes of the `k`-th step of process `p`, as `causes_of` returns them.
    pub fn causes(&self, alloc: Global, p: u32, k: u32) -> Result<SmallVec<StepId, 9>, Refusal>
        ensures returns { MapsTo (λ causes. causes.items) result
            (causes_in self.now (step_name p k)) }
        ensures direct { IfOk result (λ causes. AreCausesOf self.now (step_name p k) causes.items) }
    {
        self.causes_of(alloc, EventRef::Step(p, k))
    }
}
