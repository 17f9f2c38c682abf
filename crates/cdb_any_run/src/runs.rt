//! A run of the algorithm that its setup names, as one that keeps to the rules of its setup.

ghost use Rattle.std.specs.Prelude.{◌≡◌, ◌≤◌, ◌++◌, OnOk, option_to_list};
ghost use Rattle.cdb_agreement.proofs.Lawful.{rules_keep_histories, rules_are_lawful};
ghost use Rattle.cdb_agreement.specs.Algorithms.{rules as rules_of_setup};
ghost use Rattle.cdb_agreement.specs.SameState.{ReachSameState};
ghost use Rattle.cdb_rules.specs.ByRules.{mail_in};
ghost use Rattle.cdb_rules.specs.Views.{open_copies, shown_copy};

use crate::any::{AnyRun, ByMachine};
use cdb_base::{
    Act, Cell, Event, MsgName, NoMemory, Payload, Proc, ProcView, Refusal, Reg, StepId, Val,
};
use cdb_rules::{EventRef, Runs};
use cdb_run::Run;
use cdb_setup::{Algorithm, Setup};
use cdb_standing::History;
use smallvec::SmallVec;
use std::alloc::Global;

/// The copy of a message for a process, where the message was sent.
fn copy_of(run: &AnyRun, p: &Proc, name: &MsgName) -> Option<(Proc, MsgName, Payload)>
    ensures { option_to_list result
        ≡ shown_copy (mail_in rules_of_setup run.now) p.now name.now }
{
    let payload = run.payload(*name).copied()?;
    Some((*p, *name, payload))
}

/// Adds the copies that a process can still receive, in order.
fn push_open_copies(
    run: &AnyRun,
    p: &Proc,
    copies: &mut Vec<(Proc, MsgName, Payload)>,
) -> Result<(), NoMemory>
    requires { p.now ≤ run.now.setup.processes }
    ensures { OnOk result (copies.new.items
        ≡ copies.old.items ++ open_copies (mail_in rules_of_setup run.now) p.now) }
{
    // Names the type inside a payload, which the check finds in no other part of the function.
    let _value: Option<Val> = None;
    let mut after: Option<MsgName> = None;
    while let Some(name) = run.pending(*p, after) {
        if let Some(copy) = copy_of(run, p, &name) {
            copies.push(copy)?;
        }
        after = Some(name);
    }
    Ok(())
}

impl Runs for AnyRun {
    ghost rules = { rules_of_setup };

    ghost same_state = { ReachSameState };

    ghost run = { λ run. run };

    fn start(alloc: Global, given: Setup) -> Result<Self, NoMemory> {
        let run = match given.algorithm() {
            Algorithm::Leader => ByMachine::Leader(Run::start(alloc, given)?),
            Algorithm::Alpha => ByMachine::Alpha(Run::start(alloc, given)?),
        };
        Ok(AnyRun { run })
    }

    fn step(
        &mut self,
        alloc: Global,
        p: u32,
        act: Act,
    ) -> Result<Result<Event, Refusal>, NoMemory> {
        AnyRun::step(self, alloc, p, act)
    }

    #[inline(always)]
    fn step_first(&mut self, alloc: Global, p: u32) -> Result<Result<Event, Refusal>, NoMemory> {
        AnyRun::step_first(self, alloc, p)
    }

    fn lose(
        &mut self,
        alloc: Global,
        s: u32,
        m: u32,
        p: u32,
    ) -> Result<Result<Event, Refusal>, NoMemory> {
        AnyRun::lose(self, alloc, s, m, p)
    }

    fn again(&mut self, alloc: Global, event: &Event) -> Result<Result<Event, Refusal>, NoMemory> {
        AnyRun::again(self, alloc, event)
    }

    fn undo(&mut self, event: EventRef) -> Result<Event, Refusal> {
        self.undo_event(event)
    }

    fn refuses_undo(&self, event: EventRef) -> Option<Refusal> {
        by_machine!(&self.run, run => run.refuses_undo(event))
    }

    fn rollback(
        &mut self,
        alloc: Global,
        event: EventRef,
        removed: &mut Vec<Event>,
    ) -> Result<Result<u32, Refusal>, NoMemory> {
        match self.rollback_event(alloc, event, removed)? {
            Ok(count) => Ok(Ok(count as u32)),
            Err(refusal) => Ok(Err(refusal)),
        }
    }

    fn refuses(&self, p: u32, act: Act) -> Option<Refusal> {
        by_machine!(&self.run, run => run.refuses(p, act))
    }

    fn setup(&self) -> &Setup {
        by_machine!(&self.run, run => run.setup())
    }

    fn payload(&self, name: MsgName) -> Option<&Payload> {
        self.its_mail().payload(name)
    }

    fn cell(&self, register: Reg) -> Option<Cell> {
        Some(self.its_registers().state(register)?.cell)
    }

    fn processes(&self) -> u8 {
        self.setup().n()
    }

    fn pending(&self, p: u32) -> Option<MsgName> {
        AnyRun::pending(self, self.process(p)?, None)
    }

    fn explain(
        &self,
        alloc: Global,
        event: EventRef,
    ) -> Result<(StepId, SmallVec<StepId, 9>), Refusal> {
        let name = self.find(event)?;
        let causes = self.causes_of(alloc, event)?;
        Ok((name, causes))
    }

    fn view(&self, p: u32) -> Option<ProcView> {
        Some(self.view_of(self.process(p)?))
    }

    fn cells(&self, alloc: Global) -> Result<Vec<Cell>, NoMemory> {
        self.its_registers().cells(alloc)
    }

    fn mail(&self, alloc: Global) -> Result<Vec<(Proc, MsgName, Payload)>, NoMemory> {
        // Names the type inside a payload, which the check finds in no other part of the function.
        let _value: Option<Val> = None;
        let mut copies = Vec::new(alloc);
        let n = self.setup().n();
        for i in 0..n {
            push_open_copies(self, &Proc::new(i + 1), &mut copies)?;
        }
        Ok(copies)
    }

    fn events(&self, alloc: Global) -> Result<Vec<Event>, NoMemory> {
        self.history().to_vec(alloc)
    }

    fn decisions(&self, alloc: Global) -> Result<Vec<(Proc, Val)>, NoMemory> {
        AnyRun::decisions(self, alloc)
    }

    fn into_parts(self) -> (Setup, History) {
        by_machine!(self.run, run => run.into_parts())
    }

    ghost lawful = { rules_are_lawful };

    ghost histories = { rules_keep_histories };
}
