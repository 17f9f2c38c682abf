//! What is asked of a run.

ghost use Rattle.std.specs.Prelude.{◌≡◌, ◌≤◌, List, [], None, IfOk, OnErr, IsOk};
ghost use Rattle.std.specs.Prelude.{true, length, option_map, vec_capacity};
ghost use Rattle.std.specs.Option.{option_copied};
ghost use Rattle.std.specs.Result.{result_err};
ghost use Rattle.cdb_base.specs.Limits.{MAX_ENTRIES};
ghost use Rattle.cdb_base.specs.declared.event.Event.{Event};
ghost use Rattle.cdb_base.specs.Results.{MapsTo};
ghost use Rattle.cdb_rules.specs.Auto.{first_step_by};
ghost use Rattle.cdb_rules.specs.ByRules.{IsInOrder, result_of_step, result_of_again, result_of_loss};
ghost use Rattle.cdb_rules.specs.ByRules.{process_in, mail_in, registers_in, cell_in, decisions_in};
ghost use Rattle.cdb_rules.specs.RunView.{RunView};
ghost use Rattle.cdb_rules.specs.Lawful.{AreLawful, KeepHistories};
ghost use Rattle.cdb_rules.specs.Refusals.{IsOfRun};
ghost use Rattle.cdb_rules.specs.Rules.{Rules};
ghost use Rattle.cdb_rules.specs.Runs.{RollsBackOnto, result_of_undo, causes_in, with_result, after_undo};
ghost use Rattle.cdb_rules.specs.Step.{is_among};
ghost use Rattle.cdb_rules.specs.EventRefs.{name_given};
ghost use Rattle.cdb_rules.specs.Views.{seen_as, cells_of, all_open_copies};
ghost use Rattle.cdb_message.specs.Mail.{next_pending, payload_of};
ghost use Rattle.cdb_setup.specs.Parts.{Parts, AreInRange};

use crate::event_ref::EventRef;
use cdb_base::{
    Act, Cell, Event, MsgName, NoMemory, Payload, Proc, ProcView, Refusal, Reg, StepId, Val,
};
use cdb_setup::Setup;
use cdb_standing::History;
use smallvec::SmallVec;
use std::alloc::Global;

/// A run. A contract sees its setup and its standing events; all else that it returns and shows is what the rules
/// of the setup say of these.
pub trait Runs: Sized + Drop {
    // What a run of a setup returns and shows.
    ghost rules: { Parts → Rules };

    // Whether two histories of a setup reach one state.
    ghost same_state: { Parts → List Event → List Event → Type 0 };

    // What a contract sees of the run: its setup and its standing events.
    ghost run: { Self → RunView };

    /// The run of a setup in which nothing has happened. After `NoMemory` the setup is given up.
    fn start(alloc: Global, given: Setup) -> Result<Self, NoMemory>
        ensures { IfOk result (λ made. run made ≡ record { setup = given; history = [] }) };

    /// Takes the step of process `p` that an act names, or returns the first refusal that holds. After
    /// a refusal and after `NoMemory` the run is as it was.
    fn step(&mut self, alloc: Global, p: u32, act: Act) -> Result<Result<Event, Refusal>, NoMemory>
        ensures returns { IfOk result (λ r. r ≡ result_of_step rules (run self.old) p act) }
        ensures after { IfOk result (λ r. run self.new ≡ with_result (run self.old) r) }
        ensures err { OnErr result (run self.new ≡ run self.old) }
        ensures memory { OnErr result (IsOk (result_of_step rules (run self.old) p act)) };

    /// Takes the first step of process `p`, from 1 to their number, of those that `auto` tries which is not refused,
    /// or returns `Idle`. After a refusal and after `NoMemory` the run is as it was.
    fn step_first(&mut self, alloc: Global, p: u32) -> Result<Result<Event, Refusal>, NoMemory>
        requires { is_among (run self.old).setup.processes p ≡ true }
        ensures returns { IfOk result (λ r. r ≡ first_step_by rules (run self.old) p) }
        ensures after { IfOk result (λ r. run self.new ≡ with_result (run self.old) r) }
        ensures err { OnErr result (run self.new ≡ run self.old) }
        ensures memory { OnErr result (IsOk (first_step_by rules (run self.old) p)) };

    /// Loses the copy of the `m`-th message of process `s` for process `p`, or returns the first
    /// refusal that holds. After a refusal and after `NoMemory` the run is as it was.
    fn lose(
        &mut self,
        alloc: Global,
        s: u32,
        m: u32,
        p: u32,
    ) -> Result<Result<Event, Refusal>, NoMemory>
        ensures returns { IfOk result (λ r. r ≡ result_of_loss rules (run self.old) s m p) }
        ensures after { IfOk result (λ r. run self.new ≡ with_result (run self.old) r) }
        ensures err { OnErr result (run self.new ≡ run self.old) }
        ensures memory { OnErr result (IsOk (result_of_loss rules (run self.old) s m p)) };

    /// Takes an undone event of the run again, or returns the first refusal that holds. After a refusal
    /// and after `NoMemory` the run is as it was.
    fn again(&mut self, alloc: Global, event: &Event) -> Result<Result<Event, Refusal>, NoMemory>
        requires { IsOfRun (run self.old).setup event.now }
        ensures returns { IfOk result (λ r. r ≡ result_of_again rules (run self.old) event.now) }
        ensures after { IfOk result (λ r. run self.new ≡ with_result (run self.old) r) }
        ensures err { OnErr result (run self.new ≡ run self.old) }
        ensures memory { OnErr result (IsOk (result_of_again rules (run self.old) event.now)) };

    /// Undoes a standing event on which no standing event depends, or returns the first refusal
    /// that holds, and then the run is as it was.
    fn undo(&mut self, event: EventRef) -> Result<Event, Refusal>
        ensures returns { result ≡ result_of_undo (run self.old) (name_given event) }
        ensures after { run self.new ≡ after_undo (run self.old) (name_given event) };

    /// What `undo` would be refused with, if it would be.
    fn refuses_undo(&self, event: EventRef) -> Option<Refusal>
        ensures { result ≡ result_err (result_of_undo (run self.now) (name_given event)) };

    /// Removes a standing event with its consequences, adds them to a list, the last first, and
    /// returns how many they are. After a refusal and after `NoMemory` run and list are as they were.
    fn rollback(
        &mut self,
        alloc: Global,
        event: EventRef,
        removed: &mut Vec<Event>,
    ) -> Result<Result<u32, Refusal>, NoMemory>
        requires { length (run self.old).history ≤ MAX_ENTRIES }
        ensures rolled_back { RollsBackOnto (run self.old) (run self.new) (name_given event)
            removed.old.items removed.new.items result }
        ensures capacity { vec_capacity removed.old ≤ vec_capacity removed.new };

    /// What `step` would be refused with, if it would be.
    fn refuses(&self, p: u32, act: Act) -> Option<Refusal>
        ensures { result ≡ result_err (result_of_step rules (run self.now) p act) };

    /// The setup.
    fn setup(&self) -> &Setup
        ensures { result.now ≡ (run self.now).setup };

    /// The payload of a message, where it was sent.
    fn payload(&self, name: MsgName) -> Option<&Payload>
        ensures { option_copied result ≡ payload_of (mail_in rules (run self.now)) name };

    /// What the register holds, where the run has it.
    fn cell(&self, register: Reg) -> Option<Cell>
        ensures { result ≡ cell_in rules (run self.now) register };

    /// How many processes there are.
    fn processes(&self) -> u8
        ensures { result ≡ (run self.now).setup.processes };

    /// The least copy that process `p`, from 1 to their number, can still receive.
    fn pending(&self, p: u32) -> Option<MsgName>
        requires { is_among (run self.now).setup.processes p ≡ true }
        ensures { result ≡ next_pending (mail_in rules (run self.now)) p None };

    /// The name of a standing event, and its direct causes in order of process; or the first refusal
    /// that holds. It takes no memory.
    fn explain(
        &self,
        alloc: Global,
        event: EventRef,
    ) -> Result<(StepId, SmallVec<StepId, 9>), Refusal>
        ensures name { IfOk result (λ r. r.0 ≡ name_given event) }
        ensures causes { MapsTo (λ r. r.1.items) result
            (causes_in (run self.now) (name_given event)) };

    /// The process of that number as it is shown, where there is one.
    fn view(&self, p: u32) -> Option<ProcView>
        ensures { result
            ≡ option_map (seen_as (run self.now).setup p) (process_in rules (run self.now) p) };

    /// The cells of the processes' registers and then that of the decision; none where the run has no
    /// registers.
    fn cells(&self, alloc: Global) -> Result<Vec<Cell>, NoMemory>
        ensures { IfOk result (λ v. v.items ≡ cells_of (registers_in rules (run self.now))) };

    /// The copies that were neither received nor lost, by receiver, and then by message.
    fn mail(&self, alloc: Global) -> Result<Vec<(Proc, MsgName, Payload)>, NoMemory>
        ensures { IfOk result (λ v. v.items ≡ all_open_copies (mail_in rules (run self.now))) };

    /// The standing events, in the order in which they were taken.
    fn events(&self, alloc: Global) -> Result<Vec<Event>, NoMemory>
        ensures { IfOk result (λ events. events.items ≡ (run self.now).history) };

    /// The decisions that stand: each process that has decided with its value, in order.
    fn decisions(&self, alloc: Global) -> Result<Vec<(Proc, Val)>, NoMemory>
        ensures { IfOk result (λ pairs. pairs.items ≡ decisions_in rules (run self.now)) };

    /// The setup of the run and its standing events, each of which was enabled in its turn. All else is given up.
    fn into_parts(self) -> (Setup, History)
        ensures run { run self ≡ record { setup = result.0; history = result.1 } }
        ensures valid { IsInOrder rules (run self) };

    // What the rules keep: events of the run, and valid histories, the state that these reach, agreement and validity.
    ghost lawful: { (given : Parts) → AreInRange given → AreLawful (rules given) given };

    ghost histories: { (given : Parts) → AreInRange given →
        KeepHistories (rules given) (same_state given) given };
}
