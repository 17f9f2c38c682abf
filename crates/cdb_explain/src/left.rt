//! The run that a script leaves: its commands are carried out one after the other, without their replies.

ghost use Rattle.std.specs.Prelude.{◌≡◌, ◌<◌, ◌≤◌, [], length, IfErr, IfOk, OnOk};
ghost use Rattle.cdb_base.specs.Limits.{MAX_ENTRIES};
ghost use Rattle.cdb_control.specs.Headline.{Headline};
ghost use Rattle.cdb_control.specs.Journal.{extended};
ghost use Rattle.cdb_control.specs.OneSeat.{HasCarriedOut};
ghost use Rattle.cdb_explain.specs.RunLeft.{IsFaultOfRun, LeavesOnHeadline, run_of};
ghost use Rattle.cdb_rules.specs.ByRules.{IsInOrder};
ghost use Rattle.cdb_setup.specs.Format.{Encodes};
ghost use Rattle.cdb_streams.specs.Scripts.{IsScript};

use cdb_base::NoMemory;
use cdb_base::limits::MAX_ENTRIES;
use cdb_control::{CallFault, Command, Control, open_for};
use cdb_rules::{Runs, Trace};
use cdb_setup::Setup;
use cdb_streams::{PlayFault, commands_of};
use std::alloc::Global;

/// Carries a command out for the only seat.
fn carry_out<T: Runs>(
    alloc: Global,
    control: &mut Control<T>,
    command: Command,
) -> Result<(), NoMemory>
    requires seats { control.old.seats ≡ 1 }
    requires room { length control.old.journal < MAX_ENTRIES }
    ensures { OnOk result (control.new ≡ extended T.rules control.old 1 command) }
{
    match control.execute(alloc, 1, command) {
        Ok(reply) => {
            reply.close();
            Ok(())
        }
        Err(CallFault::JournalFull) => unreachable!(),
        Err(CallFault::NoMemory(refused)) => Err(refused),
    }
}

/// Carries the commands out, one after the other, for the only seat of a control in which nothing has happened.
fn carry_out_each<T: Runs>(
    alloc: Global,
    control: &mut Control<T>,
    commands: &[Command],
) -> Result<(), NoMemory>
    requires few { length commands.now ≤ MAX_ENTRIES }
    requires new { HasCarriedOut control.old.setup [] control.old }
    ensures { OnOk result (HasCarriedOut control.old.setup commands.now control.new) }
{
    for command in commands {
        carry_out(alloc, control, *command)?;
    }
    Ok(())
}

/// A control of one seat that has carried the commands out, one after the other, 999,999 at most. After `NoMemory` the
/// setup is given up.
pub fn control_after<T: Runs>(
    alloc: Global,
    setup: Setup,
    commands: &[Command],
) -> Result<Control<T>, NoMemory>
    requires { length commands.now ≤ MAX_ENTRIES }
    ensures { IfOk result (HasCarriedOut setup commands.now) }
{
    let mut control = open_for(alloc, setup, commands.len() as u32)?;
    match carry_out_each(alloc, &mut control, commands) {
        Ok(()) => Ok(control),
        Err(fault) => {
            control.close();
            Err(fault)
        }
    }
}

/// What stands in the run of a control: no more events than the journal has entries. All else of the control is
/// given up.
pub fn trace_of<T: Runs>(alloc: Global, control: Control<T>) -> Result<Trace, NoMemory>
    ensures is { IfOk result (λ run. run ≡ run_of T.rules control) }
    ensures valid { IfOk result (IsInOrder T.rules) }
    ensures few { IfOk result (λ run. length run.history ≤ MAX_ENTRIES) }
    ensures headline { Headline T.rules T.same_state control.setup control.seats control.journal }
{
    // Its clauses say that each entry is of one of the seats, how many there are, and that the headline holds of them.
    let _journal = control.journal();
    let run = control.into_run();
    // Its clause says that the parts of the setup are in range.
    let _ranges = run.setup().n();
    let (setup, history) = run.into_parts();
    Trace::new(alloc, setup, history)
}

/// A setup and the commands of a script, from their texts. The faults are those of a play, without `Read` and `Write`.
pub fn read_both(
    alloc: Global,
    setup: &[u8],
    script: &[u8],
) -> Result<(Setup, Vec<Command>), PlayFault>
    ensures setup { IfOk result (λ both. Encodes setup.now both.0) }
    ensures script { IfOk result (λ both. IsScript both.1.items script.now) }
    ensures few { IfOk result (λ both. length both.1.items ≤ MAX_ENTRIES) }
    ensures fault { IfErr result (IsFaultOfRun setup.now script.now) }
{
    let setup = Setup::read(alloc, setup)?;
    let commands = commands_of(alloc, script)?;
    Ok((setup, commands))
}

/// What stands in the run that a script leaves: its commands were carried out by seat 1 of one seat, as `play` does,
/// and no reply was written. The faults are those of a play, without `Read` and `Write`.
///
/// Promise: The run that a script leaves is that of its commands, carried out by the only seat, and the headline holds
/// of it.
pub fn run_left_by<T: Runs>(alloc: Global, setup: &[u8], script: &[u8]) -> Result<Trace, PlayFault>
    ensures left { IfOk result (LeavesOnHeadline T.rules T.same_state setup.now script.now) }
    ensures valid { IfOk result (IsInOrder T.rules) }
    ensures few { IfOk result (λ run. length run.history ≤ MAX_ENTRIES) }
    ensures fault { IfErr result (IsFaultOfRun setup.now script.now) }
{
    let (setup, commands) = read_both(alloc, setup, script)?;
    let control = control_after::<T>(alloc, setup, commands.as_slice())?;
    let run = trace_of(alloc, control)?;
    Ok(run)
}
