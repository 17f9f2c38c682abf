//! A race: one thread for each process and one for each script, over one shared run, and its text.

ghost use Rattle.std.specs.Prelude.{◌≡◌, ◌+◌, ◌≤◌, length, vec_len, IfOk, IfErr};
ghost use Rattle.cdb_base.specs.Limits.{MAX_SEATS};
ghost use Rattle.cdb_race.specs.Faults.{IsFaultBehind, IsNotStopped};
ghost use Rattle.cdb_race.specs.Races.{AllPass};
ghost use Rattle.cdb_rules.specs.Agreement.{HasMajorityIfNeeded};
ghost use Rattle.cdb_setup.specs.Format.{Encodes};
ghost use Rattle.cdb_setup.specs.Parts.{Parts};
ghost use Rattle.cdb_play.specs.Races.{bytes_of, AreScripts, IsTextOfCommands, IsTextOnSetup, IsTextOfRace};
ghost use Rattle.cdb_play.specs.Races.{IsFaultUngated, IsFaultOfScripts, IsFaultOfCommands, IsFaultOnSetup};
ghost use Rattle.cdb_play.specs.Races.{IsFaultOfRace, IsSetupWithMajority, AgreesAtEnd, ProposedAtEnd};
ghost use Rattle.cdb_streams.specs.Endings.{race_ending};
ghost use Rattle.cdb_streams.specs.Written.{IsWritten};

mod text;

use cdb_base::NoMemory;
use cdb_control::Runs;
use cdb_race::Script;
use cdb_setup::Setup;
use cdb_shared::{Gate, Seat};
use cdb_streams::{RaceFault, Sink, commands_of, write_text};
use std::alloc::{AllocError, Global};
use std::sync::Wait;
use std::thread::Threads;
use text::text_with;

/// A gate that always passes.
#[derive(Clone, Copy, PartialEq, Eq)]
pub struct Open;

impl Gate for Open {
    ghost use Rattle.std.specs.Prelude.{true};

    ghost passes = { λ _. true };

    fn before<T: Runs>(&mut self, _call: u32, _seat: &Seat<T>) -> bool {
        true
    }

    fn after<T: Runs>(&mut self, _call: u32, _seat: &Seat<T>) {}
}

/// This many gates that always pass.
fn open_gates(alloc: Global, count: usize) -> Result<Vec<Open>, AllocError>
    ensures { IfOk result (λ gates. vec_len gates ≡ count) }
{
    vec![in alloc; Open; count]
}

/// The scripts with their commands, in order. The first bad script is named with its first fault.
fn scripts_of(alloc: Global, scripts: &[Vec<u8>]) -> Result<Vec<Script>, RaceFault>
    ensures read { IfOk result (λ read. AreScripts read.items (bytes_of scripts.now)) }
    ensures count { IfOk result (λ read. vec_len read ≡ length scripts.now) }
    ensures fault { IfErr result (λ fault. IsFaultOfScripts fault (bytes_of scripts.now)) }
{
    let mut read = Vec::new(alloc);
    for script in scripts {
        match commands_of(alloc, script.as_slice()) {
            Ok(commands) => {
                if let Err(error) = read.push(Script::new(commands)) {
                    return Err(RaceFault::from(NoMemory::from(error)));
                }
            }
            Err(fault) => return Err(RaceFault::Play(fault.at(read.len() + 1))),
        }
    }
    Ok(read)
}

/// Runs the race, and then writes its text, which is whole before any of it is written.
fn run_race<T: Runs + Send, G: Gate + Drop + Send, R: Threads + Wait + Sync, W: Sink>(
    rt: &R,
    alloc: Global,
    setup: Setup,
    turns: u32,
    scripts: &[Script],
    gates: Vec<G>,
    out: &mut W,
) -> Result<(), RaceFault>
    requires fits { setup.processes + length scripts.now ≤ MAX_SEATS }
    requires gates { vec_len gates ≡ setup.processes + length scripts.now }
    ensures wrote { IsWritten W.stream (race_ending result) out.old out.new
        (IsTextOfCommands T.rules setup turns scripts.now) }
    ensures agree { HasMajorityIfNeeded setup → AgreesAtEnd W.stream result out.old out.new }
    ensures proposed { ProposedAtEnd W.stream setup result out.old out.new }
    ensures fault { IfErr result
        (IsFaultOfCommands (IsFaultBehind T T.rules G.calls G.passes gates.items)
        setup turns scripts.now) }
    ensures passes { AllPass G.passes gates.items → IfErr result IsNotStopped }
{
    let processes = usize::from(setup.n());
    let raced = cdb_race::race::<T, G, R>(rt, alloc, setup, turns, scripts, gates)?;
    let made = text_with(alloc, &raced.control, &raced.replies[processes..]);
    raced.close();
    let text = made?;
    write_text(alloc, text.as_bytes(), out)?;
    Ok(())
}

/// Runs a race on the setup that a text of JSON encodes: each process is driven for this many turns by a seat of its
/// own, and each script is served by a seat of its own, after the gate of that seat. Then the text of the race is
/// written: for each script its seat and its replies, then the decisions of the last state, and whether they agree.
///
/// The setup is read first, and then each script, by order, where `ScriptTooLong` is looked for before the first bad
/// line. `JournalFull`, `Spawn` and `Stopped` come from the threads. After `Write`, which comes only where the writer
/// failed in this call, what was written is a beginning of the text, and after any other fault nothing was.
///
/// With a majority, or in Alpha, the last line of a race that ended well is `decisions agree`, and each decision in the
/// line before it was the input of a process. Of several faults of sessions that of the least seat is reported;
/// `JournalFull` comes only where processes times turns and the commands of the scripts are 999,999 at least, and
/// `Stopped` only of a gate that did not let a call go on.
///
/// Promise: A race writes each script's replies, the last decisions, and whether they agree, all of one journal that
/// explains it. In Alpha, and with a majority, each race that ends well ends with `decisions agree`, and the decisions
/// were inputs.
pub fn race_with<T: Runs + Send, G: Gate + Drop + Send, R: Threads + Wait + Sync, W: Sink>(
    rt: &R,
    alloc: Global,
    setup: &[u8],
    turns: u32,
    scripts: &[Vec<u8>],
    gates: Vec<G>,
    out: &mut W,
) -> Result<(), RaceFault>
    requires fits { (parts : Parts) → Encodes setup.now parts →
        parts.processes + length scripts.now ≤ MAX_SEATS }
    requires gates { (parts : Parts) → Encodes setup.now parts
        → vec_len gates ≡ parts.processes + length scripts.now }
    ensures wrote { IsWritten W.stream (race_ending result) out.old out.new
        (IsTextOfRace T.rules setup.now turns (bytes_of scripts.now)) }
    ensures agree { IsSetupWithMajority setup.now → AgreesAtEnd W.stream result out.old out.new }
    ensures proposed { (parts : Parts) → Encodes setup.now parts →
        ProposedAtEnd W.stream parts result out.old out.new }
    ensures fault { IfErr result
        (IsFaultOfRace (IsFaultBehind T T.rules G.calls G.passes gates.items)
        setup.now turns (bytes_of scripts.now)) }
    ensures passes { AllPass G.passes gates.items → IfErr result IsNotStopped }
{
    let parts = Setup::read(alloc, setup)?;
    let commands = scripts_of(alloc, scripts)?;
    run_race::<T, G, R, W>(rt, alloc, parts, turns, commands.as_slice(), gates, out)
}

/// Runs a race as `race_with` does, on a setup, with gates that always pass. `Setup` comes never, and `NoMemory` only
/// where the first script is not too long.
pub fn race_on<T: Runs + Send, R: Threads + Wait + Sync, W: Sink>(
    rt: &R,
    alloc: Global,
    setup: Setup,
    turns: u32,
    scripts: &[Vec<u8>],
    out: &mut W,
) -> Result<(), RaceFault>
    requires fits { setup.processes + length scripts.now ≤ MAX_SEATS }
    ensures wrote { IsWritten W.stream (race_ending result) out.old out.new
        (IsTextOnSetup T.rules setup turns (bytes_of scripts.now)) }
    ensures agree { HasMajorityIfNeeded setup → AgreesAtEnd W.stream result out.old out.new }
    ensures proposed { ProposedAtEnd W.stream setup result out.old out.new }
    ensures fault { IfErr result
        (IsFaultOnSetup IsFaultUngated setup turns (bytes_of scripts.now)) }
{
    let commands = scripts_of(alloc, scripts)?;
    let gates = open_gates(alloc, usize::from(setup.n()) + commands.len())?;
    run_race::<T, Open, R, W>(rt, alloc, setup, turns, commands.as_slice(), gates, out)
}

/// Runs a race as `race_with` does, with gates that always pass.
pub fn race<T: Runs + Send, R: Threads + Wait + Sync, W: Sink>(
    rt: &R,
    alloc: Global,
    setup: &[u8],
    turns: u32,
    scripts: &[Vec<u8>],
    out: &mut W,
) -> Result<(), RaceFault>
    requires fits { (parts : Parts) → Encodes setup.now parts →
        parts.processes + length scripts.now ≤ MAX_SEATS }
    ensures wrote { IsWritten W.stream (race_ending result) out.old out.new
        (IsTextOfRace T.rules setup.now turns (bytes_of scripts.now)) }
    ensures agree { IsSetupWithMajority setup.now → AgreesAtEnd W.stream result out.old out.new }
    ensures proposed { (parts : Parts) → Encodes setup.now parts →
        ProposedAtEnd W.stream parts result out.old out.new }
    ensures fault { IfErr result
        (IsFaultOfRace IsFaultUngated setup.now turns (bytes_of scripts.now)) }
{
    let parts = Setup::read(alloc, setup)?;
    race_on::<T, R, W>(rt, alloc, parts, turns, scripts, out)
}
