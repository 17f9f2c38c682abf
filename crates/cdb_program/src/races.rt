//! Races of files.

ghost use Rattle.std.specs.Prelude.{◌≡◌, ◌≤◌};
ghost use Rattle.cdb_play.specs.Races.{bytes_of};
ghost use Rattle.cdb_program.specs.Races.{RacesOn, RacesFiles};
ghost use Rattle.cdb_base.specs.Limits.{MAX_TURNS};
ghost use Rattle.cdb_base.specs.Requests.{texts};

use crate::fault::{Fault, of_race};
use crate::files::{Files, read_each, read_file};
use crate::world::World;
use cdb_any_run::AnyRun;
use cdb_play::race_on;
use cdb_setup::Setup;
use cdb_streams::{RaceFault, Sink, Source, fits};
use std::alloc::Global;
use std::sync::Wait;
use std::thread::Threads;

/// Runs a race of scripts, where it has seats enough.
fn race_bytes<R: Threads + Wait + Sync, O: Sink>(
    threads: &R,
    alloc: Global,
    setup: &[u8],
    turns: u32,
    scripts: &[Vec<u8>],
    output: &mut O,
) -> Result<(), Fault<'static>>
    requires { turns ≤ MAX_TURNS }
    ensures { RacesOn setup.now turns (bytes_of scripts.now)
        (O.stream output.old) (O.stream output.new) result }
{
    let parts = match Setup::read(alloc, setup) {
        Ok(parts) => parts,
        Err(fault) => return of_race(Err(RaceFault::from(fault))),
    };
    if !fits(&parts, scripts.len()) {
        return Err(Fault::TooManySeats);
    }
    let raced = race_on::<AnyRun, R, O>(threads, alloc, parts, turns, scripts, output);
    of_race(raced)
}

/// Runs a race of script files on a run of a setup file.
pub fn race_files<
    'a,
    R: Threads + Wait + Sync,
    F: Files + Drop,
    I: Source + Drop,
    O: Sink + Drop,
    E: Sink + Drop,
>(
    threads: &R,
    alloc: Global,
    setup: &'a str,
    turns: u32,
    scripts: &[&'a str],
    world: &mut World<F, I, O, E>,
) -> Result<(), Fault<'a>>
    requires { turns ≤ MAX_TURNS }
    ensures does { RacesFiles setup.entry.now turns (texts scripts.now)
        world.old world.new result }
    ensures error { world.new.error ≡ world.old.error }
    ensures saved { world.new.saved ≡ world.old.saved }
{
    let json = read_file(alloc, &mut world.files, setup)?;
    let contents = read_each(alloc, &mut world.files, scripts)?;
    race_bytes(
        threads,
        alloc,
        json.as_slice(),
        turns,
        contents.as_slice(),
        &mut world.streams.output,
    )
}
