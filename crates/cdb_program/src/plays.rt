//! Plays of files.

ghost use Rattle.std.specs.Prelude.{◌≡◌};
ghost use Rattle.cdb_program.specs.Plays.{PlaysInput, PlaysFiles};

use crate::fault::{Fault, of_play};
use crate::files::{Files, read_two};
use crate::world::World;
use cdb_any_run::AnyRun;
use cdb_play::play;
use cdb_streams::{HeldBytes, Sink, Source};
use std::alloc::Global;

/// The setup that a script from standard input is played on.
const ONE_PROCESS: &[u8] =
    b"{\"algorithm\":\"leader\",\"processes\":1,\"quorum\":1,\"inputs\":[7],\"oracle\":[[1]]}";

/// Plays the script on standard input.
pub fn play_input<F: Files + Drop, I: Source + Drop, O: Sink + Drop, E: Sink + Drop>(
    alloc: Global,
    world: &mut World<F, I, O, E>,
) -> Result<(), Fault<'static>>
    ensures does { PlaysInput world.old world.new result }
    ensures error { world.new.error ≡ world.old.error }
    ensures saved { world.new.saved ≡ world.old.saved }
{
    let streams = &mut world.streams;
    let played = play::<AnyRun, I, O>(alloc, ONE_PROCESS, &mut streams.input, &mut streams.output);
    of_play(played, "standard input")
}

/// Plays a script file on a run of a setup file.
pub fn play_files<'a, F: Files + Drop, I: Source + Drop, O: Sink + Drop, E: Sink + Drop>(
    alloc: Global,
    setup: &'a str,
    script: &'a str,
    world: &mut World<F, I, O, E>,
) -> Result<(), Fault<'a>>
    ensures does { PlaysFiles setup.entry.now script.entry.now world.old world.new result }
    ensures error { world.new.error ≡ world.old.error }
    ensures saved { world.new.saved ≡ world.old.saved }
{
    let (json, bytes) = read_two(alloc, &mut world.files, setup, script)?;
    let mut commands = HeldBytes::new(alloc, bytes);
    let played = play::<AnyRun, _, O>(
        alloc,
        json.as_slice(),
        &mut commands,
        &mut world.streams.output,
    );
    of_play(played, script)
}
