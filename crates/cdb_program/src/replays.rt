//! Replays of files.

ghost use Rattle.std.specs.Prelude.{◌≡◌};
ghost use Rattle.cdb_program.specs.Replays.{ReplaysFiles};

use crate::beginning::read_beginning;
use crate::fault::{Fault, of_play};
use crate::files::Files;
use crate::world::World;
use cdb_any_run::AnyRun;
use cdb_journal::replay;
use cdb_streams::{HeldBytes, Sink, Source};
use std::alloc::Global;

/// Plays a journal file again on a run of a setup file.
pub fn replay_files<'a, F: Files + Drop, I: Source + Drop, O: Sink + Drop, E: Sink + Drop>(
    alloc: Global,
    setup: &'a str,
    journal: &'a str,
    world: &mut World<F, I, O, E>,
) -> Result<(), Fault<'a>>
    ensures does { ReplaysFiles setup.entry.now journal.entry.now world.old world.new result }
    ensures error { world.new.error ≡ world.old.error }
    ensures saved { world.new.saved ≡ world.old.saved }
{
    let (json, bytes) = read_beginning(alloc, &mut world.files, setup, Some(journal))?;
    let mut entries = HeldBytes::new(alloc, bytes);
    let replayed = replay::<AnyRun, _, O>(
        alloc,
        json.as_slice(),
        &mut entries,
        &mut world.streams.output,
    );
    of_play(replayed, journal)
}
