//! Comparisons of the runs that two script files leave.

ghost use Rattle.std.specs.Prelude.{◌≡◌};
ghost use Rattle.cdb_program.specs.Comparisons.{ComparesFiles};

use crate::fault::{Fault, of_same};
use crate::files::{Files, read_three};
use crate::world::World;
use cdb_any_run::AnyRun;
use cdb_same::same;
use cdb_streams::{Sink, Source};
use std::alloc::Global;

/// Tells whether two script files leave the same run on a setup file.
pub fn compare_files<'a, F: Files + Drop, I: Source + Drop, O: Sink + Drop, E: Sink + Drop>(
    alloc: Global,
    setup: &'a str,
    first: &'a str,
    second: &'a str,
    world: &mut World<F, I, O, E>,
) -> Result<(), Fault<'a>>
    ensures does { ComparesFiles setup.entry.now first.entry.now second.entry.now
        world.old world.new result }
    ensures error { world.new.error ≡ world.old.error }
    ensures saved { world.new.saved ≡ world.old.saved }
{
    let (json, one, other) = read_three(alloc, &mut world.files, setup, first, second)?;
    let compared = same::<AnyRun, O>(
        alloc,
        json.as_slice(),
        one.as_slice(),
        other.as_slice(),
        &mut world.streams.output,
    );
    of_same(compared)
}
