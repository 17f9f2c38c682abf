//! Searches on a setup file, and script files made small.

ghost use Rattle.std.specs.Prelude.{◌≡◌, IfErr, IfOk};
ghost use Rattle.cdb_program.specs.Searches.{IsFaultOfShrunk, IsShrunkScript, SearchesFile, SearchesFor};
ghost use Rattle.cdb_program.specs.Searches.{ShrinksFiles, ShrinksTo};

use crate::fault::{Fault, of_answer};
use crate::files::{Files, read_file, read_two};
use crate::made::write_made;
use crate::world::World;
use cdb_any_run::AnyRun;
use cdb_explain::{AnswerFault, run_left_by};
use cdb_goal::Goal;
use cdb_search::{Watch, search, shrink};
use cdb_streams::{Sink, Source};
use std::alloc::Global;

/// Shows how far a search has come.
#[derive(Drop)]
struct Progress<'a, F: Files> {
    files: &'a F,
    walks: u32,
}

impl<'a, F: Files> Watch for Progress<'a, F> {
    fn walked(&self, walks: u32) {
        self.files.show_progress(walks, self.walks);
    }
}

/// Searches for a run of a setup file in which this goal holds.
fn search_for<'a, F: Files + Drop, I: Source + Drop, O: Sink + Drop, E: Sink + Drop>(
    alloc: Global,
    setup: &'a str,
    goal: Goal,
    seed: u32,
    walks: u32,
    world: &mut World<F, I, O, E>,
) -> Result<(), Fault<'a>>
    ensures does { SearchesFor setup.entry.now goal walks world.old world.new result }
    ensures error { world.new.error ≡ world.old.error }
    ensures saved { world.new.saved ≡ world.old.saved }
{
    let json = read_file(alloc, &mut world.files, setup)?;
    let progress = Progress {
        files: &world.files,
        walks,
    };
    let found = search::<AnyRun, _>(alloc, json.as_slice(), goal, seed, walks, &progress);
    world.files.clear_progress();
    of_answer(write_made(alloc, found, &mut world.streams.output), setup)
}

/// Searches for a run of a setup file in which the goal of this word holds, with this seed and at most this number of
/// walks. A word that names no goal is refused before the file is opened.
///
/// Promise: The script of a search is whole before any of it is written. So after a fault nothing was written, but
/// after a failed write a beginning.
pub fn search_file<'a, F: Files + Drop, I: Source + Drop, O: Sink + Drop, E: Sink + Drop>(
    alloc: Global,
    setup: &'a str,
    goal: &str,
    seed: u32,
    walks: u32,
    world: &mut World<F, I, O, E>,
) -> Result<(), Fault<'a>>
    ensures does { SearchesFile setup.entry.now goal.now walks world.old world.new result }
    ensures error { world.new.error ≡ world.old.error }
    ensures saved { world.new.saved ≡ world.old.saved }
{
    match Goal::read(goal) {
        Some(goal) => search_for(alloc, setup, goal, seed, walks, world),
        None => Err(Fault::NoGoal),
    }
}

/// A small script of the run that a script leaves, after which a goal holds.
fn shrunk(alloc: Global, setup: &[u8], script: &[u8], goal: Goal) -> Result<Vec<u8>, AnswerFault>
    ensures text { IfOk result (λ text. IsShrunkScript goal setup.now script.now text.items) }
    ensures fault { IfErr result (IsFaultOfShrunk goal setup.now script.now) }
{
    let run = run_left_by::<AnyRun>(alloc, setup, script)?;
    shrink::<AnyRun>(alloc, &run, goal)
}

/// Makes a script file small on a run of a setup file, as long as this goal holds.
fn shrink_to<'a, F: Files + Drop, I: Source + Drop, O: Sink + Drop, E: Sink + Drop>(
    alloc: Global,
    setup: &'a str,
    script: &'a str,
    goal: Goal,
    world: &mut World<F, I, O, E>,
) -> Result<(), Fault<'a>>
    ensures does { ShrinksTo setup.entry.now script.entry.now goal
        world.old world.new result }
    ensures error { world.new.error ≡ world.old.error }
    ensures saved { world.new.saved ≡ world.old.saved }
{
    let (json, bytes) = read_two(alloc, &mut world.files, setup, script)?;
    let made = shrunk(alloc, json.as_slice(), bytes.as_slice(), goal);
    of_answer(write_made(alloc, made, &mut world.streams.output), script)
}

/// Makes a script file small on a run of a setup file, as long as the goal of this word holds. A word that names no
/// goal is refused before a file is opened.
///
/// Promise: A small script is whole before any of it is written. So after a fault nothing was written, but after a
/// failed write a beginning.
pub fn shrink_files<'a, F: Files + Drop, I: Source + Drop, O: Sink + Drop, E: Sink + Drop>(
    alloc: Global,
    setup: &'a str,
    script: &'a str,
    goal: &str,
    world: &mut World<F, I, O, E>,
) -> Result<(), Fault<'a>>
    ensures does { ShrinksFiles setup.entry.now script.entry.now goal.now
        world.old world.new result }
    ensures error { world.new.error ≡ world.old.error }
    ensures saved { world.new.saved ≡ world.old.saved }
{
    match Goal::read(goal) {
        Some(goal) => shrink_to(alloc, setup, script, goal, world),
        None => Err(Fault::NoGoal),
    }
}
