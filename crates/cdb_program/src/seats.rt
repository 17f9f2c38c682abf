//! Sessions of several seats, on files and terminals.

ghost use Rattle.std.specs.Prelude.{◌≡◌, ◌≤◌, ◌∷◌, [], length, vec_len, IfOk, IfErr};
ghost use Rattle.cdb_base.specs.Requests.{texts};
ghost use Rattle.cdb_program.specs.Beginnings.{named};
ghost use Rattle.cdb_program.specs.FilesRead.{OpensAll};
ghost use Rattle.cdb_program.specs.Known.{HasNoSession};
ghost use Rattle.cdb_program.specs.SeatStreams.{AreOpenersOf, IsOpenerOf};
ghost use Rattle.cdb_program.specs.Sessions.{HoldsNone, HoldsSeats, first_status};

use crate::answers::Printed;
use crate::beginning::{Names, read_beginning};
use crate::fault::{Fault, of_page};
use crate::files::Files;
use crate::keeping::{keep, shown_in};
use crate::reports::report;
use crate::world::World;
use cdb_any_run::AnyRun;
use cdb_base::NoMemory;
use cdb_base::limits::MAX_SEATS;
use cdb_shared_session::debug_shared;
use cdb_streams::{PlayFault, Sink, Source};
use std::alloc::Global;
use std::sync::Wait;
use std::thread::Threads;
use std::time::Clock;

/// What opens the seat of this name.
///
/// # Errors
/// `Play(Read, name)` where it is refused, and `Play(NoMemory, name)` where an allocation fails.
fn find_one<'a, F: Files>(alloc: Global, files: &mut F, name: &'a str) -> Result<F::Seat, Fault<'a>>
    ensures { OpensAll (IsOpenerOf F.Seat.opens (F.seen files.old) name.entry.now)
        (F.seen files.old) (F.seen files.new) (name.entry.now ∷ []) result }
{
    match files.find_seat(alloc, name) {
        Ok(opener) => Ok(opener),
        Err(fault) => Err(Fault::Play(PlayFault::from(fault), name)),
    }
}

/// What opens the seats of these names, in their order, which are found one after the other.
///
/// # Errors
/// `Play(Read, name)` with the name of the first seat that is refused; those after it are not looked at.
/// `Play(NoMemory, _)` where an allocation fails.
fn find_each<'a, F: Files>(
    alloc: Global,
    files: &mut F,
    names: &[&'a str],
) -> Result<Vec<F::Seat>, Fault<'a>>
    ensures found { OpensAll
        (λ openers. AreOpenersOf F.Seat.opens (F.seen files.old) (texts names.now) openers.items)
        (F.seen files.old) (F.seen files.new) (texts names.now) result }
    ensures count { IfOk result (λ openers. vec_len openers ≡ length names.now) }
{
    let mut openers = Vec::new(alloc);
    for name in names {
        let opener = find_one(alloc, files, name)?;
        if let Err(error) = openers.push(opener) {
            let refused = NoMemory::from(error);
            return Err(Fault::Play(PlayFault::NoMemory(refused), name));
        }
    }
    Ok(openers)
}

/// The status of two that is told: the first, where it is not 0.
fn first_status(first: u8, second: u8) -> u8
    ensures { result ≡ first_status first second }
{
    if first == 0 { second } else { first }
}

/// Holds sessions of these seats, one at least, over one run of a setup file, which go on from a journal, and their
/// journal is kept in a file and a page of their run in another, where these are named; reports what failed of them,
/// and of the page behind all else, and returns the status. A fault is not reported yet.
pub fn share<
    'a,
    R: Threads + Wait + Clock + Sync,
    F: Files + Drop,
    I: Source + Drop,
    O: Sink + Drop,
    E: Sink + Drop,
>(
    threads: &R,
    alloc: Global,
    names: Names<'a>,
    seats: &[&'a str],
    world: &mut World<F, I, O, E>,
) -> Result<u8, Fault<'a>>
    requires { 1 ≤ length seats.now }
    ensures sessions { IfOk result (HoldsSeats (named names.entry) (texts seats.now) world.old world.new) }
    ensures fault { IfErr result (HoldsNone (named names.entry) (texts seats.now) world.old world.new) }
    ensures error { IfErr result (λ _. world.new.error ≡ world.old.error) }
    ensures none { HasNoSession world.old world.new }
{
    if seats.len() > usize::from(MAX_SEATS) {
        return Err(Fault::TooManySeats);
    }
    let (json, from) = read_beginning(alloc, &mut world.files, names.setup, names.from)?;
    let openers = find_each(alloc, &mut world.files, seats)?;
    let (json, from) = (json.as_slice(), from.as_slice());
    let keeping = keep(alloc, &mut world.files, names, json, from)?;
    let (output, error) = (&mut world.streams.output, &mut world.error);
    match debug_shared::<AnyRun, Printed, _, _, R, O, E>(
        threads, alloc, json, from, openers, keeping, output, error,
    ) {
        Ok((status, kept)) => {
            let shown = report(of_page(shown_in(names.page, &kept)), &mut world.error);
            Ok(first_status(status, shown))
        }
        Err(fault) => Err(Fault::Race(fault)),
    }
}
