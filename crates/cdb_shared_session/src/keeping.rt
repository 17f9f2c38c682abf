//! A journal that is kept in a file while its sessions go on.

ghost use Rattle.std.specs.Prelude.{◌≡◌, ◌+◌, ◌≤◌, List, Option, IfOk, IfSome, drop, length};
ghost use Rattle.cdb_base.specs.Limits.{MAX_ENTRIES};
ghost use Rattle.cdb_control.specs.declared.control.Entry.{Entry as AnEntry};
ghost use Rattle.cdb_control.specs.Journal.{Begins};
ghost use Rattle.cdb_shared.specs.Seats.{RestsAt, IsLater};
ghost use Rattle.cdb_shared_session.specs.KeptOutcomes.{AreKept, GoesOnKeeping, HasKept, IsKept, Keeps};

use crate::reports::write_journal;
use cdb_control::Entry;
use cdb_rules::Runs;
use cdb_shared::{Shared, Watch};
use cdb_streams::{Failed, OutputFault, Sink};
use std::alloc::Global;
use std::sync::Wait;
use std::sync::atomic::{AtomicU64, Ordering};
use std::thread;
use std::time::{Clock, Duration};

/// How many milliseconds pass between two looks at the journal.
const PAUSE: u64 = 100;

/// A file in which a journal was kept, and whether it has the whole journal.
#[derive(Drop)]
pub struct Kept<J> {
    pub file: J,
    pub outcome: Result<(), OutputFault>,
}

/// A journal that is being kept: what sees it, the file, if there is one, and how many entries the file has.
#[derive(Drop)]
pub(crate) struct Keeping<R: Runs, J> {
    pub(crate) watch: Watch<R>,
    pub(crate) file: Option<J>,
    pub(crate) count: Result<usize, Failed>,
}

/// Adds these entries to a file that has the first `count` already, in one piece, and returns how many it then has.
/// Where memory is out it adds none.
///
/// # Errors
/// `Failed` where the file can't be written; it has a beginning of them.
pub(crate) fn add<J: Sink>(
    alloc: Global,
    entries: &[Entry],
    file: &mut J,
    count: usize,
) -> Result<usize, Failed>
    requires { count + length entries.now ≤ MAX_ENTRIES }
    ensures { (seen : List AnEntry) → entries.now ≡ drop count seen → count ≤ length seen →
        Keeps J.stream file.old file.new count result seen }
{
    match write_journal(alloc, entries, file) {
        Ok(()) => Ok(count + entries.len()),
        Err(OutputFault::Write) => Err(Failed),
        Err(OutputFault::NoMemory(_)) => Ok(count),
    }
}

/// Adds the entries after the first `count` to the file, in one piece, and returns how many it then has. Where memory
/// is out it adds none.
///
/// # Errors
/// `Failed` where the file can't be written; it has a beginning of them.
pub(crate) fn keep_new<R: Runs, J: Sink, Rt: Wait>(
    shared: &Shared<R>,
    rt: &Rt,
    alloc: Global,
    watch: &mut Watch<R>,
    file: &mut J,
    count: usize,
) -> Result<usize, Failed>
    requires rests { RestsAt shared.now watch.old }
    requires seen { count ≤ length watch.old.seen }
    ensures later { IsLater watch.old watch.new }
    ensures kept { Keeps J.stream file.old file.new count result watch.new.seen }
{
    let Ok(entries) = shared.look(rt, alloc, watch, count) else {
        return Ok(count);
    };
    add(alloc, entries.as_slice(), file, count)
}

/// Adds what is new to the file again and again, until none of the seats is going on.
///
/// # Errors
/// `Failed` where the file can't be written; it has a beginning of what was seen.
#[tactic(auto, using(crate::proofs::KeptEntries::keeps_then))]
fn keep_on<R: Runs, J: Sink, Rt: Wait + Clock>(
    shared: &Shared<R>,
    rt: &Rt,
    alloc: Global,
    watch: &mut Watch<R>,
    file: &mut J,
    first: usize,
    going: &AtomicU64,
) -> Result<usize, Failed>
    requires rests { RestsAt shared.now watch.old }
    requires seen { first ≤ length watch.old.seen }
    ensures later { IsLater watch.old watch.new }
    ensures kept { Keeps J.stream file.old file.new first result watch.new.seen }
{
    let mut count = first;
    for _ in rt.forever() {
        let have_ended = going.load(Ordering::SeqCst) == 0;
        count = keep_new(shared, rt, alloc, watch, file, count)?;
        if have_ended {
            return Ok(count);
        }
        thread::sleep(rt, Duration::from_millis(PAUSE));
    }
    unreachable!()
}

/// Keeps the journal in the file, if there is one, until none of the seats is going on.
#[tactic(auto, using(crate::proofs::KeptEntries::keeps_on))]
pub(crate) fn keep<R: Runs, J: Sink + Drop, Rt: Wait + Clock>(
    shared: &Shared<R>,
    rt: &Rt,
    alloc: Global,
    keeping: Keeping<R, J>,
    going: &AtomicU64,
) -> Keeping<R, J>
    requires rests { RestsAt shared.now keeping.watch }
    requires seen { IfOk keeping.count (λ count. count ≤ length keeping.watch.seen) }
    ensures later { IsLater keeping.watch result.watch }
    ensures kept { GoesOnKeeping J.stream keeping result }
{
    let Keeping {
        mut watch,
        file,
        count,
    } = keeping;
    match (file, count) {
        (Some(mut file), Ok(first)) => {
            let count = keep_on(shared, rt, alloc, &mut watch, &mut file, first, going);
            Keeping {
                watch,
                file: Some(file),
                count,
            }
        }
        (file, count) => Keeping { watch, file, count },
    }
}

/// Adds what the file lacks of the journal.
#[tactic(auto, using(crate::proofs::KeptEntries::behind, crate::proofs::KeptEntries::kept_rest))]
pub(crate) fn keep_rest<J: Sink + Drop>(
    alloc: Global,
    journal: &[Entry],
    mut file: J,
    count: Result<usize, Failed>,
) -> Kept<J>
    requires { IfOk count (λ count. count ≤ length journal.now) }
    ensures { (first : J) (seen : List AnEntry) → Begins seen journal.now →
        Keeps J.stream first file 0 count seen → IsKept J.stream result.outcome first result.file journal.now }
{
    match count {
        Ok(count) => {
            let outcome = write_journal(alloc, &journal[count..], &mut file);
            Kept { file, outcome }
        }
        Err(Failed) => Kept {
            file,
            outcome: Err(OutputFault::Write),
        },
    }
}

/// Adds what the file, if there is one, lacks of the journal.
pub(crate) fn keep_end<J: Sink + Drop>(
    alloc: Global,
    journal: &[Entry],
    file: Option<J>,
    count: Result<usize, Failed>,
) -> Option<Kept<J>>
    requires { IfSome file (λ _. IfOk count (λ count. count ≤ length journal.now)) }
    ensures { (first : Option J) (seen : List AnEntry) → Begins seen journal.now →
        AreKept J.stream first file count seen → HasKept J.stream first result journal.now }
{
    match file {
        Some(file) => Some(keep_rest(alloc, journal, file, count)),
        None => None,
    }
}
