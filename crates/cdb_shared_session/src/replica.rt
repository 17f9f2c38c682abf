//! A control of a seat's own that follows the journal, so that what others do can be told as it comes.

ghost use Rattle.std.specs.Prelude.{◌≡◌, ℕ, ◌≤◌, ◌⊎◌, [], length, IfOk, Some};
ghost use Rattle.cdb_base.specs.Limits.{MAX_ENTRIES, MAX_SEATS};
ghost use Rattle.cdb_journal.specs.OpenedFrom.{opened_from};
ghost use Rattle.cdb_session.specs.News.{news_up_to};
ghost use Rattle.cdb_shared.specs.Seats.{IsLater, RestsAt, SameCalls};
ghost use Rattle.cdb_shared_session.specs.Replicas.{IsReplica};
ghost use Rattle.cdb_shared_session.specs.SeatParts.{part_seen};

use cdb_base::NoMemory;
use cdb_control::Control;
use cdb_journal::{follow, open_on};
use cdb_rules::Runs;
use cdb_session::News;
use cdb_setup::Setup;
use cdb_shared::{Seat, Shared};
use std::alloc::Global;
use std::sync::Wait;

/// The control that is given, where it has carried out at most this number of entries, or else a new one of the setup
/// with 1 to 64 seats.
pub(crate) fn replica_of<R: Runs>(
    alloc: Global,
    setup: &Setup,
    seats: u8,
    replica: Option<Control<R>>,
    most: usize,
) -> Result<Control<R>, NoMemory>
    requires some { (1 ≤ seats) × (seats ≤ MAX_SEATS) }
    ensures which { IfOk result
        (λ control. (replica ≡ Some control) ⊎ (control ≡ opened_from setup.now seats [])) }
    ensures most { IfOk result (λ control. length control.journal ≤ most) }
{
    if let Some(replica) = replica {
        if replica.journal().len() <= most {
            return Ok(replica);
        }
        replica.close();
    }
    let setup = setup.copy(alloc)?;
    open_on(alloc, setup, seats, &[])
}

/// What others did, as a seat is told it from this entry on, or nothing where nobody watches, and how many entries the
/// journal has. A replica of the control, which has no more than those before that entry, carries out what it has not.
/// After `NoMemory` the replica is gone.
pub(crate) fn news_for<R: Runs, Rt: Wait>(
    shared: &Shared<R>,
    rt: &Rt,
    alloc: Global,
    seat: &mut Seat<R>,
    replica: Control<R>,
    from: Option<usize>,
) -> Result<(Control<R>, News), NoMemory>
    requires rests { RestsAt shared.now seat.old }
    requires replica { IsReplica seat.old replica }
    requires from { (position : ℕ) → from ≡ Some position → length replica.journal ≤ position }
    ensures seat { IsLater seat.old seat.new }
    ensures calls { SameCalls seat.old seat.new.seen }
    ensures limit { length seat.new.seen ≤ MAX_ENTRIES }
    ensures replica { IfOk result (λ said. IsReplica seat.new said.0) }
    ensures seen { IfOk result (λ said. said.1.seen ≡ length seat.new.seen) }
    ensures news { IfOk result
        (λ said. said.1.text.items ≡ news_up_to (part_seen R.rules seat.new) from said.1.seen) }
{
    let known = replica.journal().len();
    let entries = match shared.journal(rt, alloc, seat, known) {
        Ok(entries) => entries,
        Err(refused) => {
            replica.close();
            return Err(refused);
        }
    };
    let seen = known + entries.len();
    let first = from.unwrap_or(seen);
    let (replica, text) = follow(alloc, replica, seat.number(), entries.as_slice(), first)?;
    Ok((replica, News { text, seen }))
}
