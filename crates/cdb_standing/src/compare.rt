//! What two histories are compared by, in the tables: the writes before a mark, and the losses.

ghost use Rattle.std.specs.Prelude.{◌≡◌, ◌↔◌, ◌+◌, ◌<◌, All, length, IsTrue};
ghost use Rattle.std.specs.List.{count_by};
ghost use Rattle.cdb_base.specs.Processes.{all_processes};
ghost use Rattle.cdb_standing.specs.Counts.{is_write_before, HasLost, LoseSameOf, LoseSameIn};
ghost use Rattle.cdb_standing.specs.Kept.{AreKept};
ghost use Rattle.cdb_standing.specs.Tables.{rows_in, row_of, standing};

use crate::accesses::{count_before, list_of};
use crate::table::row;
use crate::tables::{Copied, Sent, Tables};
use cdb_base::Proc;

/// How many writes of the register of that number have lower marks.
pub(crate) fn writes_before(tables: &Tables, n: usize, mark: u64) -> usize
    requires kept { AreKept tables.now }
    requires few { n < 11 }
    ensures { result ≡ count_by (is_write_before n mark) (standing tables.now) }
{
    let mut count = 0;
    for i in 0..9u8 {
        count += count_before(list_of(&tables.writes, Proc::new(i + 1), n), mark);
    }
    count
}

/// Whether a copy of the message at that index of a row is lost.
fn has_lost(row: &[Sent], j: usize, to: Proc) -> bool
    ensures { IsTrue result ↔ HasLost row.now (j + 1) to }
{
    match row.get(j) {
        Some(it) => matches!(it.copies[to.index()], Copied::Lost(_)),
        None => false,
    }
}

/// Whether of the messages at that index of two rows the same copies are lost.
fn lose_same_copies(row: &[Sent], other: &[Sent], j: usize) -> bool
    ensures { IsTrue result ↔ LoseSameOf row.now other.now (j + 1) }
{
    Proc::all()
        .iter()
        .all(|to| has_lost(row, j, *to) == has_lost(other, j, *to))
}

/// Whether of the messages of two rows the same copies are lost.
fn lose_same(row: &[Sent], other: &[Sent]) -> bool
    ensures { IsTrue result ↔ LoseSameIn row.now other.now }
{
    for j in 0..row.len().max(other.len()) {
        if !lose_same_copies(row, other, j) {
            return false;
        }
    }
    true
}

/// Whether in both tables the same copies are lost.
pub(crate) fn have_same_losses(sent: &Vec<Vec<Sent>>, other: &Vec<Vec<Sent>>) -> bool
    requires nine { length sent.now.items ≡ 9 }
    requires other_nine { length other.now.items ≡ 9 }
    ensures { IsTrue result
        ↔ All (λ s. LoseSameIn (row_of (rows_in sent.now.items) s) (row_of (rows_in other.now.items) s)) all_processes }
{
    Proc::all()
        .iter()
        .all(|s| lose_same(row(sent, *s), row(other, *s)))
}
