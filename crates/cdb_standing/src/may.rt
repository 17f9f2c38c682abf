//! Whether an event may be added.

ghost use Rattle.std.specs.Prelude.{◌≡◌, ◌+◌, ◌↔◌, length, IsTrue};
ghost use Rattle.cdb_standing.specs.Kept.{AreKept};
ghost use Rattle.cdb_standing.specs.Moves.{IsNextStep, IsPending, MayDo};
ghost use Rattle.cdb_standing.specs.Tables.{history_in, rows_in, IsCopy, MayMail};
ghost use Rattle.cdb_standing.specs.declared.tables.Copied.TheVariants.{Waits};

use crate::copies::copy_of;
use crate::table::row;
use crate::tables::{Copied, Sent, Tables};
use cdb_base::{CopyName, Kind, Proc};

/// Whether a copy waits.
fn waits(sent: &Vec<Vec<Sent>>, s: Proc, m: u16, to: Proc) -> bool
    requires { length sent.now.items ≡ 9 }
    ensures { IsTrue result ↔ IsCopy (rows_in sent.now.items) s m to Waits }
{
    matches!(copy_of(sent, s, m, to), Some(Copied::Waits))
}

/// Whether a step has the next number of its process.
pub(crate) fn is_next_step(tables: &Tables, p: Proc, k: u16) -> bool
    requires { AreKept tables.now }
    ensures { IsTrue result ↔ IsNextStep (history_in tables.now) p k }
{
    row(&tables.steps, p).len() + 1 == k as usize
}

/// Whether a step that does that finds what it needs: the number of the message that it sends is the next, the copy
/// that it receives waits.
fn may_mail(sent: &Vec<Vec<Sent>>, p: Proc, kind: &Kind) -> bool
    requires { length sent.now.items ≡ 9 }
    ensures { IsTrue result ↔ MayMail p kind.now (rows_in sent.now.items) }
{
    match *kind {
        Kind::Send(m) => row(sent, p).len() + 1 == m as usize,
        Kind::Recv(s, m) => waits(sent, s, m, p),
        _ => true,
    }
}

/// Whether a step may do that.
pub(crate) fn may_do(tables: &Tables, p: Proc, kind: &Kind) -> bool
    requires { AreKept tables.now }
    ensures { IsTrue result ↔ MayDo (history_in tables.now) p kind.now }
{
    let _number = p.number();
    may_mail(&tables.sent, p, kind)
}

/// Whether a copy may be lost: it is pending.
pub(crate) fn is_pending(tables: &Tables, copy: &CopyName) -> bool
    requires { AreKept tables.now }
    ensures { IsTrue result ↔ IsPending (history_in tables.now) copy.now.to copy.now.msg.s copy.now.msg.m }
{
    let _number = copy.to.number();
    waits(&tables.sent, copy.msg.s, copy.msg.m, copy.to)
}
