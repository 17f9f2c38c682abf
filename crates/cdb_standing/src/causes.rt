//! The direct causes of an event: of each process the last step on which it depends, where nothing lies between.

ghost use Rattle.std.specs.Prelude.{◌≡◌, ◌↔◌, ℕ, IsTrue, Some};
ghost use Rattle.cdb_base.specs.declared.event.Event.TheVariants.{Step};
ghost use Rattle.cdb_standing.specs.Accesses.{accessed as accessed_by, writes as writes_of, IsRisingBy};
ghost use Rattle.cdb_standing.specs.Causes.{sent_by, HasAccessBetween, HasConflictBetween};
ghost use Rattle.cdb_standing.specs.Causes.{IsLastByList, IsLastCause, IsLastCauseOrNone};
ghost use Rattle.cdb_standing.specs.Causes.{FindsBetween, IsDirectOf, AreDirect, AreDirectByName};
ghost use Rattle.cdb_standing.specs.Kept.{AreKept};
ghost use Rattle.cdb_standing.specs.Tables.{IsEntry, Stands};

use crate::accesses::{accessed, conflicts, last_before};
use crate::find::find_marked;
use crate::table::item;
use crate::tables::{Access, Entry, Tables};
use cdb_base::{Event, Kind, Proc, StepId, StepName};
use smallvec::SmallVec;
use std::alloc::Global;

/// The number of the step of process `q` that sends the `m`-th message of process `s`, if one does.
fn by_message(tables: &Tables, s: Proc, m: u16, q: Proc) -> Option<u16>
    requires { AreKept tables.now }
    ensures { result ≡ sent_by tables.now s m q }
{
    if s == q {
        Some(item(&tables.sent, s, m)?.k)
    } else {
        None
    }
}

/// The number of the last step before a mark on a list.
fn by_list(list: &[Access], ahead: u64) -> Option<u16>
    requires { IsRisingBy list.now }
    ensures { IsLastByList list.now ahead result }
{
    Some(last_before(list, ahead)?.k)
}

/// The number of the last step of process `q` on which the `k`-th step of process `p` depends: its own last step before
/// it, or else the send of what it receives, or the last access of its register with which it is in conflict.
pub(crate) fn last_cause_of_step(
    tables: &Tables,
    p: Proc,
    k: u16,
    kind: &Kind,
    ahead: u64,
    q: Proc,
) -> Option<u16>
    requires kept { AreKept tables.now }
    requires at { IsEntry tables.now p k ahead kind.now }
    ensures { IsLastCauseOrNone tables.now (Step p k kind.now) ahead q result }
{
    if p == q {
        return if k > 1 { Some(k - 1) } else { None };
    }
    match kind {
        Kind::Recv(s, m) => by_message(tables, *s, *m, q),
        _ => by_list(conflicts(tables, q, *kind), ahead),
    }
}

/// The number of the last step of process `q` on which an event depends.
pub(crate) fn last_cause(tables: &Tables, effect: &Event, ahead: u64, q: Proc) -> Option<u16>
    requires kept { AreKept tables.now }
    requires stands { Stands tables.now ahead effect.now }
    ensures { IsLastCauseOrNone tables.now effect.now ahead q result }
{
    match effect {
        Event::Step { p, k, kind } => last_cause_of_step(tables, *p, *k, kind, ahead, q),
        Event::Lost(copy) => by_message(tables, copy.msg.s, copy.msg.m, q),
    }
}

/// Whether a step of that kind writes a register.
fn writes(kind: &Kind) -> bool
    ensures { result ≡ writes_of kind.now }
{
    match kind {
        Kind::Write(_) => true,
        _ => false,
    }
}

/// Whether steps of both kinds access one register.
fn access_one(kind: &Kind, other: &Kind) -> bool
    ensures same { IsTrue result → accessed_by kind.now ≡ accessed_by other.now }
    ensures none { (n : ℕ) → accessed_by kind.now ≡ Some n → accessed_by other.now ≡ Some n → IsTrue result }
{
    match accessed(kind) {
        Some(n) => match accessed(other) {
            Some(m) => m == n,
            None => false,
        },
        None => false,
    }
}

/// Whether an access of a list has a mark between two.
fn has_between(list: &[Access], behind: u64, ahead: u64) -> bool
    requires { IsRisingBy list.now }
    ensures { IsTrue result ↔ HasAccessBetween list.now behind ahead }
{
    match last_before(list, ahead) {
        Some(access) => behind < access.mark,
        None => false,
    }
}

/// Whether process `s` has an access between two steps that access one register, the later one of process `p`, that
/// depends on the earlier one and on which the later one depends. What is in conflict with a read is so with a write.
fn is_between(tables: &Tables, cause: &Entry, p: Proc, kind: &Kind, ahead: u64, s: Proc) -> bool
    requires kept { AreKept tables.now }
    requires same { accessed_by cause.now.kind ≡ accessed_by kind.now }
    ensures { IsTrue result
        ↔ HasConflictBetween tables.now cause.now.kind cause.now.mark p kind.now ahead s }
{
    if s == p || writes(kind) {
        has_between(conflicts(tables, s, cause.kind), cause.mark, ahead)
    } else {
        has_between(conflicts(tables, s, *kind), cause.mark, ahead)
    }
}

/// Whether between a step of process `p` and the last of another one's steps on which it depends there is an event that
/// depends on the cause, and on which the step depends: an access of a register that both access.
fn is_hidden_from_step(
    tables: &Tables,
    cause: &Entry,
    p: Proc,
    k: u16,
    kind: &Kind,
    ahead: u64,
) -> bool
    requires kept { AreKept tables.now }
    requires at { IsEntry tables.now p k ahead kind.now }
    ensures { (q l : ℕ) → IsLastCause tables.now (Step p k kind.now) ahead q l cause.now.mark cause.now.kind →
        FindsBetween tables.now (Step q l cause.now.kind) cause.now.mark (Step p k kind.now) ahead result }
{
    if !access_one(&cause.kind, kind) {
        return false;
    }
    for i in 0..9u8 {
        let s = Proc::new(i + 1);
        if is_between(tables, cause, p, kind, ahead, s) {
            return true;
        }
    }
    false
}

/// Whether between an event and the last step of a process on which it depends there is an event that depends on that
/// step, and on which the event depends.
fn is_hidden(tables: &Tables, cause: &Entry, effect: &Event, ahead: u64) -> bool
    requires kept { AreKept tables.now }
    requires stands { Stands tables.now ahead effect.now }
    ensures { (q l : ℕ) → IsLastCause tables.now effect.now ahead q l cause.now.mark cause.now.kind →
        FindsBetween tables.now (Step q l cause.now.kind) cause.now.mark effect.now ahead result }
{
    match effect {
        Event::Step { p, k, kind } => is_hidden_from_step(tables, cause, *p, *k, kind, ahead),
        Event::Lost(_) => false,
    }
}

/// The name of the direct cause of an event that is a step of process `q`, if one is.
fn direct_of(tables: &Tables, effect: &Event, ahead: u64, q: Proc) -> Option<StepId>
    requires kept { AreKept tables.now }
    requires stands { Stands tables.now ahead effect.now }
    ensures { IsDirectOf tables.now effect.now ahead q result }
{
    let k = last_cause(tables, effect, ahead, q)?;
    let cause = item(&tables.steps, q, k)?;
    if is_hidden(tables, cause, effect, ahead) {
        None
    } else {
        Some(StepId::Step(StepName { p: q, k }))
    }
}

/// The names of the direct causes of an event, by process.
fn direct_in(alloc: Global, tables: &Tables, effect: &Event, ahead: u64) -> SmallVec<StepId, 9>
    requires kept { AreKept tables.now }
    requires stands { Stands tables.now ahead effect.now }
    ensures { AreDirect tables.now effect.now ahead 9 result.items }
{
    let mut causes = SmallVec::new(alloc);
    for i in 0..9u8 {
        if let Some(name) = direct_of(tables, effect, ahead, Proc::new(i + 1)) {
            causes.push_reserved(name);
        }
    }
    causes
}

/// The names of the direct causes of the event of that name, which stands.
pub(crate) fn causes_in(alloc: Global, tables: &Tables, name: &StepId) -> SmallVec<StepId, 9>
    requires { AreKept tables.now }
    ensures { AreDirectByName tables.now name.now result.items }
{
    match find_marked(tables, name) {
        Some(it) => direct_in(alloc, tables, &it.event, it.mark),
        None => SmallVec::new(alloc),
    }
}
