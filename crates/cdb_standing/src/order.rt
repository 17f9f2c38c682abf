//! The events that numbers cut off, in the order in which they were taken.

ghost use Rattle.std.specs.Prelude.{◌≡◌, ◌+◌, ◌<◌, ◌≤◌, ◌++◌, ◌∷◌, [], None};
ghost use Rattle.std.specs.Prelude.{IfOk, OnOk, IfSome, IfNone};
ghost use Rattle.cdb_base.specs.declared.event.Kind.{Kind as AKind};
ghost use Rattle.cdb_base.specs.declared.event.Kind.TheVariants.{Send};
ghost use Rattle.cdb_standing.specs.Gathered.{losses_of, of_step, AreGathered, AreInOrder};
ghost use Rattle.cdb_standing.specs.Gathered.{IsNext, IsNextOrNone, NoneIsLeft, IsGathered};
ghost use Rattle.cdb_standing.specs.InOrder.{events_of};
ghost use Rattle.cdb_standing.specs.Kept.{AreKept};
ghost use Rattle.cdb_standing.specs.Tables.{loss_at, IsEntry};

use crate::table::{item, row};
use crate::tables::{Copied, Entry, Marked, Tables};
use cdb_base::{CopyName, Event, Kind, MsgName, NoMemory, Proc, Reg};
use std::alloc::Global;

/// Adds an event with its mark. Mostly there is room for it.
#[inline(always)]
fn push_marked(found: &mut Vec<Marked>, it: Marked) -> Result<(), NoMemory>
    ensures { OnOk result (found.new.items ≡ found.old.items ++ it ∷ []) }
{
    // Names each type inside a marked event: the checker asks for that where one is passed for a type parameter.
    let _parts: (Option<Event>, Option<Kind>, Option<Reg>) = (None, None, None);
    if found.len() < found.capacity() {
        found.push_reserved(it);
        return Ok(());
    }
    found.push(it)?;
    Ok(())
}

/// Adds the loss of a copy, where it is lost.
fn push_loss(copy: CopyName, copied: Copied, found: &mut Vec<Marked>) -> Result<(), NoMemory>
    ensures { OnOk result (found.new.items ≡ found.old.items ++ loss_at copy.msg.s copy.msg.m copy.to copied) }
{
    if let Copied::Lost(mark) = copied {
        let event = Event::Lost(copy);
        found.push(Marked { mark, event })?;
    }
    Ok(())
}

/// Adds the losses of the copies of a message, where it was sent.
fn push_losses(tables: &Tables, s: Proc, m: u16, found: &mut Vec<Marked>) -> Result<(), NoMemory>
    requires { AreKept tables.now }
    ensures { OnOk result (found.new.items ≡ found.old.items ++ losses_of tables.now s (Send m)) }
{
    let Some(it) = item(&tables.sent, s, m) else {
        return Ok(());
    };
    for i in 0..9u8 {
        let msg = MsgName { s, m };
        let to = Proc::new(i + 1);
        push_loss(CopyName { msg, to }, it.copies[i as usize], found)?;
    }
    Ok(())
}

/// Adds a step, and the losses of the copies of what it sent.
#[inline(always)]
fn push_step(
    tables: &Tables,
    p: Proc,
    k: u16,
    entry: &Entry,
    found: &mut Vec<Marked>,
) -> Result<(), NoMemory>
    requires { AreKept tables.now }
    ensures { OnOk result (found.new.items ≡ found.old.items ++ of_step tables.now p k entry.now) }
{
    let kind = entry.kind;
    let event = Event::Step { p, k, kind };
    let mark = entry.mark;
    push_marked(found, Marked { mark, event })?;
    match &entry.kind {
        Kind::Send(m) => push_losses(tables, p, *m, found),
        _ => Ok(()),
    }
}

/// A step that is the next of its process to be gathered: the index of the process, its number, and when it was taken.
#[derive(Clone, Copy)]
pub(crate) struct Next {
    pub(crate) i: usize,
    pub(crate) k: u16,
    pub(crate) mark: u64,
}

/// The next step of the process at an index, where one is left.
#[inline(always)]
fn next_at(tables: &Tables, from: &[usize; 9], i: usize) -> Option<Next>
    requires kept { AreKept tables.now }
    requires few { i < 9 }
    ensures { IsNextOrNone tables.now from.now i result }
{
    let j = from[i].saturating_sub(1);
    let mark = row(&tables.steps, Proc::new(i as u8 + 1)).get(j)?.mark;
    let k = j as u16 + 1;
    Some(Next { i, k, mark })
}

/// Of the next steps of the processes at the indexes from `start` to `end`, and of another one, the earliest, or the
/// first that was taken at `low`.
fn earliest(
    tables: &Tables,
    from: &[usize; 9],
    start: usize,
    end: usize,
    low: u64,
    other: Option<Next>,
) -> Option<Next>
    requires kept { AreKept tables.now }
    requires few { end ≤ 9 }
    requires left { IfSome other (IsNext tables.now from.now) }
    ensures left { IfSome result (IsNext tables.now from.now) }
    ensures none { IfNone result ((other ≡ None) × NoneIsLeft tables.now from.now start end) }
{
    let mut found = other;
    for i in start..end {
        if let Some(next) = next_at(tables, from, i) {
            if next.mark == low {
                return Some(next);
            }
            match found {
                Some(least) if least.mark < next.mark => {}
                _ => found = Some(next),
            }
        }
    }
    found
}

/// The earliest of all next steps. The look begins at a process, and ends at a step that was taken at `low`, before
/// which none is left: mostly it is one of that process, or of the one behind it.
fn first_left(tables: &Tables, from: &[usize; 9], start: usize, low: u64) -> Option<Next>
    requires kept { AreKept tables.now }
    requires few { start < 9 }
    ensures left { IfSome result (IsNext tables.now from.now) }
    ensures none { IfNone result (NoneIsLeft tables.now from.now 0 9) }
{
    let found = earliest(tables, from, start, 9, low, None);
    if let Some(next) = found {
        if next.mark == low {
            return Some(next);
        }
    }
    earliest(tables, from, 0, start, low, found)
}

/// About how many events the numbers cut off: the steps, without losses.
fn count_steps(tables: &Tables, cuts: &[usize; 9]) -> usize
    requires { AreKept tables.now }
{
    let mut count = 0usize;
    for i in 0..9 {
        let before = cuts[i].saturating_sub(1);
        count = count.saturating_add(tables.steps[i].len().saturating_sub(before));
    }
    count
}

/// Adds the next step of a process, with those losses.
#[inline(always)]
fn push_next(tables: &Tables, next: Next, found: &mut Vec<Marked>) -> Result<(), NoMemory>
    requires kept { AreKept tables.now }
    requires few { next.i < 9 }
    requires at { (kind : AKind) × IsEntry tables.now (next.i + 1) next.k next.mark kind }
    ensures { OnOk result (IsGathered tables.now next found.old.items found.new.items) }
{
    let p = Proc::new(next.i as u8 + 1);
    match item(&tables.steps, p, next.k) {
        Some(entry) => push_step(tables, p, next.k, entry, found),
        None => Ok(()),
    }
}

/// What the numbers cut off, with its marks, in the order of its marks but for the losses.
fn gathered(alloc: Global, tables: &Tables, cuts: &[usize; 9]) -> Result<Vec<Marked>, NoMemory>
    requires { AreKept tables.now }
    ensures { IfOk result (λ found. AreGathered cuts.now tables.now found.items) }
{
    let mut found = Vec::with_capacity(alloc, count_steps(tables, cuts))?;
    let mut from = *cuts;
    let mut start = 0;
    let mut low = 0;
    while let Some(next) = first_left(tables, &from, start, low) {
        start = next.i;
        low = next.mark.saturating_add(1);
        from[start] = next.k as usize + 1;
        push_next(tables, next, &mut found)?;
    }
    Ok(found)
}

/// The events alone.
fn without_marks(alloc: Global, found: &[Marked]) -> Result<Vec<Event>, NoMemory>
    ensures { IfOk result (λ events. events.items ≡ events_of found.now) }
{
    let mut events = Vec::with_capacity(alloc, found.len())?;
    for it in found {
        events.push_reserved(it.event);
    }
    Ok(events)
}

/// What the numbers cut off, in the order of its marks. It is gathered so that the sort only moves losses.
pub(crate) fn in_order(
    alloc: Global,
    tables: &Tables,
    cuts: &[usize; 9],
) -> Result<Vec<Event>, NoMemory>
    requires { AreKept tables.now }
    ensures { IfOk result (λ events. AreInOrder cuts.now tables.now events.items) }
{
    let mut found = gathered(alloc, tables, cuts)?;
    found.sort_by_key(|it| it.mark)?;
    without_marks(alloc, &found)
}

/// A list of one event.
pub(crate) fn one_event(alloc: Global, event: Event) -> Result<Vec<Event>, NoMemory>
    ensures { IfOk result (λ events. events.items ≡ event ∷ []) }
{
    // Names each type inside an event: the checker asks for that where an event is passed for a type parameter.
    let _parts: (Option<Kind>, Option<Reg>) = (None, None);
    let mut events = Vec::new(alloc);
    events.push(event)?;
    Ok(events)
}
