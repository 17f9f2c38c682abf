//! How an event is added.

ghost use Rattle.std.specs.Prelude.{◌≡◌, ◌+◌, ◌<◌, ◌≤◌, length, OnOk};
ghost use Rattle.cdb_standing.specs.Accesses.{accessed as accessed_by, written as written_by, HasRoomToList};
ghost use Rattle.cdb_standing.specs.Accesses.{IsRegisterOf};
ghost use Rattle.cdb_standing.specs.Kept.{IsStepAdded, IsLossSet};
ghost use Rattle.cdb_standing.specs.Tables.{sent_of, HasRoomIn, HasRoomToMail, HoldSame, HasRows, rows_in, HasCopy};
ghost use Rattle.cdb_standing.specs.Tables.{IsMailedBy, MayMail};
ghost use Rattle.cdb_standing.specs.declared.tables.Copied.TheVariants.{Lost};

use crate::accesses::{accessed, list_at, reserve_list, written};
use crate::copies::set_copy;
use crate::table::{put_on, reserve_in, steps_more};
use crate::tables::{Access, Copied, Entry, Sent, Tables};
use cdb_base::{CopyName, Kind, NoMemory, Proc};

/// Makes room for what a step sends, if it sends. The rows hold what they held, whatever is returned.
fn reserve_mail(sent: &mut Vec<Vec<Sent>>, p: Proc, kind: &Kind) -> Result<(), NoMemory>
    requires { length sent.old.items ≡ 9 }
    ensures same { rows_in sent.new.items ≡ rows_in sent.old.items }
    ensures room { OnOk result (HasRoomToMail p kind.now sent.new.items) }
{
    match kind {
        Kind::Send(_) => reserve_in(sent, p.index(), 1),
        _ => Ok(()),
    }
}

/// Makes sure of a mark for one event more. Where none is left, that is refused as out of memory, by a request that no
/// machine can meet.
pub(crate) fn reserve_mark(tables: &Tables) -> Result<(), NoMemory>
    ensures { OnOk result (tables.now.next < u64.MAX) }
{
    if tables.next == u64::MAX {
        let _none: Vec<u8> = Vec::with_capacity(*tables.steps.allocator(), usize::MAX)?;
    }
    Ok(())
}

/// Makes room for a step. What stands stays, whatever is returned.
#[inline(always)]
pub(crate) fn reserve_step(tables: &mut Tables, p: Proc, kind: &Kind) -> Result<(), NoMemory>
    requires { HasRows tables.old }
    ensures same { HoldSame tables.old tables.new }
    ensures mark { OnOk result (tables.new.next < u64.MAX) }
    ensures room { OnOk result (HasRoomIn tables.new.steps.items p) }
    ensures mail { OnOk result (HasRoomToMail p kind.now tables.new.sent.items) }
    ensures accesses { OnOk result (HasRoomToList (accessed_by kind.now) p tables.new.accesses.items) }
    ensures writes { OnOk result (HasRoomToList (written_by kind.now) p tables.new.writes.items) }
{
    reserve_mark(tables)?;
    let count = tables.steps[p.index()].len();
    reserve_in(&mut tables.steps, p.index(), steps_more(count))?;
    reserve_mail(&mut tables.sent, p, kind)?;
    reserve_list(&mut tables.accesses, p, accessed(kind))?;
    reserve_list(&mut tables.writes, p, written(kind))
}

/// Sends or receives what a step sends or receives. It takes no memory.
fn mail(sent: &mut Vec<Vec<Sent>>, p: Proc, k: u16, kind: &Kind)
    requires room { HasRoomToMail p kind.now sent.old.items }
    requires may { MayMail p kind.now (rows_in sent.old.items) }
    ensures { IsMailedBy p k kind.now (rows_in sent.old.items) (rows_in sent.new.items) }
{
    match *kind {
        Kind::Send(_) => {
            let copies = [Copied::Waits; 9];
            put_on(sent, p.index(), Sent { k, copies });
        }
        Kind::Recv(s, m) => set_copy(sent, s, m, p, Copied::Received(k)),
        _ => {}
    }
}

/// Adds a step, for which there is room. It takes no memory.
#[inline(always)]
pub(crate) fn add_step(tables: &mut Tables, p: Proc, k: u16, kind: &Kind)
    requires mark { tables.old.next < u64.MAX }
    requires room { HasRoomIn tables.old.steps.items p }
    requires mail_room { HasRoomToMail p kind.now tables.old.sent.items }
    requires may_mail { MayMail p kind.now (sent_of tables.old) }
    requires accesses_room { HasRoomToList (accessed_by kind.now) p tables.old.accesses.items }
    requires writes_room { HasRoomToList (written_by kind.now) p tables.old.writes.items }
    ensures added { IsStepAdded p k kind.now tables.old tables.new }
    ensures registers { IsRegisterOf accessed_by kind.now }
    ensures process { 1 ≤ p }
{
    let mark = tables.next;
    let entry = Entry { mark, kind: *kind };
    put_on(&mut tables.steps, p.index(), entry);
    mail(&mut tables.sent, p, k, kind);
    list_at(&mut tables.accesses, p, accessed(kind), Access { mark, k });
    list_at(&mut tables.writes, p, written(kind), Access { mark, k });
    tables.next = mark + 1;
}

/// Adds the loss of a copy that waits. It takes no memory.
pub(crate) fn add_loss(tables: &mut Tables, copy: &CopyName)
    requires mark { tables.old.next < u64.MAX }
    requires sent { HasCopy (sent_of tables.old) copy.now.msg.s copy.now.msg.m copy.now.to }
    ensures { IsLossSet tables.old copy.now (Lost tables.old.next) (tables.old.next + 1) tables.new }
{
    let mark = tables.next;
    set_copy(
        &mut tables.sent,
        copy.msg.s,
        copy.msg.m,
        copy.to,
        Copied::Lost(mark),
    );
    tables.next = mark + 1;
}
