//! The control: the control state, and the journal that led to it.
ghost use Rattle.std.specs.Prelude.{◌≡◌, ◌≢◌, true, false, ◌-◌, ◌<◌, ◌≤◌, ◌↔◌, ◌⊎◌, max, Err, IfOk, OnOk};
ghost use Rattle.std.specs.Prelude.{OnErr, length, replicate, vec_capacity, ◌++◌, ◌∷◌, []};
ghost use Rattle.std.specs.Result.{result_ok};
ghost use Rattle.cdb_commands.specs.ReplyView.{reply_view};
ghost use Rattle.cdb_control.specs.Auto.{choice};
ghost use Rattle.cdb_control.specs.Headline.{Headline};
ghost use Rattle.cdb_control.specs.Journal.{entry, opened, extended, reply_in, control_state};
ghost use Rattle.cdb_control.specs.Journal.{AreOfSeats, NeedsNoMemory};
ghost use Rattle.cdb_control.specs.Laws.{IsKeptIfRefused, KeepsOtherLists, UsesNumbersOnce};
ghost use Rattle.cdb_control.specs.Room.{cost, room_of, with_room, raised};

use crate::state::ControlState;
use cdb_base::limits::{MAX_ENTRIES, MAX_SEATS};
use cdb_base::{Act, NoMemory, Reg};
use cdb_commands::{Command, Reply, Stop, View};
use cdb_rules::Runs;
use cdb_setup::Setup;
use std::alloc::Global;
use std::error::Error;
use std::fmt;
use std::marker::Model;

/// One entry of a journal.
#[derive(Clone, Copy, PartialEq)]
pub struct Entry {
    pub seat: u8,
    pub command: Command,
}

/// Why a command was not carried out. Nothing has changed then.
#[derive(Debug, Clone, Copy, PartialEq)]
pub enum CallFault {
    /// The journal has as many entries as it may have.
    JournalFull,
    NoMemory(NoMemory),
}

impl fmt::Display for CallFault {
    ghost use Rattle.std.specs.Prelude.{Some};
    ghost use Rattle.cdb_control.specs.FaultTexts.{call_fault_text};

    ghost output = { λ fault. Some (call_fault_text fault) };

    fn fmt<W: fmt::Write>(&self, f: &mut fmt::Formatter<W>) -> fmt::Result {
        f.write_str(match self {
            CallFault::JournalFull => "journal full",
            CallFault::NoMemory(_) => "no memory",
        })
    }
}

impl Error for CallFault {}

/// Why a control was not opened.
#[derive(Debug, Clone, Copy, PartialEq)]
pub enum OpenFault {
    /// The number of seats is not one of 1 to 64.
    Seats,
    NoMemory(NoMemory),
}

impl fmt::Display for OpenFault {
    ghost use Rattle.std.specs.Prelude.{Some};
    ghost use Rattle.cdb_control.specs.FaultTexts.{open_fault_text};

    ghost output = { λ fault. Some (open_fault_text fault) };

    fn fmt<W: fmt::Write>(&self, f: &mut fmt::Formatter<W>) -> fmt::Result {
        f.write_str(match self {
            OpenFault::Seats => "not 1 to 64 seats",
            OpenFault::NoMemory(_) => "no memory",
        })
    }
}

impl Error for OpenFault {}

/// To contracts a control is its setup, its number of seats, its journal and the room of each seat. All else is the
/// journal's replay. What holds after any list of commands is one definition, `Headline`, which each control keeps.
#[derive(Drop)]
pub struct Control<R: Runs> {
    seats: u8,
    state: ControlState<R>,
    journal: Vec<Entry>,
    // For each seat the length of the journal up to which the seat has room.
    room_ends: Vec<u32>,
}

impl<R: Runs> Model for Control<R> {
    ghost use Rattle.std.specs.Prelude.{length, vec_capacity};
    ghost use Rattle.cdb_control.specs.Journal.{Journaled};
    ghost use Rattle.cdb_control.specs.Kept.{IsKept, rooms_at};

    ghost Value = { Journaled };

    ghost view = { λ c. record {
      setup = c.state.state.setup;
      seats = c.seats;
      journal = c.journal.items;
      rooms = rooms_at (length c.journal.items) c.room_ends.items;
    } };

    ghost invariant = { λ c. IsKept R.rules c.seats c.journal.items
        (vec_capacity c.journal) c.room_ends.items c.state };
}

impl<R: Runs> Control<R> {
    /// A control of a setup in which nothing has happened, with 1 to 64 seats, none of which has room. After a
    /// fault the setup is given up.
    pub fn open(alloc: Global, setup: Setup, seats: u8) -> Result<Self, OpenFault>
        ensures opened { IfOk result (λ c. c ≡ opened setup seats) }
        ensures seats { (result ≡ Err OpenFault.Seats) ↔ ((seats ≡ 0) ⊎ (MAX_SEATS < seats)) }
        ensures headline { IfOk result
            (λ c. Headline R.rules R.same_state c.setup c.seats c.journal) }
    {
        if seats == 0 || seats > MAX_SEATS {
            return Err(OpenFault::Seats);
        }
        // Its clause says that the parts of the setup are in range.
        let _processes = setup.n();
        let state = match ControlState::open(alloc, setup, seats) {
            Ok(state) => state,
            Err(refused) => return Err(OpenFault::NoMemory(refused)),
        };
        let room_ends = match no_room_ends(alloc, seats) {
            Ok(room_ends) => room_ends,
            Err(refused) => return Err(OpenFault::NoMemory(refused)),
        };
        Ok(Control {
            seats,
            state,
            journal: Vec::new(alloc),
            room_ends,
        })
    }

    /// Carries a command out for a seat, from 1, and adds it to the journal, a refused one too. `JournalFull` comes
    /// before `NoMemory`, and either changes nothing. Where the seat has room, an undo, an undo of a loss, `forget`,
    /// `unbreak` and `resume` need no memory, nor does any command that is refused.
    ///
    /// Promise: Each command has the reply of one table, at the state that the journal so far leads to, and adds its
    /// entry, a refused one too. A fault changes nothing, and `JournalFull` comes exactly at 999,999 entries. A refused
    /// command changes nothing else, other seats' redo lists stay, no number of a breakpoint is used again, and of
    /// every journal the headline holds.
    #[inline(always)]
    pub fn execute(&mut self, alloc: Global, seat: u8, command: Command) -> Result<Reply, CallFault>
        requires from_one { 1 ≤ seat }
        requires to_last { seat ≤ self.old.seats }
        ensures reply { IfOk result (λ r. reply_view r ≡ reply_in R.rules self.old seat command) }
        ensures journal { IfOk result
            (λ _. self.new ≡ extended R.rules self.old seat command) }
        ensures fault { OnErr result (self.new ≡ self.old) }
        ensures full { (result ≡ Err CallFault.JournalFull)
            ↔ (length self.old.journal ≡ MAX_ENTRIES) }
        ensures limit { length self.new.journal ≤ MAX_ENTRIES }
        ensures headline { Headline R.rules R.same_state
            self.new.setup self.new.seats self.new.journal }
        ensures refused { IfOk result (λ r. IsKeptIfRefused R.rules self.old self.new (reply_view r)) }
        ensures others { OnOk result (KeepsOtherLists R.rules self.old self.new seat) }
        ensures numbers { IfOk result
            (λ r. UsesNumbersOnce R.rules self.old self.new command (reply_view r)) }
        ensures spared { NeedsNoMemory R.rules self.old seat command →
            (refused : NoMemory) → result ≢ Err (CallFault.NoMemory refused) }
    {
        make_room(&mut self.journal)?;
        let again = command;
        let reply = match self.state.perform(alloc, seat, again) {
            Ok(reply) => reply,
            Err(refused) => return Err(CallFault::NoMemory(refused)),
        };
        lower(&mut self.room_ends, seat, &reply);
        push_entry(&mut self.journal, seat, command);
        Ok(reply)
    }

    /// Makes room for `count` commands, 0 to 999,999, where the seat has less. It is no command and makes no entry.
    /// After `NoMemory` nothing has changed.
    pub fn reserve(&mut self, _alloc: Global, seat: u8, count: u32) -> Result<(), NoMemory>
        requires from_one { 1 ≤ seat }
        requires to_last { seat ≤ self.old.seats }
        requires few { count ≤ MAX_ENTRIES }
        ensures ok { OnOk result
            (self.new ≡ record self.old { rooms = raised self.old.rooms seat count }) }
        ensures err { OnErr result (self.new ≡ self.old) }
    {
        self.journal.reserve(count as usize)?;
        self.state.reserve(seat, count as usize)?;
        raise(&mut self.room_ends, seat, self.journal.len() as u32 + count);
        Ok(())
    }

    /// How many more commands there can be of any seat before one of this seat that is spared can need memory; at
    /// first 0. A granted rollback of the seat counts as many as it removes.
    ///
    /// Promise: Where a seat has room, its undo, `forget`, `unbreak` and `resume` never return `NoMemory`, nor does a
    /// refused command.
    pub fn room(&self, seat: u8) -> u32
        requires from_one { 1 ≤ seat }
        requires to_last { seat ≤ self.now.seats }
        ensures { result ≡ room_of self.now.rooms seat }
    {
        self.room_ends[seat as usize - 1].saturating_sub(self.journal.len() as u32)
    }

    /// What `auto` would do for a process, whether or not a pause stands; nothing where it would be refused.
    pub fn pick(&self, p: u32) -> Option<Act>
        ensures { result ≡ result_ok
            (choice (R.rules self.now.setup) (control_state R.rules self.now).history p) }
    {
        self.state.choose(p).ok()
    }

    /// The run that the journal leads to.
    pub fn run(&self) -> &R
        ensures setup { (R.run result.now).setup ≡ self.now.setup }
        ensures history { (R.run result.now).history ≡ (control_state R.rules self.now).history }
    {
        self.state.run()
    }

    /// The run that the journal leads to; all else of the control is given up.
    pub fn into_run(self) -> R
        ensures setup { (R.run result).setup ≡ self.setup }
        ensures history { (R.run result).history ≡ (control_state R.rules self).history }
    {
        let Control { state, .. } = self;
        state.into_run()
    }

    /// Gives the control up. Code above drops a control by this call, since the proof of what drops one goes through
    /// all its parts.
    pub fn close(self) {}

    /// How many seats there are, from 1 to 64.
    pub fn seats(&self) -> u8
        ensures { (result ≡ self.now.seats) × (1 ≤ result) × (result ≤ MAX_SEATS) }
    {
        self.seats
    }

    /// The executed commands with their seats, in order.
    pub fn journal(&self) -> &[Entry]
        ensures entries { result.now ≡ self.now.journal }
        ensures seats { AreOfSeats self.now.seats self.now.journal }
        ensures limit { length self.now.journal ≤ MAX_ENTRIES }
        ensures headline { Headline R.rules R.same_state
            self.now.setup self.now.seats self.now.journal }
    {
        self.journal.as_slice()
    }
}

/// No seat has room.
fn no_room_ends(alloc: Global, seats: u8) -> Result<Vec<u32>, NoMemory>
    ensures { IfOk result (λ room_ends. room_ends.items ≡ replicate seats 0) }
{
    Ok(Vec::from_elem(alloc, 0, seats as usize)?)
}

/// Lowers the end of the room of the seat of a command by what the command takes of its room, save the one that its
/// entry takes.
fn lower(room_ends: &mut Vec<u32>, seat: u8, reply: &Reply)
    requires from_one { 1 ≤ seat }
    requires to_last { seat ≤ length room_ends.old.items }
    ensures { room_ends.new.items
        ≡ with_room room_ends.old.items seat
        (room_of room_ends.old.items seat - (cost (reply_view reply.now) - 1)) }
{
    if let Reply::RolledBack(count) = reply {
        let room_end = &mut room_ends[seat as usize - 1];
        *room_end = room_end.saturating_sub(count.saturating_sub(1));
    }
}

/// Raises the end of the room of a seat, where it is lower.
fn raise(room_ends: &mut Vec<u32>, seat: u8, room_end: u32)
    requires from_one { 1 ≤ seat }
    requires to_last { seat ≤ length room_ends.old.items }
    ensures { room_ends.new.items
        ≡ with_room room_ends.old.items seat (max room_end (room_of room_ends.old.items seat)) }
{
    let old = &mut room_ends[seat as usize - 1];
    *old = room_end.max(*old);
}

/// Makes room for an entry, where the journal may have one more. `JournalFull` comes before `NoMemory`.
fn make_room(journal: &mut Vec<Entry>) -> Result<(), CallFault>
    ensures items { journal.new.items ≡ journal.old.items }
    ensures capacity { vec_capacity journal.old ≤ vec_capacity journal.new }
    ensures ok { OnOk result (length journal.new.items < vec_capacity journal.new) }
    ensures few { OnOk result (length journal.old.items < MAX_ENTRIES) }
    ensures full { (result ≡ Err CallFault.JournalFull) ↔ (MAX_ENTRIES ≤ length journal.old.items) }
    ensures spared { length journal.old.items < vec_capacity journal.old →
        (refused : NoMemory) → result ≢ Err (CallFault.NoMemory refused) }
{
    if journal.len() >= MAX_ENTRIES as usize {
        return Err(CallFault::JournalFull);
    }
    match journal.reserve(1) {
        Ok(()) => Ok(()),
        Err(error) => Err(CallFault::NoMemory(NoMemory::from(error))),
    }
}

/// Adds an entry where there is room for it.
fn push_entry(journal: &mut Vec<Entry>, seat: u8, command: Command)
    requires { length journal.old.items < vec_capacity journal.old }
    ensures items { journal.new.items ≡ journal.old.items ++ entry seat command ∷ [] }
    ensures capacity { vec_capacity journal.new ≡ vec_capacity journal.old }
{
    // Names each type inside a command: the checker asks for that where an entry is passed for a type parameter.
    let _parts: (Option<Stop>, Option<Act>, Option<View>, Option<Reg>) = (None, None, None, None);
    journal.push_reserved(Entry { seat, command });
}
