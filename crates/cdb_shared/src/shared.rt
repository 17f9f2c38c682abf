//! The shared control: opening it, calling it, meeting and finishing.
ghost use Rattle.std.specs.Prelude.{◌≡◌, ◌<◌, ◌≤◌, ◌↔◌, [], drop, length, vec_len};
ghost use Rattle.std.specs.Prelude.{vec_capacity, All, IfOk, IfErr, OnErr};
ghost use Rattle.cdb_commands.specs.ReplyView.{reply_view};
ghost use Rattle.cdb_control.specs.Journal.{AreOfSeats, Journaled, Begins};
ghost use Rattle.cdb_shared.specs.Seats.{RestsAt, fresh_seat, fresh_seats, IsLater};
ghost use Rattle.cdb_shared.specs.Seats.{IsCall, IsKnownBy, SameCalls, SeesFull};
ghost use Rattle.cdb_shared.specs.Seats.{SeesHeadline, HasHeadline};
ghost use Rattle.cdb_shared.specs.Turn.{story, resting, known_seats_from, AllKnow};
ghost use Rattle.crossbeam_queue.specs.Passes.{view, IsPassOf, ruled_capacity};

use crate::knowledge::{AllSeats, FirstSeat, Stage};
use crate::seat::Seat;
use crate::turn::{Turn, TurnPass, give, take};
use crate::watch::Watch;
use cdb_base::NoMemory;
use cdb_base::limits::MAX_ENTRIES;
use cdb_control::{CallFault, Command, Control, Entry, Reply};
use cdb_rules::Runs;
use std::alloc::Global;
use std::marker::Model;
use std::sync::Wait;

/// A control that threads share. A contract sees which one it is; what its journal has, the seats know.
#[derive(Drop)]
pub struct Shared<T: Runs> {
    pub(crate) turn: Turn<T>,
}

impl<T: Runs> Model for Shared<T> {
    ghost use Rattle.std.specs.Prelude.{◌≡◌};
    ghost use Rattle.atomic_table.specs.Seated.{TableId, table_id_coded};

    ghost Value = { TableId };

    ghost coded = { table_id_coded };

    ghost use Rattle.crossbeam_queue.specs.Passes.{ruled_capacity};

    ghost view = { λ s. s.turn.table.shared.table_id };

    ghost invariant = { λ s. ruled_capacity s.turn ≡ 1 };
}

impl<T: Runs> Shared<T> {
    /// Carries a command out for a seat: takes the turn, executes and gives the turn back. It tries until
    /// it has the turn, so it may wait. After `JournalFull`, where the journal has as many entries as it
    /// can, and after `NoMemory` the control is as it was, and the seat has seen what others did.
    ///
    /// Promise: A call has the reply at the journal that its seat has then seen, with its own calls once each and in
    /// order, and the headline holds of that journal. One that fails adds nothing. The seat has not the turn outside a
    /// call.
    pub fn call<R: Wait>(
        &self,
        rt: &R,
        alloc: Global,
        seat: &mut Seat<T>,
        command: Command,
    ) -> Result<Reply, CallFault>
        requires { RestsAt self.now seat.old }
        ensures seat { IsLater seat.old seat.new }
        ensures call { IfOk result
            (λ reply. IsCall T.rules seat.old command (reply_view reply) seat.new) }
        ensures fault { OnErr result (SameCalls seat.old seat.new.seen) }
        ensures full { IfErr result (λ f. (f ≡ CallFault.JournalFull) ↔ SeesFull seat.new) }
        ensures limit { length seat.new.seen ≤ MAX_ENTRIES }
        ensures headline { SeesHeadline T.rules T.same_state seat.new }
    {
        let mut control = take(rt, &self.turn, &mut seat.pass);
        let reply = control.execute(alloc, seat.number, command);
        give(rt, &self.turn, &mut seat.pass, control);
        reply
    }

    /// The fault of a call for whose reply there is no memory. It may wait for the turn, and lets the seat see
    /// whether the journal is full.
    pub(crate) fn no_room<R: Wait>(
        &self,
        rt: &R,
        seat: &mut Seat<T>,
        refused: NoMemory,
    ) -> CallFault
        requires { RestsAt self.now seat.old }
        ensures seat { IsLater seat.old seat.new × SameCalls seat.old seat.new.seen }
        ensures full { (result ≡ CallFault.JournalFull) ↔ SeesFull seat.new }
        ensures limit { length seat.new.seen ≤ MAX_ENTRIES }
    {
        let held = take(rt, &self.turn, &mut seat.pass);
        let entries = held.journal().len();
        give(rt, &self.turn, &mut seat.pass, held);
        if entries == MAX_ENTRIES as usize {
            CallFault::JournalFull
        } else {
            CallFault::NoMemory(refused)
        }
    }

    /// Shares a control, with one seat for each of its seats, numbered from 1, which has seen the journal
    /// so far. `NoMemory` hands the control back as it was.
    pub fn open<R: Wait>(
        rt: &R,
        alloc: Global,
        control: Control<T>,
    ) -> Result<(Shared<T>, Vec<Seat<T>>), (Control<T>, NoMemory)>
        ensures opened { IfOk result (λ r. r.1.items ≡ fresh_seats r.0 control 1 control.seats) }
        ensures rest { IfOk result (λ r. All (λ seat. RestsAt r.0 seat) r.1.items) }
        ensures refused { IfErr result (λ r. r.0 ≡ control) }
    {
        match Shared::open_watched(rt, alloc, control) {
            Ok((shared, seats, _)) => Ok((shared, seats)),
            Err(refused) => Err(refused),
        }
    }

    /// Shares a control as `open` does, with a watch besides that has seen the journal so far.
    pub fn open_watched<R: Wait>(
        rt: &R,
        alloc: Global,
        control: Control<T>,
    ) -> Result<(Shared<T>, Vec<Seat<T>>, Watch<T>), (Control<T>, NoMemory)>
        ensures opened { IfOk result (λ r. r.1.items ≡ fresh_seats r.0 control 1 control.seats) }
        ensures watch { IfOk result (λ r. r.2 ≡ fresh_seat r.0 control 0) }
        ensures rest { IfOk result (λ r. All (λ seat. RestsAt r.0 seat) r.1.items) }
        ensures refused { IfErr result (λ r. r.0 ≡ control) }
    {
        let count = control.seats();
        let seats = match Vec::with_capacity(alloc, usize::from(count)) {
            Ok(seats) => seats,
            Err(error) => return Err((control, NoMemory::from(error))),
        };
        let (turn, mut pass) = match Turn::<T>::ruled(alloc, 1) {
            Ok((turn, pass)) => (turn, pass),
            Err(error) => return Err((control, NoMemory::from(error))),
        };
        give(rt, &turn, &mut pass, control);
        let alone = turn.another::<FirstSeat>(&mut pass);
        let seats = deal(&turn, pass, count, seats);
        Ok((Shared { turn }, seats, Watch { pass: alone }))
    }

    /// The entries of the journal from this position on, which the watch has then seen. It may wait for the turn, and
    /// leaves the journal as it is.
    pub fn look<R: Wait>(
        &self,
        rt: &R,
        alloc: Global,
        watch: &mut Watch<T>,
        from: usize,
    ) -> Result<Vec<Entry>, NoMemory>
        requires rests { RestsAt self.now watch.old }
        requires from { from ≤ length watch.old.seen }
        ensures later { IsLater watch.old watch.new }
        ensures entries { IfOk result (λ entries. entries.items ≡ drop from watch.new.seen) }
        ensures limit { length watch.new.seen ≤ MAX_ENTRIES }
    {
        let control = take(rt, &self.turn, &mut watch.pass);
        let entries = Vec::from_slice(alloc, &control.journal()[from..]);
        give(rt, &self.turn, &mut watch.pass, control);
        entries.map_err(NoMemory::from)
    }

    /// The entries of the journal from this position on, where the seat has seen no fewer; it has then seen all. It may
    /// wait for the turn, and leaves the journal as it is.
    pub fn journal<R: Wait>(
        &self,
        rt: &R,
        alloc: Global,
        seat: &mut Seat<T>,
        from: usize,
    ) -> Result<Vec<Entry>, NoMemory>
        requires rests { RestsAt self.now seat.old }
        requires from { from ≤ length seat.old.seen }
        ensures seat { IsLater seat.old seat.new }
        ensures calls { SameCalls seat.old seat.new.seen }
        ensures entries { IfOk result (λ entries. entries.items ≡ drop from seat.new.seen) }
        ensures seats { AreOfSeats seat.new.seats seat.new.seen }
        ensures limit { length seat.new.seen ≤ MAX_ENTRIES }
    {
        let held = take(rt, &self.turn, &mut seat.pass);
        let entries = Vec::from_slice(alloc, &held.journal()[from..]);
        give(rt, &self.turn, &mut seat.pass, held);
        entries.map_err(NoMemory::from)
    }

    /// Lets two seats see the journal, and hands both back. What `a` has seen is then a beginning of what
    /// `b` has seen. It may wait for the turn.
    pub fn meet<R: Wait>(&self, rt: &R, a: Seat<T>, b: Seat<T>) -> (Seat<T>, Seat<T>)
        requires a { RestsAt self.now a }
        requires b { RestsAt self.now b }
        ensures a { IsLater a result.0 × SameCalls a result.0.seen }
        ensures b { IsLater b result.1 × SameCalls b result.1.seen }
        ensures met { Begins result.0.seen result.1.seen × SameCalls a result.1.seen }
    {
        let Seat {
            number: first,
            pass: other,
        } = a;
        let Seat {
            number: second,
            mut pass,
        } = b;
        self.turn.absorb::<AllSeats>(&mut pass, other);
        let control = take(rt, &self.turn, &mut pass);
        give(rt, &self.turn, &mut pass, control);
        let alone = self.turn.another::<FirstSeat>(&mut pass);
        (
            Seat {
                number: first,
                pass: alone,
            },
            Seat {
                number: second,
                pass,
            },
        )
    }

    /// Takes the turn for good and gives the control out of it. The seats, one at least, are used up. It may
    /// wait for the turn.
    ///
    /// Promise: The journal at the end begins with what every seat has seen, and the headline holds of it.
    pub fn finish<R: Wait>(self, rt: &R, seats: Vec<Seat<T>>) -> Control<T>
        requires some { 0 < vec_len seats }
        requires rest { All (λ seat. RestsAt self seat) seats.items }
        ensures known { All (λ seat. IsKnownBy result seat) seats.items }
        ensures headline { HasHeadline T.rules T.same_state result }
    {
        let Shared { turn } = self;
        let mut pass = gather(&turn, seats);
        let control = take(rt, &turn, &mut pass);
        // Its clause says that the headline holds of the journal.
        control.journal();
        control
    }

    /// Takes the turn for good and gives the control out of it, as `finish` does. The watch is used up too.
    ///
    /// Promise: The journal at the end begins with what the watch has seen.
    pub fn finish_watched<R: Wait>(self, rt: &R, seats: Vec<Seat<T>>, watch: Watch<T>) -> Control<T>
        requires some { 0 < vec_len seats }
        requires rest { All (λ seat. RestsAt self seat) seats.items }
        requires watch { RestsAt self watch }
        ensures known { All (λ seat. IsKnownBy result seat) seats.items }
        ensures watch { IsKnownBy result watch }
        ensures headline { HasHeadline T.rules T.same_state result }
    {
        let Shared { turn } = self;
        let mut all = gather(&turn, seats);
        let Watch { pass: other } = watch;
        turn.absorb::<AllSeats>(&mut all, other);
        let control = take(rt, &turn, &mut all);
        // Its clause says that the headline holds of the journal.
        control.journal();
        control
    }

    /// Gives up what is shared, where its sessions came to nothing. Code above drops it by this call, since the proof
    /// of what drops one goes through all its parts.
    pub fn close(self) {}
}

/// A pass for each seat, by the numbers from 1 on.
fn deal<T: Runs>(
    turn: &Turn<T>,
    mut pass: TurnPass<T>,
    count: u8,
    mut seats: Vec<Seat<T>>,
) -> Vec<Seat<T>>
    requires queue { IsPassOf turn.now pass }
    requires all { (c : Journaled) × (view pass ≡ resting (known_seats_from (story c) 1 count))
        × (count ≤ c.seats) }
    requires room { (seats.items ≡ []) × (count ≤ vec_capacity seats) }
    ensures { (c : Journaled) → view pass ≡ resting (known_seats_from (story c) 1 count) →
        result.items ≡ fresh_seats turn.now.table.shared.table_id c 1 count }
{
    for dealt in 0..count {
        let alone = turn.another::<FirstSeat>(&mut pass);
        seats.push_reserved(Seat {
            number: dealt + 1,
            pass: alone,
        });
    }
    seats
}

/// One pass for all the seats.
fn gather<T: Runs>(turn: &Turn<T>, mut seats: Vec<Seat<T>>) -> TurnPass<T>
    requires some { 0 < vec_len seats }
    requires rest { All (λ seat. RestsAt turn.now.table.shared.table_id seat) seats.items }
    ensures queue { IsPassOf turn.now result }
    ensures rests { (view result).stage ≡ Stage.Resting }
    ensures seats { (c : Journaled) → AllKnow (story c) (view result).known_seats →
        All (λ seat. IsKnownBy c seat) seats.items }
{
    let Some(last) = seats.pop() else {
        unreachable!()
    };
    let Seat {
        number: _,
        mut pass,
    } = last;
    while let Some(seat) = seats.pop() {
        let Seat {
            number: _,
            pass: other,
        } = seat;
        turn.absorb::<AllSeats>(&mut pass, other);
    }
    pass
}
