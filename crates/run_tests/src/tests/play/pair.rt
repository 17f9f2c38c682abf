//! A shared control with both its seats. A contract sees nothing of it, so that what a test proves does not
//! grow with what the control holds. What allocates here is tried a second time.

ghost use Rattle.std.specs.Prelude.{◌≡◌, ◌<◌, ◌≤◌, [], All, IfOk, vec_len, vec_capacity};
ghost use Rattle.cdb_shared.specs.Seats.{RestsAt};

use cdb_any_run::AnyRun;
use cdb_control::{CallFault, Command, Control, Entry, Reply};
use cdb_rules::Runs;
use cdb_setup::Setup;
use cdb_shared::{End, Gate, Seat, Shared, drive, serve};
use cdb_text::reply_text;
use std::alloc::Global;
use std::marker::Model;
use std::process::Abort;
use std::sync::Wait;

/// One process, which is its own leader.
const ALONE: &str =
    r#"{"algorithm":"leader","processes":1,"quorum":1,"inputs":[7],"oracle":[[1]]}"#;

/// A gate that passes all calls before this one.
#[derive(Drop)]
pub struct Before(pub u32);

impl Gate for Before {
    fn before<T: Runs>(&mut self, call: u32, _seat: &Seat<T>) -> bool {
        call < self.0
    }

    fn after<T: Runs>(&mut self, _call: u32, _seat: &Seat<T>) {}
}

/// The gate that always passes.
pub const OPEN: u32 = 4_000_000_000;

/// The setup of one process.
pub fn try_setup(alloc: Global) -> Option<Setup> {
    Setup::read(alloc, ALONE.as_bytes()).ok()
}

/// A control of one process in which nothing has happened, for two seats.
fn try_control(alloc: Global) -> Option<Control<AnyRun>> {
    let setup = try_setup(alloc)?;
    Control::open(alloc, setup, 2).ok()
}

/// Gives this many commands that change nothing.
fn fill(alloc: Global, control: &mut Control<AnyRun>, count: u32) -> Result<(), CallFault> {
    for _ in 0..count {
        // For its clause: there is a first seat.
        control.seats();
        let _forgot = control.execute(alloc, 1, Command::Forget)?;
    }
    Ok(())
}

/// The same, at the second try where an allocation failed.
fn control_at_last<R: Abort + AllocGlobal>(rt: &R) -> Control<AnyRun> {
    match try_control(rt.alloc()) {
        Some(control) => control,
        None => try_control(rt.alloc()).expect(rt, "a control"),
    }
}

/// A control of one process, after this many commands of the first seat that change nothing.
fn filled<R: Abort + AllocGlobal>(rt: &R, forgets: u32) -> Control<AnyRun> {
    let mut control = control_at_last(rt);
    assert!(rt; fill(rt.alloc(), &mut control, forgets).is_ok());
    control
}

/// The control as one that is shared, with its seats, or the control handed back.
fn try_share<R: Wait + AllocGlobal>(
    rt: &R,
    control: Control<AnyRun>,
) -> Result<(Shared<AnyRun>, Vec<Seat<AnyRun>>), Control<AnyRun>>
    ensures { IfOk result (λ r. All (λ seat. RestsAt r.0 seat) r.1.items) }
{
    match Shared::open(rt, rt.alloc(), control) {
        Ok(shared) => Ok(shared),
        Err((control, _)) => Err(control),
    }
}

/// The control as one that is shared, with its seats.
fn share<R: Wait + Abort + AllocGlobal>(
    rt: &R,
    control: Control<AnyRun>,
) -> (Shared<AnyRun>, Vec<Seat<AnyRun>>)
    ensures { All (λ seat. RestsAt result.0 seat) result.1.items }
{
    match try_share(rt, control) {
        Ok(shared) => shared,
        Err(control) => match try_share(rt, control) {
            Ok(shared) => shared,
            Err(_) => panic!(rt; "no memory"),
        },
    }
}

/// Room for both seats.
fn room_for_two<R: Abort + AllocGlobal>(rt: &R) -> Vec<Seat<AnyRun>>
    ensures empty { result.items ≡ [] }
    ensures room { 2 ≤ vec_capacity result }
{
    match Vec::with_capacity(rt.alloc(), 2) {
        Ok(seats) => seats,
        Err(_) => Vec::with_capacity(rt.alloc(), 2).expect(rt, "room"),
    }
}

/// Gives replies up.
fn close_all(replies: Vec<Reply>) {
    for reply in replies {
        reply.close();
    }
}

/// A shared control and its two seats, which rest.
pub struct Pair {
    shared: Shared<AnyRun>,
    first: Seat<AnyRun>,
    second: Seat<AnyRun>,
}

impl Model for Pair {
    ghost use Rattle.std.specs.Prelude.{⊤};
    ghost use Rattle.cdb_shared.specs.Seats.{RestsAt};

    ghost Value = { ⊤ };

    ghost view = { λ _. tt };

    ghost invariant = { λ pair. RestsAt pair.shared pair.first × RestsAt pair.shared pair.second };
}

impl Pair {
    /// A run of one process, after this many commands of the first seat that change nothing.
    pub fn after<R: Wait + Abort + AllocGlobal>(rt: &R, forgets: u32) -> Pair {
        let (shared, seats) = share(rt, filled(rt, forgets));
        seated(rt, shared, seats)
    }

    /// Gives the pair up.
    pub fn end<R: Wait + Abort + AllocGlobal>(self, rt: &R) {
        self.finish(rt).close();
    }

    /// The numbers of the seats.
    pub fn numbers(&self) -> (u8, u8) {
        (self.first.number(), self.second.number())
    }

    /// The pair whose first seat is the second of this one.
    pub fn exchanged(self) -> Pair {
        let Pair {
            shared,
            first,
            second,
        } = self;
        Pair {
            shared,
            first: second,
            second: first,
        }
    }

    /// Both seats meet.
    pub fn meet<R: Wait>(self, rt: &R) -> Pair {
        let Pair {
            shared,
            first,
            second,
        } = self;
        let (first, second) = shared.meet(rt, first, second);
        Pair {
            shared,
            first,
            second,
        }
    }

    /// Carries a command out for the first seat, and compares the text of its reply.
    pub fn call<R: Wait + Abort + AllocGlobal>(
        self,
        rt: &R,
        command: Command,
        expected: &str,
    ) -> Pair {
        let Pair {
            shared,
            mut first,
            second,
        } = self;
        let reply = shared
            .call(rt, rt.alloc(), &mut first, command)
            .expect(rt, expected);
        let text = reply_text(rt.alloc(), &reply).expect(rt, expected);
        reply.close();
        assert_eq!(rt; text.as_slice(), expected.as_bytes());
        Pair {
            shared,
            first,
            second,
        }
    }

    /// Drives the process from the first seat for this many turns, up to the call at which the gate stops it.
    pub fn drive<R: Wait + AllocGlobal>(self, rt: &R, stop: u32, turns: u32) -> (Pair, u32, End) {
        let Pair {
            shared,
            first,
            second,
        } = self;
        let driven = drive(&shared, rt, rt.alloc(), first, Before(stop), 1, turns);
        let (first, count, end) = driven;
        let pair = Pair {
            shared,
            first,
            second,
        };
        (pair, count, end)
    }

    /// Serves the first seat, up to the call at which the gate stops it.
    pub fn serve<R: Wait + AllocGlobal>(
        self,
        rt: &R,
        stop: u32,
        commands: &[Command],
    ) -> (Pair, Vec<Reply>, End) {
        let Pair {
            shared,
            first,
            second,
        } = self;
        let served = serve(&shared, rt, rt.alloc(), first, Before(stop), commands);
        let (first, replies, end) = served;
        let pair = Pair {
            shared,
            first,
            second,
        };
        (pair, replies, end)
    }

    /// Ends the sharing, and gives the control.
    pub fn finish<R: Wait + Abort + AllocGlobal>(self, rt: &R) -> Control<AnyRun> {
        let room = room_for_two(rt);
        let Pair {
            shared,
            first,
            second,
        } = self;
        let seats = gathered(&shared, first, second, room);
        shared.finish(rt, seats)
    }
}

/// The pair of a shared control and its seats, which are two.
fn seated<R: Abort>(rt: &R, shared: Shared<AnyRun>, mut seats: Vec<Seat<AnyRun>>) -> Pair
    requires { All (λ seat. RestsAt shared seat) seats.items }
{
    let second = seats.pop().expect(rt, "a seat");
    let first = seats.pop().expect(rt, "two seats");
    Pair {
        shared,
        first,
        second,
    }
}

/// Both seats, which rest.
fn gathered(
    shared: &Shared<AnyRun>,
    first: Seat<AnyRun>,
    second: Seat<AnyRun>,
    room: Vec<Seat<AnyRun>>,
) -> Vec<Seat<AnyRun>>
    requires first { RestsAt shared.now first }
    requires second { RestsAt shared.now second }
    requires room { (room.items ≡ []) × (2 ≤ vec_capacity room) }
    ensures some { 0 < vec_len result }
    ensures rest { All (λ seat. RestsAt shared.now seat) result.items }
{
    let mut both = room;
    both.push_reserved(first);
    both.push_reserved(second);
    both
}

/// The texts of replies, one after the other.
fn try_texts(alloc: Global, replies: &[Reply]) -> Option<Vec<u8>> {
    let mut texts = Vec::new(alloc);
    for reply in replies {
        let text = reply_text(alloc, reply).ok()?;
        texts.extend_from_slice(text.as_slice()).ok()?;
    }
    Some(texts)
}

/// Compares the texts of replies, one after the other, with what is expected.
fn compare<R: Abort + AllocGlobal>(rt: &R, replies: &[Reply], expected: &str) {
    let texts = match try_texts(rt.alloc(), replies) {
        Some(texts) => texts,
        None => try_texts(rt.alloc(), replies).expect(rt, "texts"),
    };
    assert_eq!(rt; texts.as_slice(), expected.as_bytes());
}

/// The same, after which the replies are given up.
pub fn say<R: Abort + AllocGlobal>(rt: &R, replies: Vec<Reply>, expected: &str) {
    compare(rt, replies.as_slice(), expected);
    close_all(replies);
}

/// Whether the last entries of a journal are of these seats.
pub fn ends_with_seats(journal: &[Entry], seats: &[u8]) -> bool {
    let Some(from) = journal.len().checked_sub(seats.len()) else {
        return false;
    };
    for at in 0..seats.len() {
        if journal[from + at].seat != seats[at] {
            return false;
        }
    }
    true
}
