//! Sessions: a seat's calls in order, each after its gate was asked.
ghost use Rattle.std.specs.Prelude.{◌≡◌, ◌≢◌, ◌≤◌, ◌↔◌, length, map, take, replicate, vec_len, List, Bool, true};
ghost use Rattle.std.specs.Prelude.{false, Option, None, IsTrue};
ghost use Rattle.cdb_commands.specs.ReplyView.{ReplyView, Refused, reply_view};
ghost use Rattle.cdb_shared.specs.Gates.{GateCall, IsAsked, IsNotified, IsSession};
ghost use Rattle.cdb_shared.specs.Seats.{RestsAt};
ghost use Rattle.cdb_shared.specs.Sessions.{end_at, IsDriven};

use crate::seat::Seat;
use crate::shared::Shared;
use cdb_base::{NoMemory, Refusal};
use cdb_control::{CallFault, Command, Reply};
use cdb_rules::Runs;
use std::alloc::Global;
use std::sync::Wait;

/// What is asked before each call of a session, and notified after each reply. The calls are numbered from 1, and
/// the seat that is shown rests.
pub trait Gate {
    // The calls that it has had, in order, where they are known.
    ghost calls: { Self → Option (List GateCall) } = { λ _. None };

    // Whether it lets every call go on from now on.
    ghost passes: { Self → Bool } = { λ _. false };

    /// Whether the session goes on with this call.
    fn before<T: Runs>(&mut self, call: u32, seat: &Seat<T>) -> bool
        requires rests { seat.now.rests ≡ true }
        ensures called { IsAsked (calls self.old) (calls self.new) call seat.now result }
        ensures passes { passes self.old ≡ true → (result ≡ true) × (passes self.new ≡ true) };

    /// This call has had its reply.
    fn after<T: Runs>(&mut self, call: u32, seat: &Seat<T>)
        requires rests { seat.now.rests ≡ true }
        ensures called { IsNotified (calls self.old) (calls self.new) call seat.now }
        ensures passes { passes self.old ≡ true → passes self.new ≡ true };
}

/// Why a session ended.
#[derive(Debug, Clone, Copy, PartialEq)]
pub enum End {
    /// Each command has had its reply, or each turn was used up.
    All,
    /// The process was done.
    Done,
    /// The gate did not let a call pass.
    Stopped,
    NoMemory(NoMemory),
    JournalFull,
}

/// How a session ends at a fault.
fn ended_by(fault: CallFault) -> End
    ensures by_fault { result ≡ end_at fault }
    ensures other { (result ≢ End.All) × (result ≢ End.Done) }
{
    match fault {
        CallFault::JournalFull => End::JournalFull,
        CallFault::NoMemory(refused) => End::NoMemory(refused),
    }
}

/// Whether the process was done.
fn is_done(reply: &Reply) -> bool
    ensures { IsTrue result ↔ (reply_view reply.now ≡ Refused Refusal.Done) }
{
    matches!(reply, Reply::Refused(Refusal::Done))
}

/// Makes a session's calls in order, each after the gate was asked, and hands the seat back with the replies. It
/// ends with `Stopped` where the gate says so, and with `JournalFull` or `NoMemory` where a call meets
/// that; the replies are those before. Room for all of them is made at the first call.
///
/// Promise: A session gives its commands in order, and reports each reply; its gate is asked before each call and
/// notified after it, with the numbers 1, 2, 3 and so on, the last one too, and a gate that always passes stops none. A
/// full journal is reported as that, also without memory.
pub fn serve<T: Runs, G: Gate + Drop, R: Wait>(
    shared: &Shared<T>,
    rt: &R,
    alloc: Global,
    mut seat: Seat<T>,
    mut gate: G,
    commands: &[Command],
) -> (Seat<T>, Vec<Reply>, End)
    requires { RestsAt shared.now seat }
    ensures session { (last : G) × IsSession T.rules (G.passes gate) (G.calls gate) (G.calls last)
        seat result.0 result.2 (take (vec_len result.1) commands.now) (map reply_view result.1.items) }
    ensures fewer { vec_len result.1 ≤ length commands.now }
    ensures all { (result.2 ≡ End.All) ↔ (vec_len result.1 ≡ length commands.now) }
    ensures done { result.2 ≢ End.Done }
{
    let mut replies = Vec::new(alloc);
    let mut number = 0u32;
    for command in commands {
        number += 1;
        if !gate.before(number, &seat) {
            return (seat, replies, End::Stopped);
        }
        if let Err(error) = replies.reserve(commands.len() - replies.len()) {
            let fault = shared.no_room(rt, &mut seat, NoMemory::from(error));
            return (seat, replies, ended_by(fault));
        }
        match shared.call(rt, alloc, &mut seat, *command) {
            Ok(reply) => replies.push_reserved(reply),
            Err(fault) => return (seat, replies, ended_by(fault)),
        }
        gate.after(number, &seat);
    }
    (seat, replies, End::All)
}

/// Steps a process by `auto`, each call after the gate was asked, until one is refused as the process is done
/// or the turns are used up, and hands the seat back with the number of calls. It ends with `Done` at that
/// reply, also at the last turn, and with `Stopped`, `JournalFull` and `NoMemory` as `serve` does.
pub fn drive<T: Runs, G: Gate + Drop, R: Wait>(
    shared: &Shared<T>,
    rt: &R,
    alloc: Global,
    mut seat: Seat<T>,
    mut gate: G,
    process: u32,
    turns: u32,
) -> (Seat<T>, u32, End)
    requires { RestsAt shared.now seat }
    ensures turns { result.1 ≤ turns }
    ensures session { (last : G) × (replies : List ReplyView) × IsDriven result.2 result.1 turns replies
        × IsSession T.rules (G.passes gate) (G.calls gate) (G.calls last)
        seat result.0 result.2 (replicate result.1 (Command.Auto process)) replies }
{
    for turn in 0..turns {
        if !gate.before(turn + 1, &seat) {
            return (seat, turn, End::Stopped);
        }
        let reply = match shared.call(rt, alloc, &mut seat, Command::Auto(process)) {
            Ok(reply) => reply,
            Err(fault) => return (seat, turn, ended_by(fault)),
        };
        gate.after(turn + 1, &seat);
        if is_done(&reply) {
            return (seat, turn + 1, End::Done);
        }
    }
    (seat, turns, End::All)
}
