//! Where each message was sent, where each copy was received or lost, and where each process crashed.

ghost use Rattle.std.specs.HashMap.{get};
ghost use Rattle.std.specs.Prelude.{◌≡◌, ◌<◌, ◌^◌, ◌*◌, ℕ, List, nat_eq, IfOk, OnOk};
ghost use Rattle.cdb_base.specs.declared.event.Event.{Event as EventName};
ghost use Rattle.cdb_draw.specs.Positions.{crashed_at, is_crash_of, passed_at, transit_of};
ghost use Rattle.cdb_draw.specs.Sends.{ArePlaces, Fits, HasNoted, kept_or_noted, message_code, transit_code};

use cdb_base::{CopyName, Event, Kind, MsgName, NoMemory, Proc};
use std::alloc::Global;
use std::collections::HashMap;

/// What an event does with a message.
#[derive(Clone, Copy)]
pub(crate) enum Transit {
    /// It sends the message.
    Sent(MsgName),
    /// It receives or loses that copy.
    Taken(CopyName),
}

/// The positions at which messages were sent and copies received or lost, by the numbers of their names.
pub(crate) type Places = HashMap<u32, usize>;

/// A number for the name of a message.
fn message_code(name: MsgName) -> u32
    ensures value { result ≡ message_code name }
    ensures small { name.m < 2 ^ 16 }
    ensures most { result < 10 * 2 ^ 16 }
{
    u32::from(name.s.number()) * 65_536 + u32::from(name.m)
}

/// One for a message or a copy.
fn transit_code(transit: Transit) -> u32
    ensures value { result ≡ transit_code transit }
    ensures fits { Fits transit }
{
    match transit {
        Transit::Sent(name) => message_code(name) * 16,
        Transit::Taken(copy) => message_code(copy.msg) * 16 + u32::from(copy.to.number()),
    }
}

/// What an event does with a message, if it does something.
fn transit_of(event: &Event) -> Option<Transit>
    ensures { result ≡ transit_of event.now }
{
    match *event {
        Event::Step { p, kind, .. } => match kind {
            Kind::Send(m) => Some(Transit::Sent(MsgName { s: p, m })),
            Kind::Recv(s, m) => Some(Transit::Taken(CopyName {
                msg: MsgName { s, m },
                to: p,
            })),
            _ => None,
        },
        Event::Lost(copy) => Some(Transit::Taken(copy)),
    }
}

/// Notes a position under a number, where none is noted yet.
fn note(places: &mut Places, code: u32, position: usize) -> Result<(), NoMemory>
    ensures { OnOk result ((q : ℕ) →
        get nat_eq places.new q ≡ kept_or_noted (get nat_eq places.old q) (nat_eq code q) position) }
{
    let _noted = places.entry(code)?.or_insert(position);
    Ok(())
}

/// Notes the position of an event, where it does something with a message.
fn note_event(places: &mut Places, event: &Event, position: usize) -> Result<(), NoMemory>
    ensures { OnOk result (HasNoted places.old places.new position event.now) }
{
    match transit_of(event) {
        Some(transit) => note(places, transit_code(transit), position),
        None => Ok(()),
    }
}

/// The places of a history.
pub(crate) fn places_of(alloc: Global, events: &[Event]) -> Result<Places, NoMemory>
    ensures { IfOk result (λ places. ArePlaces places events.now) }
{
    let mut places = HashMap::new(alloc);
    for i in 0..events.len() {
        note_event(&mut places, &events[i], i + 1)?;
    }
    Ok(places)
}

/// The position at which a message was sent, or a copy received or lost, from 1.
pub(crate) fn place_of(places: &Places, transit: Transit) -> Option<usize>
    ensures { (history : List EventName) → ArePlaces places.now history →
        result ≡ passed_at history transit }
{
    places.get(&transit_code(transit)).copied()
}

/// Whether the event is a crash of process `p`.
fn is_crash_of(event: &Event, p: Proc) -> bool
    ensures { result ≡ is_crash_of p event.now }
{
    match *event {
        Event::Step {
            p: q,
            kind: Kind::Crash,
            ..
        } => q == p,
        _ => false,
    }
}

/// The position at which a process crashed, from 1.
pub(crate) fn crashed_at(events: &[Event], p: Proc) -> Option<usize>
    ensures { result ≡ crashed_at events.now p }
{
    let crash = events.iter().position(|event| is_crash_of(event, p))?;
    Some(crash + 1)
}
