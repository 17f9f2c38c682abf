//! Events that come up by a linear rule, and which of them a plain list may have next.

ghost use Rattle.std.specs.Prelude.{◌<◌};

use super::dependence::{copy, step};
use cdb_base::{CopyName, Event, Kind, Proc, Reg};

/// A number below `n`, and the next seed.
pub fn draw(seed: &mut u64, n: u64) -> u64
    requires { 0 < n }
    ensures { result < n }
{
    *seed = seed
        .wrapping_mul(6364136223846793005)
        .wrapping_add(1442695040888963407);
    (*seed >> 33) % n
}

/// One of the first three processes.
fn draw_process(seed: &mut u64) -> Proc {
    Proc::all()[draw(seed, 3) as usize]
}

fn draw_register(seed: &mut u64) -> Reg {
    match draw(seed, 3) {
        0 => Reg::Dec,
        1 => Reg::R(Proc::new(1)),
        _ => Reg::R(Proc::new(2)),
    }
}

fn is_send_of(event: &Event, p: Proc) -> bool {
    match event {
        Event::Step {
            p: q,
            kind: Kind::Send(_),
            ..
        } => *q == p,
        _ => false,
    }
}

/// How many steps of a process are in the list.
fn steps_of(events: &[Event], p: Proc) -> u16 {
    let mut count: u16 = 0;
    for event in events {
        if event.is_step_of(p) {
            count = count.saturating_add(1);
        }
    }
    count
}

/// How many of them send.
fn sends_of(events: &[Event], p: Proc) -> u16 {
    let mut count: u16 = 0;
    for event in events {
        if is_send_of(event, p) {
            count = count.saturating_add(1);
        }
    }
    count
}

/// The number of a message of a process: one that was sent, or that of the next.
fn draw_message(events: &[Event], s: Proc, seed: &mut u64) -> u16 {
    let sent = sends_of(events, s);
    (draw(seed, u64::from(sent) + 1) as u16).saturating_add(1)
}

fn draw_kind(events: &[Event], p: Proc, seed: &mut u64) -> Kind {
    match draw(seed, 8) {
        0 => Kind::Query(Proc::new(1)),
        1 | 2 => Kind::Send(sends_of(events, p).saturating_add(1)),
        3 | 4 => {
            let s = draw_process(seed);
            Kind::Recv(s, draw_message(events, s, seed))
        }
        5 => Kind::Write(draw_register(seed)),
        6 => Kind::Read(draw_register(seed)),
        _ => Kind::Local,
    }
}

/// A step or a loss, most of which the list may have next.
pub fn draw_event(events: &[Event], seed: &mut u64) -> Event {
    let p = draw_process(seed);
    match draw(seed, 7) {
        0 => {
            let to = draw_process(seed);
            Event::Lost(copy(p, draw_message(events, p, seed), to))
        }
        1 => step(p, draw(seed, 6) as u16, draw_kind(events, p, seed)),
        _ => step(
            p,
            steps_of(events, p).saturating_add(1),
            draw_kind(events, p, seed),
        ),
    }
}

/// Whether the event sends the message of the copy.
fn sends_it(event: &Event, lost: &CopyName) -> bool {
    match *event {
        Event::Step {
            p,
            kind: Kind::Send(m),
            ..
        } => p == lost.msg.s && m == lost.msg.m,
        _ => false,
    }
}

/// Whether the event receives or loses the copy.
fn ends_it(event: &Event, lost: &CopyName) -> bool {
    match *event {
        Event::Step {
            p,
            kind: Kind::Recv(s, m),
            ..
        } => p == lost.to && s == lost.msg.s && m == lost.msg.m,
        Event::Lost(other) => other == *lost,
        _ => false,
    }
}

/// Whether the copy was sent, and neither received nor lost.
fn waits(events: &[Event], lost: &CopyName) -> bool {
    let mut sent = false;
    for event in events {
        if ends_it(event, lost) {
            return false;
        }
        sent = sent || sends_it(event, lost);
    }
    sent
}

/// Whether a list, to which events were added where this says so, may have the event next.
pub fn may_come(events: &[Event], event: &Event) -> bool {
    match *event {
        Event::Lost(lost) => waits(events, &lost),
        Event::Step { p, k, kind } => {
            let is_next = u32::from(k) == u32::from(steps_of(events, p)) + 1;
            match kind {
                Kind::Send(m) => is_next && u32::from(m) == u32::from(sends_of(events, p)) + 1,
                Kind::Recv(s, m) => is_next && waits(events, &copy(s, m, p)),
                _ => is_next,
            }
        }
    }
}
