//! Which events depend on each other.

ghost use Rattle.std.specs.Prelude.{◌≡◌, ◌&&◌, ◌||◌, nat_eq};
ghost use Rattle.cdb_causal.specs.Dependence.{sends as sends_of, receives as receives_of};
ghost use Rattle.cdb_causal.specs.Dependence.{same_process as same_process_of, depends as depends_of};
ghost use Rattle.cdb_causal.specs.Effects.{kind_affects as kind_affects_of, affects as affects_of};

use cdb_base::{CopyName, Event, Kind, Proc};

/// Whether a step of that process and kind sends what one of the other kind receives, or writes a
/// register that it reads or writes.
fn kind_affects(p: Proc, kind: Kind, other: Kind) -> bool
    ensures { result ≡ kind_affects_of p kind other }
{
    match (kind, other) {
        (Kind::Send(m), Kind::Recv(s, k)) => p == s && m == k,
        (Kind::Write(x), Kind::Read(y)) => x == y,
        (Kind::Write(x), Kind::Write(y)) => x == y,
        _ => false,
    }
}

/// Whether a step of that process and kind sends the message of the copy.
fn sends(p: Proc, kind: Kind, copy: &CopyName) -> bool
    ensures { result ≡ sends_of copy.now.msg.s copy.now.msg.m p kind }
{
    match kind {
        Kind::Send(m) => p == copy.msg.s && m == copy.msg.m,
        _ => false,
    }
}

/// Whether a step of that process and kind receives the copy.
fn receives(p: Proc, kind: Kind, copy: &CopyName) -> bool
    ensures { result ≡ (nat_eq p copy.now.to && receives_of copy.now.msg.s copy.now.msg.m kind) }
{
    match kind {
        Kind::Recv(s, m) => p == copy.to && copy.msg.s == s && copy.msg.m == m,
        _ => false,
    }
}

/// Whether the event is a step that affects the other, or sends the message of a lost copy, or is the
/// loss of a copy that the other receives.
fn affects(event: &Event, other: &Event) -> bool
    ensures { result ≡ affects_of event.now other.now }
{
    match event {
        Event::Step { p, kind, .. } => match other {
            Event::Step { kind: second, .. } => kind_affects(*p, *kind, *second),
            Event::Lost(copy) => sends(*p, *kind, copy),
        },
        Event::Lost(copy) => match other {
            Event::Step { p, kind, .. } => receives(*p, *kind, copy),
            Event::Lost(_) => false,
        },
    }
}

/// Whether both events are steps of one process.
fn same_process(event: &Event, other: &Event) -> bool
    ensures { result ≡ same_process_of event.now other.now }
{
    match event {
        Event::Step { p, .. } => match other {
            Event::Step { p: q, .. } => *p == *q,
            Event::Lost(_) => false,
        },
        Event::Lost(_) => false,
    }
}

/// Whether two events depend on each other: both are steps of one process, one sends the message
/// that the other receives, both access one register and one of them writes it, or one is the loss
/// of a copy and the other sends its message or receives that copy.
#[tactic(auto, using(crate::proofs::Symmetry::by_effect))]
pub fn depends(event: &Event, other: &Event) -> bool
    ensures { result ≡ depends_of event.now other.now }
{
    same_process(event, other) || affects(event, other) || affects(other, event)
}
