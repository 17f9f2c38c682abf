//! The ways of the arrows of messages.

ghost use Rattle.std.specs.Prelude.{◌≡◌, ◌≤◌};
ghost use Rattle.cdb_draw.specs.Ways.{coming, leaving, passing, side_of};

use cdb_base::Proc;

/// On which side of the sender the receiver is.
#[derive(Clone, Copy)]
pub enum Side {
    Below,
    Above,
    Own,
}

/// On which side of process `s` process `p` is.
pub(crate) fn side_of(s: Proc, p: Proc) -> Side
    ensures { result ≡ side_of s p }
{
    if s == p {
        Side::Own
    } else if s.number() < p.number() {
        Side::Below
    } else {
        Side::Above
    }
}

/// The first bend of a way, seen from the lane of the sender.
pub(crate) fn leaving(side: Side, y: usize) -> usize
    requires least { 80 ≤ y }
    requires most { y ≤ 820_001_000 }
    ensures { result ≡ leaving side y }
{
    match side {
        Side::Below | Side::Own => y + 22,
        Side::Above => y - 22,
    }
}

/// The second one.
pub(crate) fn passing(side: Side, y: usize) -> usize
    requires least { 80 ≤ y }
    requires most { y ≤ 820_001_000 }
    ensures { result ≡ passing side y }
{
    match side {
        Side::Below => y + 66,
        Side::Above => y - 66,
        Side::Own => y + 44,
    }
}

/// The last one, seen from the lane of the receiver.
pub(crate) fn coming(side: Side, y: usize) -> usize
    requires least { 80 ≤ y }
    requires most { y ≤ 820_001_000 }
    ensures { result ≡ coming side y }
{
    match side {
        Side::Below => y - 22,
        Side::Above => y + 22,
        Side::Own => y + 44,
    }
}
