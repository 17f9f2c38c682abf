//! Messages on their way.

ghost use Rattle.cdb_draw.specs.Arrows.{on_way_text, some_wait, stub_text, waiter_text, waits};
ghost use Rattle.cdb_draw.specs.Layout.{IsGrid};
ghost use Rattle.cdb_draw.specs.Pieces.{piece_text, pieces_text};
ghost use Rattle.cdb_draw.specs.Sends.{ArePlaces};
ghost use Rattle.cdb_text.specs.Pushes.{Pushes};
ghost use Rattle.std.specs.Prelude.{◌≡◌, ◌≤◌};

use crate::layout::{Grid, spot};
use crate::piece::Piece::{After, Between, Text};
use crate::piece::{Piece, push_each};
use crate::sends::{Places, Transit, place_of};
use crate::weight::Weight;
use cdb_base::limits::MAX_ENTRIES;
use cdb_base::{CopyName, Event, MsgName, Proc};
use std::alloc::AllocError;

/// Whether the copy of a message for process `p` was neither received nor lost.
fn waits(grid: Grid, events: &[Event], places: &Places, name: &MsgName, p: u8) -> bool
    requires from_one { 1 ≤ p }
    requires to_nine { p ≤ 9 }
    requires places { ArePlaces places.now events.now }
    ensures { result ≡ waits grid events.now name.now p }
{
    let copy = CopyName {
        msg: *name,
        to: Proc::new(p),
    };
    usize::from(p) <= grid.processes && place_of(places, Transit::Taken(copy)).is_none()
}

/// Whether one was.
fn some_wait(grid: Grid, events: &[Event], places: &Places, name: &MsgName) -> bool
    requires places { ArePlaces places.now events.now }
    ensures { result ≡ some_wait grid events.now name.now }
{
    waits(grid, events, places, name, 1)
        || waits(grid, events, places, name, 2)
        || waits(grid, events, places, name, 3)
        || waits(grid, events, places, name, 4)
        || waits(grid, events, places, name, 5)
        || waits(grid, events, places, name, 6)
        || waits(grid, events, places, name, 7)
        || waits(grid, events, places, name, 8)
        || waits(grid, events, places, name, 9)
}

/// Process `p`, where the copy for it waits.
fn waiter(grid: Grid, events: &[Event], places: &Places, name: &MsgName, p: u8) -> Piece<'static>
    requires from_one { 1 ≤ p }
    requires to_nine { p ≤ 9 }
    requires places { ArePlaces places.now events.now }
    ensures { piece_text result ≡ waiter_text grid events.now name.now p }
{
    if waits(grid, events, places, name, p) {
        After(" ", usize::from(p))
    } else {
        Text("")
    }
}

/// The stub of a message that was sent at a position, and the receivers that wait.
#[tactic(auto, unfolding(crate::specs::Arrows::stub_text))]
fn stub(
    grid: Grid,
    events: &[Event],
    places: &Places,
    weight: Weight,
    position: usize,
    name: &MsgName,
) -> [Piece<'static>; 16]
    requires grid { IsGrid grid }
    requires position { position ≤ MAX_ENTRIES }
    requires places { ArePlaces places.now events.now }
    ensures { pieces_text result ≡ stub_text grid events.now weight position name.now }
{
    let at = spot(grid, position, name.s);
    [
        Text("<g class='wait "),
        Text(weight.class()),
        Text("' transform='translate("),
        Between(at.x, ",", at.y),
        Text(")'><path d='M0,0L22,9'/><text class='note' y='33'>to"),
        waiter(grid, events, places, name, 1),
        waiter(grid, events, places, name, 2),
        waiter(grid, events, places, name, 3),
        waiter(grid, events, places, name, 4),
        Text("</text><text class='note' y='44'>"),
        waiter(grid, events, places, name, 5),
        waiter(grid, events, places, name, 6),
        waiter(grid, events, places, name, 7),
        waiter(grid, events, places, name, 8),
        waiter(grid, events, places, name, 9),
        Text("</text></g>\n"),
    ]
}

/// Adds the stub of a message that was sent at a position, where copies of it wait.
pub(crate) fn push_on_way(
    text: &mut String,
    grid: Grid,
    events: &[Event],
    places: &Places,
    weight: Weight,
    position: usize,
    name: &MsgName,
) -> Result<(), AllocError>
    requires grid { IsGrid grid }
    requires position { position ≤ MAX_ENTRIES }
    requires places { ArePlaces places.now events.now }
    ensures { Pushes result text.old text.new (on_way_text grid events.now weight position name.now) }
{
    if some_wait(grid, events, places, name) {
        push_each(text, &stub(grid, events, places, weight, position, name))
    } else {
        Ok(())
    }
}
