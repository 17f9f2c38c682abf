//! The arrows of a picture.

ghost use Rattle.std.specs.Prelude.{◌≡◌, ◌≤◌, length};
ghost use Rattle.cdb_draw.specs.Arrows.{arrow_at, arrow_text, copy_arrow, event_arrow};
ghost use Rattle.cdb_draw.specs.Arrows.{register_lane, register_spot, upright};
ghost use Rattle.cdb_draw.specs.Layout.{end_x, IsGrid, IsOnPage};
ghost use Rattle.cdb_draw.specs.Pieces.{pieces_text};
ghost use Rattle.cdb_draw.specs.Sends.{ArePlaces};
ghost use Rattle.cdb_draw.specs.Ways.{broken_way, way_text, whole_way};
ghost use Rattle.cdb_text.specs.Pushes.{Pushes};

use crate::layout::{Grid, Point, end_x, lane_y, register_y, row_of, spot, x_of};
use crate::piece::Piece::{At, Text};
use crate::piece::{Piece, push_each};
use crate::sends::{Places, Transit, place_of};
use crate::waits::push_on_way;
use crate::way::{Side, coming, leaving, passing, side_of};
use crate::weight::Weight;
use cdb_base::limits::MAX_ENTRIES;
use cdb_base::{Event, Kind, MsgName, Proc, Reg};
use std::alloc::AllocError;

/// The way of the arrow of a copy in one row.
fn whole_way(side: Side, from: Point, to: Point) -> [Piece<'static>; 5]
    requires from { IsOnPage from }
    requires to { IsOnPage to }
    ensures { pieces_text result ≡ way_text (whole_way side from to) }
{
    let (near, before) = (from.x + 26, to.x - 26);
    [
        At("M", from.x, from.y),
        At("L", near, leaving(side, from.y)),
        At("L", before, passing(side, from.y)),
        At("L", before, coming(side, to.y)),
        At("L", to.x, to.y),
    ]
}

/// That of a copy from one row to another, which begins again where the lane of the sender is there.
fn broken_way(side: Side, edge: usize, from: Point, lane: usize, to: Point) -> [Piece<'static>; 7]
    requires from { IsOnPage from }
    requires lane { 80 ≤ lane }
    requires within { lane ≤ 820_001_000 }
    requires to { IsOnPage to }
    ensures { pieces_text result ≡ way_text (broken_way side edge from lane to) }
{
    let (near, before) = (from.x + 26, to.x - 26);
    [
        At("M", from.x, from.y),
        At("L", near, leaving(side, from.y)),
        At("L", edge, passing(side, from.y)),
        At("M", 72, leaving(side, lane)),
        At("L", before, passing(side, lane)),
        At("L", before, coming(side, to.y)),
        At("L", to.x, to.y),
    ]
}

/// Straight down or up.
fn upright(x: usize, from: usize, to: usize) -> [Piece<'static>; 2]
    ensures { pieces_text result ≡ way_text (upright x from to) }
{
    [At("M", x, from), At("L", x, to)]
}

/// Adds an arrow of that class along a way.
fn push_way(
    text: &mut String,
    class: &str,
    weight: Weight,
    way: &[Piece<'static>],
) -> Result<(), AllocError>
    ensures { Pushes result text.old text.new (arrow_text class.now weight (pieces_text way.now)) }
{
    push_each(
        text,
        &[
            Text("<path class='"),
            Text(class),
            Text(" "),
            Text(weight.class()),
            Text("' d='"),
        ],
    )?;
    push_each(text, way)?;
    push_each(text, &[Text("'/>\n")])
}

/// Adds the arrow of a copy to an event at a position, from where its message was sent.
fn push_copy(
    text: &mut String,
    grid: Grid,
    events: &[Event],
    places: &Places,
    class: &str,
    weight: Weight,
    name: MsgName,
    position: usize,
    p: Proc,
) -> Result<(), AllocError>
    requires grid { IsGrid grid }
    requires few { length events.now ≤ MAX_ENTRIES }
    requires position { position ≤ MAX_ENTRIES }
    requires places { ArePlaces places.now events.now }
    ensures { Pushes result text.old text.new
        (copy_arrow grid events.now class.now weight name position p) }
{
    let s = name.s;
    let Some(i) = place_of(places, Transit::Sent(name)) else {
        return Ok(());
    };
    let (from, to) = (spot(grid, i, s), spot(grid, position, p));
    let side = side_of(s, p);
    let row = row_of(grid, position);
    if row_of(grid, i) == row {
        push_way(text, class, weight, &whole_way(side, from, to))
    } else {
        let lane = lane_y(grid, row, s);
        let way = broken_way(side, end_x(grid), from, lane, to);
        push_way(text, class, weight, &way)
    }
}

/// The number of the lane of a register.
fn register_lane(grid: Grid, register: Reg) -> usize
    requires { IsGrid grid }
    ensures value { result ≡ register_lane grid register }
    ensures few { result ≤ 10 }
{
    match register {
        Reg::R(p) => usize::from(p.number()),
        Reg::Dec => grid.processes + 1,
    }
}

/// Where the arrow of a read or a write at a position, from 1, comes to the lane of its register.
pub(crate) fn register_spot(grid: Grid, position: usize, register: Reg) -> Point
    requires grid { IsGrid grid }
    requires position { position ≤ MAX_ENTRIES }
    ensures { result ≡ register_spot grid position register }
{
    let lane = register_lane(grid, register);
    Point {
        x: x_of(grid, position),
        y: register_y(grid, row_of(grid, position), lane),
    }
}

/// Adds the arrow of the event at a position, from 1, where it has one.
pub(crate) fn push_arrow(
    text: &mut String,
    grid: Grid,
    events: &[Event],
    places: &Places,
    weight: Weight,
    position: usize,
    event: &Event,
) -> Result<(), AllocError>
    requires grid { IsGrid grid }
    requires few { length events.now ≤ MAX_ENTRIES }
    requires position { position ≤ MAX_ENTRIES }
    requires places { ArePlaces places.now events.now }
    ensures { Pushes result text.old text.new (event_arrow grid events.now weight position event.now) }
{
    let row = row_of(grid, position);
    match *event {
        Event::Step { p, kind, .. } => match kind {
            Kind::Recv(s, m) => {
                let name = MsgName { s, m };
                push_copy(
                    text, grid, events, places, "copy", weight, name, position, p,
                )
            }
            Kind::Read(register) => {
                let from = register_spot(grid, position, register);
                let way = upright(from.x, from.y, lane_y(grid, row, p));
                push_way(text, "read", weight, &way)
            }
            Kind::Write(register) => {
                let to = register_spot(grid, position, register);
                let way = upright(to.x, lane_y(grid, row, p), to.y);
                push_way(text, "write", weight, &way)
            }
            Kind::Send(m) => {
                let name = MsgName { s: p, m };
                push_on_way(text, grid, events, places, weight, position, &name)
            }
            Kind::Query(_) | Kind::Local | Kind::Learn | Kind::Crash => Ok(()),
        },
        Event::Lost(copy) => push_copy(
            text, grid, events, places, "lost", weight, copy.msg, position, copy.to,
        ),
    }
}
