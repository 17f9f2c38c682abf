//! The lanes of a picture.

ghost use Rattle.std.specs.Prelude.{◌≡◌, ◌+◌, ◌*◌, ◌≤◌, length};
ghost use Rattle.cdb_draw.specs.Lanes.{end_after, lane_at, lane_end, lane_of_row, lane_text, lanes_by, lanes_text};
ghost use Rattle.cdb_draw.specs.Lanes.{process_lane, register_lane_text, register_name};
ghost use Rattle.cdb_draw.specs.Layout.{grid_of, IsGrid};
ghost use Rattle.cdb_draw.specs.Pieces.{piece_text, pieces_text};
ghost use Rattle.cdb_text.specs.Pushes.{Pushes};

use crate::layout::{Grid, end_x, lane_y, register_y, row_of, x_of};
use crate::piece::Piece::{After, Number, Text};
use crate::piece::{Piece, push_each};
use crate::sends::crashed_at;
use cdb_base::limits::MAX_ENTRIES;
use cdb_base::{Event, Proc};
use cdb_rules::Trace;
use cdb_setup::Algorithm;
use std::alloc::AllocError;

/// A lane of that class, so far down.
#[tactic(auto, unfolding(crate::specs::Lanes::lane_text))]
fn lane(
    class: &'static str,
    y: usize,
    name: Piece<'static>,
    detail: Piece<'static>,
    end: usize,
) -> [Piece<'static>; 11]
    ensures { pieces_text result
        ≡ lane_text class.now y (piece_text name.entry) (piece_text detail.entry) end }
{
    [
        Text("<g class='"),
        Text(class),
        Text("' transform='translate(0,"),
        Number(y),
        Text(")'><text x='8'>"),
        name,
        Text("</text><text class='input' x='8' y='12'>"),
        detail,
        Text("</text><path d='M72,0H"),
        Number(end),
        Text("'/></g>\n"),
    ]
}

/// Where the lane of a process that crashes ends in a row.
fn end_after(grid: Grid, row: usize, crash: usize) -> usize
    requires grid { IsGrid grid }
    requires crash { crash ≤ MAX_ENTRIES }
    ensures { result ≡ end_after grid row crash }
{
    let last = row_of(grid, crash);
    if row < last {
        end_x(grid)
    } else if row == last {
        x_of(grid, crash)
    } else {
        72
    }
}

/// Where the lane of a process ends in a row.
fn lane_end(grid: Grid, events: &[Event], row: usize, p: Proc) -> usize
    requires grid { IsGrid grid }
    requires few { length events.now ≤ MAX_ENTRIES }
    ensures { result ≡ lane_end grid events.now row p }
{
    match crashed_at(events, p) {
        Some(crash) => end_after(grid, row, crash),
        None => end_x(grid),
    }
}

/// The lane of a process in a row.
fn process_lane(grid: Grid, run: &Trace, row: usize, p: Proc) -> [Piece<'static>; 11]
    requires grid { IsGrid grid }
    requires few { length run.now.history ≤ MAX_ENTRIES }
    requires row { row ≤ MAX_ENTRIES }
    requires among { p ≤ run.now.setup.processes }
    ensures { pieces_text result ≡ process_lane grid run.now row p }
{
    let end = lane_end(grid, run.events(), row, p);
    let setup = run.setup();
    let input = setup.input(p).number() as usize;
    let number = usize::from(p.number());
    lane(
        "lane",
        lane_y(grid, row, p),
        After("p", number),
        After("input ", input),
        end,
    )
}

/// The lane of the `k`-th register in a row.
fn register_lane(grid: Grid, row: usize, k: usize) -> [Piece<'static>; 11]
    requires grid { IsGrid grid }
    requires row { row ≤ MAX_ENTRIES }
    requires few { k ≤ 10 }
    ensures { pieces_text result ≡ register_lane_text grid row k }
{
    let name = if k <= grid.processes {
        After("r", k)
    } else {
        Text("dec")
    };
    lane(
        "register",
        register_y(grid, row, k),
        name,
        Text(""),
        end_x(grid),
    )
}

/// The `k`-th lane of a row.
fn lane_of_row(grid: Grid, run: &Trace, row: usize, k: usize) -> [Piece<'static>; 11]
    requires grid { IsGrid grid }
    requires processes { grid.processes ≡ run.now.setup.processes }
    requires few { length run.now.history ≤ MAX_ENTRIES }
    requires row { row ≤ MAX_ENTRIES }
    requires from_one { 1 ≤ k }
    requires to_last { k ≤ grid.processes + grid.processes + 1 }
    ensures { pieces_text result ≡ lane_of_row grid run.now row k }
{
    if k <= grid.processes {
        process_lane(grid, run, row, Proc::new(k as u8))
    } else {
        register_lane(grid, row, k - grid.processes)
    }
}

/// How many lanes a row has.
fn lanes_by(algorithm: Algorithm, processes: usize) -> usize
    requires some { 1 ≤ processes }
    requires few { processes ≤ 9 }
    ensures value { result ≡ lanes_by algorithm processes }
    ensures some { 1 ≤ result }
    ensures few { result ≤ processes + processes + 1 }
{
    match algorithm {
        Algorithm::Leader => processes,
        Algorithm::Alpha => 2 * processes + 1,
    }
}

/// Adds the lanes of all rows.
pub(crate) fn push_lanes(text: &mut String, grid: Grid, run: &Trace) -> Result<(), AllocError>
    requires grid { IsGrid grid }
    requires processes { grid.processes ≡ run.now.setup.processes }
    requires few { length run.now.history ≤ MAX_ENTRIES }
    ensures { Pushes result text.old text.new (lanes_text grid run.now) }
{
    let lanes = lanes_by(run.setup().algorithm(), grid.processes);
    for i in 0..grid.rows * lanes {
        push_each(text, &lane_of_row(grid, run, i / lanes, i % lanes + 1))?;
    }
    Ok(())
}
