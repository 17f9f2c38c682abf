//! Where things stand in a picture.

ghost use Rattle.std.specs.Prelude.{◌≡◌, ◌+◌, ◌≤◌};
ghost use Rattle.cdb_draw.specs.Layout.{columns_for, end_x, grid_of, height, IsGrid, IsOnPage, lane_gap};
ghost use Rattle.cdb_draw.specs.Layout.{lane_y, register_y, row_height, row_of, spot, width, x_of};

use cdb_base::Proc;
use cdb_base::limits::MAX_ENTRIES;
use cdb_setup::{Algorithm, Setup};

/// Of a run with more events only what led to a step is drawn.
pub const MOST_DRAWN: usize = 5_000;

/// The columns of a row, how many rows there are, and what a row has.
#[derive(Clone, Copy)]
pub struct Grid {
    pub columns: usize,
    pub rows: usize,
    pub processes: usize,
    /// How far the lanes of two processes are apart.
    pub gap: usize,
    /// How far two rows are apart.
    pub height: usize,
}

/// A point, in quarters of a millimetre from the left and from the top.
#[derive(Clone, Copy)]
pub struct Point {
    pub x: usize,
    pub y: usize,
}

/// How many columns a row has, where this number was asked for.
fn columns_for(asked: usize, count: usize) -> usize
    requires { count ≤ MAX_ENTRIES }
    ensures value { result ≡ columns_for asked count }
    ensures some { 1 ≤ result }
    ensures few { result ≤ MAX_ENTRIES }
{
    if asked == 0 || count <= asked {
        count.max(1)
    } else {
        asked
    }
}

/// The grid with room for that number of events, with this number of columns to a row; with 0 all are in one row.
pub(crate) fn grid_of(setup: &Setup, asked: usize, count: usize) -> Grid
    requires { count ≤ MAX_ENTRIES }
    ensures value { result ≡ grid_of setup.now asked count }
    ensures fits { IsGrid result }
{
    let processes = usize::from(setup.n());
    let columns = columns_for(asked, count);
    let rows = 1 + count.saturating_sub(1) / columns;
    match setup.algorithm() {
        Algorithm::Leader => Grid {
            columns,
            rows,
            processes,
            gap: 88,
            height: 88 * processes + 20,
        },
        Algorithm::Alpha => Grid {
            columns,
            rows,
            processes,
            gap: 60,
            height: 84 * processes + 64,
        },
    }
}

/// The row of the event at a position of the history, from 1.
pub(crate) fn row_of(grid: Grid, position: usize) -> usize
    requires grid { IsGrid grid }
    requires position { position ≤ MAX_ENTRIES }
    ensures value { result ≡ row_of grid position }
    ensures few { result ≤ MAX_ENTRIES }
{
    position.saturating_sub(1) / grid.columns
}

/// Where its column is.
pub(crate) fn x_of(grid: Grid, position: usize) -> usize
    requires grid { IsGrid grid }
    requires position { position ≤ MAX_ENTRIES }
    ensures value { result ≡ x_of grid position }
    ensures least { 110 ≤ result }
    ensures most { result ≤ 52_000_110 }
{
    110 + 52 * (position.saturating_sub(1) % grid.columns)
}

/// The lane of a process in a row.
pub(crate) fn lane_y(grid: Grid, row: usize, p: Proc) -> usize
    requires grid { IsGrid grid }
    requires row { row ≤ MAX_ENTRIES }
    ensures value { result ≡ lane_y grid row p }
    ensures least { 80 ≤ result }
    ensures most { result ≤ 820_001_000 }
{
    80 + row * grid.height + grid.gap * p.index()
}

/// The lane of the `k`-th register in a row.
pub(crate) fn register_y(grid: Grid, row: usize, k: usize) -> usize
    requires grid { IsGrid grid }
    requires row { row ≤ MAX_ENTRIES }
    requires few { k ≤ 10 }
    ensures { result ≡ register_y grid row k }
{
    80 + row * grid.height + grid.gap * (grid.processes - 1) + 16 + 24 * k
}

/// Where the event of a process at a position of the history, from 1, stands.
pub(crate) fn spot(grid: Grid, position: usize, p: Proc) -> Point
    requires grid { IsGrid grid }
    requires position { position ≤ MAX_ENTRIES }
    ensures value { result ≡ spot grid position p }
    ensures within { IsOnPage result }
{
    let x = x_of(grid, position);
    let y = lane_y(grid, row_of(grid, position), p);
    Point { x, y }
}

/// Where a lane ends that no crash ends.
pub(crate) fn end_x(grid: Grid) -> usize
    requires { IsGrid grid }
    ensures { result ≡ end_x grid }
{
    110 + 52 * grid.columns
}

/// How wide the picture is, in millimetres.
pub(crate) fn width(grid: Grid) -> usize
    requires { IsGrid grid }
    ensures value { result ≡ width grid }
    ensures most { result ≤ 13_000_024 }
{
    37 + 13 * grid.columns
}

/// How high the picture is, in quarters of a millimetre.
pub(crate) fn height(grid: Grid) -> usize
    requires { IsGrid grid }
    ensures { result ≡ height grid }
{
    20 + grid.rows * grid.height
}
