//! The picture of a run: lanes, the arrows of all events, and then their marks.

ghost use Rattle.std.specs.Prelude.{◌≡◌, ◌≤◌, length, IfOk};
ghost use Rattle.cdb_draw.specs.Layout.{IsGrid};
ghost use Rattle.cdb_draw.specs.Picture.{arrows_text, document_text, head_text, heading_text, marks_text, picture_text};
ghost use Rattle.cdb_draw.specs.Pieces.{piece_text, pieces_text};
ghost use Rattle.cdb_rules.specs.ByRules.{IsInOrder};
ghost use Rattle.cdb_text.specs.Pushes.{Pushes};

use crate::arrow::push_arrow;
use crate::lanes::push_lanes;
use crate::layout::{Grid, height, width};
use crate::mark::push_mark;
use crate::piece::Piece::{After, Number, Text};
use crate::piece::{Piece, push_each};
use crate::sends::places_of;
use crate::style::{NAMESPACE, SHAPES, STYLE};
use crate::weight::Weight;
use cdb_base::NoMemory;
use cdb_base::limits::MAX_ENTRIES;
use cdb_deeds::{HasDeeds, ReceivedNames};
use cdb_explain::{fresh, next_deed, play_on};
use cdb_rules::{Runs, Trace};
use cdb_setup::Algorithm;
use std::alloc::Global;

/// The algorithm, and the leader's quorum.
fn heading(algorithm: Algorithm, quorum: usize) -> Piece<'static>
    ensures { piece_text result ≡ heading_text algorithm quorum }
{
    match algorithm {
        Algorithm::Leader => After("leader, quorum ", quorum),
        Algorithm::Alpha => Text("alpha"),
    }
}

/// What comes before the lanes: the size, how things are drawn, the shapes of marks, and the heading.
#[tactic(auto, unfolding(crate::specs::Picture::document_text))]
fn document(w: usize, h: usize, heading: Piece<'static>) -> [Piece<'static>; 13]
    requires { w ≤ 13_000_024 }
    ensures { pieces_text result ≡ document_text w h (piece_text heading.entry) }
{
    [
        Text(NAMESPACE),
        Text("width='"),
        Number(w),
        Text("mm' viewBox='0 0 "),
        Number(4 * w),
        Text(" "),
        Number(h),
        Text("'>\n"),
        Text(STYLE),
        Text(SHAPES),
        Text("<text class='heading' x='8' y='16'>"),
        heading,
        Text("</text>\n"),
    ]
}

/// The same for a run.
fn head(grid: Grid, run: &Trace) -> [Piece<'static>; 13]
    requires { IsGrid grid }
    ensures { pieces_text result ≡ head_text grid run.now }
{
    let setup = run.setup();
    let heading = heading(setup.algorithm(), usize::from(setup.q()));
    document(width(grid), height(grid), heading)
}

/// Adds the arrows of all events.
fn push_arrows(
    alloc: Global,
    text: &mut String,
    grid: Grid,
    run: &Trace,
    weights: &[Weight],
) -> Result<(), NoMemory>
    requires grid { IsGrid grid }
    requires few { length run.now.history ≤ MAX_ENTRIES }
    requires a_weight_each { length weights.now ≡ length run.now.history }
    ensures { Pushes result text.old text.new (arrows_text grid run.now weights.now) }
{
    let events = run.events();
    let places = places_of(alloc, events)?;
    for i in 0..events.len() {
        let event = &events[i];
        push_arrow(text, grid, events, &places, weights[i], i + 1, event)?;
    }
    Ok(())
}

/// Adds the marks of all events. The run is played again, event by event, and asked when that is soonest answered.
fn push_marks<T: HasDeeds>(
    alloc: Global,
    text: &mut String,
    grid: Grid,
    run: &Trace,
    weights: &[Weight],
) -> Result<(), NoMemory>
    requires valid { IsInOrder T.rules run.now }
    requires grid { IsGrid grid }
    requires few { length run.now.history ≤ MAX_ENTRIES }
    requires a_weight_each { length weights.now ≡ length run.now.history }
    ensures { Pushes result text.old text.new (marks_text T.rules grid run.now weights.now) }
{
    let mut whole = String::new(alloc);
    let mut again = fresh::<T>(alloc, run)?;
    let mut names = ReceivedNames::none(alloc)?;
    let events = run.events();
    for i in 0..events.len() {
        let deed = next_deed(alloc, &again, &names, run, i)?;
        play_on(alloc, &mut again, &mut names, run, i)?;
        push_mark(
            alloc,
            text,
            grid,
            &deed,
            &again,
            weights[i],
            i + 1,
            &events[i],
            &mut whole,
        )?;
    }
    Ok(())
}

/// The picture in which the events are drawn in these weights. Only out of memory is an error.
pub(crate) fn weighed_picture<T: HasDeeds>(
    alloc: Global,
    grid: Grid,
    run: &Trace,
    weights: &[Weight],
) -> Result<Vec<u8>, NoMemory>
    requires valid { IsInOrder T.rules run.now }
    requires grid { IsGrid grid }
    requires processes { grid.processes ≡ run.now.setup.processes }
    requires few { length run.now.history ≤ MAX_ENTRIES }
    requires a_weight_each { length weights.now ≡ length run.now.history }
    ensures { IfOk result (λ text. text.items ≡ picture_text T.rules grid run.now weights.now) }
{
    let mut text = String::new(alloc);
    push_each(&mut text, &head(grid, run))?;
    push_lanes(&mut text, grid, run)?;
    push_arrows(alloc, &mut text, grid, run, weights)?;
    push_marks::<T>(alloc, &mut text, grid, run, weights)?;
    text.push_str("</svg>\n")?;
    Ok(text.into_bytes())
}
