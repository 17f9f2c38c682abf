//! What registers hold, on their lanes.

ghost use Rattle.std.specs.Prelude.{◌≡◌, ◌≤◌};
ghost use Rattle.cdb_draw.specs.EventMarks.{held_text, holding_text, written_text};
ghost use Rattle.cdb_draw.specs.Layout.{IsGrid};
ghost use Rattle.cdb_draw.specs.Pieces.{piece_text, pieces_text};
ghost use Rattle.cdb_rules.specs.ByRules.{cell_in};
ghost use Rattle.cdb_text.specs.Pushes.{Pushes};

use crate::arrow::register_spot;
use crate::layout::Grid;
use crate::mark::value;
use crate::piece::Piece::{Between, Text};
use crate::piece::{Piece, push_each};
use crate::weight::Weight;
use cdb_base::limits::MAX_ENTRIES;
use cdb_base::{Event, Kind, Reg};
use cdb_rules::Runs;
use std::alloc::AllocError;

/// The value that a register of a run holds, where the run has it.
fn held<T: Runs>(run: &T, register: &Reg) -> Piece<'static>
    ensures { piece_text result ≡ held_text (cell_in T.rules (T.run run.now) register.now) }
{
    match run.cell(*register) {
        Some(cell) => value(cell.val),
        None => Text(""),
    }
}

/// A value on the lane of a register, at the head of the arrow at a position.
#[tactic(auto, unfolding(crate::specs::EventMarks::holding_text))]
fn holding(
    grid: Grid,
    weight: Weight,
    position: usize,
    register: Reg,
    value: Piece<'static>,
) -> [Piece<'static>; 7]
    requires grid { IsGrid grid }
    requires position { position ≤ MAX_ENTRIES }
    ensures { pieces_text result
        ≡ holding_text grid weight position register (piece_text value.entry) }
{
    let at = register_spot(grid, position, register);
    [
        Text("<g class='holds "),
        Text(weight.class()),
        Text("' transform='translate("),
        Between(at.x, ",", at.y),
        Text(")'><text x='6' y='-3'>"),
        value,
        Text("</text></g>\n"),
    ]
}

/// Adds what the last event of a run, which stands at a position, from 1, left in a register, where it is a write.
pub(crate) fn push_written<T: Runs>(
    text: &mut String,
    grid: Grid,
    run: &T,
    weight: Weight,
    position: usize,
    event: &Event,
) -> Result<(), AllocError>
    requires grid { IsGrid grid }
    requires position { position ≤ MAX_ENTRIES }
    ensures { Pushes result text.old text.new
        (written_text T.rules grid (T.run run.now) weight position event.now) }
{
    match *event {
        Event::Step {
            kind: Kind::Write(register),
            ..
        } => {
            let value = held(run, &register);
            push_each(text, &holding(grid, weight, position, register, value))
        }
        _ => Ok(()),
    }
}
