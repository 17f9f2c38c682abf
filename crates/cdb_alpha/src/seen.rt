//! What a phase has seen in the registers that it has read.

ghost use Rattle.std.specs.Prelude.{◌≡◌, ◌↔◌, IsTrue};
ghost use Rattle.cdb_alpha.specs.Seen.{greatest_write, value_seen, is_overtaken};

use cdb_base::{Cell, Val};

/// The greatest round of a write among the cells, 0 if there is none.
pub fn find_greatest_write(cells: &[Cell]) -> u32
    ensures { result ≡ greatest_write cells.now }
{
    let mut greatest = 0u32;
    for cell in cells {
        greatest = greatest.max(cell.lrww);
    }
    greatest
}

/// The value of the first cell with the greatest round of a write, where it was written.
pub fn find_value(cells: &[Cell]) -> Option<Val>
    ensures { result ≡ value_seen cells.now }
{
    let greatest = find_greatest_write(cells);
    if greatest == 0 {
        return None;
    }
    for cell in cells {
        if cell.lrww == greatest {
            return cell.val;
        }
    }
    None
}

/// Whether some cell was entered in a round later than that.
pub(crate) fn shows_later_round(cells: &[Cell], round: u32) -> bool
    ensures { result ≡ is_overtaken round cells.now }
{
    cells.iter().any(|cell| round < cell.lre)
}

/// Whether the cells are the same, in the same order.
#[tactic(auto, using(crate::proofs::Promised::same_cells))]
pub(crate) fn are_same(cells: &[Cell], others: &[Cell]) -> bool
    ensures { IsTrue result ↔ (cells.now ≡ others.now) }
{
    cells == others
}
