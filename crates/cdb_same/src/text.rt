//! The text of a comparison.

ghost use Rattle.std.specs.Prelude.{◌≡◌, IfOk};
ghost use Rattle.cdb_text.specs.Pushes.{Pushes};
ghost use Rattle.cdb_same.specs.Texts.{comparison_text, which_text};

use crate::compare::{Comparison, Which};
use cdb_base::NoMemory;
use cdb_text::push_event;
use std::alloc::{AllocError, Global};

/// Adds which run it is.
fn push_which(text: &mut String, which: Which) -> Result<(), AllocError>
    ensures { Pushes result text.old text.new (which_text which) }
{
    match which {
        Which::First => text.push_str("first"),
        Which::Second => text.push_str("second"),
    }
}

/// Adds how two runs compare.
fn push_comparison(text: &mut String, found: &Comparison) -> Result<(), AllocError>
    ensures { Pushes result text.old text.new (comparison_text found.now) }
{
    match found {
        Comparison::Same => text.push_str("same run\n"),
        Comparison::Alone(which, event) => {
            text.push_str("different runs\n")?;
            push_which(text, *which)?;
            text.push_str(" alone ")?;
            push_event(text, event)?;
            text.push_str("\n")
        }
        Comparison::OtherOrder(event, other) => {
            text.push_str("different runs\nother order ")?;
            push_event(text, event)?;
            text.push_str(", ")?;
            push_event(text, other)?;
            text.push_str("\n")
        }
    }
}

/// The text of how two runs compare.
pub(crate) fn text_of(alloc: Global, found: &Comparison) -> Result<Vec<u8>, NoMemory>
    ensures { IfOk result (λ text. text.items ≡ comparison_text found.now) }
{
    let mut text = String::new(alloc);
    push_comparison(&mut text, found)?;
    Ok(text.into_bytes())
}
