//! Texts of numbers, events, values and payloads, each of which is written in bytes first, at the end of a text.

ghost use Rattle.std.specs.Prelude.{◌≡◌, true, decimal};
ghost use Rattle.cdb_text.specs.Events.{event_text};
ghost use Rattle.cdb_text.specs.Pushes.{Pushes, all_ascii};
ghost use Rattle.cdb_text.specs.Reports.{value_text, payload_text};
ghost use Rattle.cdb_text.specs.Texts.{decides_text};

use super::short::{MOST_BYTES, write_decides, write_event, write_number};
use super::short_report::{write_payload, write_value};
use cdb_base::{Event, Payload, Val};
use std::alloc::AllocError;
use std::str::from_utf8_unchecked;

/// Adds these bytes at the end of a text.
pub(super) fn push_bytes(text: &mut String, bytes: &[u8]) -> Result<(), AllocError>
    requires { all_ascii bytes.now ≡ true }
    ensures { Pushes result text.old text.new bytes.now }
{
    // SAFETY: the condition says that they are ASCII.
    text.push_str(unsafe { from_utf8_unchecked(bytes) })
}

/// Adds a number in decimal at the end of a text. Only out of memory is an error.
pub fn push_number(text: &mut String, number: u32) -> Result<(), AllocError>
    ensures { Pushes result text.old text.new (decimal number) }
{
    push_written!(text, write_number(number))
}

/// Adds a value at the end of a text, or `none`. Only out of memory is an error.
pub fn push_value(text: &mut String, value: Option<Val>) -> Result<(), AllocError>
    ensures { Pushes result text.old text.new (value_text value) }
{
    push_written!(text, write_value(value))
}

/// Adds ` decides V` at the end of a text where a decision was given, and nothing where none was. Only
/// out of memory is an error.
pub fn push_decides(text: &mut String, decides: Option<Val>) -> Result<(), AllocError>
    ensures { Pushes result text.old text.new (decides_text decides) }
{
    push_written!(text, write_decides(decides))
}

/// Adds a payload at the end of a text, as `show mail` prints it. Only out of memory is an error.
pub fn push_payload(text: &mut String, payload: &Payload) -> Result<(), AllocError>
    ensures { Pushes result text.old text.new (payload_text payload.now) }
{
    push_written!(text, write_payload(payload))
}

/// Adds the text of an event at the end of a text, as `show history` prints it. Only out of memory is an error.
pub fn push_event(text: &mut String, event: &Event) -> Result<(), AllocError>
    ensures { Pushes result text.old text.new (event_text event.now) }
{
    push_written!(text, write_event(event))
}
