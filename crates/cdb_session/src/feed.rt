//! What a session does with the bytes that it was given.

ghost use Rattle.std.specs.Prelude.{◌≡◌, ◌+◌, ◌-◌, ◌<◌, ◌≤◌, ◌^◌, length, OnOk};
ghost use Rattle.cdb_session.specs.Lines.{seen_by};
ghost use Rattle.cdb_session.specs.Styles.{MaySit, Onward};
ghost use Rattle.cdb_session.specs.Unfinished.{RespondsToLine, Feeds};
ghost use Rattle.cdb_setup.specs.Format.{longest};

use crate::caller::Caller;
use crate::console::Console;
use crate::request::request_of;
use crate::session::Session;
use crate::style::Style;
use crate::typed::line_meant;
use crate::unfinished::{cut, hold};
use cdb_streams::OutputFault;
use std::alloc::Global;

/// Responds to the line that has ended, and keeps nothing then. Returns whether the line was `quit`.
#[tactic(auto, using(crate::proofs::CallChain::calls_in_order))]
pub(crate) fn respond_to_line<C: Caller, T: Console>(
    alloc: Global,
    style: &Style<'_>,
    session: &mut Session<C>,
    unfinished: &mut Vec<u8>,
    console: &mut T,
) -> Result<bool, OutputFault>
    requires sits { MaySit style.now (C.seats session.old.caller) session.old.place.seat }
    requires lines { session.old.place.lines < 2 ^ 64 - 1 }
    ensures unfinished { RespondsToLine C.answers style.now result (T.known console.old) (T.known console.new)
        (seen_by C.part session.old) (seen_by C.part session.new)
        unfinished.old.items unfinished.new.items }
    ensures sits { OnOk result (MaySit style.now (C.seats session.new.caller) session.new.place.seat) }
    ensures later { Onward C.later session.old.caller session.new.caller }
{
    let line = line_meant(alloc, unfinished.as_slice())?;
    let request = request_of(line.as_slice());
    session.show(alloc, style, &request)?.put(console)?;
    unfinished.clear();
    Ok(request.is_quit())
}

/// Answers each line that ends in these bytes, up to `quit`, and holds what follows the last. Returns whether one was
/// `quit`.
#[tactic(auto, using(crate::proofs::CallChain::calls_in_order))]
pub(crate) fn feed<C: Caller, T: Console>(
    alloc: Global,
    style: &Style<'_>,
    session: &mut Session<C>,
    unfinished: &mut Vec<u8>,
    console: &mut T,
    bytes: &[u8],
) -> Result<bool, OutputFault>
    requires sits { MaySit style.now (C.seats session.old.caller) session.old.place.seat }
    requires lines { session.old.place.lines + length bytes.now < 2 ^ 64 }
    requires unfinished { length unfinished.old.items ≤ longest + 1 }
    ensures feeds { Feeds C.answers style.now result (T.known console.old) (T.known console.new)
        (seen_by C.part session.old) (seen_by C.part session.new)
        unfinished.old.items unfinished.new.items bytes.now }
    ensures unfinished { OnOk result (length unfinished.new.items ≤ longest + 1) }
    ensures lines { OnOk result (session.new.place.lines ≤ session.old.place.lines + length bytes.now) }
    ensures sits { OnOk result (MaySit style.now (C.seats session.new.caller) session.new.place.seat) }
    ensures later { Onward C.later session.old.caller session.new.caller }
{
    let mut rest = bytes;
    while let Some((line, behind)) = cut(rest) {
        hold(unfinished, line)?;
        if respond_to_line(alloc, style, session, unfinished, console)? {
            return Ok(true);
        }
        rest = behind;
    }
    hold(unfinished, rest)?;
    Ok(false)
}
