//! The line of an event: the event, what it carries and decides, what it did, and its direct causes where they are
//! shown.

ghost use Rattle.cdb_base.specs.Event.{event_name};
ghost use Rattle.cdb_control.specs.Commands.{decides};
ghost use Rattle.cdb_explain.specs.Explanations.{because_text, line_text, shown_causes, whole_text};
ghost use Rattle.cdb_explain.specs.Rounds.{round_by};
ghost use Rattle.cdb_rules.specs.EventRefs.{name_given};
ghost use Rattle.cdb_rules.specs.Runs.{causes_in};
ghost use Rattle.cdb_text.specs.Pushes.{Pushes};
ghost use Rattle.std.specs.Prelude.{◌≡◌};

use crate::deed::push_deed;
use crate::detail::push_detail;
use cdb_base::{CopyName, Event, MsgName, Val};
use cdb_deeds::Deed;
use cdb_rules::{EventRef, Runs};
use cdb_text::{push_causes, push_decides, push_event};
use std::alloc::{AllocError, Global};

/// Whether the text of an event names its direct causes.
#[derive(Clone, Copy)]
pub enum Causes {
    Shown,
    Hidden,
}

/// The numbers under which a command names the event.
fn reference(event: &Event) -> EventRef
    ensures { name_given result ≡ event_name event.now }
{
    match *event {
        Event::Step { p, k, .. } => EventRef::Step(u32::from(p.number()), u32::from(k)),
        Event::Lost(
            CopyName {
                msg: MsgName { s, m },
                to,
            },
        ) => EventRef::Lost(u32::from(s.number()), u32::from(m), u32::from(to.number())),
    }
}

/// The decision that the last event of the run gave its process.
pub fn decision_by<T: Runs>(run: &T, event: &Event) -> Option<Val>
    ensures { result ≡ decides (T.rules (T.run run.now).setup) (T.run run.now).history event.now }
{
    match *event {
        Event::Step { p, .. } => run.view(u32::from(p.number()))?.decision,
        Event::Lost(_) => None,
    }
}

/// The round of the process of a step; 0 for the loss of a copy, and where the run has no such process.
pub fn round_by<T: Runs>(run: &T, event: &Event) -> u32
    ensures { result ≡ round_by T.rules (T.run run.now) event.now }
{
    match *event {
        Event::Step { p, .. } => run
            .view(u32::from(p.number()))
            .map_or(0, |process| process.round),
        Event::Lost(_) => 0,
    }
}

/// Adds the direct causes of a standing event, as `why` prints them.
fn push_because<T: Runs>(
    alloc: Global,
    text: &mut String,
    run: &T,
    event: &Event,
) -> Result<(), AllocError>
    ensures { Pushes result text.old text.new
        (because_text (causes_in (T.run run.now) (event_name event.now))) }
{
    match run.explain(alloc, reference(event)) {
        Ok((_, causes)) => {
            text.push_str(" because")?;
            push_causes(text, causes.as_slice())
        }
        Err(_) => Ok(()),
    }
}

/// Adds the direct causes of a standing event, where they are shown.
fn push_shown<T: Runs>(
    alloc: Global,
    text: &mut String,
    causes: Causes,
    run: &T,
    event: &Event,
) -> Result<(), AllocError>
    ensures { Pushes result text.old text.new (shown_causes causes (T.run run.now) event.now) }
{
    match causes {
        Causes::Shown => push_because(alloc, text, run, event),
        Causes::Hidden => Ok(()),
    }
}

/// Adds the whole text of the last event of a run, which did that. In a longer run it is the same, since nothing that
/// comes later changes direct causes. Only out of memory is an error.
pub fn push_whole<T: Runs>(
    alloc: Global,
    text: &mut String,
    causes: Causes,
    deed: &Deed,
    run: &T,
    event: &Event,
) -> Result<(), AllocError>
    ensures { Pushes result text.old text.new
        (whole_text T.rules causes (T.run run.now) deed.now (T.run run.now) event.now) }
{
    push_event(text, event)?;
    push_detail(text, run, event)?;
    push_decides(text, decision_by(run, event))?;
    push_deed(text, deed)?;
    push_shown(alloc, text, causes, run, event)
}

/// Adds the line of the last event of a run, which is its whole text.
pub(crate) fn push_line<T: Runs>(
    alloc: Global,
    text: &mut String,
    causes: Causes,
    deed: &Deed,
    run: &T,
    event: &Event,
) -> Result<(), AllocError>
    ensures { Pushes result text.old text.new
        (line_text T.rules causes (T.run run.now) deed.now (T.run run.now) event.now) }
{
    push_whole(alloc, text, causes, deed, run, event)?;
    text.push_str("\n")
}
