//! The lines of the flagged events.

ghost use Rattle.cdb_explain.specs.Explanations.{count_text, events_text, line_at, lines_text, IsExplanation};
ghost use Rattle.cdb_explain.specs.Flagged.{flagged_of_first};
ghost use Rattle.cdb_explain.specs.Replays.{IsPlayed};
ghost use Rattle.cdb_rules.specs.ByRules.{IsInOrder};
ghost use Rattle.cdb_text.specs.Pushes.{Pushes};
ghost use Rattle.std.specs.Prelude.{◌≡◌, ◌+◌, ◌<◌, ◌≤◌, suc, [], length, if◌then◌else◌, IfOk, OnOk};

use crate::line::{Causes, push_line};
use crate::replay::{fresh, next_deed, play_on};
use cdb_base::NoMemory;
use cdb_deeds::{HasDeeds, ReceivedNames};
use cdb_rules::Trace;
use std::alloc::{AllocError, Global};

/// Takes the next event of a run that is played again; where it is flagged its line is added, and one is returned, else
/// none. The run is asked before the event for what the event does, and after it for all else.
fn push_next<T: HasDeeds>(
    alloc: Global,
    text: &mut String,
    causes: Causes,
    again: &mut T,
    names: &mut ReceivedNames,
    run: &Trace,
    i: usize,
    flag: bool,
) -> Result<usize, NoMemory>
    requires valid { IsInOrder T.rules run.now }
    requires within { i < length run.now.history }
    requires played { IsPlayed run.now i (T.run again.old) names.old }
    ensures played { OnOk result (IsPlayed run.now (i + 1) (T.run again.new) names.new) }
    ensures line { Pushes result text.old text.new
        (if flag then line_at T.rules causes run.now (suc i) else []) }
    ensures count { IfOk result (λ count. count ≡ (if flag then 1 else 0)) }
{
    if flag {
        let deed = next_deed(alloc, again, names, run, i)?;
        play_on(alloc, again, names, run, i)?;
        let events = run.events();
        push_line(alloc, text, causes, &deed, again, &events[i])?;
        return Ok(1);
    }
    play_on(alloc, again, names, run, i)?;
    Ok(0)
}

/// Adds the lines of the flagged events, in the order of the history, with their causes or without, and returns how
/// many they are. There is a flag for each event. `NoMemory` if an allocation fails. It plays the run again, event by
/// event, and asks it when that is soonest answered.
pub fn push_lines<T: HasDeeds>(
    alloc: Global,
    text: &mut String,
    causes: Causes,
    run: &Trace,
    flags: &[bool],
) -> Result<usize, NoMemory>
    requires valid { IsInOrder T.rules run.now }
    requires a_flag_each { length flags.now ≡ length run.now.history }
    ensures lines { Pushes result text.old text.new (events_text T.rules causes run.now flags.now) }
    ensures count { IfOk result (λ count.
        count ≡ length (flagged_of_first (length run.now.history) flags.now)) }
{
    let mut again = fresh::<T>(alloc, run)?;
    let mut names = ReceivedNames::none(alloc)?;
    let mut count = 0;
    for i in 0..run.events().len() {
        count += push_next(
            alloc, text, causes, &mut again, &mut names, run, i, flags[i],
        )?;
    }
    Ok(count)
}

/// Adds how many of how many events, in a line. Only out of memory is an error.
pub fn push_count(text: &mut String, count: usize, all: usize) -> Result<(), AllocError>
    ensures { Pushes result text.old text.new (count_text count all) }
{
    write!(text, "{count} of {all}")?;
    // In two, since the search for the proof stops at a longer text.
    text.push_str(" standing")?;
    text.push_str(" events\n")
}

/// The lines of the flagged events, with their causes, and then how many they are of how many.
fn text_of_flagged<T: HasDeeds>(
    alloc: Global,
    run: &Trace,
    flags: &[bool],
) -> Result<Vec<u8>, NoMemory>
    requires valid { IsInOrder T.rules run.now }
    requires a_flag_each { length flags.now ≡ length run.now.history }
    ensures { IfOk result (λ text. text.items ≡ lines_text T.rules run.now flags.now) }
{
    let mut text = String::new(alloc);
    let count = push_lines::<T>(alloc, &mut text, Causes::Shown, run, flags)?;
    push_count(&mut text, count, run.events().len())?;
    Ok(text.into_bytes())
}

/// The explanation of the event at a position of the history, from 1: a line for each event that led to it, in
/// the order of the history, and then how many they are. `NoMemory` if an allocation fails.
pub fn explanation<T: HasDeeds>(
    alloc: Global,
    run: &Trace,
    position: usize,
) -> Result<Vec<u8>, NoMemory>
    requires valid { IsInOrder T.rules run.now }
    requires from_one { 1 ≤ position }
    requires to_len { position ≤ length run.now.history }
    ensures { IfOk result (λ text. IsExplanation T.rules run.now position text.items) }
{
    let flags = run.flag_past(alloc, position)?;
    let text = text_of_flagged::<T>(alloc, run, flags.as_slice())?;
    Ok(text)
}
