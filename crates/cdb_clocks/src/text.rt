//! The text of clocks: of each step its clock, and then what it did.

ghost use Rattle.std.specs.Prelude.{◌≡◌, ◌≤◌, ◌++◌, Bool, suc, IfOk, length};
ghost use Rattle.cdb_clocks.specs.Rows.{clock_in};
ghost use Rattle.cdb_clocks.specs.Clocks.{AreClocks};
ghost use Rattle.cdb_clocks.specs.Texts.{clock_text, comma_text, entries_text, entry_text};
ghost use Rattle.cdb_clocks.specs.Texts.{first_lines, step_text, IsClocksText};
ghost use Rattle.cdb_rules.specs.ByRules.{IsInOrder};
ghost use Rattle.cdb_standing.specs.Tables.{rows_in};
ghost use Rattle.cdb_text.specs.Pushes.{Pushes};

use crate::clock::{Clock, clocks_of};
use crate::rows::clock_at;
use cdb_base::{Event, NoMemory, Proc};
use cdb_deeds::{Deed, HasDeeds, ReceivedNames};
use cdb_explain::{Causes, fresh, next_deed, play_on, push_whole};
use cdb_rules::{Runs, Trace};
use cdb_same::history_of;
use std::alloc::{AllocError, Global};

/// Adds how many steps of a process there are, after a comma but for the first.
fn push_entry(text: &mut String, is_first: bool, q: u8, n: u16) -> Result<(), AllocError>
    ensures { Pushes result text.old text.new (comma_text is_first ++ entry_text q n) }
{
    if !is_first {
        text.push_str(",")?;
    }
    write!(text, "\"p{q}\":{n}")
}

/// Adds the entries of a clock, without those that are 0.
fn push_entries(text: &mut String, clock: &Clock) -> Result<(), AllocError>
    ensures { Pushes result text.old text.new (entries_text 1 Bool.true clock.now) }
{
    let mut is_first = true;
    for i in 0..9u8 {
        let n = clock[i as usize];
        if n > 0 {
            push_entry(text, is_first, i + 1, n)?;
            is_first = false;
        }
    }
    Ok(())
}

/// Adds the clock of the `k`-th step of process `p`, as a line.
fn push_clock(text: &mut String, rows: &Vec<Vec<Clock>>, p: Proc, k: u16) -> Result<(), AllocError>
    requires { length rows.now.items ≡ 9 }
    ensures { Pushes result text.old text.new (clock_text p (clock_in (rows_in rows.now.items) p k)) }
{
    let clock = clock_at(rows, p, k);
    let p = p.number();
    write!(text, "p{p} {{")?;
    push_entries(text, &clock)?;
    text.push_str("}\n")
}

/// Adds the lines of the last event of a run, which did that, if it is a step, with its clock of these rows.
fn push_step<T: Runs>(
    alloc: Global,
    text: &mut String,
    deed: &Deed,
    run: &T,
    event: &Event,
    rows: &Vec<Vec<Clock>>,
) -> Result<(), AllocError>
    requires { length rows.now.items ≡ 9 }
    ensures { Pushes result text.old text.new
        (step_text T.rules (T.run run.now) deed.now (clock_in (rows_in rows.now.items)) event.now) }
{
    match event {
        Event::Step { p, k, .. } => {
            push_clock(text, rows, *p, *k)?;
            push_whole(alloc, text, Causes::Shown, deed, run, event)?;
            text.push_str("\n")
        }
        Event::Lost(_) => Ok(()),
    }
}

/// Adds the lines of each step of a run, with its clock.
fn push_lines<T: HasDeeds>(
    alloc: Global,
    text: &mut String,
    run: &Trace,
    rows: &Vec<Vec<Clock>>,
) -> Result<(), NoMemory>
    requires valid { IsInOrder T.rules run.now }
    requires rows { length rows.now.items ≡ 9 }
    ensures { Pushes result text.old text.new
        (first_lines T.rules run.now (clock_in (rows_in rows.now.items)) (length run.now.history)) }
{
    let mut again = fresh::<T>(alloc, run)?;
    let mut names = ReceivedNames::none(alloc)?;
    let events = run.events();
    for i in 0..events.len() {
        let deed = next_deed(alloc, &again, &names, run, i)?;
        play_on(alloc, &mut again, &mut names, run, i)?;
        push_step(alloc, text, &deed, &again, &events[i], rows)?;
    }
    Ok(())
}

/// The standing steps of a run, in their order, each in two lines: its process with its clock, and what it did, as an
/// explanation has it. A clock has of each process how many of its steps have led to the step, itself included; losses
/// are left out. Only out of memory is an error.
///
/// Promise: The clocks of a run have, for each standing step and each process, how many steps of the process have led
/// to that step, itself included.
pub fn clocks<T: HasDeeds>(alloc: Global, run: &Trace) -> Result<Vec<u8>, NoMemory>
    requires { IsInOrder T.rules run.now }
    ensures { IfOk result (λ text. IsClocksText T.rules run.now text.items) }
{
    let history = history_of::<T>(alloc, run)?;
    let rows = clocks_of(alloc, &history)?;
    let mut text = String::new(alloc);
    push_lines::<T>(alloc, &mut text, run, &rows)?;
    Ok(text.into_bytes())
}
