//! The frames of a script: the picture of the run after each of its commands that changed it, for slides.

ghost use Rattle.std.specs.Prelude.{◌≡◌, ◌+◌, ◌<◌, ◌≤◌, [], ◌∷◌, ◌++◌, Some, length, slice_get, All};
ghost use Rattle.std.specs.Prelude.{take, IfErr, IfOk, OnOk};
ghost use Rattle.cdb_agreement.specs.Algorithms.{rules};
ghost use Rattle.cdb_commands.specs.ReplyView.{reply_view};
ghost use Rattle.cdb_control.specs.Journal.{extended, reply_in};
ghost use Rattle.cdb_control.specs.OneSeat.{carried_out, HasCarriedOut};
ghost use Rattle.cdb_draw.specs.Frames.{AreFramesOf, frame_at, frame_weights, frames_of, IsFaultOfFrames};
ghost use Rattle.cdb_draw.specs.Frames.{IsFaultOfFinding, IsFrameOf, room_of, took_by};
ghost use Rattle.cdb_explain.specs.RunLeft.{run_of};
ghost use Rattle.cdb_rules.specs.ByRules.{IsInOrder};

use crate::layout::{MOST_DRAWN, grid_of};
use crate::picture::weighed_picture;
use crate::weight::Weight;
use cdb_any_run::AnyRun;
use cdb_base::NoMemory;
use cdb_base::limits::MAX_ENTRIES;
use cdb_control::{CallFault, Command, Control, Reply, open_for};
use cdb_explain::{AnswerFault, control_after, read_both};
use cdb_rules::{Runs, Trace};
use cdb_setup::Setup;
use std::alloc::Global;
use std::marker::Model;

/// A frame of a script.
#[derive(Clone, Copy)]
pub(crate) struct Frame {
    /// How many commands were carried out.
    pub commands: usize,
    /// How many events stand then.
    pub events: usize,
    /// Whether the last command took an event; else it took some out.
    pub took: bool,
}

/// Whether a command took an event or took some out; nothing where it left the run as it was.
fn took_by(reply: &Reply) -> Option<bool>
    ensures { result ≡ took_by (reply_view reply.now) }
{
    match reply {
        Reply::Stepped { .. } | Reply::Redone { .. } => Some(true),
        Reply::Undone(_) | Reply::RolledBack(_) => Some(false),
        _ => None,
    }
}

/// Carries a command out for the only seat, and tells what it did to the run, as `took_by` does.
fn carry_out(
    alloc: Global,
    control: &mut Control<AnyRun>,
    command: Command,
) -> Result<Option<bool>, NoMemory>
    requires seats { control.old.seats ≡ 1 }
    requires room { length control.old.journal < MAX_ENTRIES }
    ensures done { OnOk result (control.new ≡ extended rules control.old 1 command) }
    ensures took { IfOk result (λ took. took ≡ took_by (reply_in rules control.old 1 command)) }
{
    match control.execute(alloc, 1, command) {
        Ok(reply) => {
            let took = took_by(&reply);
            reply.close();
            Ok(took)
        }
        Err(CallFault::JournalFull) => unreachable!(),
        Err(CallFault::NoMemory(refused)) => Err(refused),
    }
}

/// Adds a frame.
fn push_frame(frames: &mut Vec<Frame>, frame: Frame) -> Result<(), NoMemory>
    ensures { OnOk result (frames.new.items ≡ frames.old.items ++ frame ∷ []) }
{
    frames.push(frame)?;
    Ok(())
}

/// Carries the command at this position of a script out, from 0, for the only seat of a control that has carried out
/// those before it, and adds the frame after it, where it changed the run. `TooManyEvents` where more than 5,000
/// events stand then.
fn add_next(
    alloc: Global,
    control: &mut Control<AnyRun>,
    commands: &[Command],
    i: usize,
    frames: &mut Vec<Frame>,
) -> Result<(), AnswerFault>
    requires few { length commands.now ≤ MAX_ENTRIES }
    requires i { i < length commands.now }
    requires before { HasCarriedOut control.old.setup (take i commands.now) control.old }
    ensures setup { OnOk result (control.new.setup ≡ control.old.setup) }
    ensures carried { OnOk result
        (HasCarriedOut control.old.setup (take (i + 1) commands.now) control.new) }
    ensures frames { OnOk result ((frames.new.items
        ≡ frames.old.items ++ frame_at rules control.old.setup commands.now (i + 1))
        × (All (IsFrameOf rules control.old.setup commands.now) frames.old.items
        → All (IsFrameOf rules control.old.setup commands.now) frames.new.items)) }
    ensures fault { IfErr result (IsFaultOfFinding rules control.old.setup commands.now) }
{
    let Some(took) = carry_out(alloc, control, commands[i])? else {
        return Ok(());
    };
    let standing = control.run().events(alloc)?;
    let events = standing.as_slice().len();
    if events > MOST_DRAWN {
        return Err(AnswerFault::TooManyEvents);
    }
    let frame = Frame {
        commands: i + 1,
        events,
        took,
    };
    push_frame(frames, frame)?;
    Ok(())
}

/// The frames of commands, which are carried out one after the other for the only seat of a control in which nothing
/// has happened.
fn find_each(
    alloc: Global,
    control: &mut Control<AnyRun>,
    commands: &[Command],
) -> Result<Vec<Frame>, AnswerFault>
    requires few { length commands.now ≤ MAX_ENTRIES }
    requires new { HasCarriedOut control.old.setup [] control.old }
    ensures frames { IfOk result
        (λ frames. frames.items ≡ frames_of rules control.old.setup commands.now) }
    ensures each { IfOk result
        (λ frames. All (IsFrameOf rules control.old.setup commands.now) frames.items) }
    ensures fault { IfErr result (IsFaultOfFinding rules control.old.setup commands.now) }
{
    let mut frames = Vec::new(alloc);
    for i in 0..commands.len() {
        add_next(alloc, control, commands, i, &mut frames)?;
    }
    Ok(frames)
}

/// The frames of commands of this setup.
fn find_frames(
    alloc: Global,
    setup: &Setup,
    commands: &[Command],
) -> Result<Vec<Frame>, AnswerFault>
    requires few { length commands.now ≤ MAX_ENTRIES }
    ensures frames { IfOk result (λ frames. frames.items ≡ frames_of rules setup.now commands.now) }
    ensures each { IfOk result (λ frames. All (IsFrameOf rules setup.now commands.now) frames.items) }
    ensures fault { IfErr result (IsFaultOfFinding rules setup.now commands.now) }
{
    let mut control = open_for::<AnyRun>(alloc, setup.copy(alloc)?, commands.len() as u32)?;
    let found = find_each(alloc, &mut control, commands);
    control.close();
    found
}

/// The most events of a frame.
fn room_of(frames: &[Frame]) -> usize
    ensures { result ≡ room_of frames.now }
{
    frames.iter().map(|frame| frame.events).max().unwrap_or(0)
}

/// How strongly each of so many events is drawn, the last of which a command took, or not.
fn weights_of(alloc: Global, took: bool, events: usize) -> Result<Vec<Weight>, NoMemory>
    ensures weights { IfOk result (λ weights. weights.items ≡ frame_weights took events) }
    ensures each { IfOk result (λ weights. length weights.items ≡ events) }
{
    if !took || events == 0 {
        return Ok(Vec::from_elem(alloc, Weight::Full, events)?);
    }
    let mut weights = Vec::from_elem(alloc, Weight::Full, events - 1)?;
    weights.push(Weight::Bold)?;
    Ok(weights)
}

/// What stands in the run that commands leave.
fn standing_after(alloc: Global, setup: &Setup, commands: &[Command]) -> Result<Trace, NoMemory>
    requires { length commands.now ≤ MAX_ENTRIES }
    ensures is { IfOk result (λ run. run ≡ run_of rules (carried_out setup.now commands.now)) }
    ensures valid { IfOk result (IsInOrder rules) }
{
    let control = control_after::<AnyRun>(alloc, setup.copy(alloc)?, commands)?;
    let (setup, history) = control.into_run().into_parts();
    Trace::new(alloc, setup, history)
}

/// The frames of a script: one for each command that changed the run, all on a canvas with room for the run of most
/// events. A contract sees the pictures, in the order of the commands.
#[derive(Drop)]
pub struct Frames {
    setup: Setup,
    commands: Vec<Command>,
    columns: u32,
    frames: Vec<Frame>,
    /// The most events of a frame.
    room: usize,
}

impl Model for Frames {
    ghost use Rattle.std.specs.Prelude.{◌≡◌, ℕ, ◌≤◌, List, length, map};
    ghost use Rattle.std.specs.List.{All};
    ghost use Rattle.cdb_agreement.specs.Algorithms.{rules};
    ghost use Rattle.cdb_base.specs.Limits.{MAX_ENTRIES};
    ghost use Rattle.cdb_draw.specs.Frames.{frame_text, IsFrameOf, room_of};

    ghost Value = { List (List ℕ) };

    ghost view = { λ it. map (frame_text rules it.setup it.commands.items it.columns it.room) it.frames.items };

    ghost invariant = { λ it. (length it.commands.items ≤ MAX_ENTRIES) × (it.room ≤ MAX_ENTRIES)
        × All (IsFrameOf rules it.setup it.commands.items) it.frames.items };
}

impl Frames {
    /// Reads a setup and then a script, and carries its commands out, without their replies. The pictures have
    /// `columns` columns to a row; with 0 all events are in one row. `TooManyEvents` where more than 5,000 events stand
    /// after a command that changed the run; the other faults are those of a play, without `Read` and `Write`.
    ///
    /// Promise: The frames of a script are the pictures of the run after each of its commands that took an event or
    /// took some out, in order: what stands then and nothing else, with the event that the command took in bold, on a
    /// canvas that has room for each.
    pub fn read(
        alloc: Global,
        setup: &[u8],
        script: &[u8],
        columns: u32,
    ) -> Result<Self, AnswerFault>
        ensures frames { IfOk result (AreFramesOf rules setup.now script.now columns) }
        ensures fault { IfErr result (IsFaultOfFrames rules setup.now script.now) }
    {
        let (setup, commands) = read_both(alloc, setup, script)?;
        let frames = find_frames(alloc, &setup, commands.as_slice())?;
        let room = room_of(frames.as_slice());
        Ok(Frames {
            setup,
            commands,
            columns,
            frames,
            room,
        })
    }

    /// How many there are.
    pub fn len(&self) -> usize
        ensures { result ≡ length self.now }
    {
        self.frames.len()
    }

    /// The picture of a frame, from 0. Only out of memory is an error.
    pub fn picture(&self, alloc: Global, i: usize) -> Result<Vec<u8>, NoMemory>
        requires { i < length self.now }
        ensures { IfOk result (λ text. slice_get self.now i ≡ Some text.items) }
    {
        let frame = self.frames[i];
        let run = standing_after(alloc, &self.setup, &self.commands[..frame.commands])?;
        let grid = grid_of(&self.setup, self.columns as usize, self.room);
        let weights = weights_of(alloc, frame.took, run.events().len())?;
        weighed_picture::<AnyRun>(alloc, grid, &run, weights.as_slice())
    }
}
