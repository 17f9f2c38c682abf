//! Frames of script files, each written to a file of its own.

ghost use Rattle.std.specs.Prelude.{◌≡◌, ◌++◌, ◌∷◌, [], ◌+◌, ◌<◌, decimal, length};
ghost use Rattle.std.specs.Prelude.{replicate, string_bytes, IfOk, OnOk, OnErr};
ghost use Rattle.cdb_program.specs.FrameFiles.{file_of, frame_name, FramesFiles, WritesFrames};
ghost use Rattle.cdb_program.specs.Known.{after_writing};

use crate::fault::{Fault, of_answer};
use crate::files::{Files, read_two};
use crate::world::World;
use cdb_draw::Frames;
use cdb_streams::{OutputFault, PlayFault, Sink, Source};
use std::alloc::{AllocError, Global};

/// The digits of a number.
fn digits_of(alloc: Global, number: usize) -> Result<String, AllocError>
    ensures { IfOk result (λ text. string_bytes text ≡ decimal number) }
{
    format!(in alloc; "{number}")
}

/// Adds so many zeros.
fn push_zeros(text: &mut String, count: usize) -> Result<(), AllocError>
    ensures { OnOk result (string_bytes text.new ≡ string_bytes text.old ++ replicate count 48) }
{
    for _ in 0..count {
        text.push('0')?;
    }
    Ok(())
}

/// The name of the file of a frame, of so many, counted from 1.
fn frame_name(
    alloc: Global,
    folder: &str,
    count: usize,
    number: usize,
) -> Result<String, AllocError>
    ensures { IfOk result (λ name. string_bytes name ≡ frame_name folder.now count number) }
{
    let digits = digits_of(alloc, count)?.len().max(4);
    let number = digits_of(alloc, number)?;
    let mut name = String::from_str(alloc, folder)?;
    name.push('/')?;
    push_zeros(&mut name, digits.saturating_sub(number.len()))?;
    name.push_str(number.as_str())?;
    name.push_str(".svg")?;
    Ok(name)
}

/// Writes the picture of a frame, from 0, to its file. After an error there is no such file.
fn write_frame<F: Files>(
    alloc: Global,
    files: &mut F,
    folder: &str,
    frames: &Frames,
    i: usize,
) -> Result<(), OutputFault>
    requires { i < length frames.now }
    ensures ok { OnOk result (F.seen files.new
        ≡ after_writing (F.seen files.old) (file_of folder.now frames.now (i + 1) ∷ [])) }
    ensures err { OnErr result (F.seen files.new ≡ F.seen files.old) }
{
    let name = frame_name(alloc, folder, frames.len(), i + 1)?;
    let picture = frames.picture(alloc, i)?;
    files.write_whole(alloc, name.as_str(), picture.as_slice())
}

/// Writes the pictures of frames to the files of a folder, one after the other, since all of them may be more than
/// memory holds. So after an error the first ones are there, each whole.
///
/// # Errors
/// `Play(Read, folder)` where the folder is refused, `Play(Write, folder)` where a file can't be written, and
/// `Play(NoMemory, folder)` where an allocation fails.
fn write_frames<'a, F: Files>(
    alloc: Global,
    files: &mut F,
    folder: &'a str,
    frames: &Frames,
) -> Result<(), Fault<'a>>
    ensures { WritesFrames (F.seen files.old) (F.seen files.new) folder.entry.now frames.now result }
{
    if let Err(fault) = files.take_folder(alloc, folder) {
        return Err(Fault::Play(PlayFault::from(fault), folder));
    }
    for i in 0..frames.len() {
        if let Err(fault) = write_frame(alloc, files, folder, frames, i) {
            return Err(Fault::Play(PlayFault::from(fault), folder));
        }
    }
    Ok(())
}

/// Draws the frames of a script file on a setup file, with `columns` columns to a row, into the files of a folder. The
/// folder is taken once all commands were carried out.
pub fn frame_files<'a, F: Files + Drop, I: Source + Drop, O: Sink + Drop, E: Sink + Drop>(
    alloc: Global,
    setup: &'a str,
    script: &'a str,
    folder: &'a str,
    columns: u32,
    world: &mut World<F, I, O, E>,
) -> Result<(), Fault<'a>>
    ensures does { FramesFiles setup.entry.now script.entry.now folder.entry.now columns
        world.old world.new result }
    ensures error { world.new.error ≡ world.old.error }
    ensures saved { world.new.saved ≡ world.old.saved }
{
    let (json, bytes) = read_two(alloc, &mut world.files, setup, script)?;
    match Frames::read(alloc, json.as_slice(), bytes.as_slice(), columns) {
        Ok(frames) => write_frames(alloc, &mut world.files, folder, &frames),
        Err(fault) => of_answer(Err(fault), script),
    }
}
