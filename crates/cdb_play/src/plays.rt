//! A script is played: its commands are carried out one after the other, and each reply is written.

ghost use Rattle.std.specs.Prelude.{◌≡◌, true, ◌<◌, [], length, Err, IfErr, OnOk};
ghost use Rattle.cdb_base.specs.Limits.{MAX_ENTRIES};
ghost use Rattle.cdb_control.specs.Journal.{extended};
ghost use Rattle.cdb_setup.specs.declared.fault.SetupFault.{SetupFault as SetupFaultName};
ghost use Rattle.cdb_control.specs.OneSeat.{HasCarriedOut};
ghost use Rattle.cdb_streams.specs.PiecesPut.{Puts};
ghost use Rattle.cdb_streams.specs.Endings.{pieces_ending, play_ending};
ghost use Rattle.cdb_streams.specs.Faults.{IsFaultOfPlay};
ghost use Rattle.cdb_streams.specs.Streams.{FailsWhere};
ghost use Rattle.cdb_play.specs.Transcripts.{reply_to, transcript, Plays, RestsOnHeadline};
ghost use Rattle.cdb_streams.specs.Written.{IsWritten, Only};

use cdb_control::{CallFault, Command, Control, Runs, laws, open_for};
use cdb_setup::Setup;
use cdb_streams::{Buffer, OutputFault, PlayFault, Sink, Source, put_reply, read_commands};
use std::alloc::Global;

/// Carries a command out for the only seat, and puts the text of the reply, which is made in `text`.
fn perform<T: Runs, W: Sink>(
    alloc: Global,
    control: &mut Control<T>,
    command: Command,
    text: &mut String,
    buffer: &mut Buffer,
    out: &mut W,
) -> Result<(), OutputFault>
    requires seats { control.old.seats ≡ 1 }
    requires room { length control.old.journal < MAX_ENTRIES }
    ensures done { OnOk result (control.new ≡ extended T.rules control.old 1 command) }
    ensures put { Puts W.stream result out.old buffer.old out.new buffer.new
        (reply_to T.rules control.old command) }
{
    let reply = match control.execute(alloc, 1, command) {
        Ok(reply) => reply,
        Err(CallFault::JournalFull) => unreachable!(),
        Err(CallFault::NoMemory(refused)) => return Err(OutputFault::NoMemory(refused)),
    };
    put_reply(&reply, text, buffer, out)
}

/// Carries the commands out, one after the other, for the only seat of a control in which nothing has happened, and
/// puts the text of each reply, which is made in `text`. After an error what was put is a beginning of the transcript.
fn perform_each<T: Runs, W: Sink>(
    alloc: Global,
    control: &mut Control<T>,
    commands: &[Command],
    text: &mut String,
    buffer: &mut Buffer,
    out: &mut W,
) -> Result<(), OutputFault>
    requires few { length commands.now < MAX_ENTRIES }
    requires new { HasCarriedOut control.old.setup [] control.old }
    ensures { Puts W.stream result out.old buffer.old out.new buffer.new
        (transcript (T.rules control.old.setup) control.old.setup commands.now) }
{
    for command in commands {
        perform(alloc, control, *command, text, buffer, out)?;
    }
    Ok(())
}

/// Carries the commands out as `perform_each` does, on a run of the setup, and writes the transcript in pieces.
fn write_transcript<T: Runs, W: Sink>(
    alloc: Global,
    setup: Setup,
    commands: &[Command],
    out: &mut W,
) -> Result<(), OutputFault>
    requires { length commands.now < MAX_ENTRIES }
    ensures { IsWritten W.stream (pieces_ending result) out.old out.new
        (Only (transcript (T.rules setup) setup commands.now)) }
{
    let mut buffer = Buffer::new(alloc)?;
    let mut control = open_for::<T>(alloc, setup, commands.len() as u32)?;
    let mut text = String::new(alloc);
    let performed = perform_each(alloc, &mut control, commands, &mut text, &mut buffer, out);
    control.close();
    performed?;
    buffer.flush(out)?;
    Ok(())
}

/// Plays a script on a run of the setup, with seat 1 of one seat, and writes the text of each reply.
///
/// The setup is read first, then the whole script, then all its lines: so after `Setup` the script is not read,
/// and after `Setup`, `Read`, `ScriptTooLong` and `Line` nothing was written. After `Write` what was written is a
/// beginning of the transcript, and after `NoMemory` one of whole pieces of 65,536 bytes. `Read` and `Write` come
/// only where the reader or the writer failed in this call. A setup that is too long is refused as such, and never as
/// out of memory.
///
/// The replies in the transcript are those to a journal of which the headline holds.
///
/// Promise: A play writes exactly the transcript of its script, or a beginning of it with the reason: nothing after a
/// fault of the setup, of reading, of a line or of length. The setup's fault comes first, then the first bad line with
/// its first fault. The replies are those to a journal of which the headline holds.
pub fn play<T: Runs, R: Source, W: Sink>(
    alloc: Global,
    setup: &[u8],
    script: &mut R,
    out: &mut W,
) -> Result<(), PlayFault>
    ensures wrote { IsWritten W.stream (play_ending result) out.old out.new
        (Plays T.rules setup.now (R.stream script.old) (R.stream script.new)) }
    ensures headline { IsWritten W.stream (play_ending result) out.old out.new
        (RestsOnHeadline T.rules T.same_state setup.now
        (R.stream script.old) (R.stream script.new)) }
    ensures fault { IfErr result
        (IsFaultOfPlay setup.now (R.stream script.old) (R.stream script.new)) }
    ensures unread { (fault : SetupFaultName) → result ≡ Err (PlayFault.Setup fault) →
        script.new ≡ script.old }
    ensures read { FailsWhere R.stream (result ≡ Err PlayFault.Read) script.old script.new }
{
    // Its clause says that the headline holds of every journal.
    laws::headline::<T>();
    let setup = Setup::read(alloc, setup)?;
    let commands = read_commands(alloc, script)?;
    write_transcript::<T, W>(alloc, setup, commands.as_slice(), out)?;
    Ok(())
}
