//! A buffer between what is put and a writer.

ghost use Rattle.std.specs.Prelude.{◌≡◌, ◌↔◌, ℕ, ◌+◌, ◌<◌, ◌≤◌, List, [], ◌++◌, take};
ghost use Rattle.std.specs.Prelude.{length, IsTrue, MatchBool, Some, IfOk, OnOk, OnErr, codes};
ghost use Rattle.std.specs.List.{flat_map};
ghost use Rattle.cdb_base.specs.Memory.{no_memory};
ghost use Rattle.cdb_commands.specs.ReplyView.{reply_view};
ghost use Rattle.cdb_text.specs.Texts.{text_of};
ghost use Rattle.cdb_text.specs.declared.text.short_report.TheConstants.{MOST_LINE};
ghost use Rattle.cdb_streams.specs.Endings.{whole_ending};
ghost use Rattle.cdb_streams.specs.FaultTexts.{play_fault_text};
ghost use Rattle.cdb_streams.specs.Faults.{of_output};
ghost use Rattle.cdb_streams.specs.Written.{IsWritten, Only};
ghost use Rattle.cdb_streams.specs.declared.buffer.OutputFault.TheVariants as output;

use crate::fault::PlayFault;
use crate::sink::{Failed, Sink, write_all};
use cdb_base::NoMemory;
use cdb_commands::Reply;
use cdb_text::{
    Line, MOST_BYTES, MOST_CAUSES, MOST_ITEMS, MOST_LINE, MOST_REPORT, write_because,
    write_decisions, write_registers, write_short_reply, write_view,
};
use std::alloc::{AllocError, Global};
use std::error::Error;
use std::fmt;
use std::marker::Model;

/// How many bytes are handed on at a time.
const PIECE: usize = 65_536;

/// Why not all was written.
#[derive(Clone, Copy, Debug, PartialEq, Eq)]
pub enum OutputFault {
    /// The writer failed in this call.
    Write,
    NoMemory(NoMemory),
}

/// The text of the fault of a play.
impl fmt::Display for OutputFault {
    ghost output = { λ fault. Some (play_fault_text (of_output fault) (codes "the input")) };

    fn fmt<W: fmt::Write>(&self, f: &mut fmt::Formatter<W>) -> fmt::Result {
        let fault = PlayFault::from(*self);
        write!(f, "{fault}")
    }
}

impl Error for OutputFault {}

impl From<Failed> for OutputFault {
    ghost from_gives = { λ _ made. made ≡ output.Write };

    fn from(_error: Failed) -> Self {
        OutputFault::Write
    }
}

impl From<NoMemory> for OutputFault {
    ghost from_gives = { λ refused made. made ≡ output.NoMemory refused };

    fn from(refused: NoMemory) -> Self {
        OutputFault::NoMemory(refused)
    }
}

impl From<AllocError> for OutputFault {
    ghost from_gives = { λ _ made. made ≡ output.NoMemory no_memory };

    fn from(error: AllocError) -> Self {
        OutputFault::NoMemory(NoMemory::from(error))
    }
}

/// Bytes on their way to a writer, at most a piece of them.
#[derive(Drop)]
pub struct Buffer {
    /// A piece of bytes, the first of which are those that are held.
    bytes: Vec<u8>,
    count: usize,
}

impl Model for Buffer {
    ghost use Rattle.std.specs.Prelude.{◌≡◌, ℕ, ◌≤◌, List, length, take};
    ghost use Rattle.cdb_streams.specs.Buffers.{piece};

    ghost Value = { List ℕ };

    ghost view = { λ buffer. take buffer.count buffer.bytes.items };

    ghost invariant = { λ buffer. (length buffer.bytes.items ≡ piece)
        × (buffer.count ≤ piece) };
}

impl Buffer {
    ghost use Rattle.cdb_streams.specs.Buffers.{piece, IsPut};
    ghost use Rattle.cdb_streams.specs.PiecesPut.{Puts};
    ghost use Rattle.cdb_streams.specs.Streams.{Fails, Writes};

    /// An empty buffer, which has all the memory that it will need.
    pub fn new(alloc: Global) -> Result<Self, AllocError>
        ensures { IfOk result (λ buffer. buffer ≡ []) }
    {
        let bytes = vec![in alloc; 0; PIECE]?;
        Ok(Buffer { bytes, count: 0 })
    }

    fn is_full(&self) -> bool
        ensures full { IsTrue result ↔ (length self.now ≡ piece) }
        ensures within { length self.now ≤ piece }
    {
        self.count == PIECE
    }

    /// Holds the bytes too.
    fn hold(&mut self, bytes: &[u8])
        requires { length self.old + length bytes.now ≤ piece }
        ensures { self.new ≡ self.old ++ bytes.now }
    {
        let end = self.count + bytes.len();
        self.bytes.as_mut_slice()[self.count..end].copy_from_slice(bytes);
        self.count = end;
    }

    /// Holds a beginning of the bytes too, as many as there is room for, and returns how many.
    fn fill(&mut self, bytes: &[u8]) -> usize
        ensures within { result ≤ length bytes.now }
        ensures held { self.new ≡ self.old ++ take result bytes.now }
        ensures some { length self.old < piece → 0 < length bytes.now → 0 < result }
    {
        let count = bytes.len().min(PIECE - self.count);
        self.hold(&bytes[..count]);
        count
    }

    /// Holds the text of the reply to a step, a loss, an undo, a redo or what was refused too, which is written where
    /// it is held, unless there may be no room, or the reply is another: then nothing is changed.
    pub(crate) fn put_short(&mut self, reply: &Reply) -> bool
        ensures { MatchBool result
            (self.new ≡ self.old ++ text_of (reply_view reply.now)) (self.new ≡ self.old) }
    {
        if PIECE - self.count < MOST_BYTES {
            return false;
        }
        match write_short_reply(self.bytes.as_mut_slice(), self.count, reply) {
            Some(end) => {
                self.count = end;
                true
            }
            None => false,
        }
    }

    /// Holds the text of a reply too, which is written where it is held, unless it may be long or there may be no room:
    /// then nothing is changed.
    pub(crate) fn put_report(&mut self, reply: &Reply) -> bool
        ensures { MatchBool result
            (self.new ≡ self.old ++ text_of (reply_view reply.now)) (self.new ≡ self.old) }
    {
        if PIECE - self.count < MOST_REPORT {
            return false;
        }
        let (bytes, from) = (self.bytes.as_mut_slice(), self.count);
        self.count = match reply {
            Reply::Because(name, causes) if causes.len() <= MOST_CAUSES => {
                write_because(bytes, from, *name, causes.as_slice())
            }
            Reply::Proc(view) => write_view(bytes, from, view),
            Reply::Regs(cells) if cells.len() <= MOST_ITEMS => {
                write_registers(bytes, from, cells.as_slice())
            }
            Reply::Decisions(decisions) if decisions.len() <= MOST_ITEMS => {
                write_decisions(bytes, from, decisions.as_slice())
            }
            _ => return false,
        };
        true
    }

    /// Writes what is held, and holds nothing then.
    pub fn flush<W: Sink>(&mut self, out: &mut W) -> Result<(), Failed>
        ensures written { Writes W.stream result out.old out.new self.old }
        ensures emptied { OnOk result (self.new ≡ []) }
    {
        write_all(out, &self.bytes.as_slice()[..self.count])?;
        self.count = 0;
        Ok(())
    }

    /// Writes what is held if it is a full piece. So there is room then.
    fn make_room<W: Sink>(&mut self, out: &mut W) -> Result<(), Failed>
        ensures put { OnOk result
            (IsPut W.stream out.old self.old out.new self.new []) }
        ensures room { OnOk result (length self.new < piece) }
        ensures err { OnErr result (Fails W.stream out.old out.new self.old) }
    {
        if self.is_full() {
            self.flush(out)?;
        }
        Ok(())
    }

    /// Puts bytes for which there may be no room, as `put` does.
    #[inline(never)]
    fn put_in_pieces<W: Sink>(&mut self, out: &mut W, bytes: &[u8]) -> Result<(), Failed>
        ensures ok { OnOk result
            (IsPut W.stream out.old self.old out.new self.new bytes.now) }
        ensures err { OnErr result
            (Fails W.stream out.old out.new (self.old ++ bytes.now)) }
    {
        let mut done = 0;
        while done < bytes.len() {
            self.make_room(out)?;
            done += self.fill(&bytes[done..]);
        }
        Ok(())
    }

    /// Puts the bytes after those that are held. Each full piece is written before there is more to hold.
    pub fn put<W: Sink>(&mut self, out: &mut W, bytes: &[u8]) -> Result<(), Failed>
        ensures ok { OnOk result
            (IsPut W.stream out.old self.old out.new self.new bytes.now) }
        ensures err { OnErr result
            (Fails W.stream out.old out.new (self.old ++ bytes.now)) }
    {
        if bytes.len() <= PIECE - self.count {
            self.hold(bytes);
            return Ok(());
        }
        self.put_in_pieces(out, bytes)
    }

    /// Holds a line too, which is written where it is held.
    #[inline(always)]
    fn hold_line<L: Line>(&mut self, line: &L)
        requires { length self.old + MOST_LINE ≤ piece }
        ensures { self.new ≡ self.old ++ L.text line.now }
    {
        self.count = line.write(self.bytes.as_mut_slice(), self.count);
    }

    /// Puts a line for which there may be no room, as `put_line` does.
    #[inline(never)]
    fn put_line_in_pieces<W: Sink, L: Line>(&mut self, out: &mut W, line: &L) -> Result<(), Failed>
        ensures ok { OnOk result
            (IsPut W.stream out.old self.old out.new self.new (L.text line.now)) }
        ensures err { OnErr result
            (Fails W.stream out.old out.new (self.old ++ L.text line.now)) }
    {
        let mut bytes = [0; MOST_LINE];
        let end = line.write(&mut bytes, 0);
        self.put(out, &bytes[..end])
    }

    /// Puts a line as `put` does its bytes. Mostly it is written where it is held.
    #[inline(always)]
    fn put_line<W: Sink, L: Line>(&mut self, out: &mut W, line: &L) -> Result<(), Failed>
        ensures ok { OnOk result
            (IsPut W.stream out.old self.old out.new self.new (L.text line.now)) }
        ensures err { OnErr result
            (Fails W.stream out.old out.new (self.old ++ L.text line.now)) }
    {
        if PIECE - self.count < MOST_LINE {
            return self.put_line_in_pieces(out, line);
        }
        self.hold_line(line);
        Ok(())
    }

    /// Puts lines, one after the other.
    pub(crate) fn put_lines<W: Sink, L: Line>(
        &mut self,
        out: &mut W,
        lines: &[L],
    ) -> Result<(), OutputFault>
        ensures { Puts W.stream result out.old self.old out.new self.new
            (flat_map L.text lines.now) }
    {
        for line in lines {
            self.put_line(out, line)?;
        }
        Ok(())
    }
}

/// Writes a text, in pieces of 65,536 bytes. After `Write` what was written is a beginning of the text, and
/// after `NoMemory` nothing was.
pub fn write_text<W: Sink>(alloc: Global, text: &[u8], out: &mut W) -> Result<(), OutputFault>
    ensures { IsWritten W.stream (whole_ending result) out.old out.new (Only text.now) }
{
    let mut buffer = Buffer::new(alloc)?;
    buffer.put(out, text)?;
    buffer.flush(out)?;
    Ok(())
}
