//! A control whose calls are given the lines of scripts.

use super::example::has_same_events;
use cdb_any_run::AnyRun;
use cdb_base::NoMemory;
use cdb_control::{CallFault, Control, Reply};
use cdb_setup::Setup;
use cdb_text::{parse_line, reply_text};
use std::alloc::Global;
use std::marker::Model;
use std::process::Abort;

/// A setup, or none where an allocation failed.
fn setup_of(alloc: Global, setup: &str) -> Option<Setup> {
    Setup::read(alloc, setup.as_bytes()).ok()
}

/// A control with two seats. What its calls answer is seen when the tests run: their contracts say nothing of it, so
/// that the proof of a test does not read what a control is.
pub struct Session {
    pub control: Control<AnyRun>,
}

impl Model for Session {
    ghost use Rattle.std.specs.Prelude.{⊤};

    ghost Value = { ⊤ };

    ghost view = { λ _. tt };
}

impl Session {
    /// A session of a setup in which nothing has happened, or none where an allocation failed.
    fn open_once(alloc: Global, setup: &str) -> Option<Session> {
        let setup = setup_of(alloc, setup)?;
        let control = Control::open(alloc, setup, 2).ok()?;
        Some(Session { control })
    }

    /// The same, at the second try where an allocation failed.
    pub fn open<R: Abort + AllocGlobal>(rt: &R, setup: &str) -> Session {
        match Session::open_once(rt.alloc(), setup) {
            Some(session) => session,
            None => Session::open_once(rt.alloc(), setup).expect(rt, "a session"),
        }
    }

    /// Gives the session up.
    pub fn end(self) {
        let Session { control } = self;
        control.close();
    }

    /// Carries out the command of a line, of a seat.
    pub fn try_line<R: Abort + AllocGlobal>(
        &mut self,
        rt: &R,
        seat: u8,
        line: &str,
    ) -> Result<Reply, CallFault> {
        assert!(rt; 1 <= seat && seat <= self.control.seats());
        let command = parse_line(line.as_bytes()).expect(rt, line);
        self.control.execute(rt.alloc(), seat, command)
    }

    /// The same, at the second try where an allocation failed.
    pub fn give<R: Abort + AllocGlobal>(&mut self, rt: &R, seat: u8, line: &str) -> Reply {
        match self.try_line(rt, seat, line) {
            Ok(reply) => reply,
            Err(_) => self.try_line(rt, seat, line).expect(rt, line),
        }
    }

    /// Gives a line of the first seat this many times.
    pub fn repeat<R: Abort + AllocGlobal>(&mut self, rt: &R, times: u32, line: &str) {
        for _ in 0..times {
            self.give(rt, 1, line).close();
        }
    }

    /// Makes room for this many commands of a seat.
    pub fn reserve<R: Abort + AllocGlobal>(
        &mut self,
        rt: &R,
        seat: u8,
        count: u32,
    ) -> Result<(), NoMemory> {
        assert!(rt; 1 <= seat && seat <= self.control.seats());
        assert!(rt; count <= 999_999);
        self.control.reserve(rt.alloc(), seat, count)
    }

    /// The rooms of both seats.
    pub fn rooms<R: Abort>(&self, rt: &R) -> [u32; 2] {
        assert!(rt; self.control.seats() == 2);
        [self.control.room(1), self.control.room(2)]
    }

    /// How many entries the journal has, and how many events stand.
    pub fn lengths(&self) -> (usize, usize) {
        let history = self.control.run().history();
        (self.control.journal().len(), history.len())
    }

    /// Whether the same events stand in both, and both have the same journal.
    pub fn shows_same<R: Abort + AllocGlobal>(&self, rt: &R, other: &Session) -> bool {
        self.control.journal() == other.control.journal()
            && has_same_events(rt, self.control.run(), other.control.run())
    }
}

/// The text of a reply, at the second try where an allocation failed.
fn try_text<R: Abort + AllocGlobal>(rt: &R, reply: &Reply) -> Vec<u8> {
    match reply_text(rt.alloc(), reply) {
        Ok(text) => text,
        Err(_) => reply_text(rt.alloc(), reply).expect(rt, "the text of a reply"),
    }
}

/// The same, after which the reply is given up.
pub fn text_of<R: Abort + AllocGlobal>(rt: &R, reply: Reply) -> Vec<u8> {
    let text = try_text(rt, &reply);
    reply.close();
    text
}
