//! What a line of a session asks for.

ghost use Rattle.std.specs.Prelude.{◌≡◌, ◌↔◌, option_map, IsTrue};
ghost use Rattle.cdb_text.specs.Grammar.{words_of};
ghost use Rattle.cdb_text.specs.Words.{words_left};
ghost use Rattle.cdb_session.specs.declared.request.Request.{Request as RequestName};
ghost use Rattle.cdb_session.specs.Requests.{AsksFor};
ghost use Rattle.cdb_session.specs.RequestWords.{alone, help_in, only_in, own_in, seat_named};
ghost use Rattle.cdb_session.specs.News.{watches};
ghost use Rattle.cdb_session.specs.Parts.{seat_next};

use crate::inquiry::{Inquiry, drawing_of, step_of};
use crate::topic::Topic;
use cdb_base::limits::MAX_BYTES;
use cdb_control::Command;
use cdb_text::{LineFault, first_word, number_of, parse_line};
use std::marker::Model;

/// A line that is no command, and its first fault.
#[derive(Drop)]
pub struct FaultyLine<'a> {
    pub line: &'a [u8],
    pub fault: LineFault,
}

impl<'a> Model for FaultyLine<'a> {
    ghost use Rattle.cdb_session.specs.FaultyLines.{FaultyLineView};

    ghost Value = { FaultyLineView };

    ghost view = { λ it. record { line = it.line.now; fault = it.fault } };
}

/// What a line asks for.
#[derive(Drop)]
pub enum Request<'a> {
    /// The command, by the seat that the session is at, this many times, from 1 to 999,999, or until it is refused.
    Call(Command, u32),
    /// The answer to this, of the run as it stands.
    Ask(Inquiry<'a>),
    /// What others do is shown from now on, or no longer.
    Watch(bool),
    /// The lines that follow are this seat's, from 1 to 9.
    Seat(u8),
    /// The help, or what it says about a word.
    Help(Option<Topic>),
    Quit,
    /// Nothing: it is no command.
    Fault(FaultyLine<'a>),
    /// The line has more than 1,048,576 bytes.
    TooLong,
}

impl Request<'_> {
    /// Whether the session is to end.
    pub(crate) fn is_quit(&self) -> bool
        ensures { IsTrue result ↔ (self.now ≡ Request.Quit) }
    {
        matches!(self, Request::Quit)
    }

    /// Whether somebody watches after the line, where somebody did before it or nobody.
    pub(crate) fn watches(&self, before: bool) -> bool
        ensures { result ≡ watches before self.now }
    {
        match self {
            Request::Watch(begins) => *begins,
            _ => before,
        }
    }

    /// The seat of the next line, where this one is of a seat and may choose another or may not.
    pub(crate) fn seat_next(&self, chooses: bool, seat: u8) -> u8
        ensures { result ≡ seat_next chooses seat self.now }
    {
        match self {
            Request::Seat(chosen) if chooses => *chosen,
            _ => seat,
        }
    }
}

/// The greatest seat that a line chooses.
const MOST_SEATS: u32 = 9;

/// The word that is left, where it is the only one.
#[tactic(auto, using(crate::proofs::OneRequest::first_of))]
fn only_word(words: Option<&[u8]>) -> Option<&[u8]>
    ensures { option_map (λ it. it.now) result ≡ only_in (words_left words.entry) }
{
    match first_word(words?) {
        (word, None) => Some(word),
        (_, Some(_)) => None,
    }
}

/// The seat that a word names.
fn seat_of(word: &[u8]) -> Option<u8>
    ensures { result ≡ seat_named word.now }
{
    let seat = number_of(word)?;
    if seat > MOST_SEATS {
        return None;
    }
    Some(seat as u8)
}

/// What a first word asks for where no other follows it.
#[tactic(auto, using(crate::proofs::OneRequest::first_of))]
fn alone<'a>(words: Option<&[u8]>, request: Request<'a>) -> Option<Request<'a>>
    ensures { result ≡ alone request.entry (words_left words.entry) }
{
    match words {
        None => Some(request),
        Some(_) => None,
    }
}

/// What the words behind `help` ask for.
#[tactic(auto, using(crate::proofs::OneRequest::first_of))]
fn help_of(words: Option<&[u8]>) -> Option<Request<'_>>
    ensures { result ≡ help_in (words_left words.entry) }
{
    match words {
        None => Some(Request::Help(None)),
        Some(_) => Some(Request::Help(Some(Topic::of(only_word(words)?)?))),
    }
}

/// What a line asks for that a session takes beside commands.
#[tactic(auto, unfolding(crate::specs::RequestWords::own_in))]
fn own_of(line: &[u8]) -> Option<Request<'_>>
    ensures { result ≡ own_in (words_of line.now) }
{
    let (word, words) = first_word(line);
    match Topic::of(word)? {
        Topic::Auto => {
            let step = step_of(words)?;
            Some(Request::Call(Command::Auto(step.p), step.k?))
        }
        Topic::Explain => Some(Request::Ask(Inquiry::Explain(step_of(words)?))),
        Topic::Trail => Some(Request::Ask(Inquiry::Trail(step_of(words)?))),
        Topic::Draw => Some(Request::Ask(drawing_of(words)?)),
        Topic::Watch => alone(words, Request::Watch(true)),
        Topic::Unwatch => alone(words, Request::Watch(false)),
        Topic::Help => help_of(words),
        Topic::Quit => alone(words, Request::Quit),
        Topic::Seat => Some(Request::Seat(seat_of(only_word(words)?)?)),
        _ => None,
    }
}

/// What a line asks for that stands for itself, without the byte 10 at its end. It allocates nothing.
#[tactic(auto, using(crate::proofs::OneRequest::one_request))]
pub fn request_of(line: &[u8]) -> Request<'_>
    ensures asks { AsksFor result line.now }
    ensures only { (other : RequestName) → AsksFor other line.now → other ≡ result }
{
    if line.len() > MAX_BYTES {
        return Request::TooLong;
    }
    if let Some(request) = own_of(line) {
        return request;
    }
    match parse_line(line) {
        Ok(command) => Request::Call(command, 1),
        Err(fault) => Request::Fault(FaultyLine { line, fault }),
    }
}
