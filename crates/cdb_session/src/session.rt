//! A session: what its lines have led to.

ghost use Rattle.std.specs.Prelude.{◌≡◌, ◌-◌, ◌<◌, ◌^◌, ◌++◌, length, true, IfOk, OnOk};
ghost use Rattle.cdb_commands.specs.ReplyView.{is_refused, reply_view};
ghost use Rattle.cdb_text.specs.Pushes.{Pushes};
ghost use Rattle.cdb_text.specs.Texts.{text_of};
ghost use Rattle.cdb_session.specs.Dialogues.{full_text, own_response, prompt_after};
ghost use Rattle.cdb_control.specs.Journal.{entry};
ghost use Rattle.cdb_session.specs.Exchanges.{Effect};
ghost use Rattle.cdb_session.specs.Lines.{GivesOnce, IsAround, PutsOut, Shows, seen_by};
ghost use Rattle.cdb_session.specs.News.{HasNews};
ghost use Rattle.cdb_session.specs.Parts.{seat_next};
ghost use Rattle.cdb_session.specs.Replies.{first_place};
ghost use Rattle.cdb_session.specs.Styles.{MakesNone, MaySit, Onward};
ghost use Rattle.cdb_setup.specs.Parts.{IsWithin};

use crate::caller::{Caller, News};
use crate::help::{push_about, push_help};
use crate::request::Request;
use crate::response::{push_faulty, push_no_command, push_seat, push_too_long, push_watch};
use crate::shown::{Shown, answered};
use crate::style::Style;
use crate::topic::Topic;
use cdb_base::NoMemory;
use cdb_control::{CallFault, Command, Reply};
use cdb_text::reply_text;
use std::alloc::{AllocError, Global};

/// Where a session is between two lines: the seat of the next one, how many lines there were, and from which entry of
/// the journal on those of others are still to be shown, if somebody watches.
#[derive(Clone, Copy)]
pub struct Place {
    pub seat: u8,
    pub lines: u64,
    pub watched: Option<usize>,
}

/// A session between two lines: who carries its commands out, and where it is.
#[derive(Drop)]
pub struct Session<C> {
    pub caller: C,
    pub place: Place,
}

impl<C: Caller> Session<C> {
    /// A session before its first line.
    pub fn new(caller: C, style: &Style<'_>) -> Self
        ensures { result ≡ record { caller = caller; place = first_place style.now } }
    {
        let place = Place {
            seat: style.first,
            lines: 0,
            watched: None,
        };
        Session { caller, place }
    }

    /// Does what a line asks for, and returns what is put out then: the news of others where somebody watches, the
    /// response, and the prompt unless the line was `quit`. After an error the session is not to go on.
    #[tactic(auto, using(crate::proofs::CallChain::calls_in_order))]
    pub(crate) fn show<'a>(
        &mut self,
        alloc: Global,
        style: &Style<'_>,
        request: &Request<'a>,
    ) -> Result<Shown<'a>, NoMemory>
        requires sits { MaySit style.now (C.seats self.old.caller) self.old.place.seat }
        requires lines { self.old.place.lines < 2 ^ 64 - 1 }
        ensures shows { Shows C.answers style.now result (seen_by C.part self.old)
            request.now (seen_by C.part self.new) }
        ensures seat { OnOk result
            (self.new.place.seat ≡ seat_next style.now.chooses self.old.place.seat request.now) }
        ensures seats { C.seats self.new.caller ≡ C.seats self.old.caller }
        ensures later { Onward C.later self.old.caller self.new.caller }
    {
        let place = self.place;
        let News { text: news, seen } = look(alloc, &mut self.caller, place.watched, request)?;
        let response = respond(alloc, &mut self.caller, style, place, request)?;
        let shown = with_news(alloc, news.as_slice(), response, style, request)?;
        self.place = Place {
            seat: request.seat_next(style.chooses, place.seat),
            lines: place.lines + 1,
            watched: request.watches(place.watched.is_some()).then_some(seen),
        };
        Ok(shown)
    }
}

/// Gives a command once, and adds the text of the reply. Returns whether it was refused, or the journal is full.
#[tactic(auto, using(crate::proofs::GotReplies::none_called))]
fn call<C: Caller>(
    alloc: Global,
    caller: &mut C,
    seat: u8,
    command: Command,
    text: &mut Vec<u8>,
) -> Result<bool, NoMemory>
    requires { IsWithin (C.seats caller.old).lowest (C.seats caller.old).highest seat }
    ensures gives { GivesOnce result (C.part caller.old) (entry seat command) text.old.items
        text.new.items (C.part caller.new) }
    ensures seats { C.seats caller.new ≡ C.seats caller.old }
    ensures later { C.later caller.old caller.new }
{
    match caller.call(alloc, seat, command) {
        Ok(reply) => push_reply(alloc, text, reply),
        Err(CallFault::JournalFull) => push_full(text),
        Err(CallFault::NoMemory(refused)) => Err(refused),
    }
}

/// Gives a command `times` times, or until it is refused, and returns the texts of the replies.
#[tactic(auto, using(crate::proofs::CallChain::calls_in_order))]
fn call_times<'a, C: Caller>(
    alloc: Global,
    caller: &mut C,
    style: &Style<'_>,
    place: Place,
    command: &Command,
    times: u32,
) -> Result<Shown<'a>, NoMemory>
    requires { MaySit style.now (C.seats caller.old) place.seat }
    ensures responds { (effect : Effect) → PutsOut C.answers style.now effect result place
        (C.part caller.old) (Request.Call command.now times) (C.part caller.new) }
    ensures seats { C.seats caller.new ≡ C.seats caller.old }
    ensures later { Onward C.later caller.old caller.new }
{
    let mut text = Vec::new(alloc);
    for _ in 0..times {
        if call(alloc, caller, place.seat, *command, &mut text)? {
            return Ok(Shown::of(alloc, text));
        }
    }
    Ok(Shown::of(alloc, text))
}

/// Does what a line asks for, and returns what is put out then. After an error the session is not to go on.
#[tactic(auto, using(crate::proofs::CallChain::calls_in_order, crate::proofs::LineResponse::nothing_begun))]
fn respond<'a, C: Caller>(
    alloc: Global,
    caller: &mut C,
    style: &Style<'_>,
    place: Place,
    request: &Request<'a>,
) -> Result<Shown<'a>, NoMemory>
    requires sits { MaySit style.now (C.seats caller.old) place.seat }
    requires lines { place.lines < 2 ^ 64 - 1 }
    ensures responds { (effect : Effect) → PutsOut C.answers style.now effect result place
        (C.part caller.old) request.now (C.part caller.new) }
    ensures seats { C.seats caller.new ≡ C.seats caller.old }
    ensures later { Onward C.later caller.old caller.new }
{
    match request {
        Request::Call(command, times) => call_times(alloc, caller, style, place, command, *times),
        Request::Ask(inquiry) => {
            let answer = caller.ask(alloc, inquiry)?;
            answered(alloc, place.lines + 1, inquiry, answer)
        }
        _ => {
            let mut text = String::new(alloc);
            push_response(alloc, &mut text, style, place.lines + 1, request)?;
            Ok(Shown::of(alloc, text.into_bytes()))
        }
    }
}

/// Looks at the journal where somebody watches before the line or after it.
#[tactic(auto, using(crate::proofs::CallChain::calls_in_order))]
fn look<C: Caller>(
    alloc: Global,
    caller: &mut C,
    watched: Option<usize>,
    request: &Request<'_>,
) -> Result<News, NoMemory>
    ensures none { MakesNone (C.part caller.old) (C.part caller.new) }
    ensures news { IfOk result (λ news. HasNews (C.part caller.new) (length (C.part caller.new).calls)
        (C.part caller.new).entries watched request.now news.seen news.text.items) }
    ensures seats { C.seats caller.new ≡ C.seats caller.old }
    ensures later { Onward C.later caller.old caller.new }
{
    let before = watched.is_some();
    if before || request.watches(before) {
        caller.look(alloc, watched)
    } else {
        Ok(News::none(alloc, 0))
    }
}

/// Adds that the journal has no room, and returns that no command is to follow.
fn push_full(text: &mut Vec<u8>) -> Result<bool, NoMemory>
    ensures { IfOk result (λ last. (last ≡ true) × (text.new.items ≡ text.old.items ++ full_text)) }
{
    text.extend_from_slice(b"journal full\n")?;
    Ok(true)
}

/// Adds the text of a reply, which is given up. Returns whether it is a refusal.
fn push_reply(alloc: Global, text: &mut Vec<u8>, reply: Reply) -> Result<bool, NoMemory>
    ensures { IfOk result (λ last. (last ≡ is_refused (reply_view reply))
        × (text.new.items ≡ text.old.items ++ text_of (reply_view reply))) }
{
    let refused = matches!(reply, Reply::Refused(_));
    let added = reply_text(alloc, &reply);
    reply.close();
    text.extend_from_slice(added?.as_slice())?;
    Ok(refused)
}

/// The response to a line of this number that asks for no command and nothing of the run.
fn push_response(
    alloc: Global,
    text: &mut String,
    style: &Style<'_>,
    line: u64,
    request: &Request<'_>,
) -> Result<(), AllocError>
    ensures { Pushes result text.old text.new (own_response style.now.chooses line request.now) }
{
    match request {
        Request::Seat(seat) if style.chooses => push_seat(text, *seat),
        Request::Seat(_) => push_no_command(text, line, Topic::Seat.word()),
        Request::Help(about) => match *about {
            None => push_help(text, style.chooses),
            Some(topic) => push_about(alloc, text, style.chooses, line, topic),
        },
        Request::Quit | Request::Call(_, _) | Request::Ask(_) => Ok(()),
        Request::Watch(begins) => push_watch(text, *begins),
        Request::Fault(faulty) => push_faulty(alloc, text, line, style.chooses, faulty),
        Request::TooLong => push_too_long(text, line),
    }
}

/// Adds the prompt, which stands before each further line, and nothing after `quit`.
fn push_prompt(
    text: &mut Vec<u8>,
    style: &Style<'_>,
    request: &Request<'_>,
) -> Result<(), AllocError>
    ensures { OnOk result
        (text.new.items ≡ text.old.items ++ prompt_after style.now.prompt request.now) }
{
    match request {
        Request::Quit => Ok(()),
        _ => {
            text.extend_from_slice(style.number)?;
            text.extend_from_slice(style.prompt)
        }
    }
}

/// A text with the news before it, and behind it the prompt.
fn between(
    alloc: Global,
    news: &[u8],
    text: &[u8],
    style: &Style<'_>,
    request: &Request<'_>,
) -> Result<Vec<u8>, AllocError>
    ensures { IfOk result (λ all. all.items
        ≡ (news.now ++ text.now) ++ prompt_after style.now.prompt request.now) }
{
    let mut all = news.to_vec(alloc)?;
    all.extend_from_slice(text)?;
    push_prompt(&mut all, style, request)?;
    Ok(all)
}

/// A response with the news before it, and behind it the prompt.
fn with_news<'a>(
    alloc: Global,
    news: &[u8],
    response: Shown<'a>,
    style: &Style<'_>,
    request: &Request<'_>,
) -> Result<Shown<'a>, AllocError>
    ensures { IfOk result
        (λ all. IsAround response.entry all news.now (prompt_after style.now.prompt request.now)) }
{
    Ok(Shown {
        text: between(alloc, news, response.text.as_slice(), style, request)?,
        failed: between(alloc, news, response.failed.as_slice(), style, request)?,
        file: response.file,
    })
}
