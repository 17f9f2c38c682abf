//! The text of a race.

ghost use Rattle.std.specs.Prelude.{◌≡◌, ◌+◌, ◌≤◌, length, map, IfOk, string_bytes};
ghost use Rattle.std.specs.List.{flat_map};
ghost use Rattle.cdb_base.specs.Limits.{MAX_SEATS};
ghost use Rattle.cdb_commands.specs.ReplyView.{reply_view};
ghost use Rattle.cdb_race.specs.Races.{all_reply_views};
ghost use Rattle.cdb_text.specs.Pushes.{Pushes};
ghost use Rattle.cdb_text.specs.Texts.{text_of};
ghost use Rattle.cdb_play.specs.Races.{seat_text, seats_text, end_text, verdict_text, have_one_value, text_with};

use cdb_base::{NoMemory, Proc, Val};
use cdb_control::{Control, Reply, Runs};
use cdb_text::{push_number, push_reply};
use std::alloc::{AllocError, Global};

/// Adds the texts of the replies, one after the other, at the end of a text.
fn push_replies(text: &mut String, replies: &[Reply]) -> Result<(), AllocError>
    ensures { Pushes result text.old text.new (flat_map text_of (map reply_view replies.now)) }
{
    for reply in replies {
        push_reply(text, reply)?;
    }
    Ok(())
}

/// Adds the line with the number of a seat, and the texts of its replies.
fn push_seat(text: &mut String, seat: u32, replies: &[Reply]) -> Result<(), AllocError>
    ensures { Pushes result text.old text.new (seat_text seat (map reply_view replies.now)) }
{
    text.push_str("seat ")?;
    push_number(text, seat)?;
    text.push('\n')?;
    push_replies(text, replies)
}

/// Adds seats, numbered from this one, each with its replies.
fn push_seats(text: &mut String, seat: u32, seats: &[Vec<Reply>]) -> Result<(), AllocError>
    requires { seat + length seats.now ≤ 65 }
    ensures { Pushes result text.old text.new (seats_text seat (all_reply_views seats.now)) }
{
    match seats {
        [replies, others @ ..] => {
            push_seat(text, seat, replies.as_slice())?;
            push_seats(text, seat + 1, others)
        }
        [] => Ok(()),
    }
}

/// Tells whether all decisions have one value, or there are none.
fn have_one_value(decisions: &[(Proc, Val)]) -> bool
    ensures { result ≡ have_one_value decisions.now }
{
    match decisions.split_first() {
        Some((first, others)) => others.iter().all(|other| other.1 == first.1),
        None => true,
    }
}

/// The line that says whether the decisions agree.
fn verdict(decisions: &[(Proc, Val)]) -> &'static str
    ensures { result.now ≡ verdict_text decisions.now }
{
    if have_one_value(decisions) {
        "decisions agree\n"
    } else {
        "decisions differ\n"
    }
}

/// Adds the decisions, and whether they agree.
fn push_end(text: &mut String, decisions: Vec<(Proc, Val)>) -> Result<(), AllocError>
    ensures { Pushes result text.old text.new (end_text decisions.items) }
{
    let verdict = verdict(decisions.as_slice());
    let reply = Reply::Decisions(decisions);
    let pushed = push_reply(text, &reply);
    reply.close();
    pushed?;
    text.push_str(verdict)
}

/// The seats of the scripts with these replies, and then the decisions of the last state.
pub(super) fn text_with<T: Runs>(
    alloc: Global,
    control: &Control<T>,
    replies: &[Vec<Reply>],
) -> Result<String, NoMemory>
    requires { control.now.setup.processes + length replies.now ≤ MAX_SEATS }
    ensures { IfOk result (λ text.
        string_bytes text ≡ text_with T.rules control.now (all_reply_views replies.now)) }
{
    let run = control.run();
    let mut text = String::new(alloc);
    push_seats(&mut text, u32::from(run.processes()) + 1, replies)?;
    push_end(&mut text, run.decisions(alloc)?)?;
    Ok(text)
}
