//! What a session says of its lines.

ghost use Rattle.std.specs.Prelude.{◌≡◌, IfOk, map};
ghost use Rattle.std.specs.Str.Lines.{lines};
ghost use Rattle.cdb_session.specs.Dialogues.{first_word, help_text, line_about, lines_about};
ghost use Rattle.cdb_session.specs.Dialogues.{or_word_fault, seats_help};
ghost use Rattle.cdb_text.specs.Pushes.{Pushes};

use crate::response::push_no_command;
use crate::topic::Topic;
use cdb_commands::COMMANDS;
use std::alloc::{AllocError, Global};

/// What stands between the commands of a script and the other lines.
pub const BESIDES: &str = "\nLines of a session besides:\n";

/// The line that chooses a seat, where one does.
pub const SEATS: &str = "  seat 1 .. seat 9      makes the lines after it those of that seat\n";

/// The other lines that a session takes.
pub const OTHERS: &str = "  auto P N              does auto P N times, until it is refused
  explain P [K]         prints what led to step K of P, or to its last step
  trail P [K]           prints how a value came to that step
  draw FILE [P [K]]     draws the run, or what led to that step, in a new file
  watch                 shows from now on what other seats do, before each response
  unwatch               shows it no longer
  help                  lists the commands
  help WORD             lists the lines that begin with WORD
  quit                  ends the session
";

fn push_seats(text: &mut String, seats: bool) -> Result<(), AllocError>
    ensures { Pushes result text.old text.new (seats_help seats) }
{
    if seats {
        return text.push_str(SEATS);
    }
    Ok(())
}

/// The first word of a line of the help, which stands behind two spaces.
#[tactic(auto, using(std::proofs::lemmas::List::take_rest))]
fn first_word(line: &[u8]) -> &[u8]
    ensures { result.now ≡ first_word line.now }
{
    let [_, _, rest @ ..] = line else {
        return &[];
    };
    let (word, _) = cdb_text::first_word(rest);
    word
}

/// The lines of a text.
fn lines_of(alloc: Global, text: &str) -> Result<Vec<&str>, AllocError>
    ensures { IfOk result (λ all. map (λ line. line.now) all.items ≡ lines text.now) }
{
    text.lines().collect(alloc)
}

/// Adds a line of the help if it is about a word.
fn push_if_about(text: &mut String, line: &str, topic: Topic) -> Result<(), AllocError>
    ensures { Pushes result text.old text.new (line_about topic line.now) }
{
    if first_word(line.as_bytes()) == topic.word() {
        return writeln!(text, "{line}");
    }
    Ok(())
}

/// Adds the lines of a help that are about a word.
fn push_lines_about(
    alloc: Global,
    text: &mut String,
    help: &str,
    topic: Topic,
) -> Result<(), AllocError>
    ensures { Pushes result text.old text.new (lines_about topic help.now) }
{
    let lines = lines_of(alloc, help)?;
    for line in lines.as_slice() {
        push_if_about(text, line, topic)?;
    }
    Ok(())
}

/// Adds what the help says about a word, or a fault of the line of this number where it says nothing.
fn push_or_fault(text: &mut String, line: u64, topic: Topic, about: &str) -> Result<(), AllocError>
    ensures { Pushes result text.old text.new (or_word_fault line topic about.now) }
{
    if about.is_empty() {
        return push_no_command(text, line, topic.word());
    }
    text.push_str(about)
}

/// Adds the response to a line of this number that asks for the help about a word.
pub(crate) fn push_about(
    alloc: Global,
    text: &mut String,
    seats: bool,
    line: u64,
    topic: Topic,
) -> Result<(), AllocError>
    ensures { Pushes result text.old text.new
        (or_word_fault line topic (lines_about topic (help_text seats))) }
{
    let (mut help, mut about) = (String::new(alloc), String::new(alloc));
    push_help(&mut help, seats)?;
    push_lines_about(alloc, &mut about, help.as_str(), topic)?;
    push_or_fault(text, line, topic, about.as_str())
}

/// Adds what `help` lists, with the line that chooses a seat or without it. Only out of memory is an error.
pub(crate) fn push_help(text: &mut String, seats: bool) -> Result<(), AllocError>
    ensures { Pushes result text.old text.new (help_text seats) }
{
    text.push_str(COMMANDS)?;
    text.push_str(BESIDES)?;
    push_seats(text, seats)?;
    text.push_str(OTHERS)
}
