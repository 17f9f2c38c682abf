//! What is due in a line.

ghost use Rattle.std.specs.Prelude.{◌≡◌, ◌∷◌, map, IfOk};
ghost use Rattle.std.specs.List.{list_any};
ghost use Rattle.std.specs.Str.{bytes_eq};
ghost use Rattle.cdb_text.specs.Grammar.{words_of};
ghost use Rattle.cdb_text.specs.Pushes.{Pushes};
ghost use Rattle.cdb_session.specs.Due.{due_text, names, words_at, may_stand};
ghost use Rattle.cdb_session.specs.Due.{behind, dues_of};
ghost use Rattle.cdb_session.specs.Due.{ends, stands, first_amiss, amiss_in, shown_byte, shown_word, amiss_text};

use self::Due::*;
use crate::inquiry::is_file_name;
use crate::topic::{FIRST, Topic};
use crate::typed::{ACTS, LOST, STOPS, VIEWS};
use cdb_text::number_of;
use std::alloc::{AllocError, Global};

/// What is due at a place of a line.
#[derive(Clone, Copy)]
pub enum Due {
    Command,
    Process,
    /// A process, or `lost`.
    ProcessOrLost,
    /// A process, or what may be shown besides.
    ProcessOrView,
    /// What a process may be told to do.
    Act,
    /// Where a run may be made to stop.
    Stop,
    Message,
    Step,
    Round,
    Breakpoint,
    Register,
    Seat,
    /// How often.
    Count,
    /// The name of a file.
    File,
    /// The line is to end.
    Nothing,
}

/// The registers.
const REGISTERS: [&[u8]; 10] = [
    b"r1", b"r2", b"r3", b"r4", b"r5", b"r6", b"r7", b"r8", b"r9", b"dec",
];

/// The seats that a line may choose.
const SEATS: [&[u8]; 9] = [b"1", b"2", b"3", b"4", b"5", b"6", b"7", b"8", b"9"];

/// How many bytes of a word are shown.
const SHOWN: usize = 20;

impl Due {
    /// How it is named.
    fn text(self) -> &'static str
        ensures { result.now ≡ due_text self }
    {
        match self {
            Due::Command => "a command",
            Due::Process => "a process",
            Due::ProcessOrLost => "a process or lost",
            Due::ProcessOrView => "a process, regs, mail or history",
            Due::Act => "go, learn, crash, query or recv",
            Due::Stop => "decide, round, recv or write",
            Due::Message => "a message",
            Due::Step => "a step",
            Due::Round => "a round",
            Due::Breakpoint => "a breakpoint",
            Due::Register => "r1 to r9 or dec",
            Due::Seat => "a seat from 1 to 9",
            Due::Count => "a count",
            Due::File => "a file",
            Due::Nothing => "nothing more",
        }
    }

    /// Whether the word is a number where one may stand, or the name of a file.
    fn names(self, word: &[u8]) -> bool
        ensures { result ≡ names self word.now }
    {
        match self {
            Due::Command | Due::Act | Due::Stop | Due::Register | Due::Seat | Due::Nothing => false,
            Due::File => is_file_name(word),
            _ => number_of(word).is_some(),
        }
    }

    /// The words that may stand there, besides numbers and names.
    fn words(self) -> &'static [&'static [u8]]
        ensures { map (λ it. it.now) result.now ≡ words_at self }
    {
        match self {
            Due::Command => &FIRST,
            Due::ProcessOrLost => &LOST,
            Due::ProcessOrView => &VIEWS,
            Due::Act => &ACTS,
            Due::Stop => &STOPS,
            Due::Register => &REGISTERS,
            Due::Seat => &SEATS,
            _ => &[],
        }
    }

    /// Whether this is one of those words.
    fn has(self, word: &[u8]) -> bool
        ensures { result ≡ list_any (bytes_eq word.now) (words_at self) }
    {
        self.words().iter().any(|its| word == *its)
    }

    /// Whether the word may stand there, `seat` only where a line may choose one.
    fn allows(self, chooses: bool, word: &[u8]) -> bool
        ensures { result ≡ may_stand chooses self word.now }
    {
        self.names(word) || (self.has(word) && (chooses || word != b"seat".as_slice()))
    }
}

/// What is due in a line that begins with `step`, where these are its other words.
fn act(words: &[&[u8]]) -> &'static [Due]
    ensures { result.now ≡ Due.Command ∷ behind Topic.Step (map (λ it. it.now) words.now) }
{
    let [_, act, others @ ..] = words else {
        return &[Command, Process, Act];
    };
    if *act == b"recv".as_slice() {
        return &[Command, Process, Act, Process, Message];
    }
    if *act == b"query".as_slice() && !others.is_empty() {
        return &[Command, Process, Act, Process];
    }
    &[Command, Process, Act]
}

/// What is due in a line that begins so, where these are its other words.
fn line_of(first: Topic, words: &[&[u8]]) -> &'static [Due]
    ensures { result.now ≡ Due.Command ∷ behind first (map (λ it. it.now) words.now) }
{
    match first {
        Topic::Step => act(words),
        Topic::Auto => match words {
            [] | [_] => &[Command, Process],
            _ => &[Command, Process, Count],
        },
        Topic::Lose => &[Command, Process, Message, Process],
        Topic::Undo | Topic::Rollback | Topic::Why => match words {
            [] => &[Command, ProcessOrLost],
            [first, ..] if *first == b"lost".as_slice() => {
                &[Command, ProcessOrLost, Process, Message, Process]
            }
            _ => &[Command, ProcessOrLost, Step],
        },
        Topic::Break => match words {
            [] => &[Command, Stop],
            [stop, ..] if *stop == b"round".as_slice() => &[Command, Stop, Process, Round],
            [stop, ..] if *stop == b"write".as_slice() => &[Command, Stop, Register],
            _ => &[Command, Stop, Process],
        },
        Topic::Unbreak => &[Command, Breakpoint],
        Topic::Show => &[Command, ProcessOrView],
        Topic::Explain | Topic::Trail => match words {
            [] | [_] => &[Command, Process],
            _ => &[Command, Process, Step],
        },
        Topic::Draw => match words {
            [] | [_] => &[Command, File],
            [_, _] => &[Command, File, Process],
            _ => &[Command, File, Process, Step],
        },
        Topic::Help if !words.is_empty() => &[Command, Command],
        Topic::Seat => &[Command, Seat],
        _ => &[Command],
    }
}

/// What is due in a line of these words, at one place after the other.
fn dues_of(words: &[&[u8]]) -> &'static [Due]
    ensures { result.now ≡ dues_of (map (λ it. it.now) words.now) }
{
    let [word, others @ ..] = words else {
        return &[Command];
    };
    match Topic::of(word) {
        Some(first) => line_of(first, others),
        None => &[Command],
    }
}

/// A byte of a word as it is shown.
fn shown_byte(byte: u8) -> char
    ensures { result ≡ shown_byte byte }
{
    if byte.is_ascii_graphic() {
        char::from(byte)
    } else {
        '?'
    }
}

/// Adds a word as it is shown.
fn push_shown(text: &mut String, word: &[u8]) -> Result<(), AllocError>
    ensures { Pushes result text.old text.new (shown_word word.now) }
{
    let shown = &word[..word.len().min(SHOWN)];
    for byte in shown {
        text.push(shown_byte(*byte))?;
    }
    Ok(())
}

/// Adds that the line ends where this is due.
fn push_end(text: &mut String, due: Due) -> Result<(), AllocError>
    ensures { Pushes result text.old text.new (amiss_text (ends due)) }
{
    let what = due.text();
    write!(text, ": {what} is due")
}

/// Adds that a word stands where this is due.
pub(crate) fn push_word(text: &mut String, due: Due, word: &[u8]) -> Result<(), AllocError>
    ensures { Pushes result text.old text.new (amiss_text (stands due word.now)) }
{
    let what = due.text();
    write!(text, ": {what} is due, not '")?;
    push_shown(text, word)?;
    text.push('\'')
}

/// Adds what is amiss first where this is due and these words stand.
fn push_first(
    text: &mut String,
    chooses: bool,
    dues: &[Due],
    words: &[&[u8]],
) -> Result<(), AllocError>
    ensures { Pushes result text.old text.new
        (amiss_text (first_amiss chooses dues.now (map (λ it. it.now) words.now))) }
{
    let mut left = words;
    for due in dues {
        let [word, others @ ..] = left else {
            return push_end(text, *due);
        };
        if !due.allows(chooses, word) {
            return push_word(text, *due, word);
        }
        left = others;
    }
    match left {
        [word, ..] => push_word(text, Due::Nothing, word),
        [] => Ok(()),
    }
}

/// The words of a line that stands for itself.
fn words_of(alloc: Global, line: &[u8]) -> Result<Vec<&[u8]>, AllocError>
    ensures { IfOk result (λ words. map (λ it. it.now) words.items ≡ words_of line.now) }
{
    line.split(|byte| *byte == b' ').collect(alloc)
}

/// Adds what is amiss in a line: `: WHAT is due, not 'WORD'`, or `: WHAT is due` where it ends.
pub(crate) fn push_amiss(
    alloc: Global,
    text: &mut String,
    chooses: bool,
    line: &[u8],
) -> Result<(), AllocError>
    ensures { Pushes result text.old text.new (amiss_text (amiss_in chooses line.now)) }
{
    let words = words_of(alloc, line)?;
    push_first(text, chooses, dues_of(words.as_slice()), words.as_slice())
}
