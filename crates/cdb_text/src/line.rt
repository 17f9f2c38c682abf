//! Lines of a script.

ghost use Rattle.std.specs.Prelude.{◌≡◌, ◌↔◌, Ok, Err, IfSome};
ghost use Rattle.cdb_commands.specs.declared.command.Command.{Command as CommandName};
ghost use Rattle.cdb_text.specs.declared.fault.LineFault.{LineFault as LineFaultName};
ghost use Rattle.cdb_text.specs.Grammar.{IsLineOf, words_of};
ghost use Rattle.cdb_text.specs.Faults.{IsFaultOf};
ghost use Rattle.cdb_text.specs.Lines.{after_step, after_break, after_show, after_verb, whole_line};
ghost use Rattle.cdb_text.specs.Readers.{read_by};

use crate::fault::LineFault;
use crate::verb::Verb;
use crate::words::{Words, is, number_of};
use cdb_base::Act;
use cdb_commands::{Command, Stop, View};

/// The words after `step`.
#[tactic(auto, unfolding(crate::specs::Lines::after_step))]
fn step(mut words: Words<'_>) -> Result<Command, LineFault>
    ensures { result ≡ read_by after_step words.entry }
{
    let p = words.number()?;
    match words.word()? {
        word if is(word, b"go") => words.end(Command::Step(p, Act::Go)),
        word if is(word, b"learn") => words.end(Command::Step(p, Act::Learn)),
        word if is(word, b"crash") => words.end(Command::Step(p, Act::Crash)),
        word if is(word, b"query") => {
            if words.is_empty() {
                return Ok(Command::Step(p, Act::Query(None)));
            }
            let answer = words.number()?;
            words.end(Command::Step(p, Act::Query(Some(answer))))
        }
        word if is(word, b"recv") => {
            let sender = words.number()?;
            let number = words.number()?;
            words.end(Command::Step(p, Act::Recv(sender, number)))
        }
        _ => Err(LineFault::Word),
    }
}

/// The words after `break`.
#[tactic(auto, unfolding(crate::specs::Lines::after_break))]
fn break_at(mut words: Words<'_>) -> Result<Command, LineFault>
    ensures { result ≡ read_by after_break words.entry }
{
    match words.word()? {
        word if is(word, b"decide") => {
            let p = words.number()?;
            words.end(Command::Break(Stop::Decide(p)))
        }
        word if is(word, b"round") => {
            let p = words.number()?;
            let round = words.number()?;
            words.end(Command::Break(Stop::Round(p, round)))
        }
        word if is(word, b"recv") => {
            let p = words.number()?;
            words.end(Command::Break(Stop::Recv(p)))
        }
        word if is(word, b"write") => {
            let register = words.register()?;
            words.end(Command::Break(Stop::Write(register)))
        }
        _ => Err(LineFault::Word),
    }
}

/// The words after `show`.
#[tactic(auto, unfolding(crate::specs::Lines::after_show))]
fn show(mut words: Words<'_>) -> Result<Command, LineFault>
    ensures { result ≡ read_by after_show words.entry }
{
    let word = words.word()?;
    match word {
        word if is(word, b"regs") => words.end(Command::Show(View::Regs)),
        word if is(word, b"mail") => words.end(Command::Show(View::Mail)),
        word if is(word, b"history") => words.end(Command::Show(View::History)),
        _ => match number_of(word) {
            Some(p) => words.end(Command::Show(View::Proc(p))),
            None => Err(LineFault::Word),
        },
    }
}

/// The words after `undo`, `rollback` or `why`.
#[tactic(auto, unfolding(crate::specs::Lines::after_verb))]
fn event(verb: Verb, mut words: Words<'_>) -> Result<Command, LineFault>
    ensures { result ≡ read_by (after_verb verb) words.entry }
{
    let word = words.word()?;
    match word {
        word if is(word, b"lost") => {
            let sender = words.number()?;
            let number = words.number()?;
            let p = words.number()?;
            words.end(verb.on_loss(sender, number, p))
        }
        _ => match number_of(word) {
            Some(p) => {
                let k = words.number()?;
                words.end(verb.on_step(p, k))
            }
            None => Err(LineFault::Number),
        },
    }
}

/// The command of a line of words.
#[inline(never)]
#[tactic(auto, unfolding(crate::specs::Lines::whole_line))]
pub(crate) fn command(mut words: Words<'_>) -> Result<Command, LineFault>
    ensures { result ≡ read_by whole_line words.entry }
{
    match words.word()? {
        // Those that long scripts have most.
        word if is(word, b"undo") => event(Verb::Undo, words),
        word if is(word, b"redo") => words.end(Command::Redo),
        word if is(word, b"why") => event(Verb::Why, words),
        word if is(word, b"lose") => {
            let sender = words.number()?;
            let number = words.number()?;
            let p = words.number()?;
            words.end(Command::Lose(sender, number, p))
        }
        word if is(word, b"step") => step(words),
        word if is(word, b"auto") => {
            let p = words.number()?;
            words.end(Command::Auto(p))
        }
        word if is(word, b"forget") => words.end(Command::Forget),
        word if is(word, b"rollback") => event(Verb::Rollback, words),
        word if is(word, b"break") => break_at(words),
        word if is(word, b"unbreak") => {
            let number = words.number()?;
            words.end(Command::Unbreak(number))
        }
        word if is(word, b"resume") => words.end(Command::Resume),
        word if is(word, b"show") => show(words),
        word if is(word, b"decisions") => words.end(Command::Decisions),
        _ => Err(LineFault::Word),
    }
}

/// The process of a line `auto P`, where its number has one digit.
#[inline(always)]
fn short_auto(line: &[u8]) -> Option<u32>
    ensures { IfSome result (λ p. read_by whole_line (words_of line.now) ≡ Ok (Command.Auto p)) }
{
    match line {
        [b'a', b'u', b't', b'o', b' ', digit] if b'1' <= *digit && *digit <= b'9' => {
            Some(u32::from(*digit - b'0'))
        }
        _ => None,
    }
}

/// The command of a line of a script, which is given without the byte 10 at its end; else the first
/// fault of the line, read from the left. It allocates nothing.
pub fn parse_line(line: &[u8]) -> Result<Command, LineFault>
    ensures command { (command : CommandName) →
        (result ≡ Ok command) ↔ IsLineOf command line.now }
    ensures fault { (fault : LineFaultName) →
        (result ≡ Err fault) ↔ IsFaultOf fault line.now }
{
    if line.is_empty() {
        return Err(LineFault::Empty);
    }
    // Most lines of a long script are of this kind.
    if let Some(p) = short_auto(line) {
        return Ok(Command::Auto(p));
    }
    command(Words::of(line))
}
