//! The words of a line, taken one after the other.

ghost use Rattle.std.specs.Prelude.{◌≡◌, ◌≤◌, ◌∷◌, length, MatchOption};
ghost use Rattle.std.specs.Str.{bytes_eq};
ghost use Rattle.std.specs.Str.Parse.{AllDigits, digits_value};
ghost use Rattle.cdb_base.specs.Results.{MapsTo};
ghost use Rattle.cdb_text.specs.Grammar.{words_of};
ghost use Rattle.cdb_text.specs.Words.{words_left};
ghost use Rattle.cdb_text.specs.Numbers.{number_of};
ghost use Rattle.cdb_text.specs.Readers.{word_at, number_at, register_at, register_named, none_left, ended};

use crate::fault::LineFault;
use cdb_base::{Proc, Reg};
use cdb_commands::Command;
use std::marker::Model;

/// The words of a line that are left. A contract sees them as a list.
#[derive(Drop)]
pub(crate) struct Words<'a> {
    rest: Option<&'a [u8]>,
}

impl<'a> Model for Words<'a> {
    ghost use Rattle.std.specs.Prelude.{ℕ, List};
    ghost use Rattle.cdb_text.specs.Words.{words_left};

    ghost Value = { List (List ℕ) };

    ghost view = { λ words. words_left words.rest };
}

impl<'a> Words<'a> {
    /// The words of a line.
    pub(crate) fn of(line: &'a [u8]) -> Self
        ensures { result ≡ words_of line.now }
    {
        Words { rest: Some(line) }
    }

    /// Whether no word is left.
    pub(crate) fn is_empty(&self) -> bool
        ensures { result ≡ none_left self.now }
    {
        self.rest.is_none()
    }

    /// The next word.
    pub(crate) fn word(&mut self) -> Result<&'a [u8], LineFault>
        ensures { MapsTo (λ word. (word.now, self.new)) result (word_at self.old) }
    {
        let Some(line) = self.rest else {
            return Err(LineFault::Missing);
        };
        let (word, rest) = first_word(line);
        self.rest = rest;
        Ok(word)
    }

    /// The next word, which is a number.
    pub(crate) fn number(&mut self) -> Result<u32, LineFault>
        ensures { MapsTo (λ n. (n, self.new)) result (number_at self.old) }
    {
        let word = self.word()?;
        match number_of(word) {
            Some(number) => Ok(number),
            None => Err(LineFault::Number),
        }
    }

    /// The next word, which is a register.
    pub(crate) fn register(&mut self) -> Result<Reg, LineFault>
        ensures { MapsTo (λ x. (x, self.new)) result (register_at self.old) }
    {
        let word = self.word()?;
        match register_named(word) {
            Some(register) => Ok(register),
            None => Err(LineFault::Word),
        }
    }

    /// The command, where no word is left.
    pub(crate) fn end(self, command: Command) -> Result<Command, LineFault>
        ensures { result ≡ ended command self.entry }
    {
        if self.is_empty() {
            Ok(command)
        } else {
            Err(LineFault::Extra)
        }
    }
}

/// The first word of a line, and what is left after the space that follows it, if there is one.
pub fn first_word(line: &[u8]) -> (&[u8], Option<&[u8]>)
    ensures { words_of line.now ≡ result.0.now ∷ words_left result.1 }
{
    match line.iter().position(|byte| *byte == b' ') {
        Some(end) => (&line[..end], Some(&line[end + 1..])),
        None => (line, None),
    }
}

/// Whether the word is this one.
#[inline(always)]
pub(crate) fn is(word: &[u8], name: &[u8]) -> bool
    ensures { result ≡ bytes_eq word.now name.now }
{
    if word.len() != name.len() {
        return false;
    }
    // (a short loop is unrolled, where the name is a literal)
    for i in 0..name.len() {
        if word[i] != name[i] {
            return false;
        }
    }
    true
}

/// The number that the digits write, if all the bytes are digits.
fn value_of(word: &[u8]) -> Option<u32>
    requires { length word.now ≤ 6 }
    ensures { MatchOption result (¬ AllDigits 10 word.now)
        (λ n. AllDigits 10 word.now × (n ≡ digits_value 10 word.now)) }
{
    let mut value = 0;
    for byte in word {
        if !byte.is_ascii_digit() {
            return None;
        }
        value = value * 10 + u32::from(byte - b'0');
    }
    Some(value)
}

/// The number that the word is, from 1 to 999,999, with no zero in front.
pub fn number_of(word: &[u8]) -> Option<u32>
    ensures { result ≡ number_of word.now }
{
    if word.is_empty() || word.len() > 6 || word[0] == b'0' {
        return None;
    }
    value_of(word)
}

/// The register that the word is.
#[tactic(auto, unfolding(crate::specs::Readers::register_named))]
pub(crate) fn register_named(word: &[u8]) -> Option<Reg>
    ensures { result ≡ register_named word.now }
{
    if word == b"dec".as_slice() {
        return Some(Reg::Dec);
    }
    if word.len() == 2 && word[0] == b'r' && b'1' <= word[1] && word[1] <= b'9' {
        Some(Reg::R(Proc::new(word[1] - b'0')))
    } else {
        None
    }
}
