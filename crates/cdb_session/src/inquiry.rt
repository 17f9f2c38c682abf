//! What a line asks of the run as it stands.

ghost use Rattle.std.specs.Prelude.{◌≡◌};
ghost use Rattle.std.specs.List.{list_any};
ghost use Rattle.cdb_text.specs.Words.{words_left};
ghost use Rattle.cdb_session.specs.Inquiries.{has_other_meaning, is_file_name, is_one_piece};
ghost use Rattle.cdb_session.specs.Typed.{is_blank};
ghost use Rattle.cdb_session.specs.RequestWords.{any_step_in, drawing_in, step_in};

use crate::typed::{is_blank, is_comment, is_digits, is_name, is_word};
use cdb_base::StepAsked;
use cdb_text::{first_word, number_of};
use std::marker::Model;

/// The most bytes of a file's name, as many as the system takes.
const MOST_NAME: usize = 4095;

/// The name of a file as a line gives it: 1 to 4,095 bytes, none of them a blank.
#[derive(Drop)]
pub struct FileName<'a> {
    pub bytes: &'a [u8],
}

impl<'a> Model for FileName<'a> {
    ghost use Rattle.std.specs.Prelude.{ℕ, List};

    ghost Value = { List ℕ };

    ghost view = { λ name. name.bytes.now };
}

/// What a line asks of the run as it stands.
#[derive(Drop)]
pub enum Inquiry<'a> {
    /// What led to the step.
    Explain(StepAsked),
    /// How a value came to the step.
    Trail(StepAsked),
    /// The picture of the run, or of what led to the step, in a new file of this name.
    Draw(FileName<'a>, Option<StepAsked>),
}

/// The step that the words behind the first one name.
#[tactic(auto, unfolding(crate::specs::RequestWords::step_in), using(crate::proofs::OneRequest::first_of))]
pub(crate) fn step_of(words: Option<&[u8]>) -> Option<StepAsked>
    ensures { result ≡ step_in (words_left words.entry) }
{
    let (first, others) = first_word(words?);
    let p = number_of(first)?;
    let Some(others) = others else {
        return Some(StepAsked { p, k: None });
    };
    match first_word(others) {
        (second, None) => {
            let k = Some(number_of(second)?);
            Some(StepAsked { p, k })
        }
        (_, Some(_)) => None,
    }
}

/// The step that the words behind a file's name ask for, none where there are no words.
#[tactic(auto, unfolding(crate::specs::RequestWords::any_step_in), using(crate::proofs::OneRequest::first_of))]
fn any_step_of(words: Option<&[u8]>) -> Option<Option<StepAsked>>
    ensures { result ≡ any_step_in (words_left words.entry) }
{
    match words {
        None => Some(None),
        Some(_) => Some(Some(step_of(words)?)),
    }
}

/// Whether one of the bytes is a blank.
fn has_blank(word: &[u8]) -> bool
    ensures { result ≡ list_any is_blank word.now }
{
    word.iter().any(|byte| is_blank(*byte))
}

/// Whether a word is not too long to name a file, and has no blank.
fn is_one_piece(word: &[u8]) -> bool
    ensures { result ≡ is_one_piece word.now }
{
    word.len() <= MOST_NAME && !has_blank(word)
}

/// Whether a word stands for something else than a file: a comment, a number, or a name as it is printed.
fn has_other_meaning(word: &[u8]) -> bool
    ensures { result ≡ has_other_meaning word.now }
{
    is_comment(word) || is_digits(word) || is_name(word)
}

/// Whether a word names a file.
pub(crate) fn is_file_name(word: &[u8]) -> bool
    ensures { result ≡ is_file_name word.now }
{
    is_word(word) && is_one_piece(word) && !has_other_meaning(word)
}

/// The picture that the words behind `draw` ask for.
#[tactic(auto, unfolding(crate::specs::RequestWords::drawing_in))]
pub(crate) fn drawing_of(words: Option<&[u8]>) -> Option<Inquiry<'_>>
    ensures { result ≡ drawing_in (words_left words.entry) }
{
    let (bytes, others) = first_word(words?);
    if !is_file_name(bytes) {
        return None;
    }
    let step = any_step_of(others)?;
    Some(Inquiry::Draw(FileName { bytes }, step))
}
