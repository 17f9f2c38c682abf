//! What is put out at a line.

ghost use Rattle.std.specs.Prelude.{◌≡◌, ◌++◌, ℕ, Bool, List, [], ◌∷◌, map, codes, false, IfOk};
ghost use Rattle.cdb_streams.specs.FaultTexts.{as_line};
ghost use Rattle.cdb_session.specs.Answers.{answer_seen};
ghost use Rattle.cdb_session.specs.Dialogues.{answer_text, saving_text, savings_of};
ghost use Rattle.cdb_session.specs.Lines.{IsText, outputs_of};
ghost use Rattle.cdb_session.specs.Moves.{WritesAll, file, says};

use crate::console::{Console, write_all};
use crate::inquiry::Inquiry;
use cdb_base::NoMemory;
use cdb_streams::Failed;
use itoa::Buffer;
use std::alloc::{AllocError, Global};

/// A text for a new file, and the file's name.
#[derive(Drop)]
pub struct NewFile<'a> {
    pub name: &'a [u8],
    pub text: Vec<u8>,
}

/// What is put out at a line: a new file, if one is asked for, and then what is shown.
#[derive(Drop)]
pub struct Shown<'a> {
    pub file: Option<NewFile<'a>>,
    /// What is shown once the file is written, or where there is none.
    pub text: Vec<u8>,
    /// What is shown where the file can't be written.
    pub failed: Vec<u8>,
}

impl<'a> Shown<'a> {
    /// A text, and no file.
    pub(crate) fn of(alloc: Global, text: Vec<u8>) -> Self
        ensures { IsText result text.items }
    {
        Shown {
            file: None,
            text,
            failed: Vec::new(alloc),
        }
    }

    /// Writes the file, if there is one, and then what is shown. It takes no memory.
    pub(crate) fn put<T: Console>(&self, console: &mut T) -> Result<(), Failed>
        ensures { (saved : Bool) × WritesAll result (T.known console.old) (T.known console.new)
            (outputs_of [] self.now saved) }
    {
        match &self.file {
            None => write_all(console, self.text.as_slice()),
            Some(new) => match console.save(new.name, new.text.as_slice()) {
                Ok(()) => write_all(console, self.text.as_slice()),
                Err(Failed) => write_all(console, self.failed.as_slice()),
            },
        }
    }
}

/// `drawn FILE`.
fn drawn_text(alloc: Global, name: &[u8]) -> Result<Vec<u8>, AllocError>
    ensures { IfOk result (λ text. text.items ≡ as_line (codes "drawn " ++ name.now)) }
{
    let mut text = b"drawn ".to_vec(alloc)?;
    text.extend_from_slice(name)?;
    text.push(b'\n')?;
    Ok(text)
}

/// `line L cannot write FILE`.
fn failed_text(alloc: Global, line: u64, name: &[u8]) -> Result<Vec<u8>, AllocError>
    ensures { IfOk result (λ text. text.items ≡ saving_text line name.now false) }
{
    let mut digits = Buffer::new();
    let mut text = b"line ".to_vec(alloc)?;
    text.extend_from_slice(digits.format(line).as_bytes())?;
    text.extend_from_slice(b" cannot write ")?;
    text.extend_from_slice(name)?;
    text.push(b'\n')?;
    Ok(text)
}

/// A picture for a file that the line of this number names.
fn drawn(alloc: Global, line: u64, name: &[u8], picture: Vec<u8>) -> Result<Shown<'_>, NoMemory>
    ensures { IfOk result (λ shown. (news : List ℕ) (saved : Bool) → outputs_of news shown saved
        ≡ file (record { name = name.now; text = picture.items; done = saved })
        ∷ says (news ++ saving_text line name.now saved)) }
{
    let text = drawn_text(alloc, name)?;
    let failed = failed_text(alloc, line, name)?;
    Ok(Shown {
        file: Some(NewFile {
            name,
            text: picture,
        }),
        text,
        failed,
    })
}

/// What is put out at the line of this number, which asks this of the run: the answer, a picture in a file.
pub(crate) fn answered<'a>(
    alloc: Global,
    line: u64,
    inquiry: &Inquiry<'a>,
    answer: Result<Vec<u8>, Vec<u8>>,
) -> Result<Shown<'a>, NoMemory>
    ensures { IfOk result (λ shown. (news : List ℕ) (saved : Bool) → outputs_of news shown saved
        ≡ map file (savings_of inquiry.now (answer_seen answer) saved)
        ++ says (news ++ answer_text line inquiry.now (answer_seen answer) saved)) }
{
    match answer {
        Ok(text) => match inquiry {
            Inquiry::Draw(name, _) => drawn(alloc, line, name.bytes, text),
            _ => Ok(Shown::of(alloc, text)),
        },
        Err(reason) => Ok(Shown::of(alloc, reason)),
    }
}
