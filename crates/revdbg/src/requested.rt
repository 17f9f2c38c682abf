//! The action for what the arguments ask for.

ghost use Rattle.std.specs.Prelude.{◌≡◌, Err, IfErr, IfOk, IsOk, OnOk, map, string_bytes};
ghost use Rattle.std.specs.IoError.{error_kind};
ghost use Rattle.clap.specs.Words.{Kinds};
ghost use Rattle.cdb_arguments.specs.RequestsOfRows.{IsOfKinds};
ghost use Rattle.cdb_base.specs.Memory.{no_memory};
ghost use Rattle.cdb_base.specs.Requests.{asked_for, texts};
ghost use Rattle.cdb_program.specs.Requests.{HasTurns, MayPerform};
ghost use Rattle.revdbg.specs.ActionFor.{IsReportOf, Makes, Says};
ghost use Rattle.revdbg.specs.Requested.{IsAskedBy, IsOutOfMemory, IsPerformed, IsRefusal};
ghost use Rattle.revdbg.specs.Requested.{IsUnread, OrOutOfMemory, unread_of};

use cdb_arguments::{ArgumentsFault, ask_status, asked};
use cdb_base::{NoMemory, Request};
use cdb_program::{Action, Fault};
use cdb_streams::PlayFault;
use std::alloc::{AllocError, Global};
use std::io;

/// What is reported where an argument is no text.
const NOT_UTF8: &str = "an argument is not valid UTF-8\n";

/// Why the arguments could not be read.
#[derive(Clone, Copy)]
pub enum Unread {
    NoMemory(NoMemory),
    /// One is no text.
    NotUtf8,
}

impl From<AllocError> for Unread {
    ghost use Rattle.revdbg.specs.declared.requested.Unread.TheVariants as unread;

    ghost from_gives = { λ _ made. made ≡ unread.NoMemory no_memory };

    fn from(error: AllocError) -> Self {
        Unread::NoMemory(NoMemory::from(error))
    }
}

/// Why the arguments ask for nothing that could be performed.
#[derive(Drop)]
pub enum ArgsError {
    /// They could not be read, for this reason; out of memory also where an allocation fails later.
    Unread(Unread),
    /// They are wrong, or ask for help or the version, as this text says.
    Refused(ArgumentsFault, String),
}

/// The report that an allocation failed.
fn out_of_memory<'a>(refused: NoMemory) -> Action<'a, 'a>
    ensures memory { IsOutOfMemory result }
    ensures turns { MayPerform result }
{
    Action::Refuse(Fault::Play(PlayFault::NoMemory(refused), ""))
}

/// To print help or the version, or to report what is wrong with the arguments, where this is the text.
fn refusal_of<'a>(fault: &ArgumentsFault, text: &'a str) -> Action<'a, 'a>
    ensures refusal { (kinds : Kinds) → IsOfKinds kinds fault.now →
        OrOutOfMemory (IsRefusal kinds) result }
    ensures text { OrOutOfMemory (Says text.entry.now) result }
    ensures turns { MayPerform result }
{
    match fault {
        ArgumentsFault::NoMemory(refused) => out_of_memory(*refused),
        ArgumentsFault::Words(_) if ask_status(fault) == 0 => Action::Print(text),
        ArgumentsFault::Words(_) => Action::Refuse(Fault::Refused(text)),
    }
}

/// The report that the arguments could not be read, for this reason.
fn report_unread<'a>(reason: Unread) -> Action<'a, 'a>
    ensures unread { IsUnread reason result }
    ensures turns { MayPerform result }
{
    match reason {
        Unread::NoMemory(refused) => out_of_memory(refused),
        Unread::NotUtf8 => Action::Refuse(Fault::Refused(NOT_UTF8)),
    }
}

/// The report why the arguments ask for nothing that could be performed.
pub fn report_of<'a>(error: &'a ArgsError) -> Action<'a, 'a>
    ensures report { IsReportOf error.now result }
    ensures turns { MayPerform result }
{
    match error {
        ArgsError::Unread(reason) => report_unread(*reason),
        ArgsError::Refused(fault, text) => refusal_of(fault, text.as_str()),
    }
}

/// The action that performs a request, in which a session here has this prompt.
pub fn action_of<'a, 'r>(request: &'a Request<'r>, prompt: &'a str) -> Action<'a, 'r>
    requires { HasTurns (asked_for request.now) }
    ensures action { IsPerformed prompt.now (asked_for request.now) result }
    ensures turns { MayPerform result }
{
    Action::Perform { request, prompt }
}

/// The texts of these arguments.
fn texts_of_each<'a>(alloc: Global, words: &'a [String]) -> Result<Vec<&'a str>, AllocError>
    ensures { IfOk result (λ found. texts found.items ≡ map string_bytes words.now) }
{
    let mut texts = Vec::new(alloc);
    for word in words {
        texts.push(word.as_str())?;
    }
    Ok(texts)
}

/// Why the arguments could not be read, where this is the system's error.
fn why_unread(error: &io::Error) -> Unread
    ensures { result ≡ unread_of (error_kind error.now) }
{
    match NoMemory::of(error) {
        Some(refused) => Unread::NoMemory(refused),
        None => Unread::NotUtf8,
    }
}

/// The texts of the arguments, as they were read from the system.
///
/// # Errors
/// Why they could not be read, and `NoMemory` where an allocation fails.
pub fn texts_of<'a>(
    alloc: Global,
    words: &'a io::Result<Vec<String>>,
) -> Result<Vec<&'a str>, Unread>
    ensures texts { IfOk result (λ found. IfOk words.now
        (λ words. texts found.items ≡ map string_bytes words.items)) }
    ensures read { OnOk result (IsOk words.now) }
    ensures memory { IfErr result (λ reason. IfOk words.now
        (λ words. reason ≡ Unread.NoMemory no_memory)) }
    ensures fault { IfErr result (λ reason. IfErr words.now
        (λ error. reason ≡ unread_of (error_kind error))) }
{
    match words {
        Ok(words) => Ok(texts_of_each(alloc, words.as_slice())?),
        Err(error) => Err(why_unread(error)),
    }
}

/// Why arguments that are refused ask for nothing.
fn refused(alloc: Global, fault: ArgumentsFault) -> ArgsError
    ensures { (kinds : Kinds) → IsOfKinds kinds fault →
        Makes (Err result) (λ _. OrOutOfMemory (IsRefusal kinds)) }
{
    match format!(in alloc; "{fault}") {
        Ok(text) => ArgsError::Refused(fault, text),
        Err(error) => ArgsError::Unread(Unread::from(error)),
    }
}

/// What the arguments with these texts ask for, the program's name first.
///
/// # Errors
/// `Unread` where there are none, as they could not be read, and where an allocation fails; `Refused` where they are
/// wrong, and where they ask for help or the version.
pub fn asked_in<'a>(
    alloc: Global,
    read: &'a Result<Vec<&'a str>, Unread>,
) -> Result<Request<'a>, ArgsError>
    ensures asked { IfOk read.entry.now (λ found. Makes result
        (λ prompt. IsAskedBy prompt (texts found.items))) }
    ensures turns { IfOk result (λ request. HasTurns (asked_for request)) }
    ensures unread { IfErr read.entry.now (λ reason. result ≡ Err (ArgsError.Unread reason)) }
{
    match read {
        Ok(texts) => match asked(alloc, texts.as_slice()) {
            Ok(asked) => Ok(asked),
            Err(fault) => Err(refused(alloc, fault)),
        },
        Err(reason) => Err(ArgsError::Unread(*reason)),
    }
}
