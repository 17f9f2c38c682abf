//! Reading the words of the command line.

ghost use Rattle.std.specs.Prelude.{◌≡◌, ◌≢◌, OnOk, IfOk, IfErr, IfSome, IsSome, Some, [], true, map, codes};
ghost use Rattle.clap.specs.Words.{Kinds, Text, HasKind, fault_of, first_of, found_of, kind_of};
ghost use Rattle.clap.specs.Words.{rows_of, subcommand_of, subcommand_rows_of, takes};
ghost use Rattle.cdb_base.specs.Memory.{no_memory};
ghost use Rattle.cdb_arguments.specs.CommandLine.{program, subcommand_named};
ghost use Rattle.cdb_arguments.specs.declared.command_line.Subcommand.TheVariants as sub;
ghost use Rattle.cdb_arguments.specs.RequestsOfRows.{AreColumns, AsksDrawing, AsksFor, IsAnyStepIn, IsStepIn, IsCount};
ghost use Rattle.cdb_arguments.specs.RequestsOfRows.{IsNumber, IsNumberAt, text_at, texts_at, NamesAsked, IsOfKinds};
ghost use Rattle.cdb_arguments.specs.RequestsOfRows.{IsRequest, ask_status_of, words_status};
ghost use Rattle.cdb_arguments.specs.Plain.{IsLine};
ghost use Rattle.cdb_base.specs.Requests.{RequestView, Ask, any_text, asked_for, texts};

use crate::command_line::program;
use crate::request::{ArgumentsFault, WordsError};
use cdb_base::limits::{COLUMNS, MAX_NUMBER, MAX_TURNS};
use cdb_base::{NoMemory, Question, Request, StepAsked};
use clap::error::ErrorKind;
use clap::{ArgMatches, Error};
use std::alloc::{AllocError, Global};

/// The matches of the words.
#[tactic(auto, using(crate::proofs::Requests::program_is_simple, crate::proofs::Requests::program_is_free))]
fn matches_of<'a>(alloc: Global, words: &'a [&'a str]) -> Result<ArgMatches<'a>, ArgumentsFault>
    ensures ok { IfOk result
        (λ m. subcommand_rows_of m ≡ subcommand_of program (texts words.entry.now)) }
    ensures taken { takes program (texts words.entry.now) ≡ true →
        IfErr result (λ fault. fault ≡ ArgumentsFault.NoMemory no_memory) }
    ensures right { OnOk result (fault_of program (texts words.entry.now) ≡ []) }
    ensures refused { IfErr result
        (λ fault. IsOfKinds (fault_of program (texts words.entry.now)) fault) }
{
    match program(alloc)?.try_get_matches_from(words) {
        Ok(matches) => Ok(matches),
        Err(error) => Err(ask_fault(WordsError(error))),
    }
}

/// What an error of `clap` is here: out of memory apart from the other errors.
fn ask_fault(error: WordsError) -> ArgumentsFault
    ensures memory { kind_of error.0 ≡ ErrorKind.OutOfMemory → result ≡ ArgumentsFault.NoMemory no_memory }
    ensures other { kind_of error.0 ≢ ErrorKind.OutOfMemory → result ≡ ArgumentsFault.Words error.0 }
    ensures words { (kinds : Kinds) → HasKind kinds error.0 → IsOfKinds kinds result }
{
    match NoMemory::of(&error) {
        Some(refused) => ArgumentsFault::NoMemory(refused),
        None => ArgumentsFault::Words(error.0),
    }
}

/// The number from 0 on that the text is.
fn count_of(text: &str) -> u32
    ensures { IsCount text.now result }
{
    match text.parse::<u32>() {
        Ok(turns) if turns <= MAX_TURNS => turns,
        _ => 0,
    }
}

/// The number from 1 on that the text is.
fn number_of(text: &str) -> u32
    ensures { IsNumber text.now result }
{
    let Ok(number) = text.parse::<u32>() else {
        return 1;
    };
    if 1 <= number && number <= MAX_NUMBER {
        number
    } else {
        1
    }
}

/// The text of an argument that may be left out.
#[tactic(auto, using(crate::proofs::Requests::first_value))]
fn any_text_of<'a>(matches: &ArgMatches<'a>, id: &str) -> Option<&'a str>
    ensures { any_text result ≡ first_of id.now (rows_of (found_of matches.now)) }
{
    matches.get_str(id)
}

/// The text of an argument.
fn text_of<'a>(matches: &ArgMatches<'a>, id: &str) -> &'a str
    ensures { result.now ≡ text_at id.now (rows_of (found_of matches.now)) }
{
    any_text_of(matches, id).unwrap_or("")
}

/// The number of an argument that has to be given.
fn required_number(matches: &ArgMatches, id: &str) -> u32
    ensures { IsNumber (text_at id.now (rows_of (found_of matches.now))) result }
{
    number_of(text_of(matches, id))
}

/// The number of an argument that may be left out.
fn number_at(matches: &ArgMatches, id: &str) -> Option<u32>
    ensures { IsNumberAt id.now (rows_of (found_of matches.now)) result }
{
    match any_text_of(matches, id) {
        Some(text) => Some(number_of(text)),
        None => None,
    }
}

/// The texts of an argument.
#[tactic(auto, using(crate::proofs::Requests::raw_values))]
fn texts_of<'a>(
    alloc: Global,
    matches: &ArgMatches<'a>,
    id: &str,
) -> Result<Vec<&'a str>, AllocError>
    ensures { IfOk result (λ found. texts found.items
        ≡ texts_at id.now (rows_of (found_of matches.now))) }
{
    match matches.get_raw(id) {
        Some(texts) => Vec::from_slice(alloc, texts),
        None => Ok(Vec::new(alloc)),
    }
}

/// A play of two files.
fn play_of<'a>(found: &ArgMatches<'a>) -> Request<'a>
    ensures { AsksFor sub.Play (rows_of (found_of found.now)) (asked_for result) }
{
    Request::Play {
        setup: text_of(found, "SETUP"),
        script: text_of(found, "SCRIPT"),
    }
}

/// A race of scripts.
fn race_of<'a>(alloc: Global, found: &ArgMatches<'a>) -> Result<Request<'a>, AllocError>
    ensures { IfOk result
        (λ request. AsksFor sub.Race (rows_of (found_of found.now)) (asked_for request)) }
{
    Ok(Request::Race {
        setup: text_of(found, "SETUP"),
        turns: count_of(text_of(found, "TURNS")),
        scripts: texts_of(alloc, found, "SCRIPT")?,
    })
}

/// The step of the matches, which have a process.
fn step_of(found: &ArgMatches) -> StepAsked
    ensures { IsStepIn (rows_of (found_of found.now)) result }
{
    StepAsked {
        p: required_number(found, "P"),
        k: number_at(found, "K"),
    }
}

/// The step of the matches, where they have a process.
fn any_step_of(found: &ArgMatches) -> Option<StepAsked>
    ensures { IsAnyStepIn (rows_of (found_of found.now)) result }
{
    match any_text_of(found, "P") {
        Some(_) => Some(step_of(found)),
        None => None,
    }
}

/// What is asked of the run of two files.
fn question_of<'a>(found: &ArgMatches<'a>, question: Question) -> Request<'a>
    ensures { asked_for result ≡ Ask (text_at (codes "SETUP") (rows_of (found_of found.now)))
        (text_at (codes "SCRIPT") (rows_of (found_of found.now))) question }
{
    Request::Ask {
        setup: text_of(found, "SETUP"),
        script: text_of(found, "SCRIPT"),
        question,
    }
}

/// How many columns a picture has.
fn columns_of(found: &ArgMatches) -> u32
    ensures { AreColumns (first_of (codes "N") (rows_of (found_of found.now))) result }
{
    match any_text_of(found, "N") {
        Some(text) => count_of(text),
        None => COLUMNS,
    }
}

/// A picture, or the frames where a folder is given.
fn drawing_of<'a>(found: &ArgMatches<'a>) -> Request<'a>
    ensures { AsksFor sub.Draw (rows_of (found_of found.now)) (asked_for result) }
{
    let columns = columns_of(found);
    let step = any_step_of(found);
    match any_text_of(found, "FOLDER") {
        Some(folder) => Request::Frames {
            setup: text_of(found, "SETUP"),
            script: text_of(found, "SCRIPT"),
            folder,
            columns,
            step,
        },
        None => question_of(found, Question::Draw { columns, step }),
    }
}

/// A session for each seat.
fn debug_of<'a>(alloc: Global, found: &ArgMatches<'a>) -> Result<Request<'a>, AllocError>
    ensures { IfOk result
        (λ request. AsksFor sub.Debug (rows_of (found_of found.now)) (asked_for request)) }
{
    Ok(Request::Debug {
        setup: text_of(found, "SETUP"),
        seats: texts_of(alloc, found, "SEAT")?,
        from: any_text_of(found, "JOURNAL"),
        journal: any_text_of(found, "FILE"),
        page: any_text_of(found, "PAGE"),
    })
}

/// A journal that is played again.
fn replay_of<'a>(found: &ArgMatches<'a>) -> Request<'a>
    ensures { AsksFor sub.Replay (rows_of (found_of found.now)) (asked_for result) }
{
    Request::Replay {
        setup: text_of(found, "SETUP"),
        journal: text_of(found, "JOURNAL"),
    }
}

/// A search for a run in which a goal holds.
fn search_of<'a>(found: &ArgMatches<'a>) -> Request<'a>
    ensures { AsksFor sub.Search (rows_of (found_of found.now)) (asked_for result) }
{
    Request::Search {
        setup: text_of(found, "SETUP"),
        goal: text_of(found, "GOAL"),
        seed: required_number(found, "SEED"),
        walks: required_number(found, "WALKS"),
    }
}

/// Whether two scripts leave the same run.
fn same_of<'a>(found: &ArgMatches<'a>) -> Request<'a>
    ensures { AsksFor sub.Same (rows_of (found_of found.now)) (asked_for result) }
{
    Request::Same {
        setup: text_of(found, "SETUP"),
        first: text_of(found, "FIRST"),
        second: text_of(found, "SECOND"),
    }
}

/// A script that is made small.
fn shrink_of<'a>(found: &ArgMatches<'a>) -> Request<'a>
    ensures { AsksFor sub.Shrink (rows_of (found_of found.now)) (asked_for result) }
{
    Request::Shrink {
        setup: text_of(found, "SETUP"),
        script: text_of(found, "SCRIPT"),
        goal: text_of(found, "GOAL"),
    }
}

/// What the matches of a subcommand of this name ask for.
fn asked_under<'a>(
    alloc: Global,
    name: &str,
    found: &ArgMatches<'a>,
) -> Result<Request<'a>, AllocError>
    requires { IsSome (subcommand_named name.now) }
    ensures { IfOk result
        (λ request. NamesAsked (Some (name.now, rows_of (found_of found.now))) (asked_for request)) }
{
    match name {
        "play" => Ok(play_of(found)),
        "explain" => Ok(question_of(found, Question::Explain(step_of(found)))),
        "trail" => Ok(question_of(found, Question::Trail(step_of(found)))),
        "draw" => Ok(drawing_of(found)),
        "slice" => Ok(question_of(found, Question::Slice(any_step_of(found)))),
        "debug" => debug_of(alloc, found),
        "replay" => Ok(replay_of(found)),
        "search" => Ok(search_of(found)),
        "shrink" => Ok(shrink_of(found)),
        "same" => Ok(same_of(found)),
        "clocks" => Ok(question_of(found, Question::Clocks)),
        "page" => Ok(question_of(found, Question::Page)),
        _ => race_of(alloc, found),
    }
}

/// What the matches ask for.
fn asked_by<'a>(alloc: Global, matches: &ArgMatches<'a>) -> Result<Request<'a>, AllocError>
    requires { IfSome (subcommand_rows_of matches.now) (λ found. IsSome (subcommand_named found.0)) }
    ensures { IfOk result
        (λ request. NamesAsked (subcommand_rows_of matches.now) (asked_for request)) }
{
    match matches.subcommand() {
        Some((name, found)) => asked_under(alloc, name, found),
        None => Ok(Request::Script),
    }
}

/// The status with which the program ends where the words ask for nothing.
pub fn ask_status(fault: &ArgumentsFault) -> u8
    ensures { result ≡ ask_status_of fault.now }
{
    match fault {
        ArgumentsFault::Words(error) => status_of_words(error),
        ArgumentsFault::NoMemory(_) => 6,
    }
}

/// Help and the version are no mistakes.
fn status_of_words(error: &Error) -> u8
    ensures { result ≡ words_status (kind_of error.now) }
{
    match error.kind() {
        ErrorKind::DisplayHelp | ErrorKind::DisplayVersion => 0,
        _ => 2,
    }
}

/// What `clap` makes of the arguments, as a request.
#[tactic(auto, using(crate::proofs::Requests::names_one))]
fn read<'a>(alloc: Global, words: &'a [&'a str]) -> Result<Request<'a>, ArgumentsFault>
    ensures ok { IfOk result
        (λ request. NamesAsked (subcommand_of program (texts words.entry.now)) (asked_for request)) }
    ensures taken { takes program (texts words.entry.now) ≡ true →
        IfErr result (λ fault. fault ≡ ArgumentsFault.NoMemory no_memory) }
    ensures right { OnOk result (fault_of program (texts words.entry.now) ≡ []) }
    ensures refused { IfErr result
        (λ fault. IsOfKinds (fault_of program (texts words.entry.now)) fault) }
{
    let matches = matches_of(alloc, words)?;
    Ok(asked_by(alloc, &matches)?)
}

/// What the arguments of the command line ask for; the first is the program's name. The name alone asks for the script
/// on standard input, `play SETUP SCRIPT` for a play, `race SETUP TURNS SCRIPT..` for a race, `explain SETUP SCRIPT P
/// [K]` for what led to a step, `trail SETUP SCRIPT P [K]` for the trail of a value to it, `draw SETUP SCRIPT [P [K]]`
/// for a picture, with `--rows N` for one with N columns to a row, or all in one for 0, and with `--frames FOLDER` for
/// one after each command that changed the run, `slice SETUP SCRIPT [P [K]]` for a script, `debug SETUP [SEAT..]` for
/// sessions that go on line by line, with `--journal FILE` for ones whose journal is kept in a file, `--from JOURNAL`
/// for ones that go on from a journal and `--page PAGE` for ones of whose run there is a page, `replay SETUP JOURNAL`
/// for a journal that is played again, `search SETUP GOAL SEED WALKS` for a search, `same SETUP FIRST SECOND` for
/// whether two scripts leave the same run, `clocks SETUP SCRIPT` for clocks, `shrink SETUP SCRIPT GOAL` for a small
/// script, `page SETUP SCRIPT` for a page. P, K, SEED and WALKS are numbers of 1 to 999,999.
///
/// # Errors
/// `Words` with `clap`'s error for arguments that the command line does not take, and for those alone; the error is
/// help or the version where these were asked for. `NoMemory` where an allocation fails.
///
/// Promise: Plain arguments ask for exactly what the usage says of them, whatever texts they are that are no options;
/// others ask for what `clap`'s matches name, and those in which `clap`'s definition finds a fault are refused, the
/// rest only where memory is out.
pub fn asked<'a>(alloc: Global, words: &'a [&'a str]) -> Result<Request<'a>, ArgumentsFault>
    ensures ok { IfOk result
        (λ request. NamesAsked (subcommand_of program (texts words.entry.now)) (asked_for request)) }
    ensures taken { takes program (texts words.entry.now) ≡ true →
        IfErr result (λ fault. fault ≡ ArgumentsFault.NoMemory no_memory) }
    ensures right { OnOk result (fault_of program (texts words.entry.now) ≡ []) }
    ensures refused { IfErr result
        (λ fault. IsOfKinds (fault_of program (texts words.entry.now)) fault) }
    ensures plain { (asked : RequestView) → IsLine (texts words.entry.now) asked →
        IsRequest result asked }
{
    read(alloc, words)
}
