//! The command line, as `clap` is told of it.

ghost use Rattle.std.specs.Prelude.{◌≡◌, IfOk, false, true, codes};
ghost use Rattle.clap.specs.Words.{app_of, new_app, new_rule, rule_of};
ghost use Rattle.clap.specs.declared.builder.command.Command.TheViews.{out-Command};
ghost use Rattle.cdb_arguments.specs.CommandLine.{required_rule, option_rule, counted, numbered, several, program};
ghost use Rattle.cdb_arguments.specs.CommandLine.{rule_named, name_of, arguments_of, app_named, with_named};
ghost use Rattle.cdb_arguments.specs.CommandLine.{bare_program};

use cdb_commands::COMMANDS;
use clap::{Arg, Command};
use std::alloc::{AllocError, Global};

/// The version that `--version` prints after the program's name.
const VERSION: &str = "1.9.0";

const ABOUT: &str =
    "A reversible debugger for consensus algorithms: plays the commands of a script on one run, and
prints each reply. Without a subcommand it plays the script on standard input, on one process that
proposes 7.";

const PLAY: &str = "Plays a script, one command after the other";

const RACE: &str =
    "Plays each script and drives each process, each in a thread of its own, all on one run";

const EXPLAIN: &str =
    "Plays a script, and prints what led to a step: the events, with their causes";

const TRAIL: &str =
    "Plays a script, and prints how a value came to a step: from whose input, along which events";

const DRAW: &str =
    "Plays a script, and prints a picture of the run in SVG; what led to a step stands out";

const SLICE: &str =
    "Plays a script, and prints one that plays what stands, or only what led to a step";

const DEBUG: &str = "Carries each command out before the next is read, for one user or for several";

const SEARCH: &str =
    "Walks at random until a goal holds, and prints a script of the run in which it does";

const SHRINK: &str =
    "Plays a script, and prints as few lines as it can after which the goal holds still";

const REPLAY: &str = "Plays a journal again, and prints each reply behind the number of its seat";

const SAME: &str =
    "Plays two scripts, and tells whether they leave the same run; else what tells the runs apart";

const CLOCKS: &str = "Plays a script, and prints what stands with its vector clocks, for ShiViz";

const PAGE: &str =
    "Plays a script, and prints a page of the run for a browser, with each event's past and trail";

const SETUPS: &str = "A setup:
  {\"algorithm\":\"leader\",\"processes\":2,\"quorum\":2,\"inputs\":[5,6],\"oracle\":[[1],[1]]}
  algorithm  \"leader\" or \"alpha\"
  processes  1 to 9
  quorum     1 to the number of processes
  inputs     what each process proposes, 0 to 999999
  oracle     for each process the leaders that its queries get, one after the other
  version    1, or 2 where copies of messages can be lost; may be left out";

/// A positional argument of a subcommand.
pub(crate) enum Argument {
    Setup,
    Script,
    Turns,
    Scripts,
    Process,
    /// A process that may be left out.
    AnyProcess,
    Step,
    Seats,
    Journal,
    Goal,
    Seed,
    Walks,
    /// The script that leaves the first of two runs, and the one that leaves the second.
    First,
    Second,
    /// The option of the file in which a journal is kept.
    Kept,
    /// The option of the journal that sessions go on from.
    From,
    /// The option of the file of a page.
    Page,
    /// The option of the columns to a row.
    Columns,
    /// The option of the folder of frames.
    Frames,
}

/// A subcommand of the program.
pub(crate) enum Subcommand {
    Play,
    Race,
    Explain,
    Trail,
    Draw,
    Slice,
    Debug,
    Replay,
    Search,
    Same,
    Clocks,
    Page,
    Shrink,
}

impl Subcommand {
    /// The subcommands, in the order in which help lists them.
    pub(crate) const ALL: [Subcommand; 13] = [
        Subcommand::Play,
        Subcommand::Race,
        Subcommand::Explain,
        Subcommand::Trail,
        Subcommand::Draw,
        Subcommand::Slice,
        Subcommand::Debug,
        Subcommand::Replay,
        Subcommand::Search,
        Subcommand::Same,
        Subcommand::Clocks,
        Subcommand::Shrink,
        Subcommand::Page,
    ];

    fn name<'a>(&self) -> &'a str
        ensures { result.now ≡ name_of self.now }
    {
        match self {
            Subcommand::Play => "play",
            Subcommand::Race => "race",
            Subcommand::Explain => "explain",
            Subcommand::Trail => "trail",
            Subcommand::Draw => "draw",
            Subcommand::Slice => "slice",
            Subcommand::Debug => "debug",
            Subcommand::Replay => "replay",
            Subcommand::Search => "search",
            Subcommand::Shrink => "shrink",
            Subcommand::Same => "same",
            Subcommand::Clocks => "clocks",
            Subcommand::Page => "page",
        }
    }

    fn about<'a>(&self) -> &'a str {
        match self {
            Subcommand::Play => PLAY,
            Subcommand::Race => RACE,
            Subcommand::Explain => EXPLAIN,
            Subcommand::Trail => TRAIL,
            Subcommand::Draw => DRAW,
            Subcommand::Slice => SLICE,
            Subcommand::Debug => DEBUG,
            Subcommand::Replay => REPLAY,
            Subcommand::Search => SEARCH,
            Subcommand::Shrink => SHRINK,
            Subcommand::Same => SAME,
            Subcommand::Clocks => CLOCKS,
            Subcommand::Page => PAGE,
        }
    }

    /// The arguments, in their order.
    fn arguments(&self) -> &'static [Argument]
        ensures { result.now ≡ arguments_of self.now }
    {
        match self {
            Subcommand::Play | Subcommand::Clocks | Subcommand::Page => {
                &[Argument::Setup, Argument::Script]
            }
            Subcommand::Race => &[Argument::Setup, Argument::Turns, Argument::Scripts],
            Subcommand::Explain | Subcommand::Trail => &[
                Argument::Setup,
                Argument::Script,
                Argument::Process,
                Argument::Step,
            ],
            Subcommand::Draw => &[
                Argument::Setup,
                Argument::Script,
                Argument::AnyProcess,
                Argument::Step,
                Argument::Columns,
                Argument::Frames,
            ],
            Subcommand::Slice => &[
                Argument::Setup,
                Argument::Script,
                Argument::AnyProcess,
                Argument::Step,
            ],
            Subcommand::Debug => &[
                Argument::Setup,
                Argument::Seats,
                Argument::Kept,
                Argument::From,
                Argument::Page,
            ],
            Subcommand::Replay => &[Argument::Setup, Argument::Journal],
            Subcommand::Shrink => &[Argument::Setup, Argument::Script, Argument::Goal],
            Subcommand::Search => &[
                Argument::Setup,
                Argument::Goal,
                Argument::Seed,
                Argument::Walks,
            ],
            Subcommand::Same => &[Argument::Setup, Argument::First, Argument::Second],
        }
    }
}

/// A positional argument that has to be given.
fn required<'a>(alloc: Global, name: &'a str, help: &'a str) -> Arg<'a>
    ensures rule { rule_of result ≡ required_rule name.entry.now }
    ensures local { result.global ≡ false }
{
    Arg::new(alloc, name).required(true).help(help)
}

/// The argument takes a number of 0 to 99,999.
fn counted<'a>(arg: Arg<'a>) -> Arg<'a>
    ensures rule { rule_of result ≡ counted (rule_of arg.entry) }
    ensures local { result.global ≡ arg.entry.global }
{
    arg.value_parser(clap::value_parser!(u32).range(0..100_000))
}

/// The argument takes a number of 1 to 999,999.
fn numbered<'a>(arg: Arg<'a>) -> Arg<'a>
    ensures rule { rule_of result ≡ numbered (rule_of arg.entry) }
    ensures local { result.global ≡ arg.entry.global }
{
    arg.value_parser(clap::value_parser!(u32).range(1..1_000_000))
}

/// A number of 1 to 999,999 that may be left out.
fn number<'a>(alloc: Global, name: &'a str, help: &'a str) -> Arg<'a>
    ensures rule { rule_of result ≡ numbered (new_rule name.entry.now) }
    ensures local { result.global ≡ false }
{
    numbered(Arg::new(alloc, name).help(help))
}

/// The argument takes one text or more.
fn many<'a>(arg: Arg<'a>) -> Arg<'a>
    ensures rule { rule_of result ≡ several (rule_of arg.entry) }
    ensures local { result.global ≡ arg.entry.global }
{
    arg.num_args(1..)
}

/// A device for each user, or none.
fn seats<'a>(alloc: Global) -> Arg<'a>
    ensures rule { rule_of result ≡ several (new_rule (codes "SEAT")) }
    ensures local { result.global ≡ false }
{
    let help =
        "A terminal device, or IN:OUT, two files or pipes, for each user; left out: the one here";
    many(Arg::new(alloc, "SEAT").help(help))
}

/// The option `--NAME ID`.
fn option<'a>(alloc: Global, id: &'a str, name: &'a str, help: &'a str) -> Arg<'a>
    ensures rule { rule_of result ≡ option_rule id.entry.now name.entry.now }
    ensures local { result.global ≡ false }
{
    Arg::new(alloc, id).long(name).help(help)
}

/// The argument, with its help.
fn argument_of<'a>(alloc: Global, argument: &Argument) -> Arg<'a>
    ensures rule { rule_of result ≡ rule_named argument.now }
    ensures local { result.global ≡ false }
{
    match argument {
        Argument::Setup => required(alloc, "SETUP", "The file of the setup, in JSON"),
        Argument::Script => required(
            alloc,
            "SCRIPT",
            "The file of the script, one command a line",
        ),
        Argument::Turns => counted(required(
            alloc,
            "TURNS",
            "How often each process is driven at most, 0 to 99999",
        )),
        Argument::Scripts => many(required(
            alloc,
            "SCRIPT",
            "The files of the scripts, one for each session",
        )),
        Argument::Process => numbered(required(alloc, "P", "The process, 1 to 999999")),
        Argument::AnyProcess => number(
            alloc,
            "P",
            "The process whose step it is, 1 to 999999; left out: the whole run",
        ),
        Argument::Step => number(
            alloc,
            "K",
            "Which of its standing steps, 1 to 999999; left out: its last one",
        ),
        Argument::Seats => seats(alloc),
        Argument::Journal => required(
            alloc,
            "JOURNAL",
            "The file of the journal, one entry a line: its seat, and its command",
        ),
        Argument::Goal => required(
            alloc,
            "GOAL",
            "differ, all, stuck:R or decides:P:V: what has to hold",
        ),
        Argument::Seed => numbered(required(
            alloc,
            "SEED",
            "What the walks depend on, 1 to 999999",
        )),
        Argument::Walks => numbered(required(
            alloc,
            "WALKS",
            "How many walks there are at most, 1 to 999999",
        )),
        Argument::First => required(
            alloc,
            "FIRST",
            "The file of the script that leaves the first run",
        ),
        Argument::Second => required(
            alloc,
            "SECOND",
            "The file of the script that leaves the second run",
        ),
        Argument::Kept => option(
            alloc,
            "FILE",
            "journal",
            "A file in which the journal is kept while the sessions go on; it has to be new or empty",
        ),
        Argument::From => option(
            alloc,
            "JOURNAL",
            "from",
            "The file of a journal that the sessions go on from: its commands are carried out first",
        ),
        Argument::Page => option(
            alloc,
            "PAGE",
            "page",
            "A file for a page of the run, which a browser shows again after each change; it has to be new or empty",
        ),
        Argument::Columns => counted(option(
            alloc,
            "N",
            "rows",
            "How many events stand in a row, 0 to 99999, where 0 is one row for all; left out: 20",
        )),
        Argument::Frames => option(
            alloc,
            "FOLDER",
            "frames",
            "A folder for one picture after each command that changed the run; it has to be new or empty",
        ),
    }
}

/// A command with no arguments yet.
fn bare<'a>(alloc: Global, name: &'a str, about: &'a str, after: &'a str) -> Command<'a>
    ensures app { app_of result ≡ new_app name.entry.now }
    ensures local { (out-Command result).has_globals ≡ false }
{
    Command::new(alloc, name).about(about).after_help(after)
}

/// The subcommand with its arguments.
#[tactic(auto, using(std::proofs::lemmas::List::Sums::fold_more))]
fn command_of<'a>(alloc: Global, subcommand: &Subcommand) -> Result<Command<'a>, AllocError>
    ensures app { IfOk result (λ command. app_of command ≡ app_named subcommand.now) }
    ensures local { IfOk result (λ command. (out-Command command).has_globals ≡ false) }
{
    let mut command = bare(alloc, subcommand.name(), subcommand.about(), SETUPS);
    for argument in subcommand.arguments() {
        command = command.arg(argument_of(alloc, argument))?;
    }
    Ok(command)
}

/// The program without its subcommands.
fn bare_program<'a>(alloc: Global) -> Command<'a>
    ensures { app_of result ≡ bare_program }
{
    bare(alloc, "revdbg", ABOUT, COMMANDS)
        .version(VERSION)
        .disable_help_subcommand(true)
}

/// The command with one more subcommand.
fn with_subcommand<'a>(
    alloc: Global,
    command: Command<'a>,
    subcommand: &Subcommand,
) -> Result<Command<'a>, AllocError>
    ensures { IfOk result
        (λ r. app_of r ≡ with_named (app_of command.entry) subcommand.now) }
{
    command.subcommand(command_of(alloc, subcommand)?)
}

/// The program with its subcommands.
#[tactic(auto, unfolding(crate::specs::CommandLine::program))]
pub(crate) fn program<'a>(alloc: Global) -> Result<Command<'a>, AllocError>
    ensures { IfOk result (λ command. app_of command ≡ program) }
{
    let mut command = bare_program(alloc);
    for subcommand in &Subcommand::ALL {
        command = with_subcommand(alloc, command, subcommand)?;
    }
    Ok(command)
}
