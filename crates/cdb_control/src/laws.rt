//! Laws of the table of the commands and of journals. Each function does nothing: its contract is the law.
ghost use Rattle.std.specs.Prelude.{◌≡◌, ◌≤◌, ℕ};
ghost use Rattle.cdb_base.specs.declared.act.Act.{Act};
ghost use Rattle.cdb_commands.specs.declared.command.Command.{Command};
ghost use Rattle.cdb_commands.specs.declared.command.Stop.{Stop};
ghost use Rattle.cdb_commands.specs.declared.command.Command.TheVariants.{Step, Auto, Forget};
ghost use Rattle.cdb_control.specs.Commands.{ActsOnNoRun, HasPause, reply_of, obey};
ghost use Rattle.cdb_control.specs.Headline.{Headline};
ghost use Rattle.cdb_control.specs.Journal.{replies_in};
ghost use Rattle.cdb_control.specs.Laws.{followed_by, AddsReply, KeepsRun, UsesNextNumber, ForCommands};
ghost use Rattle.cdb_control.specs.Laws.{ForRefused, ForOtherSeats, ForSeats, ForOthers, ForJournals, InReplayed};
ghost use Rattle.cdb_control.specs.State.{State, redo_of};
ghost use Rattle.cdb_control.specs.Stops.{AreBelow};
ghost use Rattle.cdb_rules.specs.Rules.{Rules};

use cdb_rules::Runs;

/// A refused command changes nothing.
#[tactic(auto)]
pub fn refused_changes_nothing()
    ensures { ForRefused (λ rules t seat command. obey rules t seat command ≡ t) }
{}

/// A command leaves the redo lists of the other seats alone.
#[tactic(auto, using(crate::proofs::Refused::other_lists_stay))]
pub fn other_lists_stay()
    ensures { ForOtherSeats (λ rules t seat command other.
        redo_of (obey rules t seat command) other ≡ redo_of t other) }
{}

/// No number of a breakpoint is used again: a breakpoint gets the next number, which never falls and is above those of
/// all that stand.
#[tactic(auto)]
pub fn numbers_are_used_once()
    ensures next { (rules : Rules) (t : State) (seat : ℕ) (stop : Stop) →
        UsesNextNumber rules t seat stop }
    ensures rise { ForCommands (λ rules t seat command. t.next ≤ (obey rules t seat command).next) }
    ensures above { InReplayed (λ rules t. AreBelow t.next t.stops) }
{}

/// A command that acts on no run leaves the history and all redo lists alone, and `forget` the history.
#[tactic(auto, using(crate::proofs::Refused::looks_keep_the_run, crate::proofs::Refused::forget_keeps_the_history))]
pub fn looks_leave_the_run()
    ensures looks { ForCommands (λ rules t seat command. ActsOnNoRun command →
        KeepsRun t (obey rules t seat command)) }
    ensures forget { (rules : Rules) (t : State) (seat : ℕ) →
        (obey rules t seat Forget).history ≡ t.history }
{}

/// A step sets a pause by the least breakpoint that it fires, and by none where it fires none or a pause stands.
#[tactic(auto)]
pub fn least_fired()
    ensures by_step { InReplayed (λ rules t. (seat p : ℕ) (act : Act) →
        HasPause rules t p (reply_of rules t seat (Step p act))) }
    ensures by_auto { InReplayed (λ rules t. (seat p : ℕ) →
        HasPause rules t p (reply_of rules t seat (Auto p))) }
{}

/// One command more of a seat adds its reply to the seat's replies.
#[tactic(auto)]
pub fn own_command_adds_its_reply()
    ensures { ForSeats (λ rules c seat. (command : Command) → AddsReply rules c seat command) }
{}

/// What others did adds no reply of a seat.
#[tactic(auto)]
pub fn others_add_no_reply()
    ensures { ForOthers (λ rules c seat more.
        replies_in rules seat (followed_by c more) ≡ replies_in rules seat c) }
{}

/// The headline holds of every journal of commands of seats that there are, by the rules of any run.
pub fn headline<R: Runs>()
    ensures { ForJournals (λ setup seats journal.
        Headline R.rules R.same_state setup seats journal) }
{}
