//! The laws of commands, journals and lines, and journals worked out by the table of the commands.

ghost use Rattle.std.specs.Prelude.{◌≡◌, [], ◌∷◌, None};
ghost use Rattle.cdb_base.specs.declared.refusal.Refusal.TheVariants.{NothingToRedo};
ghost use Rattle.cdb_commands.specs.ReplyView.{Undone, Redone, RolledBack, History, Decisions, Refused};
ghost use Rattle.run_tests.specs.WorkedJournals.{replies, query, send, plain_step, needed_by};
ghost use Rattle.run_tests.specs.WorkedJournals.{undone_and_redone, rolled_back_and_redone};

use cdb_any_run::AnyRun;
use cdb_control::laws;
use cdb_text::laws as lines;

/// By the table of the commands: what one seat undoes or rolls back it takes again, whatever the other
/// seat asks in between.
fn worked_journals()
    ensures undone_for_2 { replies 2 undone_and_redone
        ≡ Undone query ∷ Redone query None ∷ [] }
    ensures undone_for_1 { replies 1 undone_and_redone
        ≡ plain_step query ∷ Refused NothingToRedo ∷ [] }
    ensures rolled_back_for_2 { replies 2 rolled_back_and_redone
        ≡ RolledBack 2 ∷ Redone query None ∷ Redone send None ∷ [] }
    ensures rolled_back_for_1 { replies 1 rolled_back_and_redone
        ≡ plain_step query ∷ plain_step send ∷ Decisions [] ∷ needed_by send
        ∷ History (query ∷ send ∷ []) ∷ [] }
{}

/// Each law holds of the runs of every setup.
#[test]
fn laws_of_commands_and_lines() {
    laws::refused_changes_nothing();
    laws::other_lists_stay();
    laws::numbers_are_used_once();
    laws::looks_leave_the_run();
    laws::own_command_adds_its_reply();
    laws::others_add_no_reply();
    laws::headline::<AnyRun>();
    worked_journals();
    lines::each_command_has_one_line();
}
