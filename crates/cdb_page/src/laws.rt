//! Where the entries of a page lead. Each function does nothing: its contract is the law.

ghost use Rattle.std.specs.Prelude.{◌≡◌, ◌↔◌, ℕ, List, Some, IsTrue};
ghost use Rattle.cdb_base.specs.Positions.{nth};
ghost use Rattle.cdb_base.specs.declared.event.Event.{Event};
ghost use Rattle.cdb_causal.specs.Dependence.{depends};
ghost use Rattle.cdb_causal.specs.Past.{HasLedTo};
ghost use Rattle.cdb_causal.specs.Rollback.{IsRolledBack};
ghost use Rattle.cdb_page.specs.Entries.{AreEntries, Entry};
ghost use Rattle.cdb_page.specs.Followed.{AnswersUndo, IsReached, IsTraced, IsTrailOfRun};
ghost use Rattle.cdb_page.specs.Followed.{IsTrailOfValue, its_causes, its_dependents};
ghost use Rattle.cdb_rules.specs.ByRules.{IsInOrder};
ghost use Rattle.cdb_rules.specs.RunView.{RunView};
ghost use Rattle.cdb_setup.specs.Parts.{AreInRange};

use cdb_rules::Runs;

/// The causes of an event, theirs and so on are exactly what has led to it, as `explain` has it.
pub fn causes_lead_to_all_of_the_past()
    ensures { (run : RunView) (entries : List Entry) → AreEntries run entries → (at other : ℕ) →
        IsReached its_causes entries at other ↔ HasLedTo depends run.history at other }
{}

/// The dependents of an event, theirs and so on are exactly what rollback removes with it.
pub fn dependents_lead_to_all_consequences()
    ensures { (run : RunView) (entries : List Entry) → AreEntries run entries → (at other : ℕ) →
        IsReached its_dependents entries at other ↔ IsRolledBack depends run.history at other }
{}

/// Origins lead back along a trail, and along each trail of a value.
pub fn origins_lead_along_trails()
    ensures sound { (run : RunView) (entries : List Entry) → AreEntries run entries → (q at : ℕ) (trail : List ℕ) →
        IsTraced entries q at trail → IsTrailOfRun run q at trail }
    ensures whole { (run : RunView) (entries : List Entry) → AreEntries run entries → (q v at : ℕ) (trail : List ℕ) →
        IsTrailOfValue run q v at trail → IsTraced entries q at trail }
{}

/// The event that an entry says is needed first is the one for which undo is refused, by the rules of any run; where it
/// says none undo is granted.
pub fn needed_answers_undo<T: Runs>()
    ensures { (run : RunView) → AreInRange run.setup → IsInOrder T.rules run
        → (entries : List Entry) → AreEntries run entries →
        (at : ℕ) (entry : Entry) (event : Event) → nth entries at ≡ Some entry → nth run.history at ≡ Some event →
        AnswersUndo run event entry.needed }
{}
