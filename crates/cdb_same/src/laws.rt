//! What a comparison of two histories says.

ghost use Rattle.std.specs.Prelude.{◌≡◌, ◌↔◌, List};
ghost use Rattle.cdb_base.specs.declared.event.Event.{Event};
ghost use Rattle.cdb_causal.specs.Dependence.{depends};
ghost use Rattle.cdb_causal.specs.Exchange.{IsExchanged};
ghost use Rattle.cdb_causal.specs.StandingEvents.{IsStanding};
ghost use Rattle.cdb_same.specs.Comparisons.{IsComparison, Comparison, Same};

/// A comparison says that the histories are the same exactly where exchanges of independent neighbours lead from one
/// to the other: so an event that stands in one alone, and two that stand in other orders, say that none do.
#[tactic(auto, using(crate::proofs::Apart::same_exactly))]
pub fn witness_tells_apart()
    ensures { (history other : List Event) → IsStanding other → (found : Comparison) →
        IsComparison history other found → (found ≡ Same) ↔ IsExchanged depends history other }
{}
