//! What clocks tell.

ghost use Rattle.std.specs.Prelude.{◌≡◌, ◌↔◌, ℕ, ◌≤◌, List, Some, length};
ghost use Rattle.cdb_base.specs.Positions.{nth};
ghost use Rattle.cdb_base.specs.declared.event.Event.{Event};
ghost use Rattle.cdb_base.specs.declared.event.Event.TheVariants.{Step};
ghost use Rattle.cdb_base.specs.declared.event.Kind.{Kind};
ghost use Rattle.cdb_causal.specs.Dependence.{depends};
ghost use Rattle.cdb_causal.specs.Past.{HasLedTo, IsSlice};
ghost use Rattle.cdb_clocks.specs.Clocks.{IsClock, IsUpTo};
ghost use Rattle.cdb_standing.specs.Comparisons.{steps_by, AreNumbered};
ghost use Rattle.cdb_standing.specs.Cuts.{cut_of as count_of};

/// A clock has of each process how many of its steps are among the events that have led to its event, where the steps
/// of the process are numbered in their order, as every history has them.
#[tactic(auto, using(crate::proofs::Counts::clock_counts))]
pub fn clock_counts_steps()
    ensures { (history : List Event) (at q : ℕ) (clock : List ℕ) (led others : List Event) →
        AreNumbered q history → IsClock history at clock → IsSlice depends history at led others →
        count_of clock q ≡ length (steps_by q led) }
{}

/// A step has led to an event exactly where its clock is at most the event's in every place.
pub fn clocks_show_what_led()
    ensures { (history : List Event) (at other p k : ℕ) (kind : Kind) (clock its : List ℕ) →
        nth history at ≡ Some (Step p k kind) → IsClock history at clock → IsClock history other its →
        HasLedTo depends history other at ↔ IsUpTo clock its }
{}
