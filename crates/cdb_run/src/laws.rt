//! What holds of the records of a run. The function does nothing: its contract is the law.

ghost use Rattle.cdb_run.specs.Recorded.{OfRecorded, OfFreeRecorded, MayComeLast};
ghost use Rattle.cdb_rules.specs.State.{Machine};

/// Recorded events lead to a state. Where one of them is free, the others, each with the record that
/// it has, lead to a state from which that one, with its record, leads to the end.
pub fn undo_with_records<L, B>()
    ensures { OfRecorded (λ (machine : Machine L) (before : L → B → L) from records to.
        OfFreeRecorded records (λ at it. MayComeLast machine before from records at it to)) }
{}
