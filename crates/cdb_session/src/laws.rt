//! Laws of sessions. Each function does nothing: its contract is the law.

ghost use Rattle.cdb_session.specs.Laws.{ExactLinesStand, SoundLinesAreTaken};

/// A line of a command, and each line that a session takes beside commands, stands for itself: whoever types lines as
/// they are in a script gets what the script gets.
#[tactic(auto, using(crate::proofs::ExactLines::exact_lines_stand))]
pub fn exact_lines_stand_for_themselves()
    ensures { ExactLinesStand }
{}

/// A line in which nothing is amiss is one that a session takes. So of each line that it does not take it is said what
/// is due.
#[tactic(auto, using(crate::proofs::SoundLines::sound_lines_are_taken))]
pub fn sound_lines_are_taken()
    ensures { SoundLinesAreTaken }
{}
