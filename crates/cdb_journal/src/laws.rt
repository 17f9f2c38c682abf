//! Laws of journals. Each function does nothing: its contract is the law.

ghost use Rattle.cdb_journal.specs.Laws.{IsReadBack, IsRepliedAgain, ForWritten, RepliesToEachSeat};

/// A journal that was written is read back, and as no other; and replayed, with 64 seats, it tells each entry's seat
/// the reply that it had, whatever the number of seats was.
pub fn journals_are_replayed()
    ensures read_back { ForWritten IsReadBack }
    ensures replied_again { ForWritten IsRepliedAgain }
{}

/// Among what a journal tells its seats, the replies of each seat are those to the commands of the seat, in order.
pub fn each_seat_gets_its_replies()
    ensures { RepliesToEachSeat }
{}
