//! Words that are read while memory is refused. What further words ask for and how they are refused, the calls of
//! tools/statuses show.

use cdb_arguments::{ask_status, asked};
use cdb_base::Request;

/// The turns of the race that the words ask for, or the status where they ask for none.
fn count_of(rt: &impl AllocGlobal, words: &[&str]) -> Result<u32, u8> {
    match asked(rt.alloc(), words) {
        Ok(Request::Race { turns, .. }) => Ok(turns),
        Ok(_) => Err(0),
        Err(fault) => Err(ask_status(&fault)),
    }
}

/// Out of memory: the status says so, and the same words, read again, ask for what they ask or are refused. To see it,
/// let each allocation of this test fail in turn.
#[test]
fn words_without_memory(rt: HostRuntime) {
    let rows = [("99999", Ok(99_999)), ("-1", Err(2))];
    for (word, expected) in rows {
        let words = ["revdbg", "race", "a", word, "b", "c"];
        let mut turns = count_of(&rt, &words);
        if turns == Err(6) {
            turns = count_of(&rt, &words);
        }
        assert_eq!(rt; turns, expected, "{word}");
    }
}
