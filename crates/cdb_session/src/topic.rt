//! What the help can be asked about.

ghost use Rattle.std.specs.Prelude.{◌≡◌};
ghost use Rattle.cdb_session.specs.Topics.{topic_word, topic_of};

use self::Topic::*;

/// A word that may begin a line.
#[derive(Clone, Copy, PartialEq, Eq)]
pub enum Topic {
    Step,
    Auto,
    Lose,
    Undo,
    Redo,
    Forget,
    Rollback,
    Why,
    Break,
    Unbreak,
    Resume,
    Show,
    Decisions,
    Explain,
    Trail,
    Draw,
    Watch,
    Unwatch,
    Help,
    Quit,
    Seat,
}

/// The words that may begin a line, each at the place of its topic.
pub(crate) const FIRST: [&[u8]; 21] = [
    b"step",
    b"auto",
    b"lose",
    b"undo",
    b"redo",
    b"forget",
    b"rollback",
    b"why",
    b"break",
    b"unbreak",
    b"resume",
    b"show",
    b"decisions",
    b"explain",
    b"trail",
    b"draw",
    b"watch",
    b"unwatch",
    b"help",
    b"quit",
    b"seat",
];

impl Topic {
    /// Each of them.
    const ALL: [Topic; 21] = [
        Step, Auto, Lose, Undo, Redo, Forget, Rollback, Why, Break, Unbreak, Resume, Show,
        Decisions, Explain, Trail, Draw, Watch, Unwatch, Help, Quit, Seat,
    ];

    /// The bytes of the word.
    pub fn word(self) -> &'static [u8]
        ensures { result.now ≡ topic_word self }
    {
        FIRST[self as usize]
    }

    /// The one that this word is, if it is one.
    #[tactic(auto, unfolding(crate::specs::Topics::topic_of))]
    pub fn of(word: &[u8]) -> Option<Topic>
        ensures { result ≡ topic_of word.now }
    {
        Topic::ALL
            .iter()
            .copied()
            .find(|topic| word == topic.word())
    }
}
