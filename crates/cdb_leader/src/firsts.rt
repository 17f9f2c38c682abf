//! For each sender the position of its first message of a kind.

ghost use Rattle.std.specs.Prelude.{◌≡◌, ◌<◌, ◌↔◌, IsTrue, ℕ, ◌==◌, None, count_by, is_some, if◌then◌else◌};
ghost use Rattle.cdb_base.specs.Processes.{all_processes};
ghost use Rattle.cdb_leader.specs.Spot.{noted, forgotten};
ghost use Rattle.cdb_leader.specs.Index.{position_from, keeps_none, ChangesFrom};

use crate::spot::{KNOWN, Position, Spot};
use cdb_base::Proc;

/// For each sender where in an inbox its first message of one kind stands.
#[derive(Clone, Copy)]
pub struct Firsts {
    positions: [Spot; 9],
}

impl Firsts {
    /// Nothing is kept.
    #[tactic(auto, unfolding(crate::specs::Index::position_from))]
    pub(crate) fn new() -> Self
        ensures { (s : ℕ) → position_from s result ≡ None }
    {
        Firsts {
            positions: [Spot::empty(); 9],
        }
    }

    /// The position that is kept for that sender.
    #[tactic(auto, unfolding(crate::specs::Index::position_from))]
    pub(crate) fn get(&self, sender: Proc) -> Spot
        ensures { result ≡ position_from sender self.now }
    {
        self.positions[sender.index()]
    }

    /// Whether no position is kept.
    pub(crate) fn is_empty(&self) -> bool
        ensures { result ≡ keeps_none self.now }
    {
        self.positions.iter().all(|kept| !kept.is_kept())
    }

    /// For how many senders a position is kept.
    pub(crate) fn count(&self) -> usize
        ensures { result ≡ count_by (λ s. is_some (position_from s self.now)) all_processes }
    {
        Proc::all()
            .iter()
            .filter(|sender| self.get(**sender).is_kept())
            .count()
    }

    #[tactic(auto, unfolding(crate::specs::Index::position_from))]
    fn set(&mut self, sender: Proc, kept: Spot)
        ensures { ChangesFrom sender (λ _. kept) self.old self.new }
    {
        self.positions[sender.index()] = kept;
    }

    /// Keeps the position for that sender, where none is kept.
    pub(crate) fn note(&mut self, sender: Proc, position: Position)
        requires { position < KNOWN }
        ensures { ChangesFrom sender (noted position) self.old self.new }
    {
        let kept = self.get(sender);
        self.set(sender, kept.noted(position));
    }

    /// Keeps that position no longer for that sender.
    pub(crate) fn forget(&mut self, sender: Proc, position: Position)
        ensures { ChangesFrom sender (forgotten position) self.old self.new }
    {
        let kept = self.get(sender);
        self.set(sender, kept.forgotten(position));
    }
}
