//! Which copies the look for a pending one passes over.

ghost use Rattle.std.specs.Prelude.{◌≡◌, ℕ, ◌<◌, ◌≤◌};
ghost use Rattle.cdb_message.specs.Passed.{stretch_of, SetsStretch, IsPassed, LeavesOut, RaisesWatermark, place};

use cdb_base::Proc;

/// Numbers of messages: those up to the watermark, and those above the one and up to the other.
#[derive(Clone, Copy)]
struct Stretch {
    watermark: u16,
    low: u16,
    top: u16,
}

/// For each receiver and sender copies that need not be looked at: those up to its watermark, and a stretch of others,
/// above one number and up to another. A copy that is taken back leaves those behind it in the stretch, so that they
/// are not looked at again when it comes again.
#[derive(Drop)]
pub struct Passed {
    stretches: [Stretch; 81],
}

/// Where the stretch of receiver `p` and sender `s` stands.
fn place(p: Proc, s: Proc) -> usize
    ensures value { result ≡ place p s }
    ensures within { result < 81 }
    ensures from_one { (1 ≤ p) × (1 ≤ s) × (s ≤ 9) }
{
    p.index() * 9 + s.index()
}

impl Passed {
    /// No copy.
    pub fn new() -> Self
        ensures { (p s m : ℕ) → 1 ≤ m → IsPassed result p s m → ⊥ }
    {
        let none = Stretch {
            watermark: 0,
            low: 0,
            top: 0,
        };
        Passed {
            stretches: [none; 81],
        }
    }

    fn get(&self, p: Proc, s: Proc) -> Stretch
        ensures { result ≡ stretch_of self.now p s }
    {
        self.stretches[place(p, s)]
    }

    fn set(&mut self, p: Proc, s: Proc, stretch: Stretch)
        ensures { SetsStretch self.old self.new p s stretch }
    {
        self.stretches[place(p, s)] = stretch;
    }

    /// The watermark of receiver `p` and sender `s`.
    pub fn watermark(&self, p: Proc, s: Proc) -> u16
        ensures { (m : ℕ) → m ≤ result → IsPassed self.now p s m }
    {
        self.get(p, s).watermark
    }

    /// The number, or the end of the stretch of receiver `p` and sender `s` where that goes on behind the number.
    pub fn behind(&self, p: Proc, s: Proc, number: u16) -> u16
        ensures from { number ≤ result }
        ensures passed { (m : ℕ) → number < m → m ≤ result → IsPassed self.now p s m }
    {
        let stretch = self.get(p, s);
        if stretch.low <= number && number < stretch.top {
            return stretch.top;
        }
        number
    }

    /// Puts the watermark of receiver `p` and sender `s` at that number.
    pub fn set_watermark(&mut self, p: Proc, s: Proc, number: u16)
        ensures { RaisesWatermark self.old self.new p s number }
    {
        let mut stretch = self.get(p, s);
        stretch.watermark = number;
        self.set(p, s, stretch);
    }

    /// Leaves out the copy for `p` of the message of `s` with that number.
    pub fn leave_out(&mut self, p: Proc, s: Proc, number: u16)
        ensures { LeavesOut self.old self.new p s number }
    {
        let below = number.saturating_sub(1);
        let mut stretch = self.get(p, s);
        if stretch.watermark < number {
            stretch.top = stretch.top.min(below);
        } else {
            stretch.low = number;
            stretch.top = stretch.watermark;
            stretch.watermark = below;
        }
        self.set(p, s, stretch);
    }
}
