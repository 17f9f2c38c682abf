//! Choices at random.

ghost use Rattle.std.specs.Prelude.{◌<◌};

use rand_core::Rng;

/// A number from 0 to below the bound.
pub(crate) fn below<G: Rng>(random: &mut G, bound: usize) -> usize
    requires { 0 < bound }
    ensures { result < bound }
{
    (random.next_u64() % bound as u64) as usize
}

/// Once in so many times.
pub(crate) fn one_in<G: Rng>(random: &mut G, times: usize) -> bool
    requires { 0 < times }
{
    below(random, times) == 0
}
