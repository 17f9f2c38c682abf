//! Values that are proposed and decided.

ghost use Rattle.std.specs.Prelude.{◌≡◌, ℕ, ◌≤◌, ◌↔◌, IsSome, IfSome};

use crate::limits::MAX_VALUE;
use std::marker::Model;

/// A value that processes propose and decide, from 0 to 999,999. A contract sees the number.
#[derive(Clone, Copy, Debug, PartialEq, Eq)]
pub struct Val(u32);

impl Model for Val {
    ghost use Rattle.std.specs.Prelude.{ℕ, ◌≤◌};
    ghost use Rattle.cdb_base.specs.Limits.{MAX_VALUE};

    ghost Value = { ℕ };

    ghost view = { λ v. v.0 };

    ghost invariant = { λ v. v.0 ≤ MAX_VALUE };

    ghost inverse = { λ n. record { 0 = n } };
}

impl Val {
    /// The value of that number, from 0 to 999,999.
    pub fn new(number: u32) -> Self
        requires { number ≤ MAX_VALUE }
        ensures value { result ≡ number }
    {
        Val(number)
    }

    /// The value of that number, where it is in range.
    pub fn from_number(number: u64) -> Option<Self>
        ensures valid { IsSome result ↔ (number ≤ MAX_VALUE) }
        ensures value { IfSome result (λ v. v ≡ number) }
    {
        if number <= u64::from(MAX_VALUE) {
            Some(Val(number as u32))
        } else {
            None
        }
    }

    /// The number of the value, from 0 to 999,999.
    pub fn number(self) -> u32
        ensures value { result ≡ self }
        ensures in_range { result ≤ MAX_VALUE }
    {
        self.0
    }
}
