ghost use Rattle.std.specs.Prelude.{◌≡◌, MatchOption};
ghost use Rattle.couch_json.specs.Range.{IsInRange};

use std::marker::Model;

/// A whole number from -2^63 to 2^64 - 1: the numbers that this store keeps.
#[derive(Clone, Copy, Debug, PartialEq, Eq)]
pub struct Number {
    /// Whether the number is below zero.
    below_zero: bool,
    /// The number, or how far it stands below -1.
    distance: u64,
}

impl Model for Number {
    ghost use Rattle.std.specs.Prelude.{ℤ};

    ghost Value = { ℤ };

    ghost use Rattle.couch_json.specs.KeptNumber.{kept, spread, IsKept, spread-kept};

    ghost view = { kept };

    ghost invariant = { IsKept };

    ghost inverse = { spread };

    ghost inverse_ok = { spread-kept };
}

impl Number {
    /// Makes the number, or `None` if and only if it lies outside of -2^63 to 2^64 - 1.
    pub fn new(value: i128) -> Option<Number>
        ensures { MatchOption result (¬ IsInRange value) (λ n. IsInRange value × (n ≡ value)) }
    {
        if value < i64::MIN as i128 || value > u64::MAX as i128 {
            return None;
        }
        if value < 0 {
            return Some(Number {
                below_zero: true,
                distance: (-1 - value) as u64,
            });
        }
        Some(Number {
            below_zero: false,
            distance: value as u64,
        })
    }

    /// Returns the number as an integer, from -2^63 to 2^64 - 1.
    pub fn value(&self) -> i128
        ensures number { result ≡ self.now }
        ensures in_range { IsInRange result }
    {
        let distance = i128::from(self.distance);
        if self.below_zero {
            -1 - distance
        } else {
            distance
        }
    }
}

impl From<i64> for Number {
    ghost from_gives = { λ whole number. number ≡ whole };

    fn from(whole: i64) -> Number {
        if whole < 0 {
            return Number {
                below_zero: true,
                distance: (-1 - whole) as u64,
            };
        }
        Number {
            below_zero: false,
            distance: whole as u64,
        }
    }
}

impl From<u64> for Number {
    ghost use Rattle.std.specs.Prelude.{pos};

    ghost from_gives = { λ whole number. number ≡ pos whole };

    fn from(whole: u64) -> Number {
        Number {
            below_zero: false,
            distance: whole,
        }
    }
}
