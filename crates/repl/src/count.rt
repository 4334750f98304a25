ghost use Rattle.std.specs.Prelude.{◌≡◌, ◌<◌, ◌^◌, ◌+◌, min, nat_le, nat_lt, if◌then◌else◌, pos, option_map};
ghost use Rattle.couch_json.specs.Value.{whole};
ghost use Rattle.couch_json.specs.View.{view};
ghost use Rattle.couch_json.specs.Range.{greatest_count};
ghost use Rattle.repl.specs.Shapes.{count_in_value, count_of};

use couch_json::{Json, Number};

/// A number of things, or a sequence: whole, from 0 to 2^63 - 1.
#[derive(Clone, Copy)]
pub struct Count {
    value: u64,
    ghost in_range: { value < 2 ^ 63 },
}

impl Count {
    /// The least count.
    pub const ZERO: Count = Count { value: 0 };

    /// Reads a count, where the value is one.
    pub fn read(value: &Json) -> Option<Count>
        ensures { option_map (λ c. c.value) result ≡ count_in_value (view value.now) }
    {
        match value {
            Json::Whole(number) => Count::of(*number),
            _ => None,
        }
    }

    /// Returns the count that a number is, if it is one.
    fn of(number: Number) -> Option<Count>
        ensures { option_map (λ c. c.value) result ≡ count_of number }
    {
        match u64::try_from(number.value()) {
            Ok(value) if value <= 9_223_372_036_854_775_807 => Some(Count { value }),
            _ => None,
        }
    }

    /// Returns the number.
    pub fn value(&self) -> u64
        ensures { result ≡ self.now.value }
    {
        self.value
    }

    /// Returns the smaller of two counts.
    pub fn smaller(self, other: Count) -> Count
        ensures { result.value ≡ min self.value other.value }
    {
        Count {
            value: self.value.min(other.value),
        }
    }

    /// Adds a number; at the greatest count it stays there.
    pub fn plus(self, more: usize) -> Count
        ensures { result.value ≡ min (self.value + more) greatest_count }
    {
        let value = self.value.saturating_add(more as u64);
        Count {
            value: value.min(9_223_372_036_854_775_807),
        }
    }

    /// Makes the JSON value of the count.
    pub fn to_json(self) -> Json
        ensures { view result ≡ whole (pos self.value) }
    {
        Json::Whole(Number::from(self.value as i64))
    }
}
