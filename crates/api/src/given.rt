//! What the value of a parameter is read as.

ghost use Rattle.std.specs.Prelude.{◌≡◌, MatchOption, None, Some, if◌then◌else◌, option_map, unwrap_or};
ghost use Rattle.api.specs.Queried.{given_of, value_in};

/// What a parameter gives.
#[derive(Drop)]
pub(crate) enum Given<T> {
    /// Nothing: there is no such parameter.
    Absent,
    /// A value of another form, or more than one value.
    Malformed,
    /// This value.
    Value(T),
}

impl<T> Given<T> {
    /// Returns what a parameter gives whose value was read; `None` where it could not be read.
    pub(crate) fn read(value: Option<T>) -> Given<T>
        ensures { given_of result ≡ option_map (λ a. Some a) value }
    {
        match value {
            Some(value) => Given::Value(value),
            None => Given::Malformed,
        }
    }

    /// Tells whether it is malformed. If not, [`Given::value`] has all that it gives.
    pub(crate) fn is_malformed(&self) -> bool
        ensures { given_of self.now ≡ if result then None else Some (value_in self.now) }
    {
        match self {
            Given::Malformed => true,
            Given::Absent | Given::Value(_) => false,
        }
    }

    /// Returns the value, if it is one.
    pub(crate) fn value(self) -> Option<T>
        ensures { result ≡ value_in self }
    {
        match self {
            Given::Value(value) => Some(value),
            Given::Absent | Given::Malformed => None,
        }
    }
}

impl<T: Drop> Given<T> {
    /// Returns the value, or this one where there is none; `None` where it is malformed.
    pub(crate) fn value_or(self, default: T) -> Option<T>
        ensures { MatchOption result (given_of self ≡ None)
            (λ value. (given_of self ≡ Some (value_in self)) × (value ≡ unwrap_or (value_in self) default)) }
    {
        match self {
            Given::Absent => Some(default),
            Given::Malformed => None,
            Given::Value(value) => Some(value),
        }
    }
}
