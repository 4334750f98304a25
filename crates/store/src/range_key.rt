ghost use Rattle.std.specs.Prelude.{◌≡◌, ℕ, List, string_bytes};
ghost use Rattle.std.specs.Coded.{coded_list, coded_ℕ};

use std::marker::Model;

/// A text that a range of ids starts or ends at. Any text may be one, also one that is no id.
#[derive(Debug)]
pub struct RangeKey {
    text: String,
}

// Written out, so that callers do not prove again how each part is dropped.
impl Drop for RangeKey {
    fn drop(self) {
        let RangeKey { text: _ } = self;
    }
}

impl Model for RangeKey {
    ghost Value = { List ℕ };

    ghost coded = { coded_list coded_ℕ };

    ghost view = { λ k. string_bytes k.text };
}

impl RangeKey {
    /// Makes a key of a text.
    pub fn new(text: String) -> RangeKey
        ensures { result ≡ string_bytes text }
    {
        RangeKey { text }
    }

    /// Returns the text.
    pub fn as_str(&self) -> &str
        ensures { result.now ≡ self.now }
    {
        self.text.as_str()
    }
}
