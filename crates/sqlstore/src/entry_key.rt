//! The key of an entry of an index.

use std::marker::Model;

/// The bytes of a key.
pub(crate) struct EntryKey {
    /// The bytes.
    pub(crate) bytes: Vec<u8>,
}

impl Drop for EntryKey {
    fn drop(self) {
        let EntryKey { bytes: _ } = self;
    }
}

impl Model for EntryKey {
    ghost use Rattle.std.specs.Prelude.{List, ℕ};
    ghost use Rattle.std.specs.Coded.{coded_list, coded_ℕ};

    ghost Value = { List ℕ };

    ghost coded = { coded_list coded_ℕ };

    ghost view = { λ k. k.bytes.items };
}
