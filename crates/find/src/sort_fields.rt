ghost use Rattle.std.specs.Prelude.{◌≡◌, ℕ, List};
ghost use Rattle.std.specs.Coded.{coded_list, coded_ℕ};

use couch_json::FieldPath;
use std::marker::Model;

/// The fields that a find sorts by, the first of them first.
#[derive(Drop)]
pub struct SortFields {
    fields: Vec<FieldPath>,
}

impl Model for SortFields {
    ghost Value = { List (List ℕ) };

    ghost coded = { coded_list (coded_list coded_ℕ) };

    ghost view = { λ s. s.fields.items };
}

impl SortFields {
    /// Makes the order by these fields.
    pub fn new(fields: Vec<FieldPath>) -> SortFields
        ensures { result ≡ fields.items }
    {
        SortFields { fields }
    }

    /// Returns the fields.
    pub fn as_slice(&self) -> &[FieldPath]
        ensures { result.now ≡ self.now }
    {
        self.fields.as_slice()
    }
}
