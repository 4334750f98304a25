use crate::no_memory::Got;
use crate::value::Json;
use crate::writing::canon;
use std::alloc::Global;
use std::marker::Model;

/// A JSON value that is held as its canonical text. Clauses see the value.
#[derive(Debug)]
pub struct JsonText {
    text: String,
}

// Written out, so that callers do not prove again how each part is dropped.
impl Drop for JsonText {
    fn drop(self) {
        let JsonText { text: _ } = self;
    }
}

impl Model for JsonText {
    ghost use Rattle.std.specs.Prelude.{string_bytes};
    ghost use Rattle.couch_json.specs.Code.{value_code};
    ghost use Rattle.couch_json.specs.Said.{IsText, value_said};
    ghost use Rattle.couch_json.specs.Value.{Value as JsonValue};

    ghost Value = { JsonValue };

    ghost coded = { value_code };

    ghost view = { λ t. value_said (string_bytes t.text) };

    ghost invariant = { λ t. IsText (string_bytes t.text) };
}

impl JsonText {
    ghost use Rattle.std.specs.Prelude.{◌≡◌, IfOk, string_bytes};
    ghost use Rattle.couch_json.specs.Canonical.{canonical};
    ghost use Rattle.couch_json.specs.Lawful.{IsLawful};
    ghost use Rattle.couch_json.specs.Said.{IsText, value_said};
    ghost use Rattle.couch_json.specs.View.{view};

    /// Writes the canonical text of a value.
    pub fn of(alloc: Global, value: &Json) -> Got<JsonText>
        ensures { IfOk result (λ text. text ≡ view value.now) }
    {
        let text = canon(alloc, value)?;
        Ok(JsonText { text })
    }

    /// Takes a text that is known to be a value's.
    pub(crate) fn from_string(text: String) -> JsonText
        requires { IsText (string_bytes text) }
        ensures { result ≡ value_said (string_bytes text) }
    {
        JsonText { text }
    }

    /// Gives up the text.
    pub fn into_string(self) -> String
        ensures text { string_bytes result ≡ canonical self }
        ensures lawful { IsLawful self }
    {
        let JsonText { text } = self;
        text
    }
}
