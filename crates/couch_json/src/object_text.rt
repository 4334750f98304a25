use crate::joining::{join_texts, key_text};
use crate::json_text::JsonText;
use crate::no_memory::Got;
use std::alloc::Global;
use std::marker::Model;

/// The text of an object, to which members come one by one. Clauses see the members so far.
#[derive(Debug)]
pub struct ObjectText {
    text: String,
    is_empty: bool,
}

// Written out, so that callers do not prove again how each part is dropped.
impl Drop for ObjectText {
    fn drop(self) {
        let ObjectText {
            text: _,
            is_empty: _,
        } = self;
    }
}

impl Model for ObjectText {
    ghost use Rattle.std.specs.Prelude.{string_bytes};
    ghost use Rattle.couch_json.specs.Code.{members_code};
    ghost use Rattle.couch_json.specs.Said.{BeginsObject, members_said};
    ghost use Rattle.couch_json.specs.Value.{Members};

    ghost Value = { Members };

    ghost coded = { members_code };

    ghost view = { λ t. members_said (string_bytes t.text) };

    ghost invariant = { λ t. BeginsObject (string_bytes t.text) t.is_empty (members_said (string_bytes t.text)) };
}

impl ObjectText {
    ghost use Rattle.std.specs.Prelude.{◌≡◌, IfOk};
    ghost use Rattle.couch_json.specs.Said.{IsBehind, with_last};
    ghost use Rattle.couch_json.specs.Value.{no_members, object};

    /// Begins an object.
    pub fn new(alloc: Global) -> Got<ObjectText>
        ensures { IfOk result (λ object. object ≡ no_members) }
    {
        let text = String::from_str(alloc, "{")?;
        Ok(ObjectText {
            text,
            is_empty: true,
        })
    }

    /// Writes one more member, whose name is greater than those before it. The longer of the two texts
    /// is not copied.
    pub fn with(self, alloc: Global, name: &str, value: JsonText) -> Got<ObjectText>
        requires { IsBehind name.now self }
        ensures { IfOk result (λ object. object ≡ with_last self name.now value) }
    {
        let ObjectText {
            text: mut front,
            is_empty,
        } = self;
        let key = key_text(alloc, name, is_empty)?;
        front.push_str(key.as_str())?;
        let text = join_texts(front, value.into_string())?;
        Ok(ObjectText {
            text,
            is_empty: false,
        })
    }

    /// Ends the object.
    pub fn end(self) -> Got<JsonText>
        ensures { IfOk result (λ text. text ≡ object self) }
    {
        let ObjectText {
            mut text,
            is_empty: _,
        } = self;
        text.push_str("}")?;
        Ok(JsonText::from_string(text))
    }
}
