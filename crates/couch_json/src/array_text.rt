use crate::joining::put_comma;
use crate::json_text::JsonText;
use crate::no_memory::Got;
use crate::value::Json;
use std::alloc::Global;
use std::marker::Model;

/// The text of an array, to which elements come one by one. Clauses see the elements so far.
#[derive(Debug)]
pub struct ArrayText {
    text: String,
    is_empty: bool,
}

// Written out, so that callers do not prove again how each part is dropped.
impl Drop for ArrayText {
    fn drop(self) {
        let ArrayText {
            text: _,
            is_empty: _,
        } = self;
    }
}

impl Model for ArrayText {
    ghost use Rattle.std.specs.Prelude.{List, string_bytes};
    ghost use Rattle.std.specs.Coded.{coded_list};
    ghost use Rattle.couch_json.specs.Code.{value_code};
    ghost use Rattle.couch_json.specs.Said.{BeginsArray, elements_said};
    ghost use Rattle.couch_json.specs.Value.{Value as JsonValue};

    ghost Value = { List JsonValue };

    ghost coded = { coded_list value_code };

    ghost view = { λ t. elements_said (string_bytes t.text) };

    ghost invariant = { λ t. BeginsArray (string_bytes t.text) t.is_empty (elements_said (string_bytes t.text)) };
}

impl ArrayText {
    ghost use Rattle.std.specs.Prelude.{◌≡◌, ◌++◌, ◌∷◌, [], IfOk, OnErr, OnOk};
    ghost use Rattle.couch_json.specs.Value.{array};
    ghost use Rattle.couch_json.specs.View.{items_of, view};

    /// Begins an array.
    pub fn new(alloc: Global) -> Got<ArrayText>
        ensures { IfOk result (λ array. array ≡ []) }
    {
        let text = String::from_str(alloc, "[")?;
        Ok(ArrayText {
            text,
            is_empty: true,
        })
    }

    /// Writes one more element. After a refusal the array is as it was.
    pub fn push(&mut self, alloc: Global, value: &Json) -> Got<()>
        ensures ok { OnOk result (self.new ≡ self.old ++ view value.now ∷ []) }
        ensures err { OnErr result (self.new ≡ self.old) }
    {
        self.push_text(JsonText::of(alloc, value)?)
    }

    /// Writes one more element, whose text there is. After a refusal the array is as it was.
    pub fn push_text(&mut self, value: JsonText) -> Got<()>
        ensures ok { OnOk result (self.new ≡ self.old ++ value ∷ []) }
        ensures err { OnErr result (self.new ≡ self.old) }
    {
        let element = put_comma(value.into_string(), self.is_empty)?;
        self.text.push_str(element.as_str())?;
        self.is_empty = false;
        Ok(())
    }

    /// Ends the array.
    pub fn end(self) -> Got<JsonText>
        ensures { IfOk result (λ text. text ≡ array (items_of self)) }
    {
        let ArrayText {
            mut text,
            is_empty: _,
        } = self;
        text.push_str("]")?;
        Ok(JsonText::from_string(text))
    }
}
