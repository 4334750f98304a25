use couch_json::{Got, Json};
use std::alloc::Global;
use std::marker::Model;

/// The body of a document: a JSON value, which clauses see as the pure value.
pub struct Body {
    json: Json,
}

// Written out, so that callers do not prove again how each part is dropped.
impl Drop for Body {
    fn drop(self) {
        let Body { json: _ } = self;
    }
}

impl Model for Body {
    ghost use Rattle.couch_json.specs.Value.{Value as JsonValue};
    ghost use Rattle.couch_json.specs.Code.{value_code};

    ghost Value = { JsonValue };

    ghost coded = { value_code };

    ghost use Rattle.couch_json.specs.View.{view as value_of};

    ghost view = { λ b. value_of b.json };
}

impl Body {
    ghost use Rattle.std.specs.Prelude.{◌≡◌, IfOk};
    ghost use Rattle.couch_json.specs.View.{view};

    /// Makes the body that a JSON value is.
    pub fn new(json: Json) -> Body
        ensures { result ≡ view json }
    {
        Body { json }
    }

    /// Returns the JSON value.
    pub fn json(&self) -> &Json
        ensures { view result.now ≡ self.now }
    {
        &self.json
    }

    /// Returns the JSON value, taken out.
    pub fn into_json(self) -> Json
        ensures { view result ≡ self }
    {
        let Body { json } = self;
        json
    }

    /// Makes an equal body of its own.
    pub fn copy(&self, alloc: Global) -> Got<Body>
        ensures { IfOk result (λ b. b ≡ self.now) }
    {
        let json = self.json.copy(alloc)?;
        Ok(Body { json })
    }
}
