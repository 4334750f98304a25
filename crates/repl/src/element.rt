//! Lists whose elements are all of one shape.

ghost use Rattle.std.specs.Prelude.{◌≡◌, Option, IfOk, map, option_map};
ghost use Rattle.couch_json.specs.Value.{Value};
ghost use Rattle.couch_json.specs.View.{items_view, view};
ghost use Rattle.repl.specs.Shapes.{each_in};

use couch_json::{Got, Json};
use std::alloc::Global;

/// A shape that elements of a list have.
pub trait Shape {
    /// What is made of an element.
    type Element: Drop;

    /// What an element says, in the words of the definitions.
    ghost Said: { Type 0 };

    /// What is made of an element, in these words.
    ghost said: { Self.Element → Said };

    /// What a value says, if it is of this shape.
    ghost said_in: { Value → Option Said };

    /// Reads an element, if the value is of this shape.
    fn read(alloc: Global, value: &Json) -> Got<Option<Self::Element>>
        ensures { IfOk result (λ element. option_map said element ≡ said_in (view value.now)) };
}

/// Reads elements in order, if each value is of the shape.
pub fn read_each<S: Shape>(alloc: Global, values: &[Json]) -> Got<Option<Vec<S::Element>>>
    ensures { IfOk result (λ elements. option_map (λ es. map S.said es.items) elements ≡ each_in S.said_in (items_view values.now)) }
{
    let mut elements = Vec::with_capacity(alloc, values.len())?;
    for value in values {
        match S::read(alloc, value)? {
            Some(element) => elements.push(element)?,
            None => return Ok(None),
        }
    }
    Ok(Some(elements))
}
