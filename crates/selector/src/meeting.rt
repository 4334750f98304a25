ghost use Rattle.std.specs.Prelude.{◌≡◌, pos};
ghost use Rattle.couch_json.specs.View.{view, items_view};
ghost use Rattle.selector.specs.Truth.{meets, has_type, has_size, has_remainder, items_length, type_name};

use crate::elements::{elements, has_all, is_among};
use crate::operator::ValueOperator;
use crate::takes::division_in;
use couch_json::{Json, Number, collate};

/// Tells whether the value meets the operator with its argument.
pub(crate) fn meets(operator: ValueOperator, argument: &Json, value: &Json) -> bool
    ensures { result ≡ meets operator (view argument.now) (view value.now) }
{
    match operator {
        ValueOperator::IsEqual => collate(value, argument).is_eq(),
        ValueOperator::IsNotEqual => collate(value, argument).is_ne(),
        ValueOperator::IsLess => collate(value, argument).is_lt(),
        ValueOperator::IsAtMost => collate(value, argument).is_le(),
        ValueOperator::IsGreater => collate(value, argument).is_gt(),
        ValueOperator::IsAtLeast => collate(value, argument).is_ge(),
        ValueOperator::HasType => has_type(argument, value),
        ValueOperator::IsIn => is_among(value, elements(argument)),
        ValueOperator::IsNotIn => !is_among(value, elements(argument)),
        ValueOperator::HasSize => has_size(argument, value),
        ValueOperator::HasRemainder => has_remainder(division_in(argument), value),
        ValueOperator::HasAll => has_all(elements(argument), elements(value)),
    }
}

/// Tells whether the argument names the value's type.
fn has_type(argument: &Json, value: &Json) -> bool
    ensures { result ≡ has_type (view argument.now) (view value.now) }
{
    match argument.text() {
        Some(name) => type_name(value) == name,
        None => false,
    }
}

fn type_name(value: &Json) -> &'static str
    ensures { result.now ≡ type_name (view value.now) }
{
    match value {
        Json::Null => "null",
        Json::Truth(_) => "boolean",
        Json::Whole(_) => "number",
        Json::Text(_) => "string",
        Json::Array(_) => "array",
        Json::Object(_) => "object",
    }
}

/// Tells whether the value is a list of that length.
fn has_size(argument: &Json, value: &Json) -> bool
    ensures { result ≡ has_size (view argument.now) (view value.now) }
{
    match (argument, value) {
        (Json::Whole(length), Json::Array(items)) => length_of(items) == length.value(),
        _ => false,
    }
}

fn length_of(items: &Vec<Json>) -> i128
    ensures { result ≡ pos (items_length (items_view items.now.items)) }
{
    items.len() as i128
}

/// Tells whether the value is a number with that remainder. The division truncates toward zero, as that
/// of the language does.
fn has_remainder(division: Option<(Number, Number)>, value: &Json) -> bool
    ensures { result ≡ has_remainder division (view value.now) }
{
    let (Some((divisor, remainder)), Json::Whole(number)) = (division, value) else {
        return false;
    };
    divisor.value() != 0 && number.value() % divisor.value() == remainder.value()
}
