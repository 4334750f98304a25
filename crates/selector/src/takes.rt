ghost use Rattle.std.specs.Prelude.{◌≡◌};
ghost use Rattle.couch_json.specs.View.{view};
ghost use Rattle.selector.specs.Grammar.{takes, is_type_name, division_in, has_divisor};

use crate::operator::ValueOperator;
use couch_json::{Json, Number};

/// Tells whether the value is of the shape that the operator takes.
pub(crate) fn takes(operator: ValueOperator, value: &Json) -> bool
    ensures { result ≡ takes operator (view value.now) }
{
    match operator {
        ValueOperator::HasType => is_type_name(value),
        ValueOperator::IsIn | ValueOperator::IsNotIn | ValueOperator::HasAll => {
            matches!(value, Json::Array(_))
        }
        ValueOperator::HasSize => matches!(value, Json::Whole(_)),
        ValueOperator::HasRemainder => has_divisor(division_in(value)),
        ValueOperator::IsEqual
        | ValueOperator::IsNotEqual
        | ValueOperator::IsLess
        | ValueOperator::IsAtMost
        | ValueOperator::IsGreater
        | ValueOperator::IsAtLeast => true,
    }
}

fn is_type_name(value: &Json) -> bool
    ensures { result ≡ is_type_name (view value.now) }
{
    match value.text() {
        Some("null" | "boolean" | "number" | "string" | "array" | "object") => true,
        _ => false,
    }
}

/// Returns the divisor and the remainder of a list that is just these.
pub(crate) fn division_in(value: &Json) -> Option<(Number, Number)>
    ensures { result ≡ division_in (view value.now) }
{
    let Json::Array(items) = value else {
        return None;
    };
    let mut items = items.iter();
    let Some(divisor) = items.next() else {
        return None;
    };
    let Some(remainder) = items.next() else {
        return None;
    };
    if items.next().is_some() {
        return None;
    }
    match (divisor, remainder) {
        (Json::Whole(divisor), Json::Whole(remainder)) => Some((*divisor, *remainder)),
        _ => None,
    }
}

/// Tells whether there is a divisor, other than 0.
fn has_divisor(division: Option<(Number, Number)>) -> bool
    ensures { result ≡ has_divisor division }
{
    match division {
        Some((divisor, _)) => divisor.value() != 0,
        None => false,
    }
}
