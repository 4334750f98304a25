ghost use Rattle.std.specs.Prelude.{◌≡◌, ◌<◌, ◌^◌, pos};
ghost use Rattle.couch_json.specs.Value.{whole};
ghost use Rattle.couch_json.specs.View.{view};

use couch_json::{Json, Number};

/// Makes the JSON value of a number.
pub(crate) fn whole(number: u64) -> Json
    requires { number < 2 ^ 63 }
    ensures { view result ≡ whole (pos number) }
{
    Json::Whole(Number::from(number as i64))
}
