//! The server's own page: `GET /` (CouchDB manual, api/server/common).

ghost use Rattle.std.specs.Prelude.{◌≡◌, IfOk, Ok};
ghost use Rattle.couch_http.specs.Message.{message_of};
ghost use Rattle.node.specs.Answer.{welcome};
ghost use Rattle.api.specs.RequestReading.{Says};
ghost use Rattle.api.specs.Refusals.{and_then};
ghost use Rattle.api.specs.Asking.{plain};

use api::{RequestFault, put_text, without_parameters};
use couch_http::Request;
use couch_json::{Got, Json, JsonText, NameMap};
use std::alloc::Global;

/// Says who answers here.
pub(crate) fn tell_welcome(alloc: Global, request: &Request) -> Result<JsonText, RequestFault>
    ensures { Says (λ value. value) result (and_then (plain (message_of request.now)) (λ _. Ok welcome)) }
{
    without_parameters(request)?;
    Ok(welcome(alloc)?)
}

fn welcome(alloc: Global) -> Got<JsonText>
    ensures { IfOk result (λ value. value ≡ welcome) }
{
    let mut members = NameMap::new(alloc);
    put_text(alloc, &mut members, "couchdb", "Welcome")?;
    put_text(alloc, &mut members, "version", "3-profile")?;
    JsonText::of(alloc, &Json::Object(members))
}
