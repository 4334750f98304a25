//! What a request says besides its path: who asks, with which parameters, and with which body.

ghost use Rattle.std.specs.Prelude.{◌≡◌, IfOk, map, option_map, string_bytes};
ghost use Rattle.couch_json.specs.View.{view};
ghost use Rattle.couch_http.specs.Message.{header_field, message_of};
ghost use Rattle.api.specs.Asking.{asker, json_body, denial, lacks_parameters, pair_of};
ghost use Rattle.api.specs.RequestReading.{Says};
ghost use Rattle.api.specs.Asking.{plain};

use crate::fault::RequestFault;
use crate::refusal::Refusal;
use auth::{Auth, AuthFault, Caller};
use couch_http::{Header, Request};
use couch_json::{Got, Json, JsonFault, read};
use policy::Rule;
use std::alloc::Global;

/// Tells who asks, by the proxy's headers.
pub fn caller(alloc: Global, auth: &Auth, request: &Request) -> Result<Caller, RequestFault>
    ensures { Says (λ caller. caller) result (asker auth.now (message_of request.now)) }
{
    let headers = pairs(alloc, &request.headers)?;
    match auth.caller(&headers) {
        Ok(caller) => Ok(caller),
        Err(AuthFault::Memory) => Err(RequestFault::Memory),
        Err(AuthFault::Token | AuthFault::Repeated) => {
            Err(RequestFault::Refused(Refusal::Unauthorized(Rule::ProxyToken)))
        }
    }
}

/// Returns the headers, each as its name and its value.
fn pairs<'a>(alloc: Global, headers: &'a [Header]) -> Got<Vec<(&'a [u8], &'a [u8])>>
    ensures { IfOk result (λ pairs. map (λ p. (p.0.now, p.1.now)) pairs.items ≡ map pair_of (map header_field headers.now)) }
{
    let mut pairs = Vec::with_capacity(alloc, headers.len())?;
    for header in headers {
        pairs.push((header.name.as_slice(), header.value.as_slice()))?;
    }
    Ok(pairs)
}

/// Tells how a rule refuses this caller.
pub fn deny(caller: &Caller, rule: Rule) -> Refusal
    ensures { result ≡ denial caller.now rule }
{
    match caller.name() {
        None => Refusal::Unauthorized(rule),
        Some(_) => Refusal::Forbidden(rule),
    }
}

/// Tells whether the query has no parameter (URL Standard, section 5.1).
fn lacks_parameters(query: &Option<String>) -> bool
    ensures { result ≡ lacks_parameters (option_map string_bytes query.now) }
{
    match query {
        None => true,
        Some(query) => form_urlencoded::raw_pairs(query.as_bytes())
            .next()
            .is_none(),
    }
}

/// Refuses a query that has a parameter.
pub fn without_parameters(request: &Request) -> Result<(), RequestFault>
    ensures { Says (λ nothing. nothing) result (plain (message_of request.now)) }
{
    if !lacks_parameters(&request.query) {
        return Err(RequestFault::Refused(Refusal::Query));
    }
    Ok(())
}

/// Reads the value of a body.
pub fn body(alloc: Global, request: &Request) -> Result<Json, RequestFault>
    ensures { Says view result (json_body (message_of request.now)) }
{
    match read(alloc, &request.body) {
        Ok(value) => Ok(value),
        Err(JsonFault::Memory) => Err(RequestFault::Memory),
        Err(_) => Err(RequestFault::Refused(Refusal::Syntax)),
    }
}
