//! The parameters of a query (URL Standard, section 5.1).

ghost use Rattle.std.specs.Prelude.{◌≡◌, IfOk, map, option_map, option_copied, string_bytes};
ghost use Rattle.api.specs.Queried.{given_of, texts_of};
ghost use Rattle.api.specs.Queries.{parameters_are_named, flag_in, given_at, parameter_of, parameters_in, sole_value};
ghost use Rattle.form_urlencoded.specs.Form.{raw_pairs};

use crate::given::Given;
use couch_json::is_among;
use std::alloc::{AllocError, Global};

/// Returns the parameters of a query, each a name and a value.
pub(crate) fn parameters(
    alloc: Global,
    query: &Option<String>,
) -> Result<Vec<(String, String)>, AllocError>
    ensures { IfOk result (λ parameters. texts_of parameters.items ≡ parameters_in (option_map string_bytes query.now)) }
{
    match query {
        None => Ok(Vec::new(alloc)),
        Some(query) => decode_form(alloc, query.as_bytes()),
    }
}

/// Returns the names and values of a form.
fn decode_form(alloc: Global, form: &[u8]) -> Result<Vec<(String, String)>, AllocError>
    ensures { IfOk result (λ parameters. texts_of parameters.items ≡ map parameter_of (raw_pairs form.now)) }
{
    let mut parameters = Vec::new(alloc);
    for pair in form_urlencoded::parse(alloc, form).into_owned() {
        parameters.push(pair?)?;
    }
    Ok(parameters)
}

/// Tells whether no parameter has another name than these.
pub(crate) fn are_named(parameters: &[(String, String)], names: &[&str]) -> bool
    ensures { result ≡ parameters_are_named (map (λ name. name.now) names.now) (texts_of parameters.now) }
{
    for (name, _value) in parameters {
        if !is_among(name.as_str(), names) {
            return false;
        }
    }
    true
}

/// Finds the value of the parameter of this name; malformed where the name occurs twice.
pub(crate) fn sole_value<'a>(parameters: &'a [(String, String)], name: &str) -> Given<&'a str>
    ensures { option_map option_copied (given_of result) ≡ sole_value name.now (texts_of parameters.now) }
{
    let mut found = None;
    for (known, value) in parameters {
        if known.as_str() == name {
            if found.is_some() {
                return Given::Malformed;
            }
            found = Some(value.as_str());
        }
    }
    match found {
        Some(value) => Given::Value(value),
        None => Given::Absent,
    }
}

/// Reads the flag at a name; malformed where it is neither `true` nor `false`, or occurs twice.
pub(crate) fn flag_at(parameters: &[(String, String)], name: &str) -> Given<bool>
    ensures { given_of result ≡ given_at flag_in name.now (texts_of parameters.now) }
{
    match sole_value(parameters, name) {
        Given::Absent => Given::Absent,
        Given::Value("true") => Given::Value(true),
        Given::Value("false") => Given::Value(false),
        Given::Value(_) | Given::Malformed => Given::Malformed,
    }
}
