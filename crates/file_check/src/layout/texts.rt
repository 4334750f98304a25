//! The texts of values: security objects and bodies.

ghost use Rattle.std.specs.Prelude.{◌≡◌, ◌≢◌, ◌↔◌, ◌≤◌, IfOk, IsTrue, MatchOption, ⊤};
ghost use Rattle.couch_json.specs.Canonical.{canonical};
ghost use Rattle.couch_json.specs.Lawful.{IsLawful};
ghost use Rattle.couch_json.specs.View.{members_view, view};
ghost use Rattle.policy.specs.Security.{is_security};
ghost use Rattle.sqlite_value.specs.declared.value.Value.TheVariants.{Text};
ghost use Rattle.store.specs.Lawful.{IsBody};
ghost use Rattle.store.specs.SpecialMembers.{are_plain, is_plain, is_special};
ghost use Rattle.tables.specs.Rows.{json_in_cell};
ghost use Rattle.file_check.specs.inner.Texts.{IsBodyText, IsSecurityText};

use couch_json::{Got, Json, JsonFault, NameMap, NoMemory, canon};
use policy::{Security, SecurityFault};
use std::alloc::Global;

/// Reads the value of a canonical text, if the text is canonical.
#[tactic(auto, using(crate::proofs::RowForms::unspelled))]
fn read_canonical(alloc: Global, text: &[u8]) -> Got<Option<Json>>
    ensures value { IfOk result
        (λ found. MatchOption found (text.now ≢ canonical (json_in_cell (Text text.now)))
        (λ value. (view value ≡ json_in_cell (Text text.now)) × (text.now ≡ canonical (view value)))) }
    ensures lawful { IfOk result (λ found. MatchOption found ⊤ (λ value. IsLawful (view value))) }
{
    let value = match couch_json::read(alloc, text) {
        Ok(value) => value,
        Err(JsonFault::Memory) => return Err(NoMemory),
        Err(_) => return Ok(None),
    };
    let spelled = canon(alloc, &value)?;
    if spelled.as_bytes() == text {
        Ok(Some(value))
    } else {
        Ok(None)
    }
}

/// Tells whether the text is that of a security object.
pub(crate) fn is_security_text(alloc: Global, text: &[u8]) -> Got<bool>
    ensures { IfOk result (λ is. IsTrue is ↔ IsSecurityText text.now) }
{
    let Some(value) = read_canonical(alloc, text)? else {
        return Ok(false);
    };
    match Security::read(alloc, &value) {
        Ok(_) => Ok(true),
        Err(SecurityFault::Shape) => Ok(false),
        Err(SecurityFault::Memory) => Err(NoMemory),
    }
}

/// Tells whether the text is that of the body of a document.
pub(crate) fn is_body_text(alloc: Global, text: &[u8]) -> Got<bool>
    ensures ok { IfOk result (λ is. IsTrue is ↔ IsBodyText text.now) }
    ensures lawful { IfOk result (λ is. IsTrue is → IsLawful (json_in_cell (Text text.now))) }
{
    let Some(value) = read_canonical(alloc, text)? else {
        return Ok(false);
    };
    Ok(value.is_object() && value.nests_within(100) && is_plain(&value))
}

/// Tells whether a body has no special members, those whose names begin with an underscore.
fn is_plain(value: &Json) -> bool
    ensures { result ≡ is_plain (view value.now) }
{
    match value {
        Json::Object(members) => are_plain(members),
        _ => true,
    }
}

fn are_plain(members: &NameMap<Json>) -> bool
    ensures { result ≡ are_plain (members_view members.now.entries) }
{
    for (name, _value) in members.as_slice() {
        if is_special(name) {
            return false;
        }
    }
    true
}

fn is_special(name: &str) -> bool
    ensures { result ≡ is_special name.now }
{
    name.as_bytes().starts_with(b"_")
}
