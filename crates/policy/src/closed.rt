ghost use Rattle.std.specs.Prelude.{◌≡◌, IfOk};
ghost use Rattle.couch_json.specs.View.{view};
ghost use Rattle.policy.specs.Security.{admins_only, closed_security};

use couch_json::{Got, Json, NameMap, put_member};
use std::alloc::Global;

/// Builds the security object of a new database.
pub(crate) fn closed_value(alloc: Global) -> Got<Json>
    ensures { IfOk result (λ json. view json ≡ closed_security) }
{
    let mut groups = NameMap::new(alloc);
    put_member(alloc, &mut groups, "admins", build_admins(alloc)?)?;
    put_member(alloc, &mut groups, "members", build_admins(alloc)?)?;
    Ok(Json::Object(groups))
}

/// Builds the group of server admins alone.
fn build_admins(alloc: Global) -> Got<Json>
    ensures { IfOk result (λ json. view json ≡ admins_only) }
{
    let mut roles = Vec::new(alloc);
    roles.push(Json::Text(String::from_str(alloc, "_admin")?))?;
    let mut group = NameMap::new(alloc);
    put_member(alloc, &mut group, "roles", Json::Array(roles))?;
    Ok(Json::Object(group))
}
