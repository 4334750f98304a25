ghost use Rattle.std.specs.Prelude.{◌≡◌, ◌==◌, [], ◌∷◌, ◌++◌, length, map, if◌then◌else◌, IfOk, OnOk, string_bytes};
ghost use Rattle.auth.specs.KnownRoles.{HasRoles};
ghost use Rattle.auth.specs.Roles.{without_blanks, roles_in, is_among, roles_of};

use couch_json::Got;
use std::alloc::Global;
use std::collections::BTreeSet;

/// The role of server admins.
pub(crate) const ADMIN_ROLE: &str = "_admin";

/// Returns the roles that a header's value lists, separated by commas, without the spaces and tabs round
/// each, and without empty ones.
pub(crate) fn roles_in(alloc: Global, value: &str) -> Got<Vec<String>>
    ensures { IfOk result (λ roles. map string_bytes roles.items ≡ roles_in value.now) }
{
    let mut roles = Vec::new(alloc);
    for piece in value.split(',') {
        push_role(alloc, &mut roles, trim_blanks(piece))?;
    }
    Ok(roles)
}

/// Adds the role to the roles, where it isn't empty.
fn push_role(alloc: Global, roles: &mut Vec<String>, role: &str) -> Got<()>
    ensures { OnOk result
        (map string_bytes roles.new.items
        ≡ (if length role.now == 0 then map string_bytes roles.old.items else map string_bytes roles.old.items ++ role.now ∷ [])) }
{
    if role.is_empty() {
        return Ok(());
    }
    roles.push(String::from_str(alloc, role)?)?;
    Ok(())
}

/// Returns the text without the spaces and tabs at either end.
fn trim_blanks(text: &str) -> &str
    ensures { result.now ≡ without_blanks text.now }
{
    let front = text.trim_start_matches([' ', '\t']);
    front.trim_end_matches([' ', '\t'])
}

/// Adds the role of server admins at the end, where the user is one of the admins and doesn't have
/// it yet.
pub(crate) fn add_admin_role(
    alloc: Global,
    roles: &mut Vec<String>,
    name: &str,
    admins: &[String],
) -> Got<()>
    ensures { OnOk result (map string_bytes roles.new.items ≡ roles_of name.now (map string_bytes roles.old.items) (map string_bytes admins.now)) }
{
    if is_among(name, admins) && !is_among(ADMIN_ROLE, roles.as_slice()) {
        roles.push(String::from_str(alloc, ADMIN_ROLE)?)?;
    }
    Ok(())
}

/// Collects the roles into a set of them.
pub(crate) fn collect_roles(alloc: Global, roles: &[String]) -> Got<BTreeSet<String>>
    ensures { IfOk result (λ known. HasRoles known (map string_bytes roles.now)) }
{
    let mut known = BTreeSet::new(alloc);
    for role in roles {
        known.insert(role.clone()?)?;
    }
    Ok(known)
}

/// Tells whether the text is among the texts.
fn is_among(text: &str, texts: &[String]) -> bool
    ensures { result ≡ is_among text.now (map string_bytes texts.now) }
{
    for t in texts {
        if t.as_str() == text {
            return true;
        }
    }
    false
}
