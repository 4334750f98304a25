ghost use Rattle.std.specs.Prelude.{◌≡◌, IfOk, map, option_copied, string_bytes};
ghost use Rattle.auth.specs.Roles.{is_among};

use crate::roles::collect_roles;
use couch_json::Got;
use std::alloc::Global;
use std::collections::BTreeSet;
use std::marker::Model;

/// Who calls: a name, or none for an anonymous caller, and roles.
///
/// A caller comes from [`Auth::caller`](crate::Auth::caller). Roles stand in the order of the
/// header, repeated ones too.
#[derive(Debug)]
pub struct Caller {
    name: Option<String>,
    roles: Vec<String>,
    /// The same roles, each once, to be looked up.
    known: BTreeSet<String>,
}

// Written out, so that callers do not prove again how each part is dropped.
impl Drop for Caller {
    fn drop(self) {
        let Caller {
            name: _,
            roles: _,
            known: _,
        } = self;
    }
}

impl Model for Caller {
    ghost use Rattle.std.specs.Prelude.{map, option_map, string_bytes};
    ghost use Rattle.auth.specs.Callers.{Identity};
    ghost use Rattle.auth.specs.KnownRoles.{HasRoles};

    ghost Value = { Identity };

    ghost view = { λ c. record { name = option_map string_bytes c.name; roles = map string_bytes c.roles.items } };

    ghost invariant = { λ c. HasRoles c.known (map string_bytes c.roles.items) };
}

impl Caller {
    ghost use Rattle.auth.specs.Callers.{anonymous};

    /// Makes the caller of whom nothing is known: no name and no roles. Allocates nothing.
    pub fn anonymous(alloc: Global) -> Caller
        ensures { result ≡ anonymous }
    {
        Caller {
            name: None,
            roles: Vec::new(alloc),
            known: BTreeSet::new(alloc),
        }
    }

    /// Returns the caller's name, or `None` for an anonymous caller.
    pub fn name(&self) -> Option<&str>
        ensures { option_copied result ≡ self.now.name }
    {
        match &self.name {
            Some(name) => Some(name.as_str()),
            None => None,
        }
    }

    /// Returns the caller's roles, in order.
    pub fn roles(&self) -> &[String]
        ensures { map string_bytes result.now ≡ self.now.roles }
    {
        self.roles.as_slice()
    }

    /// Tells whether the caller has the role. It takes about as long as the logarithm of how many roles
    /// the caller has.
    pub fn has_role(&self, role: &str) -> bool
        ensures { result ≡ is_among role.now self.now.roles }
    {
        self.known.contains(role)
    }

    /// Makes the user of this name with these roles.
    pub(crate) fn with_roles(alloc: Global, name: String, roles: Vec<String>) -> Got<Caller>
        ensures { IfOk result (λ caller. caller ≡ record { name = Some (string_bytes name); roles = map string_bytes roles.items }) }
    {
        let known = collect_roles(alloc, &roles)?;
        Ok(Caller {
            name: Some(name),
            roles,
            known,
        })
    }
}
