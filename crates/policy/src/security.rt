ghost use Rattle.std.specs.Prelude.{◌≡◌, ◌↔◌, IfOk, IsErrOf, IsTrue, Option, option_map, option_copied, true, false, map, string_bytes};
ghost use Rattle.couch_json.specs.View.{view, items_view};
ghost use Rattle.auth.specs.Roles.{is_among};
ghost use Rattle.policy.specs.Security.{closed_security, is_in_group, is_security, is_vacant, is_server_admin, is_database_admin, is_member, item_texts};
ghost use Rattle.policy.specs.Security.{listed_in};

use crate::closed::closed_value;
use crate::group::{is_in, is_vacant};
use crate::shape::is_security;
use auth::Caller;
use couch_json::{Got, Json, Malformed};
use std::alloc::Global;
use std::marker::Model;

/// Why a value was refused as a security object. One without the form is no object, its `admins` or `members` is
/// no object, their `names` or `roles` is no list of texts, or it nests more than 100 deep.
pub type SecurityFault = Malformed;

/// The security object of a database: who its admins and its members are, by name and by role.
///
/// See the CouchDB manual, api/database/security.
pub struct Security {
    json: Json,
}

// Written out, so that callers do not prove again how each part is dropped.
impl Drop for Security {
    fn drop(self) {
        let Security { json: _ } = self;
    }
}

impl Model for Security {
    ghost use Rattle.std.specs.Prelude.{IsTrue};
    ghost use Rattle.couch_json.specs.Value.{Value as JsonValue};
    ghost use Rattle.couch_json.specs.View.{view as value_of};
    ghost use Rattle.couch_json.specs.Code.{value_code};
    ghost use Rattle.policy.specs.Security.{is_security};

    ghost Value = { JsonValue };

    ghost coded = { value_code };

    ghost view = { λ s. value_of s.json };

    ghost invariant = { λ s. IsTrue (is_security (value_of s.json)) };
}

impl Security {
    /// Reads the security object that a value is, as a copy of its own.
    ///
    /// `Shape` comes if and only if the value is no security object; it is looked for before memory is taken.
    pub fn read(alloc: Global, value: &Json) -> Result<Security, SecurityFault>
        ensures ok { IfOk result (λ security. security ≡ view value.now) }
        ensures shape { IsErrOf result Malformed.Shape ↔ (is_security (view value.now) ≡ false) }
    {
        if !is_security(value) {
            return Err(SecurityFault::Shape);
        }
        let json = value.copy(alloc)?;
        Ok(Security { json })
    }

    /// Builds the security object of a new database: server admins alone are its admins and members.
    pub fn closed(alloc: Global) -> Got<Security>
        ensures { IfOk result (λ security. security ≡ closed_security) }
    {
        let json = closed_value(alloc)?;
        Ok(Security { json })
    }

    /// Returns the value.
    pub fn value(&self) -> &Json
        ensures value { view result.now ≡ self.now }
        ensures lawful { IsTrue (is_security self.now) }
    {
        &self.json
    }

    /// Copies the security object into memory of its own.
    pub fn copy(&self, alloc: Global) -> Got<Security>
        ensures { IfOk result (λ security. security ≡ self.now) }
    {
        let json = self.json.copy(alloc)?;
        Ok(Security { json })
    }

    /// Tells whether the caller is an admin of the database: of the server, or by name or by a role.
    pub fn is_database_admin(&self, caller: &Caller) -> bool
        ensures { result ≡ is_database_admin self.now caller.now }
    {
        is_server_admin(caller) || is_in(self.json.member("admins"), caller)
    }

    /// Tells whether the caller is a member of the database: an admin of it, a member by name or by a
    /// role, or anyone where no member is named.
    pub fn is_member(&self, caller: &Caller) -> bool
        ensures { result ≡ is_member self.now caller.now }
    {
        let members = self.json.member("members");
        self.is_database_admin(caller) || is_vacant(members) || is_in(members, caller)
    }
}

/// Tells whether the caller is an admin of the server: has the role `_admin`.
pub fn is_server_admin(caller: &Caller) -> bool
    ensures { result ≡ is_server_admin caller.now }
{
    caller.has_role("_admin")
}
