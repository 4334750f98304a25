//! What update rules are asked of, for one document after another.

ghost use Rattle.std.specs.Prelude.{◌≡◌, IfOk, OnOk, codes, option_copied, option_map};
ghost use Rattle.couch_json.specs.Value.{put};
ghost use Rattle.couch_json.specs.View.{members_view, view};
ghost use Rattle.policy.specs.Argument.{argument_under, circumstances};
ghost use Rattle.couch_json.specs.Parts.{value_or_null};
ghost use Rattle.policy.specs.ArgumentMembers.{KeepsCircumstances};
ghost use Rattle.policy.specs.UpdateRules.{update_refusal};

use crate::rule_argument::{build_members, into_members};
use crate::security::Security;
use crate::update_rules::RuleSet;
use auth::Caller;
use couch_json::{Got, Json, NameMap, put_member};
use std::alloc::Global;
use std::marker::Model;
use std::mem;
use tree::DocId;

/// The argument of the update rules of a database without its documents: the security object, and who
/// writes where.
///
/// It is made once for a request. The documents of one write after another are put into it, so the
/// security object isn't copied for each of them.
pub struct Circumstances {
    alloc: Global,
    /// The members of the argument, with the documents of the last write.
    members: NameMap<Json>,
}

// Written out, so that callers do not prove again how each part is dropped.
impl Drop for Circumstances {
    fn drop(self) {
        let Circumstances {
            alloc: _,
            members: _,
        } = self;
    }
}

impl Model for Circumstances {
    ghost use Rattle.couch_json.specs.Code.{value_code};
    ghost use Rattle.couch_json.specs.Value.{Value as JsonValue, object};
    ghost use Rattle.couch_json.specs.View.{members_view as members_of};
    ghost use Rattle.policy.specs.ArgumentMembers.{HasDocuments, behind_two};

    ghost Value = { JsonValue };

    ghost coded = { value_code };

    ghost view = { λ c. object (behind_two (members_of c.members.entries)) };

    ghost invariant = { λ c. HasDocuments (members_of c.members.entries) };
}

impl Circumstances {
    /// Builds what stands beside the documents in the argument. The security object is copied.
    pub fn new(alloc: Global, caller: &Caller, db: &str, security: &Security) -> Got<Circumstances>
        ensures { IfOk result (λ beside. beside ≡ circumstances caller.now db.now security.now) }
    {
        let members = build_members(alloc, Json::Null, None, caller, db, security)?;
        Ok(Circumstances { alloc, members })
    }

    /// Returns the design document whose rule refuses the write of these documents, the first in the order
    /// of ids, or `None` where all rules hold.
    ///
    /// The new document is shown by [`show_new`](crate::show_new), the old one by [`tree::show`].
    pub fn refusal<'a>(
        &mut self,
        rules: &'a RuleSet,
        new: Json,
        old: Option<Json>,
    ) -> Got<Option<&'a DocId>>
        ensures answer { IfOk result (λ id. option_copied id ≡ update_refusal rules.now (argument_under self.old (view new) (option_map view old))) }
        ensures kept { self.new ≡ self.old }
    {
        put_documents(self.alloc, &mut self.members, new, old)?;
        let members = mem::replace(&mut self.members, NameMap::new(self.alloc));
        let argument = Json::Object(members);
        let refusal = rules.refusal(&argument);
        self.members = into_members(self.alloc, argument);
        Ok(refusal)
    }
}

/// Puts documents in the place of those that are there.
fn put_documents(
    alloc: Global,
    members: &mut NameMap<Json>,
    new: Json,
    old: Option<Json>,
) -> Got<()>
    ensures ok { OnOk result (members_view members.new.entries
        ≡ put (codes "oldDoc") (value_or_null (option_map view old)) (put (codes "newDoc") (view new) (members_view members.old.entries))) }
    ensures kept { KeepsCircumstances (members_view members.old.entries) (members_view members.new.entries) }
{
    let old = match old {
        Some(old) => old,
        None => Json::Null,
    };
    put_member(alloc, members, "newDoc", new)?;
    put_member(alloc, members, "oldDoc", old)
}
