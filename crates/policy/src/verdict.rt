ghost use Rattle.std.specs.Prelude.{◌≡◌};
ghost use Rattle.policy.specs.Verdict.{verdict};

use crate::action::Action;
use crate::rule::Rule;
use crate::security::{Security, is_server_admin};
use auth::Caller;

/// Returns the first rule that refuses the action to the caller, or `None` where it is allowed.
///
/// Update rules are judged apart, and only where this answers `None`. For `Administer` the
/// security object is not looked at.
pub fn refusal(action: Action, caller: &Caller, security: &Security) -> Option<Rule>
    ensures { result ≡ verdict action caller.now security.now }
{
    if action == Action::Administer {
        return if is_server_admin(caller) {
            None
        } else {
            Some(Rule::ServerAdmin)
        };
    }
    if !security.is_member(caller) {
        return Some(Rule::DbMember);
    }
    match action {
        Action::WriteSecurity if !security.is_database_admin(caller) => Some(Rule::DbAdmin),
        Action::WriteDesign if !security.is_database_admin(caller) => Some(Rule::DesignDocument),
        _ => None,
    }
}
