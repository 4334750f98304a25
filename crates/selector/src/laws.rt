//! What follows from the definitions alone. Each function has an empty body: its contract is the law.

ghost use Rattle.std.specs.Prelude.{◌≡◌, None, Option};
ghost use Rattle.couch_json.specs.Value.{Value};
ghost use Rattle.selector.specs.Grammar.{first_fault, first_rule_fault};
ghost use Rattle.selector.specs.Truth.{is_true};

/// The truth of a selector on a value does not depend on the root, the value that the outermost selector
/// is asked of. `$sameAs` alone looks there, and stands in selectors of rules alone.
pub fn selectors_look_at_the_value_alone()
    ensures { (selector : Value) → first_fault selector ≡ None → (root other : Value) (current : Option Value)
        → is_true root selector current ≡ is_true other selector current }
{}

/// Each selector is one that a rule may have.
pub fn rules_may_be_selectors()
    ensures { (selector : Value) → first_fault selector ≡ None → first_rule_fault selector ≡ None }
{}
