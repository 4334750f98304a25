//! What follows from the definitions alone. Each function has an empty body: its contract is the law.

ghost use Rattle.std.specs.Prelude.{◌≡◌, true, List, ℕ, None, Option, Some, option_and_then};
ghost use Rattle.std.specs.Cmp.Lexicographic.{slice_cmp};
ghost use Rattle.std.specs.FinMap.{find, get};
ghost use Rattle.std.specs.Ordering.{nat_cmp};
ghost use Rattle.couch_json.specs.Value.{Value};
ghost use Rattle.policy.specs.UpdateRules.{AreOnce, IsFirstBroken, Rules, holds, rule_in, rules_of, update_refusal};

/// Where no id stands twice, the rule at an id is the one that the design document of this id
/// declares, in whatever order the documents stand.
pub fn rules_are_of_the_documents()
    ensures { (documents : List (List ℕ × Value)) → AreOnce documents → (id : List ℕ)
        → get (rules_of documents) id ≡ option_and_then rule_in (find (slice_cmp nat_cmp) id documents) }
{}

/// The design document that is named is the first, in the order of ids, whose rule does not hold.
/// Where none is named, all rules hold.
pub fn first_broken_rule_is_named()
    ensures named { (rules : Rules) (argument : Value) (id : List ℕ) → update_refusal rules argument ≡ Some id → IsFirstBroken rules argument id }
    ensures none { (rules : Rules) (argument : Value) → update_refusal rules argument ≡ None
        → (id : List ℕ) (rule : Option Value) → get rules id ≡ Some rule → holds rule argument ≡ true }
{}
