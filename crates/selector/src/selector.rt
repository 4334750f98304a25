ghost use Rattle.std.specs.Prelude.{◌≡◌, None, false};
ghost use Rattle.couch_json.specs.Parts.{is_object};
ghost use Rattle.couch_json.specs.View.{view};
ghost use Rattle.selector.specs.Operators.{operator_named};

use crate::bounds::{Bounds, bounds_in};
use crate::fault::SelectorFault;
use crate::field_bounds::{FieldBounds, field_bounds_in};
use crate::lookup::Lookup;
use crate::matching::is_true;
use crate::members::Members;
use crate::operator::{ListOperator, SelectorOperator, ValueOperator};
use crate::parsing::parse_selector;
use couch_json::{FieldPath, Got, Json};
use std::alloc::Global;
use std::marker::Model;

/// A selector: which values meet a query or a rule (CouchDB manual, api/database/find,
/// "Selector Syntax").
///
/// It is parsed from an object, whose members are all to be true. A member whose name begins
/// with `$` is an operator on the current value; any other is a field path, with a selector for
/// the field's value, or a bare value that it has to equal.
#[cycle(selector)]
#[derive(Drop)]
pub struct Selector {
    pub(crate) conditions: Vec<Condition>,
}

/// One member of a selector object.
#[cycle(selector)]
#[derive(Drop)]
pub(crate) enum Condition {
    /// A field and the selector that its value has to meet.
    Field(Field, Selector),
    /// A field and the value that it has to equal.
    FieldIs(Field, BareValue),
    /// `$exists`
    Exists(bool),
    /// An operator and its argument, of the shape that the operator takes.
    Value(ValueOperator, Json),
    /// `$in`
    In(Members),
    /// `$nin`
    NotIn(Members),
    /// `$all`
    All(Members),
    /// `$sameAs` and its path, in the selector of a rule alone.
    SameAs(FieldPath),
    /// An operator and its selector.
    Selector(SelectorOperator, Selector),
    /// An operator and its selectors.
    ///
    /// Behind them stands what is looked up in place of asking each selector.
    List(ListOperator, Vec<Selector>, Lookup),
}

impl Model for Selector {
    ghost use Rattle.couch_json.specs.Value.{Value as JsonValue, object, depth};
    ghost use Rattle.couch_json.specs.Code.{value_code};

    ghost Value = { JsonValue };

    ghost coded = { value_code };

    ghost use Rattle.selector.specs.View.{members_of};

    ghost view = { λ s. object (members_of s.conditions.items) };

    ghost use Rattle.selector.specs.LookedUp.{AreLookedUp};

    ghost invariant = { λ s. AreLookedUp s.conditions.items };

    ghost size = { depth };

    ghost use Rattle.selector.specs.Falls.{parts_fall};

    ghost size_decreases = { λ s _. parts_fall s.conditions.items };
}

impl Selector {
    ghost use Rattle.std.specs.Prelude.{◌≢◌, ℕ, IfOk, IfErr, List, Some, true};
    ghost use Rattle.couch_json.specs.FieldPath.{value_at};
    ghost use Rattle.couch_json.specs.Value.{Value as JsonValue, member_of, object, member, no_members};
    ghost use Rattle.selector.specs.Bounds.{AreJust, contain};
    ghost use Rattle.selector.specs.FieldBounds.{ContainOnly, bounds_at};
    ghost use Rattle.selector.specs.Grammar.{first_fault};
    ghost use Rattle.selector.specs.Truth.{selector_matches};

    /// Parses the selector that a value is, or answers the fault that stands first in its canonical text:
    ///
    /// - `Operator` at a name that begins with `$` and is no operator;
    /// - `Argument` at the innermost value that is not what its operator takes, or at a name that
    ///   is no field path;
    /// - `Depth` at the 33rd selector object one inside the other, the outermost being the first.
    ///
    /// `Memory` may come in place of any answer.
    pub fn parse(alloc: Global, value: &Json) -> Result<Selector, SelectorFault>
        ensures value { IfOk result (λ s. s ≡ view value.now) }
        ensures lawful { IfOk result (λ s. first_fault (view value.now) ≡ None) }
        ensures fault { IfErr result (λ e. e ≢ SelectorFault.Memory
            → first_fault (view value.now) ≡ Some e) }
    {
        parse_selector(alloc, value, false, 1)
    }

    /// Tests whether the selector is true of the value. It takes no memory.
    #[tactic(auto, unfolding(crate::specs::Truth::selector_matches))]
    pub fn matches(&self, value: &Json) -> bool
        ensures { result ≡ selector_matches self.now (view value.now) }
    {
        is_true(self, Some(value), value)
    }

    /// Returns between which values a field lies in every value that the selector matches. It
    /// takes no memory.
    ///
    /// If the selector is one member, the path with a bare value, the range goes from that value
    /// to itself.
    #[tactic(auto, unfolding(crate::specs::Truth::selector_matches))]
    pub fn bounds<'a>(&'a self, path: &FieldPath) -> Bounds<'a>
        ensures inside { (v : JsonValue) → selector_matches self.now v ≡ true
            → contain result (value_at path.now v) ≡ true }
        ensures one { (b : JsonValue) → operator_named path.now ≡ None → is_object b ≡ false
            → self.now ≡ object (member path.now b no_members) → AreJust b result }
    {
        bounds_in(self, Some(path))
    }

    /// Returns between which values each field lies in every value that the selector matches. It walks
    /// the selector once, where [`bounds`](Selector::bounds) walks it for each path.
    ///
    /// The bounds of a member that is a path with a bare value contain no other value. If it is the only
    /// member, they go from that value to itself.
    #[tactic(auto, unfolding(crate::specs::Truth::selector_matches))]
    pub fn field_bounds<'a>(&'a self, alloc: Global) -> Got<FieldBounds<'a>>
        ensures inside { IfOk result (λ fields. (path : List ℕ) (v : JsonValue) → selector_matches self.now v ≡ true
            → contain (bounds_at fields path) (value_at path v) ≡ true) }
        ensures one { IfOk result (λ fields. (path : List ℕ) (b : JsonValue) → operator_named path ≡ None → is_object b ≡ false
            → self.now ≡ object (member path b no_members) → AreJust b (bounds_at fields path)) }
        ensures bare { IfOk result (λ fields. (path : List ℕ) (b : JsonValue) → operator_named path ≡ None → is_object b ≡ false
            → member_of self.now path ≡ Some b → ContainOnly b (bounds_at fields path)) }
    {
        field_bounds_in(alloc, self)
    }
}

/// The path of a field. It is the name of no operator.
#[derive(Drop)]
pub(crate) struct Field {
    pub(crate) path: FieldPath,
    ghost is_no_operator: { operator_named path ≡ None },
}

/// A value that is no object, so no selector.
#[derive(Drop)]
pub(crate) struct BareValue {
    pub(crate) json: Json,
    ghost is_bare: { is_object (view json) ≡ false },
}
