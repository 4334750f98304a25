ghost use Rattle.std.specs.Prelude.{◌≡◌, IfSome};
ghost use Rattle.selector.specs.Lookup.{decides};
ghost use Rattle.selector.specs.Operators.{operator_name, operator_named};

/// An operator, by what its argument is (CouchDB manual, api/database/find, "Operators").
#[derive(Clone, Copy)]
pub(crate) enum Operator {
    /// `$exists`: a truth value.
    Exists,
    /// A plain value.
    Value(ValueOperator),
    /// `$sameAs`: a field path, in the selector of a rule alone.
    SameAs,
    /// A selector.
    Selector(SelectorOperator),
    /// A list of selectors, not empty.
    List(ListOperator),
}

/// An operator that holds a present value against a plain one.
#[derive(Clone, Copy)]
pub(crate) enum ValueOperator {
    /// `$eq`
    IsEqual,
    /// `$ne`
    IsNotEqual,
    /// `$lt`
    IsLess,
    /// `$lte`
    IsAtMost,
    /// `$gt`
    IsGreater,
    /// `$gte`
    IsAtLeast,
    /// `$type`
    HasType,
    /// `$in`
    IsIn,
    /// `$nin`
    IsNotIn,
    /// `$size`
    HasSize,
    /// `$mod`
    HasRemainder,
    /// `$all`
    HasAll,
}

/// An operator on one selector.
#[derive(Clone, Copy)]
pub(crate) enum SelectorOperator {
    /// `$not`
    IsFalse,
    /// `$elemMatch`
    SomeElement,
    /// `$allMatch`
    EachElement,
}

/// An operator on several selectors.
#[derive(Clone, Copy)]
pub(crate) enum ListOperator {
    /// `$and`
    AllTrue,
    /// `$or`
    SomeTrue,
    /// `$nor`
    NoneTrue,
}

/// Returns the operator of this name, its `$` included.
pub(crate) fn operator_named(name: &str) -> Option<Operator>
    ensures operator { result ≡ operator_named name.now }
    ensures name { IfSome result (λ o. operator_name o ≡ name.now) }
{
    let operator = match name {
        "$exists" => Operator::Exists,
        "$eq" => Operator::Value(ValueOperator::IsEqual),
        "$ne" => Operator::Value(ValueOperator::IsNotEqual),
        "$lt" => Operator::Value(ValueOperator::IsLess),
        "$lte" => Operator::Value(ValueOperator::IsAtMost),
        "$gt" => Operator::Value(ValueOperator::IsGreater),
        "$gte" => Operator::Value(ValueOperator::IsAtLeast),
        "$type" => Operator::Value(ValueOperator::HasType),
        "$in" => Operator::Value(ValueOperator::IsIn),
        "$nin" => Operator::Value(ValueOperator::IsNotIn),
        "$size" => Operator::Value(ValueOperator::HasSize),
        "$mod" => Operator::Value(ValueOperator::HasRemainder),
        "$all" => Operator::Value(ValueOperator::HasAll),
        "$sameAs" => Operator::SameAs,
        "$not" => Operator::Selector(SelectorOperator::IsFalse),
        "$elemMatch" => Operator::Selector(SelectorOperator::SomeElement),
        "$allMatch" => Operator::Selector(SelectorOperator::EachElement),
        "$and" => Operator::List(ListOperator::AllTrue),
        "$or" => Operator::List(ListOperator::SomeTrue),
        "$nor" => Operator::List(ListOperator::NoneTrue),
        _ => return None,
    };
    Some(operator)
}

/// Tells whether a selector with this truth decides a list of selectors: a false one where all have to
/// be true, else a true one.
pub(crate) fn decides(operator: ListOperator, truth: bool) -> bool
    ensures { result ≡ decides operator truth }
{
    match operator {
        ListOperator::AllTrue => !truth,
        ListOperator::SomeTrue | ListOperator::NoneTrue => truth,
    }
}
