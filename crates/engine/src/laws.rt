//! Laws of the definitions alone: each function has an empty body, and its contract is the law.

ghost use Rattle.engine.specs.Bound.{OwesWithinBound};
ghost use Rattle.engine.specs.Order.{HandlesInOrder};
ghost use Rattle.engine.specs.Saying.{SaysInOrder};
ghost use Rattle.engine.specs.Taking.{TakesInOrder};

use store::Store;

/// Makes sure that all that a connection took is a first part of the bytes of the replies to what it
/// brought, and of the farewell.
pub fn takes_in_order<S: Store>()
    ensures { TakesInOrder S.Store }
{}

/// Makes sure that what was said to a connection is the bytes of the replies, in the one run of all
/// connections, to the requests that arrived on it, the fixed reply where its stream shows a fault, and
/// after these nothing or the farewell.
pub fn says_in_order<S: Store>()
    ensures { SaysInOrder S.Store }
{}

/// Makes sure that no more bytes are ever owed to a connection than may be.
pub fn owes_within_bound<S: Store>()
    ensures { OwesWithinBound S.Store }
{}

/// Makes sure that the requests of all connections are handled in one run, in the order in which they
/// arrive.
pub fn handles_in_order<S: Store>()
    ensures { HandlesInOrder S.Store }
{}
