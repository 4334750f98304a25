//! Laws of the definitions alone: each function has an empty body, and its contract is the law.

ghost use Rattle.hub.specs.Answering.{StoreSteps};
ghost use Rattle.node.specs.Runs.{Steps};
ghost use Rattle.world.specs.Keeping.{DatabasesBecomeLater};
ghost use Rattle.world.specs.Service.{alike};
ghost use Rattle.world.specs.Laws.{CuttingDoesNotMatter, PiecesAreServedInOrder, PlaysAreChained};

use store::Store;

/// Two lists of pieces with one order of arrivals have the same replies and leave the same databases, where
/// all were served.
pub fn cutting_does_not_matter()
    ensures { CuttingDoesNotMatter }
{}

/// Where all events are pieces, their replies are those to the requests in the order of arrival.
pub fn pieces_are_served_in_order()
    ensures { PiecesAreServedInOrder }
{}

/// Two lists of events that are played one after the other are played as one list: over any store, and over
/// databases alone.
pub fn plays_are_chained<S: Store>()
    ensures stores { PlaysAreChained (alike (StoreSteps S.Store)) }
    ensures databases { PlaysAreChained (alike Steps) }
{}

/// Through a run that keeps both databases of a pass each of them becomes a later one.
pub fn databases_become_later()
    ensures { DatabasesBecomeLater }
{}
