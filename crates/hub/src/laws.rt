//! Laws of the definitions alone: each function has an empty body, and its contract is the law.

ghost use Rattle.hub.specs.Arrival.{HasOneOrder, KeepsOrder};
ghost use Rattle.hub.specs.Parts.{FewEndInAPart};

/// What connections keep of their streams decides on the arrivals as the whole streams do.
pub fn keeps_order()
    ensures { KeepsOrder }
{}

/// Pieces bring one order of arrivals.
pub fn has_one_order()
    ensures { HasOneOrder }
{}

/// At most two requests end in a part of a piece.
pub fn few_end_in_a_part()
    ensures { FewEndInAPart }
{}
