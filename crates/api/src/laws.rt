//! What follows from the definitions alone. Each function has an empty body: its contract is the law.

ghost use Rattle.std.specs.Prelude.{[]};
ghost use Rattle.api.specs.Routing.{AreApart, routes};

/// Each route of the server is one that matchit reads, and it conflicts with none before it. So a
/// router refuses none of them but for lack of memory.
pub fn routes_are_apart()
    ensures { AreApart routes [] }
{}
