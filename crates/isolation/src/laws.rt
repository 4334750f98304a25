//! What follows from the definitions alone. Each function has an empty body: its contract is the law.

ghost use Rattle.isolation.specs.Isolated.{IsolatedCaller, IsolatedInPlays, IsolatedWhenAlike, IsolatedWhenStruck, NodesRun, PlaysAreTurns};

/// A group of callers is told the same whether or not others ask anything of databases that are hidden from
/// the group, but for creating and removing these and writing their security objects: whatever is asked
/// before, between and after, where no reply is a 500 or a 503.
pub fn isolation()
    ensures struck { IsolatedWhenStruck }
    ensures caller { IsolatedCaller }
    ensures alike { IsolatedWhenAlike }
    ensures plays { IsolatedInPlays }
{}

/// Each play of a network is made of turns, in which a node handles a request or none does, and through
/// them each node goes through one run.
pub fn plays_are_runs()
    ensures turns { PlaysAreTurns }
    ensures runs { NodesRun }
{}
