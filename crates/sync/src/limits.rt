/// How many turns a pass may have: 2^32 exchanges, and one turn more, in which it says that it has ended.
pub const MOST_TURNS: u64 = 4_294_967_297;
