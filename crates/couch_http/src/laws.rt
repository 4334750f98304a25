//! Laws of the definitions alone: each function has an empty body, and its contract is the law.

ghost use Rattle.couch_http.specs.Laws.{HasOneReading, GoesOnFromRest, StaysEnded, PiecesDoNotMatter, HasStreamFaults, HasOnePlaceEach};
ghost use Rattle.couch_http.specs.Laws.{ComesWithLastByte, HeadsAreFound, RepliesHaveOneReading, RepliesAreReadBack};

/// A stream holds one list of requests, and then stands in one way.
pub fn one_reading()
    ensures { HasOneReading }
{}

/// More bytes leave the requests that a stream holds, and go on from what was left of it.
pub fn goes_on_from_rest()
    ensures { GoesOnFromRest }
{}

/// An ended stream stays ended, whatever comes after its last request or its fault.
pub fn stays_ended()
    ensures { StaysEnded }
{}

/// However a stream is cut into pieces, it gives the same requests and the same end.
pub fn pieces_do_not_matter()
    ensures { PiecesDoNotMatter }
{}

/// A fault of a stream is `Syntax`, `Encoding` or `TooLarge`.
pub fn has_stream_faults()
    ensures { HasStreamFaults }
{}

/// What a stream holds has exactly one place each, that of its last byte.
pub fn has_one_place_each()
    ensures { HasOnePlaceEach }
{}

/// A request comes with the piece that has its last byte, and no earlier or later one.
pub fn comes_with_last_byte()
    ensures { ComesWithLastByte }
{}

/// The end of a head is found exactly where the lines say it: behind any number of empty lines, at least one that isn't empty,
/// and an empty one.
pub fn heads_are_found()
    ensures { HeadsAreFound }
{}

/// A stream of replies begins in one way, and a reply or a fault at its front stays, whatever comes. So it
/// doesn't matter in which pieces a reply comes.
pub fn replies_have_one_reading()
    ensures { RepliesHaveOneReading }
{}

/// The bytes of a reply of ours, whatever comes behind them, are read as its status, its body and its bytes, and
/// what comes behind them is left: for each status of three digits, each body of at most 67,108,864 bytes, and each
/// reply that needs no memory.
pub fn replies_are_read_back()
    ensures { RepliesAreReadBack }
{}
