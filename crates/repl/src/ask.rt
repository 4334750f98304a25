use crate::report::Report;
use crate::why::Why;
use couch_http::Request;

/// What a pass asks for next.
#[derive(Debug, Drop)]
pub enum Ask {
    /// A request to the server of the source.
    ToSource(Request),
    /// A request to the server of the target.
    ToTarget(Request),
    /// Nothing: the pass is done.
    Done(Report),
    /// Nothing: the pass stopped, and this is the report so far.
    Stopped(Why, Report),
}
