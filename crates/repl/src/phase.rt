use crate::why::Why;

/// What a pass does next.
#[derive(Clone, Copy, Debug, PartialEq, Eq)]
pub enum Phase {
    /// Read the checkpoint of the source.
    ReadSource,
    /// Read the checkpoint of the target.
    ReadTarget,
    /// List the changes of the source.
    ListChanges,
    /// Ask the target which of the leaves it lacks.
    Compare,
    /// Open the next document of which revisions are missing.
    Open,
    /// Push the documents that came.
    Push,
    /// Write the checkpoint of the source.
    WriteSource,
    /// Write the checkpoint of the target.
    WriteTarget,
    /// Read the checkpoint of the source after the reply to its write was lost.
    RereadSource,
    /// Read the checkpoint of the target after the reply to its write was lost.
    RereadTarget,
    /// Nothing: all is done.
    Done,
    /// Nothing: the pass stopped.
    Stopped(Why),
}
