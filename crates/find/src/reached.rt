use tree::DocId;

/// How far the candidates of a source were taken.
#[derive(Drop)]
pub(crate) struct Reached {
    /// The last one that was taken, where the next ones are looked for behind it.
    pub(crate) last: Option<DocId>,
    /// So many were taken.
    pub(crate) count: u64,
}
