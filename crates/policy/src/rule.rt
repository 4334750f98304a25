use tree::DocId;

/// The rules of the written policy, by which a denial names what refused.
#[derive(Debug, Drop)]
pub enum Rule {
    /// The proxy's token vouches for the caller's name.
    ProxyToken,
    /// The caller is a server admin: has the role `_admin`.
    ServerAdmin,
    /// The caller is a member of the database.
    DbMember,
    /// The caller is an admin of the database, for its security object.
    DbAdmin,
    /// The caller is an admin of the database, for its design documents.
    DesignDocument,
    /// The update rule of this design document accepts the write.
    Update(DocId),
}
