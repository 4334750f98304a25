/// What a path leads to.
#[derive(Clone, Copy, Debug, PartialEq, Eq)]
pub enum Page {
    /// `/`: the server itself.
    Welcome,
    /// `/_all_dbs`: the names of all databases.
    AllDatabases,
    /// `/{db}` and `/{db}/`: a database.
    Database,
    /// `/{db}/_security`: a database's security object.
    Security,
    /// `/{db}/_bulk_docs`: documents of a database that are written together.
    BulkDocuments,
    /// `/{db}/_all_docs`: the documents of a database, by id.
    AllDocuments,
    /// `/{db}/_changes`: the documents of a database, by the sequence of their latest write.
    Changes,
    /// `/{db}/_revs_diff`: which revisions a database doesn't know.
    Differences,
    /// `/{db}/_find`: the documents of a database that match a selector.
    Find,
    /// `/{db}/_index`: an index that is declared.
    Index,
    /// `/{db}/_design/{name}/_view/{index}`: the rows of an index.
    View,
    /// `/{db}/{id}` and `/{db}/_design/{name}`: a document.
    Document,
    /// `/{db}/_local/{name}`, and `/{db}/{id}` where the id begins so: a local document.
    LocalDocument,
}
