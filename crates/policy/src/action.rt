/// What a caller asks to do with the server or with a database.
#[derive(Clone, Copy, Debug, PartialEq, Eq)]
pub enum Action {
    /// List, create or remove databases.
    Administer,
    /// Read anything of a database, or write a local document.
    Read,
    /// Write a database's security object.
    WriteSecurity,
    /// Write a design document.
    WriteDesign,
    /// Write any other document.
    WriteDocument,
}
