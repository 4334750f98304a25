//! The declaration of an index.

use couch_json::FieldPath;

/// The declaration of an index, as its row says it.
#[derive(Drop)]
pub struct Declaration {
    /// Its number, which the rows of its entries name.
    pub number: i64,
    /// Its fields, in order.
    pub fields: Vec<FieldPath>,
}
