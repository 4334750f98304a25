//! What a store needs to make pages of rows: their cuts, and an index that is made a document at a time.

pub use crate::indexes::read_index_fields;
pub use crate::order::cut_to_limit;
pub use crate::plain_id_pages::cut_by_id;
pub use crate::plain_index_pages::{cut_by_key, list_index_rows, put_in_index};
pub use crate::plain_sequence_pages::cut_by_sequence;
