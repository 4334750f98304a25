//! JSON values: read from bytes, written as canonical text, put in order, and looked into by field paths
//! (RFC 8259; CouchDB manual, ddocs/views/collation).
//!
//! [`read`] makes a [`Json`] of bytes, and [`canon`] writes its canonical text. A row of the tests:
//!
//! ```rows
//! {"b":1,"a":2,"b":3} => {"a":2,"b":3}
//! ```
#![tactic(auto)]

mod array_text;
mod collation;
mod copying;
mod fault;
mod field_path;
mod joining;
mod json_text;
mod key;
mod key_fault;
mod key_reading;
pub mod laws;
mod malformed;
mod members;
mod nested;
mod nesting;
mod no_memory;
mod number;
mod numeral;
mod object_text;
mod parsing;
mod reading;
mod value;
mod walking;
mod writing;

pub use array_text::ArrayText;
pub use collation::collate;
pub use fault::JsonFault;
pub use field_path::{FieldPath, PathFault, at};
pub use json_text::JsonText;
pub use key::key_bytes;
pub use key_fault::KeyFault;
pub use key_reading::key_of;
pub use malformed::Malformed;
pub use members::{is_among, put_member};
pub use name_map::NameMap;
pub use no_memory::{Got, NoMemory};
pub use number::Number;
pub use object_text::ObjectText;
pub use reading::read;
pub use value::Json;
pub use writing::canon;
