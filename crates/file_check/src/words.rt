//! The words for what a check finds.

use crate::finding::{Table, Wrong};

impl Table {
    /// Returns the name of the table in a file; `schema` stands for all tables.
    pub fn name(self) -> &'static str {
        match self {
            Table::Schema => "schema",
            Table::Meta => "meta",
            Table::Databases => "dbs",
            Table::Documents => "docs",
            Table::Revisions => "revs",
            Table::Locals => "locals",
            Table::Declarations => "decls",
            Table::Entries => "entries",
        }
    }
}

impl Wrong {
    /// Returns the word for what is wrong, as docs/OPERATE.md explains it.
    pub fn word(self) -> &'static str {
        match self {
            Wrong::Layout => "layout",
            Wrong::Cell => "cell",
            Wrong::Name => "name",
            Wrong::Text => "text",
            Wrong::Unowned => "owner",
            Wrong::Sequence => "sequence",
            Wrong::Winner => "winner",
            Wrong::Parent => "parent",
            Wrong::Index => "index",
            Wrong::Missing => "missing",
            Wrong::First => "first",
        }
    }
}
