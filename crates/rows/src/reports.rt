//! What came of the rows.

use crate::fault::RowsFault;
use crate::file::Row;
use crate::texts::put_escaped;
use std::alloc::Global;
use std::fmt::Write;

/// What came of the rows that were played.
#[derive(Drop)]
pub struct Report {
    /// Where texts lie.
    pub alloc: Global,
    /// How many rows of the open table came out as they should: wrong ones, where it is wrong on purpose.
    well: usize,
    /// A line for each table: `FILE: TITLE: N rows`, of those that came out as they should.
    pub tables: String,
    /// What differs: `FILE:LINE: QUESTION`, and below it what was wanted and what came.
    pub differences: String,
}

impl Report {
    /// Returns an empty report. Takes no memory.
    pub fn new(alloc: Global) -> Report {
        Report {
            alloc,
            well: 0,
            tables: String::new(alloc),
            differences: String::new(alloc),
        }
    }

    /// Tells that something is wrong with a file.
    pub fn object(&mut self, file: &str, line: usize, what: &str) -> Result<(), RowsFault> {
        write!(self.differences, "{file}:{line}: {what}\n")?;
        Ok(())
    }

    /// Ends a table: tells how many of its rows came out as they should.
    pub fn end(&mut self, file: &str, title: &str) -> Result<(), RowsFault> {
        let well = self.well;
        self.well = 0;
        write!(self.tables, "{file}: {title}: {well} rows\n")?;
        Ok(())
    }

    /// Compares what came with what was wanted.
    pub fn compare(
        &mut self,
        file: &str,
        row: &Row,
        got: &str,
        is_wrong: bool,
    ) -> Result<(), RowsFault> {
        let is_right = row.answer.as_slice() == got.as_bytes();
        if is_right != is_wrong {
            self.well = self.well.saturating_add(1);
            return Ok(());
        }
        let line = row.line;
        write!(self.differences, "{file}:{line}: ")?;
        self.tell(&row.question)?;
        if is_wrong {
            self.differences
                .push_str("  is right in a table of rows that are wrong on purpose ")?;
            return self.tell(got.as_bytes());
        }
        self.differences.push_str("  wanted ")?;
        self.tell(&row.answer)?;
        self.differences.push_str("  got    ")?;
        self.tell(got.as_bytes())
    }

    /// Ends a line with bytes, as a text with escapes.
    fn tell(&mut self, bytes: &[u8]) -> Result<(), RowsFault> {
        put_escaped(self.alloc, bytes, &mut self.differences)?;
        self.differences.push('\n')?;
        Ok(())
    }
}
