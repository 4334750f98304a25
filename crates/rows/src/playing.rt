//! Playing the tables of a file.

use crate::fault::RowsFault;
use crate::file::{Row, RowFile, Table};
use crate::kinds::Kind;
use crate::nodes::Nodes;
use crate::reports::Report;
use crate::texts::text_of;
use lab::LabStore;
use std::alloc::Global;

/// A question, with what its file says above it.
#[derive(Clone, Copy)]
pub struct Asked<'a> {
    /// Where answers lie.
    pub alloc: Global,
    /// The lines of the file's head.
    pub head: &'a [String],
    /// The rows above this one in its table.
    pub above: &'a [Row],
    /// What is asked.
    pub question: &'a [u8],
}

impl<'a> Asked<'a> {
    /// Returns the question as text; one that is no text is empty.
    pub fn text(&self) -> &'a str {
        text_of(self.question)
    }
}

/// Plays the rows of a file, whose nodes have stores of one kind.
pub fn play_over<S: LabStore>(
    kind: Kind,
    name: &str,
    file: &RowFile,
    report: &mut Report,
) -> Result<(), RowsFault> {
    let mut nodes = Nodes::<S>::new(report.alloc);
    for table in &file.tables {
        nodes.begin();
        play_table(kind, name, &file.head, table, &mut nodes, report)?;
    }
    Ok(())
}

/// Plays the rows of a table.
fn play_table<S: LabStore>(
    kind: Kind,
    name: &str,
    head: &[String],
    table: &Table,
    nodes: &mut Nodes<S>,
    report: &mut Report,
) -> Result<(), RowsFault> {
    for (place, row) in table.rows.iter().enumerate() {
        let asked = Asked {
            alloc: report.alloc,
            head,
            above: table.rows.get(..place).unwrap_or(&[]),
            question: &row.question,
        };
        let mut got = String::new(report.alloc);
        answer(kind, nodes, asked, &mut got)?;
        report.compare(name, row, got.as_str(), table.is_wrong)?;
    }
    report.end(name, table.title.as_str())
}

/// Adds the answer to a question: of a refusal its word, of a fault its name.
fn answer<S: LabStore>(
    kind: Kind,
    nodes: &mut Nodes<S>,
    asked: Asked<'_>,
    out: &mut String,
) -> Result<(), RowsFault> {
    match kind.answer(nodes, asked, out) {
        Ok(()) | Err(RowsFault::Named) => Ok(()),
        Err(RowsFault::Refused(word)) => {
            out.clear();
            out.push_str(word)?;
            Ok(())
        }
        Err(fault) => Err(fault),
    }
}
