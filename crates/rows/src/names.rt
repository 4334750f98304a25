//! Names that stand for texts.

use crate::fault::RowsFault;
use std::alloc::Global;

/// The names that are known, each with a blank and its text behind it.
#[derive(Drop)]
pub struct Names {
    alloc: Global,
    entries: Vec<String>,
}

impl Names {
    /// Returns a list without names. Takes no memory.
    pub fn new(alloc: Global) -> Names {
        Names {
            alloc,
            entries: Vec::new(alloc),
        }
    }

    /// Returns how many names there are.
    pub fn count(&self) -> usize {
        self.entries.len()
    }

    /// Forgets all names but the first so many.
    pub fn keep(&mut self, count: usize) {
        self.entries.truncate(count);
    }

    /// Gives a name to a text that is repeated so many times.
    pub fn define(&mut self, name: &str, count: u32, text: &str) -> Result<(), RowsFault> {
        self.entries.push(String::from_str(self.alloc, name)?)?;
        let Some(entry) = self.entries.last_mut() else {
            return Ok(());
        };
        entry.push(' ')?;
        for _time in 0..count {
            entry.push_str(text)?;
        }
        Ok(())
    }

    /// Adds a text in which each known name between `<` and `>` is replaced by its text.
    pub fn replace(&self, text: &str, out: &mut String) -> Result<(), RowsFault> {
        let mut pieces = text.split('<');
        out.push_str(pieces.next().unwrap_or(""))?;
        for piece in pieces {
            self.put_piece(piece, out)?;
        }
        Ok(())
    }

    /// Adds a piece that a `<` stands before.
    fn put_piece(&self, piece: &str, out: &mut String) -> Result<(), RowsFault> {
        let (name, rest) = piece.split_once('>').unwrap_or((piece, ""));
        match self.text_of(name) {
            Some(text) if name.len() < piece.len() => {
                out.push_str(text)?;
                out.push_str(rest)?;
            }
            _ => {
                out.push('<')?;
                out.push_str(piece)?;
            }
        }
        Ok(())
    }

    /// Returns the text of a name, of several the latest.
    fn text_of(&self, wanted: &str) -> Option<&str> {
        for entry in self.entries.iter().rev() {
            match entry.as_str().split_once(' ') {
                Some((name, text)) if name == wanted => return Some(text),
                _ => {}
            }
        }
        None
    }
}
