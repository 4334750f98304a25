//! Files of rows.

use crate::fault::RowsFault;
use crate::names::Names;
use crate::texts::unescape;
use std::alloc::Global;

/// A question, and what has to come back.
#[derive(Drop)]
pub struct Row {
    /// The line that it begins at, counted from 1.
    pub line: usize,
    /// What is asked.
    pub question: Vec<u8>,
    /// What has to come back.
    pub answer: Vec<u8>,
}

/// Rows that are played one after the other, from the same start.
#[derive(Drop)]
pub struct Table {
    /// What the rows show.
    pub title: String,
    /// Whether each row is wrong on purpose.
    pub is_wrong: bool,
    /// The rows in their order.
    pub rows: Vec<Row>,
}

/// What a file says.
#[derive(Drop)]
pub struct RowFile {
    /// The lines of its head, which hold for each of its tables.
    pub head: Vec<String>,
    /// The tables in their order.
    pub tables: Vec<Table>,
}

/// How the lines of a question or an answer become one text.
#[derive(Clone, Copy)]
pub enum Joint {
    /// Nothing stands between them, and blanks around each are dropped: for JSON.
    Nothing,
    /// A line feed stands between them: for scripts, and for pieces of a stream.
    LineFeed,
}

/// How much of the open row was read.
#[derive(Clone, Copy)]
enum Stage {
    /// No row is open.
    Closed,
    /// No line of its question, or an empty one beside the sign of escapes.
    Empty,
    /// The line that the row begins with.
    Asked,
    /// Others behind that.
    AskedMore,
    /// Its question, and lines of its answer.
    Answered,
}

/// A file as far as it was read.
#[derive(Drop)]
struct Reader {
    alloc: Global,
    joint: Joint,
    names: Names,
    names_of_head: usize,
    file: RowFile,
    stage: Stage,
    line: usize,
    is_escaped: bool,
    question: String,
    answer: String,
    replaced: String,
}

/// Reads a file of rows. `Line` is the first line that has no place in it.
pub fn read_file(alloc: Global, text: &str, joint: Joint) -> Result<RowFile, RowsFault> {
    let mut reader = Reader {
        alloc,
        joint,
        names: Names::new(alloc),
        names_of_head: 0,
        file: RowFile {
            head: Vec::new(alloc),
            tables: Vec::new(alloc),
        },
        stage: Stage::Closed,
        line: 0,
        is_escaped: false,
        question: String::new(alloc),
        answer: String::new(alloc),
        replaced: String::new(alloc),
    };
    reader.take_all(text)?;
    Ok(reader.file)
}

impl Reader {
    /// Takes in all lines of a text.
    fn take_all(&mut self, text: &str) -> Result<(), RowsFault> {
        for (place, line) in text.lines().enumerate() {
            self.take(place.saturating_add(1), line.trim_ascii_end())?;
        }
        self.close()
    }

    /// Takes in the next line.
    fn take(&mut self, number: usize, line: &str) -> Result<(), RowsFault> {
        if line.starts_with('#') {
            return Ok(());
        }
        let (word, rest) = line.split_once(' ').unwrap_or((line, ""));
        match word {
            "" if line.is_empty() => self.close(),
            "==" => self.begin_table(rest, false),
            "=!" => self.begin_table(rest, true),
            "let" => self.define(number, rest, false),
            "times" => self.define(number, rest, true),
            ">" => self.ask(number, rest),
            "<" => self.answer(number, rest),
            "\\" => self.begin_row(number, rest, true),
            _ => self.begin_row(number, line, false),
        }
    }

    /// Begins a table. Names that the table before it defined are forgotten.
    fn begin_table(&mut self, title: &str, is_wrong: bool) -> Result<(), RowsFault> {
        self.close()?;
        if self.file.tables.is_empty() {
            self.names_of_head = self.names.count();
        }
        self.names.keep(self.names_of_head);
        self.file.tables.push(Table {
            title: String::from_str(self.alloc, title)?,
            is_wrong,
            rows: Vec::new(self.alloc),
        })?;
        Ok(())
    }

    /// Gives a name to a text, or to one that is repeated. Known names in it are replaced first.
    fn define(&mut self, number: usize, rest: &str, is_repeated: bool) -> Result<(), RowsFault> {
        self.close()?;
        let broken = RowsFault::Line(number, "not all of a definition");
        let Some((name, rest)) = rest.trim_ascii_start().split_once(' ') else {
            return Err(broken);
        };
        let rest = rest.trim_ascii_start();
        let (count, text) = if is_repeated {
            rest.split_once(' ').unwrap_or(("", ""))
        } else {
            ("1", rest)
        };
        let Ok(count) = count.parse::<u32>() else {
            return Err(broken);
        };
        self.replaced.clear();
        self.names.replace(text, &mut self.replaced)?;
        self.names.define(name, count, self.replaced.as_str())
    }

    /// Begins a row or, before the first table, takes in a line of the head.
    fn begin_row(&mut self, number: usize, text: &str, is_escaped: bool) -> Result<(), RowsFault> {
        self.close()?;
        if self.file.tables.is_empty() {
            let mut line = String::new(self.alloc);
            self.names.replace(text, &mut line)?;
            self.file.head.push(line)?;
            return Ok(());
        }
        self.replaced.clear();
        self.names.replace(text, &mut self.replaced)?;
        let (question, answer) = parts_of(self.replaced.as_str());
        self.line = number;
        self.is_escaped = is_escaped;
        self.question.push_str(question)?;
        self.stage = match answer {
            Some(answer) => {
                self.answer.push_str(answer)?;
                Stage::Answered
            }
            None if question.is_empty() => Stage::Empty,
            None => Stage::Asked,
        };
        Ok(())
    }

    /// Takes in a line of a question: of the open row, or of a new one.
    fn ask(&mut self, number: usize, text: &str) -> Result<(), RowsFault> {
        if self.file.tables.is_empty() {
            return Err(RowsFault::Line(number, "a question before the first table"));
        }
        match (self.stage, self.joint) {
            (Stage::Closed | Stage::Answered, _) => {
                self.close()?;
                self.line = number;
                self.is_escaped = false;
            }
            (Stage::Asked, Joint::Nothing) => self.question.push(' ')?,
            (Stage::Asked | Stage::AskedMore, Joint::LineFeed) => self.question.push('\n')?,
            (Stage::Empty, _) | (Stage::AskedMore, Joint::Nothing) => {}
        }
        self.stage = Stage::AskedMore;
        self.replaced.clear();
        self.names.replace(text, &mut self.replaced)?;
        put_line(&mut self.question, self.replaced.as_str(), self.joint)
    }

    /// Takes in a line of an answer.
    fn answer(&mut self, number: usize, text: &str) -> Result<(), RowsFault> {
        match (self.stage, self.joint) {
            (Stage::Closed, _) => {
                return Err(RowsFault::Line(number, "an answer without a question"));
            }
            (Stage::Answered, Joint::LineFeed) => self.answer.push('\n')?,
            _ => {}
        }
        self.stage = Stage::Answered;
        self.replaced.clear();
        self.names.replace(text, &mut self.replaced)?;
        put_line(&mut self.answer, self.replaced.as_str(), self.joint)
    }

    /// Ends the open row. `Line` where it has no answer, or a backslash begins no escape.
    fn close(&mut self) -> Result<(), RowsFault> {
        match self.stage {
            Stage::Closed => return Ok(()),
            Stage::Answered => {}
            _ => return Err(RowsFault::Line(self.line, "a question without an answer")),
        }
        let mut row = Row {
            line: self.line,
            question: Vec::new(self.alloc),
            answer: Vec::new(self.alloc),
        };
        put_bytes(
            self.line,
            self.question.as_str(),
            self.is_escaped,
            &mut row.question,
        )?;
        put_bytes(
            self.line,
            self.answer.as_str(),
            self.is_escaped,
            &mut row.answer,
        )?;
        if let Some(table) = self.file.tables.last_mut() {
            table.rows.push(row)?;
        }
        self.question.clear();
        self.answer.clear();
        self.stage = Stage::Closed;
        Ok(())
    }
}

/// Returns what stands before and behind the last ` => `, without the blanks around it.
fn parts_of(text: &str) -> (&str, Option<&str>) {
    if let Some((question, answer)) = text.rsplit_once(" => ") {
        return (question.trim_ascii(), Some(answer.trim_ascii()));
    }
    match text.strip_suffix(" =>") {
        Some(question) => (question.trim_ascii(), Some("")),
        None => (text.trim_ascii(), None),
    }
}

/// Adds a line.
fn put_line(text: &mut String, line: &str, joint: Joint) -> Result<(), RowsFault> {
    text.push_str(match joint {
        Joint::Nothing => line.trim_ascii(),
        Joint::LineFeed => line,
    })?;
    Ok(())
}

/// Adds the bytes of a text, with its escapes read where it has some.
fn put_bytes(
    line: usize,
    text: &str,
    is_escaped: bool,
    bytes: &mut Vec<u8>,
) -> Result<(), RowsFault> {
    if !is_escaped {
        bytes.extend_from_slice(text.as_bytes())?;
        return Ok(());
    }
    match unescape(text, bytes) {
        Err(RowsFault::Refused(why)) => Err(RowsFault::Line(line, why)),
        read => read,
    }
}
