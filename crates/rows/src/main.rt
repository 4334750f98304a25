//! Plays tables of rows: what is asked, and what has to come back.
//!
//! A file of rows is written to be read. Its head says what all of its tables have in common, a
//! table has a title, and a row has a question and an answer:
//!
//! ```text
//! == a document that was never written
//! anybody GET /db/b => 404 {"error":"not_found","reason":"missing"}
//! ```
//!
//! CONTRIBUTING.md has the whole format. A file's ending says which kind its rows are of. Nothing
//! proves that rows are compared: so each kind of rows has a table whose rows are wrong on purpose,
//! and a right one among them is a difference.
#![tactic(auto)]

mod callers;
mod command_lines;
mod fault;
mod file;
mod kinds;
mod names;
mod nodes;
mod pages;
mod pieces;
mod playing;
mod policies;
mod received;
mod replies;
mod reports;
mod scripts;
mod selectors;
mod sent;
mod texts;
mod trees;
mod values;

use fault::RowsFault;
use file::read_file;
use kinds::Kind;
use playing::play_over;
use reports::Report;
use sqlstore::MemoryStore;
use std::alloc::Global;
use std::env;
use std::env::Env;
use std::fs::{read_dir, read_to_string};
use std::process::ExitCode;
use std::rt::Files;
use store::PlainStore;
use texts::first_word;

/// Plays the files that the command line names or, where it names none, all files of the folder.
///
/// The status is 0 where each row is as its answer says, else 1, with what differs on standard error. A
/// fault stands there behind the program's name.
fn main(rt: HostRuntime) -> ExitCode {
    let mut report = Report::new(rt.alloc());
    let played = play_files(&rt, &mut report);
    let _ = print!(rt; "{}", report.tables);
    let _ = eprint!(rt; "{}", report.differences);
    match played {
        Ok(()) if report.differences.is_empty() => ExitCode::SUCCESS,
        Ok(()) => ExitCode::FAILURE,
        Err(fault) => {
            let _ = eprintln!(rt; "rows: {fault}");
            ExitCode::FAILURE
        }
    }
}

/// Plays the files.
fn play_files<R: Env + Files + AllocGlobal + Clone + Drop>(
    rt: &R,
    report: &mut Report,
) -> Result<(), RowsFault> {
    let mut names = Vec::new(rt.alloc());
    put_names(rt, &mut names)?;
    for name in &names {
        let text = read_to_string(rt, name.as_str())?;
        play_file(rt.alloc(), name.as_str(), text.as_str(), report)?;
    }
    Ok(())
}

/// Adds the names of the files to play: the words of the command line or, where there are none, all
/// names in the folder that the program runs in, in the order of their bytes.
fn put_names<R: Env + Files + AllocGlobal + Clone + Drop>(
    rt: &R,
    names: &mut Vec<String>,
) -> Result<(), RowsFault> {
    for word in env::args(rt)?.skip(1) {
        names.push(word)?;
    }
    if !names.is_empty() {
        return Ok(());
    }
    for entry in read_dir(rt, ".")? {
        names.push(String::from_str(rt.alloc(), entry?.file_name())?)?;
    }
    names.sort()?;
    Ok(())
}

/// Plays a file. Rows about nodes are played twice: over plain stores, and over tables.
fn play_file(alloc: Global, name: &str, text: &str, report: &mut Report) -> Result<(), RowsFault> {
    let (_, ending) = name.rsplit_once('.').unwrap_or(("", ""));
    let Some(kind) = Kind::of_ending(ending) else {
        return report.object(name, 1, "no kind of rows has this ending");
    };
    let file = match read_file(alloc, text, kind.joint()) {
        Ok(file) => file,
        Err(RowsFault::Line(line, what)) => return report.object(name, line, what),
        Err(fault) => return Err(fault),
    };
    for line in &file.head {
        if !kind.may_begin_with(first_word(line.as_str()).0) {
            report.object(name, 1, line.as_str())?;
        }
    }
    play_over::<PlainStore>(kind, name, &file, report)?;
    if kind.has_nodes() {
        let name = format!(in alloc; "{name} over tables")?;
        play_over::<MemoryStore>(kind, name.as_str(), &file, report)?;
    }
    Ok(())
}
