//! The end of a pass: what is printed of it, and the program's status.

ghost use Rattle.std.specs.Prelude.{◌≡◌, ◌++◌, ◌∷◌, [], IfErr, IfOk, OnOk, map};
ghost use Rattle.std.specs.Io.KnownBytes.{Appends};
ghost use Rattle.couch_json.specs.View.{view};
ghost use Rattle.repl.specs.Asks.{ask_of, report_of};
ghost use Rattle.repl.specs.Ending.{summary_text};
ghost use Rattle.sync.specs.Ending.{IsUnwritten, end_text, status_of, status_of_refused};

use command_line::ProgramFault;
use couch_http::write_bytes;
use couch_json::{Got, Json, NoMemory};
use repl::{Ask, Report, print_why};
use std::alloc::Global;
use std::io::Write;

/// Prints the report of a pass as one line, behind `stopped WHY ` where it stopped. Nothing is printed of
/// a pass that has a request.
///
/// `Memory`: memory ran out, and nothing is printed. `File`: the line can't be written whole.
pub fn print_end<W: Write>(alloc: Global, writer: &mut W, ask: &Ask) -> Result<(), ProgramFault>
    ensures ok { OnOk result (Appends (W.contents writer.old) (W.contents writer.new) (end_text (ask_of ask.now))) }
    ensures err { IfErr result (IsUnwritten (W.contents writer.old) (W.contents writer.new) (end_text (ask_of ask.now))) }
{
    let line = end_line(alloc, ask)?;
    if write_bytes(writer, &line) {
        Ok(())
    } else {
        Err(ProgramFault::File)
    }
}

/// Returns the line that is printed of the end of a pass.
fn end_line(alloc: Global, ask: &Ask) -> Got<Vec<u8>>
    ensures { IfOk result (λ line. line.items ≡ end_text (ask_of ask.now)) }
{
    let mut line = Vec::new(alloc);
    match ask {
        Ask::Done(report) => add_report(alloc, &mut line, report)?,
        Ask::Stopped(why, report) => {
            line.extend_from_slice(b"stopped ")?;
            if print_why(&mut line, *why).is_err() {
                return Err(NoMemory);
            }
            line.push(b' ')?;
            add_report(alloc, &mut line, report)?;
        }
        Ask::ToSource(_) | Ask::ToTarget(_) => {}
    }
    Ok(line)
}

/// Adds the canonical JSON text of a report, and a line feed.
fn add_report(alloc: Global, line: &mut Vec<u8>, report: &Report) -> Got<()>
    ensures { OnOk result (line.new.items ≡ line.old.items ++ (summary_text (report_of report.now) ++ 10 ∷ [])) }
{
    let text = report.text(alloc)?;
    line.extend_from_slice(text.as_bytes())?;
    line.push(b'\n')?;
    Ok(())
}

/// Returns the program's status at the end of a pass: 0 where it is done and nothing was refused, 3
/// where something was, 4 where it stopped.
pub fn status_of(ask: &Ask) -> u8
    ensures { result ≡ status_of (ask_of ask.now) }
{
    match ask {
        Ask::Done(report) => status_of_refused(&report.refused),
        Ask::Stopped(_, _) => 4,
        Ask::ToSource(_) | Ask::ToTarget(_) => 0,
    }
}

fn status_of_refused(refused: &[Json]) -> u8
    ensures { result ≡ status_of_refused (map view refused.now) }
{
    if refused.is_empty() { 0 } else { 3 }
}
