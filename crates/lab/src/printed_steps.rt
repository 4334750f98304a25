//! What a script prints of replication passes.

ghost use Rattle.std.specs.Prelude.{◌≡◌, ◌≢◌, Err, OnOk, string_bytes};
ghost use Rattle.std.specs.Io.KnownBytes.{Appends};
ghost use Rattle.couch_http.specs.Message.{message_of};
ghost use Rattle.repl.specs.Asks.{ask_of, report_of};
ghost use Rattle.repl.specs.Passes.{done, stopped_by};
ghost use Rattle.lab.specs.Printed.{end_line_of, outcome_end, request_words, side_words, step_line_of, target_of};

use crate::fault::LineFault;
use couch_http::Request;
use repl::{Ask, Report, Why, print_why};
use std::alloc::Global;
use std::io::Write;

/// Prints an exchange of a pass: `r source METHOD TARGET STATUS`, or `r target ..`, and a line feed.
///
/// `lost` stands in place of a status of 0.
pub fn print_step<W: Write>(
    out: &mut W,
    name: &[u8],
    to_target: bool,
    request: &Request,
    status: u16,
) -> Result<(), LineFault>
    ensures printed { OnOk result (Appends (W.contents out.old) (W.contents out.new) (step_line_of name.now to_target (message_of request.now) status)) }
    ensures faults { result ≢ Err LineFault.Line }
{
    print_side(out, name, to_target)?;
    print_request(out, request)?;
    print_outcome(out, status)
}

/// Prints the name of a pass and ` source ` or ` target `.
fn print_side<W: Write>(out: &mut W, name: &[u8], to_target: bool) -> Result<(), LineFault>
    ensures printed { OnOk result (Appends (W.contents out.old) (W.contents out.new) (side_words name.now to_target)) }
    ensures faults { result ≢ Err LineFault.Line }
{
    out.write_all(name)?;
    if to_target {
        out.write_all(b" target ")?;
    } else {
        out.write_all(b" source ")?;
    }
    Ok(())
}

/// Prints `METHOD TARGET`.
fn print_request<W: Write>(out: &mut W, request: &Request) -> Result<(), LineFault>
    ensures printed { OnOk result (Appends (W.contents out.old) (W.contents out.new) (request_words (message_of request.now))) }
    ensures faults { result ≢ Err LineFault.Line }
{
    out.write_all(request.method.as_str().as_bytes())?;
    out.write_all(b" ")?;
    print_target(out, request)
}

/// Prints the path of a request and, where it has a query, `?` and the query.
fn print_target<W: Write>(out: &mut W, request: &Request) -> Result<(), LineFault>
    ensures printed { OnOk result (Appends (W.contents out.old) (W.contents out.new) (target_of (message_of request.now))) }
    ensures faults { result ≢ Err LineFault.Line }
{
    out.write_all(request.path.as_bytes())?;
    if let Some(query) = &request.query {
        out.write_all(b"?")?;
        out.write_all(query.as_bytes())?;
    }
    Ok(())
}

/// Prints a space, a status, or `lost` where it is 0, and a line feed.
fn print_outcome<W: Write>(out: &mut W, status: u16) -> Result<(), LineFault>
    ensures printed { OnOk result (Appends (W.contents out.old) (W.contents out.new) (outcome_end status)) }
    ensures faults { result ≢ Err LineFault.Line }
{
    if status == 0 {
        out.write_all(b" lost\n")?;
    } else {
        write!(out, " {status}\n")?;
    }
    Ok(())
}

/// Prints the end of a pass: `r done REPORT` or `r stopped WHY REPORT`, and a line feed. Nothing is
/// printed of a pass that has a request.
pub fn print_end<W: Write>(
    alloc: Global,
    out: &mut W,
    name: &[u8],
    ask: &Ask,
) -> Result<(), LineFault>
    ensures printed { OnOk result (Appends (W.contents out.old) (W.contents out.new) (end_line_of name.now (ask_of ask.now))) }
    ensures faults { result ≢ Err LineFault.Line }
{
    match ask {
        Ask::Done(report) => print_done(alloc, out, name, report),
        Ask::Stopped(why, report) => print_stopped(alloc, out, name, *why, report),
        Ask::ToSource(_) | Ask::ToTarget(_) => Ok(()),
    }
}

fn print_done<W: Write>(
    alloc: Global,
    out: &mut W,
    name: &[u8],
    report: &Report,
) -> Result<(), LineFault>
    ensures printed { OnOk result (Appends (W.contents out.old) (W.contents out.new) (end_line_of name.now (done (report_of report.now)))) }
    ensures faults { result ≢ Err LineFault.Line }
{
    let text = report.text(alloc)?;
    out.write_all(name)?;
    out.write_all(b" done ")?;
    out.write_all(text.as_bytes())?;
    out.write_all(b"\n")?;
    Ok(())
}

fn print_stopped<W: Write>(
    alloc: Global,
    out: &mut W,
    name: &[u8],
    why: Why,
    report: &Report,
) -> Result<(), LineFault>
    ensures printed { OnOk result (Appends (W.contents out.old) (W.contents out.new) (end_line_of name.now (stopped_by why (report_of report.now)))) }
    ensures faults { result ≢ Err LineFault.Line }
{
    let text = report.text(alloc)?;
    out.write_all(name)?;
    out.write_all(b" stopped ")?;
    print_why(out, why)?;
    out.write_all(b" ")?;
    out.write_all(text.as_bytes())?;
    out.write_all(b"\n")?;
    Ok(())
}
