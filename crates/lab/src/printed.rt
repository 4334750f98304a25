//! What a script prints.

ghost use Rattle.std.specs.Prelude.{◌≢◌, Err, OnOk};
ghost use Rattle.std.specs.Io.KnownBytes.{Appends};
ghost use Rattle.lab.specs.Printed.{closed_line, reply_line};

use crate::fault::LineFault;
use couch_http::Response;
use std::io::Write;

/// Prints a reply: `c STATUS BODY` and a line feed.
pub fn print_reply<W: Write>(out: &mut W, name: &[u8], reply: &Response) -> Result<(), LineFault>
    ensures printed { OnOk result (Appends (W.contents out.old) (W.contents out.new) (reply_line name.now reply.now)) }
    ensures faults { result ≢ Err LineFault.Line }
{
    let status = reply.status();
    out.write_all(name)?;
    write!(out, " {status} ")?;
    out.write_all(reply.body())?;
    out.write_all(b"\n")?;
    Ok(())
}

/// Prints that a connection has ended: `c closed` and a line feed.
pub fn print_closed<W: Write>(out: &mut W, name: &[u8]) -> Result<(), LineFault>
    ensures printed { OnOk result (Appends (W.contents out.old) (W.contents out.new) (closed_line name.now)) }
    ensures faults { result ≢ Err LineFault.Line }
{
    out.write_all(name)?;
    out.write_all(b" closed\n")?;
    Ok(())
}
