//! One connection, served from the bytes of a reader to those of a writer.

ghost use Rattle.std.specs.Prelude.{◌≡◌, ◌≢◌, ◌<◌, ◌≤◌, ℕ, Bool, List, length, true, false, None, Some};
ghost use Rattle.store.specs.Calls.{GoesOn};
ghost use Rattle.hub.specs.Connections.{is_open, next_connection};
ghost use Rattle.hub.specs.Parts.{ServesPart};
ghost use Rattle.hub.specs.Service.{IsServed, Serves, ServesOrTurnsAway, bytes_of, end_after_farewell};
ghost use Rattle.hub.specs.Service.{end_after_replies, farewell, greatest_piece, greatest_reads};
ghost use Rattle.std.specs.Io.KnownBytes.{Appends};
ghost use Rattle.couch_http.specs.Writing.{Takes};

use crate::failure_log::FailureLog;
use crate::fault::HubFault;
use crate::hub::Hub;
use crate::parts::measure_part;
use crate::replies::Replies;
use crate::service_end::ServiceEnd;
use couch_http::{Fixed, Response, read_some, write_bytes};
use std::io::{Read, Write};
use store::Store;

/// How many bytes a piece has at most.
const PIECE: usize = 8_192;

/// How many times a connection is read at most. A read that is interrupted and made again counts once.
const READS: u64 = 1_048_576;

/// Serves one connection of a hub: reads pieces of up to 8,192 bytes, and writes the replies to them in
/// order. Returns why it ended; the connection is closed then.
///
/// A write that takes no byte has failed. A read or a write that is interrupted is made again. Where memory
/// runs out, the fixed reply with status 503 is written, and the connection ends. See RFC 9112, section 9.3.
pub fn serve_connection<S: Store + Drop, L: FailureLog + Drop, R: Read, W: Write>(
    hub: &mut Hub<S, L>,
    reader: &mut R,
    writer: &mut W,
) -> ServiceEnd
    ensures served { ServesOrTurnsAway S.Store (record { hub = hub.old; input = R.remaining reader.old; output = W.contents writer.old }) result
        (record { hub = hub.new; input = R.remaining reader.new; output = W.contents writer.new }) }
    ensures ended { is_open hub.new.connections (next_connection hub.old.connections) ≡ false }
    ensures configuration { hub.new.node.configuration ≡ hub.old.node.configuration }
    ensures onward { GoesOn S.Store hub.old.node.store hub.new.node.store }
{
    match hub.open() {
        Ok(conn) => {
            let end = serve_pieces(hub, conn, reader, writer);
            hub.close(conn);
            end
        }
        Err(HubFault::Full) => ServiceEnd::Full,
        Err(HubFault::Unknown | HubFault::Closed | HubFault::Memory) => write_farewell(writer),
    }
}

/// Serves an open connection, piece by piece.
fn serve_pieces<S: Store + Drop, L: FailureLog + Drop, R: Read, W: Write>(
    hub: &mut Hub<S, L>,
    conn: u64,
    reader: &mut R,
    writer: &mut W,
) -> ServiceEnd
    requires { is_open hub.old.connections conn ≡ true }
    ensures served { (count : ℕ) × (result ≡ ServiceEnd.TooManyReads → count ≡ greatest_reads) × Serves S.Store conn (Some result) count
        (record { hub = hub.old; input = R.remaining reader.old; output = W.contents writer.old })
        (record { hub = hub.new; input = R.remaining reader.new; output = W.contents writer.new }) }
    ensures configuration { hub.new.node.configuration ≡ hub.old.node.configuration }
    ensures onward { GoesOn S.Store hub.old.node.store hub.new.node.store }
{
    let mut room = [0; PIECE];
    for _number in 0..READS {
        if let Some(end) = serve_read(hub, conn, reader, &mut room, writer) {
            return end;
        }
    }
    ServiceEnd::TooManyReads
}

/// Reads one piece of an open connection, and writes the replies to it. Returns why the service ends, or
/// `None` where it goes on.
fn serve_read<S: Store + Drop, L: FailureLog + Drop, R: Read, W: Write>(
    hub: &mut Hub<S, L>,
    conn: u64,
    reader: &mut R,
    room: &mut [u8],
    writer: &mut W,
) -> Option<ServiceEnd>
    requires open { is_open hub.old.connections conn ≡ true }
    requires room { length room.old ≡ greatest_piece }
    ensures room { length room.new ≡ greatest_piece }
    ensures served { (count : ℕ) × (result ≡ None → count ≡ 1) × Serves S.Store conn result count
        (record { hub = hub.old; input = R.remaining reader.old; output = W.contents writer.old })
        (record { hub = hub.new; input = R.remaining reader.new; output = W.contents writer.new }) }
    ensures reads { result ≢ Some ServiceEnd.TooManyReads }
    ensures configuration { hub.new.node.configuration ≡ hub.old.node.configuration }
    ensures onward { GoesOn S.Store hub.old.node.store hub.new.node.store }
{
    match read_some(reader, room) {
        Ok(0) => Some(ServiceEnd::EndOfInput),
        Ok(count) => serve_piece(hub, conn, &room[..count], writer),
        Err(_) => Some(ServiceEnd::ReadFailed),
    }
}

/// Feeds a piece to an open connection, part by part. The replies to each part are written before the next
/// one is fed.
fn serve_piece<S: Store + Drop, L: FailureLog + Drop, W: Write>(
    hub: &mut Hub<S, L>,
    conn: u64,
    piece: &[u8],
    writer: &mut W,
) -> Option<ServiceEnd>
    requires open { is_open hub.old.connections conn ≡ true }
    requires size { length piece.now ≤ greatest_piece }
    requires some { 0 < length piece.now }
    ensures served { (count : ℕ) × (result ≡ None → count ≡ 1) × (written : List ℕ) × Appends (W.contents writer.old) (W.contents writer.new) written
        × IsServed S.Store hub.old conn result count piece.now written hub.new }
    ensures reads { (result ≢ Some ServiceEnd.TooManyReads) × (result ≢ Some ServiceEnd.EndOfInput) }
    ensures configuration { hub.new.node.configuration ≡ hub.old.node.configuration }
    ensures onward { GoesOn S.Store hub.old.node.store hub.new.node.store }
{
    let mut rest = piece;
    while !rest.is_empty() {
        let (part, others) = rest.split_at(measure_part(rest));
        if let Some(end) = serve_part(hub, conn, part, writer) {
            return Some(end);
        }
        rest = others;
    }
    None
}

/// Feeds a part of a piece to an open connection, and writes the replies to it.
fn serve_part<S: Store + Drop, L: FailureLog + Drop, W: Write>(
    hub: &mut Hub<S, L>,
    conn: u64,
    part: &[u8],
    writer: &mut W,
) -> Option<ServiceEnd>
    requires { is_open hub.old.connections conn ≡ true }
    ensures served { ServesPart S.Store hub.old conn part.now result (W.contents writer.old) (W.contents writer.new) hub.new }
    ensures open { result ≡ None → is_open hub.new.connections conn ≡ true }
    ensures reads { (result ≢ Some ServiceEnd.TooManyReads) × (result ≢ Some ServiceEnd.EndOfInput) }
    ensures configuration { hub.new.node.configuration ≡ hub.old.node.configuration }
    ensures onward { GoesOn S.Store hub.old.node.store hub.new.node.store }
{
    match hub.feed(conn, part) {
        Ok(replies) => write_replies(writer, &replies),
        Err(HubFault::Memory) => Some(write_farewell(writer)),
        Err(HubFault::Unknown | HubFault::Closed | HubFault::Full) => unreachable!(),
    }
}

/// Writes replies. Returns why the service ends, or `None` where it goes on.
fn write_replies<W: Write>(writer: &mut W, replies: &Replies) -> Option<ServiceEnd>
    ensures { (whole : Bool) × (result ≡ end_after_replies whole replies.now.last)
        × Takes (W.contents writer.old) (W.contents writer.new) (bytes_of replies.now.list.items) whole }
{
    if !write_all(writer, &replies.list) {
        return Some(ServiceEnd::WriteFailed);
    }
    if replies.last {
        Some(ServiceEnd::LastReply)
    } else {
        None
    }
}

/// Writes the fixed reply where memory ran out. Returns why the service ends.
fn write_farewell<W: Write>(writer: &mut W) -> ServiceEnd
    ensures { (whole : Bool) × (result ≡ end_after_farewell whole) × Takes (W.contents writer.old) (W.contents writer.new) farewell whole }
{
    let farewell = Response::fixed(Fixed::NoRoom { last: true });
    if write_bytes(writer, farewell.bytes()) {
        ServiceEnd::Memory
    } else {
        ServiceEnd::WriteFailed
    }
}

/// Writes replies one after another, up to a write that fails. Returns whether all were written.
fn write_all<W: Write>(writer: &mut W, replies: &[Response]) -> bool
    ensures { Takes (W.contents writer.old) (W.contents writer.new) (bytes_of replies.now) result }
{
    for reply in replies {
        if !write_bytes(writer, reply.bytes()) {
            return false;
        }
    }
    true
}
