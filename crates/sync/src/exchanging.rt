ghost use Rattle.std.specs.Prelude.{◌≡◌, ◌++◌, ◌+◌, ◌^◌, ◌∷◌, [], ◌<◌, ◌≤◌, Bool, IfOk, List, ℕ, length};
ghost use Rattle.std.specs.Io.KnownBytes.{Consumes};
ghost use Rattle.couch_http.specs.Message.{message_of};
ghost use Rattle.couch_http.specs.RequestText.{request_text};
ghost use Rattle.couch_http.specs.Writing.{Takes};
ghost use Rattle.sync.specs.Exchange.{Exchanges, ExchangesBytes, ReadsBytes};
ghost use Rattle.sync.specs.Pieces.{IsTurn};
ghost use Rattle.sync.specs.Streams.{outcomes_of};
ghost use Rattle.sync.specs.declared.outcome.Outcome.{Outcome};

use crate::answer::Answer;
use crate::exchange_end::ExchangeEnd;
use crate::logged::Logged;
use crate::outcome::Outcome;
use crate::turn::Turn;
use crate::writing::write_logged;
use couch_http::{HttpFault, ReplyCutter, Request, request_bytes};
use couch_json::{Got, NoMemory};
use std::alloc::Global;
use std::io::{Read, Write};

/// How many bytes are read at a time at most.
const PIECE: usize = 8_192;

/// How many times a reply is read at most.
const READS: u64 = 1_048_576;

/// Writes a request, and reads its reply, which is `Lost` where a write failed or took no byte, a read
/// failed, there was nothing more to read, or it isn't whole after 1,048,576 reads of up to 8,192 bytes. It
/// is `Unreadable` where the bytes are no reply, or none that a server of this repository gives (RFC 9112).
///
/// A read or a write that is interrupted is made again. Where the request isn't written whole nothing is
/// read. What comes behind the reply is dropped.
pub fn exchange<R: Read, W: Write>(
    alloc: Global,
    request: &Request,
    reader: &mut Logged<R>,
    writer: &mut Logged<W>,
) -> Got<Answer>
    ensures wrote { (all : Bool) × Takes (W.contents writer.old.stream) (W.contents writer.new.stream) (request_text (message_of request.now)) all }
    ensures reply { IfOk result (Exchanges (request_text (message_of request.now))
        (record { bytes = R.remaining reader.old.stream; log = outcomes_of reader.old.log.items })
        (record { bytes = R.remaining reader.new.stream; log = outcomes_of reader.new.log.items })
        (record { bytes = W.contents writer.old.stream; log = outcomes_of writer.old.log.items })
        (record { bytes = W.contents writer.new.stream; log = outcomes_of writer.new.log.items })) }
{
    Ok(make_exchange(alloc, request, reader, writer)?.answer)
}

/// Makes an exchange as `exchange` does, and counts the bytes that were read.
pub fn make_exchange<R: Read, W: Write>(
    alloc: Global,
    request: &Request,
    reader: &mut Logged<R>,
    writer: &mut Logged<W>,
) -> Got<ExchangeEnd>
    ensures wrote { (all : Bool) × Takes (W.contents writer.old.stream) (W.contents writer.new.stream) (request_text (message_of request.now)) all }
    ensures exchange { IfOk result (λ end. ExchangesBytes (request_text (message_of request.now))
        (record { bytes = R.remaining reader.old.stream; log = outcomes_of reader.old.log.items })
        (record { bytes = R.remaining reader.new.stream; log = outcomes_of reader.new.log.items })
        (record { bytes = W.contents writer.old.stream; log = outcomes_of writer.old.log.items })
        (record { bytes = W.contents writer.new.stream; log = outcomes_of writer.new.log.items }) end.answer end.read) }
{
    let bytes = request_bytes(alloc, request)?;
    exchange_bytes(alloc, &bytes, reader, writer)
}

/// Writes the bytes of a request, or of several, and reads the reply to the first.
pub(crate) fn exchange_bytes<R: Read, W: Write>(
    alloc: Global,
    bytes: &[u8],
    reader: &mut Logged<R>,
    writer: &mut Logged<W>,
) -> Got<ExchangeEnd>
    ensures wrote { (all : Bool) × Takes (W.contents writer.old.stream) (W.contents writer.new.stream) bytes.now all }
    ensures exchange { IfOk result (λ end. ExchangesBytes bytes.now
        (record { bytes = R.remaining reader.old.stream; log = outcomes_of reader.old.log.items })
        (record { bytes = R.remaining reader.new.stream; log = outcomes_of reader.new.log.items })
        (record { bytes = W.contents writer.old.stream; log = outcomes_of writer.old.log.items })
        (record { bytes = W.contents writer.new.stream; log = outcomes_of writer.new.log.items }) end.answer end.read) }
{
    if !write_logged(writer, bytes) {
        return Ok(ExchangeEnd {
            answer: Answer::Lost,
            read: 0,
        });
    }
    read_reply(alloc, reader)
}

/// Reads a reply, as `exchange` does.
pub(crate) fn read_reply<R: Read>(alloc: Global, reader: &mut Logged<R>) -> Got<ExchangeEnd>
    ensures { IfOk result (λ end. ReadsBytes
        (record { bytes = R.remaining reader.old.stream; log = outcomes_of reader.old.log.items })
        (record { bytes = R.remaining reader.new.stream; log = outcomes_of reader.new.log.items }) end.answer end.read) }
{
    let mut cutter = ReplyCutter::new(alloc);
    let mut room = [0; PIECE];
    let mut read = 0;
    for _number in 0..READS {
        match read_piece(reader, &mut room, &mut cutter, &mut read)? {
            Turn::Waits => {}
            Turn::Whole(reply) => {
                return Ok(ExchangeEnd {
                    answer: Answer::Reply(reply),
                    read,
                });
            }
            Turn::Lost => {
                return Ok(ExchangeEnd {
                    answer: Answer::Lost,
                    read,
                });
            }
            Turn::Broken => {
                return Ok(ExchangeEnd {
                    answer: Answer::Unreadable,
                    read,
                });
            }
        }
    }
    Ok(ExchangeEnd {
        answer: Answer::Lost,
        read,
    })
}

/// Reads one piece of a reply, counts its bytes, and takes it in. Where the read is interrupted nothing has
/// come.
fn read_piece<R: Read>(
    reader: &mut Logged<R>,
    room: &mut [u8],
    cutter: &mut ReplyCutter,
    read: &mut u64,
) -> Got<Turn>
    requires room { 0 < length room.old }
    requires fits { read.old + length room.old < 2 ^ 64 }
    ensures room { length room.new ≡ length room.old }
    ensures turn { (outcome : Outcome) × (piece : List ℕ)
        × (outcomes_of reader.new.log.items ≡ outcomes_of reader.old.log.items ++ outcome ∷ [])
        × Consumes (R.remaining reader.old.stream) (R.remaining reader.new.stream) piece
        × (read.new ≡ read.old + length piece) × (length piece ≤ length room.old)
        × IfOk result (λ turn. IsTurn cutter.old outcome piece turn cutter.new) }
{
    match reader.read(room) {
        Outcome::Bytes(0) => Ok(Turn::Lost),
        Outcome::Bytes(count) => {
            *read += count as u64;
            take_reply_piece(cutter, &room[..count])
        }
        Outcome::Interrupted => Ok(Turn::Waits),
        Outcome::Failed => Ok(Turn::Lost),
    }
}

/// Takes in one piece of a reply.
fn take_reply_piece(cutter: &mut ReplyCutter, piece: &[u8]) -> Got<Turn>
    ensures { (outcome : Outcome) → IfOk result (λ turn. IsTurn cutter.old outcome piece.now turn cutter.new) }
{
    match cutter.feed(piece) {
        Ok(Some(reply)) => Ok(Turn::Whole(reply)),
        Ok(None) => Ok(Turn::Waits),
        Err(HttpFault::Memory) => Err(NoMemory),
        Err(_) => Ok(Turn::Broken),
    }
}
