//! A server: one connection after another.

ghost use Rattle.std.specs.Prelude.{◌≡◌, ◌≢◌, ◌++◌, ◌∷◌, [], IfErr, IfOk, OnErr, OnOk, false, map, string_bytes, true};
ghost use Rattle.store.specs.Calls.{GoesOn};
ghost use Rattle.hub.specs.Connections.{no_connections};
ghost use Rattle.server.specs.Accepting.{Serves, ServesOne, acceptances_of};
ghost use Rattle.server.specs.Serving.{WasServed};
ghost use Rattle.server.specs.declared.acceptance.Acceptance.{Acceptance};
ghost use Rattle.server.specs.declared.acceptance.Acceptance.TheVariants.{Failed};

use crate::listening::LoggedListener;
use auth::Auth;
use command_line::ProgramFault;
use hub::{FailureLog, Hub, ServiceEnd, serve_connection};
use node::{Node, Routes};
use std::alloc::Global;
use std::io::{ErrorKind, Read};
use std::net::{OpenListener, Shutdown, TcpStream};
use std::time::Duration;
use store::Store;

/// How many seconds a client that gets no more replies may be silent.
const LAST_SILENCE: u64 = 1;

/// How many bytes of it are taken at a time.
const PIECE: usize = 8_192;

/// How many times it is read at most.
const LAST_READS: u64 = 1_024;

/// Makes a node over a store, with this secret and these admins.
///
/// The only refusal is `Memory`.
pub fn open_node<S: Store + Drop>(
    alloc: Global,
    secret: &str,
    admins: &[String],
    store: S,
) -> Result<Node<S>, ProgramFault>
    ensures node { IfOk result (λ node. node ≡ record { store = store; configuration = record { secret = secret.now; admins = map string_bytes admins.now } }) }
    ensures memory { IfErr result (λ fault. fault ≡ ProgramFault.Memory) }
{
    let auth = Auth::new(alloc, secret.as_bytes(), admins)?;
    let routes = Routes::new(alloc)?;
    Ok(Node::new(alloc, store, auth, routes))
}

/// Makes the hub of a server over a store, with this secret and these admins, and without connections. The
/// log is told of each reply of 500.
///
/// The only refusal is `Memory`.
pub fn open_hub<S: Store + Drop, L: FailureLog + Drop>(
    alloc: Global,
    secret: &str,
    admins: &[String],
    store: S,
    log: L,
) -> Result<Hub<S, L>, ProgramFault>
    ensures store { IfOk result (λ hub. hub.node.store ≡ store) }
    ensures configuration { IfOk result (λ hub. hub.node.configuration ≡ record { secret = secret.now; admins = map string_bytes admins.now }) }
    ensures connections { IfOk result (λ hub. hub.connections ≡ no_connections) }
    ensures failures { IfOk result (λ hub. hub.failures ≡ L.told log) }
    ensures memory { IfErr result (λ fault. fault ≡ ProgramFault.Memory) }
{
    let node = open_node(alloc, secret, admins, store)?;
    Ok(Hub::with_log(alloc, node, log))
}

/// Serves so many connections of a hub, one after another. The answer is the program's status, 0.
///
/// A read or a write that waits longer than `patience` has failed. A connection whose bytes can't be
/// read or written ends, and the next one is served. One that was reset before it was accepted counts.
/// The only refusal is `Socket`: a connection could not be accepted.
pub fn serve<S: Store + Drop, F: FailureLog + Drop, L: OpenListener<Stream = TcpStream>>(
    hub: &mut Hub<S, F>,
    listener: &mut LoggedListener<'_, L>,
    conns: u32,
    patience: Duration,
) -> Result<u8, ProgramFault>
    ensures status { IfOk result (λ status. status ≡ 0) }

    // So many connections were accepted, or reset before. Each did to the hub what the definition of the service says, and nothing else did.
    ensures served { OnOk result (Serves S.Store conns (acceptances_of listener.old.log.items) (acceptances_of listener.new.log.items) true hub.old hub.new) }
    ensures failed { OnErr result (Serves S.Store conns (acceptances_of listener.old.log.items) (acceptances_of listener.new.log.items) false hub.old hub.new) }
    ensures configuration { hub.new.node.configuration ≡ hub.old.node.configuration }
    ensures onward { GoesOn S.Store hub.old.node.store hub.new.node.store }
    ensures socket { IfErr result (λ fault. fault ≡ ProgramFault.Socket) }
{
    for _number in 0..conns {
        serve_next(hub, listener, patience)?;
    }
    Ok(0)
}

/// Serves the next connection.
fn serve_next<S: Store + Drop, F: FailureLog + Drop, L: OpenListener<Stream = TcpStream>>(
    hub: &mut Hub<S, F>,
    listener: &mut LoggedListener<'_, L>,
    patience: Duration,
) -> Result<(), ProgramFault>
    ensures served { (a : Acceptance) × (acceptances_of listener.new.log.items ≡ acceptances_of listener.old.log.items ++ a ∷ [])
        × ServesOne S.Store a hub.old hub.new × OnOk result (a ≢ Failed) × OnErr result (a ≡ Failed) }
    ensures configuration { hub.new.node.configuration ≡ hub.old.node.configuration }
    ensures onward { GoesOn S.Store hub.old.node.store hub.new.node.store }
    ensures socket { IfErr result (λ fault. fault ≡ ProgramFault.Socket) }
{
    match listener.accept() {
        Ok((stream, _peer)) => {
            serve_stream(hub, &stream, patience);
            Ok(())
        }
        Err(error) if error.kind() == ErrorKind::ConnectionAborted => Ok(()),
        Err(_) => Err(ProgramFault::Socket),
    }
}

/// Serves a connection. Reads and writes that wait longer than `patience` fail, and a reply goes out as
/// soon as it is written, if the system can do that.
fn serve_stream<S: Store + Drop, F: FailureLog + Drop>(
    hub: &mut Hub<S, F>,
    stream: &TcpStream,
    patience: Duration,
)
    ensures served { WasServed S.Store hub.old hub.new }
    ensures configuration { hub.new.node.configuration ≡ hub.old.node.configuration }
    ensures onward { GoesOn S.Store hub.old.node.store hub.new.node.store }
{
    let _ = stream.set_nodelay(true);
    let _ = stream.set_read_timeout(Some(patience));
    let _ = stream.set_write_timeout(Some(patience));
    let mut reader = stream;
    let mut writer = stream;
    let end = serve_connection(hub, &mut reader, &mut writer);
    end_stream(end, stream);
}

/// Ends a connection whose service has ended, in stages where the server ended it.
fn end_stream(end: ServiceEnd, stream: &TcpStream) {
    match end {
        ServiceEnd::LastReply | ServiceEnd::Memory => end_in_stages(stream),
        ServiceEnd::EndOfInput
        | ServiceEnd::ReadFailed
        | ServiceEnd::WriteFailed
        | ServiceEnd::TooManyReads
        | ServiceEnd::Full => {}
    }
}

/// Sees that the last reply reaches a client that is still sending: tells it that nothing more comes,
/// and takes what it sends, up to its end or a second of silence. See RFC 9112, section 9.6.
fn end_in_stages(stream: &TcpStream) {
    if stream.shutdown(Shutdown::Write).is_err() {
        return;
    }
    if stream
        .set_read_timeout(Some(Duration::from_secs(LAST_SILENCE)))
        .is_err()
    {
        return;
    }
    let mut room = [0; PIECE];
    let mut reader = stream;
    for _number in 0..LAST_READS {
        match reader.read(&mut room) {
            Ok(0) => return,
            Ok(_) => {}
            Err(_) => return,
        }
    }
}
