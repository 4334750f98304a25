//! A store behind a port of this machine.

ghost use Rattle.std.specs.Prelude.{◌≡◌, IfOk};

use crate::address::{print_address, socket_fault};
use crate::error_log::{ErrorLog, print_end};
use crate::listening::LoggedListener;
use crate::many::serve_many;
use crate::serving::{open_hub, serve};
use command_line::ProgramFault;
use hub::{FailureLog, Hub};
use std::io::Eprint;
use std::net::{Ipv4Addr, Net, OpenListener, SocketAddr, TcpListener, TcpStream};
use std::time::{Clock, Duration};
use store::Store;

/// How many seconds a read or a write of a connection may wait.
const PATIENCE: u64 = 30;

/// Serves a store at a port of 127.0.0.1, or at a free one where the port is 0: so many connections, one
/// after another where `at_once` is 1, else at most `at_once` at a time. Once it listens it prints
/// `listening 127.0.0.1:` and the port. The answer is the program's status.
///
/// Where `is_logged`, it prints a line on standard error for each reply of 500, and one for its end: when,
/// and why.
///
/// `Socket`: the port can't be bound, or a connection not be accepted. `File`: the line can't be
/// printed. `Memory`: memory ran out.
pub fn serve_store<
    R: Net<Stream = TcpStream> + Clock + Print + Eprint + AllocGlobal,
    S: Store + Drop,
>(
    rt: &R,
    secret: &str,
    admins: &[String],
    store: S,
    port: u16,
    conns: u32,
    at_once: u32,
    is_logged: bool,
) -> Result<u8, ProgramFault>
    ensures { IfOk result (λ status. status ≡ 0) }
{
    let log = ErrorLog::new(rt, is_logged);
    let served = match open_hub(rt.alloc(), secret, admins, store, log) {
        Ok(hub) => serve_hub(rt, hub, port, conns, at_once),
        Err(fault) => Err(fault),
    };
    if is_logged {
        print_end(rt, &served);
    }
    served
}

/// Serves a hub at a port of 127.0.0.1, for one connection after another or for many at once.
fn serve_hub<
    R: Net<Stream = TcpStream> + Clock + Print + AllocGlobal,
    S: Store + Drop,
    F: FailureLog + Drop,
>(rt: &R, mut hub: Hub<S, F>, port: u16, conns: u32, at_once: u32) -> Result<u8, ProgramFault>
    ensures { IfOk result (λ status. status ≡ 0) }
{
    if at_once > 1 {
        serve_many(rt, &mut hub, port, conns, at_once)
    } else {
        serve_each(rt, &mut hub, port, conns)
    }
}

/// Serves so many connections of a hub at a port of 127.0.0.1, one after another. A connection ends
/// where a read or a write of it waits for 30 seconds.
fn serve_each<R: Net<Stream = TcpStream> + Print, S: Store + Drop, F: FailureLog + Drop>(
    rt: &R,
    hub: &mut Hub<S, F>,
    port: u16,
    conns: u32,
) -> Result<u8, ProgramFault>
    ensures { IfOk result (λ status. status ≡ 0) }
{
    let listener = listen(rt, port)?;
    print_address(rt, listener.local_addr())?;
    let mut logged = LoggedListener::new(&listener);
    serve(hub, &mut logged, conns, Duration::from_secs(PATIENCE))
}

/// Binds a port of 127.0.0.1.
fn listen<R: Net>(rt: &R, port: u16) -> Result<R::Listener, ProgramFault> {
    match TcpListener::bind(rt, SocketAddr::from((Ipv4Addr::LOCALHOST, port))) {
        Ok(listener) => Ok(listener),
        Err(error) => Err(socket_fault(&error)),
    }
}
