//! A server of many connections at once.

ghost use Rattle.std.specs.Prelude.{◌≡◌, IfErr, IfOk};
ghost use Rattle.store.specs.Calls.{GoesOn};
ghost use Rattle.engine.specs.Counts.{ServesWithin};
ghost use Rattle.engine.specs.Desks.{ServesAll};
ghost use Rattle.server.specs.Serving.{ServesMany, ServesManyWithin, limits_of};

use crate::address::{print_address, socket_fault};
use command_line::ProgramFault;
use engine::{EngineFault, Limits, Sockets, serve_all};
use hub::{FailureLog, Hub};
use sockets::Port;
use std::alloc::Global;
use std::net::Net;
use std::time::Clock;
use store::Store;

/// How many seconds a connection may be silent.
const IDLE: u64 = 60;

/// How many seconds a request may take until it is whole.
const REQUEST: u64 = 30;

/// Serves so many connections of a hub at a port of 127.0.0.1, or at a free one where the port is 0; at
/// most `at_once` of them are open at a time. Once it listens it prints the address. The answer is the
/// program's status, 0.
///
/// `Socket`: the port can't be bound, nothing be waited for, or a connection not be accepted. `File`:
/// the line can't be printed. `Memory`: memory ran out before it listened.
pub fn serve_many<R: Net + Clock + Print + AllocGlobal, S: Store + Drop, L: FailureLog + Drop>(
    rt: &R,
    hub: &mut Hub<S, L>,
    port: u16,
    conns: u32,
    at_once: u32,
) -> Result<u8, ProgramFault>
    ensures status { IfOk result (λ status. status ≡ 0) }
    ensures served { ServesMany S.Store hub.old hub.new }
    ensures within { ServesManyWithin S.Store (limits_of conns at_once) result hub.old hub.new }
    ensures configuration { hub.new.node.configuration ≡ hub.old.node.configuration }
    ensures onward { GoesOn S.Store hub.old.node.store hub.new.node.store }
{
    let mut sockets = open_port(rt, port)?;
    print_address(rt, sockets.address())?;
    serve_sockets(rt.alloc(), hub, &mut sockets, conns, at_once)
}

/// Binds a port of 127.0.0.1.
fn open_port<R: Net + Clock + AllocGlobal>(rt: &R, port: u16) -> Result<Port<'_, R>, ProgramFault> {
    match Port::open(rt, rt.alloc(), port) {
        Ok(sockets) => Ok(sockets),
        Err(error) => Err(socket_fault(&error)),
    }
}

/// Serves so many connections of a hub, whatever brings them; at most `at_once` of them are open at a
/// time. The answer is the program's status, 0.
///
/// A connection is closed where it is silent for 60 seconds, or where a request of it is not whole 30
/// seconds after its first byte. The only refusal is `Socket`: nothing could be waited for, or a
/// connection not be accepted.
pub fn serve_sockets<S: Store + Drop, L: FailureLog + Drop, W: Sockets>(
    alloc: Global,
    hub: &mut Hub<S, L>,
    sockets: &mut W,
    conns: u32,
    at_once: u32,
) -> Result<u8, ProgramFault>
    ensures status { IfOk result (λ status. status ≡ 0) }

    // All that was done is told by the acts that were logged.
    ensures served { ServesAll S.Store (record { hub = hub.old; log = W.log sockets.old }) (record { hub = hub.new; log = W.log sockets.new }) }

    // Just so many connections are accepted, and never more than that; at most `at_once` of them are open at a time.
    ensures within { ServesWithin S.Store (limits_of conns at_once) result (record { hub = hub.old; log = W.log sockets.old })
        (record { hub = hub.new; log = W.log sockets.new }) }
    ensures configuration { hub.new.node.configuration ≡ hub.old.node.configuration }
    ensures onward { GoesOn S.Store hub.old.node.store hub.new.node.store }
    ensures socket { IfErr result (λ fault. fault ≡ ProgramFault.Socket) }
{
    let limits = Limits {
        at_once: at_once as usize,
        idle: IDLE,
        request: REQUEST,
        conns: u64::from(conns),
    };
    match serve_all(alloc, hub, sockets, &limits) {
        Ok(()) => Ok(0),
        Err(EngineFault::Socket | EngineFault::Waits) => Err(ProgramFault::Socket),
    }
}
