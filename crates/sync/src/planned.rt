//! The pass of a plan, between stores and servers.

ghost use Rattle.std.specs.Prelude.{◌≡◌, IfOk, if◌then◌else◌, string_bytes};
ghost use Rattle.sync.specs.Creating.{with_database};

use crate::address::Address;
use crate::configuring::configure;
use crate::creating::create_absent;
use crate::passing::watch_pass;
use crate::remote::Remote;
use crate::series::sync_series;
use crate::side::Side;
use crate::terminal::ProgressLine;
use command_line::{ProgramFault, SyncPlan, SyncSide};
use couch_json::Got;
use node::Node;
use server::open_node;
use std::alloc::Global;
use std::io;
use std::io::{Eprint, Write};
use std::net::{Net, TcpStream};
use std::time::Clock;
use store::Store;
use world::World;

/// Copies a database of a store to one of another.
pub fn sync_stores<R: Clock + Print + Eprint + AllocGlobal, S: Store + Drop>(
    rt: &R,
    plan: &SyncPlan,
    from: S,
    to: S,
    watch: &mut ProgressLine<'_, R>,
) -> Result<u8, ProgramFault> {
    let alloc = rt.alloc();
    let mut source = open_node(alloc, &plan.secret, &plan.admins, from)?;
    let target = open_target(alloc, plan, to)?;
    watch.ask_source(alloc, plan, &mut source);
    let mut world = World::new(alloc, both(alloc, source, target)?);
    let Ok(repl) = world.start(configure(alloc, plan)?, 0, 1) else {
        return Err(ProgramFault::Memory);
    };
    let mut out = io::writer(rt);
    let status = watch_pass(alloc, &mut world, repl, &mut out, watch)?;
    out.flush()?;
    Ok(status)
}

/// Opens the node of a target, and creates its database where that is absent and the plan says so.
fn open_target<S: Store + Drop>(
    alloc: Global,
    plan: &SyncPlan,
    store: S,
) -> Result<Node<S>, ProgramFault>
    ensures { IfOk result (λ node. S.is_honest node.store
        → S.contents node.store ≡ (if plan.now.create then with_database (S.contents store) (string_bytes plan.now.target_database) else S.contents store)) }
{
    let mut store = store;
    if plan.create {
        create_absent(alloc, &mut store, &plan.target_database)?;
    }
    open_node(alloc, &plan.secret, &plan.admins, store)
}

/// Returns two nodes as a list.
fn both<S: Store + Drop>(alloc: Global, first: Node<S>, second: Node<S>) -> Got<Vec<Node<S>>> {
    let mut nodes = Vec::new(alloc);
    nodes.push(first)?;
    nodes.push(second)?;
    Ok(nodes)
}

/// Copies a database between a store and the server at an address, in the direction of the plan.
pub fn sync_store<
    'a,
    R: Net<Stream = TcpStream> + Clock + Print + Eprint + AllocGlobal,
    S: Store + Drop,
>(
    rt: &'a R,
    plan: &SyncPlan,
    store: S,
    address: &'a str,
    watch: &mut ProgressLine<'_, R>,
) -> Result<u8, ProgramFault> {
    let server = Address::new(rt, address, true, plan.patience);
    match &plan.source {
        SyncSide::File(_) => push(rt, plan, store, server, watch),
        SyncSide::Address(_) => pull(rt, plan, server, store, watch),
    }
}

/// Copies a database of a store to one of a server.
fn push<R: Clock + Print + Eprint + AllocGlobal, S: Store + Drop, P: Side + Drop>(
    rt: &R,
    plan: &SyncPlan,
    store: S,
    server: P,
    watch: &mut ProgressLine<'_, R>,
) -> Result<u8, ProgramFault> {
    let mut source = open_node(rt.alloc(), &plan.secret, &plan.admins, store)?;
    let mut target = Remote::new(server);
    play(rt, plan, &mut source, &mut target, watch)
}

/// Copies a database of a server to one of a store.
fn pull<R: Clock + Print + Eprint + AllocGlobal, P: Side + Drop, S: Store + Drop>(
    rt: &R,
    plan: &SyncPlan,
    server: P,
    store: S,
    watch: &mut ProgressLine<'_, R>,
) -> Result<u8, ProgramFault> {
    let mut source = Remote::new(server);
    let mut target = open_target(rt.alloc(), plan, store)?;
    play(rt, plan, &mut source, &mut target, watch)
}

/// Copies a database of the server at an address to one of that at another. Of one server that serves one
/// connection after another, two that stay open would hold each other up: at one address none is kept.
pub fn sync_addresses<'a, R: Net<Stream = TcpStream> + Clock + Print + Eprint + AllocGlobal>(
    rt: &'a R,
    plan: &SyncPlan,
    from: &'a str,
    to: &'a str,
    watch: &mut ProgressLine<'_, R>,
) -> Result<u8, ProgramFault> {
    let keeps = from != to;
    let source = Address::new(rt, from, keeps, plan.patience);
    let target = Address::new(rt, to, keeps, plan.patience);
    relay(rt, plan, source, target, watch)
}

/// Copies a database of a server to one of another.
fn relay<R: Clock + Print + Eprint + AllocGlobal, P: Side + Drop, Q: Side + Drop>(
    rt: &R,
    plan: &SyncPlan,
    from: P,
    to: Q,
    watch: &mut ProgressLine<'_, R>,
) -> Result<u8, ProgramFault> {
    let mut source = Remote::new(from);
    let mut target = Remote::new(to);
    play(rt, plan, &mut source, &mut target, watch)
}

/// Plays the pass of a plan between two sides, and prints its report.
fn play<R: Clock + Print + Eprint + AllocGlobal, F: Side, T: Side>(
    rt: &R,
    plan: &SyncPlan,
    source: &mut F,
    target: &mut T,
    watch: &mut ProgressLine<'_, R>,
) -> Result<u8, ProgramFault> {
    let alloc = rt.alloc();
    watch.ask_source(alloc, plan, source);
    let mut out = io::writer(rt);
    let status = sync_series(alloc, plan, source, target, &mut out, watch)?;
    out.flush()?;
    Ok(status)
}
