//! Events of a script, and what is seen of them.

ghost use Rattle.std.specs.Prelude.{◌≡◌, ◌≢◌, ℕ, List, Err, IfOk, OnOk, length, map};
ghost use Rattle.std.specs.Io.KnownBytes.{Appends};
ghost use Rattle.world.specs.Happening.{Sight};
ghost use Rattle.world.specs.Network.{AreHonest};
ghost use Rattle.world.specs.OneEvent.{happening_of, sight_of};
ghost use Rattle.lab.specs.Replies.{IsSent, IsShown, Runs, SaysItsEnd, is_end, says_end, sight_line, sight_lines};

use crate::fault::LineFault;
use crate::lab_store::LabStore;
use crate::printed::{print_closed, print_reply};
use crate::printed_steps::{print_end, print_step};
use std::alloc::Global;
use std::io::Write;
use store::Store;
use world::{Event, Seen, World};

/// Sends a piece on a connection, and prints each reply, or that the connection has ended.
pub fn send<S: Store + Drop, W: Write>(
    alloc: Global,
    world: &mut World<S>,
    conn: u64,
    name: &[u8],
    piece: Vec<u8>,
    out: &mut W,
) -> Result<(), LineFault>
    ensures sent { AreHonest S.Store world.new.nodes → OnOk result ((printed : List ℕ)
        × IsSent S.Store world.old conn piece.items name.now printed world.new × Appends (W.contents out.old) (W.contents out.new) printed) }
    ensures faults { result ≢ Err LineFault.Line }
    ensures many { OnOk result (length world.new.nodes ≡ length world.old.nodes) }
{
    if !world.is_open(conn) {
        return print_closed(out, name);
    }
    show(alloc, world, Event::Piece { conn, bytes: piece }, name, out)?;
    Ok(())
}

/// Runs a pass to its end, with at most so many exchanges, and prints them; and its end, also where the
/// last of these exchanges was the last of the pass.
pub fn run<S: LabStore, W: Write>(
    alloc: Global,
    world: &mut World<S>,
    repl: u64,
    most: u32,
    name: &[u8],
    out: &mut W,
) -> Result<(), LineFault>
    ensures ran { OnOk result ((printed : List ℕ) × Runs S.Store most world.old repl name.now printed world.new
        × Appends (W.contents out.old) (W.contents out.new) printed) }
    ensures faults { result ≢ Err LineFault.Line }
    ensures many { OnOk result (length world.new.nodes ≡ length world.old.nodes) }
{
    for _turn in 0..most {
        if show(alloc, world, Event::Exchange { repl }, name, out)? {
            return Ok(());
        }
    }
    show_end(alloc, world, repl, name, out)
}

/// Prints that a pass has ended, where it has.
fn show_end<S: LabStore, W: Write>(
    alloc: Global,
    world: &mut World<S>,
    repl: u64,
    name: &[u8],
    out: &mut W,
) -> Result<(), LineFault>
    ensures said { OnOk result ((printed : List ℕ) × SaysItsEnd S.Store world.old repl name.now printed world.new
        × Appends (W.contents out.old) (W.contents out.new) printed) }
    ensures faults { result ≢ Err LineFault.Line }
    ensures many { OnOk result (length world.new.nodes ≡ length world.old.nodes) }
{
    if !world.has_ended(repl) {
        return Ok(());
    }
    show(alloc, world, Event::Exchange { repl }, name, out)?;
    Ok(())
}

/// Has an event happen, and prints what is seen of it; tells whether that is the end of a pass.
pub fn show<S: Store + Drop, W: Write>(
    alloc: Global,
    world: &mut World<S>,
    event: Event,
    name: &[u8],
    out: &mut W,
) -> Result<bool, LineFault>
    ensures shown { AreHonest S.Store world.new.nodes → IfOk result (λ is_end. (seen : List Sight) × (printed : List ℕ)
        × IsShown S.Store world.old (happening_of event) name.now seen printed world.new × (says_end seen ≡ is_end)
        × Appends (W.contents out.old) (W.contents out.new) printed) }
    ensures faults { result ≢ Err LineFault.Line }
    ensures many { OnOk result (length world.new.nodes ≡ length world.old.nodes) }
{
    match world.play(&[event]) {
        Ok(seen) => {
            print_all(alloc, out, name, &seen)?;
            Ok(says_end(&seen))
        }
        Err(_) => Err(LineFault::Memory),
    }
}

/// Prints what was seen.
fn print_all<W: Write>(
    alloc: Global,
    out: &mut W,
    name: &[u8],
    seen: &[Seen],
) -> Result<(), LineFault>
    ensures printed { OnOk result (Appends (W.contents out.old) (W.contents out.new) (sight_lines name.now (map sight_of seen.now))) }
    ensures faults { result ≢ Err LineFault.Line }
{
    for one in seen {
        print_seen(alloc, out, name, one)?;
    }
    Ok(())
}

/// Prints one thing that was seen.
fn print_seen<W: Write>(
    alloc: Global,
    out: &mut W,
    name: &[u8],
    seen: &Seen,
) -> Result<(), LineFault>
    ensures printed { OnOk result (Appends (W.contents out.old) (W.contents out.new) (sight_line name.now (sight_of seen.now))) }
    ensures faults { result ≢ Err LineFault.Line }
{
    match seen {
        Seen::Replied { conn: _, response } => print_reply(out, name, response),
        Seen::Exchanged {
            repl: _,
            to_target,
            request,
            status,
        } => print_step(out, name, *to_target, request, *status),
        Seen::Ended { repl: _, ask } => print_end(alloc, out, name, ask),
    }
}

/// Tells whether a pass says that it has ended.
fn says_end(seen: &[Seen]) -> bool
    ensures { result ≡ says_end (map sight_of seen.now) }
{
    for one in seen {
        if is_end(one) {
            return true;
        }
    }
    false
}

fn is_end(seen: &Seen) -> bool
    ensures { result ≡ is_end (sight_of seen.now) }
{
    match seen {
        Seen::Ended { .. } => true,
        Seen::Replied { .. } | Seen::Exchanged { .. } => false,
    }
}
