//! A pass between nodes of one world, from its start to its end.

ghost use Rattle.std.specs.Prelude.{◌≡◌, ◌⊎◌, ℕ, Err, IfErr, IfOk, OnErr, OnOk, false, length, map, option_map, true};
ghost use Rattle.std.specs.Io.KnownBytes.{Appends};
ghost use Rattle.repl.specs.Asks.{ask_of};
ghost use Rattle.repl.specs.Passes.{Asked};
ghost use Rattle.world.specs.Network.{AreHonest};
ghost use Rattle.world.specs.OneEvent.{sight_of, was_started};
ghost use Rattle.sync.specs.Ending.{IsUntold, StandsIn, end_text, status_of};
ghost use Rattle.sync.specs.Passing.{HasTurn, BreaksOff, end_in};
ghost use Rattle.sync.specs.Turns.{ComesToEnd, EndsEarly, RunsOut, StopsInTurn};

use crate::ending::{print_end, status_of};
use crate::limits::MOST_TURNS;
use crate::watch::{Unwatched, Watch};
use command_line::ProgramFault;
use repl::Ask;
use std::alloc::Global;
use std::io::Write;
use store::Store;
use world::{Event, Seen, World, WorldFault, WorldFaultKind};

/// Plays a pass of a world to its end, and prints its report as one line, behind `stopped WHY ` where it
/// stopped. Returns the program's status: 0 where the pass is done and nothing was refused, 3 where
/// something was, 4 where it stopped.
///
/// `File`: there is no such pass, it hasn't ended after 2^32 exchanges, or the line can't be written whole.
/// `Memory`: memory ran out. The exchanges so far stand, and one more may, whose reply may be lost.
pub fn sync_pass<S: Store + Drop, W: Write>(
    alloc: Global,
    world: &mut World<S>,
    repl: u64,
    writer: &mut W,
) -> Result<u8, ProgramFault>
    ensures ended { AreHonest S.Store world.new.nodes → IfOk result (λ status. (asked : Asked) × ComesToEnd (HasTurn S.Store repl) world.old asked world.new
        × (status ≡ status_of asked) × Appends (W.contents writer.old) (W.contents writer.new) (end_text asked)) }
    ensures known { OnOk result (was_started world.old.transfers repl ≡ true) }

    // At a refusal the exchanges so far stand, and one more may. What was printed before stands.
    ensures early { AreHonest S.Store world.new.nodes → OnErr result (EndsEarly (HasTurn S.Store repl) (BreaksOff S.Store repl) world.old world.new) }
    ensures kept { OnErr result (StandsIn (W.contents writer.old) (W.contents writer.new)) }
    ensures unknown { was_started world.old.transfers repl ≡ false → (result ≡ Err ProgramFault.File) ⊎ (result ≡ Err ProgramFault.Memory) }
    ensures faults { IfErr result (λ fault. (fault ≡ ProgramFault.File) ⊎ (fault ≡ ProgramFault.Memory)) }

    // Where memory ran out nothing was printed. Else the pass was never started, or it had not ended, or its line could not be printed whole.
    ensures memory { AreHonest S.Store world.new.nodes → result ≡ Err ProgramFault.Memory
        → StopsInTurn (HasTurn S.Store repl) (BreaksOff S.Store repl) world.old world.new × (W.contents writer.new ≡ W.contents writer.old) }
    ensures file { AreHonest S.Store world.new.nodes → result ≡ Err ProgramFault.File
        → ((was_started world.old.transfers repl ≡ false) × (W.contents writer.new ≡ W.contents writer.old))
        ⊎ IsUntold (HasTurn S.Store repl) world.old world.new (W.contents writer.old) (W.contents writer.new) }
{
    watch_pass(alloc, world, repl, writer, &mut Unwatched)
}

/// Plays a pass as `sync_pass` does, and tells how far it is, at each checkpoint.
pub fn watch_pass<S: Store + Drop, W: Write, T: Watch>(
    alloc: Global,
    world: &mut World<S>,
    repl: u64,
    writer: &mut W,
    watch: &mut T,
) -> Result<u8, ProgramFault>
    ensures ended { AreHonest S.Store world.new.nodes → IfOk result (λ status. (asked : Asked) × ComesToEnd (HasTurn S.Store repl) world.old asked world.new
        × (status ≡ status_of asked) × Appends (W.contents writer.old) (W.contents writer.new) (end_text asked)) }
    ensures known { OnOk result (was_started world.old.transfers repl ≡ true) }

    // At a refusal the exchanges so far stand, and one more may. What was printed before stands.
    ensures early { AreHonest S.Store world.new.nodes → OnErr result (EndsEarly (HasTurn S.Store repl) (BreaksOff S.Store repl) world.old world.new) }
    ensures kept { OnErr result (StandsIn (W.contents writer.old) (W.contents writer.new)) }
    ensures unknown { was_started world.old.transfers repl ≡ false → (result ≡ Err ProgramFault.File) ⊎ (result ≡ Err ProgramFault.Memory) }
    ensures faults { IfErr result (λ fault. (fault ≡ ProgramFault.File) ⊎ (fault ≡ ProgramFault.Memory)) }

    // Where memory ran out nothing was printed. Else the pass was never started, or it had not ended, or its line could not be printed whole.
    ensures memory { AreHonest S.Store world.new.nodes → result ≡ Err ProgramFault.Memory
        → StopsInTurn (HasTurn S.Store repl) (BreaksOff S.Store repl) world.old world.new × (W.contents writer.new ≡ W.contents writer.old) }
    ensures file { AreHonest S.Store world.new.nodes → result ≡ Err ProgramFault.File
        → ((was_started world.old.transfers repl ≡ false) × (W.contents writer.new ≡ W.contents writer.old))
        ⊎ IsUntold (HasTurn S.Store repl) world.old world.new (W.contents writer.old) (W.contents writer.new) }
{
    let end = play_to_end(world, repl, watch);
    watch.end();
    let end = end?;
    watch.tell_end(&end);
    print_end(alloc, writer, &end)?;
    Ok(status_of(&end))
}

/// Plays a pass to its end, and returns what it says there.
fn play_to_end<S: Store + Drop, T: Watch>(
    world: &mut World<S>,
    repl: u64,
    watch: &mut T,
) -> Result<Ask, ProgramFault>
    ensures ended { AreHonest S.Store world.new.nodes → IfOk result (λ end. ComesToEnd (HasTurn S.Store repl) world.old (ask_of end) world.new) }
    ensures known { OnOk result (was_started world.old.transfers repl ≡ true) }
    ensures memory { AreHonest S.Store world.new.nodes → result ≡ Err ProgramFault.Memory
        → StopsInTurn (HasTurn S.Store repl) (BreaksOff S.Store repl) world.old world.new }
    ensures early { AreHonest S.Store world.new.nodes → OnErr result (EndsEarly (HasTurn S.Store repl) (BreaksOff S.Store repl) world.old world.new) }
    ensures file { AreHonest S.Store world.new.nodes → result ≡ Err ProgramFault.File
        → (was_started world.old.transfers repl ≡ false) ⊎ RunsOut (HasTurn S.Store repl) world.old world.new }
    ensures unknown { was_started world.old.transfers repl ≡ false → (result ≡ Err ProgramFault.File) ⊎ (result ≡ Err ProgramFault.Memory) }
    ensures faults { IfErr result (λ fault. (fault ≡ ProgramFault.File) ⊎ (fault ≡ ProgramFault.Memory)) }
{
    for _turn in 0..MOST_TURNS {
        if let Some(end) = take_turn(world, repl, watch)? {
            return Ok(end);
        }
    }
    Err(ProgramFault::File)
}

/// Gives a pass its turn: it makes an exchange. Returns what it says where it has ended.
fn take_turn<S: Store + Drop, T: Watch>(
    world: &mut World<S>,
    repl: u64,
    watch: &mut T,
) -> Result<Option<Ask>, ProgramFault>
    ensures turn { AreHonest S.Store world.new.nodes → IfOk result (λ end. HasTurn S.Store repl world.old (option_map ask_of end) world.new) }
    ensures honest { AreHonest S.Store world.new.nodes → AreHonest S.Store world.old.nodes }
    ensures many { length world.new.transfers ≡ length world.old.transfers }
    ensures known { OnOk result (was_started world.old.transfers repl ≡ true) }
    ensures early { AreHonest S.Store world.new.nodes → OnErr result (BreaksOff S.Store repl world.old world.new) }
    ensures file { result ≡ Err ProgramFault.File → was_started world.old.transfers repl ≡ false }
    ensures unknown { was_started world.old.transfers repl ≡ false → (result ≡ Err ProgramFault.File) ⊎ (result ≡ Err ProgramFault.Memory) }
    ensures faults { IfErr result (λ fault. (fault ≡ ProgramFault.File) ⊎ (fault ≡ ProgramFault.Memory)) }
{
    let seen = match world.play(&[Event::Exchange { repl }]) {
        Ok(seen) => seen,
        Err(fault) => return Err(program_fault(&fault)),
    };
    if has_checkpoint(&seen)
        && let Some(progress) = world.progress(repl)
    {
        watch.tell(progress);
    }
    Ok(end_of(seen))
}

/// Tells what fault of the program a fault of the world is.
fn program_fault(fault: &WorldFault) -> ProgramFault
    ensures faults { (result ≡ ProgramFault.File) ⊎ (result ≡ ProgramFault.Memory) }
    ensures file { result ≡ ProgramFault.File → fault.now.kind ≡ WorldFaultKind.Unknown }
{
    match fault.kind {
        WorldFaultKind::Unknown => ProgramFault::File,
        WorldFaultKind::Memory => ProgramFault::Memory,
    }
}

/// Tells whether a pass wrote a checkpoint at its target, the last step of a round.
fn has_checkpoint(seen: &[Seen]) -> bool {
    for one in seen {
        if is_checkpoint(one) {
            return true;
        }
    }
    false
}

fn is_checkpoint(seen: &Seen) -> bool {
    match seen {
        Seen::Exchanged {
            repl: _,
            to_target,
            request,
            status: _,
        } => *to_target && request.method.as_str() == "PUT",
        Seen::Replied { .. } | Seen::Ended { .. } => false,
    }
}

/// Returns what a pass says at its end, among what was seen.
fn end_of(seen: Vec<Seen>) -> Option<Ask>
    ensures { option_map ask_of result ≡ end_in (map sight_of seen.items) }
{
    for one in seen {
        match one {
            Seen::Ended { repl: _, ask } => return Some(ask),
            Seen::Replied { .. } | Seen::Exchanged { .. } => {}
        }
    }
    None
}
