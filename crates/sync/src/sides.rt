//! A pass between two sides, from its start to its end.

ghost use Rattle.std.specs.Prelude.{◌≡◌, ◌⊎◌, Err, IfErr, IfOk, OnErr, OnOk, option_map};
ghost use Rattle.std.specs.Io.KnownBytes.{Appends};
ghost use Rattle.couch_http.specs.Message.{message_of};
ghost use Rattle.repl.specs.Asks.{ask_of, pass_of};
ghost use Rattle.repl.specs.Passes.{Asked};
ghost use Rattle.sync.specs.Ending.{IsUntold, StandsIn, end_text, status_of};
ghost use Rattle.sync.specs.Sides.{BreaksOff, HasTurn, MayBreakOff, pass_with_answer};
ghost use Rattle.sync.specs.Turns.{ComesToEnd, EndsBy, EndsEarly, StopsInTurn};
ghost use Rattle.sync.specs.declared.answer.Answer.{Answer};

use crate::ahead::MOST_AHEAD;
use crate::answer::Answer;
use crate::ending::{print_end, status_of};
use crate::limits::MOST_TURNS;
use crate::side::Side;
use crate::watch::Watch;
use command_line::ProgramFault;
use couch_http::Request;
use couch_json::Got;
use repl::{Ask, Replication};
use std::alloc::Global;
use std::io::Write;

/// Plays a pass from one side to another to its end, and prints its report as one line, behind
/// `stopped WHY ` where it stopped. Returns the program's status: 0 where the pass is done and nothing was
/// refused, 3 where something was, 4 where it stopped.
///
/// `File`: the pass hasn't ended after 2^32 exchanges, or the line can't be written whole. `Memory`: memory
/// ran out. The exchanges so far stand, and one more may, whose reply the pass didn't take in.
pub fn sync_sides<F: Side, T: Side, W: Write, V: Watch>(
    alloc: Global,
    source: &mut F,
    target: &mut T,
    pass: &mut Replication,
    writer: &mut W,
    watch: &mut V,
) -> Result<u8, ProgramFault>
    ensures ended { F.is_honest source.new → T.is_honest target.new → IfOk result (λ status. (asked : Asked)
        × ComesToEnd (HasTurn F.answers T.answers) (record { source = source.old; target = target.old; pass = pass_of pass.old }) asked
        (record { source = source.new; target = target.new; pass = pass_of pass.new })
        × (status ≡ status_of asked) × Appends (W.contents writer.old) (W.contents writer.new) (end_text asked)) }

    // At a refusal the exchanges so far stand, and the side that was asked may have answered once more. What was printed before stands.
    ensures early { F.is_honest source.new → T.is_honest target.new → OnErr result (EndsEarly (HasTurn F.answers T.answers) (BreaksOff F.answers F.breaks_off T.answers T.breaks_off)
        (record { source = source.old; target = target.old; pass = pass_of pass.old })
        (record { source = source.new; target = target.new; pass = pass_of pass.new })) }
    ensures kept { OnErr result (StandsIn (W.contents writer.old) (W.contents writer.new)) }
    ensures faults { IfErr result (λ fault. (fault ≡ ProgramFault.File) ⊎ (fault ≡ ProgramFault.Memory)) }

    // Where memory ran out nothing was printed.
    ensures memory { F.is_honest source.new → T.is_honest target.new → result ≡ Err ProgramFault.Memory
        → StopsInTurn (HasTurn F.answers T.answers) (BreaksOff F.answers F.breaks_off T.answers T.breaks_off)
        (record { source = source.old; target = target.old; pass = pass_of pass.old })
        (record { source = source.new; target = target.new; pass = pass_of pass.new })
        × (W.contents writer.new ≡ W.contents writer.old) }

    // Else the pass had not ended, or its line could not be printed whole.
    ensures file { F.is_honest source.new → T.is_honest target.new → result ≡ Err ProgramFault.File → IsUntold (HasTurn F.answers T.answers)
        (record { source = source.old; target = target.old; pass = pass_of pass.old })
        (record { source = source.new; target = target.new; pass = pass_of pass.new })
        (W.contents writer.old) (W.contents writer.new) }
{
    let end = play_to_end(alloc, source, target, pass, watch);
    watch.end();
    let end = end?;
    watch.tell_end(&end);
    print_end(alloc, writer, &end)?;
    Ok(status_of(&end))
}

/// Plays a pass to its end, and returns what it says there.
pub(crate) fn play_to_end<F: Side, T: Side, V: Watch>(
    alloc: Global,
    source: &mut F,
    target: &mut T,
    pass: &mut Replication,
    watch: &mut V,
) -> Result<Ask, ProgramFault>
    ensures ended { F.is_honest source.new → T.is_honest target.new → IfOk result (λ end. ComesToEnd (HasTurn F.answers T.answers)
        (record { source = source.old; target = target.old; pass = pass_of pass.old }) (ask_of end)
        (record { source = source.new; target = target.new; pass = pass_of pass.new })) }
    ensures early { F.is_honest source.new → T.is_honest target.new → IfErr result (EndsBy (HasTurn F.answers T.answers) (BreaksOff F.answers F.breaks_off T.answers T.breaks_off)
        (record { source = source.old; target = target.old; pass = pass_of pass.old })
        (record { source = source.new; target = target.new; pass = pass_of pass.new })) }
    ensures faults { IfErr result (λ fault. (fault ≡ ProgramFault.File) ⊎ (fault ≡ ProgramFault.Memory)) }
    ensures source { F.is_honest source.new → F.is_honest source.old }
    ensures target { T.is_honest target.new → T.is_honest target.old }
{
    for _turn in 0..MOST_TURNS {
        if let Some(end) = take_turn(alloc, source, target, pass, watch)? {
            return Ok(end);
        }
    }
    Err(ProgramFault::File)
}

/// Gives a pass its turn: what it asks is answered. Returns what it says where it has ended.
fn take_turn<F: Side, T: Side, V: Watch>(
    alloc: Global,
    source: &mut F,
    target: &mut T,
    pass: &mut Replication,
    watch: &mut V,
) -> Got<Option<Ask>>
    ensures turn { F.is_honest source.new → T.is_honest target.new → IfOk result (λ end. HasTurn F.answers T.answers
        (record { source = source.old; target = target.old; pass = pass_of pass.old }) (option_map ask_of end)
        (record { source = source.new; target = target.new; pass = pass_of pass.new })) }
    ensures early { F.is_honest source.new → T.is_honest target.new → OnErr result (BreaksOff F.answers F.breaks_off T.answers T.breaks_off
        (record { source = source.old; target = target.old; pass = pass_of pass.old })
        (record { source = source.new; target = target.new; pass = pass_of pass.new })) }
    ensures source { F.is_honest source.new → F.is_honest source.old }
    ensures target { T.is_honest target.new → T.is_honest target.old }
{
    let ask = pass.ask()?;
    match ask {
        Ask::ToSource(request) => {
            let next = next_requests(alloc, source, pass)?;
            ask_side(alloc, source, pass, &request, &next)?;
            Ok(None)
        }
        Ask::ToTarget(request) => {
            ask_side(alloc, target, pass, &request, &[])?;
            tell_checkpoint(pass, &request, watch);
            Ok(None)
        }
        Ask::Done(_) | Ask::Stopped(_, _) => Ok(Some(ask)),
    }
}

/// Makes the requests to its source that follow the one that a pass asks now, where the source makes use of them.
fn next_requests<F: Side>(alloc: Global, source: &F, pass: &Replication) -> Got<Vec<Request>> {
    if source.foresees() {
        return pass.ask_next(MOST_AHEAD);
    }
    Ok(Vec::new(alloc))
}

/// Has a side answer a request, and the pass take in the answer.
fn ask_side<A: Side>(
    alloc: Global,
    side: &mut A,
    pass: &mut Replication,
    request: &Request,
    next: &[Request],
) -> Got<()>
    ensures ok { A.is_honest side.new → OnOk result ((answer : Answer) × A.answers side.old (message_of request.now) answer side.new
        × (pass_of pass.new ≡ pass_with_answer (pass_of pass.old) answer)) }
    ensures err { A.is_honest side.new → OnErr result (MayBreakOff A.answers A.breaks_off side.old (message_of request.now) side.new) }
    ensures pass { OnErr result (pass_of pass.new ≡ pass_of pass.old) }
    ensures honest { A.is_honest side.new → A.is_honest side.old }
{
    let answer = side.answer(alloc, request, next)?;
    take_in(pass, answer)
}

/// Has the pass take in an answer.
fn take_in(pass: &mut Replication, answer: Answer) -> Got<()>
    ensures ok { OnOk result (pass_of pass.new ≡ pass_with_answer (pass_of pass.old) answer) }
    ensures err { OnErr result (pass_of pass.new ≡ pass_of pass.old) }
{
    match answer {
        Answer::Reply(reply) => pass.answered(&reply),
        Answer::Lost => {
            pass.lost();
            Ok(())
        }
        Answer::Unreadable => {
            pass.unreadable();
            Ok(())
        }
    }
}

/// Tells how far a pass is, where this request to its target wrote a checkpoint, the last step of a round.
fn tell_checkpoint<V: Watch>(pass: &Replication, request: &Request, watch: &mut V) {
    if request.method.as_str() == "PUT" {
        watch.tell(pass.progress());
    }
}
