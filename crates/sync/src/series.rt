//! A pass that goes on with smaller batches where one is too long for its target.

ghost use Rattle.std.specs.Prelude.{◌≡◌, ◌⊎◌, Err, None, Some, IfErr, IfOk, OnErr, option_map};
ghost use Rattle.std.specs.Io.KnownBytes.{Appends};
ghost use Rattle.command_line.specs.Plan.{sync_of};
ghost use Rattle.repl.specs.Asks.{ask_of, pass_of, report_of};
ghost use Rattle.repl.specs.Passes.{Asked};
ghost use Rattle.sync.specs.Ending.{StandsIn, end_text, status_of};
ghost use Rattle.sync.specs.Series.{EndsSeriesEarly, IsSeries, is_too_long, joined_end, narrowed, reported_before};

use crate::configuring::configure_with;
use crate::ending::{print_end, status_of};
use crate::side::Side;
use crate::sides::play_to_end;
use crate::watch::Watch;
use command_line::{ProgramFault, SyncPlan};
use couch_json::Got;
use repl::{Ask, Replication, Report, Why};
use std::alloc::Global;
use std::io::Write;

/// The status that says that a request is too long (RFC 9110, section 15.5.14).
const TOO_LONG: u16 = 413;

/// How many passes there are at most: from a batch of 1,000 on five quarters lead to one of 1.
const MOST_PASSES: u32 = 7;

/// How a pass is made.
#[derive(Clone, Copy)]
pub struct Manner {
    /// How many changes it lists at a time.
    pub batch: u32,
    /// It begins at 0.
    pub is_from_start: bool,
}

/// Plays the pass of a plan between two sides to its end, and prints its report. Where the target refuses a
/// batch as too long, the pass goes on from its last checkpoint with a quarter of it, down to one change. The
/// report is that of all of it. Returns the program's status.
///
/// `File`: a pass hasn't ended after 2^32 exchanges, or the line can't be written whole. `Memory`: memory ran out.
pub fn sync_series<F: Side, T: Side, W: Write, V: Watch>(
    alloc: Global,
    plan: &SyncPlan,
    source: &mut F,
    target: &mut T,
    writer: &mut W,
    watch: &mut V,
) -> Result<u8, ProgramFault>
    ensures ended { F.is_honest source.new → T.is_honest target.new → IfOk result (λ status. (asked : Asked)
        × IsSeries F.answers T.answers (sync_of plan.now) 7 (record { batch = plan.now.batch; is_from_start = plan.now.from_start }) None
        (record { source = source.old; target = target.old }) asked (record { source = source.new; target = target.new })
        × (status ≡ status_of asked) × Appends (W.contents writer.old) (W.contents writer.new) (end_text asked)) }

    // At a refusal the exchanges so far stand, and the side that was asked may have answered once more. What was printed before stands, and where memory ran
    // out nothing was printed.
    ensures early { F.is_honest source.new → T.is_honest target.new → OnErr result (EndsSeriesEarly F.answers F.breaks_off T.answers T.breaks_off (sync_of plan.now) 7
        (record { batch = plan.now.batch; is_from_start = plan.now.from_start }) None
        (record { source = source.old; target = target.old }) (record { source = source.new; target = target.new })) }
    ensures kept { OnErr result (StandsIn (W.contents writer.old) (W.contents writer.new)) }
    ensures memory { result ≡ Err ProgramFault.Memory → W.contents writer.new ≡ W.contents writer.old }
    ensures faults { IfErr result (λ fault. (fault ≡ ProgramFault.File) ⊎ (fault ≡ ProgramFault.Memory)) }
{
    let end = play_series(alloc, plan, source, target, watch);
    watch.end();
    let end = end?;
    watch.tell_end(&end);
    print_end(alloc, writer, &end)?;
    Ok(status_of(&end))
}

/// Plays passes one after another, and returns what they say together at the end.
fn play_series<F: Side, T: Side, V: Watch>(
    alloc: Global,
    plan: &SyncPlan,
    source: &mut F,
    target: &mut T,
    watch: &mut V,
) -> Result<Ask, ProgramFault>
    ensures ended { F.is_honest source.new → T.is_honest target.new → IfOk result (λ end.
        IsSeries F.answers T.answers (sync_of plan.now) 7 (record { batch = plan.now.batch; is_from_start = plan.now.from_start }) None
        (record { source = source.old; target = target.old }) (ask_of end) (record { source = source.new; target = target.new })) }
    ensures early { F.is_honest source.new → T.is_honest target.new → OnErr result (EndsSeriesEarly F.answers F.breaks_off T.answers T.breaks_off (sync_of plan.now) 7
        (record { batch = plan.now.batch; is_from_start = plan.now.from_start }) None
        (record { source = source.old; target = target.old }) (record { source = source.new; target = target.new })) }
    ensures faults { IfErr result (λ fault. (fault ≡ ProgramFault.File) ⊎ (fault ≡ ProgramFault.Memory)) }
{
    let mut manner = Manner {
        batch: plan.batch,
        is_from_start: plan.from_start,
    };
    let mut earlier = None;
    for _pass in 0..MOST_PASSES {
        let config = configure_with(alloc, plan, manner.batch, manner.is_from_start)?;
        let mut pass = Replication::new(alloc, config)?;
        let end = play_to_end(alloc, source, target, &mut pass, watch)?;
        let end = join_end(earlier, end)?;
        match reported_before(manner.batch, end) {
            Ok(report) => {
                earlier = Some(report);
                manner = narrow(manner, pass.checkpoint_sequence());
            }
            Err(end) => {
                tell_too_long(&pass, &end, watch);
                return Ok(end);
            }
        }
    }
    Err(ProgramFault::File)
}

/// Returns the report of a pass that goes on with a smaller batch, or else what was said at its end.
fn reported_before(batch: u32, end: Ask) -> Result<Report, Ask>
    ensures goes { IfOk result (λ report. reported_before batch (ask_of end) ≡ Some (report_of report)) }
    ensures ends { IfErr result (λ same. (reported_before batch (ask_of end) ≡ None) × (ask_of same ≡ ask_of end)) }
{
    match end {
        Ask::Stopped(why, report) => {
            if is_too_long(batch, why) {
                Ok(report)
            } else {
                Err(Ask::Stopped(why, report))
            }
        }
        end => Err(end),
    }
}

/// Tells whether the target refused a batch as too long, and there is a smaller one.
fn is_too_long(batch: u32, why: Why) -> bool
    ensures { result ≡ is_too_long batch why }
{
    match why {
        Why::Status(status) => status == TOO_LONG && batch > 1,
        Why::Reply | Why::Lost => false,
    }
}

/// Returns how a pass goes on that stopped at a batch that was too long: with a quarter of it, and from 0 if it
/// began there and has written no checkpoint.
fn narrow(manner: Manner, reached: u64) -> Manner
    ensures { result ≡ narrowed manner reached }
{
    Manner {
        batch: (manner.batch / 4).max(1),
        is_from_start: manner.is_from_start && reached == 0,
    }
}

/// Returns what a pass says at its end, together with what was reported before.
fn join_end(earlier: Option<Report>, end: Ask) -> Got<Ask>
    ensures { IfOk result (λ joined. ask_of joined ≡ joined_end (option_map report_of earlier) (ask_of end)) }
{
    let Some(earlier) = earlier else {
        return Ok(end);
    };
    match end {
        Ask::Done(report) => Ok(Ask::Done(earlier.join(report)?)),
        Ask::Stopped(why, report) => Ok(Ask::Stopped(why, earlier.join(report)?)),
        end => Ok(end),
    }
}

/// Tells of the document that alone is too long, where that stopped a pass.
fn tell_too_long<V: Watch>(pass: &Replication, end: &Ask, watch: &mut V) {
    if let Ask::Stopped(Why::Status(TOO_LONG), _) = end {
        watch.end();
        watch.tell_too_long(pass);
    }
}
