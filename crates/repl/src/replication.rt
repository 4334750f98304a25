//! A pass of replication (CouchDB manual, replication/protocol).

ghost use Rattle.std.specs.Prelude.{◌≡◌, if◌then◌else◌, IfOk, OnOk, OnErr, length, map, option_copied, option_map, string_bytes, take};
ghost use Rattle.couch_json.specs.Canonical.{canonical};
ghost use Rattle.couch_json.specs.View.{view};
ghost use Rattle.couch_http.specs.Message.{message_of};
ghost use Rattle.repl.specs.Asks.{ask_of, pass_of, report_of};
ghost use Rattle.repl.specs.Calls.{documents_value, read_checkpoint, request_of, write_checkpoint, open_revisions};
ghost use Rattle.repl.specs.Checkpoints.{checkpoint_id, history_of};
ghost use Rattle.repl.specs.Configuration.{batch_size, configuration_of};
ghost use Rattle.repl.specs.Ending.{progress_of};
ghost use Rattle.repl.specs.Kept.{checkpoint_of, session_of};
ghost use Rattle.repl.specs.Listed.{revisions_of};
ghost use Rattle.repl.specs.Passes.{answered_in, answered_of, answers_list, asked_next, asked_of, checkpoint_after, fills, first_document, first_of_pending, first_pass};
ghost use Rattle.repl.specs.Passes.{has_ended, is_within_batch, is_written, lost_of, unreadable_of, phase_after_list, phase_after_round, with_failures};
ghost use Rattle.repl.specs.Passes.{with_opened, phase_after_loss, phase_with, sent_to, summary_of, with_loss};
ghost use Rattle.repl.specs.Taken.{changes_of, opened_of};

use crate::ask::Ask;
use crate::batch::Batch;
use crate::bodies::push_body;
use crate::calls::{
    compare_revisions, list_changes, open_revisions, push_documents, read_checkpoint,
    write_checkpoint,
};
use crate::checkpoint::{KeptCheckpoint, KeptSession, checkpoint_id, next_checkpoint, start_with};
use crate::config::Config;
use crate::count::Count;
use crate::members::text_at;
use crate::opened::{OpenedRevision, differences_read, revisions_opened};
use crate::opened_parts::{append_both, documents_of, missing_reports};
use crate::phase::Phase;
use crate::progress::Progress;
use crate::pushed::documents_pushed;
use crate::replies::{ChangesListed, changes_listed, checkpoint_read, checkpoint_written};
use crate::report::Report;
use crate::revisions::DocumentRevisions;
use crate::side::Side;
use crate::why::Why;
use couch_http::{Request, Response};
use couch_json::{Got, Json};
use std::alloc::Global;
use std::collections::VecDeque;

/// A pass of replication: it says what to ask, and takes the replies in.
pub struct Replication {
    alloc: Global,
    config: Config,
    phase: Phase,
    /// The checkpoint that the source had when the pass began.
    older: Option<KeptCheckpoint>,
    source_revision: Option<String>,
    target_revision: Option<String>,
    /// The start that the two checkpoints gave.
    start: Count,
    /// The sequence after which this round lists.
    since: Count,
    start_seq: Count,
    last_seq: Count,
    /// This round's listing had as many results as a batch has.
    is_full: bool,
    leaves: Vec<DocumentRevisions>,
    pending: VecDeque<DocumentRevisions>,
    documents: Vec<Json>,
    sent: Count,
    refused: Vec<Json>,
    losses: u32,
}

// Written out, so that callers do not prove again how each part is dropped.
impl Drop for Replication {
    fn drop(self) {
        let Replication {
            alloc: _,
            config: _,
            phase: _,
            older: _,
            source_revision: _,
            target_revision: _,
            start: _,
            since: _,
            start_seq: _,
            last_seq: _,
            is_full: _,
            leaves: _,
            pending: _,
            documents: _,
            sent: _,
            refused: _,
            losses: _,
        } = self;
    }
}

impl Replication {
    /// Makes a pass that has asked nothing.
    pub fn new(alloc: Global, config: Config) -> Got<Replication>
        ensures { IfOk result (λ r. pass_of r ≡ first_pass (configuration_of config)) }
    {
        Ok(Replication {
            alloc,
            config,
            phase: Phase::ReadSource,
            older: None,
            source_revision: None,
            target_revision: None,
            start: Count::ZERO,
            since: Count::ZERO,
            start_seq: Count::ZERO,
            last_seq: Count::ZERO,
            is_full: false,
            leaves: Vec::new(alloc),
            pending: VecDeque::new(alloc),
            documents: Vec::new(alloc),
            sent: Count::ZERO,
            refused: Vec::new(alloc),
            losses: 0,
        })
    }

    /// Returns what the pass asks now: the same until it is answered or a reply is lost.
    pub fn ask(&self) -> Got<Ask>
        ensures { IfOk result (λ a. ask_of a ≡ asked_of (pass_of self.now)) }
    {
        match self.phase {
            Phase::ReadSource => self.ask_checkpoint(Side::Source),
            Phase::ReadTarget => self.ask_checkpoint(Side::Target),
            Phase::ListChanges => Ok(Ask::ToSource(list_changes(
                self.alloc,
                &self.config,
                Side::Source,
                self.since.value(),
            )?)),
            Phase::Compare => Ok(Ask::ToTarget(compare_revisions(
                self.alloc,
                &self.config,
                Side::Target,
                &self.leaves,
            )?)),
            Phase::Open => Ok(Ask::ToSource(self.first_opened()?)),
            Phase::Push => Ok(Ask::ToTarget(push_documents(
                self.alloc,
                &self.config,
                Side::Target,
                &self.documents,
            )?)),
            Phase::WriteSource => self.ask_write(Side::Source, &self.source_revision),
            Phase::WriteTarget => self.ask_write(Side::Target, &self.target_revision),
            Phase::RereadSource => self.ask_checkpoint(Side::Source),
            Phase::RereadTarget => self.ask_checkpoint(Side::Target),
            Phase::Done => Ok(Ask::Done(self.report()?)),
            Phase::Stopped(why) => Ok(Ask::Stopped(why, self.report()?)),
        }
    }

    /// Tells whether the pass has ended, so that it asks no more. Takes no memory.
    pub fn has_ended(&self) -> bool
        ensures { result ≡ has_ended (pass_of self.now) }
    {
        matches!(self.phase, Phase::Done | Phase::Stopped(_))
    }

    /// Tells how far the pass is. Takes no memory.
    pub fn progress(&self) -> Progress
        ensures { result ≡ progress_of (pass_of self.now) }
    {
        Progress {
            sent: self.sent.value(),
            last_seq: self.last_seq.value(),
        }
    }

    /// Tells up to which sequence of the source this pass has written both checkpoints; before, it is its start.
    pub fn checkpoint_sequence(&self) -> u64
        ensures { result ≡ (pass_of self.now).since }
    {
        self.since.value()
    }

    /// Returns the id of the first of the documents that wait for a push, where one does.
    pub fn first_unsent(&self) -> Option<&str>
        ensures { option_copied result ≡ first_document (pass_of self.now).documents }
    {
        text_at(self.documents.first()?, "_id")
    }

    /// Returns how long the body is that pushes the documents that wait for it, in bytes.
    pub fn unsent_length(&self) -> Got<u64>
        ensures { IfOk result (λ n. n ≡ length (canonical (documents_value (pass_of self.now).documents))) }
    {
        Ok(push_body(self.alloc, &self.documents)?.len() as u64)
    }

    /// Asks a side for its checkpoint.
    fn ask_checkpoint(&self, side: Side) -> Got<Ask>
        ensures { IfOk result
            (λ a. let c = configuration_of self.now.config in ask_of a ≡ sent_to side (request_of c side (read_checkpoint (checkpoint_id c)))) }
    {
        let id = checkpoint_id(self.alloc, &self.config)?;
        let request = read_checkpoint(self.alloc, &self.config, side, id.as_str())?;
        Ok(send_to(side, request))
    }

    /// Asks a side to write the checkpoint in place of a revision.
    fn ask_write(&self, side: Side, revision: &Option<String>) -> Got<Ask>
        ensures { IfOk result (λ a. let c = configuration_of self.now.config in ask_of a
            ≡ sent_to side (request_of c side
            (write_checkpoint (checkpoint_id c) (checkpoint_after (pass_of self.now) (option_map string_bytes revision.now))))) }
    {
        let id = checkpoint_id(self.alloc, &self.config)?;
        let checkpoint = next_checkpoint(
            self.alloc,
            self.config.session.as_str(),
            self.last_seq,
            self.history(),
            revision,
        )?;
        let request = write_checkpoint(self.alloc, &self.config, side, id.as_str(), &checkpoint)?;
        Ok(send_to(side, request))
    }

    /// Returns the sessions that the source's checkpoint had when the pass began.
    fn history(&self) -> &[KeptSession]
        ensures { map session_of result.now ≡ history_of (option_map checkpoint_of self.now.older) }
    {
        match &self.older {
            Some(checkpoint) => checkpoint.history.as_slice(),
            None => &[],
        }
    }

    /// Makes the request that opens the first of the pending documents.
    #[tactic(auto, using(crate::proofs::PendingLemmas::first_is_front))]
    fn first_opened(&self) -> Got<Request>
        ensures { IfOk result (λ r. message_of r
            ≡ request_of (configuration_of self.now.config) Side.Source (open_revisions (first_of_pending (map revisions_of self.now.pending.items)))) }
    {
        match self.pending.front() {
            Some(document) => open_revisions(self.alloc, &self.config, Side::Source, document),
            None => {
                let nothing = DocumentRevisions {
                    id: String::new(self.alloc),
                    revisions: Vec::new(self.alloc),
                };
                open_revisions(self.alloc, &self.config, Side::Source, &nothing)
            }
        }
    }

    /// Makes the requests to the source that follow the one that the pass asks now, so many at most: those that
    /// open the further pending documents, where each of them is answered with its documents.
    pub fn ask_next(&self, most: usize) -> Got<Vec<Request>>
        ensures { IfOk result (λ requests. map message_of requests.items ≡ take most (asked_next (pass_of self.now))) }
    {
        let mut requests = Vec::new(self.alloc);
        for index in 0..most {
            let Some(document) = self.pending.get(index + 1) else {
                return Ok(requests);
            };
            requests.push(open_revisions(self.alloc, &self.config, Side::Source, document)?)?;
        }
        Ok(requests)
    }

    /// Makes the report so far.
    fn report(&self) -> Got<Report>
        ensures { IfOk result (λ r. report_of r ≡ summary_of (pass_of self.now)) }
    {
        Report::from_parts(
            self.alloc,
            self.start_seq,
            self.last_seq,
            self.sent,
            &self.refused,
        )
    }

    /// Takes in the reply to what the pass asked. After a refusal the pass is as it was.
    pub fn answered(&mut self, response: &Response) -> Got<()>
        ensures ok { OnOk result (pass_of self.new ≡ answered_of (pass_of self.old) response.now.status response.now.body) }
        ensures err { OnErr result (pass_of self.new ≡ pass_of self.old) }
    {
        let status = response.status();
        let body = response.body();
        match self.phase {
            Phase::ReadSource => self.take_source(status, body),
            Phase::ReadTarget => self.take_target(status, body),
            Phase::ListChanges => self.take_changes(status, body),
            Phase::Compare => self.take_differences(status, body),
            Phase::Open => self.take_opened(status, body),
            Phase::Push => self.take_failures(status, body),
            Phase::WriteSource => self.take_source_written(status, body),
            Phase::WriteTarget => self.take_target_written(status, body),
            Phase::RereadSource => self.take_source_reread(status, body),
            Phase::RereadTarget => self.take_target_reread(status, body),
            Phase::Done => Ok(()),
            Phase::Stopped(_) => Ok(()),
        }
    }

    /// Takes in the checkpoint of the source.
    fn take_source(&mut self, status: u16, body: &[u8]) -> Got<()>
        ensures ok { OnOk result (pass_of self.new ≡ answered_in Phase.ReadSource (pass_of self.old) status body.now) }
        ensures err { OnErr result (pass_of self.new ≡ pass_of self.old) }
    {
        match checkpoint_read(self.alloc, status, body)? {
            Ok(found) => {
                self.older = found.checkpoint;
                self.source_revision = found.revision;
                self.phase = Phase::ReadTarget;
                Ok(())
            }
            Err(why) => {
                self.phase = Phase::Stopped(why);
                Ok(())
            }
        }
    }

    /// Takes in the checkpoint of the target, which settles the start.
    fn take_target(&mut self, status: u16, body: &[u8]) -> Got<()>
        ensures ok { OnOk result (pass_of self.new ≡ answered_in Phase.ReadTarget (pass_of self.old) status body.now) }
        ensures err { OnErr result (pass_of self.new ≡ pass_of self.old) }
    {
        match checkpoint_read(self.alloc, status, body)? {
            Ok(found) => {
                let start = start_with(
                    self.alloc,
                    self.config.is_from_start,
                    &self.older,
                    &found.checkpoint,
                )?;
                self.start = start;
                self.since = start;
                self.target_revision = found.revision;
                self.phase = Phase::ListChanges;
                Ok(())
            }
            Err(why) => {
                self.phase = Phase::Stopped(why);
                Ok(())
            }
        }
    }

    /// Takes in the changes.
    fn take_changes(&mut self, status: u16, body: &[u8]) -> Got<()>
        ensures ok { OnOk result (pass_of self.new ≡ answered_in Phase.ListChanges (pass_of self.old) status body.now) }
        ensures err { OnErr result (pass_of self.new ≡ pass_of self.old) }
    {
        match changes_listed(self.alloc, status, body)? {
            Ok(changes) => {
                if !self.answers_list(&changes) {
                    self.phase = Phase::Stopped(Why::Reply);
                    return Ok(());
                }
                self.phase = phase_after_list(&changes.leaves);
                self.start_seq = self.start;
                self.last_seq = changes.sequence;
                self.is_full = fills(&self.config.batch, &changes.leaves);
                self.leaves = changes.leaves;
                Ok(())
            }
            Err(why) => {
                self.phase = Phase::Stopped(why);
                Ok(())
            }
        }
    }

    /// Tells whether a list has at most as many documents as were asked for, and ends above its beginning where
    /// it is full.
    fn answers_list(&self, changes: &ChangesListed) -> bool
        ensures { result ≡ answers_list (pass_of self.now) (changes_of changes.now) }
    {
        is_within_batch(&self.config.batch, &changes.leaves)
            && (!fills(&self.config.batch, &changes.leaves)
                || self.since.value() < changes.sequence.value())
    }

    /// Takes in what is missing at the target.
    fn take_differences(&mut self, status: u16, body: &[u8]) -> Got<()>
        ensures ok { OnOk result (pass_of self.new ≡ answered_in Phase.Compare (pass_of self.old) status body.now) }
        ensures err { OnErr result (pass_of self.new ≡ pass_of self.old) }
    {
        match differences_read(self.alloc, &self.leaves, status, body)? {
            Ok(missing) => {
                self.phase = phase_with(&missing, &self.documents);
                self.leaves.clear();
                self.pending = missing;
                Ok(())
            }
            Err(why) => {
                self.phase = Phase::Stopped(why);
                Ok(())
            }
        }
    }

    /// Takes in opened revisions of the first of the pending documents.
    fn take_opened(&mut self, status: u16, body: &[u8]) -> Got<()>
        ensures ok { OnOk result (pass_of self.new ≡ answered_in Phase.Open (pass_of self.old) status body.now) }
        ensures err { OnErr result (pass_of self.new ≡ pass_of self.old) }
    {
        match revisions_opened(self.alloc, status, body)? {
            Ok(opened) => {
                if opened.len() > first_count(&self.pending) {
                    self.phase = Phase::Stopped(Why::Reply);
                    return Ok(());
                }
                self.add_opened(&opened)
            }
            Err(why) => {
                self.phase = Phase::Stopped(why);
                Ok(())
            }
        }
    }

    /// Takes in the failures of a push.
    fn take_failures(&mut self, status: u16, body: &[u8]) -> Got<()>
        ensures ok { OnOk result (pass_of self.new ≡ answered_in Phase.Push (pass_of self.old) status body.now) }
        ensures err { OnErr result (pass_of self.new ≡ pass_of self.old) }
    {
        match documents_pushed(self.alloc, status, body)? {
            Ok(failures) => {
                if failures.len() > self.documents.len() {
                    self.phase = Phase::Stopped(Why::Reply);
                    return Ok(());
                }
                self.add_failures(failures)
            }
            Err(why) => {
                self.phase = Phase::Stopped(why);
                Ok(())
            }
        }
    }

    /// Takes in that the checkpoint of the source was written.
    fn take_source_written(&mut self, status: u16, body: &[u8]) -> Got<()>
        ensures ok { OnOk result (pass_of self.new ≡ answered_in Phase.WriteSource (pass_of self.old) status body.now) }
        ensures err { OnErr result (pass_of self.new ≡ pass_of self.old) }
    {
        match checkpoint_written(self.alloc, status, body)? {
            Ok(revision) => {
                self.source_revision = Some(revision);
                self.phase = Phase::WriteTarget;
                Ok(())
            }
            Err(why) => {
                self.phase = Phase::Stopped(why);
                Ok(())
            }
        }
    }

    /// Takes in that the checkpoint of the target was written, which ends the round.
    fn take_target_written(&mut self, status: u16, body: &[u8]) -> Got<()>
        ensures ok { OnOk result (pass_of self.new ≡ answered_in Phase.WriteTarget (pass_of self.old) status body.now) }
        ensures err { OnErr result (pass_of self.new ≡ pass_of self.old) }
    {
        match checkpoint_written(self.alloc, status, body)? {
            Ok(revision) => {
                self.target_revision = Some(revision);
                self.phase = phase_after_round(self.is_full);
                self.since = self.last_seq;
                Ok(())
            }
            Err(why) => {
                self.phase = Phase::Stopped(why);
                Ok(())
            }
        }
    }

    /// Takes in the checkpoint of the source after the reply to its write was lost.
    fn take_source_reread(&mut self, status: u16, body: &[u8]) -> Got<()>
        ensures ok { OnOk result (pass_of self.new ≡ answered_in Phase.RereadSource (pass_of self.old) status body.now) }
        ensures err { OnErr result (pass_of self.new ≡ pass_of self.old) }
    {
        match checkpoint_read(self.alloc, status, body)? {
            Ok(found) => {
                self.phase = self.phase_after_reread(
                    &found.checkpoint,
                    Phase::WriteTarget,
                    Phase::WriteSource,
                );
                self.source_revision = found.revision;
                Ok(())
            }
            Err(why) => {
                self.phase = Phase::Stopped(why);
                Ok(())
            }
        }
    }

    /// Takes in the checkpoint of the target after the reply to its write was lost.
    fn take_target_reread(&mut self, status: u16, body: &[u8]) -> Got<()>
        ensures ok { OnOk result (pass_of self.new ≡ answered_in Phase.RereadTarget (pass_of self.old) status body.now) }
        ensures err { OnErr result (pass_of self.new ≡ pass_of self.old) }
    {
        match checkpoint_read(self.alloc, status, body)? {
            Ok(found) => {
                self.phase = self.phase_after_reread(
                    &found.checkpoint,
                    phase_after_round(self.is_full),
                    Phase::WriteTarget,
                );
                self.since = self.since_after_reread(&found.checkpoint);
                self.target_revision = found.revision;
                Ok(())
            }
            Err(why) => {
                self.phase = Phase::Stopped(why);
                Ok(())
            }
        }
    }

    /// Keeps the documents that came, and reports those that are missing.
    fn add_opened(&mut self, opened: &[OpenedRevision]) -> Got<()>
        ensures ok { OnOk result (pass_of self.new ≡ with_opened (pass_of self.old) (map opened_of opened.now)) }
        ensures err { OnErr result (pass_of self.new ≡ pass_of self.old) }
    {
        let documents = documents_of(self.alloc, opened)?;
        let reports = missing_reports(self.alloc, first_id(&self.pending), opened)?;
        append_both(&mut self.documents, documents, &mut self.refused, reports)?;
        drop(self.pending.pop_front());
        self.phase = phase_with(&self.pending, &self.documents);
        Ok(())
    }

    /// Counts the documents that were pushed, and reports the failures.
    fn add_failures(&mut self, failures: Vec<Json>) -> Got<()>
        ensures ok { OnOk result (pass_of self.new ≡ with_failures (pass_of self.old) (map view failures.items)) }
        ensures err { OnErr result (pass_of self.new ≡ pass_of self.old) }
    {
        let mut failures = failures;
        self.refused.append(&mut failures)?;
        self.sent = self.sent.plus(self.documents.len());
        self.documents.clear();
        self.phase = Phase::WriteSource;
        Ok(())
    }

    /// Returns the one phase where the checkpoint is that of this pass, and else the other.
    fn phase_after_reread(
        &self,
        checkpoint: &Option<KeptCheckpoint>,
        written: Phase,
        unwritten: Phase,
    ) -> Phase
        ensures { result ≡ (if is_written (pass_of self.now) (option_map checkpoint_of checkpoint.now) then written else unwritten) }
    {
        if self.is_written(checkpoint) {
            return written;
        }
        unwritten
    }

    /// Returns the sequence after which changes are listed next, where this may be the checkpoint that ends the round.
    fn since_after_reread(&self, checkpoint: &Option<KeptCheckpoint>) -> Count
        ensures { let p = pass_of self.now in result.value ≡ (if is_written p (option_map checkpoint_of checkpoint.now) then p.last_seq else p.since) }
    {
        if self.is_written(checkpoint) {
            return self.last_seq;
        }
        self.since
    }

    /// Tells whether a checkpoint is that of this pass.
    fn is_written(&self, checkpoint: &Option<KeptCheckpoint>) -> bool
        ensures { result ≡ is_written (pass_of self.now) (option_map checkpoint_of checkpoint.now) }
    {
        match checkpoint {
            Some(checkpoint) => {
                checkpoint.session.as_str() == self.config.session.as_str()
                    && checkpoint.sequence.value() == self.last_seq.value()
            }
            None => false,
        }
    }

    /// Takes in that the request, or the reply to it, was lost. Takes no memory.
    ///
    /// The same is asked again, but after a write of a checkpoint it is read first. The 101st loss stops the pass.
    pub fn lost(&mut self)
        ensures { pass_of self.new ≡ lost_of (pass_of self.old) }
    {
        match self.phase {
            Phase::ReadSource => self.count_loss(),
            Phase::ReadTarget => self.count_loss(),
            Phase::ListChanges => self.count_loss(),
            Phase::Compare => self.count_loss(),
            Phase::Open => self.count_loss(),
            Phase::Push => self.count_loss(),
            Phase::WriteSource => self.count_loss(),
            Phase::WriteTarget => self.count_loss(),
            Phase::RereadSource => self.count_loss(),
            Phase::RereadTarget => self.count_loss(),
            Phase::Done => {}
            Phase::Stopped(_) => {}
        }
    }

    /// Takes in that the reply to what the pass asked can't be read: it is no reply, or none that the server may
    /// give. A pass that goes on has stopped then. Takes no memory.
    pub fn unreadable(&mut self)
        ensures { pass_of self.new ≡ unreadable_of (pass_of self.old) }
    {
        match self.phase {
            Phase::Done => {}
            Phase::Stopped(_) => {}
            _ => self.phase = Phase::Stopped(Why::Reply),
        }
    }

    /// Counts a loss.
    fn count_loss(&mut self)
        ensures { pass_of self.new ≡ with_loss (pass_of self.old) }
    {
        if self.losses >= MOST_LOSSES {
            self.phase = Phase::Stopped(Why::Lost);
            return;
        }
        self.phase = phase_after_loss(self.phase);
        self.losses += 1;
    }
}

/// How many losses a pass bears.
const MOST_LOSSES: u32 = 100;

/// Makes a request to a side what is asked.
fn send_to(side: Side, request: Request) -> Ask
    ensures { ask_of result ≡ sent_to side (message_of request) }
{
    match side {
        Side::Source => Ask::ToSource(request),
        Side::Target => Ask::ToTarget(request),
    }
}

/// Tells whether a listing has just as many results as a batch has. Without a batch it never is.
fn fills(batch: &Option<Batch>, leaves: &[DocumentRevisions]) -> bool
    ensures { result ≡ fills (option_map batch_size batch.now) (map revisions_of leaves.now) }
{
    match batch {
        Some(batch) => leaves.len() as u64 == batch.size(),
        None => false,
    }
}

/// Tells whether a listing has at most as many results as a batch has. Without a batch it always has.
fn is_within_batch(batch: &Option<Batch>, leaves: &[DocumentRevisions]) -> bool
    ensures { result ≡ is_within_batch (option_map batch_size batch.now) (map revisions_of leaves.now) }
{
    match batch {
        Some(batch) => leaves.len() as u64 <= batch.size(),
        None => true,
    }
}

/// Returns the phase that follows the changes.
fn phase_after_list(leaves: &[DocumentRevisions]) -> Phase
    ensures { result ≡ phase_after_list (map revisions_of leaves.now) }
{
    match leaves {
        [] => Phase::Done,
        [_, ..] => Phase::Compare,
    }
}

/// Returns the phase after a round whose listing was full or was not.
fn phase_after_round(is_full: bool) -> Phase
    ensures { result ≡ phase_after_round is_full }
{
    if is_full {
        return Phase::ListChanges;
    }
    Phase::Done
}

/// Returns the phase in which these documents are pending, and those have come.
fn phase_with(pending: &VecDeque<DocumentRevisions>, documents: &[Json]) -> Phase
    ensures { result ≡ phase_with (map revisions_of pending.now.items) (map view documents.now) }
{
    if !pending.is_empty() {
        return Phase::Open;
    }
    if documents.is_empty() {
        return Phase::WriteSource;
    }
    Phase::Push
}

/// Returns the id of the first of the pending documents.
#[tactic(auto, using(crate::proofs::PendingLemmas::first_is_front))]
fn first_id(pending: &VecDeque<DocumentRevisions>) -> &str
    ensures { result.now ≡ (first_of_pending (map revisions_of pending.now.items)).id }
{
    match pending.front() {
        Some(document) => document.id.as_str(),
        None => "",
    }
}

/// Counts the revisions of the first of the pending documents.
#[tactic(auto, using(crate::proofs::PendingLemmas::first_is_front))]
fn first_count(pending: &VecDeque<DocumentRevisions>) -> usize
    ensures { result ≡ length (first_of_pending (map revisions_of pending.now.items)).revisions }
{
    match pending.front() {
        Some(document) => document.revisions.len(),
        None => 0,
    }
}

/// Returns the phase after a loss.
fn phase_after_loss(phase: Phase) -> Phase
    ensures { result ≡ phase_after_loss phase }
{
    match phase {
        Phase::WriteSource => Phase::RereadSource,
        Phase::WriteTarget => Phase::RereadTarget,
        other => other,
    }
}
