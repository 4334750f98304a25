//! How far a pass is, on a terminal.

ghost use Rattle.std.specs.Prelude.{◌≡◌, ◌⊎◌, ◌-◌, IfSome, MatchOption, None, Option, false, option_and_then};
ghost use Rattle.command_line.specs.Plan.{sync_of};
ghost use Rattle.sync.specs.Configuring.{pass_configuration};
ghost use Rattle.sync.specs.Information.{IsSaid, information_request};
ghost use Rattle.sync.specs.Sides.{MayBreakOff};
ghost use Rattle.sync.specs.Terminal.{left_of};
ghost use Rattle.sync.specs.declared.estimate.Pace.{Pace};

use crate::estimate::{Estimate, Pace, Reached, estimate_left};
use crate::information::ask_update_seq;
use crate::side::Side;
use crate::watch::Watch;
use command_line::SyncPlan;
use couch_json::Json;
use repl::{Ask, Progress, Replication, Report};
use std::alloc::Global;
use std::io::Eprint;
use std::time::{Clock, Instant};

/// A line on standard error that is written over itself, where that is a terminal.
#[derive(Drop)]
pub struct ProgressLine<'a, R: Eprint + Clock> {
    rt: &'a R,
    is_terminal: bool,
    /// What was refused is told even where it is none.
    is_logged: bool,
    /// Something stands on the line.
    is_begun: bool,
    /// The greatest sequence that the source had before the pass, where it is known.
    update_seq: Option<u64>,
    first: Option<FirstCheckpoint>,
}

/// The first checkpoint that a pass wrote: when, and its sequence.
#[derive(Clone, Copy)]
struct FirstCheckpoint {
    since: Instant,
    sequence: u64,
}

impl<'a, R: Eprint + Clock> ProgressLine<'a, R> {
    /// Makes a line on which nothing stands. What was refused is told on a terminal, or where it is logged.
    pub fn new(rt: &'a R, is_terminal: bool, is_logged: bool) -> ProgressLine<'a, R> {
        ProgressLine {
            rt,
            is_terminal,
            is_logged,
            is_begun: false,
            update_seq: None,
            first: None,
        }
    }

    /// Asks the source of a pass how far its database goes, before the pass, where standard error is a terminal.
    pub fn ask_source<S: Side>(&mut self, alloc: Global, plan: &SyncPlan, source: &mut S)
        ensures asked { S.is_honest source.new → MayBreakOff S.answers S.breaks_off source.old (information_request (pass_configuration (sync_of plan.now))) source.new }
        ensures silent { self.old.is_terminal ≡ false → source.new ≡ source.old }
        ensures said { S.is_honest source.new → (self.new.update_seq ≡ self.old.update_seq)
            ⊎ IsSaid S.answers source.old (information_request (pass_configuration (sync_of plan.now))) self.new.update_seq source.new }
    {
        if !self.is_terminal {
            return;
        }
        if let Ok(update_seq) = ask_update_seq(alloc, plan, source) {
            self.update_seq = update_seq;
        }
    }

    /// Something is told of the end of a pass: on a terminal, or where the words say so.
    fn tells(&self) -> bool {
        self.is_terminal || self.is_logged
    }

    /// Tells how many documents were refused, and the first of them.
    fn tell_refused(&mut self, report: &Report) {
        let Some(first) = report.refused.first() else {
            return;
        };
        if !self.tells() {
            return;
        }
        let count = report.refused.len();
        let id = text_at(first, "id");
        let cause = cause_of(first);
        let _ = eprintln!(self.rt;
            "couchd: {count} refused, the first {id} by {cause}: run it with --from-start once the target admits them"
        );
    }

    /// Writes the line. What stood there may be longer, so behind the text it is erased (ECMA-48, `EL`).
    fn show(&mut self, progress: Progress) {
        let Progress { sent, last_seq } = progress;
        let reached = Reached {
            sent,
            sequence: last_seq,
            left: self.left(last_seq),
        };
        self.is_begun = true;
        let _ = eprint!(self.rt; "\r{reached}\x1b[K");
    }

    /// Estimates what is left at a checkpoint.
    fn left(&mut self, sequence: u64) -> Option<Estimate>
        ensures { (pace : Option Pace) × (result ≡ option_and_then (λ update_seq. left_of pace sequence update_seq) self.old.update_seq) }
    {
        let pace = self.pace(sequence);
        estimate_left(pace, sequence, self.update_seq?)
    }

    /// Returns how fast the pass was since its first checkpoint.
    fn pace(&mut self, sequence: u64) -> Option<Pace>
        ensures changes { MatchOption self.old.first (result ≡ None) (λ first. IfSome result (λ pace. pace.changes ≡ sequence - first.sequence)) }
        ensures kept { self.new.update_seq ≡ self.old.update_seq }
    {
        match self.first {
            Some(first) => Some(Pace {
                changes: sequence.saturating_sub(first.sequence),
                millis: millis_since(self.rt, first.since)?,
            }),
            None => {
                self.first = note_now(self.rt, sequence);
                None
            }
        }
    }
}

impl<R: Eprint + Clock> Watch for ProgressLine<'_, R> {
    fn tell(&mut self, progress: Progress) {
        if self.is_terminal {
            self.show(progress);
        }
    }

    fn end(&mut self) {
        if self.is_begun {
            let _ = eprintln!(self.rt);
        }
        self.is_begun = false;
    }

    fn tell_end(&mut self, end: &Ask) {
        match end {
            Ask::Done(report) | Ask::Stopped(_, report) => self.tell_refused(report),
            Ask::ToSource(_) | Ask::ToTarget(_) => {}
        }
    }

    fn tell_too_long(&mut self, pass: &Replication) {
        if !self.tells() {
            return;
        }
        let Some(id) = pass.first_unsent() else {
            return;
        };
        if let Ok(length) = pass.unsent_length() {
            let _ = eprintln!(self.rt;
                "couchd: too long for the target: {id}, {length} bytes with all its leaves"
            );
        }
    }
}

/// Returns the text of a member, or nothing.
fn text_at<'a>(value: &'a Json, name: &str) -> &'a str {
    match value.member(name) {
        Some(member) => member.text().unwrap_or(""),
        None => "",
    }
}

/// Returns the rule that refused, or else the error.
fn cause_of(value: &Json) -> &str {
    let rule = text_at(value, "rule");
    if rule.is_empty() {
        text_at(value, "error")
    } else {
        rule
    }
}

/// Notes the first checkpoint, which was written just now.
fn note_now<R: Clock>(rt: &R, sequence: u64) -> Option<FirstCheckpoint> {
    match Instant::now(rt) {
        Ok(since) => Some(FirstCheckpoint { since, sequence }),
        Err(_) => None,
    }
}

/// Returns how many milliseconds ago something was.
fn millis_since<R: Clock>(rt: &R, since: Instant) -> Option<u64> {
    match since.elapsed(rt) {
        Ok(elapsed) => u64::try_from(elapsed.as_millis()).ok(),
        Err(_) => None,
    }
}
