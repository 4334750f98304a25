//! A stream whose reads and writes are logged.

ghost use Rattle.std.specs.Prelude.{◌≡◌, ◌≢◌, ◌++◌, ◌∷◌, [], IfErr, IfOk, length};
ghost use Rattle.std.specs.IoError.{error_kind};
ghost use Rattle.sync.specs.Streams.{IsReadOf, IsWrittenOf, outcomes_of};

use crate::outcome::Outcome;
use http_server::Log;
use std::io;
use std::io::{ErrorKind, Read, Write};

/// A stream, and what came of each read or write of it, in order.
///
/// The log takes no memory: only clauses read it.
#[derive(Drop)]
pub struct Logged<S> {
    pub stream: S,
    log: Log<Outcome, ()>,
}

impl<S> Logged<S> {
    /// Begins the log of a stream.
    pub fn new(stream: S) -> Logged<S>
        ensures stream { result.stream ≡ stream }
        ensures log { result.log.items ≡ [] }
    {
        Logged {
            stream,
            log: Log::new(),
        }
    }

    /// Logs what came of a read or a write.
    fn note(&mut self, outcome: Outcome)
        ensures stream { self.new.stream ≡ self.old.stream }
        ensures log { outcomes_of self.new.log.items ≡ outcomes_of self.old.log.items ++ outcome ∷ [] }
    {
        self.log = self.log.and(&outcome, &());
    }
}

impl<S: Read> Logged<S> {
    /// Reads bytes into `room`, and returns what came of it.
    pub(crate) fn read(&mut self, room: &mut [u8]) -> Outcome
        ensures room { length room.new ≡ length room.old }
        ensures read { IsReadOf (S.remaining self.old.stream) (S.remaining self.new.stream) result room.new }
        ensures log { outcomes_of self.new.log.items ≡ outcomes_of self.old.log.items ++ result ∷ [] }
    {
        let outcome = outcome_of(&self.stream.read(room));
        self.note(outcome);
        outcome
    }
}

impl<S: Write> Logged<S> {
    /// Writes bytes, or a first part of them, and returns what came of it.
    pub(crate) fn write(&mut self, bytes: &[u8]) -> Outcome
        ensures written { IsWrittenOf (S.contents self.old.stream) (S.contents self.new.stream) result bytes.now }
        ensures log { outcomes_of self.new.log.items ≡ outcomes_of self.old.log.items ++ result ∷ [] }
    {
        let outcome = outcome_of(&self.stream.write(bytes));
        self.note(outcome);
        outcome
    }
}

/// Tells what came of a read or a write.
fn outcome_of(answer: &io::Result<usize>) -> Outcome
    ensures ok { IfOk answer.now (λ count. result ≡ Outcome.Bytes count) }
    ensures interrupted { IfErr answer.now (λ e. error_kind e ≡ ErrorKind.Interrupted → result ≡ Outcome.Interrupted) }
    ensures failed { IfErr answer.now (λ e. error_kind e ≢ ErrorKind.Interrupted → result ≡ Outcome.Failed) }
{
    match answer {
        Ok(count) => Outcome::Bytes(*count),
        Err(error) if error.kind() == ErrorKind::Interrupted => Outcome::Interrupted,
        Err(_) => Outcome::Failed,
    }
}
