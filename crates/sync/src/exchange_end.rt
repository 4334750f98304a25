ghost use Rattle.std.specs.Prelude.{◌≡◌, ◌+◌, is_some, true};
ghost use Rattle.sync.specs.Answers.{reply_of};
ghost use Rattle.sync.specs.Persistence.{LeavesOpen, surplus_of};
ghost use Rattle.sync.specs.declared.answer.Answer.TheVariants.{Lost};

use crate::answer::Answer;
use crate::persistence::is_persistent;

/// What came of an exchange.
#[derive(Debug, Drop)]
pub struct ExchangeEnd {
    /// The reply, or that there is none.
    pub answer: Answer,
    /// How many bytes were read.
    pub read: u64,
}

impl ExchangeEnd {
    /// Tells whether another exchange can be made over the same connection: the reply was read and nothing
    /// behind it, and its head leaves the connection open (RFC 9112, section 9.3).
    pub fn leaves_open(&self) -> bool
        ensures { result ≡ true → LeavesOpen self.now.answer self.now.read }
    {
        match &self.answer {
            Answer::Reply(reply) => {
                self.read == reply.bytes().len() as u64 && is_persistent(reply.bytes())
            }
            Answer::Lost | Answer::Unreadable => false,
        }
    }

    /// Counts the bytes that were read behind the reply.
    pub fn surplus(&self) -> u64
        ensures { result ≡ surplus_of self.now.answer self.now.read }
    {
        match &self.answer {
            Answer::Reply(reply) => self.read.saturating_sub(reply.bytes().len() as u64),
            Answer::Lost | Answer::Unreadable => 0,
        }
    }

    /// Returns what came of the exchange where the bytes behind the reply are held back, as if they were not read.
    pub fn without_surplus(self) -> ExchangeEnd
        ensures answer { result.answer ≡ self.answer }
        ensures read { result.read + surplus_of self.answer self.read ≡ self.read }
    {
        let surplus = self.surplus();
        ExchangeEnd {
            answer: self.answer,
            read: self.read - surplus,
        }
    }

    /// Tells whether there is a reply.
    pub fn is_reply(&self) -> bool
        ensures { result ≡ is_some (reply_of self.now.answer) }
    {
        matches!(self.answer, Answer::Reply(_))
    }

    /// Tells whether the reply was lost before a byte of it was read.
    pub fn is_unanswered(&self) -> bool
        ensures { result ≡ true → (self.now.answer ≡ Lost) × (self.now.read ≡ 0) }
    {
        matches!(self.answer, Answer::Lost) && self.read == 0
    }
}
