use crate::answer::Answer;
use couch_http::Request;
use couch_json::Got;
use std::alloc::Global;

/// A side of a pass: who answers the requests that the pass makes to its source, or to its target.
pub trait Side {
    ghost use Rattle.std.specs.Prelude.{◌≡◌, ⊤, IfOk, OnErr};
    ghost use Rattle.couch_http.specs.Message.{Message, message_of};
    ghost use Rattle.sync.specs.declared.answer.Answer.{Answer};

    /// What the side stands on returned what was written. Clauses about its answers say something only
    /// where this holds at the return.
    ghost is_honest: { Self → Type 0 } = { λ _. ⊤ };

    /// How the side may answer: what it was, the request, the answer, and what the side is then. Of a side that
    /// says no more, nothing is known.
    ghost answers: { Self → Message → Answer → Self → Type 0 } = { λ _ _ _ _. ⊤ };

    /// What a side may be where memory ran out as it was asked: what it was, the request, and what it is then.
    ghost breaks_off: { Self → Message → Self → Type 0 } = { λ _ _ _. ⊤ };

    /// Tells whether the side makes use of knowing now what it is asked next.
    fn foresees(&self) -> bool;

    /// Asks the side, and returns what comes of that. `next` has what it is asked behind that, in this order, if
    /// all goes well.
    fn answer(&mut self, alloc: Global, request: &Request, next: &[Request]) -> Got<Answer>
        ensures answered { is_honest self.new → IfOk result (λ answer. answers self.old (message_of request.now) answer self.new) }
        ensures refused { is_honest self.new → OnErr result (breaks_off self.old (message_of request.now) self.new) }
        ensures honest { is_honest self.new → is_honest self.old };
}
