//! A side of which only its replies are known.

use crate::answer::Answer;
use crate::side::Side;
use couch_http::Request;
use couch_json::Got;
use http_server::Log;
use std::alloc::Global;

/// A server, and the log of what it was asked and what it answered, in order. A request of the log may have been
/// sent more than once: each time that it, or its reply, was lost.
///
/// The log takes no memory: only clauses read it.
#[derive(Drop)]
pub struct Remote<P> {
    pub server: P,
    log: Log<Request, Answer>,
}

impl<P> Remote<P> {
    ghost use Rattle.std.specs.Prelude.{◌≡◌, ◌++◌, ◌∷◌, []};
    ghost use Rattle.couch_http.specs.Message.{message_of};
    ghost use Rattle.sync.specs.Remotes.{IsLogged};

    /// Begins the log of a server.
    pub fn new(server: P) -> Remote<P>
        ensures server { result.server ≡ server }
        ensures log { result.log.items ≡ [] }
    {
        Remote {
            server,
            log: Log::new(),
        }
    }

    /// Logs an exchange.
    fn note(&mut self, request: &Request, answer: &Answer)
        ensures log { IsLogged self.old.log.items (message_of request.now) answer.now self.new.log.items }
        ensures server { self.new.server ≡ self.old.server }
    {
        self.log = self.log.and(request, answer);
    }
}

impl<P: Side> Side for Remote<P> {
    ghost use Rattle.std.specs.Prelude.{◌≡◌};
    ghost use Rattle.sync.specs.Remotes.{IsLogged};
    ghost use Rattle.sync.specs.declared.answer.Answer.TheVariants.{Lost};

    ghost is_honest = { λ remote. P.is_honest remote.server };

    // The answer is the server's, and the log has it.
    ghost answers = { λ before m answer after.
        P.answers before.server m answer after.server × IsLogged before.log.items m answer after.log.items };

    // Where memory ran out the log has the request as one that was lost.
    ghost breaks_off = { λ before m after.
        P.breaks_off before.server m after.server × IsLogged before.log.items m Lost after.log.items };

    fn foresees(&self) -> bool {
        self.server.foresees()
    }

    fn answer(&mut self, alloc: Global, request: &Request, next: &[Request]) -> Got<Answer> {
        let answer = self.server.answer(alloc, request, next);
        match answer {
            Ok(answer) => {
                self.note(request, &answer);
                Ok(answer)
            }
            Err(no_memory) => {
                self.note(request, &Answer::Lost);
                Err(no_memory)
            }
        }
    }
}
