//! The server at an address, as a side of a pass.

ghost use Rattle.std.specs.Prelude.{◌≡◌};
ghost use Rattle.couch_http.specs.Message.{message_of};
ghost use Rattle.sync.specs.Repeating.{may_be_repeated, next_pause};

use crate::ahead::Ahead;
use crate::answer::Answer;
use crate::density::is_dense;
use crate::exchange_end::ExchangeEnd;
use crate::exchanging::{exchange_bytes, read_reply};
use crate::logged::Logged;
use crate::resumed::Resumed;
use crate::side::Side;
use crate::timed::Timed;
use couch_http::{Request, Response, request_bytes};
use couch_json::{Got, NoMemory};
use std::alloc::Global;
use std::collections::VecDeque;
use std::io::ErrorKind;
use std::net::{Net, TcpStream};
use std::time::{Clock, Duration, Instant};
use std::{mem, thread};

/// For how many seconds after an exchange its connection is used again. A server that serves one connection
/// after another closes a silent one after 30 seconds.
const FRESH: u64 = 20;

/// After how many milliseconds a lost request is made again at first.
const FIRST_PAUSE: u64 = 100;

/// How many times a request is made at most, whatever the clock says.
const MOST_TRIES: u64 = 1_000_000;

/// The server at an address, as `127.0.0.1:5984`.
///
/// A connection is used again while the server keeps it open, up to 20 seconds after its last exchange. Requests
/// whose turn comes next are sent over it ahead of that, until one of them has no reply.
///
/// A GET or POST that is lost is made again after pauses of 0.1 s, 0.2 s and so on up to 10 s, and so is one to
/// which a proxy says that it has lost the reply, but not a request for the information on a database. All that
/// takes so many seconds at most. Then nothing is asked any more: each further request is lost at once.
#[derive(Drop)]
pub struct Address<'a, R: Net<Stream = TcpStream> + Clock> {
    rt: &'a R,
    address: &'a str,
    /// A connection is used again at all.
    keeps: bool,
    /// Requests are sent ahead of their turn.
    sends_ahead: bool,
    /// How long a request may take.
    patience: Duration,
    /// A request took longer.
    is_given_up: bool,
    kept: Option<KeptConnection>,
}

/// A connection over which another exchange can be made.
#[derive(Drop)]
struct KeptConnection {
    line: Line,
    /// When its last exchange ended.
    since: Instant,
}

/// A connection, with what was sent over it and read from it too early.
#[derive(Drop)]
struct Line {
    stream: TcpStream,
    /// The requests that were sent ahead of their turn.
    ahead: Ahead,
    /// What was read behind the last reply.
    held: VecDeque<u8>,
}

impl<'a, R: Net<Stream = TcpStream> + Clock> Address<'a, R> {
    /// Names a server, and for how many seconds it is waited for. It is not asked anything yet.
    pub fn new(rt: &'a R, address: &'a str, keeps: bool, patience: u32) -> Address<'a, R> {
        Address {
            rt,
            address,
            keeps,
            sends_ahead: keeps,
            patience: Duration::from_secs(patience as u64),
            is_given_up: false,
            kept: None,
        }
    }

    /// Makes a request, again where it was lost, until its time is over.
    fn ask_patiently(&mut self, alloc: Global, request: &Request, next: &[Request]) -> Got<Answer> {
        if self.is_given_up {
            return Ok(Answer::Lost);
        }
        let Ok(since) = Instant::now(self.rt) else {
            return Ok(Answer::Lost);
        };
        if is_information(request) {
            return self.ask(alloc, request, &[], since);
        }
        let mut pause = FIRST_PAUSE;
        for _try in 0..MOST_TRIES {
            match self.ask(alloc, request, next, since)? {
                Answer::Lost => {}
                Answer::Reply(reply) if is_of_gateway(&reply) => {}
                Answer::Reply(reply) if is_dense(request, &reply) => {
                    return Ok(Answer::Unreadable);
                }
                answer => return Ok(answer),
            }
            if !may_be_repeated(request) {
                return Ok(Answer::Lost);
            }
            if !self.waits(since, pause) {
                self.is_given_up = true;
                return Ok(Answer::Lost);
            }
            pause = next_pause(pause);
        }
        Ok(Answer::Lost)
    }

    /// Waits before a request is made again, where that is in time.
    fn waits(&self, since: Instant, pause: u64) -> bool {
        let pause = Duration::from_millis(pause);
        match since.elapsed(self.rt) {
            Ok(elapsed) if elapsed.saturating_add(pause) < self.patience => {
                thread::sleep(self.rt, pause);
                true
            }
            _ => false,
        }
    }

    /// Takes the connection that was kept, if its last exchange was a short time ago and it can be used for a
    /// request.
    fn take_fresh(&mut self, alloc: Global, request: &Request) -> Got<Option<Line>> {
        let Some(KeptConnection { line, since }) = self.kept.take() else {
            return Ok(None);
        };
        match since.elapsed(self.rt) {
            Ok(elapsed) if elapsed < Duration::from_secs(FRESH) => {
                Ok(if line.suits(alloc, request)? {
                    Some(line)
                } else {
                    None
                })
            }
            _ => Ok(None),
        }
    }

    /// Keeps a connection after an exchange that leaves it open. From one that broke off with requests that were
    /// sent ahead on, none is sent ahead any more.
    fn keep(&mut self, line: Line, end: &ExchangeEnd) {
        if !end.leaves_open() {
            self.sends_ahead = self.sends_ahead && line.ahead.is_empty();
            return;
        }
        if !self.keeps || !line.is_settled() {
            return;
        }
        if let Ok(since) = Instant::now(self.rt) {
            self.kept = Some(KeptConnection { line, since });
        }
    }

    /// Makes an exchange over the connection that was kept, or a new one. Where the one that was kept gave no
    /// byte of a reply, a request that may be made twice is made again over a new one. So is one that was sent
    /// ahead of its turn and has no reply there, and from then on none is sent ahead.
    fn ask(
        &mut self,
        alloc: Global,
        request: &Request,
        next: &[Request],
        since: Instant,
    ) -> Got<Answer> {
        let Some(mut line) = self.take_fresh(alloc, request)? else {
            return self.ask_anew(alloc, request, since);
        };
        let was_sent_ahead = !line.ahead.is_empty();
        let end = self.exchange_over(alloc, request, next, &mut line, since)?;
        if was_sent_ahead && !end.is_reply() {
            self.sends_ahead = false;
            return self.ask_anew(alloc, request, since);
        }
        if end.is_unanswered() && may_be_repeated(request) {
            return self.ask_anew(alloc, request, since);
        }
        self.keep(line, &end);
        Ok(end.answer)
    }

    /// Makes an exchange over a new connection. No other request is sent over it until it was left open once
    /// (RFC 9112, section 9.3.2).
    fn ask_anew(&mut self, alloc: Global, request: &Request, since: Instant) -> Got<Answer> {
        let Some(stream) = connect(self.rt, self.address)? else {
            return Ok(Answer::Lost);
        };
        let mut line = Line {
            stream,
            ahead: Ahead::new(alloc),
            held: VecDeque::new(alloc),
        };
        let end = self.exchange_over(alloc, request, &[], &mut line, since)?;
        self.keep(line, &end);
        Ok(end.answer)
    }

    /// Makes an exchange over a connection, whose reads and writes end when the time of the request does. A
    /// request that was sent ahead isn't written again; with another one those are sent that come next. What is
    /// read behind the reply is held back.
    fn exchange_over(
        &self,
        alloc: Global,
        request: &Request,
        next: &[Request],
        line: &mut Line,
        since: Instant,
    ) -> Got<ExchangeEnd> {
        let held = mem::replace(&mut line.held, VecDeque::new(alloc));
        let begins = held.is_empty();
        let timed = Timed::new(self.rt, &line.stream, since, self.patience);
        let mut reader = Logged::new(Resumed::new(alloc, timed, held));
        let end = if line.ahead.is_empty() {
            let bytes = line.ahead.queue(alloc, request, next)?;
            let mut writer = Logged::new(Timed::new(self.rt, &line.stream, since, self.patience));
            exchange_bytes(alloc, &bytes, &mut reader, &mut writer)?
        } else {
            line.ahead.begin_reply();
            read_reply(alloc, &mut reader)?
        };
        let is_strange = begins && reader.stream.stream.is_strange();
        line.held = reader.stream.take_back(alloc, end.surplus())?;
        Ok(told_apart(end.without_surplus(), is_strange))
    }
}

impl Line {
    /// Tells whether a request can be made over the connection: the reply to it comes next, or there is nothing
    /// to read.
    fn suits(&self, alloc: Global, request: &Request) -> Got<bool> {
        if self.ahead.is_empty() {
            return Ok(is_quiet(&self.stream));
        }
        Ok(self.ahead.awaits(&request_bytes(alloc, request)?))
    }

    /// Tells whether nothing was read that no request awaits.
    fn is_settled(&self) -> bool {
        self.held.is_empty() || !self.ahead.is_empty()
    }
}

impl<R: Net<Stream = TcpStream> + Clock> Side for Address<'_, R> {
    fn foresees(&self) -> bool {
        match &self.kept {
            Some(kept) => self.sends_ahead && kept.line.ahead.is_empty(),
            None => false,
        }
    }

    fn answer(&mut self, alloc: Global, request: &Request, next: &[Request]) -> Got<Answer> {
        self.ask_patiently(alloc, request, next)
    }
}

/// Tells a reply that was lost apart from bytes that begin none.
fn told_apart(end: ExchangeEnd, is_strange: bool) -> ExchangeEnd {
    match end.answer {
        Answer::Lost if is_strange => ExchangeEnd {
            answer: Answer::Unreadable,
            read: end.read,
        },
        _ => end,
    }
}

/// Opens a connection. There is none where it fails.
fn connect<R: Net<Stream = TcpStream>>(rt: &R, address: &str) -> Got<Option<TcpStream>> {
    match TcpStream::connect(rt, address) {
        Ok(stream) => {
            let _ = stream.set_nodelay(true);
            Ok(Some(stream))
        }
        Err(error) if error.kind() == ErrorKind::OutOfMemory => Err(NoMemory),
        Err(_) => Ok(None),
    }
}

/// Tells whether a connection is open and has nothing to read.
fn is_quiet(stream: &TcpStream) -> bool {
    if stream.set_nonblocking(true).is_err() {
        return false;
    }
    let mut room = [0];
    let is_quiet = match stream.peek(&mut room) {
        Ok(_) => false,
        Err(error) => error.kind() == ErrorKind::WouldBlock,
    };
    stream.set_nonblocking(false).is_ok() && is_quiet
}

/// Tells whether a request asks for the information on a database, without which a pass goes on.
fn is_information(request: &Request) -> bool {
    match request.path.as_str().split_once('/') {
        Some((_, database)) => database.split_once('/').is_none(),
        None => true,
    }
}

/// Tells whether a reply is that of a proxy to which the server's was lost (RFC 9110, sections 15.6.3 and
/// 15.6.5).
fn is_of_gateway(reply: &Response) -> bool {
    matches!(reply.status(), 502 | 504)
}

/// Returns the pause after another one, in milliseconds: twice as long, and 10 seconds at most.
fn next_pause(pause: u64) -> u64
    ensures { result ≡ next_pause pause }
{
    pause.saturating_mul(2).min(10_000)
}

/// Tells whether a request of a pass may be made twice: it reads, or brings revisions by their names.
fn may_be_repeated(request: &Request) -> bool
    ensures { result ≡ may_be_repeated (message_of request.now) }
{
    matches!(request.method.as_str(), "GET" | "POST")
}
