//! A server's log of what failed, on standard error.

ghost use Rattle.std.specs.Prelude.{◌≡◌, [], Some};
ghost use Rattle.server.specs.Failing.{failures_of};

use command_line::ProgramFault;
use couch_http::Request;
use http::Method;
use http_server::Log;
use httpdate::HttpDate;
use hub::FailureLog;
use percent_encoding::{CONTROLS, utf8_percent_encode};
use std::fmt;
use std::fmt::{Display, Formatter};
use std::io::Eprint;
use std::time::{Clock, SystemTime, UNIX_EPOCH};
use store::StoreFault;

/// Prints a line on standard error for each reply of 500, where that is asked for.
///
/// What clauses read of it takes no memory: a line is printed where memory has run out, too.
#[derive(Drop)]
pub struct ErrorLog<'a, R: Eprint + Clock> {
    rt: &'a R,
    is_asked: bool,
    requests: Log<Method, String>,
}

impl<'a, R: Eprint + Clock> ErrorLog<'a, R> {
    /// Begins a log, which prints where that is asked for.
    pub fn new(rt: &'a R, is_asked: bool) -> ErrorLog<'a, R>
        ensures { result.requests.items ≡ [] }
    {
        ErrorLog {
            rt,
            is_asked,
            requests: Log::new(),
        }
    }
}

impl<R: Eprint + Clock> FailureLog for ErrorLog<'_, R> {
    ghost told = { λ l. Some (failures_of l.requests.items) };

    fn note(&mut self, request: &Request, cause: StoreFault) {
        if self.is_asked {
            print_failure(self.rt, request, cause);
        }
        self.requests = self.requests.and(&request.method, &request.path);
    }
}

/// A moment as a line shows it: a date of HTTP (RFC 9110, section 5.6.7), or `-` where it is unknown.
#[derive(Drop)]
struct Moment(Option<HttpDate>);

impl Display for Moment {
    fn fmt<W: fmt::Write>(&self, f: &mut Formatter<W>) -> fmt::Result {
        match &self.0 {
            Some(date) => write!(f, "{date}"),
            None => f.write_str("-"),
        }
    }
}

/// Prints the line of a request whose reply is 500. It says nothing of a request but its method and its path,
/// whose bytes outside printable ASCII are percent-encoded. Where nothing can be printed the line is lost.
fn print_failure<R: Eprint + Clock>(rt: &R, request: &Request, cause: StoreFault) {
    let now = read_clock(rt);
    let method = request.method.as_str();
    let path = utf8_percent_encode(request.path.as_str(), CONTROLS);
    let _ = eprintln!(rt; "couchd: {now}: 500 {method} {path}: {cause}");
}

/// Prints the line of a server's end: it has served all connections, or has ended by a fault.
pub fn print_end<R: Eprint + Clock>(rt: &R, served: &Result<u8, ProgramFault>) {
    let now = read_clock(rt);
    let _ = match served {
        Ok(_) => eprintln!(rt; "couchd: {now}: ended: all connections are served"),
        Err(fault) => eprintln!(rt; "couchd: {now}: ended: {fault}"),
    };
}

/// Returns what time it is, to the second.
fn read_clock<R: Clock>(rt: &R) -> Moment {
    let Ok(now) = SystemTime::now(rt) else {
        return Moment(None);
    };
    match now.duration_since(UNIX_EPOCH) {
        Ok(since) => Moment(HttpDate::from_unix_secs(since.as_secs()).ok()),
        Err(_) => Moment(None),
    }
}
