//! A listener whose connections are logged.

ghost use Rattle.std.specs.Prelude.{◌≡◌, ◌≢◌, ◌++◌, ◌∷◌, [], IfErr, OnOk};
ghost use Rattle.std.specs.IoError.{error_kind};
ghost use Rattle.server.specs.Accepting.{acceptances_of};

use crate::acceptance::Acceptance;
use http_server::Log;
use std::io;
use std::io::ErrorKind;
use std::net::{OpenListener, SocketAddr, TcpStream};

/// A listener, and what came of each wait for a connection, in order.
///
/// The log takes no memory: only clauses read it.
#[derive(Drop)]
pub struct LoggedListener<'a, L> {
    listener: &'a L,
    log: Log<Acceptance, ()>,
}

impl<'a, L> LoggedListener<'a, L> {
    /// Begins the log of a listener.
    pub fn new(listener: &'a L) -> LoggedListener<'a, L>
        ensures { result.log.items ≡ [] }
    {
        LoggedListener {
            listener,
            log: Log::new(),
        }
    }

    /// Logs what came of a wait.
    fn note(&mut self, acceptance: Acceptance)
        ensures { acceptances_of self.new.log.items ≡ acceptances_of self.old.log.items ++ acceptance ∷ [] }
    {
        self.log = self.log.and(&acceptance, &());
    }
}

impl<L: OpenListener<Stream = TcpStream>> LoggedListener<'_, L> {
    /// Waits for a connection, and accepts it.
    pub(crate) fn accept(&mut self) -> io::Result<(TcpStream, SocketAddr)>
        ensures connected { OnOk result (acceptances_of self.new.log.items ≡ acceptances_of self.old.log.items ++ Acceptance.Connected ∷ []) }
        ensures reset { IfErr result (λ e. error_kind e ≡ ErrorKind.ConnectionAborted
            → acceptances_of self.new.log.items ≡ acceptances_of self.old.log.items ++ Acceptance.Reset ∷ []) }
        ensures failed { IfErr result (λ e. error_kind e ≢ ErrorKind.ConnectionAborted
            → acceptances_of self.new.log.items ≡ acceptances_of self.old.log.items ++ Acceptance.Failed ∷ []) }
    {
        let accepted = self.listener.accept();
        self.note(acceptance_of(&accepted));
        accepted
    }
}

/// Tells what came of a wait for a connection.
fn acceptance_of(accepted: &io::Result<(TcpStream, SocketAddr)>) -> Acceptance
    ensures connected { OnOk accepted.now (result ≡ Acceptance.Connected) }
    ensures reset { IfErr accepted.now (λ e. error_kind e ≡ ErrorKind.ConnectionAborted → result ≡ Acceptance.Reset) }
    ensures failed { IfErr accepted.now (λ e. error_kind e ≢ ErrorKind.ConnectionAborted → result ≡ Acceptance.Failed) }
{
    match accepted {
        Ok(_) => Acceptance::Connected,
        Err(error) if error.kind() == ErrorKind::ConnectionAborted => Acceptance::Reset,
        Err(_) => Acceptance::Failed,
    }
}
