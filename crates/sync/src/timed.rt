//! A connection whose reads and writes end in time.

use std::io;
use std::io::{ErrorKind, Read, Write};
use std::net::TcpStream;
use std::time::{Clock, Duration, Instant};

/// How many seconds a read or a write may wait at most.
const MOST_WAIT: u64 = 30;

/// A connection, of which no read or write waits for longer than 30 seconds, nor beyond the time of its request.
#[derive(Drop)]
pub struct Timed<'a, R: Clock> {
    rt: &'a R,
    stream: &'a TcpStream,
    /// When its request began.
    since: Instant,
    /// How long that may take.
    patience: Duration,
    /// Nothing was read yet.
    is_unread: bool,
    /// What was read first doesn't begin as a reply does.
    is_strange: bool,
}

/// How a reply begins (RFC 9112, section 4).
const BEGINNING: &[u8] = b"HTTP/1.";

impl<'a, R: Clock> Timed<'a, R> {
    /// Gives a connection time: so much since that moment.
    pub fn new(
        rt: &'a R,
        stream: &'a TcpStream,
        since: Instant,
        patience: Duration,
    ) -> Timed<'a, R> {
        Timed {
            rt,
            stream,
            since,
            patience,
            is_unread: true,
            is_strange: false,
        }
    }

    /// Tells whether bytes were read that begin no reply.
    pub fn is_strange(&self) -> bool {
        self.is_strange
    }

    /// Notes how the first bytes begin.
    fn note_first(&mut self, bytes: &[u8]) {
        if self.is_unread && !bytes.is_empty() {
            self.is_unread = false;
            self.is_strange = !bytes.starts_with(BEGINNING) && !BEGINNING.starts_with(bytes);
        }
    }

    /// Returns how long a read or a write may wait now.
    fn wait(&self) -> io::Result<Duration> {
        let left = self.patience.saturating_sub(self.since.elapsed(self.rt)?);
        if left.is_zero() {
            return Err(io::Error::from(ErrorKind::TimedOut));
        }
        Ok(left.min(Duration::from_secs(MOST_WAIT)))
    }
}

impl<R: Clock> Read for Timed<'_, R> {
    fn read(&mut self, buf: &mut [u8]) -> io::Result<usize> {
        self.stream.set_read_timeout(Some(self.wait()?))?;
        let mut stream = self.stream;
        let count = stream.read(buf)?;
        self.note_first(&buf[..count]);
        Ok(count)
    }
}

impl<R: Clock> Write for Timed<'_, R> {
    fn write(&mut self, buf: &[u8]) -> io::Result<usize> {
        self.stream.set_write_timeout(Some(self.wait()?))?;
        let mut stream = self.stream;
        stream.write(buf)
    }

    fn flush(&mut self) -> io::Result<()> {
        Ok(())
    }
}
