//! Readers and writers that fail, or are interrupted.

use std::alloc::Global;
use std::io;
use std::io::{ErrorKind, Read, Write};

/// A reader that fails at once.
#[derive(Drop)]
pub struct Broken;

impl Read for Broken {
    fn read(&mut self, _buf: &mut [u8]) -> io::Result<usize> {
        Err(io::Error::from(ErrorKind::BrokenPipe))
    }
}

/// A reader that gives a byte each time, and fails once these were read.
#[derive(Drop)]
pub struct Breaking<'a> {
    pub bytes: &'a [u8],
}

impl Read for Breaking<'_> {
    fn read(&mut self, buf: &mut [u8]) -> io::Result<usize> {
        let (Some(byte), Some(room)) = (self.bytes.first(), buf.first_mut()) else {
            return Err(io::Error::from(ErrorKind::BrokenPipe));
        };
        *room = *byte;
        self.bytes = &self.bytes[1..];
        Ok(1)
    }
}

/// A reader that gives a byte at every second time, and is interrupted between. Then it ends.
#[derive(Drop)]
pub struct Halting<'a> {
    bytes: &'a [u8],
    halted: bool,
}

impl<'a> Halting<'a> {
    /// Makes a reader of these bytes.
    pub fn new(bytes: &'a [u8]) -> Halting<'a> {
        Halting {
            bytes,
            halted: false,
        }
    }
}

impl Read for Halting<'_> {
    fn read(&mut self, buf: &mut [u8]) -> io::Result<usize> {
        self.halted = !self.halted;
        if self.halted {
            return Err(io::Error::from(ErrorKind::Interrupted));
        }
        let (Some((byte, rest)), Some(room)) = (self.bytes.split_first(), buf.first_mut()) else {
            return Ok(0);
        };
        *room = *byte;
        self.bytes = rest;
        Ok(1)
    }
}

/// A writer that takes a byte each time, and fails once it has taken so many.
#[derive(Drop)]
pub struct Slow {
    pub bytes: Vec<u8>,
    left: usize,
}

impl Slow {
    /// Makes a writer that takes so many bytes.
    pub fn new(alloc: Global, left: usize) -> Slow {
        Slow {
            bytes: Vec::new(alloc),
            left,
        }
    }
}

impl Write for Slow {
    fn write(&mut self, buf: &[u8]) -> io::Result<usize> {
        let Some(byte) = buf.first() else {
            return Ok(0);
        };
        if self.left == 0 {
            return Err(io::Error::from(ErrorKind::BrokenPipe));
        }
        self.left -= 1;
        self.bytes.push(*byte)?;
        Ok(1)
    }

    fn flush(&mut self) -> io::Result<()> {
        Ok(())
    }
}

/// A writer that takes a byte at every second time, and is interrupted between.
#[derive(Drop)]
pub struct SlowHalting {
    inner: Slow,
    halted: bool,
}

impl SlowHalting {
    /// Makes a writer that takes so many bytes.
    pub fn new(alloc: Global, left: usize) -> SlowHalting {
        SlowHalting {
            inner: Slow::new(alloc, left),
            halted: false,
        }
    }

    /// Returns the bytes that it took.
    pub fn bytes(&self) -> &[u8] {
        self.inner.bytes.as_slice()
    }
}

impl Write for SlowHalting {
    fn write(&mut self, buf: &[u8]) -> io::Result<usize> {
        self.halted = !self.halted;
        if self.halted {
            return Err(io::Error::from(ErrorKind::Interrupted));
        }
        self.inner.write(buf)
    }

    fn flush(&mut self) -> io::Result<()> {
        Ok(())
    }
}

/// A reader and a writer of which each call is interrupted.
#[derive(Drop)]
pub struct Stopped;

impl Read for Stopped {
    fn read(&mut self, _buf: &mut [u8]) -> io::Result<usize> {
        Err(io::Error::from(ErrorKind::Interrupted))
    }
}

impl Write for Stopped {
    fn write(&mut self, _buf: &[u8]) -> io::Result<usize> {
        Err(io::Error::from(ErrorKind::Interrupted))
    }

    fn flush(&mut self) -> io::Result<()> {
        Ok(())
    }
}
