//! Readers and writers that are slow or that fail. No contract knows their bytes.
use std::io::{Error, ErrorKind, Read, Result, Write};

/// Gives at most `step` bytes per read, and fails at the read number `fails_at`, from 1.
#[derive(Drop)]
pub struct SlowReader<'a> {
    pub bytes: &'a [u8],
    pub step: usize,
    pub reads: u64,
    pub fails_at: u64,
    pub fault: ErrorKind,
}

impl<'a> SlowReader<'a> {
    /// Returns a reader that never fails.
    pub fn new(bytes: &'a [u8], step: usize) -> SlowReader<'a> {
        SlowReader {
            bytes,
            step,
            reads: 0,
            fails_at: 0,
            fault: ErrorKind::Other,
        }
    }
}

impl Read for SlowReader<'_> {
    fn read(&mut self, buf: &mut [u8]) -> Result<usize> {
        self.reads = self.reads.saturating_add(1);
        if self.reads == self.fails_at {
            return Err(Error::from(self.fault));
        }
        let n = self.step.min(self.bytes.len()).min(buf.len());
        let bytes = self.bytes;
        buf[..n].copy_from_slice(&bytes[..n]);
        self.bytes = &bytes[n..];
        Ok(n)
    }
}

/// Gives one byte per read: those of the front, and then spaces without end.
#[derive(Drop)]
pub struct EndlessReader<'a> {
    pub front: &'a [u8],
    pub reads: u64,
}

impl Read for EndlessReader<'_> {
    fn read(&mut self, buf: &mut [u8]) -> Result<usize> {
        self.reads = self.reads.saturating_add(1);
        let Some(place) = buf.first_mut() else {
            return Ok(0);
        };
        *place = b' ';
        if let Some((byte, others)) = self.front.split_first() {
            *place = *byte;
            self.front = others;
        }
        Ok(1)
    }
}

/// Gives the bytes before a cut with one read, if they fit, and those after it with the next.
#[derive(Drop)]
pub struct CutReader<'a> {
    pub front: &'a [u8],
    pub back: &'a [u8],
}

impl Read for CutReader<'_> {
    fn read(&mut self, buf: &mut [u8]) -> Result<usize> {
        if self.front.is_empty() {
            self.front = self.back;
            self.back = &[];
        }
        let bytes = self.front;
        let n = bytes.len().min(buf.len());
        buf[..n].copy_from_slice(&bytes[..n]);
        self.front = &bytes[n..];
        Ok(n)
    }
}

/// Takes at most `step` bytes per write. The write number `stops_at` takes none, and the write
/// number `fails_at` fails, from 1. Its flush fails if `flush_fails`.
#[derive(Drop)]
pub struct SlowWriter {
    pub bytes: Vec<u8>,
    pub step: usize,
    pub writes: u64,
    pub stops_at: u64,
    pub fails_at: u64,
    pub fault: ErrorKind,
    pub flush_fails: bool,
}

impl SlowWriter {
    /// Returns a writer that never stops or fails.
    pub fn new(bytes: Vec<u8>, step: usize) -> SlowWriter {
        SlowWriter {
            bytes,
            step,
            writes: 0,
            stops_at: 0,
            fails_at: 0,
            fault: ErrorKind::Other,
            flush_fails: false,
        }
    }
}

impl Write for SlowWriter {
    fn write(&mut self, buf: &[u8]) -> Result<usize> {
        self.writes = self.writes.saturating_add(1);
        if self.writes == self.fails_at {
            return Err(Error::from(self.fault));
        }
        if self.writes == self.stops_at {
            return Ok(0);
        }
        let n = self.step.min(buf.len());
        self.bytes.extend_from_slice(&buf[..n])?;
        Ok(n)
    }

    fn flush(&mut self) -> Result<()> {
        if self.flush_fails {
            return Err(Error::from(self.fault));
        }
        Ok(())
    }
}
