//! A reader that is read until a read fails.
//!
//! A `Source` holds the reader, and does not read it again after a failed read. A small function
//! with an exact clause interprets the result of a read, as no clause of its caller can see that
//! result. The note of a failure is private: a proof can rely on it only if no other code can set
//! it.
ghost use Rattle.std.specs.Prelude.{◌≡◌, ◌+◌, ◌<◌, ◌^◌, false, is_err};
ghost use Rattle.std.specs.Io.{ReadsAtMost};
ghost use Rattle.std.specs.Io.KnownBytes.{ReadConsumes};
ghost use Rattle.cj_stream.specs.Device.{given_by};

use std::io;
use std::io::Read;

/// A read failed.
#[derive(Clone, Copy, Debug, PartialEq, Eq)]
pub struct ReadFault;

/// Returns how many bytes a read gave, or that it failed. Every error is a failure, also
/// `Interrupted`.
fn bytes_given(answer: io::Result<usize>) -> Result<usize, ReadFault>
    ensures { result ≡ given_by answer }
{
    match answer {
        Ok(n) => Ok(n),
        Err(_) => Err(ReadFault),
    }
}

/// A borrowed reader, how often it was read, and whether a read has failed.
///
/// Nothing else reads it meanwhile. So a failure cannot be passed over: there is no read after it.
#[derive(Drop)]
pub struct Source<'r, R: Read> {
    reader: &'r mut R,
    reads: u64,
    failed: bool,
}

impl<'r, R: Read> Source<'r, R> {
    ghost use Rattle.cj_stream.specs.Source.{source_reader, source_name, reads_of, has_failed};

    /// Returns a source that was not read.
    pub fn new(reader: &'r mut R) -> Self
        ensures same_reference { source_name result ≡ reader.entry.ghost_name }
        ensures reader { source_reader result ≡ reader.old }
        ensures unread { reads_of result ≡ 0 }
        ensures unfailed { has_failed result ≡ false }
    {
        Source {
            reader,
            reads: 0,
            failed: false,
        }
    }

    /// Reads once, counts the read, and notes whether it failed.
    pub fn read(&mut self, buffer: &mut [u8]) -> Result<usize, ReadFault>
        requires unfailed { has_failed self.old ≡ false }
        requires few { reads_of self.old < 2 ^ 60 }
        ensures same_reference { source_name self.new ≡ source_name self.old }
        ensures bound { ReadsAtMost result buffer.new }
        ensures bytes { ReadConsumes (R.remaining (source_reader self.old))
            (R.remaining (source_reader self.new)) result buffer.new }
        ensures counted { reads_of self.new ≡ reads_of self.old + 1 }
        ensures failed { has_failed self.new ≡ is_err result }
    {
        self.reads += 1;
        let given = bytes_given(self.reader.read(buffer));
        self.failed = given.is_err();
        given
    }
}
