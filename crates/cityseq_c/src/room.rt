//! The sink that writes the output to bytes of the caller.
ghost use Rattle.std.specs.Prelude.{◌≤◌, length};

use cj_stream::{Feature, Header, LineSink, WriteFault};

/// Bytes of the caller, with the number of those that are written. It counts how often a line did
/// not fit. The count stops at 2^64 - 1.
#[derive(Drop)]
pub struct Room<'a> {
    bytes: &'a mut [u8],
    written: usize,
    failures: u64,
    ghost room: { written ≤ length bytes.now },
}

impl<'a> Room<'a> {
    ghost use Rattle.std.specs.Prelude.{◌≡◌, ◌+◌, OnOk, OnErr};
    ghost use Rattle.cj_stream.specs.Meaning.Lines.{raw};
    ghost use Rattle.cityseq_c.specs.Room.{room_bytes, room_loan, written_of, room_failures, Grows, LeavesRoom};

    /// Returns room in which nothing is written.
    pub fn new(bytes: &'a mut [u8]) -> Room<'a>
        ensures loan { room_loan result ≡ bytes.entry.ghost_name }
        ensures bytes { room_bytes result ≡ bytes.old }
        ensures written { written_of result ≡ 0 }
        ensures failures { room_failures result ≡ 0 }
    {
        Room {
            bytes,
            written: 0,
            failures: 0,
        }
    }

    /// Returns how many bytes are written.
    pub fn written(&self) -> usize
        ensures { result ≡ written_of self.now }
    {
        self.written
    }

    /// Writes bytes after those that are written. The rest of the room must hold them.
    fn write(&mut self, bytes: &[u8])
        requires { written_of self.old + length bytes.now ≤ length (room_bytes self.old) }
        ensures { Grows self.old bytes.now self.new }
    {
        let end = self.written + bytes.len();
        self.bytes[self.written..end].copy_from_slice(bytes);
        self.written = end;
    }

    /// Writes a line as it came.
    ///
    /// # Errors
    ///
    /// `WriteFault` if there is no room for all of the line. Then it writes nothing of it.
    fn write_line(&mut self, content: &[u8], lf: bool) -> Result<(), WriteFault>
        ensures ok { OnOk result (Grows self.old (raw (record { content = content.now; lf = lf })) self.new) }
        ensures fault { OnErr result (LeavesRoom self.old (raw (record { content = content.now; lf = lf })) self.new) }
    {
        let left = self.bytes.len() - self.written;
        if left < content.len() || (lf && left == content.len()) {
            self.failures = self.failures.saturating_add(1);
            return Err(WriteFault);
        }
        self.write(content);
        if lf {
            self.write(b"\n");
        }
        Ok(())
    }
}

impl LineSink for Room<'_> {
    ghost use Rattle.cityseq_c.specs.Room.{room_law};

    ghost law = { room_law };

    fn header(&mut self, header: &Header<'_>, lf: bool) -> Result<(), WriteFault> {
        self.write_line(header.bytes(), lf)
    }

    fn put(&mut self, feature: &Feature<'_>, lf: bool) -> Result<(), WriteFault> {
        self.write_line(feature.bytes(), lf)
    }
}
