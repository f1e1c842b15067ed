//! The sink that writes: a writer, and what its calls have returned.
//!
//! What is easy to get wrong: `write_whole` has its own loop. `write_all` of std tries again after
//! `Interrupted`, but here every error is a failure and counts once.
//!
//! A small function with an exact clause interprets what a device returned, as no clause of its
//! caller can see that result. The count and the note are private: a proof can rely on them only if
//! no other code can set them. Each write drops the note of a flush.
ghost use Rattle.std.specs.Prelude.{◌≡◌, ◌≤◌, None, Some, OnOk, OnErr};
ghost use Rattle.std.specs.Io.KnownBytes.{Appends, Keeps};
ghost use Rattle.cj_stream.specs.Device.{taken_by, flushed_by};
ghost use Rattle.cj_stream.specs.Items.{raw_item};
ghost use Rattle.cj_stream.specs.Item.{header_item, feature_item};
ghost use Rattle.cj_stream.specs.Meaning.Lines.{raw};
ghost use Rattle.cj_stream.specs.Sink.{HasRisen, RisesOnErr, AppendsPart, counted};

use crate::sink::LineSink;
use cj_feature::{Feature, Header};
use std::io;
use std::io::Write;
use thiserror::Error;

/// Some bytes were not taken.
#[derive(Clone, Copy, Debug, PartialEq, Eq, Error)]
#[error("a line could not be written")]
pub struct WriteFault;

/// Returns how many bytes a write took, or that it failed. Every error is a failure, also
/// `Interrupted`, and so is a write that took no byte.
fn bytes_taken(answer: io::Result<usize>) -> Result<usize, WriteFault>
    ensures { result ≡ taken_by answer }
{
    match answer {
        Ok(n) if n > 0 => Ok(n),
        _ => Err(WriteFault),
    }
}

/// Returns whether a flush failed. Every error is a failure.
fn flushed(answer: io::Result<()>) -> Result<(), WriteFault>
    ensures { result ≡ flushed_by answer }
{
    match answer {
        Ok(()) => Ok(()),
        Err(_) => Err(WriteFault),
    }
}

/// A writer with a count of failed writes, and a note of the last flush.
///
/// The note lasts until more is written. Clauses cannot see a call of the system. They see the
/// count and the note, which no other code can set. The count stops at 2^64 - 1.
///
/// As a sink it writes each line as it came, with LF exactly if the line had one. A run borrows the
/// output, so its owner can go on with it after the run.
#[derive(Drop)]
pub struct Output<W: Write + Drop> {
    writer: W,
    failures: u64,
    noted: Option<Result<(), WriteFault>>,
}

impl<W: Write + Drop> Output<W> {
    ghost use Rattle.cj_stream.specs.Output.{output_writer, output_failures, flush_answer};

    /// Returns an output for a writer. It has counted no failure and noted no flush.
    pub fn new(writer: W) -> Self
        ensures writer { output_writer result ≡ writer }
        ensures failures { output_failures result ≡ 0 }
        ensures unflushed { flush_answer result ≡ None }
    {
        Output {
            writer,
            failures: 0,
            noted: None,
        }
    }

    /// Returns the writer, as it is now.
    pub fn into_inner(self) -> W
        ensures { result ≡ output_writer self }
    {
        let Output {
            writer,
            failures: _,
            noted: _,
        } = self;
        writer
    }

    /// Writes all bytes, by one write after another, or as many as the writer takes before it
    /// fails.
    ///
    /// # Errors
    ///
    /// `WriteFault` if a write returned an error, also `Interrupted`, or took no byte.
    pub fn write_whole(&mut self, bytes: &[u8]) -> Result<(), WriteFault>
        ensures ok { OnOk result
            (Appends (W.contents (output_writer self.old)) (W.contents (output_writer self.new)) bytes.now) }
        ensures fault { OnErr result
            (AppendsPart (W.contents (output_writer self.old)) (W.contents (output_writer self.new)) bytes.now) }
        ensures cause { OnErr result (HasRisen (output_failures self.old) (output_failures self.new)) }
        ensures failures { RisesOnErr result (output_failures self.old) (output_failures self.new) }
        ensures counts { output_failures self.old ≤ output_failures self.new }
        ensures unflushed { flush_answer self.new ≡ None }
        ensures counted { output_failures self.new ≡ counted (output_failures self.old) result }
    {
        self.noted = None;
        let mut rest = bytes;
        while !rest.is_empty() {
            match bytes_taken(self.writer.write(rest)) {
                Ok(n) => rest = &rest[n..],
                Err(WriteFault) => {
                    self.failures = self.failures.saturating_add(1);
                    return Err(WriteFault);
                }
            }
        }
        Ok(())
    }

    /// Writes a line as it came: its content, and LF if the line had one.
    pub fn write_line(&mut self, content: &[u8], lf: bool) -> Result<(), WriteFault>
        ensures ok { OnOk result (Appends (W.contents (output_writer self.old)) (W.contents (output_writer self.new))
            (raw (record { content = content.now; lf = lf }))) }
        ensures fault { OnErr result
            (AppendsPart (W.contents (output_writer self.old)) (W.contents (output_writer self.new))
            (raw (record { content = content.now; lf = lf }))) }
        ensures cause { OnErr result (HasRisen (output_failures self.old) (output_failures self.new)) }
        ensures counts { output_failures self.old ≤ output_failures self.new }
        ensures unflushed { flush_answer self.new ≡ None }
        ensures counted { output_failures self.new ≡ counted (output_failures self.old) result }
    {
        self.write_whole(content)?;
        if lf {
            self.write_whole(b"\n")?;
        }
        Ok(())
    }

    /// Flushes the writer, and notes the result.
    pub fn flush(&mut self) -> Result<(), WriteFault>
        ensures bytes { Keeps (W.contents (output_writer self.old)) (W.contents (output_writer self.new)) }
        ensures failures { output_failures self.new ≡ output_failures self.old }
        ensures noted { flush_answer self.new ≡ Some result }
    {
        let answer = flushed(self.writer.flush());
        self.noted = Some(answer);
        answer
    }
}

/// The output under the name that it has as a sink.
pub type WriteSink<W> = Output<W>;

impl<W: Write + Drop> LineSink for Output<W> {
    ghost use Rattle.cj_stream.specs.Output.{output_writer, output_failures, output_law};

    ghost law = { output_law W.contents };

    /// Writes the line of the header as it was read. A write that fails is counted, and then the
    /// writer has a prefix of the line.
    fn header(&mut self, header: &Header<'_>, lf: bool) -> Result<(), WriteFault>
        ensures ok { OnOk result
            (Appends (W.contents (output_writer self.old)) (W.contents (output_writer self.new))
            (raw_item (header_item header.now lf))) }
        ensures fault { OnErr result
            (AppendsPart (W.contents (output_writer self.old)) (W.contents (output_writer self.new))
            (raw_item (header_item header.now lf))) }
        ensures cause { OnErr result (HasRisen (output_failures self.old) (output_failures self.new)) }
        ensures counts { output_failures self.old ≤ output_failures self.new }
        ensures counted { output_failures self.new ≡ counted (output_failures self.old) result }
    {
        self.write_line(header.bytes(), lf)
    }

    /// Writes the line of a feature in the same way.
    fn put(&mut self, feature: &Feature<'_>, lf: bool) -> Result<(), WriteFault>
        ensures ok { OnOk result
            (Appends (W.contents (output_writer self.old)) (W.contents (output_writer self.new))
            (raw_item (feature_item feature.now lf))) }
        ensures fault { OnErr result
            (AppendsPart (W.contents (output_writer self.old)) (W.contents (output_writer self.new))
            (raw_item (feature_item feature.now lf))) }
        ensures cause { OnErr result (HasRisen (output_failures self.old) (output_failures self.new)) }
        ensures counts { output_failures self.old ≤ output_failures self.new }
        ensures counted { output_failures self.new ≡ counted (output_failures self.old) result }
    {
        self.write_line(feature.bytes(), lf)
    }
}
