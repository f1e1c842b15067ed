//! The reader of the lines after a header: the second of the two states of a stream.
//!
//! [`crate::HeaderReader::into_lines`] makes it from an accepted header. The lists that take a line
//! have their memory reserved, and this is part of the invariant. So no call allocates, and no end
//! is a lack of memory.
ghost use Rattle.std.specs.Prelude.{◌≡◌, ◌+◌, ◌++◌, ◌^◌, ◌≤◌, ◌<◌, ℕ, List, length, OnOk, OnErr, MatchResult, Some};
ghost use Rattle.std.specs.Prelude.{None, Ok, Err};
ghost use Rattle.cj_stream.specs.Ending.{line_end};
ghost use Rattle.cj_stream.specs.Feeding.{Feeds, IsFinished};
ghost use Rattle.cj_stream.specs.Scanning.{IsReady};
ghost use Rattle.cj_stream.specs.Engine.{EngineState, StandsFor, rules_of, lines_of, refused_of, held_by, peaks_of};
ghost use Rattle.cj_stream.specs.ReportSink.{Notes};
ghost use Rattle.cj_stream.specs.Sink.{with_sink};
ghost use Rattle.cj_stream.specs.Verdict.{stretch};

use crate::ending::LineEnd;
use crate::line_splitter::LineSplitter;
use crate::report_sink::ReportSink;
use crate::sink::LineSink;
use cj_budget::Peaks;
use std::marker::Model;

/// Reads the lines after a header, and puts the kept ones to a sink. It never allocates.
///
/// After an end, every call returns that end again and changes nothing.
#[derive(Drop)]
pub struct LineReader<'q> {
    splitter: LineSplitter<'q>,
    taken: u64,
    ended: Option<LineEnd>,
}

impl<'q> Model for LineReader<'q> {
    ghost use Rattle.std.specs.Prelude.{◌≡◌, ◌≤◌, ◌<◌, ◌^◌, None, option_map};
    ghost use Rattle.cj_stream.specs.Ending.{line_end};
    ghost use Rattle.cj_stream.specs.Scanning.{IsReady};
    ghost use Rattle.cj_stream.specs.Engine.{EngineState, state};

    ghost Value = { EngineState };

    ghost view = { λ e. state e.splitter e.taken (option_map line_end e.ended) };

    ghost invariant = { λ e. (0 < e.splitter.reading.lines) × (e.ended ≡ None → e.splitter.reading.lines ≤ e.taken)
        × (e.taken ≤ 2 ^ 60) × IsReady e.splitter.reading e.splitter.scanning };
}

impl<'q> LineReader<'q> {
    /// Returns a reader of the lines after a header that this splitter has handled.
    pub(crate) fn of(splitter: LineSplitter<'q>, taken: u64) -> LineReader<'q>
        requires first { 0 < splitter.reading.lines }
        requires few { splitter.reading.lines ≤ taken }
        requires short { taken ≤ 2 ^ 60 }
        requires ready { IsReady splitter.reading splitter.scanning }
        ensures { result ≡ record {
          reading = splitter.entry.reading;
          scanning = splitter.entry.scanning;
          taken = taken;
          ended = None;
        } }
    {
        LineReader {
            splitter,
            taken,
            ended: None,
        }
    }

    /// Takes a piece of the stream. An error is the end of the stream.
    pub fn feed<S: LineSink, N: ReportSink>(
        &mut self,
        piece: &[u8],
        sink: &mut S,
        reports: &mut N,
    ) -> Result<(), LineEnd>
        requires { self.old.taken + length piece.now ≤ 2 ^ 60 }

        // After an end, nothing changes.
        ensures again { (e : LineEnd) → self.old.ended ≡ Some (line_end e) →
            (result ≡ Err e) × (self.new ≡ self.old) × (sink.new ≡ sink.old) × (reports.new ≡ reports.old) }
        ensures taken { OnOk result (self.new.taken ≡ self.old.taken + length piece.now) }
        ensures untaken { OnErr result (self.new.taken ≡ self.old.taken) }
        ensures reserved { IsReady self.new.reading self.new.scanning × (0 < lines_of self.new) }

        // What the result says of all bytes so far, and of the sinks.
        ensures reports { (p : List ℕ) → StandsFor self.old p → self.old.ended ≡ None
            → Notes N.notes (stretch (rules_of self.old) (p ++ piece.now) (lines_of self.old) (lines_of self.new))
            reports.old reports.new }
        ensures feeds { MatchResult result
            (λ _. Feeds S.law piece.now (with_sink self.old sink.old) (Ok tt) (with_sink self.new sink.new))
            (λ e. Feeds S.law piece.now (with_sink self.old sink.old) (Err (line_end e))
            (with_sink self.new sink.new)) }
    {
        if let Some(end) = self.ended {
            return Err(end);
        }
        match self.splitter.take_piece(piece, sink, reports) {
            Ok(()) => {
                self.taken += piece.len() as u64;
                Ok(())
            }
            Err(end) => {
                self.ended = Some(end);
                Err(end)
            }
        }
    }

    /// Ends the stream, and handles a last line that has no LF.
    pub fn finish<S: LineSink, N: ReportSink>(&mut self, sink: &mut S, reports: &mut N) -> LineEnd
        ensures again { (e : LineEnd) → self.old.ended ≡ Some (line_end e) →
            (result ≡ e) × (self.new ≡ self.old) × (sink.new ≡ sink.old) × (reports.new ≡ reports.old) }
        ensures untaken { self.new.taken ≡ self.old.taken }
        ensures reserved { IsReady self.new.reading self.new.scanning × (0 < lines_of self.new) }
        ensures reports { (p : List ℕ) → StandsFor self.old p → self.old.ended ≡ None
            → Notes N.notes (stretch (rules_of self.old) p (lines_of self.old) (lines_of self.new))
            reports.old reports.new }
        ensures finished { IsFinished S.law (with_sink self.old sink.old) (line_end result)
            (with_sink self.new sink.new) }
    {
        if let Some(end) = self.ended {
            return end;
        }
        let end = LineEnd::after(self.splitter.finish(sink, reports));
        self.ended = Some(end);
        end
    }

    /// Returns the number of bytes used by calls that returned `Ok`. It includes the bytes that the
    /// reader of the header used.
    pub fn taken(&self) -> u64
        ensures value { result ≡ self.now.taken }
        ensures bound { result ≤ 2 ^ 60 }
    {
        self.taken
    }

    /// Returns what the reader holds now. Bytes and tokens are those of the header and of the line
    /// being read. Depth is the number of containers that an invalid line left open.
    pub fn held(&self) -> Peaks
        ensures { result ≡ held_by self.now }
    {
        self.splitter.held()
    }

    /// Returns the peaks: the most of each that the reader held.
    pub fn peaks(&self) -> Peaks
        ensures { result ≡ peaks_of self.now }
    {
        self.splitter.peaks()
    }

    /// Returns how many lines were handled: the header, features, blank lines, and invalid lines
    /// after which reading went on.
    pub fn lines(&self) -> u64
        ensures value { result ≡ lines_of self.now }
        ensures header { 0 < result }
    {
        self.splitter.lines()
    }

    /// Returns how many features the sink took.
    pub fn kept(&self) -> u64
        ensures { result ≡ self.now.reading.kept }
    {
        self.splitter.kept()
    }

    /// Returns the number of invalid lines after which reading went on.
    pub fn refused(&self) -> u64
        ensures { result ≡ refused_of self.now }
    {
        self.splitter.refused()
    }
}
