//! The engine: it takes a stream in pieces, and puts each kept line to a sink.
//!
//! It is in one of two states. In the first it reads the header, and in the second the later lines.
//! How many lines were handled says which: none, or at least one. In the first state the splitter
//! may allocate, so an end may be a lack of memory. In the second it never allocates.
//!
//! [`crate::HeaderReader`] and [`crate::LineReader`] are the same two states as types. Each is over
//! a splitter too, and promises the same of a piece and of the end (`Feeds`, `IsFinished`).
//!
//! A piece that ends the stream is not counted as taken, even if some of its lines were handled.
ghost use Rattle.std.specs.Prelude.{◌≡◌, ◌≢◌, ◌+◌, ◌++◌, ◌^◌, ◌≤◌, ◌<◌, ℕ, List, [], length, OnOk, OnErr, IfOk, Some};
ghost use Rattle.std.specs.Prelude.{None, Err};
ghost use Rattle.cj_stream.specs.Feeding.{Feeds, IsFinished};
ghost use Rattle.cj_stream.specs.Query.{rules_for};
ghost use Rattle.cj_stream.specs.Engine.{StandsFor, rules_of, lines_of, refused_of, held_by, peaks_of};
ghost use Rattle.cj_stream.specs.ReportSink.{Notes};
ghost use Rattle.cj_stream.specs.Sink.{with_sink};
ghost use Rattle.cj_stream.specs.Verdict.{stretch};

use crate::ending::{End, HeaderEnd, LineEnd};
use crate::line_splitter::LineSplitter;
use crate::options::Options;
use crate::query::Query;
use crate::report_sink::ReportSink;
use crate::sink::LineSink;
use cj_budget::{Limits, NoMemory, Peaks};
use std::alloc::Global;
use std::marker::Model;

/// Reads a stream once, in bounded memory, and puts its kept lines to a sink.
///
/// After an end, every call returns that end again and changes nothing.
#[derive(Drop)]
pub struct Engine<'q> {
    splitter: LineSplitter<'q>,
    taken: u64,
    ended: Option<End>,
}

impl<'q> Model for Engine<'q> {
    ghost use Rattle.std.specs.Prelude.{◌≡◌, ◌≤◌, ◌^◌, None, Some, false};
    ghost use Rattle.cj_stream.specs.Engine.{EngineState, state};
    ghost use Rattle.cj_stream.specs.Scanning.{IsReady};
    ghost use Rattle.cj_stream.specs.declared.ending.End.TheVariants.{Memory};

    ghost Value = { EngineState };

    ghost view = { λ e. state e.splitter e.taken e.ended };

    ghost invariant = { λ e. (e.ended ≡ None → e.splitter.reading.lines ≤ e.taken) × (e.taken ≤ 2 ^ 60)
        × (e.ended ≡ None → IsReady e.splitter.reading e.splitter.scanning)
        × (e.ended ≡ None → e.splitter.reading.lines ≡ 0 → e.splitter.reading.dropped ≡ false)
        × (e.ended ≡ Some Memory → e.splitter.reading.lines ≡ 0) };
}

impl<'q> Engine<'q> {
    /// Returns an engine that has read nothing.
    ///
    /// It allocates for the first line: its bytes, its tokens, and the open containers if the depth
    /// limit is above 64. It allocates for later lines once, when LF has ended a valid first line.
    ///
    /// # Errors
    ///
    /// `NoMemory` if an allocation failed.
    pub fn open(
        alloc: Global,
        limits: Limits,
        query: &'q Query,
        options: Options,
    ) -> Result<Engine<'q>, NoMemory>
        ensures empty { IfOk result
            (λ e. StandsFor e [] × (rules_of e ≡ rules_for limits query.now options) × (e.ended ≡ None)
            × (e.taken ≡ 0)) }
    {
        Ok(Engine {
            splitter: LineSplitter::open(alloc, limits, query, options)?,
            taken: 0,
            ended: None,
        })
    }

    /// Takes a piece of the stream. An error is the end of the stream.
    pub fn feed<S: LineSink, N: ReportSink>(
        &mut self,
        piece: &[u8],
        sink: &mut S,
        reports: &mut N,
    ) -> Result<(), End>
        requires { self.old.taken + length piece.now ≤ 2 ^ 60 }

        // After an end, nothing changes.
        ensures again { (e : End) → self.old.ended ≡ Some e →
            (result ≡ Err e) × (self.new ≡ self.old) × (sink.new ≡ sink.old) × (reports.new ≡ reports.old) }
        ensures taken { OnOk result (self.new.taken ≡ self.old.taken + length piece.now) }
        ensures untaken { OnErr result (self.new.taken ≡ self.old.taken) }

        // Once a line was handled, memory cannot be refused any more.
        ensures late { 0 < lines_of self.old → result ≢ Err End.Memory }

        // What the result says of all bytes so far, and of the sinks.
        ensures reports { (p : List ℕ) → StandsFor self.old p → self.old.ended ≡ None
            → Notes N.notes (stretch (rules_of self.old) (p ++ piece.now) (lines_of self.old) (lines_of self.new))
            reports.old reports.new }
        ensures feeds { Feeds S.law piece.now (with_sink self.old sink.old) result (with_sink self.new sink.new) }
    {
        if let Some(end) = self.ended {
            return Err(end);
        }
        match self.splitter.take(piece, sink, reports) {
            Ok(()) => {
                self.taken += piece.len() as u64;
                Ok(())
            }
            Err(end) => {
                self.ended = Some(end);
                Err(end)
            }
        }
    }

    /// Ends the stream, and handles a last line that has no LF.
    pub fn finish<S: LineSink, N: ReportSink>(&mut self, sink: &mut S, reports: &mut N) -> End
        ensures again { (e : End) → self.old.ended ≡ Some e →
            (result ≡ e) × (self.new ≡ self.old) × (sink.new ≡ sink.old) × (reports.new ≡ reports.old) }
        ensures untaken { self.new.taken ≡ self.old.taken }
        ensures reports { (p : List ℕ) → StandsFor self.old p → self.old.ended ≡ None
            → Notes N.notes (stretch (rules_of self.old) p (lines_of self.old) (lines_of self.new))
            reports.old reports.new }
        ensures finished { IsFinished S.law (with_sink self.old sink.old) result (with_sink self.new sink.new) }
    {
        if let Some(end) = self.ended {
            return end;
        }
        let end = if self.splitter.lines() > 0 {
            End::from(LineEnd::after(self.splitter.finish(sink, reports)))
        } else {
            End::from(HeaderEnd::after(self.splitter.finish_first(sink)))
        };
        self.ended = Some(end);
        end
    }

    /// Returns the number of bytes in all pieces for which `feed` returned `Ok`.
    pub fn taken(&self) -> u64
        ensures value { result ≡ self.now.taken }
        ensures bound { result ≤ 2 ^ 60 }
    {
        self.taken
    }

    /// Returns what the engine holds now. Bytes and tokens are those of the first line and of the
    /// line being read. Depth is the number of containers that an invalid line left open.
    pub fn held(&self) -> Peaks
        ensures { result ≡ held_by self.now }
    {
        self.splitter.held()
    }

    /// Returns the peaks: the most of each that the engine held.
    pub fn peaks(&self) -> Peaks
        ensures { result ≡ peaks_of self.now }
    {
        self.splitter.peaks()
    }

    /// Returns how many lines were handled: the header, features, blank lines, and invalid lines
    /// after which reading went on.
    pub fn lines(&self) -> u64
        ensures { result ≡ lines_of self.now }
    {
        self.splitter.lines()
    }

    /// Returns how many features the sink took.
    pub fn kept(&self) -> u64
        ensures { result ≡ self.now.reading.kept }
    {
        self.splitter.kept()
    }

    /// Returns the number of invalid lines after which reading went on.
    pub fn refused(&self) -> u64
        ensures { result ≡ refused_of self.now }
    {
        self.splitter.refused()
    }
}
