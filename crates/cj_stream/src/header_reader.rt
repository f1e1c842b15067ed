//! The reader of a header: the first of the two states of a stream.
//!
//! It allocates all memory that the stream will need. It allocates for the first line when it
//! opens. For later lines it allocates when LF has ended a valid header, before the sink gets the
//! header. Then the header is accepted, and the reader becomes a [`LineReader`], which never
//! allocates.
//!
//! One record (`EngineState`) describes both states, and their ends count as ends of a stream. So
//! their contracts use the same words as those of the engine.
ghost use Rattle.std.specs.Prelude.{◌≡◌, ◌+◌, ◌^◌, ◌≤◌, ◌↔◌, [], length, take, OnOk, OnErr, IfOk, IsTrue, MatchResult};
ghost use Rattle.std.specs.Prelude.{Some, None, Ok, Err};
ghost use Rattle.cj_stream.specs.Ending.{header_end, IsAccepted};
ghost use Rattle.cj_stream.specs.Feeding.{Feeds, IsFinished};
ghost use Rattle.cj_stream.specs.Front.{IsFront};
ghost use Rattle.cj_stream.specs.Query.{rules_for};
ghost use Rattle.cj_stream.specs.Scanning.{IsReady};
ghost use Rattle.cj_stream.specs.Engine.{StandsFor, rules_of, lines_of, refused_of, held_by, peaks_of};
ghost use Rattle.cj_stream.specs.Sink.{with_sink};

use crate::ending::HeaderEnd;
use crate::line_reader::LineReader;
use crate::line_splitter::LineSplitter;
use crate::options::Options;
use crate::query::Query;
use crate::sink::LineSink;
use cj_budget::{Limits, NoMemory, Peaks};
use std::alloc::Global;
use std::marker::Model;

/// How much of a piece was used.
#[derive(Clone, Copy, Debug, PartialEq, Eq)]
pub struct Progress {
    /// The number of bytes used: up to and including the first LF if the header was accepted, else
    /// all.
    pub used: usize,
    /// Whether the header was accepted.
    pub accepted: bool,
}

/// Reads the first line of a stream, and puts a valid header to a sink.
///
/// After an end, every call returns that end again and changes nothing.
#[derive(Drop)]
pub struct HeaderReader<'q> {
    splitter: LineSplitter<'q>,
    taken: u64,
    ended: Option<HeaderEnd>,
}

impl<'q> Model for HeaderReader<'q> {
    ghost use Rattle.std.specs.Prelude.{◌≡◌, ◌≤◌, ◌^◌, None, Some, false, option_map};
    ghost use Rattle.cj_stream.specs.Ending.{header_end};
    ghost use Rattle.cj_stream.specs.Scanning.{IsReady};
    ghost use Rattle.cj_stream.specs.Engine.{EngineState, state};
    ghost use Rattle.cj_stream.specs.declared.ending.HeaderEnd.TheVariants.{Memory};

    ghost Value = { EngineState };

    ghost view = { λ e. state e.splitter e.taken (option_map header_end e.ended) };

    ghost invariant = { λ e. (e.splitter.reading.lines ≤ 1) × (e.ended ≡ None → e.splitter.reading.lines ≤ e.taken)
        × (e.taken ≤ 2 ^ 60) × (e.ended ≡ None → IsReady e.splitter.reading e.splitter.scanning)
        × (e.ended ≡ None → e.splitter.reading.lines ≡ 0 → e.splitter.reading.dropped ≡ false)
        × (e.ended ≡ Some Memory → e.splitter.reading.lines ≡ 0) };
}

impl<'q> HeaderReader<'q> {
    /// Returns a reader that has read nothing.
    ///
    /// It allocates for the first line: its bytes, its tokens, and the open containers if the depth
    /// limit is above 64.
    ///
    /// # Errors
    ///
    /// `NoMemory` if an allocation failed.
    pub fn open(
        alloc: Global,
        limits: Limits,
        query: &'q Query,
        options: Options,
    ) -> Result<HeaderReader<'q>, NoMemory>
        ensures empty { IfOk result
            (λ e. StandsFor e [] × (rules_of e ≡ rules_for limits query.now options) × (e.ended ≡ None)
            × (e.taken ≡ 0)) }
        ensures reserved { IfOk result (λ e. IsReady e.reading e.scanning) }
    {
        Ok(HeaderReader {
            splitter: LineSplitter::open(alloc, limits, query, options)?,
            taken: 0,
            ended: None,
        })
    }

    /// Takes a piece of the stream, up to and including the first LF. An error is the end of the
    /// stream.
    pub fn feed<S: LineSink>(&mut self, piece: &[u8], sink: &mut S) -> Result<Progress, HeaderEnd>
        requires small { self.old.taken + length piece.now ≤ 2 ^ 60 }
        requires unaccepted { ¬ IsAccepted self.old }

        // After an end, nothing changes.
        ensures again { (e : HeaderEnd) → self.old.ended ≡ Some (header_end e) →
            (result ≡ Err e) × (self.new ≡ self.old) × (sink.new ≡ sink.old) }

        // How much of the piece is used, and whether the header is accepted with it.
        ensures used { IfOk result (λ t. IsFront piece.now t) }
        ensures accepted { IfOk result (λ t. IsTrue t.accepted ↔ IsAccepted self.new) }
        ensures taken { IfOk result (λ t. self.new.taken ≡ self.old.taken + t.used) }
        ensures untaken { OnErr result (self.new.taken ≡ self.old.taken) }
        ensures few { lines_of self.new ≤ 1 }
        ensures reserved { OnOk result (IsReady self.new.reading self.new.scanning) }
        ensures none { result ≡ Err HeaderEnd.Memory → lines_of self.new ≡ 0 }

        // What the result says of the sink and of all bytes so far. These end with the bytes that
        // were used, or with the whole piece if the stream ended in it.
        ensures feeds { MatchResult result
            (λ t. Feeds S.law (take t.used piece.now) (with_sink self.old sink.old) (Ok tt)
            (with_sink self.new sink.new))
            (λ e. Feeds S.law piece.now (with_sink self.old sink.old) (Err (header_end e))
            (with_sink self.new sink.new)) }
    {
        if let Some(end) = self.ended {
            return Err(end);
        }
        match self.splitter.take_front(piece, sink) {
            Ok(progress) => {
                self.taken += progress.used as u64;
                Ok(progress)
            }
            Err(end) => {
                self.ended = Some(end);
                Err(end)
            }
        }
    }

    /// Ends the stream, and handles a first line that has no LF. It allocates nothing.
    pub fn finish<S: LineSink>(&mut self, sink: &mut S) -> HeaderEnd
        requires unaccepted { ¬ IsAccepted self.old }
        ensures again { (e : HeaderEnd) → self.old.ended ≡ Some (header_end e) →
            (result ≡ e) × (self.new ≡ self.old) × (sink.new ≡ sink.old) }
        ensures untaken { self.new.taken ≡ self.old.taken }
        ensures few { lines_of self.new ≤ 1 }
        ensures finished { IsFinished S.law (with_sink self.old sink.old) (header_end result)
            (with_sink self.new sink.new) }
    {
        if let Some(end) = self.ended {
            return end;
        }
        let end = HeaderEnd::after(self.splitter.finish_first(sink));
        self.ended = Some(end);
        end
    }

    /// Returns whether `feed` has accepted the header.
    pub fn accepted(&self) -> bool
        ensures { IsTrue result ↔ IsAccepted self.now }
    {
        self.ended.is_none() && self.splitter.lines() > 0
    }

    /// Returns the reader of the lines after an accepted header. It allocates nothing.
    pub fn into_lines(self) -> LineReader<'q>
        requires { IsAccepted self }
        ensures same { result ≡ self.entry }
        ensures reserved { IsReady result.reading result.scanning }
    {
        let HeaderReader {
            splitter,
            taken,
            ended: _,
        } = self;
        LineReader::of(splitter, taken)
    }

    /// Returns the number of bytes used by calls of `feed` that returned `Ok`.
    pub fn taken(&self) -> u64
        ensures value { result ≡ self.now.taken }
        ensures bound { result ≤ 2 ^ 60 }
    {
        self.taken
    }

    /// Returns what the reader holds now. Bytes and tokens are those of the first line. Depth is
    /// the number of containers that an invalid first line left open.
    pub fn held(&self) -> Peaks
        ensures { result ≡ held_by self.now }
    {
        self.splitter.held()
    }

    /// Returns the peaks: the most of each that the reader held.
    pub fn peaks(&self) -> Peaks
        ensures { result ≡ peaks_of self.now }
    {
        self.splitter.peaks()
    }

    /// Returns how many lines were handled: none, or the header.
    pub fn lines(&self) -> u64
        ensures value { result ≡ lines_of self.now }
        ensures few { result ≤ 1 }
    {
        self.splitter.lines()
    }

    /// Returns how many features the sink took: none.
    pub fn kept(&self) -> u64
        ensures { result ≡ self.now.reading.kept }
    {
        self.splitter.kept()
    }

    /// Returns the number of invalid lines after which reading went on: none.
    pub fn refused(&self) -> u64
        ensures { result ≡ refused_of self.now }
    {
        self.splitter.refused()
    }
}
