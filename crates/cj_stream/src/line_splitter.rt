//! Cuts pieces into lines, and handles each line.
//!
//! Each line goes the same way. The splitter cuts it, and the buffer keeps its bytes until it is
//! whole. The validator judges the line and puts it to the sink. Then the line ends: it is counted,
//! and the lists of the line are emptied. The buffer has the bytes. The validator has the tokens
//! and what was read of the header.
//!
//! The invariant says that the bytes, tokens and parts of the header belong together
//! (`KeepsFirst`). It also says that all lists have their limits, and that none is above its limit
//! (`IsLimited`).
//!
//! A line that ends the stream is not counted. If reading goes on after invalid lines, an invalid
//! line is reported and ends, and counts as refused too. A line that is too long is invalid as
//! soon as the byte past the limit comes. If reading goes on, the splitter drops the rest of the
//! line, and reports the line at its end.
//!
//! The splitter allocates twice. `open` allocates the lists of the first line. `make_room`
//! allocates those of later lines, when LF has ended a valid first line, before the sink gets it.
//! So the lists for the next line have their memory (`IsReady`), and no other function allocates.
//! The first line has functions of its own (`take_front`, `finish_first`). So those for later lines
//! (`take_piece`, `finish`) call nothing that may allocate. `take` chooses by the number of lines.
//!
//! If `make_room` fails, or the sink fails after it, only this memory and the count of failed
//! growths change (`IsLeft`, `IsStill`). Each list counts the growths that failed. An end
//! reports a lack of memory only if such a count has risen.
ghost use Rattle.std.specs.Prelude.{◌≡◌, ◌+◌, ◌^◌, ◌<◌, ◌≤◌, ℕ, List, [], ◌∷◌, ◌++◌, ◌⊎◌, true, false, length, take};
ghost use Rattle.std.specs.Prelude.{if◌then◌else◌, OnOk, OnErr, IfOk, IfErr, IsErrOf, IsTrue, Some, Err};
ghost use Rattle.cj_budget.specs.Bounded.{IsWithin};
ghost use Rattle.cj_spans.specs.Meaning.Finding.{found_at};
ghost use Rattle.cj_stream.specs.Carrying.{IsLimited, Carries, TakesAll, TakesSome, FinishesAll};
ghost use Rattle.cj_stream.specs.declared.ending.End.TheVariants.{Refused};
ghost use Rattle.cj_stream.specs.Ending.{answer_of, header_end, line_end};
ghost use Rattle.cj_stream.specs.Meaning.Lines.{newline};
ghost use Rattle.cj_stream.specs.Lines.{closed, NoLf};
ghost use Rattle.cj_stream.specs.Front.{IsFront};
ghost use Rattle.cj_stream.specs.Item.{tree_of};
ghost use Rattle.cj_stream.specs.Judging.{ShowsTree, IsHeaderOf};
ghost use Rattle.cj_stream.specs.Query.{rules_for};
ghost use Rattle.cj_stream.specs.Reading.{begun_of, begun_verdict, is_lenient, IsLeft, Stores, Unstored};
ghost use Rattle.cj_stream.specs.Reading.{EndsLine, Refuses, HandlesLine, Handles, Reads, Stays, judged_begun};
ghost use Rattle.cj_stream.specs.ReportSink.{Notes};
ghost use Rattle.cj_stream.specs.Scanning.{IsReady, IsStill, ListsFailToGrow, Scanned, ScansNext};
ghost use Rattle.cj_stream.specs.Scanning.{HoldsFewNext, HeldUntil, Forgets};
ghost use Rattle.cj_stream.specs.Sink.{HasRisen, with_sink};
ghost use Rattle.cj_stream.specs.Meaning.Outputs.{Took};
ghost use Rattle.cj_stream.specs.Meaning.Verdict.{Invalid, Kept};
ghost use Rattle.cj_stream.specs.Verdict.{reports_of, stretch};

use crate::ending::{End, HeaderEnd, LineEnd};
use crate::header_reader::Progress;
use crate::line_buffer::{LineBuffer, TooLong};
use crate::options::Options;
use crate::output::WriteFault;
use crate::query::Query;
use crate::report_sink::{Report, ReportSink};
use crate::sink::LineSink;
use crate::validator::{LineResult, Validator};
use cj_budget::{Limits, NoMemory, Peaks};
use cj_feature::HeaderParts;
use cj_spans::{Finding, Reason};
use memchr::memchr;
use std::alloc::Global;
use std::marker::Model;

/// Holds the content of the first line with its tokens and the parts of the header, and the content
/// of a later line that has begun.
///
/// Only the five lists of its buffer and its validator take memory.
#[derive(Drop)]
pub struct LineSplitter<'q> {
    buffer: LineBuffer,
    validator: Validator<'q>,
    kept: u64,
    refused: u64,
}

impl<'q> Model for LineSplitter<'q> {
    ghost use Rattle.cj_stream.specs.Carrying.{SplitterState, IsLimited};
    ghost use Rattle.cj_stream.specs.Judging.{KeepsFirst};
    ghost use Rattle.cj_stream.specs.Reading.{reading};
    ghost use Rattle.cj_stream.specs.Scanning.{scanning};

    ghost Value = { SplitterState };

    ghost view = { λ f. record { reading = reading f.buffer f.validator f.kept f.refused; scanning = scanning f.validator } };

    ghost invariant = { λ f. IsLimited
        (record { reading = reading f.buffer f.validator f.kept f.refused; scanning = scanning f.validator })
        × KeepsFirst (reading f.buffer f.validator f.kept f.refused) (scanning f.validator) f.validator.header_parts };
}

impl<'q> LineSplitter<'q> {
    /// Returns a splitter that has read nothing, with memory for the first line. It allocates the
    /// bytes and the tokens, and the open containers if the depth limit is above 64.
    pub fn open(
        alloc: Global,
        limits: Limits,
        query: &'q Query,
        options: Options,
    ) -> Result<LineSplitter<'q>, NoMemory>
        ensures rules { IfOk result (λ f. f.reading.rules ≡ rules_for limits query.now options) }
        ensures fresh { IfOk result (λ f. f.reading.lines ≡ 0) }
        ensures undropped { IfOk result (λ f. f.reading.dropped ≡ false) }
        ensures empty { IfOk result (λ f. Reads f.reading []) }
        ensures limited { IfOk result (λ f. IsLimited f) }
        ensures ready { IfOk result (λ f. IsReady f.reading f.scanning) }
        ensures scanned { IfOk result (λ f. Scanned limits [] f.scanning) }
    {
        let mut buffer = LineBuffer::new(alloc, limits.line() as usize);
        let mut validator = Validator::new(alloc, limits, query, options);
        reserve_first(&mut buffer, &mut validator)?;
        Ok(LineSplitter {
            buffer,
            validator,
            kept: 0,
            refused: 0,
        })
    }

    /// Returns the content of the begun line so far.
    fn begun(&self) -> &[u8]
        ensures value { result.now ≡ begun_of self.now.reading }
        ensures limited { IsLimited self.now }
    {
        self.buffer.begun()
    }

    /// Returns whether a line has begun: some of it is held, or it is being dropped.
    fn has_begun(&self) -> bool
        ensures none { result ≡ false → (begun_of self.now.reading ≡ []) × (self.now.reading.dropped ≡ false) }
        ensures some { result ≡ true → (0 < length (begun_of self.now.reading)) ⊎ (self.now.reading.dropped ≡ true) }
        ensures limited { IsLimited self.now }
    {
        self.buffer.dropped || !self.begun().is_empty()
    }

    /// Returns whether reading goes on after the begun line, a later one, if it is invalid.
    fn is_lenient(&self) -> bool
        requires countable { self.now.reading.lines < 2 ^ 62 }
        requires later { 0 < self.now.reading.lines }
        ensures { result ≡ is_lenient self.now.reading }
    {
        self.validator.options.keeps_going()
    }

    /// Returns the finding of a line that is too long.
    fn too_long(&self) -> Finding
        ensures { result ≡ found_at self.now.reading.rules.limits.line Reason.LineTooLong }
    {
        Finding {
            place: self.validator.limits.line(),
            reason: Reason::LineTooLong,
        }
    }

    /// Returns the end at the begun line, a later one, if this is its finding.
    fn end_at(&self, finding: Finding) -> LineEnd
        requires countable { self.now.reading.lines < 2 ^ 62 }
        ensures { result ≡ LineEnd.Refused (self.now.reading.lines + 1) finding.place finding.reason }
    {
        LineEnd::Refused {
            line: self.lines() + 1,
            place: finding.place,
            reason: finding.reason,
        }
    }

    /// Stores a part of the first line. Rejects the line if this part makes it too long.
    fn store_first(&mut self, part: &[u8]) -> Result<(), HeaderEnd>
        requires first { self.old.reading.lines ≡ 0 }
        requires undropped { self.old.reading.dropped ≡ false }
        requires ready { IsReady self.old.reading self.old.scanning }
        ensures ok { OnOk result (Stores self.old.reading part.now self.new.reading) }
        ensures err { OnErr result (self.new ≡ self.old) }
        ensures cause { IfErr result (λ e. Unstored self.old.reading part.now (header_end e)) }
        ensures stays { Stays self.old.reading self.new.reading }
        ensures lists { self.new.scanning ≡ self.old.scanning }
        ensures undropped { self.new.reading.dropped ≡ false }
        ensures limited { IsLimited self.new }
        ensures ready { IsReady self.new.reading self.new.scanning }
    {
        match self.buffer.add(part) {
            Ok(()) => Ok(()),
            Err(TooLong) => Err(HeaderEnd::Refused {
                line: 1,
                place: self.validator.limits.line(),
                reason: Reason::LineTooLong,
            }),
        }
    }

    /// Stores a part of a later line, unless the line is being dropped. If this part makes the line
    /// too long, the line is dropped or rejected.
    fn store(&mut self, part: &[u8]) -> Result<(), LineEnd>
        requires countable { self.old.reading.lines < 2 ^ 62 }
        requires later { 0 < self.old.reading.lines }
        requires ready { IsReady self.old.reading self.old.scanning }
        ensures ok { OnOk result (Stores self.old.reading part.now self.new.reading) }
        ensures err { OnErr result (self.new ≡ self.old) }
        ensures cause { IfErr result (λ e. Unstored self.old.reading part.now (line_end e)) }
        ensures stays { Stays self.old.reading self.new.reading }
        ensures lists { self.new.scanning ≡ self.old.scanning }
        ensures limited { IsLimited self.new }
        ensures ready { IsReady self.new.reading self.new.scanning }
    {
        if self.buffer.dropped {
            return Ok(());
        }
        match self.buffer.add(part) {
            Ok(()) => Ok(()),
            Err(TooLong) if self.is_lenient() => {
                self.buffer.drop_line(part);
                Ok(())
            }
            Err(TooLong) => Err(self.end_at(self.too_long())),
        }
    }

    /// Reserves memory for a later line. A failed growth is counted, and changes nothing else.
    fn make_room(&mut self) -> Result<(), NoMemory>
        ensures ok { OnOk result (IsTrue self.new.reading.line.reserved × IsTrue self.new.scanning.line.reserved) }
        ensures counts { OnOk result ((self.new.reading.line.failed_growths ≡ self.old.reading.line.failed_growths)
            × (self.new.scanning.line.failed_growths ≡ self.old.scanning.line.failed_growths)) }
        ensures cause { OnErr result (ListsFailToGrow self.old.reading self.old.scanning
            self.new.reading self.new.scanning) }
        ensures left { IsLeft self.old.reading self.new.reading }
        ensures still { IsStill self.old.scanning self.new.scanning }
        ensures limited { IsLimited self.new }
    {
        self.buffer.line.reserve_all()?;
        self.validator.line_tokens.reserve_all()
    }

    /// Ends the begun line, and counts it. `put` says whether the sink took it.
    fn end_line(&mut self, put: bool)
        requires countable { self.old.reading.lines < 2 ^ 62 }
        requires later { 0 < self.old.reading.lines }
        ensures ends { EndsLine put false self.old.reading self.new.reading }
        ensures forgets { Forgets self.old.scanning self.new.scanning }
        ensures limited { IsLimited self.new }
    {
        if put {
            self.kept += 1;
        }
        self.buffer.end_line();
        self.validator.forget();
    }

    /// Ends the begun line, and counts it as refused.
    fn end_refused_line(&mut self)
        requires countable { self.old.reading.lines < 2 ^ 62 }
        requires later { 0 < self.old.reading.lines }
        ensures ends { EndsLine false true self.old.reading self.new.reading }
        ensures forgets { Forgets self.old.scanning self.new.scanning }
        ensures limited { IsLimited self.new }
    {
        self.refused += 1;
        self.buffer.end_line();
        self.validator.forget();
    }

    /// Refuses the begun line. Reports and ends it if reading goes on, and returns the end if not.
    fn refuse<N: ReportSink>(&mut self, finding: Finding, reports: &mut N) -> Result<(), LineEnd>
        requires countable { self.old.reading.lines < 2 ^ 62 }
        requires later { 0 < self.old.reading.lines }
        ensures refuses { Refuses (is_lenient self.old.reading)
            (Refused (self.old.reading.lines + 1) finding.place finding.reason)
            self.old.reading (answer_of line_end result) self.new.reading }
        ensures forgets { OnOk result (Forgets self.old.scanning self.new.scanning) }
        ensures same { OnErr result (self.new ≡ self.old) }
        ensures noted { OnOk result (Took N.notes reports.old
            (reports_of (self.old.reading.lines + 1) (Invalid finding.place finding.reason)) reports.new) }
        ensures silent { OnErr result (reports.new ≡ reports.old) }
        ensures limited { IsLimited self.new }
    {
        if !self.is_lenient() {
            return Err(self.end_at(finding));
        }
        reports.report(Report {
            line: self.buffer.lines + 1,
            place: finding.place,
            reason: finding.reason,
        });
        self.end_refused_line();
        Ok(())
    }

    /// Puts a valid header to the sink.
    fn put_first<S: LineSink>(
        &mut self,
        header_parts: HeaderParts,
        lf: bool,
        sink: &mut S,
    ) -> Result<(), HeaderEnd>
        requires first { self.old.reading.lines ≡ 0 }
        requires shows { ShowsTree (begun_of self.old.reading) self.old.reading.rules.limits.depth
            self.old.scanning.header.elements }
        requires header_parts { IsHeaderOf (tree_of self.old.reading.rules.limits.depth (begun_of self.old.reading))
            self.old.reading.rules header_parts }
        ensures counts { S.law.failures sink.old ≤ S.law.failures sink.new }
        ensures cause { IsErrOf result HeaderEnd.WriteFault
            → HasRisen (S.law.failures sink.old) (S.law.failures sink.new) }
        ensures handles { HandlesLine S.law (judged_begun self.old.reading false Kept lf)
            (with_sink self.old.reading sink.old) (answer_of header_end result) (with_sink self.new.reading sink.new) }
        ensures forgets { OnOk result (Forgets self.old.scanning self.new.scanning) }
        ensures same { OnErr result (self.new.scanning ≡ self.old.scanning) }
        ensures limited { IsLimited self.new }
        ensures end { IfErr result (λ e. e ≡ HeaderEnd.WriteFault) }
    {
        let content = self.buffer.header.as_slice();
        match self.validator.put_first(content, header_parts, lf, sink) {
            Ok(()) => {
                self.buffer.end_line();
                self.validator.forget();
                Ok(())
            }
            Err(WriteFault) => Err(HeaderEnd::WriteFault),
        }
    }

    /// Puts a valid header to the sink. If LF ended the line, memory for later lines is reserved
    /// first.
    fn put_header<S: LineSink>(
        &mut self,
        header_parts: HeaderParts,
        lf: bool,
        sink: &mut S,
    ) -> Result<(), HeaderEnd>
        requires first { self.old.reading.lines ≡ 0 }
        requires ready { IsReady self.old.reading self.old.scanning }
        requires shows { ShowsTree (begun_of self.old.reading) self.old.reading.rules.limits.depth
            self.old.scanning.header.elements }
        requires header_parts { IsHeaderOf (tree_of self.old.reading.rules.limits.depth (begun_of self.old.reading))
            self.old.reading.rules header_parts }
        ensures counts { S.law.failures sink.old ≤ S.law.failures sink.new }
        ensures cause { IsErrOf result HeaderEnd.WriteFault
            → HasRisen (S.law.failures sink.old) (S.law.failures sink.new) }
        ensures handles { Handles S.law (judged_begun self.old.reading false Kept lf)
            (with_sink self.old.reading sink.old) (answer_of header_end result) (with_sink self.new.reading sink.new) }
        ensures forgets { OnOk result (Forgets self.old.scanning self.new.scanning) }
        ensures still { OnErr result (IsStill self.old.scanning self.new.scanning) }
        ensures limited { IsLimited self.new }
        ensures ready { OnOk result (IsTrue lf → IsReady self.new.reading self.new.scanning) }
        ensures memory { IsErrOf result HeaderEnd.Memory → ListsFailToGrow self.old.reading self.old.scanning
            self.new.reading self.new.scanning }
    {
        if !lf {
            return self.put_first(header_parts, lf, sink);
        }
        match self.make_room() {
            Ok(()) => self.put_first(header_parts, lf, sink),
            Err(NoMemory) => Err(HeaderEnd::Memory),
        }
    }

    /// Judges the first line, and puts it to the sink if it is a valid header.
    fn handle_first<S: LineSink>(&mut self, lf: bool, sink: &mut S) -> Result<(), HeaderEnd>
        requires ready { IsReady self.old.reading self.old.scanning }
        requires first { self.old.reading.lines ≡ 0 }
        requires undropped { self.old.reading.dropped ≡ false }
        ensures carries { Carries S.law (with_sink self.old sink.old) (answer_of header_end result)
            (with_sink self.new sink.new) }
        ensures one { OnOk result (self.new.reading.lines ≡ 1) }
        ensures none { OnErr result (self.new.reading.lines ≡ 0) }
        ensures lines { self.new.reading.lines ≤ 1 }
        ensures handles { Handles S.law (judged_begun self.old.reading false (begun_verdict self.old.reading) lf)
            (with_sink self.old.reading sink.old) (answer_of header_end result) (with_sink self.new.reading sink.new) }
        ensures ready { OnOk result (IsTrue lf → IsReady self.new.reading self.new.scanning) }
        ensures scanned { OnOk result (ScansNext self.old.reading self.old.scanning self.new.scanning) }
        ensures few { HoldsFewNext self.old.reading self.old.scanning self.new.scanning }
    {
        match self.validator.check_first(self.buffer.header.as_slice()) {
            Ok(header_parts) => self.put_header(header_parts, lf, sink),
            Err(Finding { place, reason }) => Err(HeaderEnd::Refused {
                line: 1,
                place,
                reason,
            }),
        }
    }

    /// Handles the begun later line. The sink gets it if it is kept. It is reported if it is
    /// invalid and reading goes on after it. A dropped line is too long.
    fn handle_line<S: LineSink, N: ReportSink>(
        &mut self,
        lf: bool,
        sink: &mut S,
        reports: &mut N,
    ) -> Result<(), LineEnd>
        requires ready { IsReady self.old.reading self.old.scanning }
        requires countable { self.old.reading.lines < 2 ^ 62 }
        requires later { 0 < self.old.reading.lines }
        ensures carries { Carries S.law (with_sink self.old sink.old) (answer_of line_end result)
            (with_sink self.new sink.new) }
        ensures one { OnOk result (self.new.reading.lines ≡ self.old.reading.lines + 1) }
        ensures grows { self.old.reading.lines ≤ self.new.reading.lines }
        ensures handles { Handles S.law
            (judged_begun self.old.reading (is_lenient self.old.reading) (begun_verdict self.old.reading) lf)
            (with_sink self.old.reading sink.old) (answer_of line_end result) (with_sink self.new.reading sink.new) }
        ensures scanned { OnOk result (ScansNext self.old.reading self.old.scanning self.new.scanning) }
        ensures few { HoldsFewNext self.old.reading self.old.scanning self.new.scanning }
        ensures noted { OnOk result (Took N.notes reports.old
            (reports_of (self.old.reading.lines + 1) (begun_verdict self.old.reading)) reports.new) }
        ensures silent { OnErr result (reports.new ≡ reports.old) }
    {
        if self.buffer.dropped {
            let finding = self.too_long();
            return self.refuse(finding, reports);
        }
        let first = self.buffer.header.as_slice();
        let content = self.buffer.line.as_slice();
        match self.validator.judge_and_put(first, content, lf, sink) {
            Ok(LineResult::Kept) => {
                self.end_line(true);
                Ok(())
            }
            Ok(LineResult::LeftOut | LineResult::Blank) => {
                self.end_line(false);
                Ok(())
            }
            Ok(LineResult::Refused(finding)) => self.refuse(finding, reports),
            Err(WriteFault) => Err(LineEnd::WriteFault),
        }
    }

    /// Takes the last part of the first line, up to its LF.
    fn take_first<S: LineSink>(&mut self, part: &[u8], sink: &mut S) -> Result<(), HeaderEnd>
        requires ready { IsReady self.old.reading self.old.scanning }
        requires first { self.old.reading.lines ≡ 0 }
        requires undropped { self.old.reading.dropped ≡ false }
        requires one { NoLf part.now }
        ensures carries { Carries S.law (with_sink self.old sink.old) (answer_of header_end result)
            (with_sink self.new sink.new) }
        ensures few { self.new.reading.lines ≤ 1 }
        ensures one { OnOk result (self.new.reading.lines ≡ 1) }
        ensures none { OnErr result (self.new.reading.lines ≡ 0) }
        ensures ok { OnOk result (TakesAll S.law (part.now ++ newline ∷ []) (with_sink self.old sink.old)
            (with_sink self.new sink.new)) }
        ensures err { IfErr result (λ e. (more : List ℕ)
            → TakesSome S.law (part.now ++ newline ∷ more) (with_sink self.old sink.old) (header_end e)
            (with_sink self.new sink.new)) }
        ensures ready { OnOk result (IsReady self.new.reading self.new.scanning) }
        ensures unhandled { OnErr result (self.new.reading.lines ≡ self.old.reading.lines) }
    {
        self.store_first(part)?;
        self.handle_first(true, sink)?;
        Ok(())
    }

    /// Takes a piece of the stream up to and including the first LF, and handles the first line.
    /// If the piece has no LF, takes all of it. It reports nothing, since an invalid first line is
    /// the end.
    pub fn take_front<S: LineSink>(
        &mut self,
        piece: &[u8],
        sink: &mut S,
    ) -> Result<Progress, HeaderEnd>
        requires ready { IsReady self.old.reading self.old.scanning }
        requires first { self.old.reading.lines ≡ 0 }
        requires undropped { self.old.reading.dropped ≡ false }
        ensures front { IfOk result (λ t. IsFront piece.now t) }
        ensures lines { IfOk result (λ t. self.new.reading.lines ≡ (if t.accepted then 1 else 0)) }
        ensures none { OnErr result (self.new.reading.lines ≡ 0) }
        ensures few { self.new.reading.lines ≤ 1 }
        ensures undropped { IfOk result (λ t. t.accepted ≡ false → self.new.reading.dropped ≡ false) }
        ensures carries { Carries S.law (with_sink self.old sink.old) (answer_of header_end result)
            (with_sink self.new sink.new) }
        ensures ok { IfOk result (λ t. TakesAll S.law (take t.used piece.now) (with_sink self.old sink.old)
            (with_sink self.new sink.new)) }
        ensures err { IfErr result (λ e. TakesSome S.law piece.now (with_sink self.old sink.old) (header_end e)
            (with_sink self.new sink.new)) }
        ensures ready { OnOk result (IsReady self.new.reading self.new.scanning) }
        ensures least { OnErr result
            ((p : List ℕ) → Reads self.old.reading p
            → Scanned self.old.reading.rules.limits (closed p) self.old.scanning
            → HeldUntil self.old.reading.rules.limits p piece.now self.new.reading.lines self.new.scanning) }
    {
        let Some(at) = memchr(b'\n', piece) else {
            self.store_first(piece)?;
            return Ok(Progress {
                used: piece.len(),
                accepted: false,
            });
        };
        self.take_first(&piece[..at], sink)?;
        Ok(Progress {
            used: at + 1,
            accepted: true,
        })
    }

    /// Takes a piece of the stream after the first line, and handles each line that ends in it.
    pub fn take_piece<S: LineSink, N: ReportSink>(
        &mut self,
        piece: &[u8],
        sink: &mut S,
        reports: &mut N,
    ) -> Result<(), LineEnd>
        requires ready { IsReady self.old.reading self.old.scanning }
        requires countable { self.old.reading.lines + length piece.now < 2 ^ 62 }
        requires later { 0 < self.old.reading.lines }
        ensures carries { Carries S.law (with_sink self.old sink.old) (answer_of line_end result)
            (with_sink self.new sink.new) }
        ensures few { self.new.reading.lines ≤ self.old.reading.lines + length piece.now }
        ensures grows { self.old.reading.lines ≤ self.new.reading.lines }
        ensures ok { OnOk result
            (TakesAll S.law piece.now (with_sink self.old sink.old) (with_sink self.new sink.new)) }
        ensures err { IfErr result (λ e. TakesSome S.law piece.now (with_sink self.old sink.old) (line_end e)
            (with_sink self.new sink.new)) }
        ensures least { OnErr result
            ((p : List ℕ) → Reads self.old.reading p
            → Scanned self.old.reading.rules.limits (closed p) self.old.scanning
            → HeldUntil self.old.reading.rules.limits p piece.now self.new.reading.lines self.new.scanning) }
        ensures reports { (p : List ℕ) → Reads self.old.reading p
            → Notes N.notes (stretch self.old.reading.rules (p ++ piece.now) self.old.reading.lines
            self.new.reading.lines) reports.old reports.new }
    {
        let mut rest = piece;
        while let Some(at) = memchr(b'\n', rest) {
            self.store(&rest[..at])?;
            self.handle_line(true, sink, reports)?;
            rest = &rest[at + 1..];
        }
        self.store(rest)?;
        Ok(())
    }

    /// Takes a piece of the stream, and handles each line that ends in it. If no line was handled
    ///  before, the first one is the header.
    pub fn take<S: LineSink, N: ReportSink>(
        &mut self,
        piece: &[u8],
        sink: &mut S,
        reports: &mut N,
    ) -> Result<(), End>
        requires ready { IsReady self.old.reading self.old.scanning }
        requires countable { self.old.reading.lines + length piece.now < 2 ^ 62 }
        requires undropped { self.old.reading.lines ≡ 0 → self.old.reading.dropped ≡ false }
        ensures carries { Carries S.law (with_sink self.old sink.old) result (with_sink self.new sink.new) }
        ensures ready { OnOk result (IsReady self.new.reading self.new.scanning) }
        ensures few { OnOk result (self.new.reading.lines ≤ self.old.reading.lines + length piece.now) }
        ensures undropped { OnOk result (self.new.reading.lines ≡ 0 → self.new.reading.dropped ≡ false) }
        ensures none { result ≡ Err End.Memory → (self.old.reading.lines ≡ 0) × (self.new.reading.lines ≡ 0) }
        ensures ok { OnOk result
            (TakesAll S.law piece.now (with_sink self.old sink.old) (with_sink self.new sink.new)) }
        ensures err { IfErr result (λ e. TakesSome S.law piece.now (with_sink self.old sink.old) e
            (with_sink self.new sink.new)) }
        ensures least { OnErr result
            ((p : List ℕ) → Reads self.old.reading p
            → Scanned self.old.reading.rules.limits (closed p) self.old.scanning
            → HeldUntil self.old.reading.rules.limits p piece.now self.new.reading.lines self.new.scanning) }
        ensures reports { (p : List ℕ) → Reads self.old.reading p
            → Notes N.notes (stretch self.old.reading.rules (p ++ piece.now) self.old.reading.lines
            self.new.reading.lines) reports.old reports.new }
    {
        if self.lines() > 0 {
            self.take_piece(piece, sink, reports)?;
            return Ok(());
        }
        let progress = self.take_front(piece, sink)?;
        if !progress.accepted {
            return Ok(());
        }
        self.take_piece(&piece[progress.used..], sink, reports)?;
        Ok(())
    }

    /// Handles a first line that has no LF, and with a stream that has no line.
    pub fn finish_first<S: LineSink>(&mut self, sink: &mut S) -> Result<(), HeaderEnd>
        requires ready { IsReady self.old.reading self.old.scanning }
        requires first { self.old.reading.lines ≡ 0 }
        requires undropped { self.old.reading.dropped ≡ false }
        ensures carries { Carries S.law (with_sink self.old sink.old) (answer_of header_end result)
            (with_sink self.new sink.new) }
        ensures few { self.new.reading.lines ≤ 1 }
        ensures memory { IsErrOf result HeaderEnd.Memory → ⊥ }
        ensures finishes { FinishesAll S.law (with_sink self.old sink.old) (answer_of header_end result)
            (with_sink self.new sink.new) }
    {
        if self.has_begun() {
            return self.handle_first(false, sink);
        }
        Err(HeaderEnd::Refused {
            line: 1,
            place: 0,
            reason: Reason::NoHeader,
        })
    }

    /// Handles a last line, after the first, that has no LF.
    pub fn finish<S: LineSink, N: ReportSink>(
        &mut self,
        sink: &mut S,
        reports: &mut N,
    ) -> Result<(), LineEnd>
        requires ready { IsReady self.old.reading self.old.scanning }
        requires countable { self.old.reading.lines < 2 ^ 62 }
        requires later { 0 < self.old.reading.lines }
        ensures carries { Carries S.law (with_sink self.old sink.old) (answer_of line_end result)
            (with_sink self.new sink.new) }
        ensures few { self.new.reading.lines ≤ self.old.reading.lines + 1 }
        ensures grows { self.old.reading.lines ≤ self.new.reading.lines }
        ensures finishes { FinishesAll S.law (with_sink self.old sink.old) (answer_of line_end result)
            (with_sink self.new sink.new) }
        ensures reports { (p : List ℕ) → Reads self.old.reading p
            → Notes N.notes (stretch self.old.reading.rules p self.old.reading.lines self.new.reading.lines)
            reports.old reports.new }
    {
        if self.has_begun() {
            return self.handle_line(false, sink, reports);
        }
        Ok(())
    }

    /// Returns how many lines were handled.
    pub fn lines(&self) -> u64
        ensures { result ≡ self.now.reading.lines }
    {
        self.buffer.lines
    }

    /// Returns how many features were kept.
    pub fn kept(&self) -> u64
        ensures { result ≡ self.now.reading.kept }
    {
        self.kept
    }

    /// Returns the number of invalid lines after which reading went on.
    pub fn refused(&self) -> u64
        ensures { result ≡ self.now.reading.refused }
    {
        self.refused
    }

    /// Returns what is held now.
    pub fn held(&self) -> Peaks
        ensures bytes { result.bytes ≡ length self.now.reading.header.elements + length self.now.reading.line.elements }
        ensures tokens { result.tokens ≡ length self.now.scanning.header.elements + length
            self.now.scanning.line.elements }
        ensures depth { result.depth ≡ length self.now.scanning.opened.elements }
    {
        Peaks {
            bytes: self.buffer.header.len() as u64 + self.buffer.line.len() as u64,
            tokens: self.validator.header_tokens.len() as u64
                + self.validator.line_tokens.len() as u64,
            depth: self.validator.opened.len() as u64,
        }
    }

    /// Returns the most that each list has held. The peaks of two lists of one kind are added up.
    pub fn peaks(&self) -> Peaks
        ensures bytes { result.bytes ≡ self.now.reading.header.peak + self.now.reading.line.peak }
        ensures tokens { result.tokens ≡ self.now.scanning.header.peak + self.now.scanning.line.peak }
        ensures depth { result.depth ≡ self.now.scanning.opened.peak }
    {
        Peaks {
            bytes: self.buffer.header.peak() as u64 + self.buffer.line.peak() as u64,
            tokens: self.validator.header_tokens.peak() as u64
                + self.validator.line_tokens.peak() as u64,
            depth: self.validator.opened.peak() as u64,
        }
    }
}

/// Reserves memory for the first line, and for as many open containers as the depth limit allows. A
/// failed growth is counted.
fn reserve_first(buffer: &mut LineBuffer, validator: &mut Validator) -> Result<(), NoMemory>
    ensures bytes { OnOk result (buffer.new
        ≡ record buffer.old { header = record buffer.old.header { reserved = true } }) }
    ensures trees { OnOk result (validator.new ≡ record validator.old {
      header_tokens = record validator.old.header_tokens { reserved = true };
      opened = record validator.old.opened { reserved = true };
    }) }
    ensures cause { OnErr result (HasRisen buffer.old.header.failed_growths buffer.new.header.failed_growths
        ⊎ HasRisen validator.old.header_tokens.failed_growths validator.new.header_tokens.failed_growths
        ⊎ HasRisen validator.old.opened.failed_growths validator.new.opened.failed_growths) }
    ensures within { OnOk result
        (IsWithin buffer.new.header × IsWithin validator.new.header_tokens × IsWithin validator.new.opened) }
{
    buffer.header.reserve_all()?;
    validator.header_tokens.reserve_all()?;
    validator.opened.reserve_all()
}
