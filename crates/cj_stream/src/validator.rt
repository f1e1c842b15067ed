//! Judges whole lines, and puts the kept ones to a sink.
//!
//! The validator knows the limits, the query and the options. It has the lists that judging needs:
//! the tokens of the header, those of the judged line, and the open containers. It also has the
//! parts read of the header. It borrows the bytes of the lines.
//!
//! That the header's tokens and parts belong to the header (`KeepsHeader`) is required by the
//! functions that use them. A view borrows the lists, so they change only after the call of the
//! sink. The validator does not know the number of a later line: its verdict is the same with any
//! number above 1.
ghost use Rattle.std.specs.Prelude.{◌≡◌, ◌+◌, ◌<◌, ◌≤◌, ◌/◌, ℕ, length, [], OnOk, OnErr, IfOk, MatchResult};
ghost use Rattle.std.specs.Prelude.{IsTrue, None, Some, false};
ghost use Rattle.std.specs.List.{list_all};
ghost use Rattle.cj_budget.specs.Bounded.{IsNew};
ghost use Rattle.cj_budget.specs.Limits.{InLine};
ghost use Rattle.cj_spans.specs.Marks.{AreUnmarked};
ghost use Rattle.cj_spans.specs.Scan.{KeepsLaw};
ghost use Rattle.cj_feature.specs.HeaderView.{header_tree, has_box};
ghost use Rattle.cj_stream.specs.Meaning.Criteria.{needs_box};
ghost use Rattle.cj_stream.specs.Item.{tree_of, item_at};
ghost use Rattle.cj_stream.specs.Query.{criteria};
ghost use Rattle.cj_stream.specs.Sink.{HasRisen};
ghost use Rattle.cj_stream.specs.Meaning.Verdict.{Kept, Invalid, is_blank_byte};
ghost use Rattle.cj_stream.specs.Verdict.{verdict_at};
ghost use Rattle.cj_stream.specs.Reading.{JudgedAs};

use crate::judge::{is_blank, judge};
use crate::options::Options;
use crate::output::WriteFault;
use crate::query::Query;
use crate::sink::LineSink;
use cj_budget::{Bounded, Limits, Stack};
use cj_feature::{Header, HeaderParts, check_feature, check_header, mark_reached};
use cj_spans::{Doc, Finding, Token};
use std::alloc::Global;

/// What became of a later line.
#[derive(Clone, Copy, Debug)]
pub enum LineResult {
    /// The sink took it.
    Kept,
    /// It is a valid feature, and the query and the options leave it out.
    LeftOut,
    /// It is blank.
    Blank,
    /// It is invalid: the byte, and the reason.
    Refused(Finding),
}

/// What lines are judged by, and what they are judged with.
#[derive(Drop)]
pub struct Validator<'q> {
    pub limits: Limits,
    pub query: &'q Query,
    pub options: Options,
    /// The tokens of the first line.
    pub header_tokens: Bounded<Token>,
    /// The tokens of the later line that is judged.
    pub line_tokens: Bounded<Token>,
    pub opened: Stack,
    /// What was read of a valid header.
    pub header_parts: Option<HeaderParts>,
}

impl<'q> Validator<'q> {
    ghost use Rattle.cj_stream.specs.Delivering.{Hands};
    ghost use Rattle.cj_stream.specs.Judging.{Says, ShowsTree, HasMarks, IsHeaderOf, KeepsHeader};
    ghost use Rattle.cj_stream.specs.Query.{rules_for};
    ghost use Rattle.cj_stream.specs.Scanning.{scanning, tree_lists, HasRoom, HoldsTree, ScansLine, Forgets};

    /// Returns a validator that has judged no line. It allocates nothing.
    pub fn new(alloc: Global, limits: Limits, query: &'q Query, options: Options) -> Validator<'q>
        ensures limits { result.limits ≡ limits }
        ensures query { result.query.now ≡ query.now }
        ensures options { result.options ≡ options }
        ensures header { IsNew 0 ((limits.line + limits.depth + 1) / 2) result.header_tokens }
        ensures line { IsNew 0 ((limits.line + limits.depth + 1) / 2) result.line_tokens }
        ensures opened { IsNew 64 limits.depth result.opened }
        ensures header_parts { result.header_parts ≡ None }
    {
        let depth = limits.depth() as usize;
        let tokens = (limits.line() as usize + depth + 1) / 2; // each but the last has two bytes or an open container
        Validator {
            limits,
            query,
            options,
            header_tokens: Bounded::new(alloc, tokens),
            line_tokens: Bounded::new(alloc, tokens),
            opened: Stack::new(alloc, depth),
            header_parts: None,
        }
    }

    /// Judges the content of the first line, which is never blank. Returns the parts of a valid
    /// header.
    ///
    /// # Errors
    ///
    /// Where the line is invalid, and why.
    pub fn check_first(&mut self, content: &[u8]) -> Result<HeaderParts, Finding>
        requires range { InLine self.old.limits.line }
        requires lists { HasRoom self.old.limits (scanning self.old) }
        requires reserved { IsTrue self.old.header_tokens.reserved × IsTrue self.old.opened.reserved }
        requires short { length content.now ≤ self.old.limits.line }
        ensures rest { self.new
            ≡ record self.old { header_tokens = self.new.header_tokens; opened = self.new.opened } }
        ensures shows { OnOk result (ShowsTree content.now self.old.limits.depth self.new.header_tokens.elements) }
        ensures ok { IfOk result (λ header_parts. IsHeaderOf (tree_of self.old.limits.depth content.now)
            (rules_for self.old.limits self.old.query.now self.old.options) header_parts) }
        ensures verdict { MatchResult result
            (λ _. verdict_at (rules_for self.old.limits self.old.query.now self.old.options) 1
            (tree_of self.old.limits.depth content.now) content.now ≡ Kept)
            (λ f. verdict_at (rules_for self.old.limits self.old.query.now self.old.options) 1
            (tree_of self.old.limits.depth content.now) content.now ≡ Invalid f.place f.reason) }
        ensures holds { OnOk result (HoldsTree content.now (tree_lists self.old.header_tokens self.old.opened)
            (tree_lists self.new.header_tokens self.new.opened)) }
        ensures law { KeepsLaw content.now self.old.header_tokens self.new.header_tokens
            self.old.opened self.new.opened }
    {
        judge(content, &mut self.header_tokens, &mut self.opened)?;
        let doc = Doc::of(content, self.header_tokens.as_slice());
        match check_header(doc, self.query.wants_box()) {
            Ok(header) => Ok(header.parts()),
            Err(finding) => Err(finding),
        }
    }

    /// Puts a valid header to the sink, and keeps the parts read of it.
    pub fn put_first<S: LineSink>(
        &mut self,
        content: &[u8],
        header_parts: HeaderParts,
        lf: bool,
        sink: &mut S,
    ) -> Result<(), WriteFault>
        requires shows { ShowsTree content.now self.old.limits.depth self.old.header_tokens.elements }
        requires header_parts { IsHeaderOf (tree_of self.old.limits.depth content.now)
            (rules_for self.old.limits self.old.query.now self.old.options) header_parts }
        ensures counts { S.law.failures sink.old ≤ S.law.failures sink.new }
        ensures cause { OnErr result (HasRisen (S.law.failures sink.old) (S.law.failures sink.new)) }
        ensures puts { MatchResult result
            (λ _. S.law.takes sink.old (item_at self.old.limits.depth 1 (tree_of self.old.limits.depth content.now)
            (record { content = content.now; lf = lf })) sink.new)
            (λ e. S.law.leaves sink.old (item_at self.old.limits.depth 1 (tree_of self.old.limits.depth content.now)
            (record { content = content.now; lf = lf })) sink.new) }
        ensures same { OnErr result (self.new ≡ self.old) }
        ensures rest { OnOk result (self.new ≡ record self.old { header_parts = self.new.header_parts }) }
        ensures keeps { OnOk result (KeepsHeader content.now
            (rules_for self.old.limits self.old.query.now self.old.options)
            self.old.header_tokens.elements self.new.header_parts) }
    {
        let doc = Doc::of(content, self.header_tokens.as_slice());
        let header = Header::of(doc, header_parts);
        sink.header(&header, lf)?;
        let header_parts = header.parts();
        self.header_parts = Some(header_parts);
        Ok(())
    }

    /// Marks the city objects of a later line that are reached, if the options require that each
    /// is.
    fn mark(&mut self, content: &[u8])
        requires shows { ShowsTree content.now self.old.limits.depth self.old.line_tokens.elements }
        requires unmarked { AreUnmarked self.old.line_tokens.elements }
        ensures rest { self.new ≡ record self.old { line_tokens = self.new.line_tokens } }
        ensures marks { HasMarks content.now self.old.limits self.old.options self.new.line_tokens.elements }
        ensures shows { ShowsTree content.now self.old.limits.depth self.new.line_tokens.elements }
        ensures count { length self.new.line_tokens.elements ≡ length self.old.line_tokens.elements }
        ensures list { self.new.line_tokens ≡ record self.old.line_tokens { elements = self.new.line_tokens.elements } }
    {
        if self.options.asks_for_trees() {
            mark_reached(content, &mut self.line_tokens);
        }
    }

    /// Reads the content of a later line, which is not blank, as a JSON text.
    fn scan_later(&mut self, content: &[u8]) -> Result<(), Finding>
        requires range { InLine self.old.limits.line }
        requires lists { HasRoom self.old.limits (scanning self.old) }
        requires reserved { IsTrue self.old.line_tokens.reserved × IsTrue self.old.opened.reserved }
        requires short { length content.now ≤ self.old.limits.line }
        requires not_blank { list_all is_blank_byte content.now ≡ false }
        ensures rest { self.new ≡ record self.old { line_tokens = self.new.line_tokens; opened = self.new.opened } }
        ensures says { Says content.now self.old.limits.depth result }
        ensures shows { OnOk result (ShowsTree content.now self.old.limits.depth self.new.line_tokens.elements) }
        ensures marks { OnOk result
            (HasMarks content.now self.old.limits self.old.options self.new.line_tokens.elements) }
        ensures scans { ScansLine self.old.limits content.now (scanning self.old) (scanning self.new) }
        ensures lists { HasRoom self.old.limits (scanning self.new) }
        ensures reserved { IsTrue self.new.line_tokens.reserved × IsTrue self.new.opened.reserved }
    {
        judge(content, &mut self.line_tokens, &mut self.opened)?;
        self.mark(content);
        Ok(())
    }

    /// Returns the header, given the content of the first line.
    fn header<'a>(&'a self, first: &'a [u8]) -> Header<'a>
        requires keeps { KeepsHeader first.now (rules_for self.now.limits self.now.query.now self.now.options)
            self.now.header_tokens.elements self.now.header_parts }
        ensures tree { header_tree result ≡ tree_of self.now.limits.depth first.now }
        ensures with_box { has_box result ≡ needs_box (criteria self.now.query.now) }
    {
        let Some(header_parts) = &self.header_parts else {
            unreachable!() // proved: a header was kept before
        };
        Header::kept(Doc::of(first, self.header_tokens.as_slice()), header_parts)
    }

    /// Judges a later line, and puts it to the sink if it is a valid feature to keep. The query and
    /// the options decide that. `first` is the content of the first line, a valid header.
    ///
    /// # Errors
    ///
    /// `WriteFault` if the sink failed.
    pub fn judge_and_put<'l, S: LineSink>(
        &mut self,
        first: &'l [u8],
        content: &'l [u8],
        lf: bool,
        sink: &mut S,
    ) -> Result<LineResult, WriteFault>
        requires range { InLine self.old.limits.line }
        requires lists { HasRoom self.old.limits (scanning self.old) }
        requires reserved { IsTrue self.old.line_tokens.reserved × IsTrue self.old.opened.reserved }
        requires short { length content.now ≤ self.old.limits.line }
        requires keeps { KeepsHeader first.now (rules_for self.old.limits self.old.query.now self.old.options)
            self.old.header_tokens.elements self.old.header_parts }
        ensures rest { self.new ≡ record self.old { line_tokens = self.new.line_tokens; opened = self.new.opened } }
        ensures counts { S.law.failures sink.old ≤ S.law.failures sink.new }
        ensures cause { OnErr result (HasRisen (S.law.failures sink.old) (S.law.failures sink.new)) }
        ensures hands { (number : ℕ) → 1 < number → Hands S.law (JudgedAs number false
            (verdict_at (rules_for self.old.limits self.old.query.now self.old.options) number
            (tree_of self.old.limits.depth first.now) content.now)
            (item_at self.old.limits.depth number (tree_of self.old.limits.depth first.now)
            (record { content = content.now; lf = lf }))) sink.old result sink.new }
        ensures scans { ScansLine self.old.limits content.now (scanning self.old) (scanning self.new) }
        ensures lists { HasRoom self.old.limits (scanning self.new) }
        ensures reserved { IsTrue self.new.line_tokens.reserved × IsTrue self.new.opened.reserved }
    {
        if is_blank(content) {
            return Ok(LineResult::Blank);
        }
        if let Err(finding) = self.scan_later(content) {
            return Ok(LineResult::Refused(finding));
        }
        let header = self.header(first);
        let doc = Doc::of(content, self.line_tokens.as_slice());
        let feature = match check_feature(
            doc,
            &header,
            self.options.asks_for_trees(),
            self.options.knows_extensions(),
        ) {
            Ok(feature) => feature,
            Err(finding) => return Ok(LineResult::Refused(finding)),
        };
        if self.query.holds(&feature, &header) == self.options.excludes() {
            return Ok(LineResult::LeftOut);
        }
        sink.put(&feature, lf)?;
        Ok(LineResult::Kept)
    }

    /// Empties the lists of the judged line. What is kept of the header stays.
    pub fn forget(&mut self)
        ensures forgets { Forgets (scanning self.old) (scanning self.new) }
        ensures rest { self.new ≡ record self.old { line_tokens = self.new.line_tokens; opened = self.new.opened } }
    {
        self.line_tokens.clear();
        self.opened.clear();
    }
}
