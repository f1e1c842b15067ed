//! A plain, slow program over whole texts. Streams of many lines are compared with it.
//!
//! It cuts a text into its lines, and looks each up in a table of lines with verdicts found by
//! hand. It returns what is written, reported, counted and held.
use cj_budget::Peaks;
use cj_spans::Reason;
use cj_stream::{End, Outcome, Report};
use cj_stream_testkit::{held, note, refused};
use std::alloc::Global;
use std::process::Abort;
use std::test::Fail;

/// What a line is, if it is not too long.
#[derive(Clone, Copy)]
pub enum Verdict<'a> {
    Header,
    /// A feature with this id.
    Feature(&'a str),
    Blank,
    Refused(u64, Reason),
    /// The same, but the line is no JSON text within the depth limit. So it may have added tokens
    /// before that was seen.
    Illegible(u64, Reason),
}

/// A line with everything known of it: what it is as the first line and as a later one, its values
/// and names, and its depth.
#[derive(Clone, Copy)]
pub struct Known<'a> {
    pub content: &'a [u8],
    pub first: Verdict<'a>,
    pub later: Verdict<'a>,
    pub tokens: u64,
    pub depth: u64,
}

/// How a stream is read, with a depth limit of 8.
#[derive(Clone, Copy)]
pub struct Way<'a> {
    pub line_limit: usize,
    pub keeps_going: bool,
    /// The id that is selected, if there is one.
    pub id: Option<&'a str>,
}

/// The result of a text.
#[derive(Drop)]
pub struct Plain {
    pub written: Vec<u8>,
    pub reports: String,
    /// How it went. The peaks are those of all lines, if the stream is complete.
    pub outcome: Outcome,
    /// The bytes of the first line that are held, and the greatest values of later lines.
    first: Peaks,
    later: Peaks,
    /// Whether all later lines are blank or spell a tree.
    pub legible: bool,
}

/// A line of a text.
#[derive(Clone, Copy)]
struct Line<'a> {
    known: Known<'a>,
    lf: bool,
}

/// Returns what is known of a content.
fn known_of<'a>(rt: &impl Abort, table: &[Known<'a>], content: &[u8]) -> Known<'a> {
    for known in table {
        if known.content == content {
            return *known;
        }
    }
    panic!(rt; "a line that is not in the table");
}

/// Returns the verdict on a line with this number.
fn verdict_on<'a>(known: &Known<'a>, number: u64, way: &Way) -> Verdict<'a> {
    if known.content.len() > way.line_limit {
        return Verdict::Illegible(way.line_limit as u64, Reason::LineTooLong);
    }
    if number == 1 {
        known.first
    } else {
        known.later
    }
}

impl Plain {
    /// Returns the result of a text without a line.
    fn new(alloc: Global) -> Plain {
        Plain {
            written: Vec::new(alloc),
            reports: String::new(alloc),
            outcome: Outcome {
                lines: 0,
                kept: 0,
                refused: 0,
                peaks: held(0, 0, 0),
                ended: refused(1, 0, Reason::NoHeader),
            },
            first: held(0, 0, 0),
            later: held(0, 0, 0),
            legible: true,
        }
    }

    /// Writes a line.
    fn write(&mut self, line: &Line) -> Result<(), Fail> {
        self.written.extend_from_slice(line.known.content)?;
        if line.lf {
            self.written.push(b'\n')?;
        }
        Ok(())
    }

    /// Handles a feature with this id.
    fn take_feature(&mut self, line: &Line, id: &str, way: &Way) -> Result<(), Fail> {
        if let Some(asked) = way.id {
            if asked != id {
                return Ok(());
            }
        }
        self.write(line)?;
        self.outcome.kept = self.outcome.kept.saturating_add(1);
        Ok(())
    }

    /// Handles an invalid line. Returns whether the next one is read.
    fn refuse(
        &mut self,
        alloc: Global,
        place: u64,
        reason: Reason,
        way: &Way,
    ) -> Result<bool, Fail> {
        let line = self.outcome.lines.saturating_add(1);
        if line == 1 || !way.keeps_going {
            self.outcome.ended = refused(line, place, reason);
            return Ok(false);
        }
        let text = note(
            alloc,
            Report {
                line,
                place,
                reason,
            },
        )?;
        self.reports.push_str(&text)?;
        self.outcome.refused = self.outcome.refused.saturating_add(1);
        Ok(true)
    }

    /// Handles a line. Returns whether the next one is read.
    fn take(&mut self, alloc: Global, line: &Line, way: &Way) -> Result<bool, Fail> {
        match verdict_on(&line.known, self.outcome.lines.saturating_add(1), way) {
            Verdict::Header => self.write(line)?,
            Verdict::Feature(id) => self.take_feature(line, id, way)?,
            Verdict::Blank => {}
            Verdict::Refused(place, reason) => return self.refuse(alloc, place, reason, way),
            Verdict::Illegible(place, reason) => {
                self.legible = false;
                return self.refuse(alloc, place, reason, way);
            }
        }
        Ok(true)
    }

    /// Counts what a line holds at most.
    fn hold(&mut self, line: &Line, way: &Way) {
        let bytes = line.known.content.len().min(way.line_limit) as u64;
        let is_text = line.known.content.len() <= way.line_limit;
        let (tokens, depth) = if is_text {
            (line.known.tokens, line.known.depth)
        } else {
            (0, 0)
        };
        if self.outcome.lines == 0 {
            self.first = held(bytes, tokens, depth);
        } else {
            self.later.bytes = self.later.bytes.max(bytes);
            self.later.tokens = self.later.tokens.max(tokens);
            self.later.depth = self.later.depth.max(depth);
        }
    }

    /// Ends a text after every line was read.
    fn complete(&mut self) {
        let (first, later) = (self.first, self.later);
        self.outcome.peaks = held(
            first.bytes.saturating_add(later.bytes),
            first.tokens.saturating_add(later.tokens),
            first.depth.max(later.depth),
        );
        if self.outcome.lines > 0 {
            self.outcome.ended = End::Complete;
        }
    }
}

/// Returns the lines of a text: each that LF ends, and what comes after the last LF, if that is not
/// empty.
fn lines_of<'a>(
    rt: &impl Abort,
    alloc: Global,
    table: &[Known<'a>],
    text: &[u8],
) -> Result<Vec<Line<'a>>, Fail> {
    let mut lines = Vec::new(alloc);
    let mut content = Vec::new(alloc);
    for byte in text {
        if *byte == b'\n' {
            let known = known_of(rt, table, &content);
            lines.push(Line { known, lf: true })?;
            content.clear();
        } else {
            content.push(*byte)?;
        }
    }
    if !content.is_empty() {
        let known = known_of(rt, table, &content);
        lines.push(Line { known, lf: false })?;
    }
    Ok(lines)
}

/// Returns the result of a text whose lines are all in the table.
pub fn plainly(
    rt: &impl Abort,
    alloc: Global,
    table: &[Known],
    text: &[u8],
    way: &Way,
) -> Result<Plain, Fail> {
    let mut plain = Plain::new(alloc);
    for line in lines_of(rt, alloc, table, text)?.iter() {
        plain.hold(line, way);
        if !plain.take(alloc, line, way)? {
            return Ok(plain);
        }
        plain.outcome.lines = plain.outcome.lines.saturating_add(1);
    }
    plain.complete();
    Ok(plain)
}
