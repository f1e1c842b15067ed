//! Pieces for a reader of lines: the theorem about a stream whose header was accepted.
//!
//! It says of the bytes after the header what `pieces` says of a whole stream. It has no case for a
//! lack of memory.
ghost use Rattle.std.specs.Prelude.{◌≡◌, ◌+◌, ◌++◌, ◌≤◌, ◌^◌, ℕ, List, None, Some, length, map, take};
ghost use Rattle.cj_stream.specs.Lines.{joined};
ghost use Rattle.cj_stream.specs.Cut.{TookWhole, Fed, in_pieces, given_after};
ghost use Rattle.cj_stream.specs.Ending.{line_end};
ghost use Rattle.cj_stream.specs.Engine.{Delivers, StandsFor, rules_of, lines_of};
ghost use Rattle.cj_stream.specs.LinePieces.{pieces_outcome, PutsLines, NotesLines, CopiesLines};
ghost use Rattle.cj_stream.specs.LinePieces.{HeadlineOfLines, later_pieces};
ghost use Rattle.cj_stream.specs.Output.{output_writer, channel, output_law, outputs};
ghost use Rattle.cj_stream.specs.ReportSink.{Notes};
ghost use Rattle.cj_stream.specs.Run.{Ends, fate_of};
ghost use Rattle.cj_stream.specs.Sink.{HasRisen};
ghost use Rattle.cj_stream.specs.Verdict.{stretch};

use crate::ending::LineEnd;
use crate::line_reader::LineReader;
use crate::output::Output;
use crate::report_sink::ReportSink;
use crate::sink::LineSink;
use cj_budget::Peaks;
use std::io::Write;

/// The outcome of giving pieces to a reader of lines.
#[derive(Clone, Copy, Debug, PartialEq, Eq)]
pub struct LinesOutcome {
    /// How many pieces were taken whole. If a line was the end, the next piece, if there is one,
    /// made it so.
    pub taken: usize,
    /// The most that was held.
    pub peaks: Peaks,
    /// How it ended.
    pub ended: LineEnd,
}

/// Feeds all pieces and then the end, until the reader ends.
fn feed_all<S: LineSink, N: ReportSink>(
    reader: &mut LineReader,
    pieces: &[&[u8]],
    sink: &mut S,
    reports: &mut N,
) -> LinesOutcome
    requires going { reader.old.ended ≡ None }
    requires short { reader.old.taken + length (joined (map (λ piece. piece.now) pieces.now)) ≤ 2 ^ 60 }
    ensures fed { (p : List ℕ) → StandsFor reader.old p → Fed (rules_of reader.old) p
        (map (λ piece. piece.now) pieces.now) (pieces_outcome result) reader.new }
    ensures ends { (p : List ℕ) → StandsFor reader.old p → Ends (rules_of reader.old)
        (p ++ joined (take (result.taken + 1) (map (λ piece. piece.now) pieces.now))) (lines_of reader.new)
        (joined (take (result.taken + 1) (map (λ piece. piece.now) pieces.now))
        ≡ joined (map (λ piece. piece.now) pieces.now)) (line_end result.ended) }
    ensures taken { (p : List ℕ) → StandsFor reader.old p
        → TookWhole S.law (given_after p (lines_of reader.old) (in_pieces (rules_of reader.old)
        (map (λ piece. piece.now) pieces.now) result.taken) (lines_of reader.new)) sink.old sink.new
        (line_end result.ended) }
    ensures reports { (p : List ℕ) → StandsFor reader.old p
        → Notes N.notes (stretch (rules_of reader.old)
        (p ++ joined (take (result.taken + 1) (map (λ piece. piece.now) pieces.now))) (lines_of reader.old)
        (lines_of reader.new)) reports.old reports.new }
    ensures cause { result.ended ≡ LineEnd.WriteFault → HasRisen (S.law.failures sink.old) (S.law.failures sink.new) }
{
    for (taken, piece) in pieces.iter().enumerate() {
        if let Err(ended) = reader.feed(piece, sink, reports) {
            return LinesOutcome {
                taken,
                peaks: reader.peaks(),
                ended,
            };
        }
    }
    let ended = reader.finish(sink, reports);
    LinesOutcome {
        taken: pieces.len(),
        peaks: reader.peaks(),
        ended,
    }
}

/// Gives all pieces and then the end to a reader of lines, until the reader ends. The reader must
/// not have ended before. Nothing is allocated.
///
/// However the pieces are cut, the sink takes all that is kept of the lines that were not handled
///  before, in order. The end is the ending of the whole stream. This holds unless a step of
/// the sink fails.
///
/// After such a failure the sink took a prefix of what is kept of the given pieces. The prefix has
/// all that is kept of the whole lines in the pieces that were taken whole. The sink of reports
/// notes what is reported of the lines that were handled.
pub fn put_lines<S: LineSink, N: ReportSink>(
    reader: &mut LineReader,
    pieces: &[&[u8]],
    sink: &mut S,
    reports: &mut N,
) -> LinesOutcome
    requires going { reader.old.ended ≡ None }
    requires short { reader.old.taken + length (joined (map (λ piece. piece.now) pieces.now)) ≤ 2 ^ 60 }
    ensures fed { (p : List ℕ) → StandsFor reader.old p → Fed (rules_of reader.old) p
        (map (λ piece. piece.now) pieces.now) (pieces_outcome result) reader.new }
    ensures puts { (p : List ℕ) → StandsFor reader.old p
        → PutsLines S.law (later_pieces (rules_of reader.old) p (map (λ piece. piece.now) pieces.now)
        (lines_of reader.old)) result sink.old sink.new }
    ensures notes { (p : List ℕ) → StandsFor reader.old p
        → NotesLines N.notes (later_pieces (rules_of reader.old) p (map (λ piece. piece.now) pieces.now)
        (lines_of reader.old)) result reports.old reports.new }
    ensures sink { (p : List ℕ) → StandsFor reader.old p
        → Delivers S.law (stretch (rules_of reader.old)
        (p ++ joined (take (result.taken + 1) (map (λ piece. piece.now) pieces.now))) (lines_of reader.old)
        (lines_of reader.new)) sink.old sink.new (Some (line_end result.ended)) }
    ensures reports { (p : List ℕ) → StandsFor reader.old p
        → Notes N.notes (stretch (rules_of reader.old)
        (p ++ joined (take (result.taken + 1) (map (λ piece. piece.now) pieces.now))) (lines_of reader.old)
        (lines_of reader.new)) reports.old reports.new }
    ensures cause { result.ended ≡ LineEnd.WriteFault → HasRisen (S.law.failures sink.old) (S.law.failures sink.new) }
{
    feed_all(reader, pieces, sink, reports)
}

/// The headline for what comes after the lines that were handled, however the pieces are cut.
///
/// The reader writes exactly the kept features, byte for byte, in order. By default these are the
/// ones before the first invalid line. If reading goes on after invalid lines, these are all of
/// them. The reader gives each invalid line with its number, byte and reason. This holds unless a
/// write fails.
///
/// After a failed write the writer has a prefix of the output of the given pieces. The prefix has
/// all output of the whole lines in the pieces that were taken whole. Nothing is allocated, so no
/// end is a lack of memory.
///
/// The stream is all bytes that the reader represents (`StandsFor`), followed by these pieces. If
/// the reader came from [`crate::HeaderReader`], the stream begins with the first line.
pub fn headline_of_lines<W: Write + Drop, N: ReportSink>(
    reader: &mut LineReader,
    pieces: &[&[u8]],
    sink: &mut Output<W>,
    reports: &mut N,
) -> LinesOutcome
    requires going { reader.old.ended ≡ None }
    requires short { reader.old.taken + length (joined (map (λ piece. piece.now) pieces.now)) ≤ 2 ^ 60 }
    ensures headline { let cut = map (λ piece. piece.now) pieces.now in
        (p : List ℕ) → StandsFor reader.old p
        → HeadlineOfLines N.notes (lines_of reader.old) (fate_of (rules_of reader.old) (p ++ joined cut)
        (p ++ joined (take (result.taken + 1) cut)) result.ended result.peaks)
        (outputs (channel W.contents sink.old) reports.old) (outputs (channel W.contents sink.new) reports.new) }
    ensures fed { (p : List ℕ) → StandsFor reader.old p → Fed (rules_of reader.old) p
        (map (λ piece. piece.now) pieces.now) (pieces_outcome result) reader.new }
    ensures copies { (p : List ℕ) → StandsFor reader.old p
        → CopiesLines (later_pieces (rules_of reader.old) p (map (λ piece. piece.now) pieces.now) (lines_of reader.old))
        result (W.contents (output_writer sink.old)) (W.contents (output_writer sink.new)) }
    ensures sink { (p : List ℕ) → StandsFor reader.old p
        → Delivers (output_law W.contents) (stretch (rules_of reader.old)
        (p ++ joined (take (result.taken + 1) (map (λ piece. piece.now) pieces.now))) (lines_of reader.old)
        (lines_of reader.new)) sink.old sink.new (Some (line_end result.ended)) }
    ensures reports { (p : List ℕ) → StandsFor reader.old p
        → Notes N.notes (stretch (rules_of reader.old)
        (p ++ joined (take (result.taken + 1) (map (λ piece. piece.now) pieces.now))) (lines_of reader.old)
        (lines_of reader.new)) reports.old reports.new }
{
    put_lines(reader, pieces, sink, reports)
}
