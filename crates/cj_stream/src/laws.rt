//! Laws of the definitions, each proved once.
//!
//! A law is a function that does nothing. A call of it makes its clauses known to the proof of the
//! caller. [`crate::run`] and [`crate::put_pieces`] say of every sink what it took. The laws say
//! what is then written, counted and tallied:
//!
//! ```text
//! let mut tally = TallySink::new();
//! let usual = Options::new();
//! let outcome = run(alloc, &mut reader, &mut tally, &mut NoReports, limits, &query, usual);
//! laws::puts_are_tallied();                     // so the tally is that of what is kept
//! ```
ghost use Rattle.std.specs.Prelude.{◌≡◌, ◌≢◌, ◌↔◌, ◌+◌, ◌++◌, ℕ, List, [], Bool, Option, Some, None, true, false, drop};
ghost use Rattle.std.specs.Prelude.{length, map, take};
ghost use Rattle.std.specs.List.{filter, flat_map};
ghost use Rattle.std.specs.Io.KnownBytes.{Appends, IsAtEnd};
ghost use Rattle.cj_budget.specs.Meaning.Limits.{LimitPair};
ghost use Rattle.cj_budget.specs.declared.limits.Peaks.{Peaks};
ghost use Rattle.cj_stream.specs.Bound.{IsExact, exact_peaks};
ghost use Rattle.cj_stream.specs.CountReports.{count_of, no_reports, CountsReportsOfRun};
ghost use Rattle.cj_stream.specs.CountReports.{CountsReportsOfPieces};
ghost use Rattle.cj_stream.specs.CountSink.{no_counts, CountsItem, CountsRun, CountsPieces};
ghost use Rattle.cj_stream.specs.Meaning.Lines.{Line, ended_line, lines};
ghost use Rattle.cj_stream.specs.Lines.{joined, later_of, NoLf, whole};
ghost use Rattle.cj_stream.specs.Cut.{Copies, PutsPieces, InPieces};
ghost use Rattle.cj_stream.specs.Ending.{line_end};
ghost use Rattle.cj_stream.specs.Judged.{judged_lines, kept_in};
ghost use Rattle.cj_stream.specs.Run.{HeadlineOfRun, Account, LacksRoom, Puts, Run, Runs, RunsNoting, Writes};
ghost use Rattle.cj_stream.specs.Run.{WritesLines};
ghost use Rattle.cj_stream.specs.Meaning.Bound.{HasPeaks};
ghost use Rattle.cj_stream.specs.Meaning.Headline.{Fate, Headline, IsUnhindered, RefusedMemory};
ghost use Rattle.cj_stream.specs.Meaning.Judged.{JudgedLine, AreJudged, handled, output_in};
ghost use Rattle.cj_stream.specs.Meaning.Judged.{reported_in, ending_in};
ghost use Rattle.cj_stream.specs.Meaning.Outputs.{Outputs, Took};
ghost use Rattle.cj_stream.specs.Output.{outputs, output_writer, output_failures, channel, output_law};
ghost use Rattle.cj_stream.specs.IsGood.{AreGood, EndsAfter};
ghost use Rattle.cj_stream.specs.IsLines.{IsLines, IsWhole};
ghost use Rattle.cj_stream.specs.Items.{is_feature};
ghost use Rattle.cj_stream.specs.Parts.{headed, IsCut, AreComplete, moved_end, moved_line, moved_report};
ghost use Rattle.cj_stream.specs.Parts.{greater_peaks};
ghost use Rattle.cj_stream.specs.Parts.{JoinsTallies};
ghost use Rattle.cj_stream.specs.ReportSink.{Collects, CountsReport, Notes, NotesRun, NotesPieces};
ghost use Rattle.cj_stream.specs.Selection.{LeavesKept, all_lines, staying};
ghost use Rattle.cj_stream.specs.Sink.{HasRisen, never_fails};
ghost use Rattle.cj_stream.specs.TallySink.{Tally, no_tally, Tallies, IsTallyOf, TalliesRun, TalliesPieces};
ghost use Rattle.cj_stream.specs.Meaning.Rules.{Rules};
ghost use Rattle.cj_stream.specs.Verdict.{refusal_in, good, kept, kept_first, reported, reported_first};
ghost use Rattle.cj_stream.specs.Verdict.{output, ending, stretch, up_to, Stream};
ghost use Rattle.cj_stream.specs.declared.ending.End.{End};
ghost use Rattle.cj_stream.specs.declared.ending.LineEnd.{LineEnd};
ghost use Rattle.cj_stream.specs.declared.output.Output.{Output};
ghost use Rattle.cj_stream.specs.declared.report_sink.CountReports.{CountReports};
ghost use Rattle.cj_stream.specs.declared.sink.CountSink.{CountSink};

use crate::report_sink::ReportSink;
use std::io::Write;

/// The lines of a stream are contents without LF. Each followed by the LF that ended it, they give
/// the stream back. LF ends each but perhaps the last, which is then not empty. No other list of
/// lines has these properties. A stream up to its last LF is its whole lines.
pub fn lines_are_the_lines(stream: &[u8])
    ensures are { IsLines stream.now (lines stream.now) }
    ensures only { (ls : List Line) → IsLines stream.now ls → ls ≡ lines stream.now }
    ensures whole { IsWhole stream.now (whole stream.now) }
{
    let _ = stream;
}

/// The lines of a stream have one list of verdicts, as `AreJudged` says, and no other.
pub fn lines_are_judged(stream: &[u8])
    ensures are { (rules : Rules) → AreJudged rules (lines stream.now) (judged_lines rules stream.now) }
    ensures only { (rules : Rules) (js : List JudgedLine) → AreJudged rules (lines stream.now) js
        → js ≡ judged_lines rules stream.now }
{
    let _ = stream;
}

/// The list of judged lines says all that the functions of a stream say: the handled lines, what is
/// kept, written and reported, the ending, and the peaks of a complete stream.
pub fn judged_lines_say_all()
    ensures good { (rules : Rules) (r : List ℕ)
        → good rules r ≡ map (λ j. j.line) (handled rules (judged_lines rules r)) }
    ensures kept { (rules : Rules) (r : List ℕ) → kept rules r ≡ kept_in rules (judged_lines rules r) }
    ensures output { (rules : Rules) (r : List ℕ) → output rules r ≡ output_in rules (judged_lines rules r) }
    ensures reported { (rules : Rules) (r : List ℕ) → reported rules r ≡ reported_in rules (judged_lines rules r) }
    ensures ending { (rules : Rules) (r : List ℕ) → ending rules r ≡ ending_in rules (judged_lines rules r) }
    ensures peaks { (rules : Rules) (r : List ℕ) (peaks : Peaks) → ending rules r ≡ End.Complete
        → IsExact rules.limits r peaks ↔ HasPeaks rules.limits (judged_lines rules r) peaks }
{}

/// A headline says what the functions of a stream say. So no headline has too few judged lines, too
/// few that are handled, or no reports.
pub fn headlines_say_all<N: ReportSink>()
    ensures writes { (fate : Fate End) (old new : Outputs N) → Headline N.notes fate old new → IsUnhindered fate.end
        → Appends old.bytes new.bytes (output fate.rules fate.text) }
    ensures gives { (fate : Fate End) (old new : Outputs N) → Headline N.notes fate old new → IsUnhindered fate.end
        → Took N.notes old.reports (reported fate.rules fate.text) new.reports }
    ensures ends { (fate : Fate End) (old new : Outputs N) → Headline N.notes fate old new → IsUnhindered fate.end
        → fate.end ≡ ending fate.rules fate.text }
    ensures exact { (fate : Fate End) (old new : Outputs N) → Headline N.notes fate old new
        → fate.end ≡ End.Complete → IsExact fate.rules.limits fate.text fate.peaks }
    ensures memory { (fate : Fate End) (old new : Outputs N) → Headline N.notes fate old new
        → fate.end ≡ End.Memory → RefusedMemory (judged_lines fate.rules fate.text) old new }
{}

/// The handled lines of a stream (`good`) are the longest prefix of its lines in which no invalid
/// line is an end. The ending of the stream is that of the line after them. Both hold under all
/// rules.
pub fn good_lines_are_the_longest(stream: &[u8])
    ensures are { (rules : Rules) → AreGood rules stream.now (good rules stream.now) }
    ensures only { (rules : Rules) (ls : List Line) → AreGood rules stream.now ls → ls ≡ good rules stream.now }
    ensures ending { (rules : Rules) (rest : List Line) → lines stream.now ≡ good rules stream.now ++ rest
        → EndsAfter rules (good rules stream.now) rest (ending rules stream.now) }
{
    let _ = stream;
}

/// If reading goes on after invalid lines, all lines are handled, unless the first one is invalid.
/// Then none is handled.
pub fn good_lines_are_all_or_none()
    ensures all { (rules : Rules) (r : List ℕ) → rules.options.keep_going ≡ true
        → refusal_in rules (take 1 (lines r)) ≡ None
        → good rules r ≡ lines r }
    ensures none { (rules : Rules) (r : List ℕ) (e : End) → refusal_in rules (take 1 (lines r)) ≡ Some e
        → good rules r ≡ [] }
{}

/// If the first invalid line is the end, no handled line is invalid, so nothing is reported. The
/// peaks of a complete stream are then known exactly, as each later line is blank or spells a tree.
pub fn first_invalid_line_is_the_end()
    ensures unreported { (rules : Rules) (r : List ℕ) → rules.options.keep_going ≡ false → reported rules r ≡ [] }
    ensures unreported_first { (rules : Rules) (r : List ℕ) (n : ℕ) → rules.options.keep_going ≡ false
        → refusal_in rules (take n (lines r)) ≡ None → reported_first rules n r ≡ [] }
    ensures peaks { (rules : Rules) (r : List ℕ) (peaks : Peaks) → rules.options.keep_going ≡ false
        → ending rules r ≡ End.Complete → IsExact rules.limits r peaks → peaks ≡ exact_peaks rules.limits r }
{}

/// A stream can be read in two parts. The first is the header with some whole lines. The second is
/// the header with what follows them, which may be any bytes. If the first part is complete:
///
/// - The judged lines of the stream are those of the first part, followed by those of the second
///   part without its header. So what is kept, written and reported of the stream is that of the
///   first part, followed by that of the second part without its header.
/// - The number of a line in the second part is greater by the number of later lines in the first
///   part. The ending is that of the second part, with its line moved in this way.
/// - The handled lines, the kept features and the reported lines add up, with the header counted
///   once.
///
/// For any endings, each peak is the greater one of both parts. The first part may itself be joined
/// from two, so the law holds for any number of parts.
pub fn parts_are_joined()
    ensures judged { (rules : Rules) (h a b : List ℕ) → IsCut h a → ending rules (headed h a) ≡ End.Complete
        → judged_lines rules (headed h (a ++ b)) ≡ judged_lines rules (headed h a)
        ++ map (moved_line (length (lines a))) (later_of (judged_lines rules (headed h b))) }
    ensures kept { (rules : Rules) (h a b : List ℕ) → IsCut h a → ending rules (headed h a) ≡ End.Complete
        → kept rules (headed h (a ++ b)) ≡ kept rules (headed h a) ++ later_of (kept rules (headed h b)) }
    ensures output { (rules : Rules) (h a b : List ℕ) → IsCut h a → ending rules (headed h a) ≡ End.Complete
        → (rest : List ℕ) × (output rules (headed h b) ≡ headed h rest)
        × (output rules (headed h (a ++ b)) ≡ output rules (headed h a) ++ rest) }
    ensures ending { (rules : Rules) (h a b : List ℕ) → IsCut h a → ending rules (headed h a) ≡ End.Complete
        → ending rules (headed h (a ++ b)) ≡ moved_end (length (lines a)) (ending rules (headed h b)) }
    ensures reported { (rules : Rules) (h a b : List ℕ) → IsCut h a → ending rules (headed h a) ≡ End.Complete
        → reported rules (headed h (a ++ b))
        ≡ reported rules (headed h a) ++ map (moved_report (length (lines a))) (reported rules (headed h b)) }
    ensures lines { (rules : Rules) (h a b : List ℕ) → IsCut h a → ending rules (headed h a) ≡ End.Complete
        → length (good rules (headed h (a ++ b))) + 1
        ≡ length (good rules (headed h a)) + length (good rules (headed h b)) }
    ensures features { (rules : Rules) (h a b : List ℕ) → IsCut h a → ending rules (headed h a) ≡ End.Complete
        → length (filter is_feature (kept rules (headed h (a ++ b))))
        ≡ length (filter is_feature (kept rules (headed h a))) + length (filter is_feature (kept rules (headed h b))) }
    ensures refused { (rules : Rules) (h a b : List ℕ) → IsCut h a → ending rules (headed h a) ≡ End.Complete
        → length (reported rules (headed h (a ++ b)))
        ≡ length (reported rules (headed h a)) + length (reported rules (headed h b)) }
    ensures peaks { (limits : LimitPair) (h a b : List ℕ) → IsCut h a
        → exact_peaks limits (headed h (a ++ b))
        ≡ greater_peaks (exact_peaks limits (headed h a)) (exact_peaks limits (headed h b)) }
    ensures tally { (rules : Rules) (h a b : List ℕ) (first second both : Tally) → IsCut h a
        → ending rules (headed h a) ≡ End.Complete → IsTallyOf (kept rules (headed h a)) first
        → IsTallyOf (kept rules (headed h b)) second → JoinsTallies first second both
        → IsTallyOf (kept rules (headed h (a ++ b))) both }
{}

/// If a header is complete with each of any number of parts, it is complete with all their lines.
/// What is kept is the header, and then what is kept of each part after the header. What is written
/// is the header's line, and then what is written of each part without that line. A last part may
/// end in any way: add it by [`parts_are_joined`].
pub fn complete_parts_are_joined()
    ensures complete { (rules : Rules) (h : List ℕ) (parts : List (List ℕ)) → IsCut h []
        → ending rules (headed h []) ≡ End.Complete → AreComplete rules h parts
        → IsCut h (joined parts) × (ending rules (headed h (joined parts)) ≡ End.Complete) }
    ensures kept { (rules : Rules) (h : List ℕ) (parts : List (List ℕ)) → IsCut h []
        → ending rules (headed h []) ≡ End.Complete → AreComplete rules h parts
        → kept rules (headed h (joined parts))
        ≡ kept rules (headed h []) ++ flat_map (λ a. later_of (kept rules (headed h a))) parts }
    ensures output { (rules : Rules) (h : List ℕ) (parts : List (List ℕ)) → IsCut h []
        → ending rules (headed h []) ≡ End.Complete → AreComplete rules h parts
        → output rules (headed h (joined parts))
        ≡ headed h (flat_map (λ a. drop (length h + 1) (output rules (headed h a))) parts) }
{}

/// If the first part is not complete, its ending is that of the stream, and what follows changes
/// nothing.
pub fn refused_parts_are_the_end()
    ensures ending { (rules : Rules) (h a b : List ℕ) → IsCut h a → ending rules (headed h a) ≢ End.Complete
        → ending rules (headed h (a ++ b)) ≡ ending rules (headed h a) }
    ensures good { (rules : Rules) (h a b : List ℕ) → IsCut h a → ending rules (headed h a) ≢ End.Complete
        → good rules (headed h (a ++ b)) ≡ good rules (headed h a) }
    ensures kept { (rules : Rules) (h a b : List ℕ) → IsCut h a → ending rules (headed h a) ≢ End.Complete
        → kept rules (headed h (a ++ b)) ≡ kept rules (headed h a) }
    ensures output { (rules : Rules) (h a b : List ℕ) → IsCut h a → ending rules (headed h a) ≢ End.Complete
        → output rules (headed h (a ++ b)) ≡ output rules (headed h a) }
    ensures reported { (rules : Rules) (h a b : List ℕ) → IsCut h a → ending rules (headed h a) ≢ End.Complete
        → reported rules (headed h (a ++ b)) ≡ reported rules (headed h a) }
{}

/// Lines that are not kept can be left out of a complete stream. The rest is complete, and the same
/// is kept and written of it.
///
/// So a filter may read the header and only some later lines, in their order. If they include all
/// kept ones, it writes what a filter over the whole stream writes.
pub fn lines_left_out_change_nothing()
    ensures ending { (rules : Rules) (h a b : List ℕ) (xs : List (Line × Bool)) → NoLf h → lines a ≡ all_lines xs
        → lines b ≡ staying xs → LeavesKept rules (ended_line h) xs → ending rules (headed h a) ≡ End.Complete
        → ending rules (headed h b) ≡ End.Complete }
    ensures kept { (rules : Rules) (h a b : List ℕ) (xs : List (Line × Bool)) → NoLf h → lines a ≡ all_lines xs
        → lines b ≡ staying xs → LeavesKept rules (ended_line h) xs → ending rules (headed h a) ≡ End.Complete
        → kept rules (headed h b) ≡ kept rules (headed h a) }
    ensures output { (rules : Rules) (h a b : List ℕ) (xs : List (Line × Bool)) → NoLf h → lines a ≡ all_lines xs
        → lines b ≡ staying xs → LeavesKept rules (ended_line h) xs → ending rules (headed h a) ≡ End.Complete
        → output rules (headed h b) ≡ output rules (headed h a) }
{}

/// What is kept of the handled lines is what is kept of all lines, and the same is true of what is
/// reported.
pub fn good_lines_are_kept()
    ensures kept { (rules : Rules) (r : List ℕ) (n : ℕ) → n ≡ length (good rules r)
        → kept_first rules n r ≡ kept rules r }
    ensures reported { (rules : Rules) (r : List ℕ) (n : ℕ) → n ≡ length (good rules r)
        → reported_first rules n r ≡ reported rules r }
{}

/// A `CountSink` that starts at zero counts what it takes: in a run, given its end, and of pieces.
pub fn puts_are_counted()
    ensures runs { (r : Stream) (e : End) (c : CountSink)
        → Puts (never_fails CountsItem) r e no_counts c → CountsRun r e c }
    ensures pieces { (cut : InPieces) (e : End) (c : CountSink)
        → PutsPieces (never_fails CountsItem) cut e no_counts c → CountsPieces cut e c }
{}

/// A `CountReports` that starts at zero counts what it notes: of the first lines of a stream, in a
/// run, given its end, and of pieces.
pub fn reports_are_counted()
    ensures lines { (rules : Rules) (q : List ℕ) (n : ℕ) (c : CountReports)
        → Notes CountsReport (stretch rules q 0 n) no_reports c → c ≡ count_of (reported_first rules n q) }
    ensures runs { (r : Stream) (e : End) (c : CountReports)
        → NotesRun CountsReport r e no_reports c → CountsReportsOfRun r e c }
    ensures pieces { (cut : InPieces) (e : End) (c : CountReports)
        → NotesPieces CountsReport cut e no_reports c → CountsReportsOfPieces cut e c }
{}

/// A `TallySink` that starts empty tallies what it takes: in a run, given its end, and of pieces.
pub fn puts_are_tallied()
    ensures runs { (r : Stream) (e : End) (start t : Tally) → start ≡ no_tally
        → Puts (never_fails Tallies) r e start t → TalliesRun r e t }
    ensures pieces { (cut : InPieces) (e : End) (start t : Tally) → start ≡ no_tally
        → PutsPieces (never_fails Tallies) cut e start t → TalliesPieces cut e t }
{}

/// An `Output` writes what it takes: in a run, given its end and the lines that were handled,
/// and of pieces. The headline holds for a run, with the causes of a write fault and of refused
/// memory.
pub fn puts_are_written<W: Write + Drop, N: ReportSink>()
    ensures runs { (r : Stream) (e : End) (a b : Output W) → Puts (output_law W.contents) r e a b
        → Writes r e (W.contents (output_writer a)) (W.contents (output_writer b)) }
    ensures lines { (run : Run) (left : Option (List ℕ)) (a b : Output W)
        → Runs (output_law W.contents) run (IsAtEnd left) a b
        → (run.outcome.ended ≡ End.Memory → run.outcome.lines ≡ 0)
        → WritesLines (up_to run.rules run.read run.outcome.lines) run.outcome.ended (W.contents (output_writer a))
        (W.contents (output_writer b)) }
    ensures headline { (run : Run) (left : Option (List ℕ)) (a b : Output W) (n m : N)
        → Runs (output_law W.contents) run (IsAtEnd left) a b
        → RunsNoting N.notes run n m
        → (run.outcome.ended ≡ End.Memory → LacksRoom run (Unit {0}))
        → (run.outcome.ended ≡ End.WriteFault → HasRisen (output_failures a) (output_failures b))
        → HeadlineOfRun N.notes run (IsAtEnd left) (outputs (channel W.contents a) n)
        (outputs (channel W.contents b) m) }
    ensures pieces { (cut : InPieces) (e : End) (a b : Output W) → PutsPieces (output_law W.contents) cut e a b
        → Copies cut e (W.contents (output_writer a)) (W.contents (output_writer b)) }
{}

/// The reports of a run are the list of what is reported of the lines that it handled. A sink
/// that collects reports has this list. If the lines go to an `Output`, the headline holds with it.
pub fn reports_are_collected<W: Write + Drop>()
    ensures runs { (run : Run) (left : Option (List ℕ)) → Account run (IsAtEnd left)
        → (run.outcome.ended ≡ End.Memory → run.outcome.lines ≡ 0)
        → RunsNoting Collects run [] (reported_first run.rules run.outcome.lines run.read) }
    ensures headline { (run : Run) (left : Option (List ℕ)) (a b : Output W)
        → Runs (output_law W.contents) run (IsAtEnd left) a b
        → (run.outcome.ended ≡ End.Memory → LacksRoom run (Unit {0}))
        → (run.outcome.ended ≡ End.WriteFault → HasRisen (output_failures a) (output_failures b))
        → HeadlineOfRun Collects run (IsAtEnd left) (outputs (channel W.contents a) []) (outputs (channel W.contents b)
        (reported_first run.rules run.outcome.lines run.read)) }
{}

/// The end of a reader of lines, seen as an end of the stream, is never `End::Memory`.
pub fn lines_are_never_refused_memory()
    ensures { (e : LineEnd) → line_end e ≢ End.Memory }
{}
