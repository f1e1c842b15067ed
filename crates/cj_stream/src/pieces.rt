//! Streams that come in pieces: the theorem about the whole, for any cut.
//!
//! What is held does not depend on the cut, as each line is put together in the engine's own list.
ghost use Rattle.std.specs.Prelude.{◌≡◌, ◌+◌, ◌≤◌, ◌^◌, [], Some, length, map, take};
ghost use Rattle.std.specs.List.{concat};
ghost use Rattle.cj_stream.specs.Lines.{joined};
ghost use Rattle.cj_stream.specs.Cut.{Copies, PutsPieces, TookWhole, Fed, in_pieces, given_after};
ghost use Rattle.cj_stream.specs.Engine.{Delivers, HasFailedToGrow, IsFresh, rules_of, lines_of};
ghost use Rattle.cj_stream.specs.Meaning.Headline.{Headline, IsUnhindered};
ghost use Rattle.cj_stream.specs.Run.{CountsAll, Ends, outcome_of};
ghost use Rattle.cj_stream.specs.Output.{outputs, output_writer, channel, output_law};
ghost use Rattle.cj_stream.specs.ReportSink.{Notes, NotesPieces};
ghost use Rattle.cj_stream.specs.Sink.{HasRisen};
ghost use Rattle.cj_stream.specs.Verdict.{stretch};

use crate::ending::End;
use crate::engine::Engine;
use crate::output::Output;
use crate::report_sink::ReportSink;
use crate::sink::LineSink;
use cj_budget::Peaks;
use std::io::Write;

/// The outcome of giving pieces to an engine.
#[derive(Clone, Copy, Debug, PartialEq, Eq)]
pub struct PiecesOutcome {
    /// How many pieces were taken whole. If a line was the end, the next piece, if there is one,
    /// made it so.
    pub taken: usize,
    /// The most that was held.
    pub peaks: Peaks,
    /// How it ended.
    pub ended: End,
}

/// Feeds all pieces and then the end, until the engine ends.
fn feed_all<S: LineSink, N: ReportSink>(
    engine: &mut Engine,
    pieces: &[&[u8]],
    sink: &mut S,
    reports: &mut N,
) -> PiecesOutcome
    requires fresh { IsFresh engine.old }
    requires short { length (joined (map (λ piece. piece.now) pieces.now)) ≤ 2 ^ 60 }
    ensures fed { Fed (rules_of engine.old) [] (map (λ piece. piece.now) pieces.now) result engine.new }
    ensures ends { let given = joined (take (result.taken + 1) (map (λ piece. piece.now) pieces.now)) in
        Ends (rules_of engine.old) given (lines_of engine.new) (given ≡ joined (map (λ piece. piece.now) pieces.now))
        result.ended }
    ensures taken { TookWhole S.law (given_after [] 0 (in_pieces (rules_of engine.old)
        (map (λ piece. piece.now) pieces.now) result.taken) (lines_of engine.new)) sink.old sink.new result.ended }
    ensures reports { Notes N.notes (stretch (rules_of engine.old)
        (joined (take (result.taken + 1) (map (λ piece. piece.now) pieces.now))) 0 (lines_of engine.new))
        reports.old reports.new }
    ensures cause { result.ended ≡ End.WriteFault → HasRisen (S.law.failures sink.old) (S.law.failures sink.new) }
    ensures growth { result.ended ≡ End.Memory → HasFailedToGrow engine.new }
{
    for (taken, piece) in pieces.iter().enumerate() {
        if let Err(ended) = engine.feed(piece, sink, reports) {
            return PiecesOutcome {
                taken,
                peaks: engine.peaks(),
                ended,
            };
        }
    }
    let ended = engine.finish(sink, reports);
    PiecesOutcome {
        taken: pieces.len(),
        peaks: engine.peaks(),
        ended,
    }
}

/// Gives all pieces of a stream and then its end to an engine, until the engine ends. The engine
/// must have been given nothing before.
///
/// However the stream is cut, the sink takes all that is kept of it, in order. The end is the
/// ending of the stream. This holds unless a step of the sink fails or memory is refused.
///
/// Otherwise the sink took a prefix of what is kept of the given pieces. The prefix has all that is
/// kept of the whole lines in the pieces that were taken whole. The sink of reports notes what is
/// reported, to the same extent.
///
/// Without a fault the engine's counts are those of the whole stream. After any end, the counts and
/// both sinks are those of the first lines of the stream, as many as the engine counts.
pub fn put_pieces<S: LineSink, N: ReportSink>(
    engine: &mut Engine,
    pieces: &[&[u8]],
    sink: &mut S,
    reports: &mut N,
) -> PiecesOutcome
    requires fresh { IsFresh engine.old }
    requires short { length (joined (map (λ piece. piece.now) pieces.now)) ≤ 2 ^ 60 }
    ensures fed { Fed (rules_of engine.old) [] (map (λ piece. piece.now) pieces.now) result engine.new }
    ensures puts { PutsPieces S.law (in_pieces (rules_of engine.old) (map (λ piece. piece.now) pieces.now) result.taken)
        result.ended sink.old sink.new }
    ensures notes { NotesPieces N.notes (in_pieces (rules_of engine.old) (map (λ piece. piece.now) pieces.now)
        result.taken) result.ended reports.old reports.new }
    ensures sink { Delivers S.law (stretch (rules_of engine.old)
        (joined (take (result.taken + 1) (map (λ piece. piece.now) pieces.now))) 0 (lines_of engine.new))
        sink.old sink.new (Some result.ended) }
    ensures reports { Notes N.notes (stretch (rules_of engine.old)
        (joined (take (result.taken + 1) (map (λ piece. piece.now) pieces.now))) 0 (lines_of engine.new))
        reports.old reports.new }
    ensures counts { IsUnhindered result.ended → CountsAll (rules_of engine.old)
        (joined (map (λ piece. piece.now) pieces.now)) (outcome_of engine.new result.ended) }
    ensures cause { result.ended ≡ End.WriteFault → HasRisen (S.law.failures sink.old) (S.law.failures sink.new) }
    ensures memory { result.ended ≡ End.Memory → (lines_of engine.new ≡ 0) × (sink.new ≡ sink.old)
        × (reports.new ≡ reports.old) }
    ensures growth { result.ended ≡ End.Memory → HasFailedToGrow engine.new }
{
    feed_all(engine, pieces, sink, reports)
}

/// The headline: what the engine does with every stream, however it is cut, for all limits, queries
/// and options.
///
/// L is the limit on the bytes of a line, D the limit on depth, and h the length of the first line,
/// cut at L.
///
/// 1. The engine writes exactly the header and the kept features, byte for byte, in order. By
///    default these are the ones before the first invalid line. If reading goes on after invalid
///    lines, and the header is valid, these are all of them.
/// 2. It gives each invalid line that it meets, with number, byte and reason. The end gives the
///    line, or a report does if reading goes on after it.
/// 3. It never holds more than `h + L` bytes, `(h + L + D) / 2 + 1` tokens and D open containers.
///
/// The first two hold unless a write fails or memory is refused, for a writer whose contract says
/// which bytes it got. The third always holds. After a fault the writer has a prefix of the output
/// of the given pieces. The prefix has all output of the pieces that were taken whole.
///
/// If memory is refused, nothing was written or reported. The first line is then a valid header,
/// and a growth of the engine's lists for later lines has failed.
///
/// The engine comes from `Engine::open` with these limits, query and options, and has been given
/// nothing.
pub fn headline<W: Write + Drop, N: ReportSink>(
    engine: &mut Engine,
    pieces: &[&[u8]],
    sink: &mut Output<W>,
    reports: &mut N,
) -> PiecesOutcome
    requires fresh { IsFresh engine.old }
    requires short { length (concat (map (λ piece. piece.now) pieces.now)) ≤ 2 ^ 60 }
    ensures headline { let cut = map (λ piece. piece.now) pieces.now in
        Headline N.notes (record {
          rules = rules_of engine.old;
          text = concat cut;
          given = concat (take (result.taken + 1) cut);
          end = result.ended;
          peaks = result.peaks;
        })
        (outputs (channel W.contents sink.old) reports.old) (outputs (channel W.contents sink.new) reports.new) }
    ensures fed { Fed (rules_of engine.old) [] (map (λ piece. piece.now) pieces.now) result engine.new }
    ensures copies { Copies (in_pieces (rules_of engine.old) (map (λ piece. piece.now) pieces.now) result.taken)
        result.ended (W.contents (output_writer sink.old)) (W.contents (output_writer sink.new)) }
    ensures sink { Delivers (output_law W.contents) (stretch (rules_of engine.old)
        (joined (take (result.taken + 1) (map (λ piece. piece.now) pieces.now))) 0 (lines_of engine.new))
        sink.old sink.new (Some result.ended) }
    ensures reports { Notes N.notes (stretch (rules_of engine.old)
        (joined (take (result.taken + 1) (map (λ piece. piece.now) pieces.now))) 0 (lines_of engine.new))
        reports.old reports.new }
    ensures memory { result.ended ≡ End.Memory → (lines_of engine.new ≡ 0) × (sink.new ≡ sink.old)
        × (reports.new ≡ reports.old) }
    ensures growth { result.ended ≡ End.Memory → HasFailedToGrow engine.new }
{
    put_pieces(engine, pieces, sink, reports)
}
