//! A whole run, from a reader to a sink.
ghost use Rattle.std.specs.Prelude.{◌≡◌, ◌≢◌, ◌↔◌, ◌⊎◌, ◌≤◌, ◌<◌, ◌^◌, ℕ, List, length, false, IsTrue, IfSome};
ghost use Rattle.std.specs.Io.KnownBytes.{Consumes, IsAtEnd};
ghost use Rattle.cj_stream.specs.Sink.{HasRisen};
ghost use Rattle.cj_stream.specs.Engine.{IsFresh, rules_of, lines_of};
ghost use Rattle.cj_stream.specs.Query.{rules_for};
ghost use Rattle.cj_stream.specs.Run.{IsReadWithin, Runs, RunsNoting, StopsInTime, outcome_of};
ghost use Rattle.cj_stream.specs.Source.{source_reader, source_name, reads_of, has_failed};

mod source;

use crate::ending::End;
use crate::engine::Engine;
use crate::options::Options;
use crate::query::Query;
use crate::report_sink::ReportSink;
use crate::sink::LineSink;
use cj_budget::{Limits, NoMemory, Peaks};
use source::{ReadFault, Source};
use std::alloc::Global;
use std::io::Read;

/// The most reads of one run, and those of [`run`].
const MOST_READS: u64 = 1_099_511_627_776;

const _: () = prove!(MOST_READS == 1 << 40);

/// The most bytes of one read.
const PIECE_LENGTH: usize = 8_192;

/// How a run went.
#[derive(Clone, Copy, Debug, PartialEq, Eq)]
pub struct Outcome {
    /// The number of lines that were handled: the header, features, blank lines, and invalid
    /// lines after which reading went on.
    pub lines: u64,
    /// The number of features that the sink took.
    pub kept: u64,
    /// The number of invalid lines after which reading went on.
    pub refused: u64,
    /// The most that was held.
    pub peaks: Peaks,
    /// How it ended.
    pub ended: End,
}

impl Outcome {
    /// Returns the outcome of a run that left its engine like this and ended so.
    pub fn of(engine: &Engine, ended: End) -> Outcome
        ensures { result ≡ outcome_of engine.now ended }
    {
        Outcome {
            lines: engine.lines(),
            kept: engine.kept(),
            refused: engine.refused(),
            peaks: engine.peaks(),
            ended,
        }
    }

    /// Returns the outcome of a run whose allocation failed before the first read.
    fn without_memory() -> Outcome
        ensures { result
            ≡ record {
              lines = 0;
              kept = 0;
              refused = 0;
              peaks = record { bytes = 0; tokens = 0; depth = 0 };
              ended
                  = End.Memory;
            } }
    {
        Outcome {
            lines: 0,
            kept: 0,
            refused: 0,
            peaks: Peaks {
                bytes: 0,
                tokens: 0,
                depth: 0,
            },
            ended: End::Memory,
        }
    }
}

/// Feeds what the source gives, in pieces of at most the buffer's length, and finishes at its end.
/// The first failed read is the end. If no read gives an end, the last one is the end.
///
/// It takes the arguments of a run one by one, since it borrows each device.
fn drive<R: Read, S: LineSink, N: ReportSink>(
    engine: &mut Engine,
    buffer: &mut [u8],
    source: &mut Source<'_, R>,
    sink: &mut S,
    reports: &mut N,
    reads: u64,
) -> End
    requires piece { length buffer.old ≡ PIECE_LENGTH }
    requires few { reads ≤ MOST_READS }
    requires unread { reads_of source.old ≡ 0 }
    requires unfailed { has_failed source.old ≡ false }
    requires fresh { IsFresh engine.old }
    ensures rules { rules_of engine.new ≡ rules_of engine.old }
    ensures same_reference { source_name source.new ≡ source_name source.old }
    ensures runs { (r : List ℕ)
        × Consumes (R.remaining (source_reader source.old)) (R.remaining (source_reader source.new)) r
        × IsReadWithin reads r result
        × Runs S.law (record { rules = rules_of engine.old; read = r; outcome = outcome_of engine.new result })
        (IsAtEnd (R.remaining (source_reader source.new))) sink.old sink.new
        × RunsNoting N.notes
        (record { rules = rules_of engine.old; read = r; outcome = outcome_of engine.new result })
        reports.old reports.new
        × StopsInTime (record { rules = rules_of engine.old; read = r; outcome = outcome_of engine.new result }) ⊥ }
    ensures cause { result ≡ End.WriteFault → HasRisen (S.law.failures sink.old) (S.law.failures sink.new) }
    ensures none { reads ≡ 0 → (source_reader source.new ≡ source_reader source.old) × (sink.new ≡ sink.old)
        × (result ≡ End.ReadLimit) × (reports.new ≡ reports.old) }
    ensures reads { reads_of source.new ≤ reads }
    ensures limit { result ≡ End.ReadLimit → reads_of source.new ≡ reads }
    ensures failed { IsTrue (has_failed source.new) ↔ (result ≡ End.ReadFault) }
    ensures memory { result ≡ End.Memory → lines_of engine.new ≡ 0 }
{
    for _i in 0..reads {
        match source.read(buffer) {
            Err(ReadFault) => return End::ReadFault,
            Ok(0) => return engine.finish(sink, reports),
            Ok(n) => {
                if let Err(end) = engine.feed(&buffer[..n], sink, reports) {
                    return end;
                }
            }
        }
    }
    End::ReadLimit
}

/// Puts the kept lines of what the reader gives to the sink, until an end. If the options say so,
/// it reports an invalid line that is not the first, and reads on.
///
/// It makes at most 2^40 reads, as [`run_within`] says, and none after the read that gives the end.
/// Memory is refused before the sink has taken anything, or not at all.
pub fn run<R: Read, S: LineSink, N: ReportSink>(
    alloc: Global,
    reader: &mut R,
    sink: &mut S,
    reports: &mut N,
    limits: Limits,
    query: &Query,
    options: Options,
) -> Outcome
    ensures runs { (r : List ℕ) × Consumes (R.remaining reader.old) (R.remaining reader.new) r
        × IsReadWithin (2 ^ 40) r result.ended
        × Runs S.law (record { rules = rules_for limits query.now options; read = r; outcome = result })
        (IsAtEnd (R.remaining reader.new)) sink.old sink.new
        × RunsNoting N.notes (record { rules = rules_for limits query.now options; read = r; outcome = result })
        reports.old reports.new
        × StopsInTime (record { rules = rules_for limits query.now options; read = r; outcome = result })
        (reader.new ≡ reader.old) }
    ensures cause { result.ended ≡ End.WriteFault → HasRisen (S.law.failures sink.old) (S.law.failures sink.new) }
    ensures enough { IfSome (R.remaining reader.old) (λ bytes. length bytes < 2 ^ 40 → result.ended ≢ End.ReadLimit) }
    ensures memory { result.ended ≡ End.Memory → (result.lines ≡ 0) × (sink.new ≡ sink.old)
        × (reports.new ≡ reports.old) }
{
    run_within(
        alloc, reader, sink, reports, limits, query, options, MOST_READS,
    )
}

/// Does what [`run`] does, with at most `reads` reads of at most 8,192 bytes each.
///
/// The read that finds the end of the input counts, and so does a failed read. An end or a fault in
/// any read, also the last one, is the end. If no read gives one, the end is [`End::ReadLimit`].
/// The whole lines were then handled, and the line that had begun was not judged.
///
/// With no reads, the end is [`End::ReadLimit`] for every input, also an empty one, unless the
/// memory for the first line is refused. The reader and the sink stay unchanged. It is always
/// enough to allow one read more than the input has bytes, even if each read gives one byte.
pub fn run_within<R: Read, S: LineSink, N: ReportSink>(
    alloc: Global,
    reader: &mut R,
    sink: &mut S,
    reports: &mut N,
    limits: Limits,
    query: &Query,
    options: Options,
    reads: u64,
) -> Outcome
    requires few { reads ≤ 2 ^ 40 }
    ensures runs { (r : List ℕ) × Consumes (R.remaining reader.old) (R.remaining reader.new) r
        × IsReadWithin reads r result.ended
        × Runs S.law (record { rules = rules_for limits query.now options; read = r; outcome = result })
        (IsAtEnd (R.remaining reader.new)) sink.old sink.new
        × RunsNoting N.notes (record { rules = rules_for limits query.now options; read = r; outcome = result })
        reports.old reports.new
        × StopsInTime (record { rules = rules_for limits query.now options; read = r; outcome = result })
        (reader.new ≡ reader.old) }
    ensures cause { result.ended ≡ End.WriteFault → HasRisen (S.law.failures sink.old) (S.law.failures sink.new) }
    ensures enough { IfSome (R.remaining reader.old) (λ bytes. length bytes < reads → result.ended ≢ End.ReadLimit) }
    ensures none { reads ≡ 0 → (reader.new ≡ reader.old) × (sink.new ≡ sink.old) × (reports.new ≡ reports.old)
        × ((result.ended ≡ End.ReadLimit) ⊎ (result.ended ≡ End.Memory)) × (result.lines ≡ 0) × (result.kept ≡ 0) }
    ensures memory { result.ended ≡ End.Memory → (result.lines ≡ 0) × (sink.new ≡ sink.old)
        × (reports.new ≡ reports.old) }
{
    let mut engine = match Engine::open(alloc, limits, query, options) {
        Ok(engine) => engine,
        Err(NoMemory) => return Outcome::without_memory(),
    };
    let mut buffer = [0u8; PIECE_LENGTH];
    let mut source = Source::new(reader);
    let ended = drive(&mut engine, &mut buffer, &mut source, sink, reports, reads);
    Outcome::of(&engine, ended)
}
