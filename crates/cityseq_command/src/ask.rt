//! What the program can be asked to do, and how it does it.
ghost use Rattle.std.specs.Prelude.{◌≡◌, ℕ, List};
ghost use Rattle.std.specs.Io.KnownBytes.{Consumes, IsAtEnd};
ghost use Rattle.cj_stream.specs.Output.{channel};
ghost use Rattle.cityseq_command.specs.Performed.{sinks};
ghost use Rattle.cityseq_command.specs.Performed.{end_of_writing as end_after_writing, Does, Performs, TakesOptions, asked};

use crate::fault_lines::{show_after, status_after};
use crate::report_writer::WriteReports;
use crate::summary::{write_check, write_summary};
use cj_stream::{
    End, IgnoreSink, Limits, Options, Outcome, Output, Query, ReportSink, TallySink, WriteFault,
    laws, run,
};
use std::alloc::Global;
use std::io::{Read, Write};

/// What to do with the stream on standard input.
#[derive(Drop)]
pub enum Ask {
    /// Check whether it is valid under these limits, and count its lines and features.
    Check(Limits, Options),
    /// Copy the header and the features that the query and the options keep.
    Filter(Limits, Query, Options),
    /// Write a summary of it. There is no summary of an invalid stream, so `info` cannot go on
    /// after an invalid line.
    Info(Limits, Options),
}

/// Returns the end of a complete run after which a text of the program was written with this
/// result.
pub fn end_of_writing(written: Result<(), WriteFault>) -> End
    ensures { result ≡ end_after_writing written }
{
    match written {
        Ok(()) => End::Complete,
        Err(WriteFault) => End::WriteFault,
    }
}

/// Judges the stream. Unless a line or a fault ends it, writes how many lines and features it has.
/// Returns the outcome of the run, with the end to report.
///
/// It takes the arguments of a run one by one, since a run borrows each device.
fn check<R: Read, W: Write + Drop, N: ReportSink>(
    alloc: Global,
    limits: Limits,
    options: Options,
    reader: &mut R,
    out: &mut Output<W>,
    reports: &mut N,
) -> Outcome
    ensures { (r : List ℕ) × Consumes (R.remaining reader.old) (R.remaining reader.new) r
        × Does N.notes
        (asked (Ask.Check limits options) r (reader.new ≡ reader.old) (IsAtEnd (R.remaining reader.new))) result
        (sinks (channel W.contents out.old) reports.old) (sinks (channel W.contents out.new) reports.new) }
{
    let query = Query::all(alloc);
    let outcome = run(
        alloc,
        reader,
        &mut IgnoreSink,
        reports,
        limits,
        &query,
        options,
    );
    laws::good_lines_are_kept();
    laws::reports_are_collected::<W>();
    match outcome.ended {
        End::Complete => Outcome {
            ended: end_of_writing(write_check(out, outcome.lines, outcome.kept, outcome.refused)),
            ..outcome
        },
        _ => outcome,
    }
}

/// Tallies the stream, and writes its summary if it is valid. Returns the outcome of the run, with
/// the end to report.
///
/// It takes the arguments of a run one by one, as `check` does.
fn info<R: Read, W: Write + Drop, N: ReportSink>(
    alloc: Global,
    limits: Limits,
    options: Options,
    reader: &mut R,
    out: &mut Output<W>,
    reports: &mut N,
) -> Outcome
    requires { TakesOptions (Ask.Info limits options) }
    ensures { (r : List ℕ) × Consumes (R.remaining reader.old) (R.remaining reader.new) r
        × Does N.notes
        (asked (Ask.Info limits options) r (reader.new ≡ reader.old) (IsAtEnd (R.remaining reader.new))) result
        (sinks (channel W.contents out.old) reports.old) (sinks (channel W.contents out.new) reports.new) }
{
    let query = Query::all(alloc);
    let mut tally = TallySink::new();
    let outcome = run(alloc, reader, &mut tally, reports, limits, &query, options);
    laws::puts_are_tallied();
    laws::first_invalid_line_is_the_end();
    laws::reports_are_collected::<W>();
    match outcome.ended {
        End::Complete => Outcome {
            ended: end_of_writing(write_summary(out, outcome.lines, &tally, outcome.peaks)),
            ..outcome
        },
        _ => outcome,
    }
}

/// Does what is asked with the bytes of the reader, flushes `out`, and returns the exit status.
///
/// It reports on `err` each invalid line after which reading went on, and how the run ended. It
/// ignores a failed write to `err`, but then writes nothing more to it.
pub fn perform<R: Read, W: Write + Drop, E: Write + Drop>(
    alloc: Global,
    ask: &Ask,
    reader: &mut R,
    out: &mut Output<W>,
    err: &mut Output<E>,
) -> u8
    requires { TakesOptions ask.now }
    ensures { (r : List ℕ) × Consumes (R.remaining reader.old) (R.remaining reader.new) r
        × Performs (asked ask.now r (reader.new ≡ reader.old) (IsAtEnd (R.remaining reader.new))) result
        (record { out = channel W.contents out.old; err = channel E.contents err.old })
        (record { out = channel W.contents out.new; err = channel E.contents err.new }) }
{
    laws::first_invalid_line_is_the_end();
    laws::puts_are_written::<W, WriteReports<'_, E>>();
    laws::reports_are_collected::<W>();
    let mut reports = WriteReports::new(err);
    let outcome = match ask {
        Ask::Check(limits, options) => {
            check(alloc, *limits, *options, reader, out, &mut reports)
        }
        Ask::Filter(limits, query, options) => {
            run(alloc, reader, out, &mut reports, *limits, query, *options)
        }
        Ask::Info(limits, options) => info(alloc, *limits, *options, reader, out, &mut reports),
    };
    let reported = reports.written();
    let shown = show_after(reported, out.flush(), outcome.ended, err);
    status_after(outcome.refused, shown.end)
}
