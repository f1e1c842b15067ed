//! What the program writes about an end and an invalid line: a line on standard error, and the exit
//! status.
ghost use Rattle.std.specs.Prelude.{◌≡◌, OnOk, OnErr, map, ◌∷◌, [], codes, decimal};
ghost use Rattle.std.specs.Io.KnownBytes.{Appends};
ghost use Rattle.cj_stream.specs.Lines.{joined};
ghost use Rattle.cj_stream.specs.Sink.{AppendsPart, RisesOnErr};
ghost use Rattle.cj_stream.specs.Output.{channel, output_writer, output_failures};
ghost use Rattle.cityseq_command.specs.FaultLines.{Wrote, WroteAfter, fault_line, limit_line, query_line, shown_end};
ghost use Rattle.cityseq_command.specs.FaultLines.{status_of, status_after as due_after, status_of_query};

use cj_budget::LimitFault;
use cj_spans::Reason;
use cj_stream::{End, Output, QueryFault, WriteFault};
use itoa::Buffer;
use std::io::Write;

/// The exit status of a wrong command line. All others are those of an end: [`status_after`].
pub const WRONG_WORDS: u8 = 2;

/// What was written about a run: its end, and whether standard error took the line about it.
#[derive(Clone, Copy, Debug, PartialEq, Eq)]
pub struct Shown {
    /// The run's end, or a write fault if the flush after the run failed.
    pub end: End,
    /// Whether the line about the end was written, and everything before it.
    pub line: Result<(), WriteFault>,
}

/// Returns the exit status for an end.
pub fn status(end: End) -> u8
    ensures { result ≡ status_of end }
{
    match end {
        End::Complete => 0,
        End::Refused { .. } => 1,
        End::ReadFault | End::ReadLimit => 3,
        End::WriteFault => 4,
        End::Memory => 5,
    }
}

/// Returns the exit status after a run. `refused` is the number of invalid lines after which
/// reading went on. If there is one, the status is no success.
pub fn status_after(refused: u64, end: End) -> u8
    ensures { result ≡ due_after refused end }
{
    match end {
        End::Complete if refused > 0 => 1,
        end => status(end),
    }
}

/// Returns the exit status for an invalid query.
pub fn query_status(fault: QueryFault) -> u8
    ensures { result ≡ status_of_query fault }
{
    match fault {
        QueryFault::Memory => status(End::Memory),
        QueryFault::UnknownTypeName
        | QueryFault::BadBox
        | QueryFault::BoxRange
        | QueryFault::EmptyBox => WRONG_WORDS,
    }
}

/// Returns the end of a run, given the result of the flush after it.
fn end_after(flushed: Result<(), WriteFault>, ended: End) -> End
    ensures { result ≡ shown_end flushed ended }
{
    match flushed {
        Ok(()) => ended,
        Err(WriteFault) => End::WriteFault,
    }
}

/// Writes a text.
pub fn write_text<W: Write + Drop>(out: &mut Output<W>, text: &str) -> Result<(), WriteFault>
    ensures { Wrote text.now result (channel W.contents out.old) (channel W.contents out.new) }
{
    out.write_whole(text.as_bytes())
}

/// Writes texts one after another.
pub fn write_texts<W: Write + Drop>(out: &mut Output<W>, texts: &[&str]) -> Result<(), WriteFault>
    ensures { Wrote (joined (map (λ text. text.now) texts.now)) result
        (channel W.contents out.old) (channel W.contents out.new) }
{
    for text in texts {
        write_text(out, text)?;
    }
    Ok(())
}

/// Writes the report of an invalid line.
pub fn write_refusal<E: Write + Drop>(
    err: &mut Output<E>,
    line: u64,
    place: u64,
    reason: Reason,
) -> Result<(), WriteFault>
    ensures { Wrote (fault_line (End.Refused line place reason)) result
        (channel E.contents err.old) (channel E.contents err.new) }
{
    let mut line_digits = Buffer::new();
    let mut place_digits = Buffer::new();
    let mut code_digits = Buffer::new();
    let texts = [
        "line ",
        line_digits.format(line),
        ", byte ",
        place_digits.format(place),
        ": ",
        code_digits.format(reason.code()),
        " ",
        reason.text(),
        "\n",
    ];
    write_texts(err, &texts)
}

/// Writes the line about an end to standard error. A complete run has none.
pub fn write_fault_line<E: Write + Drop>(err: &mut Output<E>, end: End) -> Result<(), WriteFault>
    ensures { Wrote (fault_line end) result (channel E.contents err.old) (channel E.contents err.new) }
{
    match end {
        End::Complete => Ok(()),
        End::Refused {
            line,
            place,
            reason,
        } => write_refusal(err, line, place, reason),
        End::ReadFault => write_text(err, "read fault\n"),
        End::ReadLimit => write_text(err, "read limit\n"),
        End::WriteFault => write_text(err, "write fault\n"),
        End::Memory => write_text(err, "out of memory\n"),
    }
}

/// Writes the line about an invalid query to standard error.
pub fn write_query_fault<E: Write + Drop>(
    err: &mut Output<E>,
    fault: QueryFault,
) -> Result<(), WriteFault>
    ensures { Wrote (query_line fault) result (channel E.contents err.old) (channel E.contents err.new) }
{
    match fault {
        QueryFault::Memory => write_fault_line(err, End::Memory),
        QueryFault::UnknownTypeName => write_text(err, "unknown object type\n"),
        QueryFault::BadBox => write_text(err, "bad box\n"),
        QueryFault::BoxRange => write_text(err, "box number out of range\n"),
        QueryFault::EmptyBox => write_text(err, "empty box\n"),
    }
}

/// Writes the line about a limit out of its range to standard error.
pub fn write_limit_fault<E: Write + Drop>(
    err: &mut Output<E>,
    fault: LimitFault,
) -> Result<(), WriteFault>
    ensures { Wrote (limit_line fault) result (channel E.contents err.old) (channel E.contents err.new) }
{
    match fault {
        LimitFault::LineLimit => write_text(err, "the line limit is out of range\n"),
        LimitFault::DepthLimit => write_text(err, "the depth limit is out of range\n"),
    }
}

/// Writes to standard error how a run ended. `flushed` is the result of the flush after it. Only
/// the result shows a failed write to standard error.
pub fn show<E: Write + Drop>(
    flushed: Result<(), WriteFault>,
    ended: End,
    err: &mut Output<E>,
) -> Shown
    ensures end { result.end ≡ shown_end flushed ended }
    ensures whole { OnOk result.line
        (Appends (E.contents (output_writer err.old)) (E.contents (output_writer err.new)) (fault_line result.end)) }
    ensures front { OnErr result.line
        (AppendsPart (E.contents (output_writer err.old)) (E.contents (output_writer err.new))
        (fault_line result.end)) }
    ensures failures { RisesOnErr result.line (output_failures err.old) (output_failures err.new) }
{
    let end = end_after(flushed, ended);
    Shown {
        end,
        line: write_fault_line(err, end),
    }
}

/// Writes to standard error how a run ended, as [`show`] does. `reported` is the result of writing
/// the reports: after a failed write it writes nothing more.
pub fn show_after<E: Write + Drop>(
    reported: Result<(), WriteFault>,
    flushed: Result<(), WriteFault>,
    ended: End,
    err: &mut Output<E>,
) -> Shown
    ensures end { result.end ≡ shown_end flushed ended }
    ensures line { WroteAfter reported (fault_line result.end) result.line (channel E.contents err.old)
        (channel E.contents err.new) }
{
    match reported {
        Ok(()) => show(flushed, ended, err),
        Err(WriteFault) => Shown {
            end: end_after(flushed, ended),
            line: Err(WriteFault),
        },
    }
}
