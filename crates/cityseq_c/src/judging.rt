//! Judges a header and a part as one stream.
ghost use Rattle.std.specs.Prelude.{◌≡◌, ◌↔◌, ◌+◌, ◌++◌, ◌≤◌, ◌^◌, IsTrue, IfOk, IfErr, OnErr, OnOk, length};
ghost use Rattle.cj_stream.specs.Engine.{IsFresh, rules_of};
ghost use Rattle.cj_stream.specs.Sink.{HasRisen};
ghost use Rattle.cj_stream.specs.Meaning.Rules.{Rules};
ghost use Rattle.cj_stream.specs.Verdict.{stream_of};
ghost use Rattle.cityseq_c.specs.Judged.{Judged, lent};
ghost use Rattle.cityseq_c.specs.Query.{DeclinesCall};
ghost use Rattle.cityseq_c.specs.Request.{AreCut, IsAsked, IsFit, needed_limits, options_of};

use crate::finder::Finder;
use crate::memory::needed_line;
use crate::query::query_of;
use crate::report_slice::{CReport, Noted};
use crate::request::{Fault, NotJudged, Request};
use cj_stream::{End, Engine, LimitFault, Limits, LineSink, NoMemory, Outcome, laws, put_pieces};
use memchr::memchr;
use std::alloc::Global;

/// The most bytes of a header and a part together.
const MOST_BYTES: usize = 1_152_921_504_606_846_976;

const _: () = prove!(MOST_BYTES == 1 << 60);

/// Returns whether the header is one line with its LF. It may lack the LF if the part is empty.
pub fn are_cut(header: &[u8], part: &[u8]) -> bool
    ensures { IsTrue result ↔ AreCut header.now part.now }
{
    match memchr(b'\n', header) {
        Some(place) => place + 1 == header.len(),
        None => part.is_empty(),
    }
}

/// Returns the limits of a request, if these and the pieces of the stream are fit for a run.
///
/// # Errors
///
/// The first of these:
///
/// - `LineLimit` or `DepthLimit` if that limit is out of range.
/// - `TooLong` if the header and the part have more than 2^60 bytes.
/// - `NoLine` if they are not cut after the first line ([`are_cut`]).
fn limits_of(header: &[u8], part: &[u8], request: &Request<'_>) -> Result<Limits, NotJudged>
    ensures ok { IfOk result (λ limits. IsFit request.now header.now part.now
        × (limits ≡ record { line = request.now.line_limit; depth = request.now.depth_limit })) }
    ensures declined { IfErr result (DeclinesCall request.now header.now part.now) }
{
    let limits = match Limits::new(request.line_limit, request.depth_limit) {
        Ok(limits) => limits,
        Err(LimitFault::LineLimit) => return Err(NotJudged::Fault(Fault::LineLimit)),
        Err(LimitFault::DepthLimit) => return Err(NotJudged::Fault(Fault::DepthLimit)),
    };
    if header.len() > MOST_BYTES || part.len() > MOST_BYTES - header.len() {
        return Err(NotJudged::Fault(Fault::TooLong));
    }
    if !are_cut(header, part) {
        return Err(NotJudged::Fault(Fault::NoLine));
    }
    Ok(limits)
}

/// Returns the limits that an engine needs for these pieces. No line is longer than the longer
/// piece. So a higher line limit would only take more memory.
fn limits_needed(asked: Limits, header: &[u8], part: &[u8]) -> Limits
    ensures { result ≡ needed_limits asked header.now part.now }
{
    let line = needed_line(asked.line(), header.len(), part.len());
    Limits::new(line, asked.depth()).unwrap_or(asked)
}

/// Judges a header and a part, which are one stream, with a new engine.
///
/// # Errors
///
/// `Memory` if no memory was granted. Then the sink and `reports` are as they were.
fn judge_stream<S: LineSink>(
    engine: &mut Engine<'_>,
    header: &[u8],
    part: &[u8],
    sink: &mut S,
    reports: &mut [CReport],
) -> Result<Outcome, NotJudged>
    requires fresh { IsFresh engine.old }
    requires cut { AreCut header.now part.now }
    requires short { length header.now + length part.now ≤ 2 ^ 60 }
    ensures ok { IfOk result (λ outcome. Judged S.law (stream_of (rules_of engine.old) (header.now ++ part.now)) outcome
        (lent sink.old reports.old) (lent sink.new reports.new)) }
    ensures cause { IfOk result (λ outcome. outcome.ended ≡ End.WriteFault
        → HasRisen (S.law.failures sink.old) (S.law.failures sink.new)) }
    ensures memory { IfErr result (λ why. why ≡ NotJudged.Memory) }
    ensures unread { OnErr result ((sink.new ≡ sink.old) × (reports.new ≡ reports.old)) }
{
    laws::good_lines_are_kept();
    let mut noted = Noted::new(Finder::new(header, part), reports);
    let outcome = put_pieces(engine, &[header, part], sink, &mut noted);
    if let End::Memory = outcome.ended {
        return Err(NotJudged::Memory);
    }
    Ok(Outcome::of(engine, outcome.ended))
}

/// Judges a header and a part, which are one stream, as a request asks. It puts the header and the
/// kept features to the sink. It writes the first reports to `reports`, as many as fit.
///
/// It takes the arguments of the functions for C one by one, and a sink.
///
/// # Errors
///
/// `Fault` if the request is wrong, and `Memory` if no memory was granted. Then the sink and
/// `reports` are as they were.
pub fn judge<S: LineSink>(
    alloc: Global,
    header: &[u8],
    part: &[u8],
    request: &Request<'_>,
    sink: &mut S,
    reports: &mut [CReport],
) -> Result<Outcome, NotJudged>
    ensures ok { IfOk result (λ outcome. (rules : Rules) × IsAsked request.now rules
        × Judged S.law (stream_of rules (header.now ++ part.now)) outcome (lent sink.old reports.old)
        (lent sink.new reports.new)) }
    ensures fit { OnOk result (IsFit request.now header.now part.now) }
    ensures cause { IfOk result (λ outcome. outcome.ended ≡ End.WriteFault
        → HasRisen (S.law.failures sink.old) (S.law.failures sink.new)) }
    ensures declined { IfErr result (DeclinesCall request.now header.now part.now) }
    ensures unread { OnErr result ((sink.new ≡ sink.old) × (reports.new ≡ reports.old)) }
{
    let limits = limits_of(header, part, request)?;
    let query = query_of(alloc, request)?;
    let needed = limits_needed(limits, header, part);
    let mut engine = match Engine::open(alloc, needed, &query, request.options()) {
        Ok(engine) => engine,
        Err(NoMemory) => return Err(NotJudged::Memory),
    };
    judge_stream(&mut engine, header, part, sink, reports)
}
