//! The library for C: it checks, filters and tallies streams that lie in memory.
//!
//! A call takes a stream as two pieces: the header and a part. The header is the first line with
//! its LF. A part is the bytes after the header, all or some. `c/cityseq.h` declares the exports,
//! and has what a C programmer must know of them. `cityseq_c` has what they are made of.
//!
//! An export promises what the engine of `cj_stream` promises ([`cj_stream::put_pieces`]), for the
//! two slices as the pieces of one stream. No call keeps anything for the next, so any number of
//! threads may call at once.
#![tactic(auto)]

ghost use Rattle.std.specs.Prelude.{◌≡◌, ◌≢◌, ◌+◌, ◌-◌, ◌<◌, ◌^◌, ◌++◌, ℕ, List, Some, take, length};
ghost use Rattle.cj_stream.specs.Lines.{whole};
ghost use Rattle.cj_stream.specs.Parts.{headed, IsCut};
ghost use Rattle.cj_stream.specs.Tallied.{capped};
ghost use Rattle.cj_stream.specs.TallySink.{Tally as Tallied};
ghost use Rattle.cj_stream.specs.Meaning.Rules.{Rules};
ghost use Rattle.cj_stream.specs.Verdict.{ending};
ghost use Rattle.cj_stream.specs.declared.ending.End.{End};
ghost use Rattle.cityseq_c.specs.Answer.{not_judged};
ghost use Rattle.cityseq_c.specs.Called.{Checks, Filters, IsTalliedOf, IsUnjudged, Lists, TalliesPart, call};
ghost use Rattle.cityseq_c.specs.Cutting.{part_end};
ghost use Rattle.cityseq_c.specs.Joined.{IsAnswerOf, both_answers, ended_by};
ghost use Rattle.cityseq_c.specs.Memory.{memory_bytes};
ghost use Rattle.cityseq_c.specs.Begins.{begin_of};
ghost use Rattle.cityseq_c.specs.Tally.{IsTally, zeros};
ghost use Rattle.cityseq_c.specs.Request.{AreCut, stack_bytes};
ghost use Rattle.cityseq_c.specs.Words.{reason_words, type_words, IsCopied};

use cityseq_c::{
    Answer, CReport, FeatureRecord, Finder, Listed, Request, Room, Tally, are_cut, copy, judge,
    memory_of, part_end, reason_text, type_name,
};
use cj_stream::{IgnoreSink, TallySink, VERSION, laws};
use std::alloc::Global;

/// Lines of at most this length need little of the stack.
const SHORT_LINE: u64 = 65_536;

/// The bytes of the stack that a call needs under such a line limit, as measured.
const STACK_OF_SHORT_LINES: usize = 131_072;

/// The same under any other.
const STACK: usize = 2_097_152;

/// Returns the number of the interface. An interface with other declarations in `c/cityseq.h` has
/// another number.
#[unsafe(no_mangle)]
pub extern "C" fn cityseq_interface() -> u32
    ensures { result ≡ 3 }
{
    3
}

/// Judges the lines of a stream. It writes the first reports to `reports`, as many as fit.
#[unsafe(no_mangle)]
pub extern "C" fn cityseq_check(
    alloc: Global,
    header: &[u8],
    part: &[u8],
    request: &Request<'_>,
    reports: &mut [CReport],
) -> Answer
    ensures checks { Checks (call request.now header.now part.now reports.old reports.new) result }
    ensures fits { result.status ≢ 4 }
    ensures unjudged { IsUnjudged result
        → (result ≡ not_judged result.status result.code result.list result.item) × (reports.new ≡ reports.old) }
{
    let judged = judge(alloc, header, part, request, &mut IgnoreSink, reports);
    Answer::of(request, judged, 0)
}

/// Judges the lines of a stream. It writes the header and the kept features to `output`, byte for
/// byte, and reports as [`cityseq_check`] does. A line that does not fit in `output` is the end.
#[unsafe(no_mangle)]
pub extern "C" fn cityseq_filter(
    alloc: Global,
    header: &[u8],
    part: &[u8],
    request: &Request<'_>,
    output: &mut [u8],
    reports: &mut [CReport],
) -> Answer
    ensures filters { Filters (call request.now header.now part.now reports.old reports.new) output.old
        output.new result }
    ensures unjudged { IsUnjudged result → (result ≡ not_judged result.status result.code result.list result.item) × (reports.new ≡ reports.old)
        × (output.new ≡ output.old) }
{
    let mut room = Room::new(output);
    let judged = judge(alloc, header, part, request, &mut room, reports);
    Answer::of(request, judged, room.written())
}

/// Judges the lines of a stream, and tallies the kept features. It reports as [`cityseq_check`]
/// does. If nothing was judged, `tally` is as it was.
#[unsafe(no_mangle)]
pub extern "C" fn cityseq_info(
    alloc: Global,
    header: &[u8],
    part: &[u8],
    request: &Request<'_>,
    tally: &mut Tally,
    reports: &mut [CReport],
) -> Answer
    ensures tallies { TalliesPart (call request.now header.now part.now reports.old reports.new) tally.new result }
    ensures fits { result.status ≢ 4 }
    ensures unjudged { IsUnjudged result → (result ≡ not_judged result.status result.code result.list result.item) × (reports.new ≡ reports.old)
        × (tally.new ≡ tally.old) }
{
    laws::puts_are_tallied();
    let mut sink = TallySink::new();
    let judged = judge(alloc, header, part, request, &mut sink, reports);
    if judged.is_ok() {
        *tally = Tally::of(&sink);
    }
    Answer::of(request, judged, 0)
}

/// Judges the lines of a stream. It writes a record of each kept feature to `records`, in order, as
/// many as fit. It reports as [`cityseq_check`] does.
#[unsafe(no_mangle)]
pub extern "C" fn cityseq_features(
    alloc: Global,
    header: &[u8],
    part: &[u8],
    request: &Request<'_>,
    records: &mut [FeatureRecord],
    reports: &mut [CReport],
) -> Answer
    ensures lists { Lists (call request.now header.now part.now reports.old reports.new) records.old
        records.new result }
    ensures fits { result.status ≢ 4 }
    ensures unjudged { IsUnjudged result → (result ≡ not_judged result.status result.code result.list result.item) × (reports.new ≡ reports.old)
        × (records.new ≡ records.old) }
{
    let mut listed = Listed::new(part, records);
    let judged = judge(alloc, header, part, request, &mut listed, reports);
    Answer::of(request, judged, 0)
}

/// Returns the answer for a header with the lines of two parts, from the answers for the header
/// with each. If the first answer is not complete, it is the answer for both. The length of the
/// output counts the header, with its `header_length` bytes, once.
#[unsafe(no_mangle)]
pub extern "C" fn cityseq_answer_then(first: &Answer, next: &Answer, header_length: usize) -> Answer
    ensures ended { first.now.status ≢ 0 → result ≡ first.now }
    ensures unjudged { first.now.status ≡ 0 → IsUnjudged next.now
        → result ≡ record first.now {
          status = next.now.status;
          code = next.now.code;
          list = next.now.list;
          item = next.now.item;
        } }
    ensures judged { (ended : End) → first.now.status ≡ 0 → ended_by next.now ≡ Some ended
        → result ≡ both_answers first.now next.now ended header_length }
    ensures account { (rules : Rules) (h a b : List ℕ) → IsCut h a → first.now.lines + next.now.lines < 2 ^ 64
        → IsAnswerOf rules (headed h a) first.now → IsAnswerOf rules (headed h b) next.now
        → IsAnswerOf rules (headed h (a ++ b)) result }
    ensures written { (rules : Rules) (s : List ℕ) → first.now.status ≡ 0 → IsAnswerOf rules s next.now
        → result.written ≡ capped (first.now.written + (next.now.written - header_length)) }
{
    first.then(next, header_length)
}

/// Returns the tally for a header with the lines of two parts, from the tallies for the header with
/// each. The first part is complete. A tally of zeros joined with another is that other.
#[unsafe(no_mangle)]
pub extern "C" fn cityseq_tally_then(first: &Tally, next: &Tally) -> Tally
    ensures joined { (rules : Rules) (h a b : List ℕ) → IsCut h a → ending rules (headed h a) ≡ End.Complete
        → IsTalliedOf rules (headed h a) first.now → IsTalliedOf rules (headed h b) next.now
        → IsTalliedOf rules (headed h (a ++ b)) result }
    ensures zeros { (tallied : Tallied) → IsTally tallied next.now → first.now ≡ zeros → result ≡ next.now }
{
    first.then(next)
}

/// Returns where to cut a part of about `wanted` bytes. This is after the last LF among the first
/// `wanted` bytes, or else after the first LF. It is 0 if there is no LF.
#[unsafe(no_mangle)]
pub extern "C" fn cityseq_part_end(part: &[u8], wanted: usize) -> usize
    ensures end { result ≡ part_end part.now wanted }
    ensures whole { whole (take result part.now) ≡ take result part.now }
{
    part_end(part, wanted)
}

/// Returns where the line of this number begins in a header and a part, in bytes from the beginning
/// of the header. If there is no such line, it is the end of the part. It is 0 if the header is not
/// one line.
#[unsafe(no_mangle)]
pub extern "C" fn cityseq_line_begin(header: &[u8], part: &[u8], line: u64) -> u64
    ensures cut { AreCut header.now part.now → result ≡ begin_of (header.now ++ part.now) line }
    ensures uncut { ¬ AreCut header.now part.now → result ≡ 0 }
{
    if are_cut(header, part) {
        Finder::new(header, part).begin(line)
    } else {
        0
    }
}

/// Returns how many bytes of the stack a caller has to have for a call with this request.
#[unsafe(no_mangle)]
pub extern "C" fn cityseq_stack(request: &Request<'_>) -> usize
    ensures { result ≡ stack_bytes request.now.line_limit }
{
    if request.line_limit <= SHORT_LINE {
        STACK_OF_SHORT_LINES
    } else {
        STACK
    }
}

/// Returns the most bytes of memory that a call with this request takes at one time, for a header
/// and a part of these lengths. It is 0 if a limit is out of range, and stops at 2^64 - 1.
#[unsafe(no_mangle)]
pub extern "C" fn cityseq_memory(
    request: &Request<'_>,
    header_length: usize,
    part_length: usize,
) -> usize
    ensures { result ≡ memory_bytes request.now header_length part_length }
{
    memory_of(request, header_length, part_length)
}

/// Writes the words of a reason as far as they fit. Returns how many bytes they have, and 0 if no
/// reason has this code.
#[unsafe(no_mangle)]
pub extern "C" fn cityseq_reason_text(code: u64, text: &mut [u8]) -> usize
    ensures { IsCopied (reason_words code) text.old text.new result }
{
    copy(reason_text(code), text)
}

/// Writes the name of the type of this number in the same way. Returns 0 if no type has it.
#[unsafe(no_mangle)]
pub extern "C" fn cityseq_type_name(number: u64, text: &mut [u8]) -> usize
    ensures { IsCopied (type_words number) text.old text.new result }
{
    copy(type_name(number), text)
}

/// Writes the version of the library in the same way.
#[unsafe(no_mangle)]
pub extern "C" fn cityseq_version(text: &mut [u8]) -> usize
    ensures { IsCopied VERSION.now text.old text.new result }
{
    copy(VERSION, text)
}
