//! The result of a call for C, and that of two parts as one.
ghost use Rattle.std.specs.Prelude.{◌≡◌, Result};
ghost use Rattle.cityseq_c.specs.Answer.{answer_of, answer_to, not_judged};

use crate::fault_place::{FaultPlace, fault_place};
use crate::request::{NotJudged, Request};
use crate::words::reason_of;
use cj_stream::{End, Outcome, Peaks};

/// The result for a stream, as C has it.
#[repr(C)]
#[derive(Clone, Copy, Debug, PartialEq, Eq)]
pub struct Answer {
    /// How the call ended:
    ///
    /// - 0: complete.
    /// - 1: a line is invalid.
    /// - 2: the request is wrong.
    /// - 4: the output does not fit.
    /// - 5: no memory was granted.
    pub status: u32,
    /// The code of the reason, or of the request's fault. Else 0.
    pub code: u32,
    /// The number of the invalid line, from 1. Else 0.
    pub line: u64,
    /// The byte in its content, from 0. Else 0.
    pub place: u64,
    /// The number of lines that were handled: the header, features, blank lines and reported ones.
    pub lines: u64,
    /// The number of kept features among them.
    pub kept: u64,
    /// The number of reported lines among them, also those without room for their report.
    pub refused: u64,
    /// The most bytes of lines that were held at once. The next two are tokens, and open arrays and
    /// objects.
    pub peak_bytes: u64,
    pub peak_tokens: u64,
    pub peak_depth: u64,
    /// The number of bytes of output that were written.
    pub written: u64,
    /// The list of the request that has the fault, and the text or number in it ([`FaultPlace`]).
    /// Else 0.
    pub list: u64,
    pub item: u64,
}

/// Returns the answer of a call that judged nothing. It has a status, a code, and where the fault
/// of the request is. All counts are 0.
fn answer_without_lines(status: u32, code: u32, place: FaultPlace) -> Answer
    ensures { result ≡ not_judged status code place.list place.item }
{
    Answer {
        status,
        code,
        line: 0,
        place: 0,
        lines: 0,
        kept: 0,
        refused: 0,
        peak_bytes: 0,
        peak_tokens: 0,
        peak_depth: 0,
        written: 0,
        list: place.list,
        item: place.item,
    }
}

/// Returns the answer for an outcome, with the number of bytes of output.
fn answer_of_outcome(outcome: Outcome, written: u64) -> Answer
    ensures { result ≡ answer_of outcome written }
{
    let (status, code, line, place) = match outcome.ended {
        End::Complete => (0, 0, 0, 0),
        End::Refused {
            line,
            place,
            reason,
        } => (1, reason.code() as u32, line, place),
        End::ReadFault | End::ReadLimit => (3, 0, 0, 0),
        End::WriteFault => (4, 0, 0, 0),
        End::Memory => (5, 0, 0, 0),
    };
    Answer {
        status,
        code,
        line,
        place,
        lines: outcome.lines,
        kept: outcome.kept,
        refused: outcome.refused,
        peak_bytes: outcome.peaks.bytes,
        peak_tokens: outcome.peaks.tokens,
        peak_depth: outcome.peaks.depth,
        written,
        list: 0,
        item: 0,
    }
}

impl Answer {
    ghost use Rattle.std.specs.Prelude.{◌≢◌, ◌+◌, ◌-◌, ◌<◌, ◌^◌, ◌++◌, ℕ, List, Some};
    ghost use Rattle.cj_stream.specs.Parts.{headed, IsCut};
    ghost use Rattle.cj_stream.specs.Tallied.{capped};
    ghost use Rattle.cj_stream.specs.Meaning.Rules.{Rules};
    ghost use Rattle.cityseq_c.specs.Called.{IsUnjudged};
    ghost use Rattle.cityseq_c.specs.Joined.{both_answers, ended_by, outcome_by, IsAnswerOf};

    /// Returns the answer of a call with this request, from its outcome or from why nothing was
    /// judged.
    pub fn of(request: &Request<'_>, judged: Result<Outcome, NotJudged>, written: usize) -> Answer
        ensures { result ≡ answer_to request.now judged written }
    {
        match judged {
            Ok(outcome) => answer_of_outcome(outcome, written as u64),
            Err(NotJudged::Fault(fault)) => {
                answer_without_lines(2, fault.code(), fault_place(request, fault))
            }
            Err(NotJudged::Memory) => answer_without_lines(5, 0, FaultPlace { list: 0, item: 0 }),
        }
    }

    /// Returns how the stream of the answer ended. None if nothing was judged, or if no call
    /// returns such an answer.
    fn ended(&self) -> Option<End>
        ensures { result ≡ ended_by self.now }
    {
        match self.status {
            0 => Some(End::Complete),
            1 => match reason_of(self.code as u64) {
                Some(reason) => Some(End::Refused {
                    line: self.line,
                    place: self.place,
                    reason,
                }),
                None => None,
            },
            4 => Some(End::WriteFault),
            _ => None,
        }
    }

    /// Returns the outcome with the counts of the answer and with this end.
    fn outcome(&self, ended: End) -> Outcome
        ensures { result ≡ outcome_by self.now ended }
    {
        Outcome {
            lines: self.lines,
            kept: self.kept,
            refused: self.refused,
            peaks: Peaks {
                bytes: self.peak_bytes,
                tokens: self.peak_tokens,
                depth: self.peak_depth,
            },
            ended,
        }
    }

    /// Returns the answer for a header with the lines of two parts. This answer is for the header
    /// with the first part, and `next` is for the header with the second.
    ///
    /// If this answer is not complete, it is the answer for both. If nothing of the next part was
    /// judged, the answer has its status, code, list and item, with the counts of this one. Counts
    /// stop at 2^64 - 1.
    pub fn then(&self, next: &Answer, header_length: usize) -> Answer
        ensures ended { self.now.status ≢ 0 → result ≡ self.now }
        ensures unjudged { self.now.status ≡ 0 → IsUnjudged next.now
            → result ≡ record self.now {
              status = next.now.status;
              code = next.now.code;
              list = next.now.list;
              item = next.now.item;
            } }
        ensures judged { (ended : End) → self.now.status ≡ 0 → ended_by next.now ≡ Some ended
            → result ≡ both_answers self.now next.now ended header_length }
        ensures account { (rules : Rules) (h a b : List ℕ) → IsCut h a → self.now.lines + next.now.lines < 2 ^ 64
            → IsAnswerOf rules (headed h a) self.now → IsAnswerOf rules (headed h b) next.now
            → IsAnswerOf rules (headed h (a ++ b)) result }
        ensures written { (rules : Rules) (s : List ℕ) → self.now.status ≡ 0 → IsAnswerOf rules s next.now
            → result.written ≡ capped (self.now.written + (next.now.written - header_length)) }
    {
        if self.status != 0 {
            return *self;
        }
        match next.ended() {
            Some(ended) => answer_of_outcome(
                self.outcome(End::Complete).then(next.outcome(ended)),
                self.written
                    .saturating_add(next.written.saturating_sub(header_length as u64)),
            ),
            None => Answer {
                status: next.status,
                code: next.code,
                list: next.list,
                item: next.item,
                ..*self
            },
        }
    }
}
