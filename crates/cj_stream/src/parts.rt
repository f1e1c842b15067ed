//! Runs over the parts of a stream, seen as one run over all of it.
//!
//! A part is the header with some of the later lines, in their order. So each part can be read on
//! its own. [`crate::laws::parts_are_joined`] says what the sinks of these runs got together.
ghost use Rattle.std.specs.Prelude.{◌≡◌, ◌≢◌, ◌+◌, ◌-◌, ◌<◌, ◌^◌, ◌++◌, ℕ, List, Option};
ghost use Rattle.std.specs.Io.KnownBytes.{IsAtEnd};
ghost use Rattle.cj_stream.specs.Cut.{IsUnread};
ghost use Rattle.cj_stream.specs.Parts.{headed, IsCut, moved_end, greater_peaks, capped_end, both_outcomes};
ghost use Rattle.cj_stream.specs.Parts.{capped_outcome};
ghost use Rattle.cj_stream.specs.Run.{Account};
ghost use Rattle.cj_stream.specs.Meaning.Rules.{Rules};

use crate::ending::End;
use crate::running::Outcome;
use cj_budget::Peaks;

/// Returns the greater of each two counts.
fn greater(first: Peaks, second: Peaks) -> Peaks
    ensures { result ≡ greater_peaks first second }
{
    Peaks {
        bytes: first.bytes.max(second.bytes),
        tokens: first.tokens.max(second.tokens),
        depth: first.depth.max(second.depth),
    }
}

/// Returns an end of the second part as an end of the stream: its line is that number of lines
/// later.
fn moved(end: End, lines: u64) -> End
    ensures { result ≡ capped_end (moved_end lines end) }
{
    match end {
        End::Refused {
            line,
            place,
            reason,
        } => End::Refused {
            line: line.saturating_add(lines),
            place,
            reason,
        },
        End::Complete | End::ReadFault | End::ReadLimit | End::WriteFault | End::Memory => end,
    }
}

/// Returns two runs as one, where the first was complete. The header counts once.
fn both(first: Outcome, second: Outcome) -> Outcome
    ensures { result ≡ capped_outcome (both_outcomes first second) }
{
    Outcome {
        lines: first.lines.saturating_add(second.lines.saturating_sub(1)),
        kept: first.kept.saturating_add(second.kept),
        refused: first.refused.saturating_add(second.refused),
        peaks: greater(first.peaks, second.peaks),
        ended: moved(second.ended, first.lines.saturating_sub(1)),
    }
}

impl Outcome {
    /// Returns the outcome of a run over two parts as one.
    ///
    /// `self` is the outcome of the run over the first part, and `next` that of the run over the
    /// header with the lines after it. If the first run did not end complete, its outcome is the
    /// result. The first part must end with LF, and its run must not have ended in a failed read or
    /// at the limit of reads. Counts and line numbers stop at 2^64 - 1.
    pub fn then(self, next: Outcome) -> Outcome
        ensures ended { self.ended ≢ End.Complete → result ≡ self }
        ensures complete { self.ended ≡ End.Complete → result ≡ capped_outcome (both_outcomes self next) }
        ensures account { (rules : Rules) (h a b : List ℕ) (left more : Option (List ℕ)) → IsCut h a
            → IsUnread self.ended → self.lines + next.lines < 2 ^ 64
            → Account (record { rules = rules; read = headed h a; outcome = self }) (IsAtEnd left)
            → Account (record { rules = rules; read = headed h b; outcome = next }) (IsAtEnd more)
            → Account (record { rules = rules; read = headed h (a ++ b); outcome = result }) (IsAtEnd more) }
    {
        match self.ended {
            End::Complete => both(self, next),
            _ => self,
        }
    }
}
