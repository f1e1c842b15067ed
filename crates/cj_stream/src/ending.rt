//! How a stream ends, and how its two readers end.
ghost use Rattle.std.specs.Prelude.{◌≡◌};
ghost use Rattle.cj_stream.specs.Ending.{answer_of, header_end, line_end};
ghost use Rattle.cj_stream.specs.Engine.{end_of};

use cj_spans::Reason;

/// How a stream ended.
#[derive(Clone, Copy, Debug, PartialEq, Eq)]
pub enum End {
    /// All lines were read, and no invalid line ended the stream.
    Complete,
    /// A line is invalid: its number from 1, the byte in its content, and the reason.
    Refused {
        line: u64,
        place: u64,
        reason: Reason,
    },
    /// A read failed. The line that had begun was not judged.
    ReadFault,
    /// The input did not end within the reads that are allowed.
    ReadLimit,
    /// A write failed.
    WriteFault,
    /// An allocation failed.
    Memory,
}

/// How the reader of a header ended.
#[derive(Clone, Copy, Debug, PartialEq, Eq)]
pub enum HeaderEnd {
    /// The stream is a valid header without LF, and nothing else.
    Complete,
    /// The first line is invalid, or there is none.
    Refused {
        line: u64,
        place: u64,
        reason: Reason,
    },
    /// A write failed.
    WriteFault,
    /// The allocation for later lines failed.
    Memory,
}

/// How the reader of later lines ended. It never allocates, so no end is a lack of memory.
#[derive(Clone, Copy, Debug, PartialEq, Eq)]
pub enum LineEnd {
    /// All lines were read, and no invalid line ended the stream.
    Complete,
    /// A line is invalid: its number from 1, the byte in its content, and the reason.
    Refused {
        line: u64,
        place: u64,
        reason: Reason,
    },
    /// A write failed.
    WriteFault,
}

impl HeaderEnd {
    /// Returns how the reader of a header ends, given the result of the first line.
    pub(crate) fn after(answer: Result<(), HeaderEnd>) -> HeaderEnd
        ensures { header_end result ≡ end_of (answer_of header_end answer) }
    {
        match answer {
            Ok(()) => HeaderEnd::Complete,
            Err(end) => end,
        }
    }
}

impl LineEnd {
    /// Returns how the reader of lines ends, given the result of the last line.
    pub(crate) fn after(answer: Result<(), LineEnd>) -> LineEnd
        ensures { line_end result ≡ end_of (answer_of line_end answer) }
    {
        match answer {
            Ok(()) => LineEnd::Complete,
            Err(end) => end,
        }
    }
}

impl From<HeaderEnd> for End {
    ghost from_gives = { λ answered end. end ≡ header_end answered };

    fn from(answered: HeaderEnd) -> End {
        match answered {
            HeaderEnd::Complete => End::Complete,
            HeaderEnd::Refused {
                line,
                place,
                reason,
            } => End::Refused {
                line,
                place,
                reason,
            },
            HeaderEnd::WriteFault => End::WriteFault,
            HeaderEnd::Memory => End::Memory,
        }
    }
}

impl From<LineEnd> for End {
    ghost from_gives = { λ answered end. end ≡ line_end answered };

    fn from(answered: LineEnd) -> End {
        match answered {
            LineEnd::Complete => End::Complete,
            LineEnd::Refused {
                line,
                place,
                reason,
            } => End::Refused {
                line,
                place,
                reason,
            },
            LineEnd::WriteFault => End::WriteFault,
        }
    }
}
