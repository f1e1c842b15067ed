//! Why a line is not a JSON text within the limits.
ghost use Rattle.std.specs.Prelude.{◌≡◌};
ghost use Rattle.cj_spans.specs.declared.fault.ScanFault.TheVariants.{Memory};
ghost use Rattle.cj_spans.specs.Answers.{widened_fault};

use cj_budget::NoMemory;
use thiserror::Error;

/// Why [`crate::scan`] rejects a line. Places are bytes of the line, from 0.
#[derive(Clone, Copy, Debug, PartialEq, Eq, Error)]
pub enum ScanFault {
    /// The line is not UTF-8. The byte is the end of its longest valid prefix.
    #[error("not UTF-8 at byte {0}")]
    NotUtf8(u64),
    /// The first byte that no JSON text can have here. If the line only begins a JSON text, this is
    /// its length.
    #[error("no JSON text at byte {0}")]
    Syntax(u64),
    /// The first byte at which more containers are open than the limit allows.
    #[error("nested too deep at byte {0}")]
    TooDeep(u64),
    /// Memory for tokens or open containers was refused. The line was not read.
    #[error("out of memory")]
    Memory,
}

/// Why [`crate::scan_reserved`] rejects a line: as [`ScanFault`], without `Memory`. Places are
/// bytes of the line, from 0.
#[derive(Clone, Copy, Debug, PartialEq, Eq, Error)]
pub enum LineFault {
    /// The line is not UTF-8. The byte is the end of its longest valid prefix.
    #[error("not UTF-8 at byte {0}")]
    NotUtf8(u64),
    /// The first byte that no JSON text can have here. If the line only begins a JSON text, this is
    /// its length.
    #[error("no JSON text at byte {0}")]
    Syntax(u64),
    /// The first byte at which more containers are open than the limit allows.
    #[error("nested too deep at byte {0}")]
    TooDeep(u64),
}

impl From<NoMemory> for ScanFault {
    ghost from_gives = { λ _ fault. fault ≡ Memory };

    fn from(_fault: NoMemory) -> ScanFault {
        ScanFault::Memory
    }
}

impl From<LineFault> for ScanFault {
    ghost from_gives = { λ cause fault. fault ≡ widened_fault cause };

    fn from(cause: LineFault) -> ScanFault {
        match cause {
            LineFault::NotUtf8(place) => ScanFault::NotUtf8(place),
            LineFault::Syntax(place) => ScanFault::Syntax(place),
            LineFault::TooDeep(place) => ScanFault::TooDeep(place),
        }
    }
}
