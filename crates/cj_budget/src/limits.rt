//! The limits of a run, and the greatest sizes that it reached.
ghost use Rattle.std.specs.Prelude.{◌≡◌, ◌↔◌, IsOk, IfOk, IsErrOf};
ghost use Rattle.cj_budget.specs.Limits.{InLine, InDepth, usual_limits};

use std::marker::Model;
use thiserror::Error;

/// The default line limit, in bytes: 8 MiB.
pub const USUAL_LINE: u64 = 8_388_608;

/// The default depth limit, in open arrays and objects.
pub const USUAL_DEPTH: u64 = 64;

/// The least line limit, in bytes.
const LEAST_LINE: u64 = 1;

/// The greatest line limit, in bytes: 1 GiB.
const GREATEST_LINE: u64 = 1_073_741_824;

/// The least depth limit.
const LEAST_DEPTH: u64 = 1;

/// The greatest depth limit.
const GREATEST_DEPTH: u64 = 1_024;

/// Why limits are invalid.
#[derive(Clone, Copy, Debug, PartialEq, Eq, Error)]
pub enum LimitFault {
    /// The line limit is not from 1 to 1,073,741,824.
    #[error("the line limit is out of range")]
    LineLimit,
    /// The depth limit is not from 1 to 1,024.
    #[error("the depth limit is out of range")]
    DepthLimit,
}

/// The most content bytes of a line, and the most open containers.
#[derive(Clone, Copy, Debug, PartialEq, Eq)]
pub struct Limits {
    line: u64,
    depth: u64,
}

impl Model for Limits {
    ghost use Rattle.cj_budget.specs.Meaning.Limits.{LimitPair};
    ghost use Rattle.cj_budget.specs.Limits.{InLine, InDepth};

    ghost Value = { LimitPair };

    ghost view = { λ l. record { line = l.line; depth = l.depth } };

    ghost inverse = { λ p. record { line = p.line; depth = p.depth } };

    ghost invariant = { λ l. InLine l.line × InDepth l.depth };
}

impl Limits {
    /// Returns limits of `line` bytes and `depth` open containers.
    ///
    /// # Errors
    ///
    /// `LineLimit` if the line limit is out of range, otherwise `DepthLimit` if the depth limit is.
    pub fn new(line: u64, depth: u64) -> Result<Limits, LimitFault>
        ensures ok { IfOk result (λ l. (l.line ≡ line) × (l.depth ≡ depth)) }
        ensures accepts { IsOk result ↔ (InLine line × InDepth depth) }
        ensures line_limit { IsErrOf result LimitFault.LineLimit ↔ ¬ InLine line }
        ensures depth_limit { IsErrOf result LimitFault.DepthLimit ↔ (InLine line × ¬ InDepth depth) }
    {
        if line < LEAST_LINE || line > GREATEST_LINE {
            return Err(LimitFault::LineLimit);
        }
        if depth < LEAST_DEPTH || depth > GREATEST_DEPTH {
            return Err(LimitFault::DepthLimit);
        }
        Ok(Limits { line, depth })
    }

    /// Returns the default limits: lines of up to 8 MiB, and up to 64 open containers.
    pub fn usual() -> Limits
        ensures { result ≡ usual_limits }
    {
        Limits {
            line: USUAL_LINE,
            depth: USUAL_DEPTH,
        }
    }

    /// Returns the most content bytes of a line: its bytes without the LF.
    pub fn line(&self) -> u64
        ensures value { result ≡ self.now.line }
        ensures range { InLine result }
    {
        self.line
    }

    /// Returns the most arrays and objects that may be open at once.
    pub fn depth(&self) -> u64
        ensures value { result ≡ self.now.depth }
        ensures range { InDepth result }
    {
        self.depth
    }
}

/// How much is held now, or was held at most: bytes, tokens and open containers.
#[derive(Clone, Copy, Debug, Default, PartialEq, Eq)]
pub struct Peaks {
    /// Bytes of the kept header and of the line that is being read.
    pub bytes: u64,
    /// Tokens of the kept header and of the line that is being read.
    pub tokens: u64,
    /// Open arrays and objects.
    pub depth: u64,
}
