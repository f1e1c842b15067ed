//! Laws of two definitions: what is written of an end, and which fault a query has. Each is
//! proved once.
ghost use Rattle.cityseq_command.specs.EndRows.{FailedRow, GoodRow, LineRows, RefusedRows};
ghost use Rattle.cityseq_command.specs.DeclineRows.{MemoryRows, NoMemoryRows, ExtensionRows, OtherRows};

/// The end that is written, given the flush before it, and the line and the status of each end.
pub fn ends_compute()
    ensures failed { FailedRow }
    ensures good { GoodRow }
    ensures lines { LineRows }
    ensures refused { RefusedRows }
{}

/// The first fault of options, on small texts with known results.
pub fn declines_compute()
    ensures memory { MemoryRows }
    ensures no_memory { NoMemoryRows }
    ensures extensions { ExtensionRows }
    ensures others { OtherRows }
{}
