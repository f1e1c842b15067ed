//! Laws of the definitions of what `check` and `info` write, each proved once.
ghost use Rattle.cityseq_command.specs.SummaryRows.{BuildingsRow, NothingRow, UndergroundRow, CheckRow};

/// The definitions, on small streams with known output.
pub fn summaries_compute()
    ensures buildings { BuildingsRow }
    ensures nothing { NothingRow }
    ensures underground { UndergroundRow }
    ensures check { CheckRow }
{}
