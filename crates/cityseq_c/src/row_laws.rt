//! Worked examples of the definitions in the promises: small cases with known results, and cases
//! that are refuted. Each row is a theorem, proved once.
ghost use Rattle.cityseq_c.specs.Rows.{AloneRow, AttributesRow, BetweenRow, BitRow, BlankRow, CutRow, FaultRow};
ghost use Rattle.cityseq_c.specs.Rows.{RecordRow};

/// Where the kept features of a stream are, and the record of one.
pub fn feature_rows_compute()
    ensures alone { AloneRow }
    ensures blank { BlankRow }
    ensures between { BetweenRow }
    ensures record_of { RecordRow }
    ensures attributes { AttributesRow }
    ensures bits { BitRow }
{}

/// Where parts are cut.
pub fn cutting_rows_compute()
    ensures { CutRow }
{}

/// Which item of a request is at fault.
pub fn fault_rows_compute()
    ensures { FaultRow }
{}
