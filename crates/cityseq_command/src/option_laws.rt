//! Laws of the definition of the criteria that options make, each proved once.
ghost use Rattle.cityseq_command.specs.OptionRows.{NothingRow, IdRows, LodRow, TypeRows, ExtensionRows, BoxRow};
ghost use Rattle.cityseq_command.specs.OptionRows.{OrderRows, AllRow};

use cj_stream::row_laws::boxes_compute;

/// The definition, on small texts with known criteria or faults.
pub fn options_compute()
    ensures nothing { NothingRow }
    ensures ids { IdRows }
    ensures lods { LodRow }
    ensures types { TypeRows }
    ensures extensions { ExtensionRows }
    ensures a_box { BoxRow }
    ensures order { OrderRows }
    ensures all { AllRow }
{
    boxes_compute();
}
