//! Laws of what the words of a command line name and give, each proved once.
ghost use Rattle.cityseq_command.specs.WordRows.{UsualRow, GivenRow, SpelledRow, FaultRow, UnaskedRow};

/// What `clap` promises to find, on small command lines with known results.
pub fn words_compute()
    ensures usual { UsualRow }
    ensures given { GivenRow }
    ensures spelled { SpelledRow }
    ensures faults { FaultRow }
    ensures unasked { UnaskedRow }
{}
