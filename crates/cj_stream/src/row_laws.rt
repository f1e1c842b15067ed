//! Worked examples of the definitions in the promises: small cases with known results, and cases
//! that are refuted. Each row is a theorem, proved once.
ghost use Rattle.cj_stream.specs.BoundRows.{EmptyRow as BoundOfNothing, HeaderRow as BoundOfHeader};
ghost use Rattle.cj_stream.specs.BoundRows.{CutRow as BoundOfLongLine, EdgeRow, ExactRow};
ghost use Rattle.cj_stream.specs.BoxRows.{BoxRow, FieldRows, RangeRows, EmptyRow as BoxOfNothing, OrderRows};
ghost use Rattle.cj_stream.specs.ChoiceRows.{ApartRow, ChainRow, ExcludeRow, ExtensionRow};
ghost use Rattle.cj_stream.specs.CountRows.{RiseRows, ClassRows, LodRows as LodCounts};
ghost use Rattle.cj_stream.specs.EndRows.{UnhinderedRow, UnreadRow};
ghost use Rattle.cj_stream.specs.GoingRows.{BetweenRow, FirstRow as GoingFirst, LastRow};
ghost use Rattle.cj_stream.specs.LineRows.{TabRow, HeaderRow};
ghost use Rattle.cj_stream.specs.QueryRows.{IdRows, TypeRows, LodRows, InstanceRows, InBoxRows, OutOfBoxRows};
ghost use Rattle.cj_stream.specs.QueryRows.{EachPartRows, ExtensionRows, NameRows, MemoryRows};
ghost use Rattle.cj_stream.specs.Rows.{EmptyRow, WholeRow, BlankRow, OrderRow, BadRow, LongRow, TextRow, SyntaxRow};
ghost use Rattle.cj_stream.specs.Rows.{DeepRow};

/// How a stream ends, and what is written of it.
pub fn rows_compute()
    ensures empty { EmptyRow }
    ensures whole { WholeRow }
    ensures blank { BlankRow }
    ensures order { OrderRow }
    ensures bad { BadRow }
    ensures long { LongRow }
    ensures text { TextRow }
    ensures syntax { SyntaxRow }
    ensures deep { DeepRow }
{}

/// How a stream ends if reading goes on after invalid lines, and what is written and reported of
/// it.
pub fn going_rows_compute()
    ensures between { BetweenRow }
    ensures first { GoingFirst }
    ensures last { LastRow }
{}

/// How a stream ends, and what is written, if each city object must be reached, if selected
/// features are left out, or if types of extensions are known.
pub fn choice_rows_compute()
    ensures apart { ApartRow }
    ensures chain { ChainRow }
    ensures exclude { ExcludeRow }
    ensures extension { ExtensionRow }
{}

/// The bound on what is held, and the exact peaks.
pub fn bounds_compute()
    ensures nothing { BoundOfNothing }
    ensures header { BoundOfHeader }
    ensures long { BoundOfLongLine }
    ensures edge { EdgeRow }
    ensures exact { ExactRow }
{}

/// Counts of failures, and of classes of LoDs.
pub fn counts_compute()
    ensures rise { RiseRows }
    ensures classes { ClassRows }
    ensures lods { LodCounts }
{}

/// Which ends nothing hindered, and which no reader makes.
pub fn ends_compute()
    ensures unhindered { UnhinderedRow }
    ensures unread { UnreadRow }
{}

/// A blank line with a byte in it, and a header alone.
pub fn lines_compute()
    ensures tab { TabRow }
    ensures header { HeaderRow }
{}

/// Which features a query selects.
pub fn queries_compute()
    ensures ids { IdRows }
    ensures types { TypeRows }
    ensures extensions { ExtensionRows }
    ensures names { NameRows }
    ensures memory { MemoryRows }
    ensures lods { LodRows }
    ensures instance { InstanceRows }
    ensures in_box { InBoxRows }
    ensures out_of_box { OutOfBoxRows }
    ensures each { EachPartRows }
{}

/// The box that a text spells.
pub fn boxes_compute()
    ensures a_box { BoxRow }
    ensures fields { FieldRows }
    ensures range { RangeRows }
    ensures empty { BoxOfNothing }
    ensures order { OrderRows }
{}
