//! A tally as C has it, and that of two parts as one.
ghost use Rattle.std.specs.Prelude.{◌≡◌};
ghost use Rattle.cityseq_c.specs.Tally.{AreShown, IsDecimal, IsTally, shown_range, range_by};

use cj_decimal::Decimal;
use cj_stream::{LOD_CLASSES, TYPE_SLOTS, TallySink, laws};

/// The least and the greatest whole number on an axis.
#[repr(C)]
#[derive(Clone, Copy, Debug, PartialEq, Eq)]
pub struct Range {
    /// 1 if there is one, else 0.
    pub some: u64,
    pub least: i64,
    pub greatest: i64,
}

/// The number `(high * 2^64 + low) * 10^power`, exactly. It is below 0 if `negative` is 1.
#[repr(C)]
#[derive(Clone, Copy, Debug, PartialEq, Eq)]
pub struct Number {
    pub negative: u32,
    pub power: i32,
    pub high: u64,
    pub low: u64,
}

/// The kept features in numbers, and the transform of the header.
#[repr(C)]
#[derive(Clone, Copy, Debug)]
pub struct Tally {
    pub features: u64,
    /// The number of city objects of each type, by the type's number. The last is that of types of
    /// extensions.
    pub types: [u64; TYPE_SLOTS],
    /// The number of geometries in each LoD class: 0 to 4, and 5 for any other.
    pub lods: [u64; LOD_CLASSES],
    /// The vertices on x, y and z, as the features have them.
    pub ranges: [Range; 3],
    /// 1 if the header is valid. Else 0, and so are the numbers below.
    pub transformed: u64,
    /// The world coordinate of a vertex on x, y and z is its number times this,
    pub scale: [Number; 3],
    /// plus this.
    pub translate: [Number; 3],
}

/// The number 0.
const ZERO: Number = Number {
    negative: 0,
    power: 0,
    high: 0,
    low: 0,
};

/// Returns a decimal as C has it.
fn number_of(decimal: Decimal) -> Number
    ensures { IsDecimal decimal result }
{
    let size = decimal.coefficient().unsigned_abs();
    Number {
        negative: (decimal.coefficient() < 0) as u32,
        power: decimal.power(),
        high: (size >> 64) as u64,
        low: (size % (1 << 64)) as u64,
    }
}

/// Returns the numbers of a transform as C has them. They are 0 if there is no transform.
fn numbers_of(numbers: Option<[Decimal; 3]>) -> [Number; 3]
    ensures { AreShown numbers result }
{
    match numbers {
        Some(numbers) => {
            let [x, y, z] = numbers;
            [number_of(x), number_of(y), number_of(z)]
        }
        None => [ZERO; 3],
    }
}

/// Returns a range as C has it.
pub fn range_of(range: Option<(i64, i64)>) -> Range
    ensures { result ≡ shown_range range }
{
    match range {
        Some((least, greatest)) => Range {
            some: 1,
            least,
            greatest,
        },
        None => Range {
            some: 0,
            least: 0,
            greatest: 0,
        },
    }
}

/// Returns the range that C has. None if it is empty.
fn range_in(range: Range) -> Option<(i64, i64)>
    ensures { result ≡ range_by range }
{
    if range.some == 0 {
        None
    } else {
        Some((range.least, range.greatest))
    }
}

impl Tally {
    ghost use Rattle.std.specs.Prelude.{◌++◌, ℕ, List};
    ghost use Rattle.cj_stream.specs.Parts.{headed, IsCut};
    ghost use Rattle.cj_stream.specs.Meaning.Rules.{Rules};
    ghost use Rattle.cj_stream.specs.Verdict.{ending};
    ghost use Rattle.cj_stream.specs.declared.ending.End.{End};
    ghost use Rattle.cj_stream.specs.TallySink.{Tally as Tallied};
    ghost use Rattle.cityseq_c.specs.Called.{IsTalliedOf};
    ghost use Rattle.cityseq_c.specs.Tally.{HasCounts, zeros};

    /// Returns the tally of a sink as C has it.
    pub fn of(sink: &TallySink) -> Tally
        ensures { IsTally sink.now result }
    {
        Tally {
            features: sink.features(),
            types: sink.types(),
            lods: sink.lods(),
            ranges: [
                range_of(sink.range(0)),
                range_of(sink.range(1)),
                range_of(sink.range(2)),
            ],
            transformed: sink.scale().is_some() as u64,
            scale: numbers_of(sink.scale()),
            translate: numbers_of(sink.translate()),
        }
    }

    /// Returns a sink with the counts and ranges of the tally, and no header.
    fn sink(&self) -> TallySink
        ensures { (tallied : Tallied) → IsTally tallied self.now → HasCounts tallied result }
    {
        let [x, y, z] = self.ranges;
        TallySink::of_counts(
            self.features,
            self.types,
            self.lods,
            [range_in(x), range_in(y), range_in(z)],
        )
    }

    /// Returns the tally for a header with the lines of two parts. This tally is for the header
    /// with the first part, which is complete. `next` is for the header with the second. Counts
    /// stop at 2^64 - 1. A tally of zeros joined with another is that other.
    pub fn then(&self, next: &Tally) -> Tally
        ensures joined { (rules : Rules) (h a b : List ℕ) → IsCut h a → ending rules (headed h a) ≡ End.Complete
            → IsTalliedOf rules (headed h a) self.now → IsTalliedOf rules (headed h b) next.now
            → IsTalliedOf rules (headed h (a ++ b)) result }
        ensures zeros { (tallied : Tallied) → IsTally tallied next.now → self.now ≡ zeros → result ≡ next.now }
    {
        laws::parts_are_joined();
        let header = if self.transformed == 0 { next } else { self };
        Tally {
            transformed: header.transformed,
            scale: header.scale,
            translate: header.translate,
            ..Tally::of(&self.sink().then(&next.sink()))
        }
    }
}
