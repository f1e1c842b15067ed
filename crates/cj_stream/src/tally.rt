//! A sink that tallies.
ghost use Rattle.std.specs.Prelude.{◌≡◌, ◌<◌, ◌≤◌, ℕ, None, OnOk, OnErr, get_or};
ghost use Rattle.cj_geometry.specs.ObjectTypes.{row_at, type_count};
ghost use Rattle.cj_stream.specs.Item.{header_item, feature_item};
ghost use Rattle.cj_stream.specs.Parts.{JoinsTallies};
ghost use Rattle.cj_stream.specs.Sink.{HasRisen, never_fails};
ghost use Rattle.cj_stream.specs.Tallied.{class_count, slot_count};
ghost use Rattle.cj_stream.specs.TallySink.{no_tally};

mod adding;
mod joining;

use crate::output::WriteFault;
use crate::sink::LineSink;
use adding::count_objects;
pub use adding::{count_lods, slot_of, widen_all};
use cj_decimal::Decimal;
use cj_feature::{Feature, Header};
use cj_geometry::ObjectType;
use joining::{add_counts, join_ranges};
use std::marker::Model;

/// The number of LoD classes: 0 to 4, and other.
pub const LOD_CLASSES: usize = 6;

/// The number of counts of types: one for each type of the table, by its number, and the last for
/// those of extensions.
pub const TYPE_SLOTS: usize = 34;

/// The numbers of counts are the same in promises and in the program.
pub fn classes_are_counted()
    ensures lods { LOD_CLASSES ≡ class_count }
    ensures types { TYPE_SLOTS ≡ slot_count }
{}

/// Tallies the kept features of a stream. It counts features, city objects by type, and geometries
/// by LoD class. It has the least and greatest vertex coordinate on each axis, and the numbers of
/// the header's transform. A count stops at 2^64 - 1. It allocates nothing.
#[derive(Clone, Copy, Debug)]
pub struct TallySink {
    features: u64,
    types: [u64; TYPE_SLOTS],
    lods: [u64; LOD_CLASSES],
    ranges: [Option<(i64, i64)>; 3],
    scale: Option<[Decimal; 3]>,
    translate: Option<[Decimal; 3]>,
}

impl Model for TallySink {
    ghost use Rattle.cj_stream.specs.TallySink.{Tally};

    ghost Value = { Tally };

    ghost view = { λ s. record {
      features = s.features;
      types = s.types;
      lods = s.lods;
      ranges = s.ranges;
      scale = s.scale;
      translate = s.translate;
    } };

    ghost inverse = { λ t. record {
      features = t.features;
      types = t.types;
      lods = t.lods;
      ranges = t.ranges;
      scale = t.scale;
      translate = t.translate;
    } };
}

impl TallySink {
    /// Returns the tally of nothing.
    pub fn new() -> TallySink
        ensures { result ≡ no_tally }
    {
        TallySink {
            features: 0,
            types: [0; TYPE_SLOTS],
            lods: [0; LOD_CLASSES],
            ranges: [None; 3],
            scale: None,
            translate: None,
        }
    }

    /// Returns a sink with these counts and ranges, and no header. So a tally that was stored
    /// elsewhere can be continued.
    pub fn of_counts(
        features: u64,
        types: [u64; TYPE_SLOTS],
        lods: [u64; LOD_CLASSES],
        ranges: [Option<(i64, i64)>; 3],
    ) -> TallySink
        ensures { result ≡ record {
          features = features;
          types = types;
          lods = lods;
          ranges = ranges;
          scale = None;
          translate = None;
        } }
    {
        TallySink {
            features,
            types,
            lods,
            ranges,
            scale: None,
            translate: None,
        }
    }

    /// Returns the number of features that it took.
    pub fn features(&self) -> u64
        ensures { result ≡ self.now.features }
    {
        self.features
    }

    /// Returns the number of city objects of this type.
    pub fn by_type(&self, object_type: ObjectType) -> u64
        ensures { result ≡ get_or self.now.types (row_at object_type).number 0 }
    {
        self.types[object_type.number() as usize]
    }

    /// Returns the number of city objects of types of extensions.
    pub fn of_extensions(&self) -> u64
        ensures { result ≡ get_or self.now.types type_count 0 }
    {
        self.types[ObjectType::COUNT]
    }

    /// Returns the number of city objects of each type, by the type's number. The last is that of
    /// types of extensions.
    pub fn types(&self) -> [u64; TYPE_SLOTS]
        ensures { result ≡ self.now.types }
    {
        self.types
    }

    /// Returns the number of geometries in each LoD class, as [`TallySink::by_lod`] counts them.
    pub fn lods(&self) -> [u64; LOD_CLASSES]
        ensures { result ≡ self.now.lods }
    {
        self.lods
    }

    /// Returns the number of geometries in an LoD class. The classes 0 to 4 are LoDs that begin
    /// with `0` to `4`. Class 5 is any other LoD, and none. An instance has the LoD of its
    /// template.
    pub fn by_lod(&self, class: u8) -> u64
        requires { class ≤ 5 }
        ensures { result ≡ get_or self.now.lods class 0 }
    {
        self.lods[class as usize]
    }

    /// Returns the least and the greatest vertex coordinate on an axis: 0 is x, 1 is y, and 2 is z.
    /// These are the numbers in `vertices`, before the transform. None if there is no vertex.
    pub fn range(&self, axis: usize) -> Option<(i64, i64)>
        requires { axis < 3 }
        ensures { result ≡ get_or self.now.ranges axis None }
    {
        self.ranges[axis]
    }

    /// Returns the header's scale on each axis (CityJSON 2.0, section 4). A vertex is multiplied by
    /// it. None if the sink took no header.
    pub fn scale(&self) -> Option<[Decimal; 3]>
        ensures { result ≡ self.now.scale }
    {
        self.scale
    }

    /// Returns the header's translation on each axis. It is added to the scaled vertex. None if the
    /// sink took no header.
    pub fn translate(&self) -> Option<[Decimal; 3]>
        ensures { result ≡ self.now.translate }
    {
        self.translate
    }

    /// Returns the tally of a stream from those of its two parts, this one and `next`. Each part is
    /// the header with some of the later lines, and the first part is complete. A count stops at
    /// 2^64 - 1.
    pub fn then(&self, next: &TallySink) -> TallySink
        ensures { JoinsTallies self.now next.now result }
    {
        let mut tally = *self;
        tally.features = self.features.saturating_add(next.features);
        add_counts(&mut tally.types, &next.types);
        add_counts(&mut tally.lods, &next.lods);
        tally.ranges = join_ranges(self.ranges, next.ranges);
        tally
    }
}

impl LineSink for TallySink {
    ghost use Rattle.cj_stream.specs.TallySink.{Tallies};

    ghost law = { never_fails Tallies };

    fn header(&mut self, header: &Header<'_>, _lf: bool) -> Result<(), WriteFault> {
        self.scale = Some(header.scale());
        self.translate = Some(header.translate());
        Ok(())
    }

    fn put(&mut self, feature: &Feature<'_>, _lf: bool) -> Result<(), WriteFault> {
        self.features = self.features.saturating_add(1);
        count_objects(&mut self.types, &mut self.lods, feature);
        widen_all(&mut self.ranges, feature);
        Ok(())
    }
}
