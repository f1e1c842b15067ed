//! The sink that writes records of features to a slice of the caller.
ghost use Rattle.std.specs.Prelude.{◌≤◌, length};

use super::cursor::Cursor;
use super::record_of::FeatureRecord;
use cj_stream::{Feature, Header, LineSink, WriteFault};

/// A slice of the caller for records, and the number of records in it. Records that do not fit are
/// left out.
#[derive(Drop)]
pub struct Listed<'a> {
    cursor: Cursor<'a>,
    records: &'a mut [FeatureRecord],
    count: usize,
    ghost room: { count ≤ length records.now },
}

impl<'a> Listed<'a> {
    ghost use Rattle.std.specs.Prelude.{◌≡◌};
    ghost use Rattle.cj_stream.specs.Meaning.Lines.{lines};
    ghost use Rattle.cityseq_c.specs.Features.{listed_place, listed_room, listed_loan, listed_count};

    /// Returns a sink for the features of a part. It has written no record.
    pub fn new(part: &'a [u8], records: &'a mut [FeatureRecord]) -> Listed<'a>
        ensures loan { listed_loan result ≡ records.entry.ghost_name }
        ensures room { listed_room result ≡ records.old }
        ensures count { listed_count result ≡ 0 }
        ensures place { listed_place result ≡ record { line = 2; begin = 0; left = lines part.now } }
    {
        Listed {
            cursor: Cursor::new(part),
            records,
            count: 0,
        }
    }
}

impl LineSink for Listed<'_> {
    ghost use Rattle.cityseq_c.specs.Features.{ListsItem};
    ghost use Rattle.cj_stream.specs.Sink.{never_fails};

    ghost law = { never_fails ListsItem };

    fn header(&mut self, _header: &Header<'_>, _lf: bool) -> Result<(), WriteFault> {
        Ok(())
    }

    fn put(&mut self, feature: &Feature<'_>, _lf: bool) -> Result<(), WriteFault> {
        if let Some((line, begin)) = self.cursor.seek(feature.bytes()) {
            if self.count < self.records.len() {
                self.records[self.count] = FeatureRecord::of(line, begin, feature);
                self.count += 1;
            }
        }
        Ok(())
    }
}
