//! Finds where to cut a part of a stream.
ghost use Rattle.std.specs.Prelude.{◌≡◌, take};
ghost use Rattle.cj_stream.specs.Lines.{whole};
ghost use Rattle.cityseq_c.specs.Cutting.{part_end as end_of_part};

use memchr::{memchr, memrchr};

/// Returns where to cut a part of about `wanted` bytes. This is after the last LF among the first
/// `wanted` bytes, or else after the first LF. It is 0 if there is no LF.
pub fn part_end(part: &[u8], wanted: usize) -> usize
    ensures end { result ≡ end_of_part part.now wanted }
    ensures whole { whole (take result part.now) ≡ take result part.now }
{
    if let Some(place) = memrchr(b'\n', &part[..wanted.min(part.len())]) {
        return place + 1;
    }
    match memchr(b'\n', part) {
        Some(place) => place + 1,
        None => 0,
    }
}
