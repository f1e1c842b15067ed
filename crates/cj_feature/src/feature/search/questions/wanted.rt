//! Bits that show which second texts may be asked about.
ghost use Rattle.std.specs.Prelude.{◌<◌};

use crate::feature::search::questions::order::Question;
use cj_spans::Node;

/// The number of bits at one place.
const BITS: u64 = 32;

/// Returns the place for a number.
pub fn place_among<const PLACES: usize>(number: u64) -> usize
    requires { 0 < PLACES }
    ensures { result < PLACES }
{
    (number % PLACES as u64) as usize
}

/// Returns the bit for a number, among those at its place.
fn bit_among<const PLACES: usize>(number: u64) -> u32
    requires { 0 < PLACES }
{
    1u32 << (number / PLACES as u64 % BITS)
}

/// Sets the bits of the second texts of questions. The place of a bit depends on the number that
/// the whole hash, not on the short one. So texts of one short hash have different bits.
pub fn note_wanted<const KEPT: usize>(
    objects: Node,
    questions: &[Question],
    wanted: &mut [u32; KEPT],
)
    requires { 0 < KEPT }
{
    for one in wanted.iter_mut() {
        *one = 0;
    }
    for question in questions {
        let hash = question.to.node(objects).text_hash();
        wanted[place_among::<KEPT>(hash)] |= bit_among::<KEPT>(hash);
    }
}

/// Returns whether a text of this hash may be asked about as a second one.
pub fn is_wanted<const KEPT: usize>(wanted: &[u32; KEPT], hash: u64) -> bool
    requires { 0 < KEPT }
{
    wanted[place_among::<KEPT>(hash)] & bit_among::<KEPT>(hash) != 0
}
