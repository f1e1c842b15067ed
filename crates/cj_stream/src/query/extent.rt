//! Whether a feature is in a box.
ghost use Rattle.std.specs.Prelude.{◌≡◌, ◌<◌, ◌||◌, ◌∷◌, [], true, get_or, int_le, List, map as each, ℤ, None, Some};
ghost use Rattle.cj_decimal.specs.Meaning.Affine.{image};
ghost use Rattle.cj_feature.specs.HeaderView.{header_tree, has_box};
ghost use Rattle.cj_feature.specs.View.{feature_tree};
ghost use Rattle.cj_feature.specs.Walks.{coordinates_left};
ghost use Rattle.cj_stream.specs.Meaning.Criteria.{is_in as in_box, vertices_of};
ghost use Rattle.cj_stream.specs.Extent.{alone, widened, range_of, meets, IsSmall};
ghost use Rattle.cj_stream.specs.Query.{box_of};
ghost use Rattle.cj_stream.specs.Tallied.{numbers_on};

use crate::query::bounds::Bounds;
use cj_decimal::{Affine, Fixed18};
use cj_feature::{Coordinates, Feature, Header};

/// The least and the greatest of some numbers.
#[derive(Clone, Copy)]
struct Range {
    least: i64,
    greatest: i64,
}

impl Range {
    /// Returns the range of one number.
    fn alone(number: i64) -> Range
        ensures { result ≡ alone number }
    {
        Range {
            least: number,
            greatest: number,
        }
    }

    /// Returns the range with one number more.
    fn widened(self, number: i64) -> Range
        ensures { result ≡ widened self (number ∷ []) }
    {
        Range {
            least: self.least.min(number),
            greatest: self.greatest.max(number),
        }
    }

    /// Returns the range with the rest of the numbers of a walk.
    fn widened_by(self, numbers: Coordinates) -> Range
        ensures { result ≡ widened self (coordinates_left numbers.entry) }
    {
        let mut range = self;
        for number in numbers {
            range = range.widened(number);
        }
        range
    }

    /// Returns whether the map brings one of the two to at most this end.
    fn is_at_most(self, map: &Affine, end: Fixed18) -> bool
        requires { IsSmall self }
        ensures { result ≡ (int_le (image map.now self.least) end || int_le (image map.now self.greatest) end) }
    {
        map.compare(self.least, end).is_le() || map.compare(self.greatest, end).is_le()
    }

    /// Returns whether the map brings one of the two to at least this end.
    fn is_at_least(self, map: &Affine, end: Fixed18) -> bool
        requires { IsSmall self }
        ensures { result ≡ (int_le end (image map.now self.least) || int_le end (image map.now self.greatest)) }
    {
        map.compare(self.least, end).is_ge() || map.compare(self.greatest, end).is_ge()
    }

    /// Returns whether the map brings some number to at most `high`, and some to at least `low`.
    /// The least and the greatest decide it, since a map keeps the order of numbers or reverses it.
    fn meets(self, map: &Affine, low: Fixed18, high: Fixed18) -> bool
        requires { IsSmall self }
        ensures { (ns : List ℤ) → range_of ns ≡ Some self → result ≡ meets map.now low high ns }
    {
        self.is_at_most(map, high) && self.is_at_least(map, low)
    }
}

/// Returns whether a map brings some vertex to at most `high` on an axis, and some to at least
/// `low`. If the first vertex is between both, it reads no other one. Most features in a box end
/// here.
fn meets_on(feature: &Feature, axis: usize, map: &Affine, low: Fixed18, high: Fixed18) -> bool
    requires { axis < 3 }
    ensures met { result ≡ meets map.now low high (numbers_on axis (feature_tree feature.now)) }
    ensures there { each Some (numbers_on axis (feature_tree feature.now))
        ≡ each (λ v. get_or v axis None) (vertices_of (feature_tree feature.now)) }
{
    let mut numbers = feature.coordinates(axis);
    let Some(number) = numbers.next() else {
        return false;
    };
    let first = Range::alone(number);
    first.meets(map, low, high) || first.widened_by(numbers).meets(map, low, high)
}

/// Returns whether a feature is in the box. The header was judged for a box.
///
/// It maps the first number on an axis, and the least and greatest only if the first does not
/// decide. It reads y only if x meets the box.
pub fn is_in(bounds: &Bounds, feature: &Feature, header: &Header) -> bool
    requires { has_box header.now ≡ true }
    ensures { result ≡ in_box (box_of bounds.now) (header_tree header.now) (feature_tree feature.now) }
{
    let [x_map, y_map] = match header.affine() {
        Some(maps) => maps,
        None => unreachable!(), // proved: the header has a box
    };
    meets_on(feature, 0, &x_map, bounds.min_x, bounds.max_x)
        && meets_on(feature, 1, &y_map, bounds.min_y, bounds.max_y)
}
