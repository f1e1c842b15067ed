//! Two tallies, joined into one.
ghost use Rattle.std.specs.Prelude.{◌≡◌, ◌+◌, ◌<◌, ℕ, None, get_or, length};
ghost use Rattle.cj_stream.specs.Parts.{wider as wider_range};
ghost use Rattle.cj_stream.specs.Tallied.{capped};

/// Adds each of the other counts to the count at its place. A count stops at 2^64 - 1.
pub fn add_counts(counts: &mut [u64], others: &[u64])
    requires { length others.now ≡ length counts.old }
    ensures { (n : ℕ) → n < length counts.old
        → get_or counts.new n 0 ≡ capped (get_or counts.old n 0 + get_or others.now n 0) }
{
    for i in 0..counts.len() {
        counts[i] = counts[i].saturating_add(others[i]);
    }
}

/// Returns the range of the numbers of both ranges.
fn wider(first: Option<(i64, i64)>, second: Option<(i64, i64)>) -> Option<(i64, i64)>
    ensures { result ≡ wider_range first second }
{
    match (first, second) {
        (Some((least, greatest)), Some((low, high))) => Some((least.min(low), greatest.max(high))),
        (Some(range), None) => Some(range),
        (None, other) => other,
    }
}

/// Returns such a range for each axis.
pub fn join_ranges(
    first: [Option<(i64, i64)>; 3],
    second: [Option<(i64, i64)>; 3],
) -> [Option<(i64, i64)>; 3]
    ensures { (axis : ℕ) → axis < 3
        → get_or result axis None ≡ wider_range (get_or first axis None) (get_or second axis None) }
{
    let [x, y, z] = first;
    let [other_x, other_y, other_z] = second;
    [wider(x, other_x), wider(y, other_y), wider(z, other_z)]
}
