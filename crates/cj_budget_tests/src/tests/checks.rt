//! Comparisons. Each is one function for all types, because an assert makes the proof of its
//! function slower.
use std::fmt::Debug;
use std::process::Abort;

/// Compares two values.
pub fn check_same<T: PartialEq + Debug + Copy>(rt: &impl Abort, got: T, wanted: T) {
    assert_eq!(rt; got, wanted);
}

/// Compares two values, with a name.
pub fn check_named<T: PartialEq + Debug + Copy>(rt: &impl Abort, got: T, wanted: T, name: &str) {
    assert_eq!(rt; got, wanted, "{name}");
}
