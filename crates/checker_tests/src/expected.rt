// What a test expects, as calls: each is proved once, where an `assert!` of its own is proved in every test that has one.
ghost use Rattle.std.specs.Prelude.{◌≡◌, true};

use std::fmt::Debug;
use std::process::Abort;

/// Goes on only where both values are equal; else it stops the test.
pub fn same<T: PartialEq + Drop>(rt: &impl Abort, found: T, wanted: T)
    ensures { T.PartialEq.eq found wanted ≡ true }
{
    assert!(rt; found == wanted);
}

/// Goes on only where this is so; else it stops the test.
pub fn holds(rt: &impl Abort, condition: bool)
    ensures { condition ≡ true }
{
    assert!(rt; condition);
}

/// Goes on only where this is so; else it stops the test, and says of what.
pub fn holds_of(rt: &impl Abort, name: &str, condition: bool) {
    assert!(rt; condition, "{name}");
}

/// The same, of a text after others.
pub fn holds_in(rt: &impl Abort, (before, text): (&str, &str), condition: bool) {
    assert!(rt; condition, "{text} after {before}");
}

/// The same, of a place.
pub fn holds_at(rt: &impl Abort, (name, place): (&str, u64), condition: bool) {
    assert!(rt; condition, "{name}: {place}");
}

/// Goes on only where both values are equal; else it stops the test, and says both, and of what.
pub fn same_of<T: PartialEq + Debug + Drop>(rt: &impl Abort, name: &str, found: T, wanted: T) {
    assert_eq!(rt; found, wanted, "{name}");
}

/// The same, of a number.
pub fn same_at<T: PartialEq + Debug + Drop>(rt: &impl Abort, place: u64, found: T, wanted: T) {
    assert_eq!(rt; found, wanted, "{place}");
}
