// The assertion that two values are equal, which is proved once for all types.
use std::fmt::Debug;
use std::process::Abort;

// `what` says which values they are.
pub fn is_equal<T: PartialEq + Debug + Drop>(rt: &impl Abort, what: &str, found: T, wanted: T) {
    assert_eq!(rt; found, wanted, "{what}");
}
