//! One check of one case.

use std::process::Abort;

/// Ends the test where the case does not hold.
pub(crate) fn expect(rt: &impl Abort, holds: bool, what: &str) {
    assert!(rt; holds, "{what}");
}
