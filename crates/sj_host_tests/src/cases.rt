//! What the tests ask of texts.
use sj_base::Steps;
use std::process::Abort;

/// Stops the test where a text is not what it should be. Each place with an assertion of its own takes a proof of how
/// its message is made, so the tests share this one.
pub(crate) fn expect(rt: &impl Abort, found: &str, want: &str, about: &str) {
    assert_eq!(rt; found, want, "{about}");
}

/// What makes a counter, beside `Abort`: a function with a bound has no `HostRuntime`.
pub(crate) trait Counts {
    fn steps(&self) -> Steps;
}

impl Counts for HostRuntime {
    fn steps(&self) -> Steps {
        Steps::new(self)
    }
}
