//! What tests assert: a false assertion fails, and a true one does not.

use crate::assertions::{equal, holds_at};
use std::process::{ExitCode, Termination};
use std::rt::HostRuntime;
use std::test::Fail;

/// Whether a test that ends so fails. Why is printed, as always.
fn is_failed(rt: &HostRuntime, told: Result<(), Fail>) -> bool {
    told.report(rt) != ExitCode::SUCCESS
}

#[test]
fn what_is_false_fails(rt: HostRuntime) -> Result<(), Fail> {
    assert!(rt; is_failed(&rt, equal(1u8, 2, "numbers")), "1 is not 2");
    assert!(rt;
        is_failed(&rt, holds_at(false, "nothing", 7)),
        "false does not hold"
    );
    holds_at(true, "all", 7)
}
