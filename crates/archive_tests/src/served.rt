//! Servers of two workers, and what comes to them.

use crate::assertions::equal;
use crate::messages::{NONE_FOUND, ONE_FOUND, REFUSED, STORED};
use crate::serving::{Told, served};
use crate::visitors::Plan;
use std::rt::HostRuntime;
use std::test::Fail;

/// With an association each, the second worker finds what the first one stored; between both a site
/// with a correction exchanges with the server, and each has what the other had.
#[test]
fn an_image_stored_at_one_worker_is_found_at_the_other(rt: HostRuntime) -> Result<(), Fail> {
    let plan = Plan {
        each: 1,
        first: &[STORED],
        exchanges: 2,
        last: &[ONE_FOUND],
    };
    let both = Told {
        held: 2,
        accepted: Some(2),
        asked: 2,
    };
    equal(served(&rt, rt.alloc(), plan, 2)?, both, "what came of it")
}

/// An image that the shelf refuses is answered A700H and is in no row.
#[test]
fn an_image_that_the_shelf_refuses_is_not_found(rt: HostRuntime) -> Result<(), Fail> {
    let plan = Plan {
        each: 2,
        first: &[REFUSED, NONE_FOUND, NONE_FOUND, NONE_FOUND],
        exchanges: 0,
        last: &[],
    };
    let none = Told {
        held: 1,
        accepted: Some(4),
        asked: 1,
    };
    equal(served(&rt, rt.alloc(), plan, 0)?, none, "what came of it")
}
