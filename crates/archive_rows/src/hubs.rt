//! Rows of hubs in memory.
//!
//! `course`: two passes of a hub store, correct and look until it is closed, whatever memory is
//! refused to it.

mod course;
mod hub;
mod images;

use crate::hubs::course::{BLANK, Came, Course};
use crate::hubs::hub::with_hub;
use anyhow::{Result, anyhow};
use std::alloc::{AllocError, Global};
use std::rt::HostRuntime;
use std::sync::Wait;
use std::thread::Threads;

/// What doesn't hold is an error.
fn must(holds: bool, what: &str) -> Result<()> {
    if holds {
        return Ok(());
    }
    Err(anyhow!("it does not hold: {what}"))
}

/// What a call answered, in words.
fn in_words(alloc: Global, what: &str, came: Came) -> Result<String, AllocError> {
    match came {
        Ok(number) => format!(in alloc; "{what} {number}"),
        Err(fault) => format!(in alloc; "{what}: {fault}"),
    }
}

/// Prints what two calls answered.
fn tell(rt: &HostRuntime, what: &str, came: (Came, Came)) -> Result<()> {
    let first = in_words(rt.alloc(), what, came.0)?;
    let second = in_words(rt.alloc(), what, came.1)?;
    println!(rt; "{first}, {second}")?;
    Ok(())
}

/// Prints how many operations are held.
fn tell_held(rt: &HostRuntime, came: Came) -> Result<()> {
    let held = in_words(rt.alloc(), "operations", came)?;
    println!(rt; "{held}")?;
    Ok(())
}

/// What holds of a course.
fn holds(course: &Course) -> Result<()> {
    must(course.counts_on(), "each counter is used once")?;
    must(course.is_seen(), "what is published is seen")?;
    must(course.is_left, "the closed hub leaves what has its place")
}

/// Tells of a course.
fn told_of(rt: &HostRuntime, course: &Course) -> Result<()> {
    tell(rt, "image", course.stored)?;
    tell(rt, "counter", course.corrected)?;
    tell_held(rt, course.held)?;
    tell(rt, "sent", course.sent)?;
    holds(course)?;
    println!(rt; "the closed hub has left what has its place")?;
    Ok(())
}

/// A hub goes on where memory is refused to it: what is pending is published with what is stored
/// next, its counter is not used again, and the closed hub leaves it.
pub fn went_on<R: Threads + Wait + Sync>(rt: &HostRuntime, host: &R) -> Result<()> {
    let alloc = rt.alloc();
    let mut course = BLANK;
    with_hub(host, alloc, &mut course)?;
    told_of(rt, &course)
}
