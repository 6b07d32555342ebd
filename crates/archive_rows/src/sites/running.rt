//! Rows of runs of a world.

use crate::text::{RowFault, number_of, parted};
use site_state::WholeSite;
use site_world::{Seen, Step, World, WorldFault};
use std::alloc::{AllocError, Global};

/// Puts what a step was answered.
fn put_answer(out: &mut String, answer: &Result<Seen, WorldFault>) -> Result<(), AllocError> {
    match answer {
        Ok(Seen::Took(taken)) => write!(out, " {taken:?}"),
        Ok(_) => out.push_str(" another"),
        Err(fault) => write!(out, " {fault:?}"),
    }
}

/// Adds each operation of a site as one that is taken at the site of a number.
fn add_steps(
    alloc: Global,
    steps: &mut Vec<Step>,
    site: &WholeSite,
    number: usize,
) -> Result<(), AllocError> {
    for op in site.operations(alloc)? {
        steps.push(Step::Take(number, op.copy(alloc)?))?;
    }
    Ok(())
}

/// Runs steps in a world: what each is answered, and how much each site then holds.
fn put_steps(out: &mut String, world: &mut World, steps: &[Step]) -> Result<(), AllocError> {
    out.push_str("answered")?;
    for answer in world.run(steps)?.as_slice() {
        put_answer(out, answer)?;
    }
    for number in 1..17 {
        if let Some(site) = world.site(number) {
            let held = site.counts().operations;
            write!(out, ", {number} holds {held}")?;
        }
    }
    Ok(())
}

/// Puts the run of these steps in a new world of so many sites.
fn put_new(
    alloc: Global,
    out: &mut String,
    sites: usize,
    steps: &[Step],
) -> Result<(), AllocError> {
    match World::new(alloc, sites) {
        Ok(mut world) => put_steps(out, &mut world, steps),
        Err(fault) => write!(out, "no world: {fault:?}"),
    }
}

/// `world SITES NUMBER..`: a run of a new world of so many sites, in which the operations of the
/// site are taken at those of these numbers, one after the other.
pub fn put_world(
    alloc: Global,
    out: &mut String,
    site: &WholeSite,
    words: &str,
) -> Result<(), RowFault> {
    let (sites, words) = parted(words);
    let mut steps = Vec::new(alloc);
    for word in words.split_whitespace() {
        add_steps(alloc, &mut steps, site, number_of(word)? as usize)?;
    }
    Ok(put_new(alloc, out, number_of(sites)? as usize, steps.as_slice())?)
}
