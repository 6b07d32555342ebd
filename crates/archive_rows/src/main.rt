//! Tells what rows come to: a line in, what the crates below answer to it out.
//!
//! The first word of a row says its kind, and `Rows::put_row` has the families of these; a row of
//! `hubs` prints what it tells by itself. Blank lines and comments, which begin with #, are told as
//! they are.
#![tactic(auto)]

mod associations;
mod exchanges;
mod hubs;
mod operations;
mod rows;
mod sites;
mod text;

use anyhow::Result;
use rows::Rows;
use std::rt::HostRuntime;
use std::sync::Wait;
use std::thread::Threads;
use text::parted;

/// Prints what a row tells.
fn tell<R: Threads + Wait + Sync>(
    rt: &HostRuntime,
    host: &R,
    rows: &mut Rows,
    out: &mut String,
    row: &str,
) -> Result<()> {
    match parted(row) {
        ("course", _) => return hubs::went_on(rt, host),
        _ => {}
    }
    out.clear();
    rows.put(out, row)?;
    let out = out.as_str();
    println!(rt; "{out}")?;
    Ok(())
}

fn main(rt: HostRuntime) -> Result<()> {
    let mut rows = Rows::new(rt.alloc())?;
    let mut out = String::new(rt.alloc());
    for line in rt.lines(rt.alloc()) {
        tell(&rt, &rt, &mut rows, &mut out, line?.as_str())?;
    }
    Ok(())
}
