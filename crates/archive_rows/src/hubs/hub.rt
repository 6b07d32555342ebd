//! A new hub, and what is done with it.
ghost use Rattle.std.specs.Prelude.{◌≡◌};

use crate::hubs::course::{Course, gone_on};
use anyhow::{Result, anyhow};
use site_hub::{HubName, Keeper, Opened, open};
use site_state::Site;
use std::alloc::Global;
use std::marker::Brand;
use std::sync::{Mutex, Wait};
use std::thread::Threads;

/// The keeper of a hub, which its passes share.
pub type Shared<'a, H, T, R> = Mutex<Keeper<H, T, &'a R>>;

fn run<H: HubName + Send + Sync, R: Threads + Wait + Sync>(
    rt: &R,
    alloc: Global,
    opened: Opened<&R>,
    course: &mut Course,
) -> Result<()>
    requires book { opened.book ≡ H.book }
    requires number { opened.number ≡ H.number }
    requires opening { opened.opening ≡ H.opening }
    requires passes { opened.passes ≡ H.passes }
{
    let Ok((keeper, passes)) = opened.named::<H>() else {
        return Err(anyhow!("no hub: memory ran out, or no place was free"));
    };
    gone_on(rt, alloc, Mutex::new(keeper), passes, course)
}

/// Two passes of a new hub, which holds nothing, go on until it is closed.
pub fn with_hub<R: Threads + Wait + Sync>(
    rt: &R,
    alloc: Global,
    course: &mut Course,
) -> Result<()> {
    let opened = open(alloc, rt, Site::new(alloc), 1, 2)?;
    run::<Brand, R>(rt, alloc, opened, course)
}
