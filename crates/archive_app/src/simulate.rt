//! `archive simulate`: answers the script on standard input.

use devices::Counted;
use site_simulation::{SimFault, simulate};
use std::alloc::Global;
use std::io;
use std::rt::Runtime;

/// Answers the script on standard input, on standard output. It says how many lines there were.
pub fn answer_script(rt: &impl Runtime<A = Global>) -> Result<u64, SimFault> {
    let mut reader = Counted::new(rt.reader());
    let mut writer = Counted::new(io::writer(rt));
    simulate(rt.alloc(), &mut reader, &mut writer)
}
