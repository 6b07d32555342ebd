//! Operations that were used last, in memory.
//!
//! As many are held as there is room for, and where more come the least recently used ones go
//! first. A caller says how many bytes of memory each takes.
#![tactic(auto)]

mod held;
mod laws;
mod recent;

pub use laws::what_stays_is_the_longest_beginning_that_fits;
pub use recent::Recent;
