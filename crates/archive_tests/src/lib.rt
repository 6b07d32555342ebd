//! Tests of what an assertion says; of the logs and shelves that keep operations on disk; and of
//! servers, both ends in threads of one process, over 127.0.0.1.
//!
//! They stand in a crate of their own, so that no crate is proved once more with its tests.
#![tactic(auto)]

#[cfg(test)]
mod asserted;
#[cfg(test)]
mod assertions;
#[cfg(test)]
mod disks;
#[cfg(test)]
mod messages;
#[cfg(test)]
mod ops;
#[cfg(test)]
mod served;
#[cfg(test)]
mod serving;
#[cfg(test)]
mod shelves;
#[cfg(test)]
mod stops;
#[cfg(test)]
mod stored;
#[cfg(test)]
mod visitors;
