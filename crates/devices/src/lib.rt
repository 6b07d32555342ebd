//! Readers and writers whose failures are counted, and the writing of whole texts.
//!
//! `Source` and `Sink` stand above std's `Read` and `Write`, and `Counted` makes one of any reader
//! or writer. Beside the bytes, where they are known, a contract sees how often the device has
//! failed, so that a caller can promise to tell of a failure only where there was one.
//! `Supply` and `Store` are devices in memory that fail when they are told to, for tests.
#![tactic(auto)]

mod counted;
mod fault;
mod sink;
mod source;
mod store;
mod supply;

pub use counted::Counted;
pub use fault::DeviceFault;
pub use sink::{Sink, put_all};
pub use source::Source;
pub use store::Store;
pub use supply::Supply;
