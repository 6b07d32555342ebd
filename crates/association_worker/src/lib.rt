//! Sites as the ports of associations (PS3.4, annexes B and C).
//!
//! `SitePort` is a site in memory that no one else changes, `HubPort` a pass of a running site,
//! which is asked through a `Looker` that waits for nobody. A pass knows no shelf: what loads data
//! sets for it makes it a port. All that an association over a port does is said by
//! `run_association` of `association_run`.
#![tactic(auto)]

mod at_entry;
mod hub_port;
mod loading;
mod looker;
mod shared_keeper;
mod site_port;

pub use at_entry::AtEntry;
pub use hub_port::HubPort;
pub use loading::loaded;
pub use looker::Looker;
pub use site_port::SitePort;
