//! By which a server tells how much it takes of its machine.

use crate::file::beside;
use crate::folder::{is_folder, within};
use archive_server::Gauges;
use std::alloc::AllocError;
use std::fs::File;
use std::rt::HostRuntime;

/// A file, open, where it can be.
fn opened(host: &HostRuntime, name: Result<String, AllocError>) -> Option<File> {
    let name = name.ok()?;
    File::open(host, name.as_str()).ok()
}

/// The two files that an archive stands in: those of a folder, or a file and its log.
fn store_of(host: &HostRuntime, file: &str) -> Option<(File, File)> {
    if is_folder(host, file) {
        let heads = opened(host, within(host, file, "heads"))?;
        let bodies = opened(host, within(host, file, "bodies"))?;
        return Some((heads, bodies));
    }
    let table = File::open(host, file).ok()?;
    let log = opened(host, beside(host, file, "-wal"))?;
    Some((table, log))
}

/// What tells how much a server takes, whose archive is open. They stay open as long as the server
/// runs, and nothing is written to them.
pub fn gauges_of(host: &HostRuntime, file: &str) -> Gauges {
    Gauges {
        memory: File::open(host, "/proc/self/statm").ok(),
        store: store_of(host, file),
    }
}
