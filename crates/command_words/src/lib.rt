//! What a command line asks for, and the IPv4 networks by which a listener tells who may come.
#![tactic(auto)]

ghost use Rattle.std.specs.Prelude.{◌≡◌, IfOk};
ghost use Rattle.command_words.specs.Words.{change_in as change_in_words, callers_for, named_or, threads_at};
ghost use Rattle.command_words.specs.declared.TheConstants.{LOOPBACK};

mod networks;
mod parts;
mod titles;

use archive_model::View;
use exchange::Role;
pub use networks::{Network, is_allowed, read_network};
use octets::Octets;
use operation::Target;
pub use parts::{Part, bad_part, unmatched};
use site_script::{tag_in, target_in};
use site_tables::Table;
use std::alloc::{AllocError, Global};
use std::net::Ipv4Addr;

/// The value that an attribute of a target is given.
#[derive(Debug, Drop)]
pub struct Change {
    pub target: Target,
    pub tag: u32,
    pub value: Octets,
}

/// A change that is made at the site of a number, and the file or folder with the site's
/// operations.
#[derive(Debug, Drop)]
pub struct Correcting<'a> {
    pub file: &'a str,
    pub site: u16,
    pub change: Change,
}

/// The addresses by which a machine reaches itself (RFC 6890, section 2.2.2): whoever asks for a
/// page or corrects comes from there, where no network is named.
pub const LOOPBACK: &[Network] = &[Network {
    address: Ipv4Addr::LOCALHOST,
    bits: 8,
}];

/// Where corrections of a running site are asked for, and the number of the site, which their
/// stamps carry.
#[derive(Clone, Copy, Debug)]
pub struct DeskAt<'a> {
    pub address: &'a str,
    pub site: u16,
}

/// The operations in a file or a folder, served at an address by so many workers.
#[derive(Debug, Drop)]
pub struct Serving<'a> {
    pub file: &'a str,
    pub listen: &'a str,
    pub workers: u16,
    /// How many associations each of them accepts. Where it is left out they go on for ever.
    pub each: Option<u32>,
    /// Where exchanges come in.
    pub exchange: &'a str,
    /// How many are served. Where none is, nothing is listened for them.
    pub rounds: u32,
    /// How many are served at once: 0 where none is served.
    pub exchange_workers: u16,
    /// Where pages are asked for. Where it is left out nothing is listened for them.
    pub page: Option<&'a str>,
    /// Where corrections are asked for, likewise.
    pub desk: Option<DeskAt<'a>>,
    /// The sites that are called for an exchange, again and again.
    pub peers: Vec<&'a str>,
    /// The seconds between an exchange with one of them and the next.
    pub every: u32,
    /// From where associations may come. Where none is named they may come from anywhere.
    pub allowed: Vec<Network>,
    /// From where exchanges may come. Where none is named, from anywhere that reaches the address,
    /// which is then of this machine.
    pub exchange_allowed: Vec<Network>,
    /// From where pages may be asked for. Where none is named, from this machine alone.
    pub page_allowed: Vec<Network>,
    /// From where corrections may be, likewise.
    pub desk_allowed: Vec<Network>,
    /// The names by which pages and the desk may be asked, beside addresses and `localhost`.
    pub names: Vec<&'a str>,
    /// The calling titles that may ask for an association. Where none is named any may.
    pub callers: Vec<&'a str>,
    /// Those that may call QUALITY, and AUDIT. Where none is named those above may.
    pub quality_callers: Vec<&'a str>,
    pub audit_callers: Vec<&'a str>,
    /// The memory that images may hold which were stored or sent last, in MiB.
    pub cache: u32,
    /// The seconds that a wait for a peer lasts at most. With 0 it has no end.
    pub idle: u32,
    /// Whether the end of standard input ends it.
    pub ends_with_input: bool,
    /// Whether it starts where an operation that can't be read may be a rejection note.
    pub shows_without: bool,
    /// Whether each association, each exchange and each connection for a page or to the desk is a
    /// line on standard error, and each image that was not taken.
    pub is_verbose: bool,
}

/// The operations in a file or a folder, and the address of the site that they are exchanged with.
#[derive(Clone, Copy, Debug)]
pub struct Exchanging<'a> {
    pub file: &'a str,
    pub peer: &'a str,
    /// Which side of the exchange the command takes.
    pub role: Role,
    /// The seconds that a wait for it lasts at most. With 0 it has no end.
    pub idle: u32,
}

/// A report on the operations in a file or a folder.
#[derive(Clone, Copy, Debug)]
pub struct Reporting<'a> {
    pub file: &'a str,
    /// What is told of the site, or the counts where none is named.
    pub table: Option<Table>,
    /// Whether the table is told as tab-separated values.
    pub separated: bool,
    /// Whether the counts have one number for all operations beside them.
    pub fingerprint: bool,
}

/// The archive whose operations are brought into another, and that one.
#[derive(Clone, Copy, Debug)]
pub struct Moving<'a> {
    pub from: &'a str,
    pub to: &'a str,
}

/// The file or folder whose operations are tested against their digests.
#[derive(Clone, Copy, Debug)]
pub struct Verifying<'a> {
    pub file: &'a str,
}

/// What a command line asks for.
#[derive(Debug, Drop)]
pub enum Asked<'a> {
    /// Answers a script.
    Simulate,
    /// Reports on the operations in a file or a folder.
    Report(Reporting<'a>),
    /// Makes a correction.
    Correct(Correcting<'a>),
    /// Serves.
    Serve(Serving<'a>),
    /// Exchanges operations with another site.
    Exchange(Exchanging<'a>),
    /// Brings the operations of one archive into another.
    Move(Moving<'a>),
    /// Tests operations against their digests.
    Verify(Verifying<'a>),
}

/// The networks that are named, or this machine alone where none is.
fn named_or_loopback(networks: &[Network]) -> &[Network]
    ensures { result.now ≡ named_or networks.now LOOPBACK.now }
{
    if networks.is_empty() {
        return LOOPBACK;
    }
    networks
}

impl<'a> Serving<'a> {
    /// The calling titles that may call the title of a view. Where none is named any may.
    pub fn callers_of(&self, view: View) -> &[&'a str]
        ensures { result.now ≡ callers_for view self.now.callers.items
            self.now.quality_callers.items self.now.audit_callers.items }
    {
        let named = match view {
            View::Archive => return self.callers.as_slice(),
            View::Quality => self.quality_callers.as_slice(),
            View::Audit => self.audit_callers.as_slice(),
        };
        if named.is_empty() {
            return self.callers.as_slice();
        }
        named
    }

    /// How many threads answer with pages: one where they are asked for somewhere.
    pub fn paging(&self) -> usize
        ensures { result ≡ threads_at self.now.page }
    {
        match self.page {
            None => 0,
            Some(_) => 1,
        }
    }

    /// How many threads serve who comes to correct, likewise.
    pub fn correcting(&self) -> usize
        ensures { result ≡ threads_at self.now.desk }
    {
        match self.desk {
            None => 0,
            Some(_) => 1,
        }
    }

    /// The networks from which pages may be asked for.
    pub fn page_networks(&self) -> &[Network]
        ensures { result.now ≡ named_or self.now.page_allowed.items LOOPBACK.now }
    {
        named_or_loopback(self.page_allowed.as_slice())
    }

    /// The networks from which corrections may be asked for.
    pub fn desk_networks(&self) -> &[Network]
        ensures { result.now ≡ named_or self.now.desk_allowed.items LOOPBACK.now }
    {
        named_or_loopback(self.desk_allowed.as_slice())
    }
}

/// The change that four words ask for, or `None` where the first names no kind of target or the
/// third is no tag.
pub fn change_in(
    alloc: Global,
    kind: &str,
    key: &str,
    tag: &str,
    value: &str,
) -> Result<Option<Change>, AllocError>
    ensures { IfOk result (λ change. change ≡ change_in_words kind.now key.now tag.now value.now) }
{
    let key = Octets::from_slice(alloc, key.as_bytes())?;
    let Some(target) = target_in(alloc, kind.as_bytes(), &key)? else {
        return Ok(None);
    };
    let Some(tag) = tag_in(tag.as_bytes()) else {
        return Ok(None);
    };
    Ok(Some(Change {
        target,
        tag,
        value: Octets::from_slice(alloc, value.as_bytes())?,
    }))
}
