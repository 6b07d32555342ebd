//! `archive exchange`: exchanges the operations in a file or a folder with another site.

ghost use Rattle.std.specs.Prelude.{◌≡◌, if◌then◌else◌, Err, IfErr, IfSome, None, Ok, Some};
ghost use Rattle.archive_app.specs.Causes.{is_own as is_own_in};

use crate::file::{OnStore, on_shelf};
use crate::folder::{Starting, is_absent, is_folder, site_in};
use crate::held::keep_held;
use crate::output::{CommandFault, NetCause, lines_of_exchange, reach_cause_of};
use crate::progress::{Progress, Reading, Writing};
use crate::refused::{Done, Lacks, Refused, about, done_without};
use crate::serve::wait_of;
use archive_server::{NetFault, Wire};
use command_words::Exchanging;
use devices::Counted;
use exchange::{Ended, ExchangeFault, MOST_EXCHANGES, Role};
use hub_exchange::{Behind, exchange_on};
use shelved_site::{Sited, Store, site_on};
use site_state::Site;
use std::net::{Net, TcpListener, TcpStream};
use std::rt::HostRuntime;
use std::thread::Threads;

/// A connection to an address, on which each wait lasts so many seconds at most.
pub fn connect_to<'a, R: Net<Listener = TcpListener, Stream = TcpStream>>(
    net: &R,
    address: &'a str,
    idle: u32,
) -> Result<Wire, Refused<'a>> {
    match Wire::to(net, address, wait_of(idle)) {
        Ok(wire) => Ok(wire),
        Err(error) => {
            let fault = CommandFault::Net(NetFault::Connect);
            let cause = reach_cause_of(error.kind());
            Err(Refused::net(address, fault, cause))
        }
    }
}

/// The connection that is made already, or one more.
fn wire_of<'a, R: Net<Listener = TcpListener, Stream = TcpStream>>(
    net: &R,
    exchanging: Exchanging<'a>,
    made: Option<Wire>,
) -> Result<Wire, Refused<'a>> {
    match made {
        Some(wire) => Ok(wire),
        None => connect_to(net, exchanging.peer, exchanging.idle),
    }
}

/// Whether an exchange broke off for what this side refused, and not for its peer.
fn is_own(fault: ExchangeFault) -> bool
    ensures { result ≡ is_own_in fault }
{
    matches!(fault, ExchangeFault::Memory | ExchangeFault::Refused)
}

/// What came of an exchange. What this side refused is told of its file, and else the peer, which
/// is told where it said nothing.
fn told_of<'a>(
    exchanging: Exchanging<'a>,
    is_silent: bool,
    ended: Result<Ended, ExchangeFault>,
) -> Result<Ended, Refused<'a>>
    ensures about { IfErr ended (λ fault. IfErr result (λ refused.
        refused.about ≡ (if is_own_in fault then exchanging.entry.file else exchanging.entry.peer))) }
{
    let (fault, told) = match ended {
        Ok(ended) => return Ok(ended),
        Err(fault) => (fault, CommandFault::Exchange(fault)),
    };
    if is_own(fault) {
        return Err(Refused::of(exchanging.file, told));
    }
    if is_silent {
        return Err(Refused::net(exchanging.peer, told, NetCause::Silent));
    }
    Err(Refused::of(exchanging.peer, told))
}

/// Says on standard error whether both sides agreed, which they did not where this side could not
/// read all that it was to give. A line that it refuses is dropped.
fn say_agreement(rt: &HostRuntime, ended: Ended) {
    let agree = if ended.agreed && ended.unread == 0 {
        "yes"
    } else {
        "no"
    };
    let _ = eprintln!(rt; "agree {agree}");
}

/// One exchange over a connection, with a site on its store.
fn exchange_over<S: Store + Drop>(
    rt: &HostRuntime,
    role: Role,
    wire: &Wire,
    site: Site,
    store: S,
) -> Behind<S> {
    let progress = Progress::of(rt);
    let mut reader = Reading::new(Counted::new(wire), progress);
    let mut writer = Writing::new(Counted::new(wire), progress);
    let behind = exchange_on(rt.alloc(), role, &mut reader, &mut writer, site, store);
    wire.part(rt);
    behind
}

/// What came of exchanges, what this side lacks still, and why one that followed the first broke
/// off.
type Met<'a> = (Ended, Lacks, Option<Refused<'a>>);

/// What came of exchanges of which one broke off: of the first nothing, and of a later one what
/// those before it brought.
fn met_before<'a>(
    before: Option<Ended>,
    lacks: Lacks,
    refused: Refused<'a>,
) -> Result<Met<'a>, Refused<'a>>
    ensures first { before ≡ None → result ≡ Err refused.entry }
    ensures later { IfSome before (λ all. result ≡ Ok (all, lacks, Some refused.entry)) }
{
    match before {
        None => Err(refused),
        Some(all) => Ok((all, lacks, Some(refused))),
    }
}

/// The fault behind exchanges of which a later one broke off: where this side refused it. A peer's
/// failure is said, and those before it count.
fn behind_others<'a>(rt: &HostRuntime, broke: Refused<'a>) -> Option<Refused<'a>> {
    match broke.fault {
        CommandFault::Exchange(fault) if is_own(fault) => Some(broke),
        _ => {
            broke.tell(rt);
            None
        }
    }
}

/// The exchanges with the site at an address, the first over a connection if it is made already.
#[derive(Drop)]
struct Meeting<'h, 'a, R: Net<Listener = TcpListener, Stream = TcpStream>> {
    rt: &'h HostRuntime,
    net: &'h R,
    exchanging: Exchanging<'a>,
    connected: Option<Wire>,
}

impl<'h, 'a, R: Net<Listener = TcpListener, Stream = TcpStream>> Meeting<'h, 'a, R> {
    /// The exchanges of a site on its store.
    fn meet<S: Store + Drop>(self, sited: Sited, mut store: S) -> Result<Met<'a>, Refused<'a>> {
        let Sited {
            mut site,
            unreadable,
        } = sited;
        let mut lacks = Lacks {
            unread: unreadable.len() as u64,
            missing: 0,
        };
        let Meeting {
            rt,
            net,
            exchanging,
            connected,
        } = self;
        let mut made = connected;
        let (mut all, mut before) = (Ended::NONE, None);
        for _ in 0..MOST_EXCHANGES {
            let wire = match wire_of(net, exchanging, made.take()) {
                Ok(wire) => wire,
                Err(refused) => return met_before(before, lacks, refused),
            };
            let Behind {
                site: next,
                mut shelf,
                ended,
            } = exchange_over(rt, exchanging.role, &wire, site, store);
            lacks.missing = keep_held(rt, exchanging.file, &mut shelf);
            let last = match told_of(exchanging, wire.is_silent(), ended) {
                Ok(last) => last,
                Err(refused) => return met_before(before, lacks, refused),
            };
            all = all.with_last(last);
            if !all.is_followed(last) {
                return Ok((all, lacks, None));
            }
            before = Some(all);
            site = next;
            store = shelf;
        }
        Ok((all, lacks, None))
    }
}

impl<'h, 'a, R: Net<Listener = TcpListener, Stream = TcpStream>> OnStore for Meeting<'h, 'a, R> {
    type Told = Result<Met<'a>, Refused<'a>>;

    fn on<S: Store + Drop + Send>(self, mut store: S) -> Result<Met<'a>, Refused<'a>> {
        let starting = Starting::begins(self.rt, self.exchanging.file);
        let sited = site_on(self.rt.alloc(), &mut store, &starting);
        match about(self.exchanging.file, sited) {
            Ok(sited) => self.meet(sited, store),
            Err(refused) => Err(refused),
        }
    }
}

/// The same of a folder.
fn meet_in_folder<'a, R: Net<Listener = TcpListener, Stream = TcpStream> + Threads + Sync>(
    rt: &HostRuntime,
    folder: &'a str,
    meeting: Meeting<'_, 'a, R>,
) -> Result<Met<'a>, Refused<'a>> {
    let (sited, log) = site_in(rt, meeting.net, folder)?;
    meeting.meet(sited, log)
}

/// Exchanges the operations in a file with the site at an address, and says what came of it. Where
/// not all fits into one exchange another follows, over a connection of its own, until both agree,
/// one brings nothing or one is not finished, 257 at most. What was given and taken is then said of
/// all of them, and what could not be read, whether it was finished and both agreed of the last.
/// Where a later one breaks off for its peer, this is said, and what those before it did counts.
///
/// What is taken is in the store before it counts as given, and stays there whatever comes after.
/// Refusals come in this order: the store, the site, the connection, the exchange. Where the file
/// is not there the connection comes first, so that no file is made where nobody answers. At a
/// terminal it says meanwhile how far it is. On standard error it says in the end whether both
/// sides agreed. What can't be read here is said and left out, and it then ends with a fault, as
/// where operations are missing still.
pub fn exchange<'a, R: Net<Listener = TcpListener, Stream = TcpStream> + Threads + Sync>(
    rt: &HostRuntime,
    net: &R,
    exchanging: Exchanging<'a>,
) -> Result<Done<'a>, Refused<'a>> {
    let file = exchanging.file;
    let connected = match is_absent(rt, file) {
        true => Some(connect_to(net, exchanging.peer, exchanging.idle)?),
        false => None,
    };
    let meeting = Meeting {
        rt,
        net,
        exchanging,
        connected,
    };
    let (ended, lacks, broke) = if is_folder(rt, file) {
        meet_in_folder(rt, file, meeting)?
    } else {
        on_shelf(rt, file, meeting)??
    };
    say_agreement(rt, ended);
    let text = about(file, lines_of_exchange(rt.alloc(), ended))?;
    let Done { text, behind } = done_without(rt, file, text, lacks);
    match broke {
        Some(broke) => Ok(Done {
            text,
            behind: behind_others(rt, broke).or(behind),
        }),
        None => Ok(Done { text, behind }),
    }
}
