//! The lines of a server on standard error: where they are asked for, one for each association,
//! exchange, page and correction, for each peer that is not reached or turned away, and each store
//! that is refused; always one for an accept that failed while nobody had ended the server, for the
//! last round of exchanges, for an association that wanted memory, and for an exchange that the
//! archive refused, lacked memory for, or could not read all for that it was to give.
//!
//! What a peer sent is shown as printable ASCII, so that no peer makes a line of its own. A line
//! that standard error refuses is dropped.

ghost use Rattle.std.specs.Prelude.{◌≡◌};
ghost use Rattle.archive_server.specs.Journal.{IsPlain};

use crate::answers::RefusedStore;
use crate::ends::{Abort, Rejection};
use crate::heard::Front;
use crate::manner::Manner;
use crate::wire::Wire;
use association_run::{End, RunFault};
use dictionary::{
    STATUS_CANNOT_UNDERSTAND, STATUS_DATA_SET_DOES_NOT_MATCH, STATUS_OUT_OF_RESOURCES,
    STATUS_SOP_CLASS_NOT_SUPPORTED, STATUS_UNRECOGNIZED_OPERATION,
};
use exchange::{Ended, ExchangeFault, Role};
use jiff::Timestamp;
use log::{Log, error, info};
use site_desk::Stamps;
use site_pages::Tally;
use std::fmt::{Display, Formatter};
use std::io::ErrorKind;
use std::net::SocketAddr;
use std::time::Clock;
use std::{fmt, io};

/// What a line has for a byte of a title.
fn plain_of(byte: u8) -> u8
    ensures plain { IsPlain result }
    ensures kept { IsPlain byte → result ≡ byte }
{
    if 32 <= byte && byte <= 126 && byte != 34 {
        byte
    } else {
        b'?'
    }
}

/// A title as a line has it.
#[derive(Clone, Copy)]
struct Shown<'a>(&'a [u8]);

impl Display for Shown<'_> {
    fn fmt<W: fmt::Write>(&self, f: &mut Formatter<W>) -> fmt::Result {
        for byte in self.0 {
            f.write_char(char::from(plain_of(*byte)))?;
        }
        Ok(())
    }
}

/// The second of a line in UTC, or nothing where no clock says it.
#[derive(Clone, Copy)]
pub(crate) struct Moment(Option<Timestamp>);

impl Moment {
    pub fn now<S: Clock>(rt: &S) -> Moment {
        match Timestamp::now(rt) {
            Ok(now) => Moment(Timestamp::from_second(now.as_second()).ok()),
            Err(_error) => Moment(None),
        }
    }
}

impl Display for Moment {
    fn fmt<W: fmt::Write>(&self, f: &mut Formatter<W>) -> fmt::Result {
        match self.0 {
            Some(moment) => write!(f, "{moment}"),
            None => f.write_str("-"),
        }
    }
}

/// The address of a peer, where its connection says it.
#[derive(Clone, Copy)]
pub(crate) struct Whence(Option<SocketAddr>);

impl Whence {
    pub fn of(wire: &Wire) -> Whence {
        Whence(wire.stream().peer_addr().ok())
    }

    pub fn at(peer: SocketAddr) -> Whence {
        Whence(Some(peer))
    }
}

impl Display for Whence {
    fn fmt<W: fmt::Write>(&self, f: &mut Formatter<W>) -> fmt::Result {
        match self.0 {
            Some(peer) => write!(f, "{peer}"),
            None => f.write_str("-"),
        }
    }
}

/// What an association asked for, and what came of it.
#[derive(Clone, Copy)]
struct Asked(Tally);

impl Display for Asked {
    fn fmt<W: fmt::Write>(&self, f: &mut Formatter<W>) -> fmt::Result {
        let Tally {
            new,
            known,
            refused,
            finds,
            rows: _,
            gets,
            images: _,
        } = self.0;
        write!(
            f,
            "new {new} known {known} refused {refused} finds {finds} gets {gets}"
        )
    }
}

/// How an association ended, and by which rejection or abort: one that was sent, or came.
#[derive(Clone, Copy)]
pub(crate) struct Finish {
    pub ended: Result<End, RunFault>,
    pub rejection: Option<Rejection>,
    pub sent: Option<Abort>,
    pub came: Option<Abort>,
}

/// By whom it was aborted first, and why: once the peer has, the archive sends nothing any more.
#[derive(Clone, Copy)]
struct Aborted {
    sent: Option<Abort>,
    came: Option<Abort>,
}

impl Display for Aborted {
    fn fmt<W: fmt::Write>(&self, f: &mut Formatter<W>) -> fmt::Result {
        if let Some(abort) = self.sent {
            return write!(f, "aborted by the archive {abort}");
        }
        match self.came {
            Some(abort) => write!(f, "aborted by the peer {abort}"),
            None => f.write_str("aborted"),
        }
    }
}

/// How it ended without a fault.
#[derive(Clone, Copy)]
struct Over {
    end: End,
    rejection: Option<Rejection>,
    aborted: Aborted,
}

impl Display for Over {
    fn fmt<W: fmt::Write>(&self, f: &mut Formatter<W>) -> fmt::Result {
        if let Some(rejection) = self.rejection {
            return write!(f, "rejected {rejection}");
        }
        let aborted = self.aborted;
        match self.end {
            End::Released => f.write_str("released"),
            End::Aborted => write!(f, "{aborted}"),
            End::Closed => f.write_str("closed"),
            End::Dropped => f.write_str("dropped: the peer did not close"),
        }
    }
}

impl Display for Finish {
    fn fmt<W: fmt::Write>(&self, f: &mut Formatter<W>) -> fmt::Result {
        match self.ended {
            Ok(end) => {
                let over = Over {
                    end,
                    rejection: self.rejection,
                    aborted: Aborted {
                        sent: self.sent,
                        came: self.came,
                    },
                };
                write!(f, "{over}")
            }
            Err(fault) => {
                let number = fault.number();
                write!(f, "fault run {number}: {fault}")
            }
        }
    }
}

/// Whether a wait for the peer was cut off, as it lasted as long as it may, and else which error
/// the system told.
#[derive(Clone, Copy)]
struct Break {
    is_silent: bool,
    error: Option<io::Error>,
}

impl Break {
    fn of(wire: &Wire) -> Break {
        Break {
            is_silent: wire.is_silent(),
            error: wire.error(),
        }
    }
}

impl Display for Break {
    fn fmt<W: fmt::Write>(&self, f: &mut Formatter<W>) -> fmt::Result {
        if self.is_silent {
            return f.write_str(" silent");
        }
        match self.error {
            Some(error) => write!(f, ": {error}"),
            None => Ok(()),
        }
    }
}

/// Tells an association that has ended, where lines are asked for, or where it wanted memory.
pub(crate) fn tell_association<S: Clock + Log>(
    rt: &S,
    manner: Manner<'_>,
    peer: Whence,
    wire: &Wire,
    front: &Front,
    tally: Tally,
    finish: Finish,
) {
    if !manner.is_verbose && !matches!(finish.ended, Err(RunFault::Memory)) {
        return;
    }
    let moment = Moment::now(rt);
    let (calling, called) = (Shown(front.calling()), Shown(front.called()));
    let (asked, broken) = (Asked(tally), Break::of(wire));
    info!(
        rt; target: "association",
        "{moment} from {peer} calling \"{calling}\" called \"{called}\" {asked} {finish}{broken}"
    );
}

/// How many operations that a peer asked for could not be read, where there are some.
#[derive(Clone, Copy)]
struct Unread(u64);

impl Display for Unread {
    fn fmt<W: fmt::Write>(&self, f: &mut Formatter<W>) -> fmt::Result {
        match self.0 {
            0 => Ok(()),
            unread => write!(f, " unread {unread}"),
        }
    }
}

/// How an exchange ended.
#[derive(Clone, Copy)]
struct Outcome(Result<Ended, ExchangeFault>);

impl Display for Outcome {
    fn fmt<W: fmt::Write>(&self, f: &mut Formatter<W>) -> fmt::Result {
        match self.0 {
            Ok(
                Ended {
                    given,
                    unread,
                    taken,
                    finished,
                    agreed,
                    whole: _,
                },
            ) => {
                let finished = if finished { "yes" } else { "no" };
                let agree = if agreed && unread == 0 { "yes" } else { "no" };
                let unread = Unread(unread);
                write!(
                    f,
                    "given {given} taken {taken} finished {finished} agree {agree}{unread}"
                )
            }
            Err(fault) => {
                let number = fault.number();
                write!(f, "fault exchange {number}: {fault}")
            }
        }
    }
}

/// Whether an exchange ended by what the archive itself lacked or refused, or the archive could not
/// read all that it was to give.
fn is_own(ended: &Result<Ended, ExchangeFault>) -> bool {
    match ended {
        Ok(ended) => ended.unread > 0,
        Err(fault) => matches!(fault, ExchangeFault::Memory | ExchangeFault::Refused),
    }
}

/// Tells an exchange that has ended, where lines are asked for, or where the archive refused it or
/// could not read all that it was to give.
pub(crate) fn tell_exchange<S: Clock + Log>(
    rt: &S,
    manner: Manner<'_>,
    peer: Whence,
    wire: &Wire,
    role: Role,
    ended: Result<Ended, ExchangeFault>,
) {
    if !manner.is_verbose && !is_own(&ended) {
        return;
    }
    let (moment, outcome, broken) = (Moment::now(rt), Outcome(ended), Break::of(wire));
    let way = match role {
        Role::Callee => "from",
        Role::Caller | Role::OldCaller => "to",
    };
    info!(rt; target: "exchange", "{moment} {way} {peer} {outcome}{broken}");
}

/// Tells that a peer that was called is not reached, or did not answer in time, where lines are
/// asked for.
pub(crate) fn tell_unreached<S: Clock + Log>(
    rt: &S,
    manner: Manner<'_>,
    address: &str,
    error: io::Error,
) {
    if !manner.is_verbose {
        return;
    }
    let moment = Moment::now(rt);
    let broken = Break {
        is_silent: error.kind() == ErrorKind::TimedOut,
        error: Some(error),
    };
    info!(rt; target: "exchange", "{moment} to {address} not reached{broken}");
}

/// Tells always that no other exchange is accepted, unless the server was ended: the last round was
/// used up.
pub(crate) fn tell_last_round<S: Clock + Log>(rt: &S, manner: Manner<'_>) {
    if manner.is_ended() {
        return;
    }
    let moment = Moment::now(rt);
    info!(rt; target: "exchange", "{moment} all rounds are used up: no other is served");
}

/// Tells that who came for a page was answered with so many bytes, where lines are asked for.
pub(crate) fn tell_visit<S: Clock + Log>(
    rt: &S,
    manner: Manner<'_>,
    peer: Whence,
    wire: &Wire,
    sent: u64,
) {
    if !manner.is_verbose {
        return;
    }
    let (moment, broken) = (Moment::now(rt), Break::of(wire));
    info!(rt; target: "page", "{moment} from {peer} sent {sent}{broken}");
}

/// The last stamp that was made for who came to the desk, if one was.
#[derive(Clone, Copy)]
pub(crate) struct Made(Option<Stamps>);

impl Made {
    /// What was made between these two.
    pub fn between(before: Stamps, behind: Stamps) -> Made {
        if before.last < behind.last {
            return Made(Some(behind));
        }
        Made(None)
    }
}

impl Display for Made {
    fn fmt<W: fmt::Write>(&self, f: &mut Formatter<W>) -> fmt::Result {
        let Some(Stamps { site, last }) = self.0 else {
            return Ok(());
        };
        write!(f, " stamp {last} {site}")
    }
}

/// Tells which stamp was made for who came to the desk, and that so many bytes were the answer,
/// likewise.
pub(crate) fn tell_corrected<S: Clock + Log>(
    rt: &S,
    manner: Manner<'_>,
    peer: Whence,
    wire: &Wire,
    made: Made,
    sent: u64,
) {
    if !manner.is_verbose {
        return;
    }
    let (moment, broken) = (Moment::now(rt), Break::of(wire));
    info!(rt; target: "desk", "{moment} from {peer}{made} sent {sent}{broken}");
}

/// Tells that a peer was turned away before a byte of it was read, likewise.
pub(crate) fn tell_turned_away<S: Clock + Log>(rt: &S, manner: Manner<'_>, peer: SocketAddr) {
    if !manner.is_verbose {
        return;
    }
    let moment = Moment::now(rt);
    info!(rt; target: "entrance", "{moment} from {peer} turned away");
}

/// Tells always that an accept failed, unless the server was ended.
pub(crate) fn tell_not_accepted<S: Clock + Log>(rt: &S, manner: Manner<'_>, error: &io::Error) {
    if manner.is_ended() {
        return;
    }
    let moment = Moment::now(rt);
    error!(rt; target: "entrance", "{moment} a connection was not accepted: {error}");
}

/// What the status of a refused store says of it (PS3.4, section B.2.3; PS3.7, annex C).
fn words_of_status(status: u16) -> &'static str {
    match status {
        STATUS_SOP_CLASS_NOT_SUPPORTED => "its SOP class is not that of its presentation context",
        STATUS_UNRECOGNIZED_OPERATION => "its presentation context is of no storage class",
        STATUS_OUT_OF_RESOURCES => "out of resources",
        STATUS_DATA_SET_DOES_NOT_MATCH => "its data set names another SOP class or instance",
        STATUS_CANNOT_UNDERSTAND => {
            "its data set is none that can be kept, or another has its digest"
        }
        _ => "it was refused",
    }
}

/// Tells a store that was answered with a status which is none of success.
pub(crate) fn tell_refused_store<S: Clock + Log>(rt: &S, peer: Whence, refused: &RefusedStore) {
    let moment = Moment::now(rt);
    let instance = match &refused.instance {
        Some(instance) => Shown(instance.as_slice()),
        None => Shown(&[]),
    };
    let (status, words) = (refused.status, words_of_status(refused.status));
    info!(
        rt; target: "association",
        "{moment} from {peer} store of \"{instance}\" answered {status:04X}: {words}"
    );
}
