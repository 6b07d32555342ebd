//! What a server counts, and since when it runs, beside what its threads serve.

ghost use Rattle.std.specs.Prelude.{◌≡◌, IfOk, OnOk};
ghost use Rattle.std.specs.Net.Addr.{ipv4_octets};
ghost use Rattle.std.specs.Net.Text.{ipv4_text};
ghost use Rattle.archive_server.specs.Calls.{callers_after};

use crate::known::Known;
use crate::meeting::Peer;
use association_run::{End, RunFault};
use exchange::{Ended, ExchangeFault};
use octets::put_digits;
use site_pages::{
    Meeting, Met, Meters, Sizes, Tally, Way, association_end_of, copied_meetings, enter_meeting,
    facts_of, met_of, not_reached, note_caller, note_meeting,
};
use std::alloc::{AllocError, Global};
use std::net::{Ipv4Addr, SocketAddr};
use std::sync::{Mutex, Wait};
use std::time::{Clock, Instant};

/// What all threads of a server count on.
pub(crate) struct Board {
    began: Option<Instant>,
    meters: Mutex<Meters>,
    /// The exchanges with each peer that is called, and with each that calls.
    meetings: Mutex<Meetings>,
}

/// The exchanges with each peer. Where memory was refused for peers that are called there are none;
/// a caller for which it was refused is not among them.
#[derive(Drop)]
struct Meetings {
    peers: Vec<Meeting>,
    callers: Vec<Meeting>,
}

impl Drop for Board {
    fn drop(self) {
        let Board {
            began: _,
            meters: _,
            meetings: _,
        } = self;
    }
}

/// The peers, none of which was called yet.
fn meetings_of(alloc: Global, peers: &[Peer<'_>]) -> Result<Vec<Meeting>, AllocError> {
    let mut meetings = Vec::new(alloc);
    for peer in peers {
        enter_meeting(alloc, &mut meetings, peer.address.as_bytes())?;
    }
    Ok(meetings)
}

/// The text of an address: four numbers with dots between them.
fn text_of(alloc: Global, address: Ipv4Addr) -> Result<Vec<u8>, AllocError>
    ensures { IfOk result (λ text. text.items ≡ ipv4_text (ipv4_octets address)) }
{
    let octets = address.octets();
    let mut text = Vec::new(alloc);
    put_digits(alloc, &mut text, octets[0] as u64)?;
    text.extend_from_slice(b".")?;
    put_digits(alloc, &mut text, octets[1] as u64)?;
    text.extend_from_slice(b".")?;
    put_digits(alloc, &mut text, octets[2] as u64)?;
    text.extend_from_slice(b".")?;
    put_digits(alloc, &mut text, octets[3] as u64)?;
    Ok(text)
}

impl Meetings {
    fn none(alloc: Global) -> Meetings {
        Meetings {
            peers: Vec::new(alloc),
            callers: Vec::new(alloc),
        }
    }

    /// The peers that are called, and no caller yet.
    fn new(alloc: Global, peers: &[Peer<'_>]) -> Meetings {
        match meetings_of(alloc, peers) {
            Ok(peers) => Meetings {
                peers,
                callers: Vec::new(alloc),
            },
            Err(_refused) => Meetings::none(alloc),
        }
    }

    /// Notes what came of an exchange with a peer that called, under its address without the port.
    /// One of IPv6, one behind 64 callers, and one for which memory is refused has no row.
    fn called_by(&mut self, alloc: Global, peer: SocketAddr, met: Met) -> Result<(), AllocError>
        ensures { OnOk result
            (self.new.callers.items ≡ callers_after peer met self.old.callers.items) }
    {
        match peer {
            SocketAddr::V4(peer) => {
                let address = text_of(alloc, *peer.ip())?;
                note_caller(alloc, &mut self.callers, address.as_slice(), met)
            }
            SocketAddr::V6(_) => Ok(()),
        }
    }
}

impl Board {
    /// The server begins.
    pub fn new<S: Clock>(rt: &S, alloc: Global, peers: &[Peer<'_>]) -> Board {
        Board {
            began: Instant::now(rt).ok(),
            meters: Mutex::new(Meters::new()),
            meetings: Mutex::new(Meetings::new(alloc, peers)),
        }
    }

    /// How many seconds ago the server began: none where no clock says it.
    fn second<S: Clock>(&self, rt: &S) -> u64 {
        match (self.began, Instant::now(rt)) {
            (Some(began), Ok(now)) => now.duration_since(began).as_secs(),
            _ => 0,
        }
    }

    /// A thread begins to serve an association or an exchange.
    pub fn begun<S: Wait>(&self, rt: &S) {
        self.meters.lock(rt).begun();
    }

    /// It is free again.
    pub fn freed<S: Wait>(&self, rt: &S) {
        self.meters.lock(rt).freed();
    }

    /// An association has ended.
    pub fn attended<S: Wait>(
        &self,
        rt: &S,
        ended: Result<End, RunFault>,
        is_rejected: bool,
        tally: Tally,
    ) {
        let end = association_end_of(ended, is_rejected);
        self.meters.lock(rt).attended(end, tally);
    }

    /// An exchange with a peer that called has ended.
    pub fn served<S: Wait + Clock>(
        &self,
        rt: &S,
        alloc: Global,
        peer: SocketAddr,
        ended: Result<Ended, ExchangeFault>,
    ) {
        let met = met_of(ended, self.second(rt));
        self.meters.lock(rt).conversed(Way::Served, met);
        let _ = self.meetings.lock(rt).called_by(alloc, peer, met);
    }

    /// This came of the call of a peer.
    fn noted<S: Wait>(&self, rt: &S, address: &str, met: Met) {
        self.meters.lock(rt).conversed(Way::Called, met);
        let mut meetings = self.meetings.lock(rt);
        note_meeting(meetings.peers.as_mut_slice(), address.as_bytes(), met);
    }

    /// An exchange with a peer that was called has ended.
    pub fn called<S: Wait + Clock>(
        &self,
        rt: &S,
        address: &str,
        ended: Result<Ended, ExchangeFault>,
    ) {
        self.noted(rt, address, met_of(ended, self.second(rt)));
    }

    /// A peer that was called is not reached.
    pub fn unreached<S: Wait + Clock>(&self, rt: &S, address: &str) {
        self.noted(rt, address, not_reached(self.second(rt)));
    }

    /// How many operations exchanges have brought that were new.
    pub fn brought<S: Wait>(&self, rt: &S) -> u64 {
        self.meters.lock(rt).taken
    }

    /// The exchanges with each peer, once more.
    fn met<S: Wait>(&self, rt: &S, alloc: Global) -> Result<Meetings, AllocError> {
        let meetings = self.meetings.lock(rt);
        Ok(Meetings {
            peers: copied_meetings(alloc, meetings.peers.as_slice())?,
            callers: copied_meetings(alloc, meetings.callers.as_slice())?,
        })
    }

    /// What the server knows of itself now, which takes so much of its machine and of which the
    /// shelf refuses for this reason, if it does. Where memory is refused nothing is told of peers,
    /// or nothing stands on the page of its site.
    pub fn known<S: Wait + Clock>(
        &self,
        rt: &S,
        alloc: Global,
        refusal: Option<&'static str>,
        sizes: Sizes,
    ) -> Known {
        let now = self.second(rt);
        let meters = *self.meters.lock(rt);
        let Meetings { peers, callers } = match self.met(rt, alloc) {
            Ok(meetings) => meetings,
            Err(_refused) => Meetings::none(alloc),
        };
        let facts = match facts_of(alloc, peers.as_slice(), callers.as_slice(), now) {
            Ok(facts) => facts,
            Err(_refused) => Vec::new(alloc),
        };
        Known {
            refusal,
            meters,
            uptime: now,
            sizes,
            peers,
            callers,
            facts,
        }
    }
}
