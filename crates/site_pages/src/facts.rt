//! What a server knows of its exchanges with each peer, and tells of itself as rows of its site's
//! page.

ghost use Rattle.std.specs.Prelude.{◌≡◌, ◌++◌, ◌∷◌, [], IfOk, OnErr, OnOk, map};
ghost use Rattle.site_pages.specs.Facts.{end_text, met_text, agreed_text, last_text, word_of};
ghost use Rattle.site_pages.specs.Facts.{uptime_fact, peer_fact, facts_in};
ghost use Rattle.site_pages.specs.Facts.{with_met, noted, unmet, is_among, entered, called_by};

use crate::ends::ExchangeEnd;
use crate::meters::{Met, Way, agreed_after};
use archive_page::Fact;
use octets::{Octets, put_digits};
use std::alloc::{AllocError, Global};

/// How many peers are known at most, and how many callers.
const MOST_MEETINGS: usize = 64;

/// A peer, and what came of the exchanges with it.
#[derive(Drop)]
pub struct Meeting {
    /// Its IPv4 address; where it is called, a colon and a port behind it.
    pub address: Octets,
    pub last: Option<Met>,
    /// The second in which the last that agreed ended.
    pub agreed: Option<u64>,
    /// How many operations were given to it.
    pub given: u64,
    /// How many were taken from it that were new.
    pub taken: u64,
}

/// How an exchange ended, in words.
fn words_of(end: ExchangeEnd) -> &'static [u8]
    ensures { result.now ≡ end_text end }
{
    match end {
        ExchangeEnd::Agreed => b"agreed",
        ExchangeEnd::NotAgreed => b"not agreed",
        ExchangeEnd::Unfinished => b"unfinished",
        ExchangeEnd::Fault => b"broken off",
        ExchangeEnd::NotReached => b"not reached",
    }
}

/// Puts what came of an exchange: how it ended, what was given and taken, and how long ago.
fn put_met(alloc: Global, out: &mut Vec<u8>, met: Met, now: u64) -> Result<(), AllocError>
    ensures { OnOk result (out.new.items ≡ out.old.items ++ met_text met now) }
{
    out.extend_from_slice(words_of(met.end))?;
    out.extend_from_slice(b", given ")?;
    put_digits(alloc, out, met.given)?;
    out.extend_from_slice(b", taken ")?;
    put_digits(alloc, out, met.taken)?;
    out.extend_from_slice(b", ")?;
    put_digits(alloc, out, now.saturating_sub(met.at))?;
    out.extend_from_slice(b" seconds ago")
}

/// Puts how long ago one agreed last.
fn put_agreed(
    alloc: Global,
    out: &mut Vec<u8>,
    agreed: Option<u64>,
    now: u64,
) -> Result<(), AllocError>
    ensures { OnOk result (out.new.items ≡ out.old.items ++ agreed_text agreed now) }
{
    let Some(at) = agreed else {
        return out.extend_from_slice(b"; never agreed");
    };
    out.extend_from_slice(b"; agreed ")?;
    put_digits(alloc, out, now.saturating_sub(at))?;
    out.extend_from_slice(b" seconds ago")
}

/// Puts what came of the last exchange with a peer, and when one agreed.
fn put_last(alloc: Global, out: &mut Vec<u8>, peer: &Meeting, now: u64) -> Result<(), AllocError>
    ensures { OnOk result
        (out.new.items ≡ out.old.items ++ last_text peer.now.last peer.now.agreed now) }
{
    let Some(met) = peer.last else {
        return out.extend_from_slice(b"not called yet");
    };
    put_met(alloc, out, met, now)?;
    put_agreed(alloc, out, peer.agreed, now)
}

/// What a peer is called, by who calls whom.
pub(crate) fn word(way: Way) -> &'static [u8]
    ensures { result.now ≡ word_of way }
{
    match way {
        Way::Called => b"peer",
        Way::Served => b"caller",
    }
}

/// What is told of a peer.
fn of_peer(alloc: Global, way: Way, peer: &Meeting, now: u64) -> Result<Fact, AllocError>
    ensures { IfOk result (λ fact. fact ≡ peer_fact way now peer.now) }
{
    let mut what = Vec::new(alloc);
    what.extend_from_slice(word(way))?;
    what.extend_from_slice(b" ")?;
    what.extend_from_slice(peer.address.as_slice())?;
    let mut value = Vec::new(alloc);
    put_last(alloc, &mut value, peer, now)?;
    Ok(Fact {
        what: Octets::of(what),
        value: Octets::of(value),
    })
}

/// For how long the server runs.
fn of_uptime(alloc: Global, now: u64) -> Result<Fact, AllocError>
    ensures { IfOk result (λ fact. fact ≡ uptime_fact now) }
{
    let mut value = Vec::new(alloc);
    put_digits(alloc, &mut value, now)?;
    value.extend_from_slice(b" seconds")?;
    Ok(Fact {
        what: Octets::from_slice(alloc, b"uptime")?,
        value: Octets::of(value),
    })
}

/// Puts what is told of each peer.
fn put_peers(
    alloc: Global,
    out: &mut Vec<Fact>,
    way: Way,
    peers: &[Meeting],
    now: u64,
) -> Result<(), AllocError>
    ensures { OnOk result (out.new.items ≡ out.old.items ++ map (peer_fact way now) peers.now) }
{
    for peer in peers {
        out.push(of_peer(alloc, way, peer, now)?)?;
    }
    Ok(())
}

/// For how long the server runs, and what came of the last exchange with each peer that it calls,
/// and with each caller.
pub fn facts_of(
    alloc: Global,
    peers: &[Meeting],
    callers: &[Meeting],
    now: u64,
) -> Result<Vec<Fact>, AllocError>
    ensures { IfOk result (λ facts. facts.items ≡ facts_in peers.now callers.now now) }
{
    let mut facts = Vec::new(alloc);
    facts.push(of_uptime(alloc, now)?)?;
    put_peers(alloc, &mut facts, Way::Called, peers, now)?;
    put_peers(alloc, &mut facts, Way::Served, callers, now)?;
    Ok(facts)
}

impl Meeting {
    /// Nothing was exchanged with this peer yet.
    fn none(alloc: Global, address: &[u8]) -> Result<Meeting, AllocError>
        ensures { IfOk result (λ peer. peer ≡ unmet address.now) }
    {
        Ok(Meeting {
            address: Octets::from_slice(alloc, address)?,
            last: None,
            agreed: None,
            given: 0,
            taken: 0,
        })
    }

    /// Another of the same.
    fn copy(&self, alloc: Global) -> Result<Meeting, AllocError>
        ensures { IfOk result (λ peer. peer ≡ self.now) }
    {
        Ok(Meeting {
            address: self.address.copy(alloc)?,
            last: self.last,
            agreed: self.agreed,
            given: self.given,
            taken: self.taken,
        })
    }

    /// One exchange more, and what came of it.
    fn add(&mut self, met: Met)
        ensures { self.new ≡ with_met met self.old }
    {
        self.last = Some(met);
        self.agreed = agreed_after(self.agreed, met);
        self.given = self.given.saturating_add(met.given);
        self.taken = self.taken.saturating_add(met.taken);
    }

    /// Notes what came of an exchange, where it was with this peer.
    fn note(&mut self, address: &[u8], met: Met)
        ensures { self.new ≡ noted address.now met self.old }
    {
        if self.address.as_slice() == address {
            self.add(met);
        }
    }
}

/// Notes what came of an exchange with a peer.
pub fn note_meeting(meetings: &mut [Meeting], address: &[u8], met: Met)
    ensures { meetings.new ≡ map (noted address.now met) meetings.old }
{
    for meeting in meetings.iter_mut() {
        meeting.note(address, met);
    }
}

fn is_met(meetings: &[Meeting], address: &[u8]) -> bool
    ensures { result ≡ is_among address.now meetings.now }
{
    meetings
        .iter()
        .any(|meeting| meeting.address.as_slice() == address)
}

/// A peer with which nothing was exchanged yet is known from now on, unless it is, or 64 are.
pub fn enter_meeting(
    alloc: Global,
    meetings: &mut Vec<Meeting>,
    address: &[u8],
) -> Result<(), AllocError>
    ensures added { OnOk result (meetings.new.items ≡ entered address.now meetings.old.items) }
    ensures refused { OnErr result (meetings.new.items ≡ meetings.old.items) }
{
    if meetings.len() >= MOST_MEETINGS || is_met(meetings.as_slice(), address) {
        return Ok(());
    }
    let meeting = Meeting::none(alloc, address)?;
    meetings.push(meeting)?;
    Ok(())
}

/// Notes what came of an exchange with a peer that called. Behind 64 callers another is not noted.
pub fn note_caller(
    alloc: Global,
    callers: &mut Vec<Meeting>,
    address: &[u8],
    met: Met,
) -> Result<(), AllocError>
    ensures noted { OnOk result (callers.new.items ≡ called_by address.now met callers.old.items) }
    ensures refused { OnErr result (callers.new.items ≡ callers.old.items) }
{
    enter_meeting(alloc, callers, address)?;
    note_meeting(callers.as_mut_slice(), address, met);
    Ok(())
}

/// The same meetings once more.
pub fn copied_meetings(alloc: Global, meetings: &[Meeting]) -> Result<Vec<Meeting>, AllocError>
    ensures { IfOk result (λ copies. copies.items ≡ meetings.now) }
{
    let mut copies = Vec::new(alloc);
    for meeting in meetings {
        copies.push(meeting.copy(alloc)?)?;
    }
    Ok(copies)
}
