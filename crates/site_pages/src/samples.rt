//! What is told of a running server to who measures it.

ghost use Rattle.std.specs.List.{flat_map};
ghost use Rattle.std.specs.Prelude.{◌≡◌, ◌++◌, IfOk, OnOk};
ghost use Rattle.site_pages.specs.Samples.{sample_in, labelled_in, held_samples, association_samples, store_samples};
ghost use Rattle.site_pages.specs.Samples.{find_samples, served_samples, called_samples, operation_samples};
ghost use Rattle.site_pages.specs.Samples.{moment_samples, known_samples, since_samples, samples_in};
ghost use Rattle.site_pages.specs.Samples.{family_of, agreement, last_agreement, number_of};
ghost use Rattle.site_pages.specs.Samples.{peer_sample, peer_samples};

use crate::ends::{AssociationEnds, ExchangeEnd, ExchangeEnds};
use crate::facts::{Meeting, word};
use crate::families::Family;
use crate::meters::{Met, Meters, Way};
use crate::tally::Tally;
use archive_page::{Label, Sample};
use octets::Octets;
use std::alloc::{AllocError, Global};

/// How much a server takes of its machine, where that is known.
#[derive(Clone, Copy)]
pub struct Sizes {
    /// The bytes of memory that its process has resident.
    pub resident: Option<u64>,
    /// The bytes of the files that its operations stand in.
    pub stored: Option<u64>,
}

/// What a server tells of itself to who measures it.
#[derive(Clone, Copy)]
pub struct Reading {
    pub meters: Meters,
    /// How many contents the site holds, and how many corrections.
    pub contents: u64,
    pub corrections: u64,
    /// Whether its shelf did not refuse what it was given last.
    pub takes: bool,
    /// How many seconds ago the server began.
    pub now: u64,
    pub sizes: Sizes,
}

/// What is told of each peer.
#[derive(Clone, Copy)]
pub(crate) enum Part {
    SinceAgreed,
    Agrees,
    Given,
    Taken,
}

/// One part of what is told of each peer in this second, by who calls whom.
#[derive(Clone, Copy)]
struct Column {
    way: Way,
    part: Part,
    now: u64,
}

impl Column {
    fn of(way: Way, part: Part, now: u64) -> Column
        ensures way { result.way ≡ way }
        ensures part { result.part ≡ part }
        ensures now { result.now ≡ now }
    {
        Column { way, part, now }
    }
}

/// A sample that stands alone under its name.
fn sample(alloc: Global, family: Family, value: u64) -> Result<Sample, AllocError>
    ensures { IfOk result (λ sample. sample ≡ sample_in family value) }
{
    Ok(Sample {
        name: Octets::from_slice(alloc, family.name())?,
        help: Octets::from_slice(alloc, family.help())?,
        kind: family.kind(),
        label: None,
        value,
    })
}

/// A sample that a label tells from others of its name.
fn labelled(
    alloc: Global,
    family: Family,
    label: &[u8],
    text: &[u8],
    value: u64,
) -> Result<Sample, AllocError>
    ensures { IfOk result (λ sample. sample ≡ labelled_in family label.now text.now value) }
{
    let label = Label {
        name: Octets::from_slice(alloc, label)?,
        value: Octets::from_slice(alloc, text)?,
    };
    Ok(Sample {
        name: Octets::from_slice(alloc, family.name())?,
        help: Octets::from_slice(alloc, family.help())?,
        kind: family.kind(),
        label: Some(label),
        value,
    })
}

/// How many operations of each kind are held, and whether the shelf did not refuse the last put.
#[tactic(auto, unfolding(crate::specs::Samples::held_samples))]
fn of_site(alloc: Global, reading: Reading) -> Result<Vec<Sample>, AllocError>
    ensures { IfOk result (λ samples. samples.items ≡ held_samples reading) }
{
    let kept = Family::Operations;
    let takes = if reading.takes { 1 } else { 0 };
    let mut samples = Vec::new(alloc);
    samples.push(labelled(alloc, kept, b"kind", b"content", reading.contents)?)?;
    samples.push(labelled(alloc, kept, b"kind", b"correction", reading.corrections)?)?;
    samples.push(sample(alloc, Family::TakesOperations, takes)?)?;
    Ok(samples)
}

/// How many associations ended in each way.
#[tactic(auto, unfolding(crate::specs::Samples::association_samples))]
fn of_associations(alloc: Global, ends: AssociationEnds) -> Result<Vec<Sample>, AllocError>
    ensures { IfOk result (λ samples. samples.items ≡ association_samples ends) }
{
    let ended = Family::Associations;
    let mut samples = Vec::new(alloc);
    samples.push(labelled(alloc, ended, b"end", b"released", ends.released)?)?;
    samples.push(labelled(alloc, ended, b"end", b"aborted", ends.aborted)?)?;
    samples.push(labelled(alloc, ended, b"end", b"rejected", ends.rejected)?)?;
    samples.push(labelled(alloc, ended, b"end", b"closed", ends.closed)?)?;
    samples.push(labelled(alloc, ended, b"end", b"dropped", ends.dropped)?)?;
    samples.push(labelled(alloc, ended, b"end", b"fault", ends.faults)?)?;
    Ok(samples)
}

/// How many stores were answered in each way.
#[tactic(auto, unfolding(crate::specs::Samples::store_samples))]
fn of_stores(alloc: Global, asked: Tally) -> Result<Vec<Sample>, AllocError>
    ensures { IfOk result (λ samples. samples.items ≡ store_samples asked) }
{
    let stores = Family::Stores;
    let mut samples = Vec::new(alloc);
    samples.push(labelled(alloc, stores, b"status", b"new", asked.new)?)?;
    samples.push(labelled(alloc, stores, b"status", b"known", asked.known)?)?;
    samples.push(labelled(alloc, stores, b"status", b"refused", asked.refused)?)?;
    Ok(samples)
}

/// How often it was searched and retrieved, and how much was found.
#[tactic(auto, unfolding(crate::specs::Samples::find_samples))]
fn of_finds(alloc: Global, asked: Tally) -> Result<Vec<Sample>, AllocError>
    ensures { IfOk result (λ samples. samples.items ≡ find_samples asked) }
{
    let mut samples = Vec::new(alloc);
    samples.push(sample(alloc, Family::Finds, asked.finds)?)?;
    samples.push(sample(alloc, Family::FindRows, asked.rows)?)?;
    samples.push(sample(alloc, Family::Gets, asked.gets)?)?;
    samples.push(sample(alloc, Family::GetImages, asked.images)?)?;
    Ok(samples)
}

/// How many exchanges with peers that called ended in each way.
#[tactic(auto, unfolding(crate::specs::Samples::served_samples))]
fn of_served(alloc: Global, ends: ExchangeEnds) -> Result<Vec<Sample>, AllocError>
    ensures { IfOk result (λ samples. samples.items ≡ served_samples ends) }
{
    let served = Family::ExchangesServed;
    let mut samples = Vec::new(alloc);
    samples.push(labelled(alloc, served, b"end", b"agreed", ends.agreed)?)?;
    samples.push(labelled(alloc, served, b"end", b"not_agreed", ends.not_agreed)?)?;
    samples.push(labelled(alloc, served, b"end", b"unfinished", ends.unfinished)?)?;
    samples.push(labelled(alloc, served, b"end", b"fault", ends.faults)?)?;
    Ok(samples)
}

/// How many with peers that were called did, and how many calls reached nobody.
#[tactic(auto, unfolding(crate::specs::Samples::called_samples))]
fn of_called(alloc: Global, ends: ExchangeEnds) -> Result<Vec<Sample>, AllocError>
    ensures { IfOk result (λ samples. samples.items ≡ called_samples ends) }
{
    let called = Family::ExchangesCalled;
    let mut samples = Vec::new(alloc);
    samples.push(labelled(alloc, called, b"end", b"agreed", ends.agreed)?)?;
    samples.push(labelled(alloc, called, b"end", b"not_agreed", ends.not_agreed)?)?;
    samples.push(labelled(alloc, called, b"end", b"unfinished", ends.unfinished)?)?;
    samples.push(labelled(alloc, called, b"end", b"fault", ends.faults)?)?;
    samples.push(labelled(alloc, called, b"end", b"not_reached", ends.not_reached)?)?;
    Ok(samples)
}

/// What exchanges gave and took, and what could not be read for them.
#[tactic(auto, unfolding(crate::specs::Samples::operation_samples))]
fn of_operations(alloc: Global, meters: Meters) -> Result<Vec<Sample>, AllocError>
    ensures { IfOk result (λ samples. samples.items ≡ operation_samples meters) }
{
    let mut samples = Vec::new(alloc);
    samples.push(sample(alloc, Family::OperationsGiven, meters.given)?)?;
    samples.push(sample(alloc, Family::OperationsTaken, meters.taken)?)?;
    samples.push(sample(alloc, Family::ExchangeUnread, meters.unread)?)?;
    Ok(samples)
}

/// How many threads serve now, and since when the server runs.
#[tactic(auto, unfolding(crate::specs::Samples::moment_samples))]
fn of_moments(alloc: Global, reading: Reading) -> Result<Vec<Sample>, AllocError>
    ensures { IfOk result (λ samples. samples.items ≡ moment_samples reading) }
{
    let mut samples = Vec::new(alloc);
    samples.push(sample(alloc, Family::WorkersBusy, reading.meters.busy)?)?;
    samples.push(sample(alloc, Family::Uptime, reading.now)?)?;
    Ok(samples)
}

/// A size, where it is known.
#[tactic(auto, unfolding(crate::specs::Samples::known_samples))]
fn of_known(alloc: Global, family: Family, size: Option<u64>) -> Result<Vec<Sample>, AllocError>
    ensures { IfOk result (λ samples. samples.items ≡ known_samples family size) }
{
    let mut samples = Vec::new(alloc);
    match size {
        None => Ok(samples),
        Some(bytes) => {
            samples.push(sample(alloc, family, bytes)?)?;
            Ok(samples)
        }
    }
}

/// How many seconds ago an exchange agreed last, if one did.
#[tactic(auto, unfolding(crate::specs::Samples::since_samples))]
fn of_agreed(alloc: Global, agreed: Option<u64>, now: u64) -> Result<Vec<Sample>, AllocError>
    ensures { IfOk result (λ samples. samples.items ≡ since_samples agreed now) }
{
    let mut samples = Vec::new(alloc);
    match agreed {
        None => Ok(samples),
        Some(at) => {
            samples.push(sample(alloc, Family::SinceAgreed, now.saturating_sub(at))?)?;
            Ok(samples)
        }
    }
}

/// Puts some samples behind others.
fn put_all(out: &mut Vec<Sample>, more: Vec<Sample>) -> Result<(), AllocError>
    ensures { OnOk result (out.new.items ≡ out.old.items ++ more.items) }
{
    for sample in more {
        out.push(sample)?;
    }
    Ok(())
}

/// The name under which a part is told.
fn family(way: Way, part: Part) -> Family
    ensures { result ≡ family_of way part }
{
    match (way, part) {
        (Way::Called, Part::SinceAgreed) => Family::PeerSinceAgreed,
        (Way::Called, Part::Agrees) => Family::PeerAgrees,
        (Way::Called, Part::Given) => Family::PeerGiven,
        (Way::Called, Part::Taken) => Family::PeerTaken,
        (Way::Served, Part::SinceAgreed) => Family::CallerSinceAgreed,
        (Way::Served, Part::Agrees) => Family::CallerAgrees,
        (Way::Served, Part::Given) => Family::CallerGiven,
        (Way::Served, Part::Taken) => Family::CallerTaken,
    }
}

/// 1 where an exchange agreed.
fn agreed_number(end: ExchangeEnd) -> u64
    ensures { result ≡ agreement end }
{
    match end {
        ExchangeEnd::Agreed => 1,
        ExchangeEnd::NotAgreed | ExchangeEnd::Unfinished => 0,
        ExchangeEnd::Fault | ExchangeEnd::NotReached => 0,
    }
}

/// 1 where the last exchange agreed.
fn last_number(last: Option<Met>) -> u64
    ensures { result ≡ last_agreement last }
{
    match last {
        None => 0,
        Some(met) => agreed_number(met.end),
    }
}

/// The number of a part, if a peer has one.
fn number(part: Part, peer: &Meeting, now: u64) -> Option<u64>
    ensures { result ≡ number_of part now peer.now }
{
    match part {
        Part::SinceAgreed => match peer.agreed {
            None => None,
            Some(at) => Some(now.saturating_sub(at)),
        },
        Part::Agrees => Some(last_number(peer.last)),
        Part::Given => Some(peer.given),
        Part::Taken => Some(peer.taken),
    }
}

/// Puts a part of what is told of a peer, if there is one.
fn put_peer(
    alloc: Global,
    out: &mut Vec<Sample>,
    column: Column,
    peer: &Meeting,
) -> Result<(), AllocError>
    ensures { OnOk result (out.new.items
        ≡ out.old.items ++ peer_sample column.way column.part column.now peer.now) }
{
    let Some(value) = number(column.part, peer, column.now) else {
        return Ok(());
    };
    let (name, address) = (family(column.way, column.part), peer.address.as_slice());
    out.push(labelled(alloc, name, word(column.way), address, value)?)?;
    Ok(())
}

/// Puts a part of what is told of each peer.
fn put_column(
    alloc: Global,
    out: &mut Vec<Sample>,
    column: Column,
    peers: &[Meeting],
) -> Result<(), AllocError>
    ensures { OnOk result (out.new.items
        ≡ out.old.items ++ flat_map (peer_sample column.way column.part column.now) peers.now) }
{
    for peer in peers {
        put_peer(alloc, out, column, peer)?;
    }
    Ok(())
}

/// What is told of each peer: the samples of one name stand together.
#[tactic(auto, unfolding(crate::specs::Samples::peer_samples))]
fn of_peers(alloc: Global, way: Way, peers: &[Meeting], now: u64) -> Result<Vec<Sample>, AllocError>
    ensures { IfOk result (λ samples. samples.items ≡ peer_samples way now peers.now) }
{
    let mut samples = Vec::new(alloc);
    let since = Column::of(way, Part::SinceAgreed, now);
    put_column(alloc, &mut samples, since, peers)?;
    let agrees = Column::of(way, Part::Agrees, now);
    put_column(alloc, &mut samples, agrees, peers)?;
    let given = Column::of(way, Part::Given, now);
    put_column(alloc, &mut samples, given, peers)?;
    let taken = Column::of(way, Part::Taken, now);
    put_column(alloc, &mut samples, taken, peers)?;
    Ok(samples)
}

/// All that is told to who measures a server, of itself and of each peer that it calls, or that
/// calls it.
#[tactic(auto, unfolding(crate::specs::Samples::samples_in))]
pub fn samples_of(
    alloc: Global,
    reading: Reading,
    peers: &[Meeting],
    callers: &[Meeting],
) -> Result<Vec<Sample>, AllocError>
    ensures { IfOk result (λ samples. samples.items ≡ samples_in reading peers.now callers.now) }
{
    let meters = reading.meters;
    let mut out = of_site(alloc, reading)?;
    put_all(&mut out, of_associations(alloc, meters.ends)?)?;
    put_all(&mut out, of_stores(alloc, meters.asked)?)?;
    put_all(&mut out, of_finds(alloc, meters.asked)?)?;
    put_all(&mut out, of_served(alloc, meters.served)?)?;
    put_all(&mut out, of_called(alloc, meters.called)?)?;
    put_all(&mut out, of_operations(alloc, meters)?)?;
    put_all(&mut out, of_moments(alloc, reading)?)?;
    let sizes = reading.sizes;
    put_all(
        &mut out,
        of_known(alloc, Family::ResidentMemory, sizes.resident)?,
    )?;
    put_all(&mut out, of_known(alloc, Family::StoreBytes, sizes.stored)?)?;
    put_all(&mut out, of_agreed(alloc, meters.agreed, reading.now)?)?;
    put_all(&mut out, of_peers(alloc, Way::Called, peers, reading.now)?)?;
    put_all(
        &mut out,
        of_peers(alloc, Way::Served, callers, reading.now)?,
    )?;
    Ok(out)
}
