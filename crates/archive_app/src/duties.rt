//! What a server does beside its associations, and how many passes it takes.

ghost use Rattle.std.specs.Prelude.{◌≡◌, ◌≤◌, ◌<◌, ◌+◌, IfSome, vec_len};
ghost use Rattle.archive_server.specs.Serving.{others_in, serving_in};
ghost use Rattle.command_words.specs.Words.{HasPlaces, named_or, threads_at as threads_at_one};
ghost use Rattle.command_words.specs.declared.TheConstants.{LOOPBACK};

use crate::listening::Listening;
use archive_server::{Correcting, Duties, Entrance, Exchanging, Gauges, Paging, Peer};
use command_words::Serving;

/// Where exchanges come in, and how many are served.
fn exchanging_of<'a>(listening: &'a Listening, serving: &'a Serving<'_>) -> Option<Exchanging<'a>>
    ensures networks { IfSome result (λ exchanging. exchanging.entrance.allowed.now
        ≡ serving.now.exchange_allowed.items) }
    ensures rounds { IfSome result (λ exchanging. exchanging.rounds ≡ serving.now.rounds) }
    ensures workers { IfSome result (λ exchanging.
        exchanging.workers ≡ serving.now.exchange_workers) }
{
    match &listening.exchanges {
        None => None,
        Some(listener) => Some(Exchanging {
            entrance: Entrance {
                listener,
                allowed: serving.exchange_allowed.as_slice(),
            },
            rounds: serving.rounds as u64,
            workers: serving.exchange_workers,
        }),
    }
}

/// Where pages are asked for, if anywhere. The site is called as its file is.
fn paging_at<'a>(
    listening: &'a Listening,
    serving: &'a Serving<'_>,
    gauges: &'a Gauges,
) -> Option<Paging<'a>>
    ensures networks { IfSome result (λ paging. paging.entrance.allowed.now
        ≡ named_or serving.now.page_allowed.items LOOPBACK.now) }
    ensures names { IfSome result (λ paging. paging.names.now ≡ serving.now.names.items) }
{
    match &listening.pages {
        None => None,
        Some(door) => Some(Paging {
            entrance: Entrance {
                listener: &door.listener,
                allowed: serving.page_networks(),
            },
            name: serving.file.as_bytes(),
            names: serving.names.as_slice(),
            keys: door.keys,
            gauges,
        }),
    }
}

/// Where corrections are asked for, if anywhere, and the number of the site.
fn correcting_at<'a>(listening: &'a Listening, serving: &'a Serving<'_>) -> Option<Correcting<'a>>
    ensures networks { IfSome result (λ correcting. correcting.entrance.allowed.now
        ≡ named_or serving.now.desk_allowed.items LOOPBACK.now) }
    ensures names { IfSome result (λ correcting. correcting.names.now ≡ serving.now.names.items) }
    ensures site { IfSome result (λ correcting. IfSome serving.now.desk (λ desk.
        correcting.site ≡ desk.site)) }
{
    match (&listening.desk, serving.desk) {
        (Some(door), Some(desk)) => Some(Correcting {
            entrance: Entrance {
                listener: &door.listener,
                allowed: serving.desk_networks(),
            },
            site: desk.site,
            names: serving.names.as_slice(),
            keys: door.keys,
        }),
        _ => None,
    }
}

/// What a server does beside its associations.
pub fn duties_of<'a>(
    listening: &'a Listening,
    serving: &'a Serving<'_>,
    peers: &'a [Peer<'a>],
    gauges: &'a Gauges,
) -> Duties<'a> {
    Duties {
        exchange: exchanging_of(listening, serving),
        peers,
        pages: paging_at(listening, serving, gauges),
        desk: correcting_at(listening, serving),
    }
}

/// How many passes serve at one address, or nowhere.
fn threads_at<T>(address: &Option<T>) -> usize
    ensures { result ≡ threads_at_one address.now }
{
    match address {
        None => 0,
        Some(_) => 1,
    }
}

/// How many passes serve exchanges.
fn serving_of(exchange: &Option<Exchanging<'_>>) -> usize
    ensures { result ≡ serving_in exchange.now }
{
    match exchange {
        None => 0,
        Some(exchanging) => exchanging.workers as usize,
    }
}

/// How many passes are left for workers beside these duties.
pub fn workers_of(passes: usize, duties: &Duties<'_>) -> usize
    ensures { 0 < result → passes ≡ result + others_in duties.now }
{
    passes
        .saturating_sub(threads_at(&duties.desk))
        .saturating_sub(threads_at(&duties.pages))
        .saturating_sub(duties.peers.len())
        .saturating_sub(serving_of(&duties.exchange))
}

/// A pass for each worker, for each worker of exchanges, for each peer, for pages and for the desk.
pub fn passes_for(serving: &Serving<'_>) -> usize
    requires places { HasPlaces serving.now }
    ensures each { result ≡ serving.now.workers + serving.now.exchange_workers
        + vec_len serving.now.peers + threads_at_one serving.now.page
        + threads_at_one serving.now.desk }
    ensures most { (1 ≤ result) × (result ≤ 64) }
{
    serving.workers as usize
        + serving.exchange_workers as usize
        + serving.peers.len()
        + serving.paging()
        + serving.correcting()
}
