//! What is told of a running site to who measures it.

ghost use Rattle.std.specs.Prelude.{◌≡◌};
ghost use Rattle.site_hub.specs.Hub.{HasLooked};
ghost use Rattle.archive_server.specs.Telling.{AreSamplesOf, reading_in};

use crate::known::Known;
use archive_page::Sample;
use site_hub::{HubName, Pass};
use site_pages::{CountsOf, Reading, samples_of};
use site_state::Counts;
use std::alloc::Global;

/// What is told of a site that holds so many operations.
fn reading_of(counts: Counts, known: &Known) -> Reading
    ensures { result ≡ reading_in counts known.now }
{
    Reading {
        meters: known.meters,
        contents: counts.contents as u64,
        corrections: counts.corrections as u64,
        takes: known.refusal.is_none(),
        now: known.uptime,
        sizes: known.sizes,
    }
}

/// What is counted of the site that a pass sees, in one look, and of its server: nothing where that
/// can't be told now.
pub(crate) fn counted<H: HubName>(alloc: Global, pass: &mut Pass<H>, known: &Known) -> Vec<Sample>
    ensures looked { HasLooked pass.old pass.new }
    ensures counted { AreSamplesOf H.opening pass.new known.now result.items }
{
    let Ok(counts) = pass.look(&CountsOf) else {
        return Vec::new(alloc);
    };
    let (peers, callers) = (known.peers.as_slice(), known.callers.as_slice());
    match samples_of(alloc, reading_of(counts, known), peers, callers) {
        Ok(samples) => samples,
        Err(_refused) => Vec::new(alloc),
    }
}
