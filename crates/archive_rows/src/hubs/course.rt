//! Two passes of a hub that goes on where memory is refused to it, until it is closed.

use crate::hubs::hub::Shared;
use crate::hubs::images::{FIRST_IMAGE, FIRST_SERIES, FIRST_STUDY, image};
use anyhow::{Result, anyhow};
use archive_model::View;
use archive_query::{Level, Selection};
use octets::{ListOf, Octets};
use operation::{Digested, Op, Stamp, Target, correction_of};
use site_hub::{
    CloseFault, HubFault, HubName, Keeper, Logged, Pass, Shows, Snapshot, close, correct, store,
};
use site_state::Site;
use std::alloc::Global;
use std::sync::{Mutex, Wait};

/// (0010,0010) Patient's Name
const NAME: u32 = 0x0010_0010;

/// What a call answered: a number, or why it was refused.
pub type Came = Result<u64, HubFault>;

/// What came of two images that the first pass stores, of two corrections that the second makes,
/// and how many operations this one then holds, and images it is to send of the first study, asked
/// for by the study and by the image; and whether the hub, once it is closed, leaves what has its
/// place.
#[derive(Clone, Copy)]
pub struct Course {
    pub stored: (Came, Came),
    pub corrected: (Came, Came),
    pub held: Came,
    pub sent: (Came, Came),
    pub is_left: bool,
}

/// A course that has not begun.
pub const BLANK: Course = Course {
    stored: (Ok(0), Ok(0)),
    corrected: (Ok(0), Ok(0)),
    held: Ok(0),
    sent: (Ok(0), Ok(0)),
    is_left: false,
};

/// 1 for an operation that has its place in the history, as one that is pending has.
fn placed(came: Came) -> u64 {
    match came {
        Ok(_) | Err(HubFault::Pending) => 1,
        Err(_) => 0,
    }
}

/// Whether an answer is this number, if there is one.
fn is_number(came: Came, wanted: u64) -> bool {
    came.unwrap_or(wanted) == wanted
}

/// How many of both have their place.
fn both(came: (Came, Came)) -> u64 {
    placed(came.0).saturating_add(placed(came.1))
}

impl Course {
    /// Whether the second correction has a counter that no other has: where the first is pending
    /// its counter is used.
    pub fn counts_on(&self) -> bool {
        is_number(self.corrected.1, both(self.corrected))
    }

    /// Whether the pass holds what has its place, but for a last operation that is pending, and is
    /// to send the image that it holds.
    pub fn is_seen(&self) -> bool {
        let late = u64::from(self.corrected.1 == Err(HubFault::Pending));
        let all = both(self.stored).saturating_add(both(self.corrected));
        let image = placed(self.stored.0);
        is_number(self.held, all.saturating_sub(late))
            && is_number(self.sent.0, image)
            && is_number(self.sent.1, image)
    }
}

/// The UID of the first study.
fn first_study(alloc: Global) -> Result<Octets> {
    Ok(Octets::from_slice(alloc, FIRST_STUDY)?)
}

/// A name that the patient of the first study is given.
fn name_given(alloc: Global) -> Result<Octets> {
    Ok(Octets::from_slice(alloc, b"ROE^ANN")?)
}

/// The correction of that name by site 1, with this counter.
fn correction(alloc: Global, counter: u64) -> Result<Digested> {
    let stamp = Stamp { counter, site: 1 };
    let target = Target::Study(first_study(alloc)?);
    let made = correction_of(target, NAME, name_given(alloc)?, stamp)?;
    Ok(Digested::of(Op::Correction(made)))
}

/// What has this UID, at a level of the first study.
fn selection(alloc: Global, level: Level, series: &[u8], uid: &[u8]) -> Result<Selection> {
    let uids = vec![in alloc; Octets::from_slice(alloc, uid)?]?;
    Ok(Selection {
        level,
        study: first_study(alloc)?,
        series: Octets::from_slice(alloc, series)?,
        uids: ListOf::of(uids),
    })
}

/// One pass stores the image of a number, and the other is told of it.
fn stored<H: HubName, T: Shows<H>, R: Wait>(
    rt: &R,
    keeper: &Shared<'_, H, T, R>,
    one: &mut Pass<H>,
    two: &mut Pass<H>,
    image: Digested,
    number: u64,
) -> Came {
    let recorded = one.record(&image)?;
    let told = store(rt, keeper, one, recorded)?;
    two.learn(told);
    Ok(number)
}

/// The counter of the correction of a name that a pass makes.
fn corrected<H: HubName, T: Shows<H>, R: Wait>(
    rt: &R,
    alloc: Global,
    keeper: &Shared<'_, H, T, R>,
    pass: &mut Pass<H>,
) -> Result<Came> {
    let target = Target::Study(first_study(alloc)?);
    let name = name_given(alloc)?;
    match correct(rt, keeper, pass, target, NAME, name) {
        Ok((made, _told)) => Ok(Ok(made.stamp().counter)),
        Err(fault) => Ok(Err(fault)),
    }
}

/// How many operations a pass holds: each of their digests has one, and none is missing.
fn held<H: HubName>(pass: &mut Pass<H>) -> Came {
    let digests = pass.digests()?;
    let mut held = 0u64;
    for digest in &digests {
        held = held.saturating_add(u64::from(pass.op(digest)?.is_some()));
    }
    let missing = pass.missing(digests.as_slice())?.len();
    Ok(held.saturating_sub(missing as u64))
}

/// How many images of a selection a pass is to send.
fn listed<H: HubName>(pass: &mut Pass<H>, selection: &Selection) -> Came {
    let listed = pass.list(View::Archive, selection)?;
    Ok(listed.len() as u64)
}

/// How many images of the first study a pass is to send, asked for by the study and by the image.
fn sent<H: HubName>(alloc: Global, pass: &mut Pass<H>) -> Result<(Came, Came)> {
    let study = selection(alloc, Level::Study, b"", FIRST_STUDY)?;
    let image = selection(alloc, Level::Image, FIRST_SERIES, FIRST_IMAGE)?;
    Ok((listed(pass, &study), listed(pass, &image)))
}

/// All that the two passes do.
fn done<H: HubName, T: Shows<H>, R: Wait>(
    rt: &R,
    alloc: Global,
    keeper: &Shared<'_, H, T, R>,
    one: &mut Pass<H>,
    two: &mut Pass<H>,
    course: &mut Course,
) -> Result<()> {
    let (first, second) = (image(alloc, b'0')?, image(alloc, b'1')?);
    course.stored.0 = stored(rt, keeper, one, two, first, 1);
    course.stored.1 = stored(rt, keeper, one, two, second, 2);
    course.corrected.0 = corrected(rt, alloc, keeper, two)?;
    course.corrected.1 = corrected(rt, alloc, keeper, two)?;
    course.held = held(two);
    course.sent = sent(alloc, two)?;
    Ok(())
}

/// All that the first two passes of a hub do.
fn went_on<H: HubName, T: Shows<H>, R: Wait>(
    rt: &R,
    alloc: Global,
    keeper: &Shared<'_, H, T, R>,
    passes: &mut [Pass<H>],
    course: &mut Course,
) -> Result<()> {
    let one = passes.len().min(1);
    let (first, second) = passes.split_at_mut(one);
    let (Some(one), Some(two)) = (first.first_mut(), second.first_mut()) else {
        return Err(anyhow!("no two passes"));
    };
    done(rt, alloc, keeper, one, two, course)
}

/// The entries of what has its place: images of these digests, and corrections of the counters from
/// 1 on.
fn entries(alloc: Global, course: &Course) -> Result<Vec<Logged>> {
    let mut entries = Vec::new(alloc);
    for (digit, came) in [(b'0', course.stored.0), (b'1', course.stored.1)] {
        if placed(came) == 1 {
            let image = image(alloc, digit)?;
            let digest = *image.digest();
            entries.push(Logged { pass: 1, digest })?;
        }
    }
    for counter in 1..=both(course.corrected) {
        let digest = *correction(alloc, counter)?.digest();
        entries.push(Logged { pass: 2, digest })?;
    }
    Ok(entries)
}

/// Whether a log has these entries, and a site their operations.
fn has_all(site: &Site, log: &[Logged], entries: &[Logged]) -> bool {
    let mut has = log == entries && site.counts().operations == entries.len();
    for entry in entries {
        has = has && site.op(&entry.digest).is_some();
    }
    has
}

/// All that the first two passes of a hub do, which is then closed.
pub fn gone_on<H: HubName, R: Wait>(
    rt: &R,
    alloc: Global,
    keeper: Shared<'_, H, Snapshot<H>, R>,
    mut passes: Vec<Pass<H>>,
    course: &mut Course,
) -> Result<()> {
    went_on(rt, alloc, &keeper, passes.as_mut_slice(), course)?;
    let entries = entries(alloc, course)?;
    course.is_left = leaves(keeper, passes, &entries);
    Ok(())
}

type Left<'a, H, R> = CloseFault<Keeper<H, Snapshot<H>, &'a R>, H>;

/// Whether a hub that was not closed leaves these entries. A keeper that is not closed is dropped
/// by a lock.
fn leaves_then<H: HubName, R: Wait>(back: Left<'_, H, R>, entries: &[Logged]) -> bool {
    let CloseFault {
        keeper,
        passes,
        fault: _,
    } = back;
    match close(keeper, passes) {
        Ok((site, log)) => has_all(&site, log.as_slice(), entries),
        Err(back) => {
            let CloseFault {
                keeper,
                passes: _,
                fault: _,
            } = back;
            let _locked = Mutex::new(keeper);
            false
        }
    }
}

/// Closes a hub, once more where that is refused. Whether it leaves these entries and their
/// operations.
fn leaves<H: HubName, R: Wait>(
    keeper: Shared<'_, H, Snapshot<H>, R>,
    passes: Vec<Pass<H>>,
    entries: &[Logged],
) -> bool {
    match close(keeper.into_inner(), passes) {
        Ok((site, log)) => has_all(&site, log.as_slice(), entries),
        Err(back) => leaves_then(back, entries),
    }
}
