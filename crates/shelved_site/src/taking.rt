//! The site of a store, and the hub that is opened over it.

ghost use Rattle.std.specs.Prelude.{◌≡◌, ◌≤◌, All, Err, false, IfOk, IfErr, IsErrOf, OnOk, OnErr};
ghost use Rattle.site_state.specs.Laws.{Apart, after_taking};
ghost use Rattle.shelved_site.specs.declared.fault.ShelvedFault.TheVariants.{Hidden};
ghost use Rattle.shelved_site.specs.Readable.{HidesNothing, IsNoNote};
ghost use Rattle.shelved_site.specs.Sites.{IsSiteOf, IsBehindSite, IsBeforeHub, IsOfStore};

use crate::Store;
use crate::fault::ShelvedFault;
use crate::unreadable::{Readable, Unreadable, hide_nothing};
use records::RecordedOp;
use site_hub::{Opened, open};
use site_state::{Site, SiteFault};
use std::alloc::Global;
use std::sync::Wait;

/// Who hears how far a site is, while a store is read.
pub trait Hearing {
    /// So many operations were read, and are taken next.
    fn has_read(&self, operations: usize);

    /// An operation can't be read, and the others go on without it.
    fn cannot_read(&self, unreadable: &Unreadable);

    /// The records beside a log do not follow its operations: none is added.
    fn has_other_records(&self);
}

/// A site, and what is told of those operations of its store that can't be read, which it is
/// without.
#[derive(Drop)]
pub struct Sited {
    pub site: Site,
    pub unreadable: Vec<Unreadable>,
}

/// A hub over a site, and what is told of those operations of its store that can't be read.
#[derive(Drop)]
pub struct Begun<R: Wait + Drop> {
    pub opened: Opened<R>,
    pub unreadable: Vec<Unreadable>,
}

/// What is asked of a hub.
#[derive(Clone, Copy, Debug)]
pub struct Asked {
    /// The number of its site, from 1 on.
    pub number: u16,
    /// For how many passes it is, 1 to 64.
    pub passes: usize,
    /// Whether it opens where an operation that can't be read may be a rejection note: then images
    /// may be shown that a note hides.
    pub shows_without: bool,
}

/// Tells that so many operations were read, and which can't be.
pub(crate) fn tell_each<H: Hearing>(hearing: &H, operations: usize, unreadable: &[Unreadable]) {
    for one in unreadable {
        hearing.cannot_read(one);
    }
    hearing.has_read(operations);
}

/// The site that took some records, one after another.
fn after_each(alloc: Global, recorded: Vec<RecordedOp>) -> Result<Site, SiteFault>
    ensures site { IfOk result (λ site. site ≡ after_taking recorded.items) }
    ensures apart { IfOk result (λ _. Apart recorded.items) }
    ensures collision { IsErrOf result SiteFault.Collision → ¬ Apart recorded.items }
{
    let mut site = Site::new(alloc);
    for op in recorded {
        let _taken = site.take(op)?;
    }
    Ok(site)
}

/// The site that took some records, as those of a store at a start. Nothing is hashed.
///
/// The last is taken first, which says the same: most UIDs ascend as they come, and a tree of keys
/// is searched from its least, so each is found in front of those that are there.
pub fn site_of(alloc: Global, recorded: Vec<RecordedOp>) -> Result<Site, SiteFault>
    ensures site { IfOk result (λ site. site ≡ after_taking recorded.items) }
    ensures collision { IsErrOf result SiteFault.Collision → ¬ Apart recorded.items }
{
    let mut turned = recorded;
    turned.reverse();
    let site = after_each(alloc, turned)?;
    Ok(site)
}

/// The site of a store, which took the records of all its operations that can be read: one data set
/// at a time is in memory. The store stays as it is.
pub fn site_on<S: Store, H: Hearing>(
    alloc: Global,
    store: &mut S,
    hearing: &H,
) -> Result<Sited, ShelvedFault>
    ensures site { S.is_clean store.new → IfOk result (λ sited. IsSiteOf
        (S.reads store.old store.new sited.unreadable.items) sited.site) }
    ensures same { S.is_clean store.new → OnOk result (S.is_same store.old store.new) }
    ensures refused { S.is_clean store.new → OnErr result (S.spares store.old store.new) }
    // It is refused because of the store only where that had cause not to show its operations.
    ensures why { S.is_clean store.new
        → IfErr result (IsOfStore (S.refuses_all store.old store.new)) }
    ensures clean { S.is_clean store.new → S.is_clean store.old }
    ensures fault { IfErr result IsBeforeHub }
{
    let Readable {
        recorded,
        unreadable,
    } = store.readable()?;
    tell_each(hearing, recorded.len(), &unreadable);
    let site = site_of(alloc, recorded)?;
    Ok(Sited { site, unreadable })
}

/// Opens a hub over a site. It is refused where an operation that can't be read may be a rejection
/// note, unless it is asked for without.
pub(crate) fn hub_over<R: Wait + Drop>(
    alloc: Global,
    rt: R,
    sited: Sited,
    asked: Asked,
) -> Result<Begun<R>, ShelvedFault>
    requires number { 1 ≤ asked.number }
    requires passes { (1 ≤ asked.passes) × (asked.passes ≤ 64) }
    ensures opening { IfOk result (λ begun. (begun.opened.opening ≡ sited.site)
        × (begun.unreadable.items ≡ sited.unreadable.items)) }
    ensures hidden { IfOk result (λ begun.
        HidesNothing asked.shows_without begun.unreadable.items) }
    ensures asked { result ≡ Err Hidden → (asked.shows_without ≡ false)
        × ¬ (All IsNoNote sited.unreadable.items) }
    ensures size { IfOk result (λ begun. (begun.opened.number ≡ asked.number)
        × (begun.opened.passes ≡ asked.passes)) }
    ensures fault { IfErr result IsBehindSite }
{
    let Sited { site, unreadable } = sited;
    if !asked.shows_without && !hide_nothing(&unreadable) {
        return Err(ShelvedFault::Hidden);
    }
    let opened = open(alloc, rt, site, asked.number, asked.passes)?;
    Ok(Begun { opened, unreadable })
}

/// Opens a hub over the site of a store. Where an operation that can't be read may be a rejection
/// note it is refused, unless it is asked for without. The store stays as it is.
pub fn hub_on<S: Store, R: Wait + Drop, H: Hearing>(
    alloc: Global,
    rt: R,
    store: &mut S,
    asked: Asked,
    hearing: &H,
) -> Result<Begun<R>, ShelvedFault>
    requires number { 1 ≤ asked.number }
    requires passes { (1 ≤ asked.passes) × (asked.passes ≤ 64) }
    ensures opening { S.is_clean store.new → IfOk result (λ begun. IsSiteOf
        (S.shows store.new begun.unreadable.items) begun.opened.opening) }
    // What is hidden stays hidden, unless it is asked for.
    ensures hidden { IfOk result (λ begun.
        HidesNothing asked.shows_without begun.unreadable.items) }
    ensures asked { result ≡ Err Hidden → asked.shows_without ≡ false }
    ensures size { IfOk result (λ begun. (begun.opened.number ≡ asked.number)
        × (begun.opened.passes ≡ asked.passes)) }
    ensures same { S.is_clean store.new → OnOk result (S.is_same store.old store.new) }
    ensures refused { S.is_clean store.new → OnErr result (S.spares store.old store.new) }
    // It is refused because of the store only where that had cause not to show its operations.
    ensures why { S.is_clean store.new
        → IfErr result (IsOfStore (S.refuses_all store.old store.new)) }
    ensures clean { S.is_clean store.new → S.is_clean store.old }
{
    let sited = site_on(alloc, store, hearing)?;
    hub_over(alloc, rt, sited, asked)
}
