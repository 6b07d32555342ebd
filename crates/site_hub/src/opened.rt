//! A hub before it has a name.
ghost use Rattle.std.specs.Prelude.{◌≡◌, ◌≤◌, ◌⊎◌, [], IfOk, IfErr};
ghost use Rattle.site_hub.specs.Hub.{new_seat, new_seats};

use crate::book::{Blank, Front, HubName};
use crate::fault::HubFault;
use crate::keeper::Keeper;
use crate::pair::Pair;
use crate::pass::Pass;
use crate::refusals::Refusals;
use crate::snapshot::{Item, Snapshot};
use left_right::WriteHandle;
use site_state::Site;
use std::alloc::Global;
use std::marker::Model;
use std::sync::Wait;

/// A hub that no type names yet: a site in two copies, over a history that has no entry.
pub struct Opened<R: Drop> {
    blank: Blank,
    first: Site,
    second: Site,
    number: u16,
    passes: usize,
    alloc: Global,
    rt: R,
}

impl<R: Drop> Model for Opened<R> {
    ghost use Rattle.std.specs.Prelude.{◌≡◌, ◌≤◌};
    ghost use Rattle.site_hub.specs.Hub.{Unnamed, unnamed_code};

    ghost Value = { Unnamed };

    ghost coded = { unnamed_code };

    ghost view = { λ o. record {
      book = o.blank.seen.book;
      number = o.number;
      opening = o.first;
      passes = o.passes;
    } };

    ghost invariant = { λ o. (o.second ≡ o.first) × (1 ≤ o.passes) × (o.passes ≤ 64) };
}

// It is written out, so that a caller does not prove again how each part is dropped.
impl<R: Drop> Drop for Opened<R> {
    fn drop(self) {
        let Opened {
            blank: _,
            first: _,
            second: _,
            number: _,
            passes: _,
            alloc: _,
            rt: _,
        } = self;
    }
}

/// Opens a hub over a site, which has this number, for so many passes. It waits for nobody: the
/// handle is kept for the keeper.
pub fn open<R: Drop>(
    alloc: Global,
    rt: R,
    site: Site,
    number: u16,
    passes: usize,
) -> Result<Opened<R>, HubFault>
    requires number { 1 ≤ number }
    requires passes { (1 ≤ passes) × (passes ≤ 64) }
    ensures opening { IfOk result (λ opened. opened.opening ≡ site) }
    ensures number { IfOk result (λ opened. opened.number ≡ number) }
    ensures passes { IfOk result (λ opened. opened.passes ≡ passes) }
    ensures memory { IfErr result (λ fault. fault ≡ HubFault.Memory) }
{
    let Ok(second) = site.copy(alloc) else {
        return Err(HubFault::Memory);
    };
    Ok(Opened {
        blank: Blank::new(),
        first: site,
        second,
        number,
        passes,
        alloc,
        rt,
    })
}

fn pass_of<H: HubName, R: Wait + Drop>(
    alloc: Global,
    handle: &WriteHandle<Snapshot<H>, Item<H>, R>,
    number: u64,
    seen: Front<H>,
) -> Result<Pass<H>, HubFault>
    requires { seen ≡ [] }
    ensures pass { IfOk result (λ pass. pass ≡ new_seat number) }
    ensures busy { IfErr result (λ fault. fault ≡ HubFault.Busy) }
{
    let Ok(reader) = handle.handle() else {
        return Err(HubFault::Busy);
    };
    Ok(Pass {
        reader,
        number,
        seen,
        mine: Vec::new(alloc),
        refusals: Refusals::new(),
        alloc,
    })
}

/// So many passes, numbered from 1.
fn passes_of<H: HubName, R: Wait + Drop>(
    alloc: Global,
    handle: &WriteHandle<Snapshot<H>, Item<H>, R>,
    count: usize,
    front: &Front<H>,
) -> Result<Vec<Pass<H>>, HubFault>
    requires nothing { front.now ≡ [] }
    requires few { count ≤ 64 }
    ensures passes { IfOk result (λ passes. passes.items ≡ new_seats count) }
    ensures fault { IfErr result (λ fault. (fault ≡ HubFault.Busy) ⊎ (fault ≡ HubFault.Memory)) }
{
    let Ok(mut passes) = Vec::with_capacity(alloc, count) else {
        return Err(HubFault::Memory);
    };
    for k in 0..count {
        let pass = pass_of(alloc, handle, k as u64 + 1, front.again())?;
        if passes.push(pass).is_err() {
            return Err(HubFault::Memory);
        }
    }
    Ok(passes)
}

impl<R: Wait + Drop> Opened<R> {
    /// The keeper and the passes of the hub that `H` names.
    pub fn named<H: HubName>(self) -> Result<(Keeper<H, Snapshot<H>, R>, Vec<Pass<H>>), HubFault>
        requires book { self.book ≡ H.book }
        requires number { self.number ≡ H.number }
        requires opening { self.opening ≡ H.opening }
        requires passes { self.passes ≡ H.passes }
        ensures keeper { IfOk result (λ hub. hub.0 ≡ record { published = []; all = [] }) }
        ensures passes { IfOk result (λ hub. hub.1.items ≡ new_seats self.passes) }
        ensures fault { IfErr result (λ e. (e ≡ HubFault.Busy) ⊎ (e ≡ HubFault.Memory)) }
    {
        let Opened {
            blank,
            first,
            second,
            number,
            passes,
            alloc,
            rt,
        } = self;
        first.see_lawful();
        let (book, front) = blank.named::<H>();
        let first = Snapshot::new(alloc, first, front.again());
        let second = Snapshot::new(alloc, second, front.again());
        let Ok(handle) = WriteHandle::new(alloc, rt, first, second, passes) else {
            return Err(HubFault::Memory);
        };
        let places = passes_of(alloc, &handle, passes, &front)?;
        let keeper = Keeper {
            book,
            pair: Pair { handle },
            late: None,
            front,
            log: Vec::new(alloc),
            number,
            passes,
        };
        Ok((keeper, places))
    }
}
