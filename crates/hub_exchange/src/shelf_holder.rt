//! A site as a holder, whose operations stand on a shelf.

ghost use Rattle.std.specs.Prelude.{◌≡◌, ⊤, IfErr};
ghost use Rattle.std.specs.FinMap as finmap;
ghost use Rattle.operation.specs.declared.op.Op.{Op as Operation};
ghost use Rattle.site_state.specs.Site.{Map};
ghost use Rattle.exchange.specs.Held.{TakesAlone};
ghost use Rattle.hub_exchange.specs.Putting.{HaveGoneOn, RefusesToRecord};

use crate::putting::{load_from, refusal_of_shelf};
use exchange::{
    Digests, Holder, HolderFault, Version, buckets_of_site, digests_of_site, digests_of_site_in,
    held_of_site, missing_of_site,
};
use octets::ListOf;
use op_shelf::Keep;
use operation::{Digest, Digested, Op, Taken};
use records::RecordedOp;
use site_state::{Site, SiteFault};
use std::alloc::Global;
use std::marker::{Brand, Model, PhantomData};

/// What a site held, and what lasted on its shelf, when its exchange began. Each call of a program
/// picks them.
pub trait AtOpening {
    ghost opening: { Map };

    ghost lasted: { Operation → Type 0 };
}

impl AtOpening for Brand {
    ghost opening = { finmap.empty };

    ghost lasted = { λ _. ⊥ };
}

/// A site with its shelf. What it has gained since its exchange began lasts on the shelf, and so
/// does what lasted there then. Contracts see the site.
pub struct ShelvedHolder<K: Keep + Drop, E: AtOpening> {
    alloc: Global,
    site: Site,
    shelf: K,
    of: PhantomData<E>,
}

impl<K: Keep + Drop, E: AtOpening> Model for ShelvedHolder<K, E> {
    ghost use Rattle.std.specs.FinMap as finmap;
    ghost use Rattle.std.specs.Coded.{coded_list, coded_ℕ};
    ghost use Rattle.operation.specs.OpCode.{op_code};
    ghost use Rattle.site_state.specs.Site.{Map};
    ghost use Rattle.hub_exchange.specs.Putting.{HaveGoneOn};

    ghost Value = { Map };

    ghost coded = { finmap.code (coded_list coded_ℕ) op_code };

    ghost view = { λ h. h.site };

    ghost invariant = { λ h. HaveGoneOn K.is_up K.lasts E.lasted E.opening h.site h.shelf };
}

impl<K: Keep + Drop, E: AtOpening> ShelvedHolder<K, E> {
    /// The holder of an exchange that begins with this site and this shelf.
    pub fn new(alloc: Global, site: Site, shelf: K) -> ShelvedHolder<K, E>
        requires opening { site ≡ E.opening }
        requires lasted { (op : Operation) → E.lasted op → K.lasts shelf op }
        ensures { result ≡ site }
    {
        ShelvedHolder {
            alloc,
            site,
            shelf,
            of: PhantomData,
        }
    }

    /// Gives the site and the shelf back.
    pub fn into_parts(self) -> (Site, K)
        ensures same { result.0 ≡ self }
        ensures gone_on { HaveGoneOn K.is_up K.lasts E.lasted E.opening result.0 result.1 }
    {
        let ShelvedHolder {
            alloc: _,
            site,
            shelf,
            of: _,
        } = self;
        (site, shelf)
    }
}

/// A site takes the record of an operation. A refusal leaves it as it was.
fn take_record(alloc: Global, site: &mut Site, op: &Digested) -> Result<Taken, HolderFault>
    ensures takes { TakesAlone site.old op.now result site.new }
    ensures why { IfErr result (RefusesToRecord site.old op.now) }
{
    let recorded = RecordedOp::of(alloc, op)?;
    match site.take(recorded) {
        Ok(taken) => Ok(taken),
        Err(SiteFault::Collision) => Err(HolderFault::Refused),
        Err(SiteFault::Memory) => Err(HolderFault::Memory),
    }
}

/// Nobody else changes the site.
impl<K: Keep + Drop, E: AtOpening> Holder for ShelvedHolder<K, E> {
    ghost use Rattle.std.specs.Prelude.{◌≡◌};
    ghost use Rattle.exchange.specs.declared.fault.HolderFault.TheVariants.{Memory};
    ghost use Rattle.hub_exchange.specs.Putting.{HaveGoneOn, RefusesOnShelf, RefusesLoadSince};

    ghost holds = { λ s. s };

    ghost alone = { λ _. ⊤ };

    ghost refuses_look = { λ _ _ fault. fault ≡ Memory };

    // The shelf refused to put it, or the site to take it.
    ghost refuses_take = { λ before.
        RefusesOnShelf (HaveGoneOn K.is_up K.lasts E.lasted E.opening before) K.refuses before };

    // No operation of the record came of the shelf.
    ghost refuses_load = { RefusesLoadSince K.is_up K.holds K.lasts K.refuses_load E.lasted E.opening };

    fn digests(&mut self, alloc: Global, version: Version) -> Result<Digests, HolderFault> {
        self.site.see_lawful();
        Ok(digests_of_site(alloc, version, &self.site)?)
    }

    fn digests_in(
        &mut self,
        alloc: Global,
        version: Version,
        places: &[u8],
    ) -> Result<Digests, HolderFault> {
        self.site.see_lawful();
        Ok(digests_of_site_in(alloc, version, places, &self.site)?)
    }

    fn buckets(&mut self, alloc: Global, version: Version) -> Result<ListOf<Digest>, HolderFault> {
        self.site.see_lawful();
        Ok(buckets_of_site(alloc, version, &self.site)?)
    }

    fn missing(&mut self, alloc: Global, digests: &Digests) -> Result<Digests, HolderFault> {
        self.site.see_lawful();
        Ok(missing_of_site(alloc, &self.site, digests)?)
    }

    fn held(
        &mut self,
        alloc: Global,
        version: Version,
        digests: &Digests,
    ) -> Result<Digests, HolderFault> {
        self.site.see_lawful();
        Ok(held_of_site(alloc, version, &self.site, digests)?)
    }

    fn load(&mut self, alloc: Global, digest: &Digest) -> Result<Option<Op>, HolderFault> {
        self.site.see_lawful();
        let Some(held) = self.site.op(digest) else {
            return Ok(None);
        };
        let op = load_from(alloc, &mut self.shelf, digest, held)?;
        Ok(Some(op))
    }

    fn take(&mut self, op: Digested) -> Result<Taken, HolderFault> {
        op.op().see_lawful();
        match self.shelf.put_digested(&op) {
            Ok(_kept) => take_record(self.alloc, &mut self.site, &op),
            Err(fault) => Err(refusal_of_shelf(fault)),
        }
    }
}
