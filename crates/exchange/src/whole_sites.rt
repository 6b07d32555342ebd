//! A site in memory with whole operations: what is told of it in an exchange, and the site as a
//! holder.

ghost use Rattle.std.specs.Prelude.{◌≡◌, ◌↔◌, IfErr, IfOk, OnErr, OnOk, Err, ⊤};
ghost use Rattle.site_state.specs.Site.{IsClash, held_at, with_op};
ghost use Rattle.site_state.specs.Whole.{recorded};
ghost use Rattle.exchange.specs.Held.{offered, offered_in, lacked, given, if_spoken, TakesIn, RefusesTake};
ghost use Rattle.exchange.specs.Buckets.{bucket_list, unequal as unequal_in};

use crate::buckets::unequal;
use crate::fault::HolderFault;
use crate::holder::Holder;
use crate::sites::{
    buckets_of_site, digests_of_site, digests_of_site_in, held_of_site, missing_of_site,
};
use crate::version::Version;
use exchange_frames::Digests;
use octets::{ListOf, Octets};
use operation::{Digest, Digested, Op, Taken};
use site_state::{SiteFault, WholeSite};
use std::alloc::{AllocError, Global};

/// The digests of a site's operations that a version speaks of, ascending.
pub fn digests_of_whole(
    alloc: Global,
    version: Version,
    site: &WholeSite,
) -> Result<Digests, AllocError>
    ensures { IfOk result (λ digests. digests ≡ offered version site.now) }
{
    let digests = digests_of_site(alloc, version, site.site())?;
    Ok(digests)
}

/// Those of them that begin with one of these bytes, ascending.
pub fn digests_of_whole_in(
    alloc: Global,
    version: Version,
    places: &[u8],
    site: &WholeSite,
) -> Result<Digests, AllocError>
    ensures { IfOk result (λ digests. digests ≡ offered_in version places.now site.now) }
{
    let digests = digests_of_site_in(alloc, version, places, site.site())?;
    Ok(digests)
}

/// The buckets of a site's operations that a version speaks of.
pub fn buckets_of_whole(
    alloc: Global,
    version: Version,
    site: &WholeSite,
) -> Result<ListOf<Digest>, AllocError>
    ensures { IfOk result (λ buckets. buckets ≡ bucket_list (offered version site.now)) }
{
    let buckets = buckets_of_site(alloc, version, site.site())?;
    Ok(buckets)
}

/// The first bytes in which these are other buckets than a site's.
pub fn differ_of_whole(
    alloc: Global,
    version: Version,
    site: &WholeSite,
    buckets: &[Digest],
) -> Result<Octets, AllocError>
    ensures { IfOk result (λ places. places
        ≡ unequal_in (bucket_list (offered version site.now)) buckets.now) }
{
    let own = buckets_of_whole(alloc, version, site)?;
    unequal(alloc, own.as_slice(), buckets)
}

/// Those of some digests that a site does not have, in the order given.
pub fn missing_of_whole(
    alloc: Global,
    site: &WholeSite,
    digests: &Digests,
) -> Result<Digests, AllocError>
    ensures { IfOk result (λ missing. missing ≡ lacked site.now digests.now) }
{
    let missing = missing_of_site(alloc, site.site(), digests)?;
    Ok(missing)
}

/// A second owner of the operation under a digest, if a site has one. The bytes of its data set are
/// shared.
pub fn op_of_whole(
    alloc: Global,
    site: &WholeSite,
    digest: &Digest,
) -> Result<Option<Op>, AllocError>
    ensures { IfOk result (λ op. op ≡ held_at site.now digest.now) }
{
    match site.op(digest) {
        None => Ok(None),
        Some(op) => Ok(Some(op.copy(alloc)?)),
    }
}

/// A second owner of the operation of a digest, if it is held and a version speaks of it.
fn op_of(
    alloc: Global,
    version: Version,
    site: &WholeSite,
    digest: &Digest,
) -> Result<Option<Op>, AllocError>
    ensures { IfOk result (λ op. op ≡ if_spoken version (held_at site.now digest.now)) }
{
    match site.op(digest) {
        None => Ok(None),
        Some(op) => {
            if !version.speaks(op) {
                return Ok(None);
            }
            Ok(Some(op.copy(alloc)?))
        }
    }
}

/// The operations under some digests that a site has and that a version speaks of, in the order
/// given. The bytes of data sets are shared.
pub fn ops_of_whole(
    alloc: Global,
    version: Version,
    site: &WholeSite,
    digests: &Digests,
) -> Result<ListOf<Op>, AllocError>
    ensures { IfOk result (λ ops. ops ≡ given version digests.now site.now) }
{
    let mut ops = Vec::new(alloc);
    let arrays = digests.as_arrays();
    for bytes in arrays {
        if let Some(op) = op_of(alloc, version, site, &Digest::of(*bytes))? {
            ops.push(op)?;
        }
    }
    Ok(ListOf::of(ops))
}

/// Nobody else changes a site in memory. It refuses for want of memory, and else only what clashes
/// with what it holds.
impl Holder for WholeSite {
    ghost use Rattle.std.specs.Prelude.{◌≡◌};
    ghost use Rattle.exchange.specs.declared.fault.HolderFault.TheVariants.{Memory};
    ghost use Rattle.site_state.specs.Whole.{recorded};
    ghost use Rattle.exchange.specs.Held.{RefusesTake};

    ghost holds = { λ s. recorded s };

    ghost alone = { λ _. ⊤ };

    ghost refuses_look = { λ _ _ fault. fault ≡ Memory };

    ghost refuses_take = { λ before _ op fault. RefusesTake before op fault };

    ghost refuses_load = { λ _ _ _ fault. fault ≡ Memory };

    fn digests(&mut self, alloc: Global, version: Version) -> Result<Digests, HolderFault> {
        self.see_lawful();
        Ok(digests_of_site(alloc, version, self.site())?)
    }

    fn digests_in(
        &mut self,
        alloc: Global,
        version: Version,
        places: &[u8],
    ) -> Result<Digests, HolderFault> {
        self.see_lawful();
        Ok(digests_of_site_in(alloc, version, places, self.site())?)
    }

    fn buckets(&mut self, alloc: Global, version: Version) -> Result<ListOf<Digest>, HolderFault> {
        self.see_lawful();
        Ok(buckets_of_site(alloc, version, self.site())?)
    }

    fn missing(&mut self, alloc: Global, digests: &Digests) -> Result<Digests, HolderFault> {
        self.see_lawful();
        Ok(missing_of_site(alloc, self.site(), digests)?)
    }

    fn held(
        &mut self,
        alloc: Global,
        version: Version,
        digests: &Digests,
    ) -> Result<Digests, HolderFault> {
        self.see_lawful();
        Ok(held_of_site(alloc, version, self.site(), digests)?)
    }

    fn load(&mut self, alloc: Global, digest: &Digest) -> Result<Option<Op>, HolderFault> {
        self.see_lawful();
        Ok(op_of_whole(alloc, self, digest)?)
    }

    fn take(&mut self, op: Digested) -> Result<Taken, HolderFault>
        ensures takes { TakesIn (λ s. recorded s) (λ _. ⊤) self.old op result self.new }
        ensures added { OnOk result (self.new ≡ with_op self.old op) }
        ensures refused { (result ≡ Err HolderFault.Refused) ↔ IsClash self.old op }
        ensures kept { OnErr result (self.new ≡ self.old) }
        ensures why { IfErr result (RefusesTake self.old op) }
    {
        match self.take_digested(op) {
            Ok(taken) => Ok(taken),
            Err(SiteFault::Collision) => Err(HolderFault::Refused),
            Err(SiteFault::Memory) => Err(HolderFault::Memory),
        }
    }
}
