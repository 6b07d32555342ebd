//! What an exchange asks of a site, in one look each.

ghost use Rattle.std.specs.Prelude.{◌≡◌};
ghost use Rattle.site_state.specs.Site.{held_at};
ghost use Rattle.exchange.specs.Held.{offered, offered_in, lacked, held_of};

use exchange::{
    Digests, Version, digests_of_site, digests_of_site_in, held_of_site, missing_of_site,
};
use operation::Digest;
use records::RecordedOp;
use site_hub::Question;
use site_state::Site;
use std::alloc::{AllocError, Global};

/// Asks for the digests of all operations that a version speaks of.
#[derive(Clone, Copy)]
pub(crate) struct All {
    pub version: Version,
}

impl Question<Digests> for All {
    ghost answers = { λ q m digests. digests ≡ offered q.version m };

    fn answer(&self, alloc: Global, site: &Site) -> Result<Digests, AllocError> {
        digests_of_site(alloc, self.version, site)
    }
}

/// Asks for those of them that begin with one of these bytes.
#[derive(Clone, Copy)]
pub(crate) struct In<'a> {
    pub version: Version,
    pub places: &'a [u8],
}

impl<'a> Question<Digests> for In<'a> {
    ghost answers = { λ q m digests. digests ≡ offered_in q.version q.places.now m };

    fn answer(&self, alloc: Global, site: &Site) -> Result<Digests, AllocError> {
        digests_of_site_in(alloc, self.version, self.places, site)
    }
}

/// Asks which of some digests are not held.
#[derive(Clone, Copy)]
pub(crate) struct Missing<'a> {
    pub digests: &'a Digests,
}

impl<'a> Question<Digests> for Missing<'a> {
    ghost answers = { λ q m missing. missing ≡ lacked m q.digests.now };

    fn answer(&self, alloc: Global, site: &Site) -> Result<Digests, AllocError> {
        missing_of_site(alloc, site, self.digests)
    }
}

/// Asks which of some digests are held, of whose operations a version speaks.
#[derive(Clone, Copy)]
pub(crate) struct Held<'a> {
    pub version: Version,
    pub digests: &'a Digests,
}

impl<'a> Question<Digests> for Held<'a> {
    ghost answers = { λ q m held. held ≡ held_of q.version q.digests.now m };

    fn answer(&self, alloc: Global, site: &Site) -> Result<Digests, AllocError> {
        held_of_site(alloc, self.version, site, self.digests)
    }
}

/// Asks for the record of the operation under a digest.
#[derive(Clone, Copy)]
pub(crate) struct Recorded<'a> {
    pub digest: &'a Digest,
}

impl<'a> Question<Option<RecordedOp>> for Recorded<'a> {
    ghost answers = { λ q m op. op ≡ held_at m q.digest.now };

    fn answer(&self, alloc: Global, site: &Site) -> Result<Option<RecordedOp>, AllocError> {
        match site.op(self.digest) {
            None => Ok(None),
            Some(op) => Ok(Some(op.copy(alloc)?)),
        }
    }
}
