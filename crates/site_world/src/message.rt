//! What sites tell each other, and what each message leads to.

ghost use Rattle.std.specs.Prelude.{◌≡◌, IfOk};
ghost use Rattle.site_world.specs.Messages.{is_old as is_old_site, has_met as has_met_in, is_of as is_of_site};
ghost use Rattle.site_world.specs.Messages.{reaction as reaction_to, has_begun as has_begun_at};

use exchange::{
    Digests, Version, differ_of_whole, digests_of_whole_in, missing_of_whole, ops_of_whole,
};
use octets::{ListOf, Octets};
use operation::{Digest, Op};
use site_state::WholeSite;
use std::alloc::{AllocError, Global};

/// What a message says.
#[derive(Drop)]
pub enum Says {
    /// Digests that the sender holds.
    Have(Digests),
    /// Digests that the sender asks for.
    Want(Digests),
    /// An operation that was asked for.
    Give(Op),
    /// For each first byte, a digest of the digests held that begin with it.
    Buckets(ListOf<Digest>),
    /// First bytes at which the buckets of both sites differ.
    Differ(Octets),
}

/// A message from a site to another. It may be delivered any number of times.
#[derive(Drop)]
pub struct Message {
    pub from: usize,
    pub to: usize,
    pub says: Says,
}

/// What comes of a message at its site.
#[derive(Drop)]
pub enum Reaction {
    /// It asks its sender for these.
    Asks(Digests),
    /// It tells its sender in which places their buckets differ.
    Compares(Octets),
    /// It offers its sender these.
    Offers(Digests),
    /// It gives its sender these, a message each.
    Gives(ListOf<Op>),
    /// It takes an operation.
    Takes(Op),
}

/// Whether a site is among the old ones.
pub fn is_old(old: &[usize], number: usize) -> bool
    ensures { result ≡ is_old_site old.now number }
{
    for other in old {
        if *other == number {
            return true;
        }
    }
    false
}

fn is_of(message: &Message, number: usize) -> bool
    ensures { result ≡ is_of_site number message.now }
{
    message.from == number || message.to == number
}

/// Whether a message was sent from a site or to it.
fn has_met(sent: &[Message], number: usize) -> bool
    ensures { result ≡ has_met_in sent.now number }
{
    for message in sent {
        if is_of(message, number) {
            return true;
        }
    }
    false
}

/// Whether a site took something, or a message was sent from it or to it.
pub fn has_begun(sent: &[Message], number: usize, site: &WholeSite) -> bool
    ensures { result ≡ has_begun_at sent.now number site.now }
{
    site.counts().operations != 0 || has_met(sent, number)
}

/// What comes of a message, by what it says.
pub fn comes_of(
    alloc: Global,
    version: Version,
    site: &WholeSite,
    says: &Says,
) -> Result<Reaction, AllocError>
    ensures { IfOk result (λ reaction. reaction ≡ reaction_to version site.now says.now) }
{
    match says {
        Says::Have(have) => {
            let want = missing_of_whole(alloc, site, have)?;
            Ok(Reaction::Asks(want))
        }
        Says::Want(want) => {
            let ops = ops_of_whole(alloc, version, site, want)?;
            Ok(Reaction::Gives(ops))
        }
        Says::Give(op) => Ok(Reaction::Takes(op.copy(alloc)?)),
        Says::Buckets(buckets) => {
            let places = differ_of_whole(alloc, version, site, buckets.as_slice())?;
            Ok(Reaction::Compares(places))
        }
        Says::Differ(places) => {
            let have = digests_of_whole_in(alloc, version, places.as_slice(), site)?;
            Ok(Reaction::Offers(have))
        }
    }
}
