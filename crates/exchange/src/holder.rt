//! What an exchange asks of a site.

ghost use Rattle.std.specs.Prelude.{◌≡◌, List, ℕ, IfErr, MatchResult};
ghost use Rattle.operation.specs.declared.op.Op.{Op};
ghost use Rattle.site_state.specs.Site.{Map};
ghost use Rattle.exchange.specs.declared.fault.HolderFault.{HolderFault};
ghost use Rattle.exchange.specs.Held.{offered, offered_in, lacked, held_of};
ghost use Rattle.exchange.specs.Held.{IsLoaded, Looks, TakesIn};
ghost use Rattle.exchange.specs.Buckets.{bucket_list};

use crate::fault::HolderFault;
use crate::version::Version;
use exchange_frames::Digests;
use octets::ListOf;
use operation::{Digest, Digested, Op, Taken};
use std::alloc::Global;

/// A set of operations that only grows. Others may add to it between two calls, and during one:
/// each call answers of one set that was held during it, or refuses as the holder says it may.
///
/// A holder may have of an operation only what is kept of it, and load its bytes when they are
/// asked for. So contracts see under its digest the operation that stands for it.
pub trait Holder {
    // What stands for the operations that it holds.
    ghost holds: { Self → Map };

    // Nobody else changes it.
    ghost alone: { Self → Type 0 };

    // Why it may refuse to tell what it holds, by what it was before the call and what it is then.
    ghost refuses_look: { Self → Self → HolderFault → Type 0 };

    // Why it may refuse to take an operation.
    ghost refuses_take: { Self → Self → Op → HolderFault → Type 0 };

    // Why it may refuse to load the operation under a digest: `Unreadable` is a cause of this one
    // operation, and an exchange goes on behind it.
    ghost refuses_load: { Self → Self → List ℕ → HolderFault → Type 0 };

    /// The digests of all operations that a version speaks of, ascending.
    fn digests(&mut self, alloc: Global, version: Version) -> Result<Digests, HolderFault>
        ensures { Looks holds alone self.old self.new (λ m. MatchResult result
            (λ digests. digests ≡ offered version m)
            (refuses_look self.old self.new)) };

    /// Those of them that begin with one of these bytes, ascending.
    fn digests_in(
        &mut self,
        alloc: Global,
        version: Version,
        places: &[u8],
    ) -> Result<Digests, HolderFault>
        ensures { Looks holds alone self.old self.new (λ m. MatchResult result
            (λ digests. digests ≡ offered_in version places.now m)
            (refuses_look self.old self.new)) };

    /// For each first byte, the SHA-256 of the digests that begin with it and of whose operations a
    /// version speaks.
    fn buckets(&mut self, alloc: Global, version: Version) -> Result<ListOf<Digest>, HolderFault>
        ensures { Looks holds alone self.old self.new (λ m. MatchResult result
            (λ buckets. buckets ≡ bucket_list (offered version m))
            (refuses_look self.old self.new)) };

    /// Those of some digests that are not held, in the order given.
    fn missing(&mut self, alloc: Global, digests: &Digests) -> Result<Digests, HolderFault>
        ensures { Looks holds alone self.old self.new (λ m. MatchResult result
            (λ missing. missing ≡ lacked m digests.now)
            (refuses_look self.old self.new)) };

    /// Those of some digests under which an operation is held that a version speaks of, in the
    /// order given. No operation is loaded.
    fn held(
        &mut self,
        alloc: Global,
        version: Version,
        digests: &Digests,
    ) -> Result<Digests, HolderFault>
        ensures { Looks holds alone self.old self.new (λ m. MatchResult result
            (λ held. held ≡ held_of version digests.now m)
            (refuses_look self.old self.new)) };

    /// The operation of a digest, if it is held: one for which stands what lies under the digest.
    /// What is in memory is shared. Where it is held and can't be read, others may be: then this is
    /// told as `Unreadable`, which no other call answers.
    fn load(&mut self, alloc: Global, digest: &Digest) -> Result<Option<Op>, HolderFault>
        ensures { Looks holds alone self.old self.new (λ m. MatchResult result
            (IsLoaded m digest.now)
            (refuses_load self.old self.new digest.now)) };

    /// Takes an operation, once.
    fn take(&mut self, op: Digested) -> Result<Taken, HolderFault>
        ensures takes { TakesIn holds alone self.old op result self.new }
        ensures why { IfErr result (refuses_take self.old self.new op) };
}
