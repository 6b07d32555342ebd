//! One number for all that a site holds.

ghost use Rattle.std.specs.Prelude.{◌≡◌, ◌++◌, List, ℕ};
ghost use Rattle.std.specs.Map.{keys_of};
ghost use Rattle.sha2.specs.Hashers.{Holds256};
ghost use Rattle.sha2.specs.Sha256.{sha256};
ghost use Rattle.shelved_site.specs.Fingerprints.{digests_text, fingerprint_of, EqualSetsAreAlike};

use operation::Digest;
use records::RecordedOp;
use sha2::Sha256;
use site_state::Site;
use std::collections::BTreeMap;

/// Hashes a digest.
fn feed(hasher: &mut Sha256, digest: &Digest)
    ensures { (text : List ℕ) → Holds256 hasher.old text → Holds256 hasher.new (text ++ digest.now) }
{
    sha2::Digest::update(hasher, digest.as_bytes().as_slice());
}

/// The hash of the digests of a tree, as they stand in it.
fn hash_of_tree(tree: &BTreeMap<Digest, RecordedOp>) -> Digest
    ensures { result ≡ sha256 (digests_text (keys_of tree.now.entries)) }
{
    let mut hasher = <Sha256 as sha2::Digest>::new();
    for (digest, _op) in tree.iter() {
        feed(&mut hasher, digest);
    }
    Digest::of(sha2::Digest::finalize(hasher))
}

/// The SHA-256 (FIPS 180-4) of the digests of a site's operations, ascending, one behind the other.
/// They are hashed as they stand in the site.
#[tactic(auto, unfolding(crate::specs::Fingerprints::fingerprint_of))]
pub fn fingerprint(site: &Site) -> Digest
    ensures { result ≡ fingerprint_of site.now }
{
    hash_of_tree(site.tree())
}

/// Sites at which the same operations were taken, in whatever order and however often, have equal
/// fingerprints: a law, said as the contract of a function with nothing to do.
pub fn equal_sets_have_equal_fingerprints()
    ensures { EqualSetsAreAlike }
{}
