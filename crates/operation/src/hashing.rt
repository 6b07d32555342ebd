//! The digest of an operation, fed in pieces.

ghost use Rattle.std.specs.Prelude.{◌≡◌, ◌++◌, ◌∷◌, [], List, ℕ, length, ◌≤◌};
ghost use Rattle.sha2.specs.Sha256.{sha256};
ghost use Rattle.sha2.specs.Hashers.{Holds256};
ghost use Rattle.operation.specs.Parts.{key_of};
ghost use Rattle.operation.specs.Spelling.{digest_of, hash_of, content_text, correction_text, short_text, target_text};

use crate::content::Content;
use crate::correction::Correction;
use crate::digests::Digest;
use crate::op::Op;
use crate::target::Target;
use data_set::Syntax;
use sha2::Sha256;

fn feed(hasher: &mut Sha256, bytes: &[u8])
    ensures { (m : List ℕ) → Holds256 hasher.old m → Holds256 hasher.new (m ++ bytes.now) }
{
    sha2::Digest::update(hasher, bytes);
}

fn feed_byte(hasher: &mut Sha256, byte: u8)
    ensures { (m : List ℕ) → Holds256 hasher.old m → Holds256 hasher.new (m ++ byte ∷ []) }
{
    feed(hasher, &[byte]);
}

fn feed_short(hasher: &mut Sha256, bytes: &[u8])
    requires { length bytes.now ≤ 64 }
    ensures { (m : List ℕ) → Holds256 hasher.old m
        → Holds256 hasher.new (m ++ short_text bytes.now) }
{
    feed_byte(hasher, bytes.len() as u8);
    feed(hasher, bytes);
}

fn content_digest(content: &Content) -> Digest
    ensures { result ≡ sha256 (content_text content.now) }
{
    let mut hasher = <Sha256 as sha2::Digest>::new();
    let body = content.body().as_slice();
    let syntax = match content.syntax() {
        Syntax::Implicit => 1,
        Syntax::Explicit => 2,
    };
    feed_byte(&mut hasher, 1);
    feed_short(&mut hasher, content.class());
    feed_short(&mut hasher, content.instance());
    feed_byte(&mut hasher, syntax);
    feed(&mut hasher, &(body.len() as u32).to_be_bytes());
    feed(&mut hasher, body);
    Digest::of(sha2::Digest::finalize(hasher))
}

/// The kind of a correction, and its target.
fn feed_target(hasher: &mut Sha256, target: &Target)
    requires { length (key_of target.now) ≤ 64 }
    ensures { (m : List ℕ) → Holds256 hasher.old m
        → Holds256 hasher.new (m ++ target_text target.now) }
{
    match target {
        Target::Study(key) => {
            feed(hasher, &[2, 1]);
            feed_short(hasher, key.as_slice());
        }
        Target::Patient(key) => {
            feed(hasher, &[2, 2]);
            feed_short(hasher, key.as_slice());
        }
        Target::Series(key) => {
            feed_byte(hasher, 3);
            feed_short(hasher, key.as_slice());
        }
    }
}

fn correction_digest(correction: &Correction) -> Digest
    ensures { result ≡ sha256 (correction_text correction.now) }
{
    let mut hasher = <Sha256 as sha2::Digest>::new();
    let value = correction.value();
    let stamp = correction.stamp();
    feed_target(&mut hasher, correction.target());
    feed(&mut hasher, &correction.tag().to_be_bytes());
    feed(&mut hasher, &(value.len() as u16).to_be_bytes());
    feed(&mut hasher, value);
    feed(&mut hasher, &stamp.counter.to_be_bytes());
    feed(&mut hasher, &stamp.site.to_be_bytes());
    Digest::of(sha2::Digest::finalize(hasher))
}

/// SHA-256 of the operation's spelling (FIPS 180-4), which is not built for it.
#[tactic(auto, unfolding(crate::specs::Spelling::hash_of, crate::specs::Spelling::spelling))]
fn hash(op: &Op) -> Digest
    ensures { result ≡ hash_of op.now }
{
    match op {
        Op::Content(content) => content_digest(content),
        Op::Correction(correction) => correction_digest(correction),
    }
}

/// The digest of an operation, which is the SHA-256 of its spelling (FIPS 180-4). That is not built
/// for it.
pub fn digest(op: &Op) -> Digest
    ensures own { result ≡ digest_of op.now }
    ensures hash { result ≡ hash_of op.now }
{
    op.see_lawful();
    hash(op)
}
