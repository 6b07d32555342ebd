//! Which operations were asked for, and which of them were given.

ghost use Rattle.std.specs.Prelude.{◌≡◌, ◌≢◌, ◌↔◌, ◌++◌, [], List, ℕ, Some, cond, replicate, false, true, IfOk, IsTrue};
ghost use Rattle.std.specs.BTreeMap.{is_at};
ghost use Rattle.std.specs.Map.{set_value};
ghost use Rattle.octets.specs.Texts.{text_cmp};
ghost use Rattle.site_state.specs.Site.{digest_cmp};
ghost use Rattle.exchange_frames.specs.Spelling.{ascends};
ghost use Rattle.exchange.specs.Asked.{place_in};
ghost use Rattle.exchange.specs.Round.{asked_in, is_among};

use exchange_frames::{DIGEST_LENGTH, Digests, DigestsMut};
use operation::Digest;
use std::alloc::{AllocError, Global};
use std::cmp::Ordering;
use std::marker::Model;

/// The digests of operations that were asked for, each with whether its operation was given. What
/// was asked for last stands first. Contracts see the list of these pairs.
pub(crate) struct Asked {
    digests: Digests,
    flags: Vec<bool>,
    /// Whether the digests ascend, so that one is found by halves.
    ascend: bool,
}

// It is written out, so that a caller does not prove again how each part is dropped.
impl Drop for Asked {
    fn drop(self) {
        let Asked {
            digests: _,
            flags: _,
            ascend: _,
        } = self;
    }
}

impl Model for Asked {
    ghost use Rattle.std.specs.Prelude.{List, ℕ, Bool};
    ghost use Rattle.exchange.specs.Asked.{asked_of, AreAsked};

    ghost Value = { List (List ℕ × Bool) };

    ghost view = { λ a. asked_of a.digests a.flags.items };

    ghost invariant = { λ a. AreAsked a.digests a.flags.items a.ascend };
}

/// The first place of a digest among some.
fn first_place(arrays: &[[u8; DIGEST_LENGTH]], digest: &Digest) -> Option<usize>
    ensures { result ≡ place_in digest.now arrays.now }
{
    for at in 0..arrays.len() {
        if arrays[at].cmp(digest.as_bytes()) == Ordering::Equal {
            return Some(at);
        }
    }
    None
}

/// The same among some that ascend.
fn place_by_halves(arrays: &[[u8; DIGEST_LENGTH]], digest: &Digest) -> Option<usize>
    requires { ascends text_cmp arrays.now ≡ true }
    ensures { result ≡ place_in digest.now arrays.now }
{
    arrays.binary_search(digest.as_bytes()).ok()
}

fn place_of(arrays: &[[u8; DIGEST_LENGTH]], ascend: bool, digest: &Digest) -> Option<usize>
    requires { ascend ≡ true → ascends text_cmp arrays.now ≡ true }
    ensures { result ≡ place_in digest.now arrays.now }
{
    if ascend {
        return place_by_halves(arrays, digest);
    }
    first_place(arrays, digest)
}

/// Some digests, and others behind them.
fn joined(alloc: Global, front: &Digests, back: &Digests) -> Result<Digests, AllocError>
    ensures { IfOk result (λ digests. digests ≡ front.now ++ back.now) }
{
    if back.is_empty() {
        return front.share();
    }
    let mut digests = DigestsMut::with_capacity(alloc, front.len().saturating_add(back.len()))?;
    digests.append(front)?;
    digests.append(back)?;
    digests.freeze()
}

/// So many that were not given, and others behind them.
fn not_given(alloc: Global, count: usize, flags: &[bool]) -> Result<Vec<bool>, AllocError>
    ensures { IfOk result (λ all. all.items ≡ replicate count false ++ flags.now) }
{
    let mut all = Vec::new(alloc);
    all.resize(count, false)?;
    all.extend_from_slice(flags)?;
    Ok(all)
}

impl Asked {
    /// Nothing was asked for. It takes no memory.
    pub(crate) fn new(alloc: Global) -> Asked
        ensures { result ≡ [] }
    {
        Asked {
            digests: Digests::new(),
            flags: Vec::new(alloc),
            ascend: true,
        }
    }

    /// Whether the operation of a digest was given, if it was asked for.
    pub(crate) fn given(&self, digest: &Digest) -> Option<bool>
        ensures { result ≡ asked_in digest.now self.now }
    {
        match place_of(self.digests.as_arrays(), self.ascend, digest) {
            Some(at) => Some(self.flags[at]),
            None => None,
        }
    }

    /// The operation of a digest was given, if it was asked for.
    pub(crate) fn mark(&mut self, digest: &Digest)
        ensures { self.new ≡ set_value (is_at (digest_cmp digest.now)) self.old true }
    {
        match place_of(self.digests.as_arrays(), self.ascend, digest) {
            Some(at) => self.flags[at] = true,
            None => {}
        }
    }

    /// These with more digests, whose operations were not given yet. The buffer of those is shared
    /// where there are no others.
    pub(crate) fn with(&self, alloc: Global, want: &Digests) -> Result<Asked, AllocError>
        ensures { IfOk result (λ asked. (digest : List ℕ) → asked_in digest asked
            ≡ cond (is_among digest want.now) (Some false) (asked_in digest self.now)) }
    {
        let flags = not_given(alloc, want.len(), self.flags.as_slice())?;
        let digests = joined(alloc, want, &self.digests)?;
        let ascend = digests.ascend();
        Ok(Asked {
            digests,
            flags,
            ascend,
        })
    }

    /// Whether the operation of a digest was asked for and not given.
    fn lacks(&self, digest: &Digest) -> bool
        ensures { IsTrue result ↔ (asked_in digest.now self.now ≡ Some false) }
    {
        matches!(self.given(digest), Some(false))
    }

    /// Whether every operation that was asked for was given.
    pub(crate) fn all_given(&self) -> bool
        ensures { IsTrue result ↔ ((digest : List ℕ) → asked_in digest self.now ≢ Some false) }
    {
        let arrays = self.digests.as_arrays();
        for at in 0..arrays.len() {
            if self.flags[at] {
                continue;
            }
            if self.lacks(&Digest::of(arrays[at])) {
                return false;
            }
        }
        true
    }
}
