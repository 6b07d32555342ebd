//! The one history, in a book of `logbook`.
ghost use Rattle.std.specs.Prelude.{◌≡◌, ◌<◌, ◌^◌, ◌++◌, ◌∷◌, ◌⊎◌, [], length, IfSome, IsTrue, false};
ghost use mathlib.Core.List.{IsPrefix};
ghost use Rattle.operation.specs.Spelling.{digest_of};
ghost use Rattle.study_index.specs.Definition.{AreLawful};
ghost use Rattle.site_state.specs.Site.{IsSite, HasNoOther, ops_of};
ghost use Rattle.site_hub.specs.History.{set_of, IsHistory};
ghost use Rattle.site_hub.specs.Rules.{head_of};

use crate::entry::Entry;
use logbook::{Gain, Offer, Plain, Play, Rule, Seen, Start, Word};
use std::marker::{Brand, Model, PhantomData};

/// The rule of the book: its first word is the length of the history.
pub struct Law;

impl Rule<Entry, u64> for Law {
    ghost use Rattle.std.specs.Prelude.{[]};
    ghost use base.Fml.{ftrue};
    ghost use Rattle.site_hub.specs.Rules.{IsKept};

    ghost holds = { λ cells log. IsKept cells log };

    ghost first = { [] };

    ghost hinted = { λ n log. Unit {0} };

    ghost shows = { λ log. [] };

    ghost keeps = { λ names log. ftrue };

    ghost moves = { λ ask before after answer. Unit {0} };
}

/// Callers trade nothing.
pub struct Nothing;

impl Gain<Entry, u64> for Nothing {
    ghost use base.Fml.{ftrue};

    ghost after = { λ names about answer. ftrue };
}

/// A step that adds an entry.
pub struct Add;

impl Play<Entry, u64> for Add {
    ghost use Rattle.site_hub.specs.Rules.{Adds};

    ghost then = { Adds };
}

/// What the step asks for: the entry.
impl Plain<Entry, Entry, u64> for Add {
    ghost use Rattle.std.specs.Prelude.{None};

    ghost ask = { λ e. e };

    ghost state = { λ e. None };
}

/// Which hub it is: its book, the number of its site, what the site held at its opening, and how
/// many passes it has. Each call of a program that names a hub picks these.
pub trait HubName {
    ghost use Rattle.std.specs.Prelude.{ℕ};
    ghost use Rattle.logbook.specs.Pages.{Book};
    ghost use Rattle.site_state.specs.Site.{Map};

    ghost book: { Book };

    ghost number: { ℕ };

    ghost opening: { Map };

    ghost passes: { ℕ };
}

impl HubName for Brand {
    ghost use Rattle.std.specs.FinMap as finmap;

    ghost book = { record { number = 0; log_name = 0; cells_name = 0 } };

    ghost number = { 0 };

    ghost opening = { finmap.empty };

    ghost passes = { 0 };
}

/// A book with an empty history, which has no name yet.
#[derive(Drop)]
pub struct Blank {
    head: Word<Entry, u64, Law>,
    seen: Seen<Entry, u64, Law>,
    pub ghost empty: { seen.log ≡ [] },
    pub ghost head_is: { head ≡ head_of seen.book },
}

impl Blank {
    pub fn new() -> Blank {
        let (seen, mut first, _second) = Seen::open(Start::alone(), 0, 0);
        Blank {
            head: Word::tracked(0, &mut first),
            seen,
        }
    }

    /// The book's word under a name, and the beginning that has no entry.
    pub fn named<H: HubName>(self) -> (Book<H>, Front<H>)
        requires book { self.seen.book ≡ H.book }
        requires opened { IsSite H.opening }
        requires lawful { AreLawful (ops_of H.opening) }
        ensures { result.1 ≡ [] }
    {
        let Blank { head, seen } = self;
        (
            Book {
                head,
                of: PhantomData,
            },
            Front {
                entries: 0,
                seen,
                of: PhantomData,
            },
        )
    }
}

/// The word of a hub: the length of its history.
#[derive(Drop)]
pub struct Book<H: HubName> {
    head: Word<Entry, u64, Law>,
    of: PhantomData<H>,
    ghost head_is: { head ≡ head_of H.book },
}

/// A beginning of a hub's history that was reached. Contracts see it as its entries.
pub struct Front<H: HubName> {
    entries: u64,
    seen: Seen<Entry, u64, Law>,
    of: PhantomData<H>,
}

impl<H: HubName> Model for Front<H> {
    ghost use Rattle.std.specs.Prelude.{◌≡◌, List, length};
    ghost use Rattle.site_hub.specs.declared.entry.Entry.{Entry};
    ghost use Rattle.site_hub.specs.History.{IsHistory};

    ghost Value = { List Entry };

    ghost view = { λ f. f.seen.log };

    ghost invariant = { λ f. (f.entries ≡ length f.seen.log) × (f.seen.book ≡ H.book)
        × IsHistory H.opening f.seen.log };
}

// It is written out, so that a caller does not prove again how each part is dropped.
impl<H: HubName> Drop for Front<H> {
    fn drop(self) {
        let Front {
            entries: _,
            seen: _,
            of: _,
        } = self;
    }
}

impl<H: HubName> Front<H> {
    /// How many entries it has.
    pub fn len(&self) -> u64
        ensures length { result ≡ length self.now }
    {
        self.entries
    }

    /// The same beginning again.
    pub fn again(&self) -> Front<H>
        ensures { result ≡ self.now }
    {
        Front {
            entries: self.entries,
            seen: self.seen.again(),
            of: PhantomData,
        }
    }

    /// The longer of two beginnings, which the other begins.
    pub fn longer(&self, other: &Front<H>) -> Front<H>
        ensures one { (result ≡ self.now) ⊎ (result ≡ other.now) }
        ensures this { IsPrefix self.now result }
        ensures that { IsPrefix other.now result }
    {
        let mut both = self.seen.again();
        both.learn(&other.seen);
        if self.entries < other.entries {
            other.again()
        } else {
            self.again()
        }
    }

    /// What every history keeps. Nothing is done: these are facts for callers.
    pub fn see_history(&self)
        ensures { IsHistory H.opening self.now }
    {
        let _ = &self.entries;
    }

    /// With one entry more, which clashes with nothing that is held. There is none where the
    /// history is longer.
    pub fn add(self, book: &Book<H>, entry: &Entry) -> Option<Front<H>>
        requires room { length self < 2 ^ 62 }
        requires clashless { HasNoOther (set_of H.opening self) (digest_of entry.now.op)
            entry.now.op }
        ensures { IfSome result (λ longer. longer ≡ self ++ entry.now ∷ []) }
    {
        entry.op.see_recorded();
        let Front {
            entries,
            mut seen,
            of,
        } = self;
        let mut offer: Offer<Entry, u64, Law, Nothing> = seen.plain::<Nothing, Entry, Add>(entry);
        let mut pen = seen.no_pen();
        let found = book
            .head
            .compare_exchange::<Add, Nothing>(
                entries,
                entries + 1,
                &mut seen,
                &mut offer,
                &mut pen,
            );
        if found != entries {
            return None;
        }
        Some(Front {
            entries: entries + 1,
            seen,
            of,
        })
    }

    /// Whether the other beginning goes on from this one.
    pub fn begins(&self, other: &Front<H>) -> bool
        ensures goes_on { IsTrue result → IsPrefix self.now other.now }
        ensures shorter { result ≡ false → length other.now < length self.now }
    {
        let mut both = self.seen.again();
        both.learn(&other.seen);
        self.entries <= other.entries
    }
}
