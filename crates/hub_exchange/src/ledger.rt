//! The ledger, which one writes: each line is written by a pen, which it uses up, and names the pen
//! of the next one.

ghost use Rattle.std.specs.Prelude.{◌≡◌, ◌++◌, ◌∷◌, []};
ghost use mathlib.Core.List.{IsPrefix};
ghost use Rattle.logbook.specs.Pages.{may_write};
ghost use Rattle.hub_exchange.specs.Rules.{head_of};

use crate::book::{Extract, Law, LedgerName, Line, Look, Make, Next, Nothing, Write};
use logbook::{Offer, Pen, Seen, Start, Word};
use std::marker::{Model, PhantomData};

/// An empty ledger, which has no name yet.
#[derive(Drop)]
pub struct Blank {
    head: Word<Line, u64, Law>,
    seen: Seen<Line, u64, Law>,
    pen: Pen,
}

impl Model for Blank {
    ghost use Rattle.std.specs.Prelude.{◌≡◌, []};
    ghost use Rattle.logbook.specs.Pages.{may_write};
    ghost use Rattle.hub_exchange.specs.Lines.{Unnamed, unnamed_code};
    ghost use Rattle.hub_exchange.specs.Rules.{head_of};

    ghost Value = { Unnamed };

    ghost coded = { unnamed_code };

    ghost view = { λ b. record { book = b.seen.book; first = b.pen.nib.key } };

    ghost invariant = { λ b. (b.head ≡ head_of b.seen.book) × (b.pen.book ≡ b.seen.book)
        × (b.pen.nib.right ≡ may_write) × (b.seen.log ≡ []) };
}

/// A ledger. Its next line is written by the pen that it has, so by nobody else. Contracts see its
/// digests.
pub struct Ledger<N: LedgerName> {
    head: Word<Line, u64, Law>,
    seen: Seen<Line, u64, Law>,
    pen: Pen,
    of: PhantomData<N>,
}

impl<N: LedgerName> Model for Ledger<N> {
    ghost use Rattle.std.specs.Prelude.{◌≡◌, ℕ, List};
    ghost use Rattle.logbook.specs.Pages.{may_write};
    ghost use Rattle.hub_exchange.specs.Lines.{digests_of, pen_of};
    ghost use Rattle.hub_exchange.specs.Rules.{head_of};

    ghost Value = { List (List ℕ) };

    ghost view = { λ l. digests_of N.first l.seen.log };

    ghost invariant = { λ l. (l.head ≡ head_of N.book) × (l.seen.book ≡ N.book)
        × (l.pen.book ≡ N.book) × (l.pen.nib.right ≡ may_write)
        × (l.pen.nib.key ≡ pen_of N.first l.seen.log) };
}

impl<N: LedgerName> Drop for Ledger<N> {
    fn drop(self) {
        let Ledger {
            head: _,
            seen: _,
            pen: _,
            of: _,
        } = self;
    }
}

/// A new pen, which has written nothing.
fn pen_for(head: &Word<Line, u64, Law>, seen: &Seen<Line, u64, Law>) -> Pen
    requires head { head.now ≡ head_of seen.now.book }
    ensures book { result.book ≡ seen.now.book }
    ensures right { result.nib.right ≡ may_write }
{
    let mut then = seen.again();
    let mut pen = seen.no_pen();
    let next = Next {
        pen: seen.no_pen(),
        digest: [0; 32],
    };
    let mut offer: Offer<Line, u64, Law, Nothing> = seen.plain::<Nothing, Next, Write>(&next);
    head.compare_exchange::<Make, Nothing>(0, 0, &mut then, &mut offer, &mut pen);
    let _ = Word::<Line, u64, Law>::tracked(0, &mut pen);
    pen
}

impl Blank {
    pub fn new() -> Blank {
        let (seen, mut first, _second) = Seen::open(Start::alone(), 0, 0);
        let head = Word::tracked(0, &mut first);
        let pen = pen_for(&head, &seen);
        Blank { head, seen, pen }
    }

    /// The ledger under a name.
    pub fn named<N: LedgerName>(self) -> Ledger<N>
        requires book { self.book ≡ N.book }
        requires first { self.first ≡ N.first }
        ensures { result ≡ [] }
    {
        let Blank { head, seen, pen } = self;
        Ledger {
            head,
            seen,
            pen,
            of: PhantomData,
        }
    }
}

impl<N: LedgerName> Ledger<N> {
    /// All of it.
    pub fn extract(&self) -> Extract<N>
        ensures { result ≡ self.now }
    {
        Extract {
            seen: self.seen.again(),
            of: PhantomData,
        }
    }

    /// Writes a digest behind the others.
    pub fn write(&mut self, digest: &[u8; 32])
        ensures { self.new ≡ self.old ++ digest.now ∷ [] }
    {
        let next = Next {
            pen: pen_for(&self.head, &self.seen),
            digest: *digest,
        };
        let mut offer: Offer<Line, u64, Law, Nothing> = self
            .seen
            .plain::<Nothing, Next, Write>(&next);
        self.head
            .compare_exchange::<Write, Nothing>(0, 0, &mut self.seen, &mut offer, &mut self.pen);
        self.pen = next.pen;
    }

    /// What anybody knows of it is a beginning of it. Nothing is done: these are facts for callers.
    pub fn compare(&mut self, extract: &Extract<N>)
        ensures same { self.new ≡ self.old }
        ensures begins { IsPrefix extract.now self.new }
    {
        let mut seen = self.seen.again();
        seen.learn(&extract.seen);
        let next = Next {
            pen: seen.no_pen(),
            digest: [0; 32],
        };
        let mut offer: Offer<Line, u64, Law, Nothing> = seen.plain::<Nothing, Next, Write>(&next);
        self.head
            .compare_exchange::<Look, Nothing>(0, 0, &mut seen, &mut offer, &mut self.pen);
    }
}
