//! The book in which a ledger stands, by whose pens it is written, and what is known of it.

ghost use Rattle.std.specs.Prelude.{◌≡◌};
ghost use mathlib.Core.List.{IsPrefix};

use logbook::{Gain, Pen, Plain, Play, Rule, Seen};
use std::marker::{Brand, Model, PhantomData};

/// A line of a ledger. It is in proofs alone: no value of it is made.
pub struct Line;

impl Model for Line {
    ghost use Rattle.hub_exchange.specs.Lines.{Written, written_code, blank_line};

    ghost Value = { Written };

    ghost coded = { written_code };

    ghost view = { λ _. blank_line };
}

/// The rule of the book: the word of each pen that has written is held by the book, so that none
/// writes twice.
pub struct Law;

impl Rule<Line, u64> for Law {
    ghost use Rattle.std.specs.Prelude.{[]};
    ghost use base.Fml.{ftrue};
    ghost use Rattle.hub_exchange.specs.Rules.{IsKept};

    ghost holds = { λ cells log. IsKept cells log };

    ghost first = { [] };

    ghost hinted = { λ n log. Unit {0} };

    ghost shows = { λ log. [] };

    ghost keeps = { λ names log. ftrue };

    ghost moves = { λ ask before after answer. Unit {0} };
}

/// Who writes trades nothing.
pub struct Nothing;

impl Gain<Line, u64> for Nothing {
    ghost use base.Fml.{ftrue};

    ghost after = { λ names about answer. ftrue };
}

/// A step that makes a pen.
pub struct Make;

impl Play<Line, u64> for Make {
    ghost use Rattle.hub_exchange.specs.Rules.{Makes};

    ghost then = { Makes };
}

/// A step that looks with a pen.
pub struct Look;

impl Play<Line, u64> for Look {
    ghost use Rattle.hub_exchange.specs.Rules.{Looks};

    ghost then = { Looks };
}

/// A step that writes a line.
pub struct Write;

impl Play<Line, u64> for Write {
    ghost use Rattle.hub_exchange.specs.Rules.{Writes};

    ghost then = { Writes };
}

/// What comes next: a digest, and the pen that writes the line behind it.
#[derive(Drop)]
pub struct Next {
    pub pen: Pen,
    pub digest: [u8; 32],
}

/// What is asked for: a line with this digest, behind which this pen writes.
impl Plain<Next, Line, u64> for Write {
    ghost use Rattle.std.specs.Prelude.{None};

    ghost ask = { λ next. record { pen = 0; next = next.pen.nib.key; digest = next.digest } };

    ghost state = { λ next. None };
}

/// Which ledger it is: its book, and the pen that writes its first line. Each call of a program
/// that names one picks these.
pub trait LedgerName {
    ghost use Rattle.std.specs.Prelude.{ℕ};
    ghost use Rattle.logbook.specs.Pages.{Book};

    ghost book: { Book };

    ghost first: { ℕ };
}

impl LedgerName for Brand {
    ghost book = { record { number = 0; log_name = 0; cells_name = 0 } };

    ghost first = { 0 };
}

/// A beginning of a ledger that is known. Contracts see its digests.
pub struct Extract<N: LedgerName> {
    pub(crate) seen: Seen<Line, u64, Law>,
    pub(crate) of: PhantomData<N>,
}

impl<N: LedgerName> Model for Extract<N> {
    ghost use Rattle.std.specs.Prelude.{◌≡◌, ℕ, List};
    ghost use Rattle.hub_exchange.specs.Lines.{digests_of};

    ghost Value = { List (List ℕ) };

    ghost view = { λ e. digests_of N.first e.seen.log };

    ghost invariant = { λ e. e.seen.book ≡ N.book };
}

// It is written out, so that a caller does not prove again how each part is dropped.
impl<N: LedgerName> Drop for Extract<N> {
    fn drop(self) {
        let Extract { seen: _, of: _ } = self;
    }
}

impl<N: LedgerName> Extract<N> {
    /// The same beginning again.
    pub fn again(&self) -> Extract<N>
        ensures { result ≡ self.now }
    {
        Extract {
            seen: self.seen.again(),
            of: PhantomData,
        }
    }

    /// Learns what the other one knows.
    pub fn learn(&mut self, other: &Extract<N>)
        ensures this { IsPrefix self.old self.new }
        ensures that { IsPrefix other.now self.new }
    {
        self.seen.learn(&other.seen);
    }
}
