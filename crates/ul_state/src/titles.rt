//! The titles by which this archive is called.

ghost use Rattle.std.specs.Prelude.{◌≡◌};
ghost use Rattle.std.specs.List.{list_any};
ghost use Rattle.std.specs.Option.{option_copied};
ghost use Rattle.ul_state.specs.Titles.{is_space, without_front, without_end, without_spaces, title_of, may_call};
ghost use Rattle.ul_state.specs.Titles.{is_text};

use octets::{ListOf, Octets};

/// A called title, without outer spaces, and what it stands for.
#[derive(Debug, Drop)]
pub struct Title<V> {
    pub title: Octets,
    pub value: V,
    /// The calling titles, without outer spaces, that may call it; where none is named, any may.
    pub callers: ListOf<Octets>,
}

/// The titles that are known. Of equal ones the first counts.
#[derive(Debug, Drop)]
pub struct Titles<V> {
    pub list: ListOf<Title<V>>,
}

impl<V: Copy> Titles<V> {
    /// A called title, where it is known.
    pub(crate) fn find(&self, called: &[u8]) -> Option<&Title<V>>
        ensures { option_copied result ≡ title_of self.now.list called.now }
    {
        let mut rest = self.list.as_slice();
        while let [first, others @ ..] = rest {
            if first.title.as_slice() == called {
                return Some(first);
            }
            rest = others;
        }
        None
    }
}

impl<V> Title<V> {
    /// Whether a calling title may call it.
    #[tactic(auto, unfolding(crate::specs::Titles::may_call))]
    pub(crate) fn takes(&self, calling: &[u8]) -> bool
        ensures { result ≡ may_call self.now.callers calling.now }
    {
        match self.callers.as_slice() {
            [] => true,
            [caller, callers @ ..] => caller.as_slice() == calling || is_among(callers, calling),
        }
    }
}

fn is_among(callers: &[Octets], calling: &[u8]) -> bool
    ensures { result ≡ list_any (λ named. is_text named calling.now) callers.now }
{
    callers.iter().any(|named| named.as_slice() == calling)
}

fn is_space_byte(byte: u8) -> bool
    ensures { result ≡ is_space byte }
{
    byte == b' '
}

fn after_spaces(text: &[u8]) -> &[u8]
    ensures { result.now ≡ without_front text.now }
{
    let mut rest = text;
    while let [first, others @ ..] = rest {
        if !is_space_byte(*first) {
            return rest;
        }
        rest = others;
    }
    rest
}

fn before_spaces(text: &[u8]) -> &[u8]
    ensures { result.now ≡ without_end text.now }
{
    let mut rest = text;
    while let [front @ .., last] = rest {
        if !is_space_byte(*last) {
            return rest;
        }
        rest = front;
    }
    rest
}

/// A title without the spaces around it (PS3.8, section 9.3.2; PS3.5, section 6.2, AE).
pub(crate) fn trimmed(text: &[u8]) -> &[u8]
    ensures { result.now ≡ without_spaces text.now }
{
    before_spaces(after_spaces(text))
}
