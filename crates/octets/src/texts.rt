//! Texts in the order of their bytes.

ghost use Rattle.std.specs.Prelude.{◌≡◌, ◌↔◌, List, ℕ};
ghost use Rattle.std.specs.List.Sorted.{IsStrictlySortedBy};
ghost use Rattle.octets.specs.Members.{Has};
ghost use Rattle.octets.specs.Texts.{text_cmp, ascending as ascending_of};

use crate::octets_type::Octets;

/// These texts ascending, each once.
pub fn ascending(mut texts: Vec<Octets>) -> Vec<Octets>
    ensures { result.items ≡ ascending_of texts.items }
{
    texts.sort_unstable();
    texts.dedup();
    texts
}

/// Texts are put in the order of their bytes, and each stays once.
pub fn ascending_texts_are_the_same_in_order()
    ensures sorted { (texts : List (List ℕ)) → IsStrictlySortedBy text_cmp (ascending_of texts) }
    ensures all { (texts : List (List ℕ)) (text : List ℕ)
        → Has (ascending_of texts) text ↔ Has texts text }
{}
