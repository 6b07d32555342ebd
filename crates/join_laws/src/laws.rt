//! What the joins are, said of their values. These functions do nothing: their contracts are laws.
ghost use Rattle.std.specs.Prelude.{◌≡◌, ◌↔◌, ◌⊎◌, false, Contains, IfSome, Some};
ghost use Rattle.std.specs.Map.{lookup};
ghost use Rattle.std.specs.BTreeMap.{is_at};
ghost use Rattle.join_laws.specs.Laws.{IsNotBelow, joined_options};
ghost use Rattle.join_laws.specs.Least.{least_of};
ghost use Rattle.join_laws.specs.Greatest.{greatest_of};
ghost use Rattle.join_laws.specs.GrowSet.{union_of};
ghost use Rattle.join_laws.specs.MapOf.{map_joined};

use crate::element::{Copies, Exact};
use crate::grow_set::GrowSet;
use crate::join::Join;
use crate::map_of::MapOf;

/// The least of two values is one of them, and neither is below it.
pub fn least_is_below_neither<T: Exact>()
    ensures one_of_both { (a b : T) →
        (least_of T.cmp (Some a) (Some b) ≡ Some a) ⊎ (least_of T.cmp (Some a) (Some b) ≡ Some b) }
    ensures least { (a b : T) → IfSome (least_of T.cmp (Some a) (Some b)) (λ least.
        IsNotBelow T.cmp a least × IsNotBelow T.cmp b least) }
{}

/// The greatest of two values is one of them, and it is below neither.
pub fn greatest_is_above_both<T: Exact>()
    ensures one_of_both { (a b : T) →
        (greatest_of T.cmp (Some a) (Some b) ≡ Some a) ⊎
        (greatest_of T.cmp (Some a) (Some b) ≡ Some b) }
    ensures greatest { (a b : T) → IfSome (greatest_of T.cmp (Some a) (Some b)) (λ greatest.
        IsNotBelow T.cmp greatest a × IsNotBelow T.cmp greatest b) }
{}

/// A key is in the union of two sets exactly where one of them has it.
pub fn union_has_the_keys_of_both<K: Exact>(left: &GrowSet<K>, right: &GrowSet<K>)
    ensures { (key : K) → Contains (union_of K.cmp left.now right.now) key ↔
        (Contains left.now key ⊎ Contains right.now key) }
{}

/// At each key the join of two maps has what the two values there come to, or the one that is
/// there.
pub fn maps_are_joined_key_by_key<K: Exact, J: Join + Copies>(
    left: &MapOf<K, J>,
    right: &MapOf<K, J>,
)
    ensures { (key : K) →
        lookup (is_at (K.cmp key)) (map_joined K.cmp J.joined left.now right.now) ≡
        joined_options J.joined (lookup (is_at (K.cmp key)) left.now)
        (lookup (is_at (K.cmp key)) right.now) }
{
    left.held();
    right.held();
}
