//! The numbers that clauses cite by name, each said once as it is.

ghost use Rattle.std.specs.Prelude.{◌≡◌};
ghost use Rattle.exchange_tree.specs.declared.nodes.TheConstants.{CHILD_COUNT, DEEPEST, KEPT_DEPTH, PLACE_COUNT};

/// How many children a node has; how many digits there are in a digest, and in the node of a place;
/// and how many places there are.
pub fn limits_of_nodes_are_these()
    ensures children { CHILD_COUNT ≡ 16 }
    ensures deepest { DEEPEST ≡ 64 }
    ensures kept { KEPT_DEPTH ≡ 4 }
    ensures places { PLACE_COUNT ≡ 65536 }
{}
