//! When a thread goes on: behind each call of a peer, or each accept, so long is waited at most.

ghost use Rattle.std.specs.Prelude.{[], ◌∷◌, List, Option};
ghost use Rattle.archive_server.specs.Calling.{Turn, Calls as ACall, Waits as AWait, Went};

use std::time::Duration;

/// What a thread that calls a peer, or answers who comes, is told, and where it waits.
pub(crate) trait Pauses {
    // What was done so far, in order, where it is kept.
    ghost turns: { Self → Option (List Turn) };

    /// Is told that the peer was called, whatever came of it.
    fn note(&mut self)
        ensures turned { Went (turns self.old) (turns self.new) (ACall ∷ []) };

    /// Waits at most so long, and no longer than somebody serves, and says whether somebody still
    /// does.
    fn is_served_after(&mut self, time: Duration) -> bool
        ensures turned { Went (turns self.old) (turns self.new) (AWait time result ∷ []) };
}
