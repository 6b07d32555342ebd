//! What an association asks of a site.

ghost use Rattle.std.specs.Prelude.{List, ℕ};
ghost use Rattle.operation.specs.declared.op.Op.{Op};
ghost use Rattle.operation.specs.declared.op.Op.TheVariants.{Content as a_content};
ghost use Rattle.records.specs.StandIn.{op_in};
ghost use Rattle.association_run.specs.Port.{Stores, Finds, Gets, Loads};

use archive_model::{Answers, Listed, Query, Selection, View};
use association_session::PortFault;
use octets::ListOf;
use operation::{Content, ContentRecord, Taken};

/// A site, as one association sees it. Others may store between two steps, and nothing that is held
/// is lost.
pub trait Port {
    // The operations that it holds, ascending by digest: each stands for all of its record.
    ghost ops: { Self → List Op };

    // The digests of the contents that its own stores brought, in order.
    ghost own: { Self → List (List ℕ) };

    /// Takes a content, in one step, into what is held when its turn comes: others may have stored
    /// before it. It is new where none of its digest is held then, and known where it is.
    fn store(&mut self, content: Content) -> Result<Taken, PortFault>
        ensures { Stores ops own self.old (op_in (a_content content)) result self.new };

    /// The rows that answer a query, in one look: over all that is held when it ends.
    fn find(&mut self, called: &[u8], view: View, query: &Query) -> Result<Answers, PortFault>
        ensures { Finds ops own self.old
            (record { called = called.now; view = view; query = query.now }) result self.new };

    /// What is to be sent of a selection, by ascending SOP Instance UID, in one look: over all that
    /// is held when it ends. It holds no byte of a data set.
    fn get(&mut self, view: View, selection: &Selection) -> Result<ListOf<Listed>, PortFault>
        ensures { Gets ops own self.old (record { view = view; selection = selection.now }) result
            self.new };

    /// A content of a record, from wherever its bytes lie. `Shelf` is told where none could be
    /// brought.
    fn load(&mut self, asked: &ContentRecord) -> Result<Content, PortFault>
        ensures { Loads ops own self.old asked.now result self.new };
}
