//! What holds of every port.

ghost use Rattle.std.specs.Prelude.{◌≡◌, List, Ok};
ghost use Rattle.std.specs.List.{filter};
ghost use Rattle.pdu.specs.declared.context.Context.{Context};
ghost use Rattle.operation.specs.declared.op.Op.TheVariants.{Content as a_content};
ghost use Rattle.operation.specs.Parts.{ContentParts};
ghost use Rattle.operation.specs.RecordLaws.{AreApart};
ghost use Rattle.operation.specs.RecordParts.{content_record};
ghost use Rattle.archive_model.specs.declared.listed.Listed.{Listed};
ghost use Rattle.archive_model.specs.Sending.{sendings_of};
ghost use Rattle.association_services.specs.declared.call.Getting.{Getting};
ghost use Rattle.association_services.specs.declared.reply.Reply.{Reply};
ghost use Rattle.association_services.specs.Accepted.{accepts_of, carried_of, is_carried, BringsEach};
ghost use Rattle.association_run.specs.Port.{Gets, Loads};

use crate::port::Port;

/// What the sub-operations of a C-GET carry is what a C-GET over all that the port held when its
/// look ended sends, where each load brought a content of its record that has the digest of no
/// other operation there, and just those transfer syntaxes are accepted which the presentation
/// contexts accept.
pub fn a_get_carries_what_is_sent_of_the_set<P: Port>()
    ensures { (contexts : List Context) (before after : P) (getting : Getting)
        (listed : List Listed) (replies : List Reply) →
        Gets P.ops P.own before getting (Ok listed) after →
        BringsEach (P.ops after) contexts listed replies →
        carried_of contexts listed replies ≡ filter is_carried
        (sendings_of getting.view getting.selection (accepts_of contexts) (P.ops after)) }
{}

/// A load by the record of a content brings that content, where what it brings and the content are
/// no two of one digest.
pub fn a_load_brings_what_was_listed<P: Port>()
    ensures { (before after : P) (held loaded : ContentParts) →
        Loads P.ops P.own before (content_record held) (Ok loaded) after →
        AreApart (a_content loaded) (a_content held) → loaded ≡ held }
{}
