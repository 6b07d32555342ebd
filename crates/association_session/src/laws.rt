//! What holds of every association.

ghost use Rattle.std.specs.Prelude.{◌≡◌, ◌≤◌, ◌++◌, List, ℕ, Option, None};
ghost use Rattle.ul_state.specs.declared.titles.Title.{Title};
ghost use Rattle.dimse.specs.declared.status.Status.{Status};
ghost use Rattle.association_session.specs.declared.deed.Deed.{Deed};
ghost use Rattle.association_services.specs.declared.reply.Reply.{Reply};
ghost use Rattle.association_session.specs.Answered.{AreAnswered};
ghost use Rattle.association_session.specs.Finals.{HasResponses};
ghost use Rattle.association_session.specs.Order.{IsOrderly, IsReplied};
ghost use Rattle.association_session.specs.Projections.{IsFront};
ghost use Rattle.association_services.specs.Response.{Awaited, IsResponse};
ghost use Rattle.association_session.specs.Selected.{CancelEnds};
ghost use Rattle.association_services.specs.SubOperation.{SubOperation};
ghost use Rattle.association_session.specs.Row.{Within};
ghost use Rattle.association_session.specs.Talks.{Heard, Talks};
ghost use Rattle.archive_model.specs.declared.view.View.{View};

/// Whatever the status is, a request has a response.
pub fn each_request_has_a_response()
    ensures { (awaited : Awaited) (status : Status) → 8 ≤ awaited.limit →
        (text : List ℕ) × IsResponse awaited status text }
{}

/// What was heard and what was replied leave one list of deeds.
pub fn there_is_one_list_of_deeds()
    ensures { (titles : List (Title View)) (w : Within) (sub : Option SubOperation)
        (heard : List Heard) (replies : List Reply) (a b : List Deed) →
        Talks titles w sub heard replies a → Talks titles w sub heard replies b → a ≡ b }
{}

/// Whatever is heard or replied later only adds deeds.
pub fn more_is_only_added()
    ensures { (titles : List (Title View)) (w : Within) (sub : Option SubOperation)
        (heard more : List Heard) (replies others : List Reply) (a b : List Deed) →
        Talks titles w sub heard replies a →
        Talks titles w sub (heard ++ more) (replies ++ others) b → IsFront a b }
{}

/// Nothing is asked of the port but while the association is established; once goodbye was said
/// nothing is sent but an A-ABORT; and once the connection is closed nothing is done.
pub fn nothing_is_asked_after_goodbye()
    ensures { (titles : List (Title View)) (w : Within) (sub : Option SubOperation)
        (heard : List Heard) (replies : List Reply) (deeds : List Deed) →
        Talks titles w sub heard replies deeds → IsOrderly w.state deeds }
{}

/// Behind a call of the port nothing is done before its reply: so no response to a store is sent
/// that was not asked and replied.
pub fn a_response_stands_behind_its_call()
    ensures { (titles : List (Title View)) (w : Within) (sub : Option SubOperation)
        (heard : List Heard) (replies : List Reply) (deeds : List Deed) →
        Talks titles w sub heard replies deeds → IsReplied replies deeds }
{}

/// Each request that was heard has one last response, in order, behind its pending ones and the
/// sub-operations that it brings, and no other P-DATA-TF is sent. Only the last of them may have
/// none: where its call has no reply yet, and a C-GET that selected instances, whose
/// sub-operations go on, or whose association ended before. A response is of the operation, the
/// class and the instance of its request.
///
/// In every response to a C-GET whose sub-operations are performed the completed, failed, warning
/// and remaining ones add up to the instances that the port replied; no other response counts any.
///
/// The sub-operations of a C-GET carry what a C-GET sends of the contents that the port loaded for
/// the instances that it listed, in order, where just those transfer syntaxes are accepted which
/// the presentation contexts accept: none is passed over but those that no context takes, and those
/// whose load brought no content of that class, instance and transfer syntax. Each goes out on a
/// context that takes its class, in the transfer syntax in which it is sent.
pub fn each_request_has_one_response()
    ensures { (titles : List (Title View)) (w : Within) (heard : List Heard)
        (replies : List Reply) (deeds : List Deed) → Talks titles w None heard replies deeds →
        HasResponses titles w None heard replies deeds }
{}

/// Behind each call for a query stand its answers, and nothing between: a response for each row
/// that is told, each with FF01H where a key of the query is not supported and else with FF00H, one
/// response behind them, and then the gate. Which rows these are `Talks` says.
pub fn no_row_of_a_partial_query_is_a_full_one()
    ensures { (titles : List (Title View)) (w : Within) (sub : Option SubOperation)
        (heard : List Heard) (replies : List Reply) (deeds : List Deed) →
        Talks titles w sub heard replies deeds → AreAnswered deeds }
{}

/// Once the C-CANCEL of a C-GET was heard no sub-operation is begun, and nothing is loaded: behind
/// the response that is awaited stands the last response.
pub fn a_cancelled_get_begins_no_more()
    ensures { CancelEnds }
{}
