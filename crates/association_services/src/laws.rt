//! What a C-GET's sub-operations carry, as contracts of functions that do nothing.

ghost use Rattle.association_services.specs.Accepted.{FormIsAccepted, WayIsOn, CarriedIsSent};

/// A content goes out as a C-GET over its set sends it, where just those transfer syntaxes are
/// accepted that the presentation contexts accept in the requestor's SCP role.
pub fn a_content_goes_out_as_its_contexts_accept()
    ensures form { FormIsAccepted }
    ensures context { WayIsOn }
    ensures carried { CarriedIsSent }
{}
