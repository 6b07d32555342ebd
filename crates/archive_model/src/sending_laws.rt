//! What is prepared, as contracts of functions that do nothing.

ghost use Rattle.archive_model.specs.SendingLaws.{WhatIsMadeIsCorrected, BodyIsMade, WhatIsSentIsMade};

/// What is made of what a C-GET prepares, one by one, is what it sends.
pub fn what_is_sent_is_made_of_what_is_prepared()
    ensures text { WhatIsMadeIsCorrected }
    ensures body { BodyIsMade }
    ensures sent { WhatIsSentIsMade }
{}
