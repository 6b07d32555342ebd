//! What is sent, as contracts of functions that do nothing.

ghost use Rattle.archive_query.specs.SendingLaws.{SameSitesSendAlike, WhatIsSentIsComputed, NothingHiddenIsSent};
ghost use Rattle.archive_query.specs.SendingLaws.{WhatIsRejectedIsNotSent, WhatIsShownIsSent, WhatIsSentAscends};
ghost use Rattle.archive_query.specs.SendingLaws.{WhatNeedsNothingIsSentAsItCame, SentHasAttributes, SentKeepsOthers};

/// Two sites that hold the same operations send the same, in whatever order they took them.
pub fn same_sites_send_alike()
    ensures { SameSitesSendAlike }
{}

/// What is sent is a function of the set, which computes it.
pub fn what_is_sent_is_computed()
    ensures { WhatIsSentIsComputed }
{}

/// What is sent is shown and selected, and what is shown and selected is sent, once, by ascending
/// SOP Instance UID.
pub fn what_is_sent_is_shown()
    ensures hidden { NothingHiddenIsSent }
    ensures shown { WhatIsShownIsSent }
    ensures ascends { WhatIsSentAscends }
{}

/// What a note names whose title hides in a view is not sent there, whether the note was taken
/// before what it names or after.
pub fn what_is_rejected_is_not_sent()
    ensures { WhatIsRejectedIsNotSent }
{}

/// A data set whose attributes are its own goes out as it came where its syntax is accepted.
pub fn what_needs_nothing_is_sent_as_it_came()
    ensures { WhatNeedsNothingIsSentAsItCame }
{}

/// What is written for a peer reads again with the corrected attributes, and with every other value
/// as it was stored.
pub fn what_is_sent_reads_again_corrected()
    ensures attributes { SentHasAttributes }
    ensures others { SentKeepsOthers }
{}
