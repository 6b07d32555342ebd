//! The numbers that clauses cite by name, each said once as it stands in PS3.8 and PS3.7.

ghost use Rattle.std.specs.Prelude.{◌≡◌};
ghost use Rattle.pdu.specs.declared.header.TheConstants.{HEADER_LENGTH, LONGEST_BODY, LONGEST_ACCEPT, OPENING_LENGTH};
ghost use Rattle.pdu.specs.declared.header.TheConstants.{FIXED_LENGTH, ASSOCIATE_RQ, ASSOCIATE_AC, ASSOCIATE_RJ};
ghost use Rattle.pdu.specs.declared.header.TheConstants.{P_DATA, RELEASE_RQ, RELEASE_RP, ABORT};
ghost use Rattle.pdu.specs.declared.item.TheConstants.{APPLICATION_CONTEXT, PROPOSED_CONTEXT, ANSWERED_CONTEXT};
ghost use Rattle.pdu.specs.declared.item.TheConstants.{ABSTRACT_SYNTAX, TRANSFER_SYNTAX, USER_INFORMATION};
ghost use Rattle.pdu.specs.declared.item.TheConstants.{MAXIMUM_LENGTH, IMPLEMENTATION_CLASS, ROLE_SELECTION};

/// The types of PDUs (PS3.8, section 9.3.1).
pub fn pdus_have_these_types()
    ensures associate_rq { ASSOCIATE_RQ ≡ 0x01 }
    ensures associate_ac { ASSOCIATE_AC ≡ 0x02 }
    ensures associate_rj { ASSOCIATE_RJ ≡ 0x03 }
    ensures p_data { P_DATA ≡ 0x04 }
    ensures release_rq { RELEASE_RQ ≡ 0x05 }
    ensures release_rp { RELEASE_RP ≡ 0x06 }
    ensures abort { ABORT ≡ 0x07 }
{}

/// The types of items and sub-items (PS3.8, section 9.3; PS3.7, section D.3.3).
pub fn items_have_these_types()
    ensures application_context { APPLICATION_CONTEXT ≡ 0x10 }
    ensures proposed_context { PROPOSED_CONTEXT ≡ 0x20 }
    ensures answered_context { ANSWERED_CONTEXT ≡ 0x21 }
    ensures abstract_syntax { ABSTRACT_SYNTAX ≡ 0x30 }
    ensures transfer_syntax { TRANSFER_SYNTAX ≡ 0x40 }
    ensures user_information { USER_INFORMATION ≡ 0x50 }
    ensures maximum_length { MAXIMUM_LENGTH ≡ 0x51 }
    ensures implementation_class { IMPLEMENTATION_CLASS ≡ 0x52 }
    ensures role_selection { ROLE_SELECTION ≡ 0x54 }
{}

/// How long a header and what stands before the items are, and how long a body may be, in bytes.
pub fn limits_are_these()
    ensures header { HEADER_LENGTH ≡ 6 }
    ensures opening { OPENING_LENGTH ≡ 68 }
    ensures fixed { FIXED_LENGTH ≡ 4 }
    ensures body { LONGEST_BODY ≡ 65536 }
    ensures accept { LONGEST_ACCEPT ≡ 70000 }
{}
