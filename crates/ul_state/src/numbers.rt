//! The numbers and the text of this crate that clauses cite by name, each said once as it is.

ghost use Rattle.std.specs.Prelude.{◌≡◌, codes};
ghost use Rattle.ul_state.specs.declared.admission.TheConstants.{LEAST_MAXIMUM};
ghost use Rattle.ul_state.specs.declared.answer.TheConstants.{IMPLEMENTATION_CLASS, MAXIMUM_LENGTH, ACCEPTANCE};
ghost use Rattle.ul_state.specs.declared.answer.TheConstants.{NO_ABSTRACT_SYNTAX, NO_TRANSFER_SYNTAX};

/// What an acceptance says of this archive (PS3.8, section D.1; PS3.7, section D.3.3.2), the least
/// maximum length that a peer may say, and the answers to a context (PS3.8, section 9.3.3.2).
pub fn acceptances_say_these()
    ensures maximum_length { MAXIMUM_LENGTH ≡ 65536 }
    ensures implementation_class { IMPLEMENTATION_CLASS ≡ codes "2.25.113001" }
    ensures least_maximum { LEAST_MAXIMUM ≡ 8 }
    ensures acceptance { ACCEPTANCE ≡ 0 }
    ensures no_abstract_syntax { NO_ABSTRACT_SYNTAX ≡ 3 }
    ensures no_transfer_syntax { NO_TRANSFER_SYNTAX ≡ 4 }
{}
