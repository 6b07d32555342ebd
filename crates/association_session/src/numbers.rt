//! The limits that clauses cite by name, each said once as it is.

ghost use Rattle.std.specs.Prelude.{◌≡◌};
ghost use Rattle.association_session.specs.declared.limit.TheConstants.{MOST_SENT, SENT_WITHOUT_LIMIT};
ghost use Rattle.association_session.specs.declared.telling.TheConstants.{TURN};
ghost use Rattle.association_services.specs.declared.retrieval.TheConstants.{MOST_SUB_OPERATIONS};

/// How long a P-DATA-TF that is sent may be, also to a peer that names no limit, in bytes; how many
/// sub-operations a C-GET has at most; and how many bytes of rows end a turn. The standard's
/// numbers stand in `dictionary`.
pub fn limits_are_these()
    ensures sent { MOST_SENT ≡ 65536 }
    ensures without_limit { SENT_WITHOUT_LIMIT ≡ 16384 }
    ensures sub_operations { MOST_SUB_OPERATIONS ≡ 65535 }
    ensures turn { TURN ≡ 32768 }
{}
