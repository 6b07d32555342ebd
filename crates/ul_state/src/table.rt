//! The states in use of the acceptor's table (PS3.8, section 9.2, Table 9-10).

ghost use Rattle.std.specs.Prelude.{◌≡◌, ◌≢◌, ◌≤◌, List};
ghost use Rattle.ul_state.specs.Table.{action_of, next_of, state_after, acceptances_in, answers_in, provider_reason};
ghost use Rattle.ul_state.specs.declared.table.State.TheVariants.{Sta2, Sta6, Sta13};
ghost use Rattle.ul_state.specs.declared.table.Kind.{Kind};
ghost use Rattle.ul_state.specs.declared.table.ActionKind.TheVariants.{HandOn, SendAccept};

/// A state of the machine, by the standard's number.
#[derive(Clone, Copy, Debug, PartialEq, Eq, Hash)]
pub enum State {
    /// Idle: there is no connection.
    Sta1,
    /// A connection is open, and an A-ASSOCIATE-RQ is awaited.
    Sta2,
    /// The association is established.
    Sta6,
    /// The peer is to close the connection.
    Sta13,
}

/// What kind of event reached the machine.
#[derive(Clone, Copy, Debug, PartialEq, Eq, Hash)]
pub(crate) enum Kind {
    /// An A-ASSOCIATE-RQ that is accepted.
    AcceptableRq,
    /// An A-ASSOCIATE-RQ that is refused.
    OtherRq,
    PData,
    ReleaseRq,
    Abort,
    OtherPdu,
    /// A PDU of an unknown type.
    UnknownPdu,
    /// A PDU with any other fault.
    FaultyPdu,
    StreamEnd,
    LocalAbort,
}

/// What the machine does: the actions of the standard's tables 9-6 to 9-9, without their timers.
#[derive(Clone, Copy, Debug, PartialEq, Eq, Hash)]
pub(crate) enum ActionKind {
    Nothing,
    SendAccept,
    SendReject,
    SendReleaseRp,
    /// An A-ABORT of the service's user (PS3.8, section 9.3.8).
    AbortAsUser,
    /// An A-ABORT of the service's provider, with a reason.
    AbortAsProvider,
    HandOn,
    Close,
}

/// Table 9-10 of the standard, in this archive's states: a line for a row, a block for a state.
pub(crate) fn row(state: State, kind: Kind) -> (ActionKind, State)
    ensures does { result.0 ≡ action_of state kind }
    ensures next { result.1 ≡ next_of state kind }
{
    use ActionKind::{
        AbortAsProvider, AbortAsUser, Close, HandOn, Nothing, SendAccept, SendReject, SendReleaseRp,
    };
    use Kind::{
        Abort, AcceptableRq, FaultyPdu, LocalAbort, OtherPdu, OtherRq, PData, ReleaseRq, StreamEnd,
        UnknownPdu,
    };
    use State::{Sta1, Sta2, Sta6, Sta13};

    match (state, kind) {
        (Sta1, _) => (Nothing, Sta1),

        (Sta2, AcceptableRq) => (SendAccept, Sta6), // AE-6, AE-7
        (Sta2, OtherRq) => (SendReject, Sta13), // AE-6, AE-8
        (Sta2, Abort | StreamEnd) => (Close, Sta1), // AA-2, AA-5
        (Sta2, PData | ReleaseRq | OtherPdu | UnknownPdu | FaultyPdu) => (AbortAsUser, Sta13), // AA-1
        (Sta2, LocalAbort) => (Nothing, Sta2),

        (Sta6, PData) => (HandOn, Sta6), // DT-2
        (Sta6, ReleaseRq) => (SendReleaseRp, Sta13), // AR-2, AR-4
        (Sta6, Abort | StreamEnd) => (Close, Sta1), // AA-3, AA-4
        (Sta6, AcceptableRq | OtherRq | OtherPdu) => (AbortAsProvider, Sta13), // AA-8
        (Sta6, UnknownPdu | FaultyPdu) => (AbortAsProvider, Sta13), // AA-8
        (Sta6, LocalAbort) => (AbortAsUser, Sta13), // AA-1

        (Sta13, AcceptableRq | OtherRq | UnknownPdu | FaultyPdu) => (AbortAsProvider, Sta13), // AA-7
        (Sta13, Abort | StreamEnd) => (Close, Sta1), // AA-2, AR-5
        (Sta13, PData | ReleaseRq | OtherPdu | LocalAbort) => (Nothing, Sta13), // AA-6
    }
}

/// The reason that the provider gives: 1 an unrecognized PDU, 2 an unexpected one, 6 an invalid
/// parameter (PS3.8, section 9.3.8).
pub(crate) fn reason_of(kind: Kind) -> u8
    ensures { result ≡ provider_reason kind }
{
    use Kind::{
        Abort, AcceptableRq, FaultyPdu, LocalAbort, OtherPdu, OtherRq, PData, ReleaseRq, StreamEnd,
        UnknownPdu,
    };

    match kind {
        UnknownPdu => 1,
        AcceptableRq | OtherRq | PData | ReleaseRq | Abort | OtherPdu => 2,
        FaultyPdu => 6,
        // These are no PDUs, and the provider does not abort for them.
        StreamEnd | LocalAbort => 0,
    }
}

/// Once goodbye is said nothing is handed on, whatever comes.
pub fn never_hands_on_after_goodbye()
    ensures { (kinds : List Kind) (kind : Kind)
        → action_of (state_after Sta13 kinds) kind ≢ HandOn }
{}

/// Nothing is handed on before an acceptance was sent.
pub fn never_hands_on_before_an_acceptance()
    ensures { (kinds : List Kind) (kind : Kind) → action_of (state_after Sta2 kinds) kind ≡ HandOn →
        acceptances_in Sta2 kinds ≡ 1 }
{}

/// At most one acceptance or rejection is sent.
pub fn answers_once()
    ensures { (kinds : List Kind) → answers_in Sta2 kinds ≤ 1 }
{}

/// After an acceptance none is sent, so that what it settled stays.
pub fn accepts_nothing_after_an_acceptance()
    ensures { (kinds : List Kind) (kind : Kind) →
        action_of (state_after Sta6 kinds) kind ≢ SendAccept }
{}
