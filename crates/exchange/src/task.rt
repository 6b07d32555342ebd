//! What each frame calls for.

ghost use Rattle.std.specs.Prelude.{◌≡◌};
ghost use Rattle.exchange.specs.Tasks.{task_for, greeted_by, opened_by, ended_by};

use crate::role::Role;
use crate::version::Version;
use exchange_frames::{Digests, Frame};
use octets::{ListOf, Octets};
use operation::{Digest, Op};

/// Which frame a side awaits.
#[derive(Clone, Copy, Debug, PartialEq, Eq)]
pub(crate) enum Awaited {
    /// The first frame of the peer.
    Greeting,
    Differ,
    Want,
    Buckets,
    Have,
    /// A GIVE, or END.
    Give,
    /// None: the exchange is over.
    Nothing,
}

/// What a frame calls for.
#[derive(Debug, Drop)]
pub(crate) enum Task {
    /// The frame is out of its turn.
    Refuse,
    /// A version is settled, and BUCKETS are said.
    Begin(Version),
    /// A version is settled, and HELLO is answered.
    Meet(Version),
    /// BUCKETS are answered by DIFFER.
    Compare(ListOf<Digest>),
    /// DIFFER is answered by HAVE.
    Offer(Octets),
    /// HAVE is answered by WANT.
    Ask(Digests),
    /// WANT is answered by GIVEs and END.
    Give(Digests),
    /// The operation of a GIVE is taken.
    Take(Op),
    /// END was heard, and the other side asks now: BUCKETS are said.
    Show,
    /// END was heard, and the exchange is over.
    Rest,
}

/// What the HELLO of a peer calls for.
fn greeted(version: Option<Version>, role: Role) -> Task
    ensures { result ≡ greeted_by version role }
{
    match (version, role) {
        (Some(version), Role::Caller) => Task::Begin(version),
        (Some(version), Role::Callee) => Task::Meet(version),
        (Some(_), Role::OldCaller) => Task::Refuse,
        (None, _) => Task::Refuse,
    }
}

/// What BUCKETS call for as the first frame.
fn opened(role: Role, buckets: ListOf<Digest>) -> Task
    ensures { result ≡ opened_by role buckets }
{
    match role {
        Role::Callee => Task::Compare(buckets),
        Role::Caller | Role::OldCaller => Task::Refuse,
    }
}

/// What END calls for.
fn ended(role: Role) -> Task
    ensures { result ≡ ended_by role }
{
    match role {
        Role::Callee => Task::Show,
        Role::Caller | Role::OldCaller => Task::Rest,
    }
}

/// What a frame calls for, where a side of this role awaits this.
pub(crate) fn task_of(awaited: Awaited, frame: Frame, role: Role) -> Task
    ensures { result ≡ task_for awaited frame role }
{
    match (awaited, frame) {
        (Awaited::Greeting, Frame::Hello(number)) => greeted(Version::with_peer(number), role),
        (Awaited::Greeting, Frame::Buckets(buckets)) => opened(role, buckets),
        (Awaited::Differ, Frame::Differ(places)) => Task::Offer(places),
        (Awaited::Want, Frame::Want(want)) => Task::Give(want),
        (Awaited::Buckets, Frame::Buckets(buckets)) => Task::Compare(buckets),
        (Awaited::Have, Frame::Have(have)) => Task::Ask(have),
        (Awaited::Give, Frame::Give(op)) => Task::Take(op),
        (Awaited::Give, Frame::End) => ended(role),
        (_, _) => Task::Refuse,
    }
}
