//! One side of an exchange, as a machine: frames come in and frames go out.

ghost use Rattle.std.specs.Prelude.{◌≡◌, ◌<◌, ◌^◌, ◌-◌, ◌↔◌, ◌&&◌, IfErr, IsErrOf, IsTrue, length};
ghost use Rattle.exchange_frames.specs.declared.frame.Frame.TheVariants.{Hello};
ghost use Rattle.exchange.specs.declared.side.Said.TheVariants as says;
ghost use Rattle.exchange.specs.declared.task.Awaited.TheVariants as awaits;
ghost use Rattle.exchange.specs.declared.task.Task.TheVariants as tasks;
ghost use Rattle.exchange.specs.Tasks.{task_for};
ghost use Rattle.exchange.specs.Course.{Performs, SetOut, Why, IsOfHolder, HasRefused, next_after_gifts};
ghost use Rattle.exchange.specs.Course.{news, settled, start_of, passed_over};
ghost use Rattle.exchange.specs.Course.{agreed_with as agreed_in};
ghost use Rattle.exchange.specs.Parts.{do_fit, is_seen_whole as is_seen_whole_in};
ghost use Rattle.exchange.specs.Round.{IsFinished};

use crate::fault::ExchangeFault;
use crate::holder::Holder;
use crate::parts::{fitting, is_seen_whole};
use crate::role::{Ended, Role};
use crate::round::Round;
use crate::task::{Awaited, Task, task_of};
use crate::version::Version;
use exchange_frames::{Digests, Frame, MOST_DIGESTS};
use octets::Octets;
use operation::{Digest, Op, Taken};
use std::alloc::Global;

/// The version that this side speaks.
pub(crate) const OWN_VERSION: u16 = 2;

/// What a side says.
#[derive(Debug, Drop)]
pub(crate) enum Said {
    Nothing,
    One(Frame),
    /// A GIVE of the operation under each digest, and END.
    Gifts(Digests),
}

/// A side, and where it is in its exchange.
pub(crate) struct Side {
    role: Role,
    awaited: Awaited,
    round: Round,
    given: u64,
    /// The digests of the operations that were to be given and could not be read.
    unread: Digests,
    taken: u64,
    agreed: bool,
    /// The places of the DIFFER that it said.
    places: Octets,
    /// Whether all fitted so far.
    whole: bool,
}

// It is written out, so that a caller does not prove again how each part is dropped.
impl Drop for Side {
    fn drop(self) {
        let Side {
            role: _,
            awaited: _,
            round: _,
            given: _,
            unread: _,
            taken: _,
            agreed: _,
            places: _,
            whole: _,
        } = self;
    }
}

/// What is awaited first. Where it is a greeting, the peer's version is not known yet.
fn first_awaited(role: Role) -> Awaited
    ensures { result ≡ (start_of role).awaited }
{
    match role {
        Role::Caller | Role::Callee => Awaited::Greeting,
        Role::OldCaller => Awaited::Differ,
    }
}

/// What is awaited behind the GIVEs of this side: the caller gives first.
fn after_gifts(role: Role) -> Awaited
    ensures { result ≡ next_after_gifts role }
{
    match role {
        Role::Caller | Role::OldCaller => Awaited::Buckets,
        Role::Callee => Awaited::Nothing,
    }
}

/// Whether no place differed, where buckets differ in these.
fn agreed_with(agreed: bool, places: &[u8]) -> bool
    ensures { result ≡ agreed_in agreed places.now }
{
    agreed && places.is_empty()
}

/// Whether all fitted, where a HAVE is told of these.
fn whole_with(whole: bool, held: &Digests) -> bool
    ensures { result ≡ (whole && do_fit held.now) }
{
    whole && held.len() <= MOST_DIGESTS
}

/// Whether all fitted, where this HAVE was heard for a DIFFER of these places.
fn seen_whole_with(whole: bool, places: &[u8], have: &Digests) -> bool
    ensures { result ≡ (whole && is_seen_whole_in places.now have.now) }
{
    whole && is_seen_whole(places, have)
}

/// How many operations are new.
fn count_of(taken: Taken) -> u64
    ensures value { result ≡ news taken }
{
    match taken {
        Taken::New => 1,
        Taken::Known => 0,
    }
}

impl Side {
    /// A side that has heard nothing. It takes no memory.
    pub(crate) fn new(alloc: Global, role: Role) -> Side
        ensures { result ≡ start_of role }
    {
        Side {
            role,
            awaited: first_awaited(role),
            round: Round::new(alloc, Version::One),
            given: 0,
            unread: Digests::new(),
            taken: 0,
            agreed: true,
            places: Octets::of(Vec::new(alloc)),
            whole: true,
        }
    }

    /// Whether the exchange is over.
    pub(crate) fn is_over(&self) -> bool
        ensures { IsTrue result ↔ (self.now.awaited ≡ awaits.Nothing) }
    {
        self.awaited == Awaited::Nothing
    }

    /// How it ended.
    pub(crate) fn ended(&self) -> Ended
        ensures given { result.given ≡ self.now.given }
        ensures unread { result.unread ≡ length self.now.unread }
        ensures taken { result.taken ≡ self.now.taken }
        ensures finished { IsTrue result.finished ↔ IsFinished self.now.round }
        ensures agreed { result.agreed ≡ self.now.agreed }
        ensures whole { result.whole ≡ self.now.whole }
    {
        Ended {
            given: self.given,
            unread: self.unread.len() as u64,
            taken: self.taken,
            finished: self.round.finished(),
            agreed: self.agreed,
            whole: self.whole,
        }
    }

    /// The GIVEs of this side were said. Of what was to be given these could not be read.
    pub(crate) fn pass_over(&mut self, unread: Option<Digests>)
        ensures { self.new ≡ passed_over unread self.old }
    {
        let Some(unread) = unread else {
            return;
        };
        self.given = self.given.saturating_sub(unread.len() as u64);
        self.unread = unread;
    }

    /// What is said before anything is heard.
    pub(crate) fn set_out<H: Holder>(
        &mut self,
        alloc: Global,
        holder: &mut H,
    ) -> Result<Said, ExchangeFault>
        requires { self.old ≡ start_of self.old.role }
        ensures did { SetOut H.holds H.alone self.old.role holder.old result self.new holder.new }
        ensures kept { self.new.unread ≡ self.old.unread }
        ensures why { IfErr result IsOfHolder }
        ensures refused { IsErrOf result ExchangeFault.Refused → HasRefused H.refuses_look
            H.refuses_take tasks.Show holder.old holder.new }
    {
        match self.role {
            Role::Caller => Ok(Said::One(Frame::Hello(OWN_VERSION))),
            Role::Callee => Ok(Said::Nothing),
            Role::OldCaller => self.show(alloc, holder),
        }
    }

    /// Hears a frame, and says what it calls for.
    ///
    /// A frame out of its turn is `BadFrame`, and so is an operation that the version does not
    /// speak of; one that was not asked for is `Stranger`. Neither is taken.
    pub(crate) fn on<H: Holder>(
        &mut self,
        alloc: Global,
        holder: &mut H,
        frame: Frame,
    ) -> Result<Said, ExchangeFault>
        requires { self.old.taken < 2 ^ 64 - 1 }
        ensures did { Performs H.holds H.alone (task_for self.old.awaited frame self.old.role)
            self.old holder.old result self.new holder.new }
        ensures kept { self.new.unread ≡ self.old.unread }
        ensures why { IfErr result (Why (task_for self.old.awaited frame self.old.role) self.old) }
        ensures refused { IsErrOf result ExchangeFault.Refused → HasRefused H.refuses_look
            H.refuses_take (task_for self.old.awaited frame self.old.role) holder.old holder.new }
    {
        self.act(alloc, holder, task_of(self.awaited, frame, self.role))
    }

    fn act<H: Holder>(
        &mut self,
        alloc: Global,
        holder: &mut H,
        task: Task,
    ) -> Result<Said, ExchangeFault>
        requires { self.old.taken < 2 ^ 64 - 1 }
        ensures did { Performs H.holds H.alone task self.old holder.old result self.new holder.new }
        ensures kept { self.new.unread ≡ self.old.unread }
        ensures why { IfErr result (Why task self.old) }
        ensures refused { IsErrOf result ExchangeFault.Refused → HasRefused H.refuses_look
            H.refuses_take task holder.old holder.new }
    {
        match task {
            Task::Refuse => Err(ExchangeFault::BadFrame),
            Task::Begin(version) => self.begin(alloc, holder, version),
            Task::Meet(version) => Ok(self.meet(alloc, version)),
            Task::Compare(buckets) => self.compare(alloc, holder, buckets.as_slice()),
            Task::Offer(places) => self.offer(alloc, holder, places.as_slice()),
            Task::Ask(have) => self.ask(alloc, holder, &have),
            Task::Give(want) => self.give(alloc, holder, &want),
            Task::Take(op) => self.take(holder, op),
            Task::Show => self.show(alloc, holder),
            Task::Rest => Ok(self.rest()),
        }
    }

    /// Says BUCKETS.
    fn show<H: Holder>(&mut self, alloc: Global, holder: &mut H) -> Result<Said, ExchangeFault>
        ensures did { Performs H.holds H.alone tasks.Show self.old holder.old result self.new
            holder.new }
        ensures kept { self.new.unread ≡ self.old.unread }
        ensures why { IfErr result IsOfHolder }
        ensures refused { IsErrOf result ExchangeFault.Refused → HasRefused H.refuses_look
            H.refuses_take tasks.Show holder.old holder.new }
    {
        let buckets = self.round.buckets(alloc, holder)?;
        self.awaited = Awaited::Differ;
        Ok(Said::One(Frame::Buckets(buckets)))
    }

    /// Settles a version, and says BUCKETS.
    fn begin<H: Holder>(
        &mut self,
        alloc: Global,
        holder: &mut H,
        version: Version,
    ) -> Result<Said, ExchangeFault>
        ensures did { Performs H.holds H.alone (tasks.Begin version) self.old holder.old result
            self.new holder.new }
        ensures kept { self.new.unread ≡ self.old.unread }
        ensures why { IfErr result IsOfHolder }
        ensures refused { IsErrOf result ExchangeFault.Refused → HasRefused H.refuses_look
            H.refuses_take (tasks.Begin version) holder.old holder.new }
    {
        self.round = Round::new(alloc, version);
        self.show(alloc, holder)
    }

    /// Settles a version, and says HELLO.
    fn meet(&mut self, alloc: Global, version: Version) -> Said
        ensures said { result ≡ says.One (Hello OWN_VERSION) }
        ensures next { self.new ≡ record (settled version self.old) { awaited = awaits.Buckets } }
    {
        self.round = Round::new(alloc, version);
        self.awaited = Awaited::Buckets;
        Said::One(Frame::Hello(OWN_VERSION))
    }

    /// Answers BUCKETS.
    fn compare<H: Holder>(
        &mut self,
        alloc: Global,
        holder: &mut H,
        buckets: &[Digest],
    ) -> Result<Said, ExchangeFault>
        ensures did { Performs H.holds H.alone (tasks.Compare buckets.now) self.old holder.old
            result self.new holder.new }
        ensures kept { self.new.unread ≡ self.old.unread }
        ensures why { IfErr result IsOfHolder }
        ensures refused { IsErrOf result ExchangeFault.Refused → HasRefused H.refuses_look
            H.refuses_take (tasks.Compare buckets.now) holder.old holder.new }
    {
        let places = self.round.on_buckets(alloc, holder, buckets)?;
        self.places = places.copy(alloc)?;
        self.agreed = agreed_with(self.agreed, places.as_slice());
        self.awaited = Awaited::Have;
        Ok(Said::One(Frame::Differ(places)))
    }

    /// Answers DIFFER. Where more is held in its places than a HAVE may have, the HAVE has what is
    /// held in the first of them, and the rest is left to a later exchange.
    fn offer<H: Holder>(
        &mut self,
        alloc: Global,
        holder: &mut H,
        places: &[u8],
    ) -> Result<Said, ExchangeFault>
        ensures did { Performs H.holds H.alone (tasks.Offer places.now) self.old holder.old result
            self.new holder.new }
        ensures kept { self.new.unread ≡ self.old.unread }
        ensures why { IfErr result IsOfHolder }
        ensures refused { IsErrOf result ExchangeFault.Refused → HasRefused H.refuses_look
            H.refuses_take (tasks.Offer places.now) holder.old holder.new }
    {
        let held = self.round.on_differ(alloc, holder, places)?;
        let whole = whole_with(self.whole, &held);
        let have = fitting(alloc, held, MOST_DIGESTS)?;
        self.whole = whole;
        self.agreed = agreed_with(self.agreed, places);
        self.awaited = Awaited::Want;
        Ok(Said::One(Frame::Have(have)))
    }

    /// Answers HAVE.
    fn ask<H: Holder>(
        &mut self,
        alloc: Global,
        holder: &mut H,
        have: &Digests,
    ) -> Result<Said, ExchangeFault>
        ensures did { Performs H.holds H.alone (tasks.Ask have.now) self.old holder.old result
            self.new holder.new }
        ensures kept { self.new.unread ≡ self.old.unread }
        ensures why { IfErr result IsOfHolder }
        ensures refused { IsErrOf result ExchangeFault.Refused → HasRefused H.refuses_look
            H.refuses_take (tasks.Ask have.now) holder.old holder.new }
    {
        let want = self.round.on_have(alloc, holder, have)?;
        self.whole = seen_whole_with(self.whole, self.places.as_slice(), have);
        self.awaited = Awaited::Give;
        Ok(Said::One(Frame::Want(want)))
    }

    /// Answers WANT.
    fn give<H: Holder>(
        &mut self,
        alloc: Global,
        holder: &mut H,
        want: &Digests,
    ) -> Result<Said, ExchangeFault>
        ensures did { Performs H.holds H.alone (tasks.Give want.now) self.old holder.old result
            self.new holder.new }
        ensures kept { self.new.unread ≡ self.old.unread }
        ensures why { IfErr result IsOfHolder }
        ensures refused { IsErrOf result ExchangeFault.Refused → HasRefused H.refuses_look
            H.refuses_take (tasks.Give want.now) holder.old holder.new }
    {
        let held = self.round.on_want(alloc, holder, want)?;
        self.given = held.len() as u64;
        self.awaited = after_gifts(self.role);
        Ok(Said::Gifts(held))
    }

    /// Takes the operation of a GIVE.
    fn take<H: Holder>(&mut self, holder: &mut H, op: Op) -> Result<Said, ExchangeFault>
        requires { self.old.taken < 2 ^ 64 - 1 }
        ensures did { Performs H.holds H.alone (tasks.Take op) self.old holder.old result self.new
            holder.new }
        ensures kept { self.new.unread ≡ self.old.unread }
        ensures why { IfErr result (Why (tasks.Take op) self.old) }
        ensures refused { IsErrOf result ExchangeFault.Refused → HasRefused H.refuses_look
            H.refuses_take (tasks.Take op) holder.old holder.new }
    {
        let taken = self.round.on_give(holder, op)?;
        self.taken += count_of(taken);
        Ok(Said::Nothing)
    }

    /// The exchange is over.
    fn rest(&mut self) -> Said
        ensures said { result ≡ says.Nothing }
        ensures next { self.new ≡ record self.old { awaited = awaits.Nothing } }
    {
        self.awaited = Awaited::Nothing;
        Said::Nothing
    }
}
