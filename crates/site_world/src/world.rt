//! Several sites.

ghost use Rattle.std.specs.Prelude.{◌≡◌, ◌<◌, ◌≤◌, ◌↔◌, ◌+◌, ◌++◌, ◌∷◌, [], List, ℕ, Ok, Err};
ghost use Rattle.std.specs.Prelude.{Some, None, OnOk, OnErr, IfOk, IfErr, length, replicate};
ghost use Rattle.std.specs.Vec.{vec_len, vec_capacity};
ghost use Rattle.std.specs.Result.{IsErrOf};
ghost use Rattle.std.specs.Option.{option_copied};
ghost use Rattle.std.specs.FinMap as finmap;
ghost use Rattle.operation.specs.declared.op.Op.{Op};
ghost use Rattle.site_state.specs.Site.{Map};
ghost use Rattle.site_world.specs.Steps.{fault_of_site, IsTaken, IsTold, Happens, site_at};
ghost use Rattle.site_world.specs.Steps.{told_of_taking, told_of_stamping, taken_by};
ghost use Rattle.site_world.specs.Steps.{told_of_correcting, made_at};
ghost use Rattle.site_world.specs.Steps.{told_of_getting, taken_in, Comes, on_site};
ghost use Rattle.site_world.specs.Steps.{told_of_giving, told_of_reaction};
ghost use Rattle.site_world.specs.Messages.{new_world, message_at, version_at as version_at_site};
ghost use Rattle.site_world.specs.Messages.{version_between as version_between_sites};
ghost use Rattle.site_world.specs.Messages.{gives, numbers_behind, with_message};
ghost use Rattle.site_world.specs.Messages.{message as message_of, reaction as reaction_to};
ghost use Rattle.site_world.specs.Runs.{Outcome, IsNew, Headline};

use crate::fault::WorldFault;
use crate::looking::look_at;
use crate::message::{Message, Reaction, Says, comes_of, has_begun, is_old};
use crate::step::{Seen, Step};
use archive_model::View;
use archive_query::{Accepts, Query, Selection, get};
use exchange::{Version, buckets_of_whole, digests_of_whole};
use octets::{ListOf, Octets};
use operation::{Op, Stamp, Target, correction_of};
use site_state::{SiteFault, Taken, WholeSite};
use std::alloc::{AllocError, Global};
use std::marker::Model;

/// How many sites a world may have.
pub const MOST_SITES: usize = 16;

/// Several sites, at most 16, every message that was sent between them, and which of the sites know
/// no corrections of series.
pub struct World {
    sites: Vec<WholeSite>,
    sent: Vec<Message>,
    aged: Vec<usize>,
    alloc: Global,
}

// It is written out, so that a caller does not prove again how each part is dropped.
impl Drop for World {
    fn drop(self) {
        let World {
            sites: _,
            sent: _,
            aged: _,
            alloc: _,
        } = self;
    }
}

impl Model for World {
    ghost use Rattle.std.specs.Prelude.{◌≤◌, length};
    ghost use Rattle.site_world.specs.Messages.{WorldState, world_code};

    ghost Value = { WorldState };

    ghost coded = { world_code };

    ghost view = { λ w. record {
      sites = w.sites.items;
      sent = w.sent.items;
      aged = w.aged.items;
    } };

    ghost invariant = { λ w. length w.sites.items ≤ 16 };
}

/// What the fault of a site is in a world.
fn fault_of(fault: SiteFault) -> WorldFault
    ensures { result ≡ fault_of_site fault }
{
    match fault {
        SiteFault::Collision => WorldFault::Site(SiteFault::Collision),
        SiteFault::Memory => WorldFault::Memory,
    }
}

/// Hands an operation to a site.
fn take(site: &mut WholeSite, op: Op) -> Result<Taken, WorldFault>
    ensures { IsTaken site.old op (taken_by site.old op) result site.new }
{
    match site.take(op) {
        Ok(taken) => Ok(taken),
        Err(fault) => Err(fault_of(fault)),
    }
}

/// Hands an operation to a site that knows what a version speaks of.
fn take_in(site: &mut WholeSite, version: Version, op: Op) -> Result<Taken, WorldFault>
    ensures { IsTaken site.old op (taken_in version site.old op) result site.new }
{
    if !version.speaks(&op) {
        return Err(WorldFault::OldSite);
    }
    take(site, op)
}

/// A step that takes an operation, at its site.
fn take_at(site: &mut WholeSite, version: Version, op: Op) -> Result<Seen, WorldFault>
    ensures { IsTold site.old (told_of_taking op (taken_in version site.old op)) result site.new }
{
    match take_in(site, version, op) {
        Ok(taken) => Ok(Seen::Took(taken)),
        Err(fault) => Err(fault),
    }
}

/// A correction of this stamp, handed to its site.
fn stamp_at(
    site: &mut WholeSite,
    version: Version,
    stamp: Stamp,
    op: Op,
) -> Result<Seen, WorldFault>
    ensures { IsTold site.old
        (told_of_stamping stamp op (taken_in version site.old op)) result site.new }
{
    match take_in(site, version, op) {
        Ok(_) => Ok(Seen::Stamped(stamp)),
        Err(fault) => Err(fault),
    }
}

/// A step that makes a correction, at its site, which has this number.
fn correct_at(
    site: &mut WholeSite,
    version: Version,
    number: u16,
    target: Target,
    tag: u32,
    value: Octets,
) -> Result<Seen, WorldFault>
    ensures { IsTold site.old (told_of_correcting version site.old
        (made_at number site.old target tag value)) result site.new }
{
    let top = site.top_counter();
    let stamp = Stamp {
        counter: top.saturating_add(1),
        site: number,
    };
    let Ok(made) = correction_of(target, tag, value, stamp) else {
        return Err(WorldFault::BadCorrection);
    };
    if top == u64::MAX {
        return Err(WorldFault::StampsSpent);
    }
    stamp_at(site, version, stamp, Op::Correction(made))
}

/// A step that gets, at its site.
fn get_at(
    alloc: Global,
    site: &WholeSite,
    view: View,
    selection: &Selection,
    accepts: &Accepts,
) -> Result<Seen, WorldFault>
    ensures { IsTold site.now
        (told_of_getting site.now view selection.now accepts.now) result site.now }
{
    let sendings = get(alloc, site, view, selection, accepts)?;
    Ok(Seen::Sent(ListOf::of(sendings)))
}

/// Sends operations, a message each, and writes down the numbers of the messages. There is room.
fn put_gives(sent: &mut Vec<Message>, numbers: &mut Vec<u64>, from: usize, to: usize, ops: Vec<Op>)
    requires room { vec_len sent.old + length ops.items ≤ vec_capacity sent.old }
    requires places { vec_len numbers.old + length ops.items ≤ vec_capacity numbers.old }
    ensures sent { sent.new.items ≡ sent.old.items ++ gives from to ops.items }
    ensures numbers { numbers.new.items
        ≡ numbers.old.items ++ numbers_behind sent.old.items (length ops.items) }
{
    for op in ops {
        sent.push_reserved(Message {
            from,
            to,
            says: Says::Give(op),
        });
        numbers.push_reserved(sent.len() as u64);
    }
}

impl World {
    /// A world of so many sites, which hold nothing.
    pub fn new(alloc: Global, sites: usize) -> Result<World, WorldFault>
        ensures empty { IfOk result (λ world. world ≡ new_world (replicate sites finmap.empty)) }
        ensures no_site { IsErrOf result WorldFault.NoSite ↔ (16 < sites) }
        ensures memory { sites ≤ 16 → IfErr result (λ fault. fault ≡ WorldFault.Memory) }
    {
        if sites > MOST_SITES {
            return Err(WorldFault::NoSite);
        }
        let mut made = Vec::with_capacity(alloc, sites)?;
        for _ in 0..sites {
            made.push(WholeSite::new(alloc))?;
        }
        Ok(World {
            sites: made,
            sent: Vec::new(alloc),
            aged: Vec::new(alloc),
            alloc,
        })
    }

    /// The site of a number, from 1.
    pub fn site(&self, number: usize) -> Option<&WholeSite>
        ensures { option_copied result ≡ site_at self.now.sites number }
    {
        if number == 0 {
            return None;
        }
        self.sites.get(number - 1)
    }

    /// The message of a number, from 1.
    fn message(&self, number: u64) -> Option<&Message>
        ensures { option_copied result ≡ message_at self.now.sent number }
    {
        if number == 0 {
            return None;
        }
        self.sent.get((number - 1) as usize)
    }

    /// What a site knows.
    fn version_at(&self, number: usize) -> Version
        ensures { result ≡ version_at_site self.now.aged number }
    {
        if is_old(self.aged.as_slice(), number) {
            return Version::One;
        }
        Version::Two
    }

    /// What two sites speak with each other.
    fn version_between(&self, a: usize, b: usize) -> Version
        ensures { result ≡ version_between_sites self.now.aged a b }
    {
        if is_old(self.aged.as_slice(), a) {
            return Version::One;
        }
        self.version_at(b)
    }

    /// Hands an operation to the site of a number.
    fn bring(&mut self, number: usize, op: Op) -> Result<Seen, WorldFault>
        ensures { Comes self.old number (on_site WorldFault.NoSite (site_at self.old.sites number)
            (λ m. told_of_taking op (taken_in (version_at_site self.old.aged number) m op)))
            result self.new }
    {
        if number == 0 || number > self.sites.len() {
            return Err(WorldFault::NoSite);
        }
        let version = self.version_at(number);
        take_at(&mut self.sites[number - 1], version, op)
    }

    /// Sends a message, and says its number.
    fn send(&mut self, from: usize, to: usize, says: Says) -> Result<u64, AllocError>
        ensures sent { OnOk result (self.new ≡ with_message self.old (message_of from to says)) }
        ensures number { IfOk result (λ number. number ≡ length self.old.sent + 1) }
        ensures kept { OnErr result (self.new ≡ self.old) }
    {
        self.sent.push(Message { from, to, says })?;
        Ok(self.sent.len() as u64)
    }

    /// Gives operations, a message each.
    fn give(&mut self, from: usize, to: usize, ops: ListOf<Op>) -> Result<Seen, WorldFault>
        ensures { (n : ℕ) → Comes self.old n (told_of_giving self.old.sent from to ops) result
            self.new }
    {
        let ops = ops.into_vec();
        let mut numbers = Vec::with_capacity(self.alloc, ops.len())?;
        self.sent.reserve(ops.len())?;
        put_gives(&mut self.sent, &mut numbers, from, to, ops);
        Ok(Seen::Gave(ListOf::of(numbers)))
    }

    /// Does what comes of a message, which is from this site and for that.
    fn react(&mut self, from: usize, to: usize, reaction: Reaction) -> Result<Seen, WorldFault>
        ensures { (m : Map) → site_at self.old.sites to ≡ Some m →
            Comes self.old to (told_of_reaction self.old m from to reaction) result self.new }
    {
        match reaction {
            Reaction::Asks(want) => Ok(Seen::Wanted(self.send(to, from, Says::Want(want))?)),
            Reaction::Compares(places) => {
                Ok(Seen::Differs(self.send(to, from, Says::Differ(places))?))
            }
            Reaction::Offers(have) => Ok(Seen::Has(self.send(to, from, Says::Have(have))?)),
            Reaction::Gives(ops) => self.give(to, from, ops),
            Reaction::Takes(op) => self.bring(to, op),
        }
    }

    fn take(&mut self, number: usize, op: &Op) -> Result<Seen, WorldFault>
        ensures { Happens self.old (Step.Take number op.now) result self.new }
    {
        if self.site(number).is_none() {
            return Err(WorldFault::NoSite);
        }
        let op = op.copy(self.alloc)?;
        self.bring(number, op)
    }

    fn correct(
        &mut self,
        number: usize,
        target: &Target,
        tag: u32,
        value: &Octets,
    ) -> Result<Seen, WorldFault>
        ensures { Happens self.old (Step.Correct number target.now tag value.now) result self.new }
    {
        if number == 0 || number > self.sites.len() {
            return Err(WorldFault::NoSite);
        }
        let target = target.copy(self.alloc)?;
        let value = value.copy(self.alloc)?;
        let version = self.version_at(number);
        correct_at(
            &mut self.sites[number - 1],
            version,
            number as u16,
            target,
            tag,
            value,
        )
    }

    fn offer(&mut self, from: usize, to: usize) -> Result<Seen, WorldFault>
        ensures { Happens self.old (Step.Offer from to) result self.new }
    {
        let Some(site) = self.site(from) else {
            return Err(WorldFault::NoSite);
        };
        let Some(_other) = self.site(to) else {
            return Err(WorldFault::NoSite);
        };
        let version = self.version_between(from, to);
        let have = digests_of_whole(self.alloc, version, site)?;
        Ok(Seen::Offered(self.send(from, to, Says::Have(have))?))
    }

    fn buckets(&mut self, from: usize, to: usize) -> Result<Seen, WorldFault>
        ensures { Happens self.old (Step.Buckets from to) result self.new }
    {
        let Some(site) = self.site(from) else {
            return Err(WorldFault::NoSite);
        };
        let Some(_other) = self.site(to) else {
            return Err(WorldFault::NoSite);
        };
        let version = self.version_between(from, to);
        let buckets = buckets_of_whole(self.alloc, version, site)?;
        Ok(Seen::Offered(self.send(from, to, Says::Buckets(buckets))?))
    }

    /// What comes of a message at its site.
    fn comes_of(&self, message: &Message, site: &WholeSite) -> Result<Reaction, AllocError>
        ensures { IfOk result (λ did. did ≡ reaction_to (version_between_sites self.now.aged
            message.now.from message.now.to) site.now message.now.says) }
    {
        let version = self.version_between(message.from, message.to);
        comes_of(self.alloc, version, site, &message.says)
    }

    fn deliver(&mut self, number: u64) -> Result<Seen, WorldFault>
        ensures { Happens self.old (Step.Deliver number) result self.new }
    {
        let Some(message) = self.message(number) else {
            return Err(WorldFault::NoMessage);
        };
        let (from, to) = (message.from, message.to);
        let Some(site) = self.site(to) else {
            return Err(WorldFault::NoMessage);
        };
        let did = self.comes_of(message, site)?;
        self.react(from, to, did)
    }

    fn age(&mut self, number: usize) -> Result<Seen, WorldFault>
        ensures { Happens self.old (Step.Old number) result self.new }
    {
        let Some(site) = self.site(number) else {
            return Err(WorldFault::NoSite);
        };
        if has_begun(self.sent.as_slice(), number, site) {
            return Err(WorldFault::OldSite);
        }
        self.aged.push(number)?;
        Ok(Seen::Aged)
    }

    fn look(&self, number: usize, view: View, query: &Query) -> Result<Seen, WorldFault>
        ensures { Happens self.now (Step.Look number view query.now) result self.now }
    {
        match self.site(number) {
            None => Err(WorldFault::NoSite),
            Some(site) => look_at(self.alloc, site, view, query),
        }
    }

    fn get(
        &self,
        number: usize,
        view: View,
        selection: &Selection,
        accepts: &Accepts,
    ) -> Result<Seen, WorldFault>
        ensures { Happens self.now
            (Step.Get number view selection.now accepts.now) result self.now }
    {
        match self.site(number) {
            None => Err(WorldFault::NoSite),
            Some(site) => get_at(self.alloc, site, view, selection, accepts),
        }
    }

    /// One step. A step that is refused changes nothing.
    pub fn step(&mut self, step: &Step) -> Result<Seen, WorldFault>
        ensures happens { Happens self.old step.now result self.new }
        ensures refused { OnErr result (self.new ≡ self.old) }
    {
        match step {
            Step::Take(number, op) => self.take(*number, op),
            Step::Correct(number, target, tag, value) => self.correct(*number, target, *tag, value),
            Step::Offer(from, to) => self.offer(*from, *to),
            Step::Buckets(from, to) => self.buckets(*from, *to),
            Step::Deliver(number) => self.deliver(*number),
            Step::Old(number) => self.age(*number),
            Step::Look(number, view, query) => self.look(*number, *view, query),
            Step::Get(number, view, selection, accepts) => {
                self.get(*number, *view, selection, accepts)
            }
        }
    }

    /// All of the steps, in order, and what each was answered. It is refused for want of memory for
    /// the list of answers alone, and then nothing was done.
    ///
    /// Each site is then what it held and what was taken at it, GIVEs among it. Every message stays
    /// deliverable.
    ///
    /// The headline: in a new world, two sites at which the same operations were taken, in whatever
    /// order and however often, hold the same, answer every query in every view alike, send the
    /// same of every selection in every view, and have equal indexes.
    pub fn run(&mut self, steps: &[Step]) -> Result<Vec<Result<Seen, WorldFault>>, AllocError>
        ensures outcome { IfOk result (λ answers.
            Outcome self.old steps.now answers.items self.new) }
        ensures headline { IfOk result (λ answers. IsNew self.old →
            Headline steps.now answers.items self.new) }
        ensures refused { OnErr result (self.new ≡ self.old) }
    {
        let mut answers = Vec::with_capacity(self.alloc, steps.len())?;
        for step in steps {
            let answer = self.step(step);
            answers.push_reserved(answer);
        }
        Ok(answers)
    }
}
