//! A pass of a running site as a holder.

ghost use Rattle.std.specs.Prelude.{◌≡◌, IfErr, OnErr, MatchResult};
ghost use Rattle.operation.specs.Spelling.{digest_of};
ghost use Rattle.records.specs.StandIn.{op_in};
ghost use Rattle.site_hub.specs.History.{set_of};
ghost use Rattle.site_hub.specs.Hub.{Seat, HasLooked};
ghost use Rattle.exchange.specs.Held.{Looks, TakesIn};
ghost use Rattle.hub_exchange.specs.Fault.{refusal_of, reply_to, RefusesLook, RefusesToPublish, RefusesAtHub};
ghost use Rattle.hub_exchange.specs.Onward.{IsOnward};
ghost use Rattle.hub_exchange.specs.Putting.{WasWritten, IsLent};

use crate::asking::{All, Held, In, Missing, Recorded};
use crate::putting::{AtLending, Put, Shelved, load_over, refusal_of_shelf};
use crate::{Extract, LedgerName};
use association_worker::AtEntry;
use exchange::{Digests, Holder, HolderFault, Version, buckets_of};
use octets::ListOf;
use operation::{Digest, Digested, Op, Taken};
use records::RecordedOp;
use site_hub::{HubFault, HubName, Keeper, Pass, Question, Shows, Told, store};
use std::alloc::Global;
use std::marker::{Model, PhantomData};
use std::sync::{Mutex, Wait};

/// A pass with the keeper that all passes share, the way to the shelf, and what is known of the
/// shelf's ledger. The pass goes on from what it was when its exchange began, and what it takes
/// since stands in the ledger. Contracts see the pass.
pub struct HubHolder<
    'a,
    'b,
    H: HubName,
    T: Shows<H>,
    R: Wait + Drop,
    S: Wait,
    N: LedgerName,
    P,
    E: AtEntry + AtLending<P>,
> {
    rt: &'a S,
    keeper: &'a Mutex<Keeper<H, T, R>>,
    shelf: &'b P,
    pass: Pass<H>,
    extract: Extract<N>,
    of: PhantomData<E>,
}

impl<
    'a,
    'b,
    H: HubName,
    T: Shows<H>,
    R: Wait + Drop,
    S: Wait,
    N: LedgerName,
    P,
    E: AtEntry + AtLending<P>,
> Model for HubHolder<'a, 'b, H, T, R, S, N, P, E> {
    ghost use Rattle.site_hub.specs.Hub.{Seat};
    ghost use Rattle.hub_exchange.specs.Putting.{WasWritten};
    ghost use Rattle.hub_exchange.specs.Onward.{IsServing};

    ghost Value = { Seat };

    ghost view = { λ h. h.pass };

    ghost invariant = { λ h.
        IsServing (WasWritten h.extract) E.seat h.pass E.lent h.shelf.now };
}

/// What a fault of the hub is to a round.
fn of_hub(fault: HubFault) -> HolderFault
    ensures { result ≡ refusal_of fault }
{
    match fault {
        HubFault::Memory | HubFault::Pending => HolderFault::Memory,
        _ => HolderFault::Refused,
    }
}

/// What the answer to a take is to a round.
fn reply<H: HubName>(told: Result<Told<H>, HubFault>) -> Result<Taken, HolderFault>
    ensures { result ≡ reply_to told }
{
    match told {
        Ok(told) => Ok(told.taken()),
        Err(fault) => Err(of_hub(fault)),
    }
}

/// Lets the hub take the record of an operation that the shelf keeps, which publishes it.
fn publish<H: HubName, T: Shows<H>, R: Wait + Drop, S: Wait, N: LedgerName>(
    rt: &S,
    keeper: &Mutex<Keeper<H, T, R>>,
    pass: &mut Pass<H>,
    _op: &Digested,
    recorded: RecordedOp,
    _shelved: &Shelved<N>,
) -> Result<Taken, HolderFault>
    requires stands { recorded ≡ op_in _op.now }
    requires same { digest_of (op_in _op.now) ≡ digest_of _op.now }
    requires shelved { _shelved.now.digest ≡ digest_of _op.now }
    ensures takes { TakesIn (λ (s : Seat). set_of H.opening s.seen) (λ _. ⊥) pass.old _op.now
        result pass.new }
    ensures refused { OnErr result (pass.new.seen ≡ pass.old.seen) }
    ensures why { IfErr result (RefusesToPublish H.opening pass.old pass.new _op.now) }
    ensures onward { IsOnward (WasWritten _shelved.now.extract) pass.old pass.new }
{
    let told = store(rt, keeper, pass, recorded);
    pass.see_history();
    reply(told)
}

/// What a pass answers to a question, of the set that it then has seen.
fn look<H: HubName, X: Drop, Q: Question<X>>(
    pass: &mut Pass<H>,
    question: &Q,
) -> Result<X, HolderFault>
    ensures looks { Looks (λ (s : Seat). set_of H.opening s.seen) (λ _. ⊥) pass.old pass.new
        (λ m. MatchResult result (Q.answers question.now m) (RefusesLook pass.old pass.new)) }
    ensures looked { HasLooked pass.old pass.new }
{
    let answer = pass.look(question);
    pass.see_history();
    match answer {
        Ok(answer) => Ok(answer),
        Err(fault) => Err(of_hub(fault)),
    }
}

impl<
    'a,
    'b,
    H: HubName,
    T: Shows<H>,
    R: Wait + Drop,
    S: Wait,
    N: LedgerName,
    P,
    E: AtEntry + AtLending<P>,
> HubHolder<'a, 'b, H, T, R, S, N, P, E> {
    /// The holder of an exchange that begins with this pass, when this is known of the ledger.
    pub fn new(
        rt: &'a S,
        keeper: &'a Mutex<Keeper<H, T, R>>,
        shelf: &'b P,
        pass: Pass<H>,
        extract: Extract<N>,
    ) -> HubHolder<'a, 'b, H, T, R, S, N, P, E>
        requires entry { pass ≡ E.seat }
        requires lent { IsLent E.lent shelf.now }
        ensures { result ≡ pass }
    {
        HubHolder {
            rt,
            keeper,
            shelf,
            pass,
            extract,
            of: PhantomData,
        }
    }

    /// Gives the pass back, and what is known of the ledger.
    pub fn into_parts(self) -> (Pass<H>, Extract<N>)
        ensures same { result.0 ≡ self.entry }
        ensures onward { IsOnward (WasWritten result.1) E.seat result.0 }
    {
        let HubHolder {
            rt: _,
            keeper: _,
            shelf: _,
            pass,
            extract,
            of: _,
        } = self;
        (pass, extract)
    }
}

/// Others may store meanwhile, so nothing is said of a set that nobody else changes.
impl<
    'a,
    'b,
    H: HubName,
    T: Shows<H>,
    R: Wait + Drop,
    S: Wait,
    N: LedgerName,
    P: Put<N> + Copy,
    E: AtEntry + AtLending<P>,
> Holder for HubHolder<'a, 'b, H, T, R, S, N, P, E> {
    ghost use Rattle.std.specs.Prelude.{◌≡◌};
    ghost use Rattle.hub_exchange.specs.Fault.{RefusesLook, RefusesAtHub, RefusesLoadAtHub};
    ghost use Rattle.hub_exchange.specs.Putting.{IsLent};

    ghost holds = { λ s. set_of H.opening s.seen };

    ghost alone = { λ _. ⊥ };

    ghost refuses_look = { RefusesLook };

    // The shelf refused to put it, or the hub to take it: then the pass has seen nothing more.
    ghost refuses_take = { RefusesAtHub (IsLent E.lent) P.refuses H.opening };

    // Its look was refused, or no operation of the record came over the way to the shelf.
    ghost refuses_load = { RefusesLoadAtHub (IsLent E.lent) P.refuses_load P.has_loaded H.opening };

    fn digests(&mut self, _alloc: Global, version: Version) -> Result<Digests, HolderFault> {
        look(&mut self.pass, &All { version })
    }

    fn digests_in(
        &mut self,
        _alloc: Global,
        version: Version,
        places: &[u8],
    ) -> Result<Digests, HolderFault> {
        look(&mut self.pass, &In { version, places })
    }

    fn buckets(&mut self, alloc: Global, version: Version) -> Result<ListOf<Digest>, HolderFault> {
        // They are hashed behind the look, for whose end a publish waits.
        let digests = look(&mut self.pass, &All { version })?;
        Ok(buckets_of(alloc, &digests)?)
    }

    fn missing(&mut self, _alloc: Global, digests: &Digests) -> Result<Digests, HolderFault> {
        look(&mut self.pass, &Missing { digests })
    }

    fn held(
        &mut self,
        _alloc: Global,
        version: Version,
        digests: &Digests,
    ) -> Result<Digests, HolderFault> {
        look(&mut self.pass, &Held { version, digests })
    }

    fn load(&mut self, alloc: Global, digest: &Digest) -> Result<Option<Op>, HolderFault> {
        let Some(held) = look(&mut self.pass, &Recorded { digest })? else {
            return Ok(None);
        };
        let mut shelf = *self.shelf;
        match load_over(alloc, &mut shelf, digest, &held) {
            Ok(op) => Ok(Some(op)),
            Err(fault) => Err(fault),
        }
    }

    fn take(&mut self, op: Digested) -> Result<Taken, HolderFault>
        ensures takes { TakesIn (λ (s : Seat). set_of H.opening s.seen) (λ _. ⊥) self.old op result
            self.new }
        // What the pass has seen published is told as taken, and what is refused the shelf or the
        // hub refused, or memory for its record.
        ensures refused { OnErr result (self.new.seen ≡ self.old.seen) }
        ensures why { IfErr result
            (RefusesAtHub (IsLent E.lent) P.refuses H.opening self.old self.new op) }
    {
        // Where memory is refused for its record, nothing is put.
        let Ok(recorded) = self.pass.record(&op) else {
            return Err(HolderFault::Memory);
        };
        let mut shelf = *self.shelf;
        match shelf.put(&op) {
            Ok(shelved) => {
                let (rt, keeper) = (self.rt, self.keeper);
                let taken = publish(rt, keeper, &mut self.pass, &op, recorded, &shelved);
                self.extract.learn(&shelved.extract);
                taken
            }
            Err(fault) => Err(refusal_of_shelf(fault)),
        }
    }
}
