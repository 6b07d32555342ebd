//! The keeper behind a lock.
ghost use Rattle.std.specs.Prelude.{◌≡◌, ◌↔◌, Err, IfOk, IfErr, false};
ghost use Rattle.operation.specs.declared.op.Op.TheVariants.{Correction as a_correction};
ghost use Rattle.site_hub.specs.Stamps.{may_be_made, IsMade};
ghost use Rattle.site_hub.specs.Taking.{GoesOn, Takes, Refuses, RefusesCorrection};

use crate::book::HubName;
use crate::fault::HubFault;
use crate::keeper::Keeper;
use crate::pair::Shows;
use crate::pass::Pass;
use crate::told::Told;
use octets::Octets;
use operation::{Correction, Target};
use records::RecordedOp;
use std::sync::{Mutex, Wait};

/// Takes an operation for a pass, in any thread. Nothing is hashed.
pub fn store<H: HubName, T: Shows<H>, R: Wait + Drop>(
    rt: &impl Wait,
    keeper: &Mutex<Keeper<H, T, R>>,
    pass: &mut Pass<H>,
    op: RecordedOp,
) -> Result<Told<H>, HubFault>
    ensures takes { IfOk result (λ told. Takes H.opening pass.old op told pass.new) }
    ensures refuses { IfErr result (Refuses H.opening pass.old op pass.new) }
    ensures goes_on { GoesOn pass.old pass.new result }
{
    keeper.lock(rt).take(pass, op)
}

/// Makes a correction for a pass, in any thread. Its counter is known under the lock alone, so it
/// is hashed there.
#[tactic(auto, using(crate::proofs::Stamping::bad_is))]
pub fn correct<H: HubName, T: Shows<H>, R: Wait + Drop>(
    rt: &impl Wait,
    keeper: &Mutex<Keeper<H, T, R>>,
    pass: &mut Pass<H>,
    target: Target,
    tag: u32,
    value: Octets,
) -> Result<(Correction, Told<H>), HubFault>
    ensures made { IfOk result (λ both.
        IsMade H.number H.opening pass.old target tag value both.0 pass.new) }
    ensures takes { IfOk result (λ both.
        Takes H.opening pass.old (a_correction both.0) both.1 pass.new) }

    // That a part is bad is told first.
    ensures bad_correction { (result ≡ Err HubFault.BadCorrection) ↔
        (may_be_made H.number target tag value ≡ false) }
    ensures refuses { IfErr result
        (RefusesCorrection H.number H.opening pass.old target tag value pass.new) }
    ensures goes_on { GoesOn pass.old pass.new result }
{
    keeper.lock(rt).correct(pass, target, tag, value)
}
