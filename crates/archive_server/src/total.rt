//! What was served so far, as one thread after another comes back.

ghost use Rattle.std.specs.Prelude.{◌≡◌, ◌+◌, ◌++◌, ◌∷◌, ◌<◌, [], min, vec_len, vec_capacity};
ghost use Rattle.std.specs.Option.{option_or};
ghost use mathlib.Core.List.{IsPrefix};

use crate::done::Done;
use crate::fault::ServeFault;
use hub_exchange::{Ledger, LedgerName};
use site_hub::{HubName, Pass};

/// What was served, so far.
#[derive(Clone, Copy)]
pub(crate) struct Total {
    pub accepted: u64,
    pub fault: Option<ServeFault>,
}

/// The faults come by job, and of one job in its own order.
fn with_job(before: Total, accepted: u64, fault: Option<ServeFault>) -> Total
    ensures accepted { result.accepted ≡ min (before.accepted + accepted) 18446744073709551615 }
    ensures fault { result.fault ≡ option_or before.fault fault }
{
    Total {
        accepted: before.accepted.saturating_add(accepted),
        fault: before.fault.or(fault),
    }
}

/// What was served, and what one thread more came back with: its pass stands behind the others
/// again, and what it knows was compared with the ledger.
pub(crate) fn with_done<H: HubName, N: LedgerName>(
    before: Total,
    done: Done<H, N>,
    ledger: &mut Ledger<N>,
    passes: &mut Vec<Pass<H>>,
) -> Total
    requires room { vec_len passes.old < vec_capacity passes.old }
    ensures same { ledger.new ≡ ledger.old }
    ensures begins { IsPrefix done.clerk.known ledger.new }
    ensures passes { passes.new.items ≡ passes.old.items ++ done.clerk.pass ∷ [] }
    ensures accepted { result.accepted
        ≡ min (before.accepted + done.accepted) 18446744073709551615 }
    ensures fault { result.fault ≡ option_or before.fault done.fault }
    ensures len { vec_len passes.new ≡ vec_len passes.old + 1 }
    ensures capacity { vec_capacity passes.new ≡ vec_capacity passes.old }
{
    let (clerk, accepted, fault) = done.into_parts();
    let (pass, extract) = clerk.into_parts();
    ledger.compare(&extract);
    passes.push_reserved(pass);
    with_job(before, accepted, fault)
}
