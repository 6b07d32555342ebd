//! Deeds that are not done yet.
//!
//! The PDUs of a message are made when their turn comes, so that a message whose fragments are
//! short takes no more memory than one whose fragments are long.

ghost use Rattle.std.specs.Prelude.{◌≡◌, ◌++◌, ◌∷◌, [], IfOk, OnOk, OnErr, None, Ok, option_to_list, map};
ghost use Rattle.std.specs.List.{list_any};
ghost use Rattle.association_session.specs.inner.Deeds.{abort_in_outgoing, release_in_outgoing};
ghost use Rattle.association_session.specs.Session.{is_abort as is_abort_deed, is_release as is_release_deed};
ghost use Rattle.association_session.specs.declared.deed.Deed.TheVariants.{Send};

use crate::deed::Deed;
use dimse::Fragments;
use pdu::Pdu;
use std::alloc::{AllocError, Global};
use std::collections::VecDeque;
use std::marker::Model;

/// One deed or more, one after another.
#[derive(Drop)]
enum Outgoing {
    One(Deed),
    /// The deeds that send these PDUs.
    Message(Fragments),
}

/// Deeds that are still to be done, in order.
pub struct Deeds {
    /// What is left to be sent of a message, before all else.
    sending: Fragments,
    outgoing: VecDeque<Outgoing>,
}

// It is written out, so that a caller does not prove again how each part is dropped.
impl Drop for Deeds {
    fn drop(self) {
        let Deeds {
            sending: _,
            outgoing: _,
        } = self;
    }
}

impl Model for Deeds {
    ghost use Rattle.std.specs.Prelude.{List, map, ◌++◌};
    ghost use Rattle.std.specs.Coded.{coded_list};
    ghost use Rattle.association_session.specs.contracts.deed.Deed as deed;
    ghost use Rattle.association_session.specs.declared.deed.Deed.{Deed as Done};
    ghost use Rattle.association_session.specs.declared.deed.Deed.TheVariants.{Send};
    ghost use Rattle.association_session.specs.inner.Deeds.{deeds_in};

    ghost Value = { List Done };

    ghost coded = { coded_list deed.the_row.coded };

    ghost view = { λ d. map Send d.sending ++ deeds_in d.outgoing.items };
}

fn is_abort(deed: &Deed) -> bool
    ensures { result ≡ is_abort_deed deed.now }
{
    matches!(deed, Deed::Send(Pdu::Abort { .. }))
}

fn is_release(deed: &Deed) -> bool
    ensures { result ≡ is_release_deed deed.now }
{
    matches!(deed, Deed::Send(Pdu::ReleaseRp))
}

/// Whether an A-ABORT is sent. No fragment is one.
fn aborts(outgoing: &Outgoing) -> bool
    ensures { result ≡ abort_in_outgoing outgoing.now }
{
    match outgoing {
        Outgoing::One(deed) => is_abort(deed),
        Outgoing::Message(pdus) => {
            pdus.see_data();
            false
        }
    }
}

/// Whether an A-RELEASE-RP is sent. No fragment is one.
fn releases(outgoing: &Outgoing) -> bool
    ensures { result ≡ release_in_outgoing outgoing.now }
{
    match outgoing {
        Outgoing::One(deed) => is_release(deed),
        Outgoing::Message(pdus) => {
            pdus.see_data();
            false
        }
    }
}

fn is_abort_in(outgoing: &VecDeque<Outgoing>) -> bool
    ensures { result ≡ list_any abort_in_outgoing outgoing.now.items }
{
    outgoing.iter().any(|one| aborts(one))
}

fn is_release_in(outgoing: &VecDeque<Outgoing>) -> bool
    ensures { result ≡ list_any release_in_outgoing outgoing.now.items }
{
    outgoing.iter().any(|one| releases(one))
}

impl Deeds {
    /// No deeds. It takes no memory.
    pub(crate) fn new(alloc: Global) -> Deeds
        ensures { result ≡ [] }
    {
        Deeds {
            sending: Fragments::none(alloc),
            outgoing: VecDeque::new(alloc),
        }
    }

    /// Puts a deed at the end.
    pub(crate) fn push(&mut self, deed: Deed) -> Result<(), AllocError>
        ensures pushed { OnOk result (self.new ≡ self.old ++ deed ∷ []) }
    {
        self.outgoing.push_back(Outgoing::One(deed))?;
        Ok(())
    }

    /// Puts the deeds that send these PDUs at the end.
    pub(crate) fn put_sends(&mut self, pdus: Fragments) -> Result<(), AllocError>
        ensures { OnOk result (self.new ≡ self.old ++ map Send pdus) }
    {
        self.outgoing.push_back(Outgoing::Message(pdus))?;
        Ok(())
    }

    /// Takes the next deed. Where it sends a PDU of a message, that is made now. A refusal changes
    /// nothing.
    pub fn next(&mut self) -> Result<Option<Deed>, AllocError>
        ensures parts { IfOk result (λ deed. self.old ≡ option_to_list deed ++ self.new) }
        ensures none { result ≡ Ok None → self.old ≡ [] }
        ensures kept { OnErr result (self.new ≡ self.old) }
    {
        loop {
            if let Some(pdu) = self.sending.next()? {
                return Ok(Some(Deed::Send(pdu)));
            }
            match self.outgoing.pop_front() {
                None => return Ok(None),
                Some(Outgoing::One(deed)) => return Ok(Some(deed)),
                Some(Outgoing::Message(pdus)) => self.sending = pdus,
            }
        }
    }

    /// Whether an A-ABORT is sent.
    pub(crate) fn has_abort(&self) -> bool
        ensures { result ≡ list_any is_abort_deed self.now }
    {
        self.sending.see_data();
        is_abort_in(&self.outgoing)
    }

    /// Whether an A-RELEASE-RP is sent.
    pub(crate) fn has_release(&self) -> bool
        ensures { result ≡ list_any is_release_deed self.now }
    {
        self.sending.see_data();
        is_release_in(&self.outgoing)
    }
}
