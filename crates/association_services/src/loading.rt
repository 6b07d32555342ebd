//! A sub-operation whose content is awaited of the port (PS3.7, section 9.1.3; PS3.4, section
//! C.4.3).

ghost use Rattle.std.specs.Prelude.{◌≡◌, IfOk, All};
ghost use Rattle.pdu.specs.Spelling.{IsPdu};
ghost use Rattle.association_services.specs.Retrieval.{is_as_listed, loaded_for, Brings, pdus_brought};

use crate::reply::PortFault;
use crate::retrieval::{Progress, Retrieval, SubOperation, fail};
use crate::way::Way;
use archive_model::{Listed, Prepared};
use dimse::Fragments;
use octets::Octets;
use operation::Content;
use std::alloc::{AllocError, Global};
use std::collections::VecDeque;
use std::marker::Model;

/// A sub-operation that is begun, and whose content is awaited of the port.
#[derive(Drop)]
pub struct Loading {
    pub progress: Progress,
    pub(crate) listed: Listed,
    /// What is to be sent behind it.
    pub(crate) left: VecDeque<Listed>,
    /// On which context it is sent, and how.
    pub(crate) way: Way,
}

impl Model for Loading {
    ghost use Rattle.std.specs.Prelude.{◌+◌, length};
    ghost use Rattle.association_services.specs.SubOperation.{Loading as Awaiting, IsBound};

    ghost Value = { Awaiting };

    ghost view = { λ l. record {
      progress = l.progress;
      listed = l.listed;
      left = l.left.items;
      way = l.way;
    } };

    ghost invariant = { λ l. IsBound l.progress (length l.left.items + 1) };
}

/// What the port's reply to a load brings.
#[derive(Drop)]
pub enum Brought {
    /// These bring the sub-operation, whose response is awaited.
    Sent(Fragments, SubOperation),
    /// It failed unsent, which these tell, and this is left.
    Unsent(Fragments, Retrieval),
}

/// Whether a content is of the class, the instance and the transfer syntax that were listed.
fn is_listed(listed: &Listed, content: &Content) -> bool
    ensures { result ≡ is_as_listed listed.now content.now }
{
    content.class() == listed.class()
        && content.instance() == listed.instance()
        && content.syntax() == listed.syntax()
}

/// What is sent, where the content that was listed was loaded.
fn loaded(listed: Listed, reply: Result<Content, PortFault>) -> Option<Prepared>
    ensures { result ≡ loaded_for listed reply }
{
    match reply {
        Ok(content) => {
            if is_listed(&listed, &content) {
                return Some(listed.with(content));
            }
            None
        }
        Err(_fault) => None,
    }
}

impl Loading {
    /// Sends the content that the port loaded. Where it brought none, or another than was listed,
    /// the sub-operation fails unsent. Each PDU can be written.
    pub fn bring(
        self,
        alloc: Global,
        reply: Result<Content, PortFault>,
    ) -> Result<Brought, AllocError>
        ensures brought { IfOk result (Brings self reply) }
        ensures lawful { IfOk result (λ brought. All IsPdu (pdus_brought brought)) }
    {
        let Loading {
            progress,
            listed,
            left,
            way,
        } = self;
        let instance = Octets::from_slice(alloc, listed.instance())?;
        let Some(prepared) = loaded(listed, reply) else {
            let (pdus, retrieval) = fail(alloc, progress, instance, left)?;
            return Ok(Brought::Unsent(pdus, retrieval));
        };
        let pdus = progress.bring(alloc, way, &prepared)?;
        let sub = SubOperation {
            progress: progress.send(),
            left,
            instance,
            cancelled: false,
        };
        Ok(Brought::Sent(pdus, sub))
    }
}
