//! Looks that ask anything of a site.
ghost use Rattle.std.specs.Prelude.{◌≡◌, Err, IfOk, IfErr};
ghost use Rattle.site_state.specs.Site.{Map};
ghost use Rattle.site_hub.specs.Fault.{IsLookFault};
ghost use Rattle.site_hub.specs.History.{set_of};
ghost use Rattle.site_hub.specs.Hub.{HasKept, HasLooked};
ghost use Rattle.site_hub.specs.Refused.{Tells};

use crate::book::HubName;
use crate::fault::HubFault;
use crate::pass::Pass;
use site_state::Site;
use std::alloc::{AllocError, Global};

/// What is asked of a site, and how it is answered.
pub trait Question<X> {
    // What an answer says of a set.
    ghost answers: { Self → Map → X → Type 0 };

    fn answer(&self, alloc: Global, site: &Site) -> Result<X, AllocError>
        ensures { IfOk result (λ answer. answers self.now site.now answer) };
}

impl<H: HubName> Pass<H> {
    /// The answer to a question, in one look.
    pub fn look<X: Drop, Q: Question<X>>(&mut self, question: &Q) -> Result<X, HubFault>
        ensures answered { IfOk result (λ answer.
            Q.answers question.now (set_of H.opening self.new.seen) answer) }
        ensures looked { HasLooked self.old self.new }
        ensures fault { IfErr result IsLookFault }
        ensures busy { result ≡ Err HubFault.Busy → HasKept self.old self.new }
        ensures counted { Tells result self.old.refused self.new.refused }
    {
        let Some(guard) = self.refusals.enter(&mut self.reader) else {
            return Err(HubFault::Busy);
        };
        let front = guard.front();
        if !self.refusals.begins(&self.seen, &front) {
            return Err(HubFault::Busy);
        }
        let answer = question.answer(self.alloc, guard.site());
        drop(guard);
        self.seen = front;
        match answer {
            Ok(answer) => Ok(answer),
            Err(_refused) => Err(HubFault::Memory),
        }
    }
}
