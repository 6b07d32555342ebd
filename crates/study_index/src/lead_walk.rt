//! Walks of leads: from where to where, and what the values have in them.

use crate::leads::Lead;
use crate::short_text::ShortText;
use std::marker::Model;

/// The leads from a front on and before an end, of values in which a needle may stand.
pub struct LeadWalk {
    pub front: Lead,
    pub end: Lead,
    /// At most 64 bytes; of none, all values pass.
    pub needle: ShortText,
}

impl Model for LeadWalk {
    ghost use Rattle.study_index.specs.Leads.{LeadWalk};

    ghost Value = { LeadWalk };

    ghost view = { λ w. record { front = w.front; end = w.end; needle = w.needle } };
}

// It is written out, so that a caller does not prove again how each part is dropped.
impl Drop for LeadWalk {
    fn drop(self) {
        let LeadWalk {
            front: _,
            end: _,
            needle: _,
        } = self;
    }
}
