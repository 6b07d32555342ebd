//! Why a request is refused (PS3.8, section 9.3.4).

ghost use Rattle.std.specs.Prelude.{◌≡◌};
ghost use Rattle.ul_state.specs.Admission.{is_version_one, is_known_context, is_too_short, refused, admitted};
ghost use Rattle.ul_state.specs.Titles.{title_of, without_spaces};

use crate::titles::{Titles, trimmed};
use dictionary::APPLICATION_CONTEXT_NAME;
use pdu::{Reject, Request};

/// A PDV takes six bytes beside its fragment, and a fragment of even length two or more.
pub(crate) const LEAST_MAXIMUM: u32 = 8;

fn has_version_one(version: u16) -> bool
    ensures { result ≡ is_version_one version }
{
    version % 2 == 1
}

/// Whether it is the DICOM application context name (PS3.7, annex A).
#[tactic(auto, unfolding(crate::specs::Admission::is_known_context))]
fn has_known_context(name: &[u8]) -> bool
    ensures { result ≡ is_known_context name.now }
{
    name == APPLICATION_CONTEXT_NAME.as_slice()
}

// No limit is said by 0 (PS3.8, section D.1).
fn is_too_short_a_maximum(maximum: u32) -> bool
    ensures { result ≡ is_too_short maximum }
{
    maximum != 0 && maximum < LEAST_MAXIMUM
}

/// What the called title stands for, or the first refusal that holds.
pub(crate) fn admit<V: Copy>(request: &Request, titles: &Titles<V>) -> Result<V, Reject>
    ensures { result ≡ admitted request.now
        (title_of titles.now.list (without_spaces request.now.opening.called)) }
{
    if !has_version_one(request.opening.version) {
        return Err(refusal(2, 2));
    }
    if !has_known_context(request.application_context.as_slice()) {
        return Err(refusal(1, 2));
    }
    let Some(title) = titles.find(trimmed(&request.opening.called)) else {
        return Err(refusal(1, 7));
    };
    if !title.takes(trimmed(&request.opening.calling)) {
        return Err(refusal(1, 3));
    }
    if is_too_short_a_maximum(request.user.maximum_length) {
        return Err(refusal(1, 1));
    }
    Ok(title.value)
}

// 1 is a permanent refusal.
fn refusal(source: u8, reason: u8) -> Reject
    ensures { result ≡ refused source reason }
{
    Reject {
        result: 1,
        source,
        reason,
    }
}
