//! Whether a site has something of a correction's target.

ghost use Rattle.std.specs.Prelude.{◌≡◌};
ghost use Rattle.site_state.specs.Site.{ops_of};
ghost use Rattle.archive_model.specs.Attributes.{is_target_of};
ghost use Rattle.shelved_site.specs.Corrections.{is_of, is_known as is_known_in};

use archive_model::{patient, series, study};
use operation::Target;
use records::{Parts, RecordedContent, RecordedOp};
use site_state::Site;

/// Whether a content is one of a target.
fn is_content_of(content: &RecordedContent, target: &Target) -> bool
    ensures { result ≡ is_target_of content.now target.now }
{
    match target {
        Target::Study(key) => study(content) == key.as_slice(),
        Target::Patient(key) => patient(content) == key.as_slice(),
        Target::Series(key) => series(content) == key.as_slice(),
    }
}

fn is_of_target(op: &RecordedOp, target: &Target) -> bool
    ensures { result ≡ is_of target.now op.now }
{
    match op.parts() {
        Parts::Content(content) => is_content_of(content, target),
        Parts::Correction(_) => false,
    }
}

/// Whether a site has a content of a target. Its operations are looked at as they stand there.
pub(crate) fn is_known(site: &Site, target: &Target) -> bool
    ensures { result ≡ is_known_in target.now (ops_of site.now) }
{
    site.tree().values().any(|op| is_of_target(op, target))
}
