//! What a C-ECHO is answered (PS3.7, section 9.1.5; PS3.4, annex A).

ghost use Rattle.std.specs.Prelude.{◌≡◌};
ghost use Rattle.association_services.specs.Echo.{is_verification, echo_status};

use crate::context::is_of_other_class;
use dictionary::VERIFICATION;
use dimse::{Command, Status};
use pdu::Context;

fn is_for_verification(context: &Context) -> bool
    ensures { result ≡ is_verification context.now }
{
    context.abstract_syntax.as_slice() == VERIFICATION.as_slice()
}

/// The status of a C-ECHO.
#[tactic(auto, unfolding(crate::specs::Echo::echo_status))]
pub(crate) fn status_of_echo(context: &Context, command: &Command) -> Status
    ensures { result ≡ echo_status context.now command.now }
{
    if is_of_other_class(context, &command.affected_class) {
        return Status::SopClassNotSupported;
    }
    if is_for_verification(context) {
        return Status::Success;
    }
    Status::UnrecognizedOperation
}
