//! A whole exchange.

ghost use Rattle.std.specs.Prelude.{◌≡◌, ◌<◌, ◌^◌, ◌-◌, ℕ, List, Option, IfOk, IfErr, IsErrOf, OnOk};
ghost use Rattle.exchange.specs.declared.role.Role.{Role};
ghost use Rattle.exchange.specs.Course.{start_of};
ghost use Rattle.exchange.specs.Run.{Ends, ends, Exchanged, EndsEarly, Progress, Turned, WasRefused};

use crate::fault::ExchangeFault;
use crate::hearing::hear;
use crate::holder::Holder;
use crate::role::{Ended, Role};
use crate::saying::say;
use crate::side::Side;
use devices::{Sink, Source};
use std::alloc::Global;

/// The most reads of an exchange.
const MOST_READS: u64 = 4_294_967_296;

/// Says what is said before anything is heard.
fn set_out<W: Sink, H: Holder>(
    alloc: Global,
    side: &mut Side,
    writer: &mut W,
    holder: &mut H,
) -> Result<(), ExchangeFault>
    requires { side.old ≡ start_of side.old.role }
    ensures ok { OnOk result ((left : Option (List ℕ)) (failed : ℕ) → Progress H.holds H.alone
        H.refuses_load side.old.role
        (ends holder.old left (W.contents writer.old) failed (W.failures writer.old))
        (ends holder.new left (W.contents writer.new) failed (W.failures writer.new))
        side.new MOST_READS 0) }
    ensures err { IfErr result (λ fault. (left : Option (List ℕ)) (failed : ℕ) → EndsEarly H.holds
        H.alone H.refuses_load side.old.role
        (ends holder.old left (W.contents writer.old) failed (W.failures writer.old))
        (ends holder.new left (W.contents writer.new) failed (W.failures writer.new)) fault) }
    ensures refused { IsErrOf result ExchangeFault.Refused → WasRefused H.holds H.alone
        H.refuses_look H.refuses_take H.refuses_load holder.new }
{
    let said = side.set_out(alloc, holder)?;
    let unread = say(alloc, writer, holder, said)?;
    side.pass_over(unread);
    Ok(())
}

/// One turn: a frame is heard, and what it calls for is said.
fn take_turn<R: Source, W: Sink, H: Holder>(
    alloc: Global,
    side: &mut Side,
    reader: &mut R,
    reads: &mut u64,
    writer: &mut W,
    holder: &mut H,
) -> Result<(), ExchangeFault>
    requires { side.old.taken < 2 ^ 64 - 1 }
    ensures turn { (role : Role) (from : Ends _) (n : ℕ) → Progress H.holds H.alone
        H.refuses_load role from
        (ends holder.old (R.remaining reader.old) (W.contents writer.old)
        (R.failures reader.old) (W.failures writer.old)) side.old reads.old n
        → Turned H.holds H.alone H.refuses_load role from
        (ends holder.new (R.remaining reader.new) (W.contents writer.new)
        (R.failures reader.new) (W.failures writer.new)) side.new reads.new n result }
    ensures refused { IsErrOf result ExchangeFault.Refused → WasRefused H.holds H.alone
        H.refuses_look H.refuses_take H.refuses_load holder.new }
{
    let frame = hear(alloc, reader, reads)?;
    let said = side.on(alloc, holder, frame)?;
    let unread = say(alloc, writer, holder, said)?;
    side.pass_over(unread);
    Ok(())
}

/// Takes part in an exchange: offers what the holder has, and asks for what it lacks and takes it,
/// in the order of its role.
///
/// `BadFrame` is told of a stream that ends too soon, of bytes that are no frame, and of a frame
/// out of its turn; `TooLong` of a frame that is longer than is read or written; `Stranger` of an
/// operation that was not asked for; `Turns` after 4,294,967,296 reads. What was taken before a
/// fault stays. An operation that is given is loaded as its GIVE is written. One that is held and
/// can't be read is passed over and counted, and all others are given; a holder that refuses to
/// load one for another cause ends the exchange behind the GIVEs before it.
pub fn run_exchange<R: Source, W: Sink, H: Holder>(
    alloc: Global,
    role: Role,
    reader: &mut R,
    writer: &mut W,
    holder: &mut H,
) -> Result<Ended, ExchangeFault>
    ensures ok { IfOk result (Exchanged H.holds H.alone H.refuses_load role
        (ends holder.old (R.remaining reader.old) (W.contents writer.old)
        (R.failures reader.old) (W.failures writer.old))
        (ends holder.new (R.remaining reader.new) (W.contents writer.new)
        (R.failures reader.new) (W.failures writer.new))) }
    ensures err { IfErr result (EndsEarly H.holds H.alone H.refuses_load role
        (ends holder.old (R.remaining reader.old) (W.contents writer.old)
        (R.failures reader.old) (W.failures writer.old))
        (ends holder.new (R.remaining reader.new) (W.contents writer.new)
        (R.failures reader.new) (W.failures writer.new))) }
    ensures refused { IsErrOf result ExchangeFault.Refused → WasRefused H.holds H.alone
        H.refuses_look H.refuses_take H.refuses_load holder.new }
{
    let mut side = Side::new(alloc, role);
    let mut reads = MOST_READS;
    if let Err(fault) = set_out(alloc, &mut side, writer, holder) {
        return Err(fault);
    }
    for _ in 0..MOST_READS {
        if side.is_over() {
            return Ok(side.ended());
        }
        if let Err(fault) = take_turn(alloc, &mut side, reader, &mut reads, writer, holder) {
            return Err(fault);
        }
    }
    Err(ExchangeFault::Turns)
}
