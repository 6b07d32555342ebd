//! A whole exchange of a site on a shelf.

ghost use Rattle.std.specs.Prelude.{◌≡◌, IfOk, IfErr, ⊤};
ghost use Rattle.exchange.specs.Run.{ends, Exchanged, EndsEarly};
ghost use Rattle.operation.specs.declared.op.Op.{Op as Operation};
ghost use Rattle.hub_exchange.specs.Putting.{HaveGoneOn, RefusesLoadSince};

use crate::shelf_holder::{AtOpening, ShelvedHolder};
use devices::{Sink, Source};
use exchange::{Ended, ExchangeFault, Role, run_exchange};
use op_shelf::Keep;
use site_state::Site;
use std::alloc::Global;
use std::marker::Brand;

/// What an exchange leaves: the site and its shelf, and how it ended.
#[derive(Drop)]
pub struct Behind<K: Keep + Drop> {
    pub site: Site,
    pub shelf: K,
    pub ended: Result<Ended, ExchangeFault>,
}

/// Takes part in an exchange with the site that the caller named.
fn exchange_with<E: AtOpening, K: Keep + Drop, R: Source, W: Sink>(
    alloc: Global,
    role: Role,
    reader: &mut R,
    writer: &mut W,
    site: Site,
    shelf: K,
) -> Behind<K>
    requires opening { site ≡ E.opening }
    requires lasted { (op : Operation) → E.lasted op → K.lasts shelf op }
    ensures gone_on { HaveGoneOn K.is_up K.lasts E.lasted E.opening result.site result.shelf }
    ensures ok { IfOk result.ended (Exchanged (λ s. s) (λ _. ⊤)
        (RefusesLoadSince K.is_up K.holds K.lasts K.refuses_load E.lasted E.opening) role
        (ends site (R.remaining reader.old) (W.contents writer.old)
        (R.failures reader.old) (W.failures writer.old))
        (ends result.site (R.remaining reader.new) (W.contents writer.new)
        (R.failures reader.new) (W.failures writer.new))) }
    ensures err { IfErr result.ended (EndsEarly (λ s. s) (λ _. ⊤)
        (RefusesLoadSince K.is_up K.holds K.lasts K.refuses_load E.lasted E.opening) role
        (ends site (R.remaining reader.old) (W.contents writer.old)
        (R.failures reader.old) (W.failures writer.old))
        (ends result.site (R.remaining reader.new) (W.contents writer.new)
        (R.failures reader.new) (W.failures writer.new))) }
{
    let mut holder = ShelvedHolder::<K, E>::new(alloc, site, shelf);
    let ended = run_exchange(alloc, role, reader, writer, &mut holder);
    let (site, shelf) = holder.into_parts();
    Behind { site, shelf, ended }
}

/// Takes part in an exchange with a site whose operations stand on a shelf, and gives both back.
///
/// The faults are those of `run_exchange`: `Refused` where the shelf refused for another cause than
/// memory, or where the site holds another under an equal digest. What the shelf can't read, or of
/// which it has no operation of the record that the site holds, is passed over and counted.
pub fn exchange_on<K: Keep + Drop, R: Source, W: Sink>(
    alloc: Global,
    role: Role,
    reader: &mut R,
    writer: &mut W,
    site: Site,
    shelf: K,
) -> Behind<K>
    // What the site gains lasts on this shelf, with what lasted there before, also where the
    // exchange was broken off.
    ensures gone_on { HaveGoneOn K.is_up K.lasts (K.lasts shelf) site result.site result.shelf }

    // What was said and heard, and what it comes to.
    ensures ok { IfOk result.ended (Exchanged (λ s. s) (λ _. ⊤)
        (RefusesLoadSince K.is_up K.holds K.lasts K.refuses_load (K.lasts shelf) site) role
        (ends site (R.remaining reader.old) (W.contents writer.old)
        (R.failures reader.old) (W.failures writer.old))
        (ends result.site (R.remaining reader.new) (W.contents writer.new)
        (R.failures reader.new) (W.failures writer.new))) }
    ensures err { IfErr result.ended (EndsEarly (λ s. s) (λ _. ⊤)
        (RefusesLoadSince K.is_up K.holds K.lasts K.refuses_load (K.lasts shelf) site) role
        (ends site (R.remaining reader.old) (W.contents writer.old)
        (R.failures reader.old) (W.failures writer.old))
        (ends result.site (R.remaining reader.new) (W.contents writer.new)
        (R.failures reader.new) (W.failures writer.new))) }
{
    exchange_with::<Brand, K, R, W>(alloc, role, reader, writer, site, shelf)
}
