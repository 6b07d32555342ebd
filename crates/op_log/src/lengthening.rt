//! Lengthens a file of data sets that ends before its heads lead, as a copy leaves it that is not
//! done, or a file system that cut it.
//!
//! What is behind the old end reads as none of the operations that lie there: these can't be read
//! until they are put again. No byte that the file has is written.

ghost use Rattle.std.specs.Prelude.{◌≡◌, ◌≤◌, ◌^◌, ◌-◌, ℕ, All, length, max, IfOk, IsTrue, OnOk};
ghost use Rattle.body_log.specs.Lasts.{Spares};
ghost use Rattle.op_log.specs.Heads.{Head};
ghost use Rattle.op_log.specs.Kept.{IsBelow, KeepsHeads};

use crate::fault::LogFault;
use crate::places::Places;
use crate::walking::walk;
use head_log::HeadLog;
use sqlite_disk::Disk;
use std::alloc::Global;
use std::io;

/// Where the last data set ends that heads lead to.
fn reach_of(places: &Places) -> usize
    ensures below { All (IsBelow (2 ^ 64 - 1)) places.now → All (IsBelow result) places.now }
    // No data set ends behind it: what all end before, it is at most.
    ensures least { (end : ℕ) → All (IsBelow end) places.now → result ≤ end }
{
    let mut reach = 0;
    for index in 0..places.len() {
        if let Some((_digest, place)) = places.at(index) {
            reach = reach.max(place.at.saturating_add(place.size));
        }
    }
    reach
}

/// Lengthens a file to so many bytes, where it has fewer.
fn lengthen<B: Disk>(bodies: &mut B, reach: usize) -> io::Result<()>
    requires usable { IsTrue (B.Disk.is_usable bodies.old) }
    // Whatever is answered, no byte that it has is written.
    ensures spared { IsTrue (B.Disk.is_clean bodies.new)
        → Spares B.Disk (length (B.Disk.seen bodies.old)) bodies.old bodies.new }
    ensures long { OnOk result (IsTrue (B.Disk.is_clean bodies.new)
        → length (B.Disk.seen bodies.new) ≡ max (length (B.Disk.seen bodies.old)) reach) }
    ensures usable { IsTrue (B.Disk.is_usable bodies.new) }
{
    if reach <= bodies.len()? {
        return Ok(());
    }
    bodies.set_len(reach)
}

/// The heads of a log, which are only read, and where the last data set ends that they lead to.
pub(crate) fn reached<H: Disk + Drop>(alloc: Global, heads: H) -> Result<(H, usize), LogFault>
    ensures kept { IfOk result (λ them. IsTrue (H.Disk.is_clean them.0)
        → KeepsHeads H.Disk heads them.0) }
    ensures usable { IfOk result (λ them. IsTrue (H.Disk.is_usable them.0)) }
{
    if !heads.may_be_used() {
        return Err(LogFault::Disk);
    }
    let mut heads = match HeadLog::over(alloc, heads) {
        Ok(heads) => heads,
        Err(refused) => return Err(LogFault::from(refused.fault)),
    };
    let places = walk(alloc, &mut heads, usize::MAX)?;
    Ok((heads.into_disk(), reach_of(&places)))
}

/// A file of data sets, which is lengthened to where heads lead if it ends before that. What was
/// told of operations that it may lack is forgotten before.
pub(crate) fn lengthened<B: Disk + Drop>(bodies: B, reach: usize) -> Result<B, LogFault>
    ensures spared { IfOk result (λ now. IsTrue (B.Disk.is_clean now)
        → Spares B.Disk (length (B.Disk.seen bodies)) bodies now) }
    ensures long { IfOk result (λ now. IsTrue (B.Disk.is_clean now)
        → length (B.Disk.seen now) ≡ max (length (B.Disk.seen bodies)) reach) }
    ensures usable { IfOk result (λ now. IsTrue (B.Disk.is_usable now)) }
{
    if !bodies.may_be_used() {
        return Err(LogFault::Disk);
    }
    let mut bodies = bodies;
    match lengthen(&mut bodies, reach) {
        Ok(()) => Ok(bodies),
        Err(_error) => Err(LogFault::Disk),
    }
}
