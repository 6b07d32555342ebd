//! Logs and shelves over disks that stop at some call, opened again.
//!
//! All is generic in the disk, and in what keeps operations: only tests name these.

use crate::assertions::holds_at;
use crate::disks::Stops;
use crate::ops::ops;
use crate::stored::{FileShelf, Stored};
use op_log::OpLog;
use operation::Digested;
use sqlite_disk::{Fuse, Memory};
use std::alloc::Global;
use std::rt::HostRuntime;
use std::test::Fail;

/// What a stop may leave of a file: its bytes as the process wrote them, and as a crash leaves
/// them, where these are others.
fn left_of<D: Stops>(alloc: Global, disk: D) -> Result<Vec<Vec<u8>>, Fail> {
    let died = disk.bytes().to_vec(alloc)?;
    let mut disk = disk;
    disk.crash();
    let mut left = Vec::new(alloc);
    if disk.bytes() != died.as_slice() {
        left.push(disk.bytes().to_vec(alloc)?)?;
    }
    left.push(died)?;
    Ok(left)
}

/// Puts operations behind those that are held, in groups of a size, until one is refused: how many
/// are held then, and the files.
fn put_in<D: Stops, S: Stored<D>>(
    alloc: Global,
    files: (D, D),
    ops: &[Digested],
    held: usize,
    size: usize,
) -> Result<(usize, (D, D)), Fail> {
    let mut store = match S::opened(alloc, files)? {
        Ok(store) => store,
        Err(files) => return Ok((held, files)),
    };
    let mut held = held;
    for _ in 0..ops.len() {
        let end = held.saturating_add(size);
        let Some(group) = ops.get(held..end) else {
            break;
        };
        if !store.is_put(group) {
            break;
        }
        held = end;
    }
    Ok((held, store.into_files()))
}

/// Whether these are the first of some operations, in any order.
fn are_first(found: &[Digested], ops: &[Digested]) -> bool {
    let first = ops.get(..found.len()).unwrap_or(&[]);
    found.iter().all(|one| {
        first
            .iter()
            .any(|op| op.digest().as_bytes() == one.digest().as_bytes())
    })
}

/// Whether two files hold what they may where so many operations were held, and a group of a size
/// was not answered: all of that is there or none, and nothing else.
fn may_be<D: Stops, S: Stored<D>>(
    alloc: Global,
    images: (&[u8], &[u8]),
    ops: &[Digested],
    held: usize,
    size: usize,
) -> Result<bool, Fail> {
    let files = (
        D::holding(alloc, images.0, u64::MAX)?,
        D::holding(alloc, images.1, u64::MAX)?,
    );
    let Ok(mut store) = S::opened(alloc, files)? else {
        return Ok(false);
    };
    let found = store.all(alloc)?;
    let many = found.len();
    Ok((many == held || many == held.saturating_add(size)) && are_first(&found, ops))
}

/// Each outcome of both files is well: a crash of either, of both, or the end of the process.
fn is_well<D: Stops, S: Stored<D>>(
    alloc: Global,
    files: (D, D),
    ops: &[Digested],
    held: usize,
    size: usize,
) -> Result<bool, Fail> {
    let (ones, others) = (left_of(alloc, files.0)?, left_of(alloc, files.1)?);
    for one in &ones {
        for other in &others {
            let images = (one.as_slice(), other.as_slice());
            if !may_be::<D, S>(alloc, images, ops, held, size)? {
                return Ok(false);
            }
        }
    }
    Ok(true)
}

/// Stops a disk after each number of calls, until all is put before it stops: each stop is well,
/// and there are some.
fn stops_are_well<D: Stops, S: Stored<D>>(
    alloc: Global,
    start: (&[u8], &[u8]),
    ops: &[Digested],
    held: usize,
    of_first: bool,
) -> Result<(), Fail> {
    for calls in 0..256u64 {
        let (one, other) = if of_first {
            (calls, u64::MAX)
        } else {
            (u64::MAX, calls)
        };
        let files = (
            D::holding(alloc, start.0, one)?,
            D::holding(alloc, start.1, other)?,
        );
        let (many, files) = put_in::<D, S>(alloc, files, ops, held, 3)?;
        holds_at(
            is_well::<D, S>(alloc, files, ops, many, 3)?,
            "well where a disk stops at call",
            calls,
        )?;
        if many == ops.len() {
            return holds_at(calls > 2, "some stops", calls);
        }
    }
    holds_at(
        false,
        "all is put at last, where the first disk stops",
        of_first,
    )
}

/// A group of three operations in new files, and one behind it in those that this made: each stop
/// is well, of either disk.
fn is_safe<D: Stops, S: Stored<D>>(alloc: Global) -> Result<(), Fail> {
    let ops = ops(alloc, b"abcdef")?;
    let first = ops.get(..3).unwrap_or(&[]);
    let files = (
        D::holding(alloc, &[], u64::MAX)?,
        D::holding(alloc, &[], u64::MAX)?,
    );
    let (many, files) = put_in::<D, S>(alloc, files, first, 0, 3)?;
    let start = (files.0.bytes(), files.1.bytes());
    for of_first in [true, false] {
        stops_are_well::<D, S>(alloc, (&[], &[]), first, 0, of_first)?;
        stops_are_well::<D, S>(alloc, start, &ops, many, of_first)?;
    }
    Ok(())
}

// A group that is answered before its sync fails these tests, and so do one that is written in two
// parts, an open that writes to files which it refuses, and a table that is made in two
// transactions.

#[test]
fn a_stop_of_a_log_parts_no_group_and_loses_nothing(rt: HostRuntime) -> Result<(), Fail> {
    is_safe::<Fuse<Memory>, OpLog<Fuse<Memory>, Fuse<Memory>>>(rt.alloc())
}

#[test]
fn a_stop_of_a_shelf_parts_no_group_and_loses_nothing(rt: HostRuntime) -> Result<(), Fail> {
    is_safe::<Fuse<Memory>, FileShelf<Fuse<Memory>>>(rt.alloc())
}
