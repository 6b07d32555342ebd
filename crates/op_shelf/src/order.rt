//! The order of operations, by the texts of their digests.

ghost use Rattle.std.specs.Prelude.{◌≡◌, map, IsPermutation, IsSorted};
ghost use Rattle.std.specs.Ordering.{nat_cmp};
ghost use Rattle.std.specs.Cmp.Lexicographic.{slice_cmp};
ghost use Rattle.hex.specs.Hex.{encode_lower};
ghost use Rattle.op_shelf.specs.Entries.{entry_of, own_entry};
ghost use Rattle.op_shelf.specs.States.{digest_cmp};

use operation::Digested;
use records::RecordedOp;
use std::cmp::Ordering;

fn by_bytes(a: &[u8], b: &[u8]) -> Ordering
    ensures { result ≡ slice_cmp nat_cmp a.now b.now }
{
    a.cmp(b)
}

/// The order of the texts of two digests, which is that of their bytes.
fn by_text(a: &[u8], b: &[u8]) -> Ordering
    ensures { result ≡ slice_cmp nat_cmp (encode_lower a.now) (encode_lower b.now) }
{
    by_bytes(a, b)
}

/// The order of the entries of two operations.
fn by_digest(a: &Digested, b: &Digested) -> Ordering
    ensures { result ≡ digest_cmp (entry_of a.now) (entry_of b.now) }
{
    by_text(
        a.digest().as_bytes().as_slice(),
        b.digest().as_bytes().as_slice(),
    )
}

/// The order of the entries of two records, each under its digest.
fn by_record(a: &RecordedOp, b: &RecordedOp) -> Ordering
    ensures { result ≡ digest_cmp (own_entry a.now) (own_entry b.now) }
{
    by_text(
        a.digest().as_bytes().as_slice(),
        b.digest().as_bytes().as_slice(),
    )
}

/// Puts operations in the order of the texts of their digests.
pub(crate) fn put_in_order(ops: &mut Vec<Digested>)
    ensures same { IsPermutation ops.old.items ops.new.items }
    ensures ascending { IsSorted digest_cmp (map entry_of ops.new.items) }
{
    ops.sort_unstable_by(|a, b| by_digest(a, b));
}

/// Puts records in the order of the texts of their digests.
pub(crate) fn put_records_in_order(recorded: &mut Vec<RecordedOp>)
    ensures same { IsPermutation recorded.old.items recorded.new.items }
    ensures ascending { IsSorted digest_cmp (map own_entry recorded.new.items) }
{
    recorded.sort_unstable_by(|a, b| by_record(a, b));
}
