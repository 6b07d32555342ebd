//! What a record says of its operation: laws, said as contracts of functions with nothing to do.

ghost use Rattle.operation.specs.RecordLaws.{DigestsAreHashes, RecordsHaveDigests, OneRecordIsOfOne};

/// A record has the digest of its operation. Two operations of one record are one, unless they are
/// two of one digest.
pub fn a_record_names_one_operation()
    ensures digest { RecordsHaveDigests }
    ensures one { OneRecordIsOfOne }
{}

/// A content has its digest among its parts: it is the SHA-256 of its spelling (FIPS 180-4).
pub fn a_digest_is_a_hash()
    ensures { DigestsAreHashes }
{}
