//! The numbers that clauses cite by name, each said once as it is.

ghost use Rattle.std.specs.Prelude.{◌≡◌};
ghost use Rattle.exchange_frames.specs.declared.header.TheConstants.{HEADER_LENGTH, LONGEST_BODY, HAVE, WANT, GIVE};
ghost use Rattle.exchange_frames.specs.declared.header.TheConstants.{END, BUCKETS, DIFFER, HELLO};
ghost use Rattle.exchange_frames.specs.declared.reader.TheConstants.{MOST_DIGESTS, DIGEST_LENGTH, BUCKET_COUNT};
ghost use Rattle.exchange_frames.specs.declared.writer.TheConstants.{MOST_PLACES};

/// The kinds of frames (docs/DECISIONS.md, "Frames").
pub fn frames_have_these_kinds()
    ensures have { HAVE ≡ 0x01 }
    ensures want { WANT ≡ 0x02 }
    ensures give { GIVE ≡ 0x03 }
    ensures end { END ≡ 0x04 }
    ensures buckets { BUCKETS ≡ 0x05 }
    ensures differ { DIFFER ≡ 0x06 }
    ensures hello { HELLO ≡ 0x07 }
{}

/// How long the header and the body of a frame and a digest are, in bytes, and how many digests,
/// buckets and places there are in a frame, the body, digests and places at most.
pub fn limits_are_these()
    ensures header { HEADER_LENGTH ≡ 5 }
    ensures body { LONGEST_BODY ≡ 67109000 }
    ensures digest { DIGEST_LENGTH ≡ 32 }
    ensures digests { MOST_DIGESTS ≡ 1048576 }
    ensures buckets { BUCKET_COUNT ≡ 256 }
    ensures places { MOST_PLACES ≡ 65535 }
{}
