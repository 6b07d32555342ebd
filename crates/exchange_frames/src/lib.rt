//! The frames in which two sites tell each other what they hold, ask for what they lack and give
//! it, read and written.
//!
//! Bytes come in and values go out: nothing here reads a socket. A frame is read in two steps, its
//! header of five bytes and then its body, so that what is too long is refused before any of it is
//! kept. What reads and what writes cite one spelling (docs/DECISIONS.md, "Frames").
#![tactic(auto)]

mod digests;
mod fault;
mod frame;
mod header;
mod laws;
mod numbers;
mod reader;
mod writer;

pub use digests::{Digests, DigestsMut};
pub use fault::FrameFault;
pub use frame::Frame;
pub use header::{FrameHeader, HEADER_LENGTH, LONGEST_BODY, read_frame_header};
pub use laws::a_give_is_a_frame;
pub use numbers::{frames_have_these_kinds, limits_are_these};
pub use reader::{
    BUCKET_COUNT, DIGEST_LENGTH, MOST_DIGESTS, a_text_spells_one_frame, read_frame_body,
};
pub use writer::{FrameText, what_is_written_is_read_again, write_frame};
