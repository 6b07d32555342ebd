//! One side's part in a round of frames, in which two sites tell each other what they hold, ask for
//! what they lack and give it.
//!
//! What a site must do for it is `Holder`. The frames are those of `exchange_frames`, whose types
//! and calls are named here too. In a `Round` values come in and values go out.
//!
//! Behind it stands a whole exchange with a peer, from its first frame to its last. What a frame
//! calls for is one table, `specs/Tasks.antt`, and what a side says then it says over a set that
//! its holder has: `specs/Course.antt`. `Side` is that as a machine, to which frames come and which
//! says frames; `run_exchange` reads and writes them, over any reader and writer.
#![tactic(auto)]

mod asked;
mod buckets;
mod fault;
mod hearing;
mod holder;
mod laws;
mod numbers;
mod parts;
mod repeating;
mod role;
mod round;
mod run;
mod run_laws;
mod saying;
mod side;
mod sites;
mod task;
mod version;
mod whole_sites;

pub use buckets::buckets_of;
pub use exchange_frames::{
    Digests, DigestsMut, Frame, FrameFault, FrameHeader, FrameText, HEADER_LENGTH, LONGEST_BODY,
    MOST_DIGESTS, a_give_is_a_frame, a_text_spells_one_frame, frames_have_these_kinds,
    limits_are_these, read_frame_body, read_frame_header, what_is_written_is_read_again,
    write_frame,
};
pub use fault::{ExchangeFault, HolderFault};
pub use holder::Holder;
pub use laws::{
    a_have_tells_what_fits, a_have_that_is_seen_to_have_all_has_it, a_round_by_buckets_gives_all,
    a_round_gives_all, buckets_that_differ_nowhere_are_equal,
    equal_digests_meet_the_premise_of_buckets, exchanges_in_parts_end,
    rounds_each_way_make_sites_equal, what_a_round_says_is_a_frame,
};
pub use numbers::numbers_are_these;
pub use repeating::{MOST_EXCHANGES, repeated_exchanges_end};
pub use role::{Ended, Role};
pub use round::Round;
pub use run::run_exchange;
pub use run_laws::{
    a_side_says_its_frames_in_order, an_exchange_gives_all, an_exchange_makes_holders_equal,
};
pub use sites::{
    buckets_of_site, digests_of_site, digests_of_site_in, held_of_site, missing_of_site,
};
pub use version::Version;
pub use whole_sites::{
    buckets_of_whole, differ_of_whole, digests_of_whole, digests_of_whole_in, missing_of_whole,
    op_of_whole, ops_of_whole,
};
