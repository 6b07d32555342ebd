//! A server of one running site: associations over TCP, with a shelf (PS3.8, section 9.1).
//!
//! Each worker has a thread, a gate and a pass of the hub, and serves associations that it accepts
//! on a listener that all share. The thread that calls keeps the shelf. A content that an
//! association stores is put on the shelf, then its record is taken by the hub, then it is
//! answered; and so is what a peer gives in an exchange: for those that peers call there is a
//! listener, and some threads with a pass each, and for each peer that the server calls again and
//! again a thread and a pass. What is sent or given is read from the shelf, hashed by who asks for
//! it, and is of a record that is held; what was stored or loaded last is remembered, and what a
//! C-GET asks for next is hashed ahead, by threads that do nothing else. Pages of the site have a
//! listener, a thread and a pass, which only looks. The desk, at which an administrator corrects,
//! has the same and the way to the shelf, which has what is answered with a stamp. Who serves may
//! say how long the server waits for a peer at most, name a word by which somebody ends the server,
//! and ask for a line on all that is served.
#![tactic(auto)]

mod ahead;
mod answers;
mod asking;
mod attending;
mod board;
mod calling;
mod cause;
mod clerk;
mod conversing;
mod correcting;
mod done;
mod duties;
mod ends;
mod entrance;
mod exchanging;
mod fault;
mod gauges;
mod hashing;
mod health;
mod heard;
mod held;
mod job;
mod journal;
mod keeping;
mod known;
mod line;
mod lobby;
mod manner;
mod meeting;
mod message;
mod paging;
mod port;
mod refusing;
mod samples;
mod serve;
mod starting;
mod told_desk;
mod told_pages;
mod total;
mod visit;
mod wire;
mod worker;

pub use ahead::{Brings, Coming, Wanted};
pub use attending::{Archive, Attended, serve_association};
pub use cause::words_of_shelf;
pub use clerk::Clerk;
pub use conversing::{Conversed, serve_exchange};
pub use correcting::Correcting;
pub use duties::Duties;
pub use entrance::Entrance;
pub use exchanging::Exchanging;
pub use fault::{NetFault, ServeFault};
pub use gauges::Gauges;
pub use health::each_end_of_a_put_has_its_number;
pub use held::{Held, text_of_held};
pub use manner::Manner;
pub use meeting::Peer;
pub use paging::Paging;
pub use port::ServerPort;
pub use serve::{Served, serve_on};
pub use wire::Wire;
