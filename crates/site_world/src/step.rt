//! The steps of several sites, and what is seen of them.

use archive_model::View;
use archive_query::{Accepts, Answer, Query, Selection, Sending};
use octets::{ListOf, Octets};
use operation::{Op, Stamp, Target};
use site_state::Taken;

/// What may happen next. Sites are numbered from 1.
#[derive(Drop)]
pub enum Step {
    /// The site takes the operation.
    Take(usize, Op),
    /// At the site a correction is made of the attribute of a target: its tag and its new value.
    Correct(usize, Target, u32, Octets),
    /// The first site sends the second the digests of all that it holds.
    Offer(usize, usize),
    /// It sends what is told of them for each first byte instead.
    Buckets(usize, usize),
    /// The message of a number, from 1, comes to its site.
    Deliver(u64),
    /// The site is one that knows no corrections of series.
    Old(usize),
    /// The site is asked in a view, whose name is the called title.
    Look(usize, View, Query),
    /// What the site sends of a selection in a view, where this is accepted.
    Get(usize, View, Selection, Accepts),
}

/// What a step is answered.
#[derive(Drop)]
pub enum Seen {
    Took(Taken),
    /// The stamp of the correction that was made.
    Stamped(Stamp),
    /// The number of the message that offers.
    Offered(u64),
    /// That of the message that asks for what is lacked.
    Wanted(u64),
    /// Those of the messages that give what was asked for.
    Gave(ListOf<u64>),
    /// That of the message that says where buckets differ.
    Differs(u64),
    /// That of the message that has the digests of those places.
    Has(u64),
    /// The site is an old one.
    Aged,
    /// The rows that answer a query.
    Rows(ListOf<Answer>),
    /// What is sent of a selection, by ascending SOP Instance UID.
    Sent(ListOf<Sending>),
}
