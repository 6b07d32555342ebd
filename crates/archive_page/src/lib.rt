//! The pages of a site: what a request asks for, and what it is answered.
//!
//! Nothing here reads a socket or a site: a request is a method and a path, a page is a heading and
//! rows, and an answer is a status, a media type and a text. No answer depends on anything else.
//!
//! What a client stored is text in HTML and in JSON that it cannot break out of. A value is bytes
//! in whatever character set; as text it is UTF-8: its own bytes where they are UTF-8, and else a
//! character of Latin-1 for each byte. In HTML each byte of that which could make markup stands as
//! a reference; in JSON it is the text of a string.
#![tactic(auto)]

mod answer;
mod asked;
mod characters;
mod escaping;
mod escaping_laws;
mod fact;
mod form;
mod frame;
mod host;
mod laws;
mod links;
mod listing;
mod listing_json;
mod metrics;
mod pages;
mod search;
mod study;
mod style;
mod subject;
mod tables;
mod values;

pub use answer::{
    Answer, Media, Status, health_answer, listing_answer, metrics_answer, page_answer, refusal,
    study_answer, style_answer,
};
pub use asked::{Asked, study_name};
pub use characters::text_of;
pub use escaping::put_escaped;
pub use escaping_laws::what_is_escaped_makes_no_markup;
pub use fact::Fact;
pub use host::{is_asked_here, is_own_host};
pub use laws::each_path_leads_to_its_page;
pub use links::PAGE_LENGTH;
pub use listing::Listing;
pub use metrics::{Label, Sample, SampleKind};
pub use search::{Search, SearchFault, decoded};
pub use study::StudyPage;
pub use subject::{Form, Subject};
pub use tables::put_table;
pub use values::{put_columns_member, put_rows_member, put_value, table_in_json};
