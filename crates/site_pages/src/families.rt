//! The names under which a server is measured, and what each of them counts.

ghost use Rattle.std.specs.Prelude.{◌≡◌};
ghost use Rattle.site_pages.specs.Families.{kind_of, name_of, help_of};

use archive_page::SampleKind;

/// The samples of one name.
#[derive(Clone, Copy)]
pub(crate) enum Family {
    Operations,
    TakesOperations,
    Associations,
    Stores,
    Finds,
    FindRows,
    Gets,
    GetImages,
    ExchangesServed,
    ExchangesCalled,
    OperationsGiven,
    OperationsTaken,
    ExchangeUnread,
    WorkersBusy,
    Uptime,
    ResidentMemory,
    StoreBytes,
    SinceAgreed,
    PeerSinceAgreed,
    PeerAgrees,
    PeerGiven,
    PeerTaken,
    CallerSinceAgreed,
    CallerAgrees,
    CallerGiven,
    CallerTaken,
}

impl Family {
    /// Whether they only grow while the server runs.
    #[tactic(auto, unfolding(crate::specs::Families::kind_of))]
    pub fn kind(self) -> SampleKind
        ensures { result ≡ kind_of self }
    {
        match self {
            Family::Operations | Family::TakesOperations => SampleKind::Gauge,
            Family::Associations | Family::Stores => SampleKind::Counter,
            Family::Finds | Family::FindRows => SampleKind::Counter,
            Family::Gets | Family::GetImages => SampleKind::Counter,
            Family::ExchangesServed | Family::ExchangesCalled => SampleKind::Counter,
            Family::OperationsGiven | Family::OperationsTaken => SampleKind::Counter,
            Family::ExchangeUnread => SampleKind::Counter,
            Family::WorkersBusy | Family::Uptime | Family::SinceAgreed => SampleKind::Gauge,
            Family::ResidentMemory | Family::StoreBytes => SampleKind::Gauge,
            Family::PeerSinceAgreed | Family::PeerAgrees => SampleKind::Gauge,
            Family::PeerGiven | Family::PeerTaken => SampleKind::Counter,
            Family::CallerSinceAgreed | Family::CallerAgrees => SampleKind::Gauge,
            Family::CallerGiven | Family::CallerTaken => SampleKind::Counter,
        }
    }

    #[tactic(auto, unfolding(crate::specs::Families::name_of))]
    pub fn name(self) -> &'static [u8]
        ensures { result.now ≡ name_of self }
    {
        match self {
            Family::Operations => b"wiersomp_operations",
            Family::TakesOperations => b"wiersomp_takes_operations",
            Family::Associations => b"wiersomp_associations_total",
            Family::Stores => b"wiersomp_stores_total",
            Family::Finds => b"wiersomp_finds_total",
            Family::FindRows => b"wiersomp_find_rows_total",
            Family::Gets => b"wiersomp_gets_total",
            Family::GetImages => b"wiersomp_get_images_total",
            Family::ExchangesServed => b"wiersomp_exchanges_served_total",
            Family::ExchangesCalled => b"wiersomp_exchanges_called_total",
            Family::OperationsGiven => b"wiersomp_operations_given_total",
            Family::OperationsTaken => b"wiersomp_operations_taken_total",
            Family::ExchangeUnread => b"wiersomp_exchange_unread_total",
            Family::WorkersBusy => b"wiersomp_workers_busy",
            Family::Uptime => b"wiersomp_uptime_seconds",
            Family::ResidentMemory => b"process_resident_memory_bytes",
            Family::StoreBytes => b"wiersomp_store_bytes",
            Family::SinceAgreed => b"wiersomp_seconds_since_agreed",
            Family::PeerSinceAgreed => b"wiersomp_peer_seconds_since_agreed",
            Family::PeerAgrees => b"wiersomp_peer_agrees",
            Family::PeerGiven => b"wiersomp_peer_operations_given_total",
            Family::PeerTaken => b"wiersomp_peer_operations_taken_total",
            Family::CallerSinceAgreed => b"wiersomp_caller_seconds_since_agreed",
            Family::CallerAgrees => b"wiersomp_caller_agrees",
            Family::CallerGiven => b"wiersomp_caller_operations_given_total",
            Family::CallerTaken => b"wiersomp_caller_operations_taken_total",
        }
    }

    /// What they count.
    #[tactic(auto, unfolding(crate::specs::Families::help_of))]
    pub fn help(self) -> &'static [u8]
        ensures { result.now ≡ help_of self }
    {
        match self {
            Family::Operations => b"Operations that the site holds.",
            Family::TakesOperations => b"0 where the last put to the disk was refused, else 1.",
            Family::Associations => b"Associations that have ended, by how.",
            Family::Stores =>
                b"Stores of ended associations: of what was new or known, or refused.",
            Family::Finds => b"Queries of ended associations.",
            Family::FindRows => b"Rows that these queries were answered with.",
            Family::Gets => b"Retrievals of ended associations.",
            Family::GetImages => b"Images that these retrievals were prepared with.",
            Family::ExchangesServed => b"Exchanges with peers that called, by how they ended.",
            Family::ExchangesCalled => b"Exchanges with peers that were called, by how they ended.",
            Family::OperationsGiven => b"Operations that exchanges gave which were not broken off.",
            Family::OperationsTaken =>
                b"New operations that exchanges took which were not broken off.",
            Family::ExchangeUnread =>
                b"Held operations that a peer asked for and that could not be read.",
            Family::WorkersBusy => b"Threads that serve an association or an exchange now.",
            Family::Uptime => b"Seconds since the server began.",
            Family::ResidentMemory => b"Bytes of memory that the process has resident.",
            Family::StoreBytes => b"Bytes of the files that the operations stand in.",
            Family::SinceAgreed => b"Seconds since the last exchange that agreed ended.",
            Family::PeerSinceAgreed => b"Seconds since an exchange with a called peer agreed.",
            Family::PeerAgrees => b"1 where the last call of a peer agreed, else 0.",
            Family::PeerGiven => b"Operations that were given to a called peer.",
            Family::PeerTaken => b"New operations that were taken from a called peer.",
            Family::CallerSinceAgreed => b"Seconds since an exchange with a caller agreed.",
            Family::CallerAgrees => b"1 where the last exchange with a caller agreed, else 0.",
            Family::CallerGiven => b"Operations that were given to a caller.",
            Family::CallerTaken => b"New operations that were taken from a caller.",
        }
    }
}
