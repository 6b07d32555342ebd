//! How a command ends: its line on standard error, and its status.

ghost use Rattle.std.specs.Prelude.{◌≡◌, [], OnOk, OnErr, IfErr, true, false, codes};
ghost use Rattle.site_simulation.specs.Simulation.{number_of as number_of_script};
ghost use Rattle.op_shelf.specs.Fault.{number_of as number_of_shelf};
ghost use Rattle.site_state.specs.Fault.{number_of as number_of_site};
ghost use Rattle.site_hub.specs.Fault.{number_of as number_of_hub};
ghost use Rattle.association_run.specs.Fault.{number_of as number_of_run};
ghost use Rattle.exchange.specs.Fault.{number_of_exchange};
ghost use Rattle.archive_server.specs.Fault.{number_of as number_of_net};
ghost use Rattle.archive_app.specs.Ending.{line_of_ask};
ghost use Rattle.archive_app.specs.Ending.{fault_line, line_of_fault, fault_of_shelved, fault_of_served};
ghost use Rattle.archive_app.specs.declared.output.ending.CommandFault.TheVariants.{Simulate, Shelf, Site, Hub};
ghost use Rattle.archive_app.specs.declared.output.ending.CommandFault.TheVariants.{Exchange, Ask};
ghost use Rattle.site_state.specs.declared.fault.SiteFault.TheVariants.{Memory};

use archive_server::{NetFault, ServeFault};
use association_run::RunFault;
use exchange::ExchangeFault;
use op_shelf::ShelfFault;
use shelved_site::ShelvedFault;
use site_desk::AskFault;
use site_hub::HubFault;
use site_simulation::SimFault;
use site_state::SiteFault;
use std::alloc::{AllocError, AllocFailed};
use thiserror::Error;

/// Why a command did not do what it was asked for.
#[derive(Clone, Copy, Debug, PartialEq, Eq, Error)]
pub enum CommandFault {
    #[error("the script was not answered to its end")]
    Simulate(SimFault),
    #[error("the shelf refused")]
    Shelf(ShelfFault),
    /// The operations made no site, or memory for what is told of it was refused.
    #[error("the site refused")]
    Site(SiteFault),
    #[error("the hub refused")]
    Hub(HubFault),
    #[error("an association ended early")]
    Run(RunFault),
    #[error("an exchange ended early")]
    Exchange(ExchangeFault),
    #[error("the network refused")]
    Net(NetFault),
    #[error("a running site was asked in vain")]
    Ask(AskFault),
}

impl From<SimFault> for CommandFault {
    ghost from_gives = { λ fault e. e ≡ Simulate fault };

    fn from(fault: SimFault) -> CommandFault {
        CommandFault::Simulate(fault)
    }
}

impl From<ShelfFault> for CommandFault {
    ghost from_gives = { λ fault e. e ≡ Shelf fault };

    fn from(fault: ShelfFault) -> CommandFault {
        CommandFault::Shelf(fault)
    }
}

impl From<SiteFault> for CommandFault {
    ghost from_gives = { λ fault e. e ≡ Site fault };

    fn from(fault: SiteFault) -> CommandFault {
        CommandFault::Site(fault)
    }
}

impl From<HubFault> for CommandFault {
    ghost from_gives = { λ fault e. e ≡ Hub fault };

    fn from(fault: HubFault) -> CommandFault {
        CommandFault::Hub(fault)
    }
}

impl From<ServeFault> for CommandFault {
    ghost from_gives = { λ fault e. e ≡ fault_of_served fault };

    fn from(fault: ServeFault) -> CommandFault {
        match fault {
            ServeFault::Run(fault) => CommandFault::Run(fault),
            ServeFault::Exchange(fault) => CommandFault::Exchange(fault),
            ServeFault::Net(fault) => CommandFault::Net(fault),
        }
    }
}

impl From<ShelvedFault> for CommandFault {
    ghost from_gives = { λ fault e. e ≡ fault_of_shelved fault };

    fn from(fault: ShelvedFault) -> CommandFault {
        match fault {
            ShelvedFault::Shelf(fault) => CommandFault::Shelf(fault),
            ShelvedFault::Site(fault) => CommandFault::Site(fault),
            ShelvedFault::Hub(fault) => CommandFault::Hub(fault),
            ShelvedFault::Hidden => CommandFault::Shelf(ShelfFault::BadRow),
        }
    }
}

impl From<ExchangeFault> for CommandFault {
    ghost from_gives = { λ fault e. e ≡ Exchange fault };

    fn from(fault: ExchangeFault) -> CommandFault {
        CommandFault::Exchange(fault)
    }
}

impl From<AskFault> for CommandFault {
    ghost from_gives = { λ fault e. e ≡ Ask fault };

    fn from(fault: AskFault) -> CommandFault {
        CommandFault::Ask(fault)
    }
}

impl From<AllocError> for CommandFault {
    ghost from_gives = { λ _ e. e ≡ Site Memory };

    fn from(_error: AllocError) -> CommandFault {
        CommandFault::Site(SiteFault::Memory)
    }
}

impl<T: Drop> From<AllocFailed<T>> for CommandFault {
    ghost from_gives = { λ _ e. e ≡ Site Memory };

    fn from(_error: AllocFailed<T>) -> CommandFault {
        CommandFault::Site(SiteFault::Memory)
    }
}

/// The line that a command prints on standard error, which is empty where it prints none, and the
/// status with which it ends.
#[derive(Clone, Copy, Debug, PartialEq, Eq)]
pub struct Ending {
    pub line: &'static str,
    pub status: u8,
}

fn line_of_script(fault: SimFault) -> &'static str
    ensures { result.now ≡ fault_line (codes "simulate") (number_of_script fault) }
{
    match fault {
        SimFault::Read => "fault simulate 1",
        SimFault::Write => "fault simulate 2",
        SimFault::LongLine => "fault simulate 3",
        SimFault::Memory => "fault simulate 4",
        SimFault::Turns => "fault simulate 5",
    }
}

fn line_of_shelf(fault: ShelfFault) -> &'static str
    ensures { result.now ≡ fault_line (codes "shelf") (number_of_shelf fault) }
{
    match fault {
        ShelfFault::Store(_) => "fault shelf 1",
        ShelfFault::BadRow => "fault shelf 2",
        ShelfFault::Memory => "fault shelf 3",
    }
}

fn line_of_site(fault: SiteFault) -> &'static str
    ensures { result.now ≡ fault_line (codes "site") (number_of_site fault) }
{
    match fault {
        SiteFault::Collision => "fault site 1",
        SiteFault::Memory => "fault site 2",
    }
}

fn line_of_hub(fault: HubFault) -> &'static str
    ensures { result.now ≡ fault_line (codes "hub") (number_of_hub fault) }
{
    match fault {
        HubFault::Busy => "fault hub 1",
        HubFault::Collision => "fault hub 2",
        HubFault::Memory => "fault hub 3",
        HubFault::StampsSpent => "fault hub 4",
        HubFault::Torn => "fault hub 5",
        HubFault::Pending => "fault hub 6",
        HubFault::BadCorrection => "fault hub 7",
    }
}

fn line_of_run(fault: RunFault) -> &'static str
    ensures { result.now ≡ fault_line (codes "run") (number_of_run fault) }
{
    match fault {
        RunFault::Read => "fault run 1",
        RunFault::Write => "fault run 2",
        RunFault::Memory => "fault run 3",
        RunFault::Turns => "fault run 4",
    }
}

fn line_of_exchange(fault: ExchangeFault) -> &'static str
    ensures { result.now ≡ fault_line (codes "exchange") (number_of_exchange fault) }
{
    match fault {
        ExchangeFault::BadFrame => "fault exchange 1",
        ExchangeFault::TooLong => "fault exchange 2",
        ExchangeFault::Stranger => "fault exchange 3",
        ExchangeFault::Io => "fault exchange 4",
        ExchangeFault::Memory => "fault exchange 5",
        ExchangeFault::Turns => "fault exchange 6",
        ExchangeFault::Refused => "fault exchange 7",
    }
}

fn line_of_net(fault: NetFault) -> &'static str
    ensures { result.now ≡ fault_line (codes "net") (number_of_net fault) }
{
    match fault {
        NetFault::Listen => "fault net 1",
        NetFault::Accept => "fault net 2",
        NetFault::Connect => "fault net 3",
    }
}

fn line_of_ask(fault: AskFault) -> &'static str
    ensures { result.now ≡ line_of_ask fault }
{
    match fault {
        AskFault::Broken => "fault ask 1",
        AskFault::TooLong => "fault ask 2",
        AskFault::NoAnswer => "fault ask 3",
        AskFault::Memory => "fault ask 4",
        AskFault::Refused(_) => "fault ask 5",
        AskFault::Unready => "fault ask 6",
        AskFault::Unsaid => "fault ask 7",
    }
}

/// The line of a fault: whose it is, and its number there. It takes no memory.
fn line_of(fault: CommandFault) -> &'static str
    ensures { result.now ≡ line_of_fault fault }
{
    match fault {
        CommandFault::Simulate(fault) => line_of_script(fault),
        CommandFault::Shelf(fault) => line_of_shelf(fault),
        CommandFault::Site(fault) => line_of_site(fault),
        CommandFault::Hub(fault) => line_of_hub(fault),
        CommandFault::Run(fault) => line_of_run(fault),
        CommandFault::Exchange(fault) => line_of_exchange(fault),
        CommandFault::Net(fault) => line_of_net(fault),
        CommandFault::Ask(fault) => line_of_ask(fault),
    }
}

/// Status 0 and no line where a command did what it was asked for, else 1 and the line of its
/// fault.
pub fn ending_of(ended: Result<(), CommandFault>) -> Ending
    // The line on standard error.
    ensures silent { OnOk ended (result.line.now ≡ []) }
    ensures told { IfErr ended (λ fault. result.line.now ≡ line_of_fault fault) }

    // The status.
    ensures done { OnOk ended (result.status ≡ 0) }
    ensures fault { OnErr ended (result.status ≡ 1) }
{
    match ended {
        Ok(()) => Ending {
            line: "",
            status: 0,
        },
        Err(fault) => Ending {
            line: line_of(fault),
            status: 1,
        },
    }
}

/// The status 2 for a command line that is refused, and 0 where help was asked for.
pub fn status_of_refusal(is_mistake: bool) -> u8
    ensures mistake { is_mistake ≡ true → result ≡ 2 }
    ensures help { is_mistake ≡ false → result ≡ 0 }
{
    if is_mistake { 2 } else { 0 }
}
