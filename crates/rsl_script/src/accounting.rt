//! The lines `start`, `interim`, `stop`, `on` and `off`.
ghost use Rattle.std.specs.Prelude.{map};
ghost use Rattle.rsl_script.specs.Accounting.{
  read_accounting,
  ties_at,
  ties_of,
  end_ties,
  report_of,
  server_report,
  session_report,
};
ghost use Rattle.rsl_script.specs.Reads.{Reads};

use crate::event_line::Happening;
use crate::fault::LineFault;
use crate::limited::AttributeText;
use crate::request::AccountingRequest;
use crate::values::{
    leading_number, leading_text, read_delay, read_nas, read_optional, read_station,
};
use rsl_accounts::address_of;
use rsl_event::Status;
use std::alloc::Global;

/// What ties a session to its bundle, to its accept and to its station.
#[derive(Drop)]
struct Ties {
    /// The Acct-Multi-Session-Id, if the line has a word `multi=`.
    bundle: Option<AttributeText>,
    /// The number of the Class, if the line has a word `class=`.
    class: Option<u64>,
    /// The Calling-Station-Id, if the line has a word `station=`.
    station: Option<AttributeText>,
}

/// Reads the words after a moment: `CLIENT NAS`, and then those of the status.
#[tactic(auto, unfolding(crate::specs::Accounting::read_accounting))]
pub(crate) fn read_accounting(
    alloc: Global,
    status: Status,
    words: &[&str],
) -> Result<Happening, LineFault>
    ensures { Reads (read_accounting status (map (λ word. word.now) words.now)) result }
{
    match words {
        [client, nas, rest @ ..] => {
            let address = address_of(client.as_bytes()).ok_or(LineFault::Wrong)?;
            let nas = read_nas(alloc, nas)?;
            let request = report_of(alloc, status, nas, rest)?;
            Ok(Happening::Accounting { address, request })
        }
        _ => Err(LineFault::Wrong),
    }
}

/// Reads the words after the access server.
#[tactic(auto, unfolding(crate::specs::Accounting::report_of))]
fn report_of(
    alloc: Global,
    status: Status,
    nas: Option<AttributeText>,
    words: &[&str],
) -> Result<AccountingRequest, LineFault>
    ensures { Reads (report_of status nas (map (λ word. word.now) words.now)) result }
{
    match status {
        Status::Start | Status::InterimUpdate | Status::Stop => {
            session_report(alloc, status, nas, words)
        }
        Status::AccountingOn | Status::AccountingOff => server_report(status, nas, words),
    }
}

/// The report of the access server itself: `[delay=N]`.
#[tactic(auto, unfolding(crate::specs::Accounting::server_report))]
fn server_report(
    status: Status,
    nas: Option<AttributeText>,
    words: &[&str],
) -> Result<AccountingRequest, LineFault>
    ensures { Reads (server_report status nas (map (λ word. word.now) words.now)) result }
{
    let delay = read_delay(words).ok_or(LineFault::Wrong)?;
    Ok(AccountingRequest::Server { status, nas, delay })
}

/// The report on a session: `NAME SESSION`, and then its ties.
#[tactic(auto, unfolding(crate::specs::Accounting::session_report))]
fn session_report(
    alloc: Global,
    status: Status,
    nas: Option<AttributeText>,
    words: &[&str],
) -> Result<AccountingRequest, LineFault>
    ensures { Reads (session_report status nas (map (λ word. word.now) words.now)) result }
{
    match words {
        [name, session, rest @ ..] => {
            let name = AttributeText::read(alloc, name)?;
            let session = AttributeText::read(alloc, session)?;
            let ties = ties_at(alloc, status, rest)?;
            Ok(AccountingRequest::Session {
                status,
                nas,
                name,
                session,
                bundle: ties.bundle,
                class: ties.class,
                station: ties.station,
            })
        }
        _ => Err(LineFault::Wrong),
    }
}

/// The ties of a session. Its end has a station alone.
#[tactic(auto, unfolding(crate::specs::Accounting::ties_at))]
fn ties_at(alloc: Global, status: Status, words: &[&str]) -> Result<Ties, LineFault>
    ensures { Reads (ties_at status (map (λ word. word.now) words.now)) result }
{
    match status {
        Status::Stop => end_ties(alloc, words),
        _ => ties_of(alloc, words),
    }
}

/// Reads the optional words `[multi=M] [class=N] [station=S]`, in this order.
#[tactic(auto, unfolding(crate::specs::Accounting::ties_of))]
fn ties_of(alloc: Global, words: &[&str]) -> Result<Ties, LineFault>
    ensures { Reads (ties_of (map (λ word. word.now) words.now)) result }
{
    let (bundle, words) = leading_text("multi=", words);
    let (class, words) = leading_number("class=", words);
    Ok(Ties {
        bundle: read_optional(alloc, bundle)?,
        class,
        station: read_station(alloc, words)?,
    })
}

/// Reads the optional word `[station=S]` of a session's end.
#[tactic(auto, unfolding(crate::specs::Accounting::end_ties))]
fn end_ties(alloc: Global, words: &[&str]) -> Result<Ties, LineFault>
    ensures { Reads (end_ties (map (λ word. word.now) words.now)) result }
{
    Ok(Ties {
        bundle: None,
        class: None,
        station: read_station(alloc, words)?,
    })
}
