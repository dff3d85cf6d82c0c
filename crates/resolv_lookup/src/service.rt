//! What an answer says of a service.

ghost use Rattle.std.specs.Prelude.{◌≡◌, [], unwrap_or, IfOk, IfErr};
ghost use Rattle.resolv_lookup.specs.Services.{srv_in, srvs_said, listed, service_in, IsService, IsAnswerFault};
ghost use Rattle.dns_base.specs.Message.{additional_items};

use crate::fault::SrvError;
use crate::host_table::{addresses_of, host_table};
use crate::owned::OwnedRecords;
use crate::srv_item::{Srv, SrvItem};
use dns_base::{Class, Message, NoMemory, Record, RecordData, Seq, ToName};
use std::alloc::Global;

/// What an answer says of a service.
#[derive(Drop)]
pub enum Service {
    /// It is decidedly not there: one server alone is listed, whose host is the root.
    Absent,
    /// No server is listed.
    Unlisted,
    /// These servers are listed, in the order in which they stand.
    Listed(Seq<SrvItem>),
}

/// What an answer says of a service. Malformed where it leads to no canonical name, or where servers
/// are listed and the section for their addresses can't be found.
#[tactic(auto, unfolding(crate::specs::Services::service_in))]
pub(crate) fn service_in(alloc: Global, answer: &Message) -> Result<Service, SrvError>
    ensures said { IsService (service_in answer.now) result }
    ensures faults { IfErr result IsAnswerFault }
{
    if answer.canonical_name().is_none() {
        return Err(SrvError::MalformedAnswer);
    }
    let srvs = srvs_in(alloc, OwnedRecords::of(answer))?;
    match srvs.as_slice() {
        [] => return Ok(Service::Unlisted),
        [only] if only.target.is_root() => return Ok(Service::Absent),
        _ => {}
    }
    listed(alloc, srvs, answer)
}

/// The servers that records say, in order.
fn srvs_in(alloc: Global, records: Option<OwnedRecords<'_>>) -> Result<Vec<Srv>, NoMemory>
    ensures { IfOk result (λ srvs. srvs.items ≡ srvs_said (unwrap_or records.entry [])) }
{
    let mut srvs = Vec::new(alloc);
    if let Some(records) = records {
        for known in records {
            if let Some(srv) = srv_in(alloc, &known)? {
                srvs.push(srv)?;
            }
        }
    }
    Ok(srvs)
}

/// The server that a record of the class IN says, if its data is read.
fn srv_in(alloc: Global, known: &Record<'_>) -> Result<Option<Srv>, NoMemory>
    ensures { IfOk result (λ srv. srv ≡ srv_in known.now) }
{
    if known.class() != Class::IN {
        return Ok(None);
    }
    match known.data() {
        Ok(
            RecordData::Srv {
                priority,
                weight,
                port,
                target,
            },
        ) => Ok(Some(Srv {
            priority,
            weight,
            port,
            target: target.to_name(alloc)?,
        })),
        _ => Ok(None),
    }
}

/// Servers with the addresses of their hosts in the additional section.
fn listed(alloc: Global, srvs: Vec<Srv>, answer: &Message) -> Result<Service, SrvError>
    ensures said { IsService (listed srvs.items (additional_items answer.now)) result }
    ensures faults { IfErr result IsAnswerFault }
{
    let Ok(section) = answer.additional() else {
        return Err(SrvError::MalformedAnswer);
    };
    let table = host_table(alloc, section)?;
    let mut items = Seq::new(alloc);
    for srv in srvs {
        let addresses = addresses_of(alloc, &table, &srv.target)?;
        items.push(SrvItem::new(srv, addresses))?;
    }
    Ok(Service::Listed(items))
}
