//! The request of a query that is taken.

ghost use Rattle.std.specs.Prelude.{◌≡◌, IfOk, IfErr, false};
ghost use Rattle.client_request.specs.Request.{is_misformed, recorded_from};
ghost use Rattle.client_request.specs.declared.error.Error.TheVariants as errors;
ghost use Rattle.dns_base.specs.Holding.{IsAskable};
ghost use Rattle.front_queries.specs.Query.{is_of_zone};
ghost use Rattle.front_queries.specs.Requests as spec;

use crate::query::Query;
use crate::spelling::{own_opt, spelled_message};
use client_request::{Error, RequestMessage};
use dns_base::{Header, Message};
use std::alloc::Global;

/// The header of a request: the query's id, and of its flags RD, AD and CD.
fn request_header(query: &Query) -> Header
    ensures { result ≡ spec.request_header query.now.header }
{
    let [high, low, flags, codes] = query.header.to_octets();
    Header::from_octets([high, low, flags & 0x01, codes & 0x30])
}

/// A query may be asked: its parts have their ranges.
fn may_be_asked(query: &Query)
    ensures askable { IsAskable query.now.asked }
    ensures of_no_zone { is_of_zone query.now.asked.rtype ≡ false }
{
    let _qname = query.qname.as_octets();
    let _qtype = query.qtype();
    let _qclass = query.qclass();
}

/// The request of a message that is no query which is refused.
fn request_on(alloc: Global, base: Message) -> Result<RequestMessage, Error>
    requires { is_misformed base ≡ false }
    ensures made { IfOk result (λ r. r ≡ recorded_from base) }
    ensures refused { IfErr result (λ e. e ≡ errors.NoMemory) }
{
    RequestMessage::new(alloc, base)
}

/// The request of a query: its question under its id and its flags RD, AD and CD, and an OPT record of this host where
/// the client takes DNSSEC records. Nothing else of the query goes on (RFC 6891 6.1.1). `NoMemory` alone is an error.
#[tactic(auto, using(crate::proofs::Asked::may_be_asked))]
pub fn request_of(alloc: Global, query: &Query) -> Result<RequestMessage, Error>
    ensures made { IfOk result (λ r. r ≡ spec.request_of query.now) }
    ensures refused { IfErr result (λ e. e ≡ errors.NoMemory) }
{
    may_be_asked(query);
    let header = request_header(query);
    let base = spelled_message(alloc, header, query, None)?;
    let request = request_on(alloc, base)?;
    let opt = if query.takes_dnssec() {
        Some(own_opt(0, true))
    } else {
        None
    };
    let request = request.with_recorded(header, opt)?;
    Ok(request)
}
