//! Errors that are kept where servers give them.

ghost use Rattle.std.specs.Prelude.{◌≡◌, Option, Some};
ghost use Rattle.client_request.specs.declared.error.Error.TheVariants as errors;
ghost use Rattle.client_request.specs.declared.error.QueryError.TheVariants as query;
ghost use Rattle.trace_points.specs.questions.Outs.{Tells};
ghost use Rattle.trace_errors.specs.Failing as plain;

use client_request::{Error, Fault, QueryError};

/// An error that a server gives, as it is looked for among those that are kept.
#[derive(Clone, Copy, Debug)]
pub enum Failing {
    /// A fault of sending.
    Sending(Fault),
    /// A fault of receiving.
    Receiving(Fault),
    /// The last try got no answer.
    Lost,
    /// A message came by stream that is no answer.
    Wrong,
    /// A stream gave no message for long.
    Silent,
}

fn is_same(one: Fault, fault: Fault) -> bool
    ensures { Tells (one ≡ fault) result }
{
    one == fault
}

#[tactic(auto, using(crate::proofs::Telltale::sending_told))]
fn is_sending(error: Error, fault: Fault) -> bool
    ensures { Tells (error ≡ errors.Dgram (query.Send fault)) result }
{
    match error {
        Error::Dgram(QueryError::Send(one)) => is_same(one, fault),
        _ => false,
    }
}

#[tactic(auto, using(crate::proofs::Telltale::receiving_told))]
fn is_receiving(error: Error, fault: Fault) -> bool
    ensures { Tells (error ≡ errors.Dgram (query.Receive fault)) result }
{
    match error {
        Error::Dgram(QueryError::Receive(one)) => is_same(one, fault),
        _ => false,
    }
}

fn is_lost(error: Error) -> bool
    ensures { Tells (error ≡ errors.Dgram query.Timeout) result }
{
    match error {
        Error::Dgram(QueryError::Timeout) => true,
        _ => false,
    }
}

fn is_wrong(error: Error) -> bool
    ensures { Tells (error ≡ errors.WrongReplyForQuery) result }
{
    match error {
        Error::WrongReplyForQuery => true,
        _ => false,
    }
}

fn is_silent(error: Error) -> bool
    ensures { Tells (error ≡ errors.StreamReadTimeout) result }
{
    match error {
        Error::StreamReadTimeout => true,
        _ => false,
    }
}

impl Failing {
    /// Whether an error is this one.
    pub fn is(self, error: Error) -> bool
        ensures { Tells (error ≡ plain.error_of self) result }
    {
        match self {
            Failing::Sending(fault) => is_sending(error, fault),
            Failing::Receiving(fault) => is_receiving(error, fault),
            Failing::Lost => is_lost(error),
            Failing::Wrong => is_wrong(error),
            Failing::Silent => is_silent(error),
        }
    }
}
