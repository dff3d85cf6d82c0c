//! A connection as a transport of transfers, by its trait.

use crate::streams::stream::Connected;
use client_request::{Cx, Error, ListWords, RequestMessageMulti, SendRequestMulti, Signal};
use client_stream::RequestMulti;

pub fn send_transfer(
    connection: &mut Connected,
    cx: &mut Cx<'_, ListWords>,
    request: RequestMessageMulti,
) -> Result<RequestMulti, Error> {
    connection.send_request(cx, request)
}

pub fn step_transfers(
    connection: &mut Connected,
    cx: &mut Cx<'_, ListWords>,
    signal: Signal<'_>,
) -> Result<(), Error> {
    connection.step(cx, signal)
}

pub fn cancel_transfer(
    connection: &mut Connected,
    cx: &mut Cx<'_, ListWords>,
    response: RequestMulti,
) -> Result<(), Error> {
    connection.cancel(cx, response)
}
