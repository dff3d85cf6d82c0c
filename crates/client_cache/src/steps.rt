//! What each call of a cache does.

ghost use Rattle.std.specs.Prelude.{◌≡◌, OnOk, IfOk, [], None, Some, Ok, Err, option_map};
ghost use Rattle.client_request.specs.Calls.{Holds};
ghost use Rattle.client_request.specs.Cx.{view_of, heard};
ghost use Rattle.client_cache.specs.Keeping as keeping;
ghost use Rattle.client_cache.specs.Plain as plain;
ghost use Rattle.client_cache.specs.Plain.{read};

use crate::connection::Request;
use crate::entry::{Answer, Asked, Spared};
use crate::finding::{answer_from, first_other, serve_own};
use crate::settling::{Job, Kept, part_of, settle_all};
use crate::table::Table;
use cache_rules::Key;
use client_request::{
    Board, ComposeRequest, Cx, Error, GetResponse, SendRequest, Signal, Words, cancel_below,
    send_below, step_below,
};
use client_settings::cache::Config;
use dns_base::{Header, Message, NoMemory, Question};
use std::alloc::Global;

/// How a request goes on.
#[derive(Drop)]
pub enum Way {
    /// It has its result.
    Given(Result<Message, Error>),
    /// It is handed on; its result is kept under the key, if there is one, and this may stand in for it.
    Asks(Option<Key>, Spared),
}

/// What a request asks by its question, unless its results are not kept.
#[tactic(auto, using(crate::proofs::LookUps::none_asked))]
fn asked_about(
    alloc: Global,
    question: Option<Question<'_>>,
    header: Header,
    dnssec_ok: bool,
) -> Result<Option<Asked<'_>>, NoMemory>
    ensures { IfOk result (λ asked. asked ≡ keeping.asked_about header dnssec_ok question.entry) }
{
    let Some(question) = question else {
        return Ok(None);
    };
    let name = question.qname();
    match Key::asking(alloc, Some(question), header, dnssec_ok)? {
        Some(key) => Ok(Some(Asked { key, name })),
        None => Ok(None),
    }
}

/// What a request asks, unless its results are not kept. Its message is not composed for that.
pub(crate) fn asked_of<CR: ComposeRequest>(
    alloc: Global,
    request: &CR,
) -> Result<Option<Asked<'_>>, NoMemory>
    ensures { IfOk result (λ asked. IfOk (CR.requests.composed request.now) (λ message. asked ≡ keeping.asked_in (CR.header_of request.now) (CR.is_dnssec_ok request.now) message)) }
{
    let question = request.sole_question();
    asked_about(alloc, question, *request.header(), request.dnssec_ok())
}

/// What a request has to spare of the entry under its own key.
fn spare_in(
    table: &Table,
    alloc: Global,
    config: &Config,
    asked: &Asked<'_>,
) -> Result<Spared, NoMemory>
    ensures { IfOk result (λ s. s ≡ keeping.spare_in config.now asked.now table.now) }
{
    if config.stale_for().as_micros() == 0 {
        return Ok(Spared::nothing());
    }
    match table.peek(&asked.key) {
        None => Ok(Spared::nothing()),
        Some(entry) => Spared::of(entry, asked, alloc),
    }
}

/// How a request goes on that an entry served or did not serve any more.
fn way_found(
    table: &Table,
    alloc: Global,
    config: &Config,
    asked: Asked<'_>,
    answer: Answer,
) -> Result<Way, NoMemory>
    ensures { IfOk result (λ way. way ≡ plain.way_found config.now asked.entry table.now answer) }
{
    match answer {
        Some(outcome) => Ok(Way::Given(outcome)),
        None => {
            let spare = spare_in(table, alloc, config, &asked)?;
            Ok(Way::Asks(Some(asked.key), spare))
        }
    }
}

/// How a request goes on whose results are kept.
fn way_asked(
    table: &mut Table,
    alloc: Global,
    config: &Config,
    now: u64,
    mut asked: Asked<'_>,
) -> Result<Way, NoMemory>
    ensures way { IfOk result (λ way. way ≡ (plain.way_asked config.now now table.old (Some asked.entry)).0) }
    ensures table { OnOk result (table.new ≡ (plain.way_asked config.now now table.old (Some asked.entry)).1) }
{
    if let Some(answer) = serve_own(table, alloc, &asked, now)? {
        return way_found(&*table, alloc, config, asked, answer);
    }
    match first_other(table, &mut asked.key) {
        None => Ok(Way::Asks(Some(asked.key), Spared::nothing())),
        Some(flags) => {
            let answer = answer_from(table, alloc, config, &asked, flags, now)?;
            way_found(&*table, alloc, config, asked, answer)
        }
    }
}

/// How a request goes on. Whether a message can be made of it is told without making one.
fn way_of<CR: ComposeRequest>(
    table: &mut Table,
    alloc: Global,
    config: &Config,
    now: u64,
    request: &CR,
) -> Result<Way, NoMemory>
    ensures way { IfOk result (λ way. way ≡ (plain.way_of config.now (CR.header_of request.now) (CR.is_dnssec_ok request.now) now table.old (CR.requests.composed request.now)).0) }
    ensures table { OnOk result (table.new ≡ (plain.way_of config.now (CR.header_of request.now) (CR.is_dnssec_ok request.now) now table.old (CR.requests.composed request.now)).1) }
{
    if let Err(error) = request.check_message() {
        return Ok(Way::Given(Err(error)));
    }
    match asked_of(alloc, request)? {
        Some(asked) => way_asked(table, alloc, config, now, asked),
        None => Ok(Way::Asks(None, Spared::nothing())),
    }
}

/// Hands a request on, whose result is kept under the key, if there is one.
fn hand_on<CR: ComposeRequest, U: SendRequest<CR>, W: Words>(
    below: &mut U,
    kept: &mut Kept,
    board: &mut Board,
    cx: &mut Cx<'_, W>,
    ticket: u64,
    key: Option<Key>,
    spare: Spared,
    request: CR,
) -> Result<U::Response, Error>
    ensures holds { Holds W.stream cx.old cx.new result (plain.hands_on U.transport ticket key spare request below.old kept.old) (below.new, kept.new) U.holds_failed below.old below.new }
    ensures response { IfOk result (λ r. r ≡ U.transport.response request below.old (plain.onto [] (view_of W.stream cx.old))) }
{
    board.clear();
    let response = send_below(below, board, cx, request)?;
    let job = Job { ticket, key, spare };
    kept.waiting.insert(response.ticket(), job)?;
    settle_all(kept, cx, board)?;
    Ok(response)
}

/// A request has its result, or is handed on: then this is what stands for its result there.
fn give_or_hand_on<CR: ComposeRequest, U: SendRequest<CR>, W: Words>(
    below: &mut U,
    kept: &mut Kept,
    board: &mut Board,
    cx: &mut Cx<'_, W>,
    ticket: u64,
    way: Way,
    request: CR,
) -> Result<Option<U::Response>, Error>
    ensures holds { Holds W.stream cx.old cx.new result (λ v. plain.goes U.transport ticket request below.old kept.old v way) (below.new, kept.new) U.holds_failed below.old below.new }
    ensures response { IfOk result (λ r. r ≡ plain.response_below U.transport request below.old (view_of W.stream cx.old) way) }
{
    match way {
        Way::Given(outcome) => {
            cx.board.put(ticket, part_of(outcome))?;
            Ok(None)
        }
        Way::Asks(key, spare) => {
            let response = hand_on(below, kept, board, cx, ticket, key, spare, request)?;
            Ok(Some(response))
        }
    }
}

/// A request under a ticket has its result, or is handed on: then this is what stands for its result there.
fn send<CR: ComposeRequest, U: SendRequest<CR>, W: Words>(
    below: &mut U,
    kept: &mut Kept,
    board: &mut Board,
    cx: &mut Cx<'_, W>,
    ticket: u64,
    request: CR,
) -> Result<Option<U::Response>, Error>
    ensures holds { Holds W.stream cx.old cx.new result (plain.send (read CR.requests CR.header_of CR.is_dnssec_ok) U.transport ticket request below.old kept.old) (below.new, kept.new) U.holds_failed below.old below.new }
    ensures response { IfOk result (λ r. r ≡ plain.response_to (read CR.requests CR.header_of CR.is_dnssec_ok) U.transport request below.old kept.old (view_of W.stream cx.old)) }
{
    let way = way_of(
        &mut kept.table,
        kept.alloc,
        &kept.config,
        cx.now.0,
        &request,
    )?;
    give_or_hand_on(below, kept, board, cx, ticket, way, request)
}

/// Takes a request on.
pub(crate) fn take_on<CR: ComposeRequest, U: SendRequest<CR>, W: Words>(
    below: &mut U,
    kept: &mut Kept,
    board: &mut Board,
    cx: &mut Cx<'_, W>,
    request: CR,
) -> Result<Request<U::Response>, Error>
    ensures holds { Holds W.stream cx.old cx.new result (plain.takes (read CR.requests CR.header_of CR.is_dnssec_ok) U.transport request below.old kept.old) (below.new, kept.new) U.holds_failed below.old below.new }
    ensures response { IfOk result (λ r. r ≡ plain.response_of (read CR.requests CR.header_of CR.is_dnssec_ok) U.transport request below.old kept.old (view_of W.stream cx.old)) }
{
    let ticket = cx.draw_ticket()?;
    let response = send(below, kept, board, cx, ticket, request)?;
    Ok(Request {
        ticket,
        given: false,
        below: response,
    })
}

/// The transport below hears what happened.
pub(crate) fn hear<CR: ComposeRequest, U: SendRequest<CR>, W: Words>(
    below: &mut U,
    kept: &mut Kept,
    board: &mut Board,
    cx: &mut Cx<'_, W>,
    signal: Signal<'_>,
) -> Result<(), Error>
    ensures holds { Holds W.stream cx.old cx.new result (plain.hears U.transport (heard signal.entry) below.old kept.old) (below.new, kept.new) U.holds_failed below.old below.new }
{
    board.clear();
    step_below(below, board, cx, signal)?;
    settle_all(kept, cx, board)?;
    Ok(())
}

/// Gives a request up below, where it still waits.
pub(crate) fn give_up<CR: ComposeRequest, U: SendRequest<CR>, W: Words>(
    below: &mut U,
    kept: &mut Kept,
    board: &mut Board,
    cx: &mut Cx<'_, W>,
    response: Option<U::Response>,
) -> Result<(), Error>
    ensures holds { Holds W.stream cx.old cx.new result (λ v. plain.drops_below U.transport U.Response.ticket_of below.old kept.old v response) (below.new, kept.new) U.holds_failed below.old below.new }
{
    let Some(response) = response else {
        return Ok(());
    };
    let Some(_job) = kept.waiting.remove(response.ticket()) else {
        return Ok(());
    };
    board.clear();
    cancel_below(below, board, cx, response)?;
    settle_all(kept, cx, board)?;
    Ok(())
}

/// What stands in at a moment for the result of a request that still waits.
pub(crate) fn stale_for<P: GetResponse>(
    kept: &Kept,
    now: u64,
    response: &Option<P>,
) -> Result<Option<Message>, NoMemory>
    ensures { IfOk result (λ m. m ≡ plain.stands_in_below kept.now now (option_map P.ticket_of response.now)) }
{
    let Some(response) = response else {
        return Ok(None);
    };
    let Some(job) = kept.waiting.get(response.ticket()) else {
        return Ok(None);
    };
    job.spare.stand_in(kept.alloc, &kept.config, now)
}
