//! The text of a trace.

ghost use Rattle.std.specs.Prelude.{◌≡◌, ◌++◌, ◌∷◌, [], OnOk, IfOk};
ghost use Rattle.std.specs.Fmt.{decimal};
ghost use Rattle.std.specs.List.{join_with_byte};
ghost use Rattle.dns_script.specs.Words.{error_words, fault_word, hex_word, query_error_words};
ghost use Rattle.dns_script.specs.Lines.{event_line, line, opt_octets, out_line, out_words, request_words, result_words, what_words};
ghost use Rattle.dns_script.specs.TraceReading.{IsTrace};
ghost use Rattle.dns_script.specs.TraceText.{first_line, last_line, row_text, trace_text_of, says_stale, has_stale, have_stale, behind_first, IsOfFirst};

use crate::bounds::trace_is_in_range;
use crate::words::{error_name, fault_word, push_digits, push_hex, push_number, via_word};
use client_request::{
    Compose, Error, Event, Fault, Out, QueryError, RequestMessage, Row, Trace, Via, What,
};
use dns_base::{Message, NoMemory, OptRecord};
use std::alloc::Global;

/// Adds a blank and a word.
fn push_word(text: &mut Vec<u8>, word: &str) -> Result<(), NoMemory>
    ensures { OnOk result (text.new.items ≡ text.old.items ++ 32 ∷ word.now) }
{
    text.push(b' ')?;
    text.extend_from_slice(word.as_bytes())?;
    Ok(())
}

/// Adds the words of a datagram try's error, each behind a blank.
fn push_query_error(text: &mut Vec<u8>, error: QueryError) -> Result<(), NoMemory>
    ensures { OnOk result (text.new.items ≡ text.old.items ++ 32 ∷ join_with_byte 32 (query_error_words error)) }
{
    let (kind, fault) = match error {
        QueryError::Connect(fault) => (" Connect", fault),
        QueryError::Send(fault) => (" Send", fault),
        QueryError::Receive(fault) => (" Receive", fault),
        QueryError::Timeout => (" Timeout", Fault::Expired),
    };
    text.extend_from_slice(kind.as_bytes())?;
    push_word(text, fault_word(fault))
}

/// Adds the words of an error.
fn push_error(text: &mut Vec<u8>, error: Error) -> Result<(), NoMemory>
    ensures { OnOk result (text.new.items ≡ text.old.items ++ join_with_byte 32 (error_words error)) }
{
    text.extend_from_slice(error_name(error).as_bytes())?;
    match error {
        Error::StreamReadError(fault) => push_word(text, fault_word(fault)),
        Error::StreamWriteError(fault) => push_word(text, fault_word(fault)),
        Error::Dgram(error) => push_query_error(text, error),
        _ => Ok(()),
    }
}

/// Adds octets in hexadecimal digits, and a line feed.
fn push_octets(text: &mut Vec<u8>, octets: &[u8]) -> Result<(), NoMemory>
    ensures { OnOk result (text.new.items ≡ text.old.items ++ hex_word octets.now ++ 10 ∷ []) }
{
    push_hex(text, octets)?;
    text.push(b'\n')?;
    Ok(())
}

/// Adds a result and a line feed.
fn push_result(text: &mut Vec<u8>, reply: &Result<Message, Error>) -> Result<(), NoMemory>
    ensures { OnOk result (text.new.items ≡ text.old.items ++ line (result_words reply.now)) }
{
    match reply {
        Ok(message) => {
            text.extend_from_slice(b"ok ")?;
            push_octets(text, message.as_slice())
        }
        Err(error) => {
            text.extend_from_slice(b"err ")?;
            push_error(text, *error)?;
            text.push(b'\n')?;
            Ok(())
        }
    }
}

/// Adds a word, two numbers and a line feed.
fn push_pair(text: &mut Vec<u8>, word: &[u8], first: u64, second: u64) -> Result<(), NoMemory>
    ensures { OnOk result (text.new.items ≡ text.old.items ++ word.now ++ line (decimal first ∷ decimal second ∷ [])) }
{
    text.extend_from_slice(word)?;
    push_number(text, first, b' ')?;
    push_number(text, second, b'\n')
}

/// Adds a word, three numbers, octets and a line feed.
fn push_sent(
    text: &mut Vec<u8>,
    word: &[u8],
    place: u64,
    request: u64,
    id: u16,
    octets: &[u8],
) -> Result<(), NoMemory>
    ensures { OnOk result (text.new.items ≡ text.old.items ++ word.now ++ line (decimal place ∷ decimal request ∷ decimal id ∷ hex_word octets.now ∷ [])) }
{
    text.extend_from_slice(word)?;
    push_number(text, place, b' ')?;
    push_number(text, request, b' ')?;
    push_number(text, id as u64, b' ')?;
    push_octets(text, octets)
}

/// Adds a word, a place, a server and a line feed.
fn push_open(text: &mut Vec<u8>, word: &[u8], place: u64, server: u32) -> Result<(), NoMemory>
    ensures { OnOk result (text.new.items ≡ text.old.items ++ word.now ++ line (decimal place ∷ decimal server ∷ [])) }
{
    push_pair(text, word, place, server as u64)
}

/// Adds the line of a request that begins at a server.
fn push_start(text: &mut Vec<u8>, request: u64, server: u32, via: Via) -> Result<(), NoMemory>
    ensures { OnOk result (text.new.items ≡ text.old.items ++ out_line (Out.Start request server via)) }
{
    text.extend_from_slice(b"> start ")?;
    push_number(text, request, b' ')?;
    push_number(text, server as u64, b' ')?;
    text.extend_from_slice(via_word(via).as_bytes())?;
    text.push(b'\n')?;
    Ok(())
}

/// Adds a reply as a trace tells it behind `> `, and a line feed.
///
/// `NoMemory` where memory runs out. What was added until then stays.
pub fn push_reply(
    text: &mut Vec<u8>,
    request: u64,
    reply: &Result<Message, Error>,
) -> Result<(), NoMemory>
    ensures { OnOk result (text.new.items ≡ text.old.items ++ line (out_words (Out.Reply request reply.now))) }
{
    text.extend_from_slice(b"reply ")?;
    push_number(text, request, b' ')?;
    push_result(text, reply)
}

/// Writes the line of what was put out, as it stands in a trace.
fn push_out(text: &mut Vec<u8>, out: &Out) -> Result<(), NoMemory>
    ensures { OnOk result (text.new.items ≡ text.old.items ++ out_line out.now) }
{
    match out {
        Out::Start {
            request,
            server,
            via,
        } => push_start(text, *request, *server, *via),
        Out::OpenDgram { place, server } => push_open(text, b"> open-dgram ", *place, *server),
        Out::OpenStream { place, server } => push_open(text, b"> open-stream ", *place, *server),
        Out::Send {
            place,
            request,
            id,
            octets,
        } => push_sent(text, b"> send ", *place, *request, *id, octets.as_slice()),
        Out::Write {
            place,
            request,
            id,
            octets,
        } => push_sent(text, b"> write ", *place, *request, *id, octets.as_slice()),
        Out::Resume { place, octets } => {
            text.extend_from_slice(b"> resume ")?;
            push_number(text, *place, b' ')?;
            push_octets(text, octets.as_slice())
        }
        Out::Close { place } => {
            text.extend_from_slice(b"> close ")?;
            push_number(text, *place, b'\n')
        }
        Out::Stale { request } => {
            text.extend_from_slice(b"> stale ")?;
            push_number(text, *request, b'\n')
        }
        Out::Reply { request, result } => {
            text.extend_from_slice(b"> ")?;
            push_reply(text, *request, result)
        }
    }
}

/// Adds the digits of an OPT record of the root (RFC 6891 6.1.2).
fn push_opt(text: &mut Vec<u8>, opt: &OptRecord<'_>) -> Result<(), NoMemory>
    ensures { OnOk result (text.new.items ≡ text.old.items ++ hex_word (opt_octets opt.now)) }
{
    let data = opt.data();
    let [size_high, size_low] = opt.udp_payload_size().to_be_bytes();
    let [flags_high, flags_low] = opt.flags().to_be_bytes();
    let [count_high, count_low] = (data.len() as u16).to_be_bytes();
    let head = [
        0,
        0,
        41,
        size_high,
        size_low,
        opt.ext_rcode(),
        opt.version(),
        flags_high,
        flags_low,
        count_high,
        count_low,
    ];
    push_digits(text, &head)?;
    push_digits(text, data)
}

/// Adds the words of a request.
fn push_request(text: &mut Vec<u8>, request: &RequestMessage) -> Result<(), NoMemory>
    ensures { OnOk result (text.new.items ≡ text.old.items ++ join_with_byte 32 (request_words request.now)) }
{
    push_hex(text, request.base().as_slice())?;
    text.push(b' ')?;
    push_hex(text, &request.header().to_octets())?;
    text.push(b' ')?;
    match request.recorded_opt() {
        None => {
            text.push(b'-')?;
            Ok(())
        }
        Some(opt) => push_opt(text, &opt),
    }
}

/// Adds a word, a place, a blank, a fault's word and a line feed.
fn push_failed(text: &mut Vec<u8>, word: &[u8], place: u64, fault: Fault) -> Result<(), NoMemory>
    ensures { OnOk result (text.new.items ≡ text.old.items ++ word.now ++ line (decimal place ∷ fault_word fault ∷ [])) }
{
    text.extend_from_slice(word)?;
    push_number(text, place, b' ')?;
    text.extend_from_slice(fault_word(fault).as_bytes())?;
    text.push(b'\n')?;
    Ok(())
}

/// Adds a word, a place, a blank, octets and a line feed.
fn push_came(text: &mut Vec<u8>, word: &[u8], place: u64, octets: &[u8]) -> Result<(), NoMemory>
    ensures { OnOk result (text.new.items ≡ text.old.items ++ word.now ++ line (decimal place ∷ hex_word octets.now ∷ [])) }
{
    text.extend_from_slice(word)?;
    push_number(text, place, b' ')?;
    push_octets(text, octets)
}

/// Adds a word, a place and a line feed.
fn push_place(text: &mut Vec<u8>, word: &[u8], place: u64) -> Result<(), NoMemory>
    ensures { OnOk result (text.new.items ≡ text.old.items ++ word.now ++ line (decimal place ∷ [])) }
{
    text.extend_from_slice(word)?;
    push_number(text, place, b'\n')
}

/// Adds what happened, and a line feed.
fn push_what(text: &mut Vec<u8>, what: &What) -> Result<(), NoMemory>
    ensures { OnOk result (text.new.items ≡ text.old.items ++ line (what_words what.now)) }
{
    match what {
        What::Ask { request } => {
            text.extend_from_slice(b"ask ")?;
            push_request(text, request)?;
            text.push(b'\n')?;
            Ok(())
        }
        What::Opened { place } => push_place(text, b"opened ", *place),
        What::OpenFailed { place, fault } => push_failed(text, b"open-failed ", *place, *fault),
        What::SendFailed { place, fault } => push_failed(text, b"send-failed ", *place, *fault),
        What::ShortSend { place } => push_place(text, b"short-send ", *place),
        What::Datagram { place, octets } => push_came(
            text,
            b"datagram ",
            *place,
            octets.as_slice(),
        ),
        What::RecvFailed { place, fault } => push_failed(text, b"recv-failed ", *place, *fault),
        What::Wrote { place, count } => push_pair(text, b"wrote ", *place, *count),
        What::WriteFailed { place, fault } => push_failed(text, b"write-failed ", *place, *fault),
        What::Bytes { place, octets } => push_came(text, b"bytes ", *place, octets.as_slice()),
        What::ReadFailed { place, fault } => push_failed(text, b"read-failed ", *place, *fault),
        What::Ended { place } => push_place(text, b"ended ", *place),
        What::Tick => {
            text.extend_from_slice(b"tick\n")?;
            Ok(())
        }
    }
}

/// Adds the line of an event.
fn push_event(text: &mut Vec<u8>, event: &Event) -> Result<(), NoMemory>
    ensures { OnOk result (text.new.items ≡ text.old.items ++ event_line event.now) }
{
    text.extend_from_slice(b"at ")?;
    push_number(text, event.moment.0, b' ')?;
    push_what(text, &event.what)
}

/// Whether this says that a reply is stale.
pub(crate) fn says_stale(out: &Out) -> bool
    ensures { result ≡ says_stale out.now }
{
    matches!(out, Out::Stale { .. })
}

/// Whether a row says that a reply is stale.
pub fn has_stale(row: &Row) -> bool
    ensures { result ≡ has_stale row.now }
{
    row.outs.as_slice().iter().any(|out| says_stale(out))
}

fn have_stale(rows: &[Row]) -> bool
    ensures { result ≡ have_stale rows.now }
{
    rows.iter().any(|row| has_stale(row))
}

/// The text of a trace before its rows, one of which says that a reply is stale, or none. `NoMemory` where memory runs out.
pub fn begin_trace(alloc: Global, is_stale: bool) -> Result<Vec<u8>, NoMemory>
    ensures { IfOk result (λ v. v.items ≡ first_line is_stale) }
{
    let mut text = Vec::new(alloc);
    if is_stale {
        text.extend_from_slice(b"trace 2\n")?;
    } else {
        text.extend_from_slice(b"trace 1\n")?;
    }
    Ok(text)
}

/// Sets the first line of a text that was begun before it was known whether a reply is stale.
pub fn set_first_line(text: &mut Vec<u8>, is_stale: bool)
    requires { IsOfFirst text.old.items }
    ensures { text.new.items ≡ first_line is_stale ++ behind_first text.old.items }
{
    if is_stale {
        text[6] = b'2';
    }
}

/// Adds what stands behind the rows of a trace. `NoMemory` where memory runs out, and then the text stays as it was.
pub fn end_trace(text: &mut Vec<u8>) -> Result<(), NoMemory>
    ensures { OnOk result (text.new.items ≡ text.old.items ++ last_line) }
{
    text.extend_from_slice(b"end\n")?;
    Ok(())
}

/// Adds an event's line and the lines of what was put out for it.
///
/// `NoMemory` where memory runs out. What was added until then stays: the first of these lines, and perhaps a part of
/// the next.
pub fn push_row(text: &mut Vec<u8>, row: &Row) -> Result<(), NoMemory>
    ensures { OnOk result (text.new.items ≡ text.old.items ++ row_text row.now) }
{
    push_event(text, &row.event)?;
    for out in row.outs.as_slice() {
        push_out(text, out)?;
    }
    Ok(())
}

/// The text of a trace, which is read back as that trace.
pub fn trace_text(alloc: Global, t: &Trace) -> Result<Vec<u8>, NoMemory>
    ensures text { IfOk result (λ v. v.items ≡ trace_text_of t.now.rows) }
    ensures back { IfOk result (λ v. IsTrace v.items t.now.rows) }
{
    trace_is_in_range(t);
    let mut text = begin_trace(alloc, have_stale(t.rows.as_slice()))?;
    for row in t.rows.as_slice() {
        push_row(&mut text, row)?;
    }
    end_trace(&mut text)?;
    Ok(text)
}
