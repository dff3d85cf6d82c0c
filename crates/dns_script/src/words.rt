//! The words of a line.

ghost use Rattle.std.specs.Prelude.{◌≡◌, ◌++◌, ◌∷◌, [], ◌+◌, ◌/◌, ◌%◌, ◌<◌, ◌≤◌, OnOk, length};
ghost use Rattle.std.specs.Vec.{vec_len, vec_capacity};
ghost use Rattle.std.specs.Char.{digit_char};
ghost use Rattle.std.specs.Fmt.{decimal};
ghost use Rattle.std.specs.List.{flat_map};
ghost use Rattle.dns_script.specs.Words.{octet_digits, hex_word, via_word, fault_word, error_name};

use client_request::{Error, Fault, Via};
use dns_base::NoMemory;

pub(crate) fn via_word(via: Via) -> &'static str
    ensures { result.now ≡ via_word via }
{
    match via {
        Via::Dgram => "dgram",
        Via::Stream => "stream",
    }
}

pub(crate) fn fault_word(fault: Fault) -> &'static str
    ensures { result.now ≡ fault_word fault }
{
    match fault {
        Fault::Refused => "refused",
        Fault::Reset => "reset",
        Fault::Unreachable => "unreachable",
        Fault::InUse => "in-use",
        Fault::Broken => "broken",
        Fault::Other => "other",
        Fault::Expired => "expired",
        Fault::ShortSend => "short-send",
        Fault::NothingTaken => "nothing-taken",
        Fault::EndOfData => "end-of-data",
    }
}

/// The first word of an error.
pub(crate) fn error_name(error: Error) -> &'static str
    ensures { result.now ≡ error_name error }
{
    match error {
        Error::ConnectionClosed => "ConnectionClosed",
        Error::OptTooLong => "OptTooLong",
        Error::MessageBuilderPushError => "MessageBuilderPushError",
        Error::MessageParseError => "MessageParseError",
        Error::RedundantTransportNotFound => "RedundantTransportNotFound",
        Error::FormError => "FormError",
        Error::ShortMessage => "ShortMessage",
        Error::StreamLongMessage => "StreamLongMessage",
        Error::StreamIdleTimeout => "StreamIdleTimeout",
        Error::StreamReceiveError => "StreamReceiveError",
        Error::StreamReadError(_) => "StreamReadError",
        Error::StreamReadTimeout => "StreamReadTimeout",
        Error::StreamTooManyOutstandingQueries => "StreamTooManyOutstandingQueries",
        Error::StreamWriteError(_) => "StreamWriteError",
        Error::StreamUnexpectedEndOfData => "StreamUnexpectedEndOfData",
        Error::WrongReplyForQuery => "WrongReplyForQuery",
        Error::NoTransportAvailable => "NoTransportAvailable",
        Error::Dgram(_) => "Dgram",
        Error::NoMemory => "NoMemory",
        Error::NumbersUsed => "NumbersUsed",
        Error::TimedOut => "TimedOut",
        Error::AlreadyDone => "AlreadyDone",
        Error::Failed => "Failed",
    }
}

/// The lower-case hexadecimal digit of a number below 16.
fn hex_digit(number: u8) -> u8
    requires { number < 16 }
    ensures value { result ≡ digit_char number }
    ensures ascii { result < 128 }
{
    let letter = if number < 10 { 0 } else { b'a' - 10 - b'0' };
    b'0' + number + letter
}

/// How many octets are spelled at once.
const SPELLED: usize = 32;

/// Adds two digits for each octet of a piece.
fn push_piece(text: &mut Vec<u8>, piece: &[u8]) -> Result<(), NoMemory>
    requires { length piece.now ≤ 32 }
    ensures { OnOk result (text.new.items ≡ text.old.items ++ flat_map octet_digits piece.now) }
{
    let mut digits = [0; 2 * SPELLED];
    for (at, octet) in piece.iter().enumerate() {
        digits[2 * at] = hex_digit(*octet / 16);
        digits[2 * at + 1] = hex_digit(*octet % 16);
    }
    text.extend_from_slice(&digits[..2 * piece.len()])?;
    Ok(())
}

/// Adds two digits for each octet.
pub(crate) fn push_digits(text: &mut Vec<u8>, octets: &[u8]) -> Result<(), NoMemory>
    ensures { OnOk result (text.new.items ≡ text.old.items ++ flat_map octet_digits octets.now) }
{
    for piece in octets.chunks(SPELLED) {
        push_piece(text, piece)?;
    }
    Ok(())
}

/// Adds two digits for each octet, and a hyphen for no octet.
pub(crate) fn push_hex(text: &mut Vec<u8>, octets: &[u8]) -> Result<(), NoMemory>
    ensures { OnOk result (text.new.items ≡ text.old.items ++ hex_word octets.now) }
{
    if octets.is_empty() {
        text.push(b'-')?;
        return Ok(());
    }
    push_digits(text, octets)
}

/// How many digits a number has at most.
const NUMBER_DIGITS: usize = 20;

/// Adds a number of any length in decimal digits, and an octet behind it.
#[inline(never)]
fn push_long_number(text: &mut Vec<u8>, number: u64, behind: u8) -> Result<(), NoMemory>
    ensures { OnOk result (text.new.items ≡ text.old.items ++ decimal number ++ behind ∷ []) }
{
    let mut digits = [behind; NUMBER_DIGITS + 1];
    let mut at = NUMBER_DIGITS - 1;
    let mut left = number;
    while left >= 10 {
        digits[at] = b'0' + (left % 10) as u8;
        left /= 10;
        at -= 1;
    }
    digits[at] = b'0' + left as u8;
    text.extend_from_slice(&digits[at..])?;
    Ok(())
}

/// The two digits of each number below 100, one behind the other.
static PAIRS: [u8; 200] =
    *b"00010203040506070809101112131415161718192021222324252627282930313233343536373839404142434445464748495051525354555657585960616263646566676869707172737475767778798081828384858687888990919293949596979899";

/// The two digits of a number below 100.
#[inline(always)]
fn pair(number: u32) -> [u8; 2]
    requires { number < 100 }
    ensures { result ≡ (48 + number / 10) ∷ (48 + number % 10) ∷ [] }
{
    let from = number as usize * 2;
    [PAIRS[from], PAIRS[from + 1]]
}

/// How many octets a short number and the octet behind it take at most.
const SHORT_OCTETS: usize = 6;

/// Adds octets, for which there is room.
#[inline(always)]
fn put_octets(text: &mut Vec<u8>, octets: &[u8])
    requires { vec_len text.old + length octets.now ≤ vec_capacity text.old }
    ensures { text.new.items ≡ text.old.items ++ octets.now }
{
    for octet in octets {
        text.push_reserved(*octet);
    }
}

/// Adds a number of at most five digits, and an octet behind it, for which there is room.
#[inline(always)]
fn put_short_number(text: &mut Vec<u8>, number: u32, behind: u8)
    requires short { number < 100000 }
    requires room { vec_len text.old + 6 ≤ vec_capacity text.old }
    ensures { text.new.items ≡ text.old.items ++ decimal number ++ behind ∷ [] }
{
    if number < 10 {
        return put_octets(text, &[b'0' + number as u8, behind]);
    }
    let [tens, ones] = pair(number % 100);
    if number < 100 {
        return put_octets(text, &[tens, ones, behind]);
    }
    let front = number / 100;
    if number < 1000 {
        return put_octets(text, &[b'0' + front as u8, tens, ones, behind]);
    }
    let [thousands, hundreds] = pair(front % 100);
    if number < 10_000 {
        return put_octets(text, &[thousands, hundreds, tens, ones, behind]);
    }
    let first = b'0' + (front / 100) as u8;
    put_octets(text, &[first, thousands, hundreds, tens, ones, behind])
}

/// Adds a number in decimal digits, and an octet behind it. Most numbers are short, and are written straight into the
/// room that is there.
pub(crate) fn push_number(text: &mut Vec<u8>, number: u64, behind: u8) -> Result<(), NoMemory>
    ensures { OnOk result (text.new.items ≡ text.old.items ++ decimal number ++ behind ∷ []) }
{
    if number >= 100_000 || text.capacity() - text.len() < SHORT_OCTETS {
        return push_long_number(text, number, behind);
    }
    put_short_number(text, number as u32, behind);
    Ok(())
}
