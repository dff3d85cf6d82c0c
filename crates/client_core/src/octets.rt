//! Requests and what comes are made of octets, whatever they are.

ghost use Rattle.right_trace.specs.InOctets.{AreOctets, IsInOctets, AllInOctets};
ghost use Rattle.right_trace.specs.Timely.{IsAskedInOctets, AllAskedInOctets};

use client_request::{Event, What};

/// Each octet is less than 256.
fn are_octets(octets: &[u8])
    ensures { AreOctets octets.now }
{
    let _octets = octets;
}

/// What an event asks is made of octets.
fn asked_in_octets(event: &Event)
    ensures { IsAskedInOctets event.now.what }
{
    match &event.what {
        What::Ask { request } => request.is_of_octets(),
        _ => {}
    }
}

/// What comes in an event is made of octets.
pub fn in_octets(event: &Event)
    ensures { IsInOctets event.now.what }
{
    match &event.what {
        What::Datagram { octets, .. } => are_octets(octets.as_slice()),
        What::Bytes { octets, .. } => are_octets(octets.as_slice()),
        _ => {}
    }
}

/// What events ask is made of octets.
pub fn all_asked_in_octets(events: &[Event])
    ensures { AllAskedInOctets events.now }
{
    for event in events {
        asked_in_octets(event);
    }
}

/// What comes in events is made of octets.
pub fn all_in_octets(events: &[Event])
    ensures { AllInOctets events.now }
{
    for event in events {
        in_octets(event);
    }
}
